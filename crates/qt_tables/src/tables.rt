//! The sample tables of a track.

ghost use Rattle.std.specs.Prelude.{◌≡◌, ◌≤◌, ◌<◌, ◌==◌, length, sum_by, IfOk};
ghost use Rattle.pw_outside.specs.Ports.{CountsFault};
ghost use Rattle.pw_outside.specs.Reading.{Answers, Told};
ghost use Rattle.qt_tables.specs.Faults.{told_fault, is_failed};
ghost use Rattle.qt_tables.specs.Samples.{chunks, held_by};
ghost use Rattle.qt_tables.specs.Sums.{AreSums, timed_before, held_before};
ghost use Rattle.qt_tables.specs.Tables.{tables_in, AreTables};

use crate::fault::{MovieFault, MovieKind, bad};
use crate::finding::{duration_of, held_of, sample_in};
use crate::judging::{
    descriptions_in, offsets_of, offsets_table_of, runs_of, sizes_of, table_of, times_of,
    timescale_of,
};
use crate::runs::{ChunkRun, Sample, TimeRun};
use crate::sums::{run_sums, size_sums, time_sums};
use pw_outside::ByteStore;
use qt_atoms::{Atom, find};
use std::alloc::Global;
use std::marker::Model;

/// The maximum number of samples, and of rows of one table, that a track may have.
pub const MAX_SAMPLES: u32 = 1_000_000;

/// The sample tables of a track, which agree on its number of samples: at most [`MAX_SAMPLES`].
#[derive(Drop)]
pub struct SampleTables {
    timescale: u32,
    sizes: Vec<u32>,
    times: Vec<TimeRun>,
    runs: Vec<ChunkRun>,
    offsets: Vec<u64>,
    size_sums: Vec<u64>,
    time_sums: Vec<u64>,
    run_sums: Vec<u64>,
}

impl Model for SampleTables {
    ghost use Rattle.std.specs.Prelude.{length};
    ghost use Rattle.qt_tables.specs.Samples.{Tables};
    ghost use Rattle.qt_tables.specs.Sums.{AreSums, bytes_before, timed_before, held_before};
    ghost use Rattle.qt_tables.specs.Tables.{AreTables};

    ghost Value = { Tables };

    ghost view = { λ t. record { timescale = t.timescale; sizes = t.sizes.items; times = t.times.items; runs = t.runs.items; offsets = t.offsets.items } };

    ghost invariant = { λ t. AreTables (record { timescale = t.timescale; sizes = t.sizes.items; times = t.times.items; runs = t.runs.items; offsets = t.offsets.items }) × AreSums (length t.sizes.items) (bytes_before t.sizes.items) t.size_sums.items × AreSums (length t.times.items) (timed_before t.times.items) t.time_sums.items × AreSums (length t.runs.items) (held_before t.runs.items t.offsets.items) t.run_sums.items };
}

/// Whether the runs of durations cover exactly `count` samples.
fn are_timed(times: &[TimeRun], sums: &[u64], count: usize) -> bool
    requires { AreSums (length times.now) (timed_before times.now) sums.now }
    ensures { result ≡ (sum_by (λ r. r.count) times.now == count) }
{
    sums[times.len()] == count as u64
}

/// Whether the chunks hold exactly `count` samples.
fn are_held(runs: &[ChunkRun], offsets: &[u64], sums: &[u64], count: usize) -> bool
    requires { AreSums (length runs.now) (held_before runs.now offsets.now) sums.now }
    ensures { result ≡ (held_by (chunks runs.now offsets.now) == count) }
{
    sums[runs.len()] == count as u64
}

impl SampleTables {
    ghost use Rattle.std.specs.Prelude.{◌≡◌, ◌<◌, ◌≤◌, ◌^◌, length, slice_get, Some};
    ghost use Rattle.qt_tables.specs.Samples.{Tables, samples};
    ghost use Rattle.qt_tables.specs.declared.tables.TheConstants.{MAX_SAMPLES};

    /// Reads the tables of the track with this `stbl` and this `mdia`: `mdhd`, `stsz`, `stts`, `stsc`, and the
    /// first of `stco` and `co64`, each validated in this order.
    ///
    /// The errors are `Bad` with the first fault (`AtomSize`, `MissingTable`, `TooManySamples`, `TableShape`,
    /// `TablesDisagree`), `Failed` if a call of the store failed, and `NoMemory`. If an opaque store has fewer
    /// bytes than its atoms say, the error is `Bad` with `AtomSize` or `TableShape`.
    #[tactic(auto, unfolding(crate::specs::Tables::tables_in, pw_outside::specs::Reading::bind))]
    pub fn read<M: ByteStore>(
        alloc: Global,
        store: &mut M,
        stbl: &Atom,
        mdia: &Atom,
    ) -> Result<SampleTables, MovieFault>
        requires stbl_order { stbl.now.body ≤ stbl.now.end }
        requires mdia_order { mdia.now.body ≤ mdia.now.end }
        requires stbl_inside { Told (M.bytes store.old) (λ file. stbl.now.end ≤ length file) }
        requires mdia_inside { Told (M.bytes store.old) (λ file. mdia.now.end ≤ length file) }
        // If the store's bytes are visible, the result is their tables, or the first fault of them.
        ensures value { Told (M.bytes store.old) (λ file. Answers told_fault (λ t. t) result (tables_in file stbl.now mdia.now)) }
        // The tables are within the limits and agree, whether the bytes are visible or opaque.
        ensures tables { IfOk result AreTables }
        ensures bytes { M.bytes store.new ≡ M.bytes store.old }
        // The result is `Failed` exactly if a call of the store failed.
        ensures cause { CountsFault (M.faults store.old) (M.faults store.new) (is_failed result) }
    {
        let mdhd = table_of(store, mdia, *b"mdhd")?;
        let timescale = timescale_of(store, &mdhd)?;
        let stsz = table_of(store, stbl, *b"stsz")?;
        let sizes = sizes_of(alloc, store, &stsz)?;
        let stts = table_of(store, stbl, *b"stts")?;
        let times = times_of(alloc, store, &stts)?;
        let stsc = table_of(store, stbl, *b"stsc")?;
        let stsd = find(store, stbl, *b"stsd")?;
        let descriptions = descriptions_in(store, &stsd)?;
        let runs = runs_of(alloc, store, &stsc, descriptions)?;
        let table = offsets_table_of(store, stbl)?;
        let offsets = offsets_of(alloc, store, &table)?;
        let time_sums = time_sums(alloc, &times)?;
        if !are_timed(&times, &time_sums, sizes.len()) {
            return Err(bad(MovieKind::TablesDisagree, stsz.at));
        }
        let run_sums = run_sums(alloc, &runs, &offsets)?;
        if !are_held(&runs, &offsets, &run_sums, sizes.len()) {
            return Err(bad(MovieKind::TablesDisagree, stsz.at));
        }
        let size_sums = size_sums(alloc, &sizes)?;
        Ok(SampleTables {
            timescale,
            sizes,
            times,
            runs,
            offsets,
            size_sums,
            time_sums,
            run_sums,
        })
    }

    /// The number of samples, at most [`MAX_SAMPLES`].
    pub fn count(&self) -> u32
        ensures value { result ≡ length self.now.sizes }
        ensures few { result ≤ MAX_SAMPLES }
    {
        self.sizes.len() as u32
    }

    /// Units of durations per second, at least 1.
    pub fn timescale(&self) -> u32
        ensures value { result ≡ self.now.timescale }
        ensures least { 1 ≤ result }
    {
        self.timescale
    }

    /// Sample `i` of the track, from 0, by binary search. Takes no memory.
    pub fn sample(&self, i: u32) -> Sample
        requires { i < length self.now.sizes }
        ensures value { slice_get (samples self.now) i ≡ Some result }
        ensures near { result.at < 2 ^ 63 }
    {
        let held = held_of(&self.runs, &self.run_sums, &self.offsets, i);
        let duration = duration_of(&self.times, &self.time_sums, i);
        sample_in(
            &self.sizes,
            &self.size_sums,
            &self.offsets,
            held,
            duration,
            i,
        )
    }
}
