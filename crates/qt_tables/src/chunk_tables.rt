//! The chunks of a track.

ghost use Rattle.std.specs.Prelude.{◌≡◌, ◌≤◌, ◌<◌, ◌^◌, ◌+◌, length, IfOk, false, nat_le};
ghost use Rattle.pw_outside.specs.Ports.{CountsFault};
ghost use Rattle.pw_outside.specs.Reading.{Answers, Told};
ghost use Rattle.qt_tables.specs.Faults.{told_fault, is_failed};
ghost use Rattle.qt_tables.specs.Samples.{run_of};
ghost use Rattle.qt_tables.specs.Tables.{chunk_tables_in, AreChunkLists, AreRuns};
ghost use Rattle.qt_tables.specs.declared.tables.TheConstants.{MAX_SAMPLES};

use crate::fault::MovieFault;
use crate::judging::{descriptions_in, offsets_of, offsets_table_of, runs_of, table_of};
use crate::runs::ChunkRun;
use pw_outside::ByteStore;
use qt_atoms::{Atom, find};
use std::alloc::Global;
use std::marker::Model;

/// A chunk of a track: consecutive samples in the file.
#[derive(Clone, Copy, Debug, PartialEq, Eq)]
pub struct Chunk {
    /// The offset of its first byte in the file, below 2^62.
    pub at: u64,
    /// The number of its samples.
    pub samples: u32,
}

/// The chunk tables of a track: at most [`MAX_SAMPLES`](crate::MAX_SAMPLES) chunks.
#[derive(Drop)]
pub struct ChunkTables {
    runs: Vec<ChunkRun>,
    offsets: Vec<u64>,
}

impl Model for ChunkTables {
    ghost use Rattle.qt_tables.specs.Samples.{ChunkLists};
    ghost use Rattle.qt_tables.specs.Tables.{AreChunkLists};

    ghost Value = { ChunkLists };

    ghost view = { λ t. record { runs = t.runs.items; offsets = t.offsets.items } };

    ghost invariant = { λ t. AreChunkLists (record { runs = t.runs.items; offsets = t.offsets.items }) };
}

/// The number of samples of chunk `number`, from 1: that of the last run that begins at it or before it. Binary
/// search.
fn samples_of(runs: &[ChunkRun], number: u32) -> u32
    requires from_1 { 1 ≤ number }
    requires runs { AreRuns runs.now }
    requires few { length runs.now ≤ MAX_SAMPLES }
    ensures { result ≡ (run_of runs.now number).samples }
{
    if runs.len() == 0 {
        return 0;
    }
    let mut low = 0;
    let mut high = runs.len();
    'halves: while low + 1 < high {
        let middle = low + (high - low) / 2;
        if runs[middle].first <= number {
            low = middle;
        } else {
            high = middle;
        }
    }
    runs[low].samples
}

impl ChunkTables {
    ghost use Rattle.std.specs.Prelude.{◌≡◌, ◌<◌, ◌≤◌, ◌^◌, length, slice_get, Some, map};
    ghost use Rattle.qt_tables.specs.Samples.{chunks};
    ghost use Rattle.qt_tables.specs.declared.tables.TheConstants.{MAX_SAMPLES};

    /// Reads the chunk tables of the track with this `stbl`: `stsc`, and the first of `stco` and `co64`, each
    /// validated in this order.
    ///
    /// The errors are those of [`crate::SampleTables::read`] for these two tables.
    #[tactic(auto, unfolding(crate::specs::Tables::chunk_tables_in, pw_outside::specs::Reading::bind))]
    pub fn read<M: ByteStore>(
        alloc: Global,
        store: &mut M,
        stbl: &Atom,
    ) -> Result<ChunkTables, MovieFault>
        requires order { stbl.now.body ≤ stbl.now.end }
        requires inside { Told (M.bytes store.old) (λ file. stbl.now.end ≤ length file) }
        // If the store's bytes are visible, the result is their chunk tables, or the first fault of them.
        ensures value { Told (M.bytes store.old) (λ file. Answers told_fault (λ t. t) result (chunk_tables_in file stbl.now)) }
        // The tables are within the limits, whether the bytes are visible or opaque.
        ensures tables { IfOk result AreChunkLists }
        ensures bytes { M.bytes store.new ≡ M.bytes store.old }
        // The result is `Failed` exactly if a call of the store failed.
        ensures cause { CountsFault (M.faults store.old) (M.faults store.new) (is_failed result) }
    {
        let stsc = table_of(store, stbl, *b"stsc")?;
        let stsd = find(store, stbl, *b"stsd")?;
        let descriptions = descriptions_in(store, &stsd)?;
        let runs = runs_of(alloc, store, &stsc, descriptions)?;
        let table = offsets_table_of(store, stbl)?;
        let offsets = offsets_of(alloc, store, &table)?;
        Ok(ChunkTables { runs, offsets })
    }

    /// The number of chunks, at most [`MAX_SAMPLES`](crate::MAX_SAMPLES).
    pub fn count(&self) -> u32
        ensures value { result ≡ length self.now.offsets }
        ensures few { result ≤ MAX_SAMPLES }
    {
        self.offsets.len() as u32
    }

    /// Chunk `i` of the track, from 0: its offset and its number of samples, which is 0 if the `stsc` has no
    /// entries. Takes no memory.
    pub fn chunk(&self, i: u32) -> Chunk
        requires { i < length self.now.offsets }
        ensures value { slice_get (map (λ c. record { at = c.at; samples = c.samples }) (chunks self.now.runs self.now.offsets)) i ≡ Some result }
        ensures near { result.at < 2 ^ 62 }
    {
        Chunk {
            at: self.offsets[i as usize],
            samples: samples_of(&self.runs, i + 1),
        }
    }
}
