//! Finds and validates each sample table.

ghost use Rattle.std.specs.Prelude.{nat_le, ◌≡◌, ◌≤◌, ◌<◌, ◌+◌, ◌-◌, ◌*◌, ◌^◌, length, Option, Some, Ok, false, true, IfOk, OnOk, IfSome, codes, ◌&&◌, [], ◌∷◌};
ghost use Rattle.std.specs.List.{list_any, All};
ghost use Rattle.std.specs.Int.{w8, w32};
ghost use Rattle.pw_outside.specs.Ports.{CountsFault};
ghost use Rattle.pw_outside.specs.Reading.{Answers, Told};
ghost use Rattle.qt_atoms.specs.Atoms.{number_in, LiesIn};
ghost use Rattle.qt_tables.specs.Faults.{told_fault, is_failed};
ghost use Rattle.qt_tables.specs.Tables.{table_in, count_in, timescale_in, sizes_in, times_in, begins_at_1, is_in_order, AreRuns, runs_in, descriptions_of, offsets_in, offsets_table_in};
ghost use Rattle.qt_tables.specs.declared.tables.TheConstants.{MAX_SAMPLES};

use crate::fault::{MovieFault, MovieKind, bad};
use crate::rows::{chunk_runs_of, numbers_of, places32_of, places64_of, repeated, time_runs_of};
use crate::runs::{ChunkRun, TimeRun};
use crate::tables::MAX_SAMPLES;
use pw_outside::{ByteStore, fill_at};
use qt_atoms::{Atom, find, find_either};
use std::alloc::Global;

/// The byte at an offset that the store has.
fn byte_at<M: ByteStore>(store: &mut M, place: u64) -> Result<u8, MovieFault>
    requires inside { Told (M.bytes store.old) (λ file. place + 1 ≤ length file) }
    requires room { place + 1 < 2 ^ 64 }
    ensures value { Told (M.bytes store.old) (λ file. Answers told_fault (λ n. n) result (Ok (number_in w8 file place))) }
    ensures bytes { M.bytes store.new ≡ M.bytes store.old }
    ensures cause { CountsFault (M.faults store.old) (M.faults store.new) (is_failed result) }
{
    let mut piece = [0u8; 1];
    let count = fill_at(store, place, &mut piece)?;
    if count < 1 {
        return Err(bad(MovieKind::TableShape, place));
    }
    Ok(u8::from_be_bytes(piece))
}

/// The 32-bit number at an offset that the store has.
fn number_at<M: ByteStore>(store: &mut M, place: u64) -> Result<u32, MovieFault>
    requires inside { Told (M.bytes store.old) (λ file. place + 4 ≤ length file) }
    requires room { place + 4 < 2 ^ 64 }
    ensures value { Told (M.bytes store.old) (λ file. Answers told_fault (λ n. n) result (Ok (number_in w32 file place))) }
    ensures bytes { M.bytes store.new ≡ M.bytes store.old }
    ensures cause { CountsFault (M.faults store.old) (M.faults store.new) (is_failed result) }
{
    let mut piece = [0u8; 4];
    let count = fill_at(store, place, &mut piece)?;
    if count < 4 {
        return Err(bad(MovieKind::TableShape, place));
    }
    Ok(u32::from_be_bytes(piece))
}

/// The first child of this kind; `MissingTable` if there is none.
#[tactic(auto, unfolding(pw_outside::specs::Reading::bind))]
pub(crate) fn table_of<M: ByteStore>(
    store: &mut M,
    parent: &Atom,
    kind: [u8; 4],
) -> Result<Atom, MovieFault>
    requires order { parent.now.body ≤ parent.now.end }
    requires inside { Told (M.bytes store.old) (λ file. parent.now.end ≤ length file) }
    ensures value { Told (M.bytes store.old) (λ file. Answers told_fault (λ a. a) result (table_in file parent.now kind)) }
    ensures lies { IfOk result (LiesIn parent.now.body parent.now.end) }
    ensures bytes { M.bytes store.new ≡ M.bytes store.old }
    ensures cause { CountsFault (M.faults store.old) (M.faults store.new) (is_failed result) }
{
    match find(store, parent, kind)? {
        Some(table) => Ok(table),
        None => Err(bad(MovieKind::MissingTable, parent.at)),
    }
}

/// The first table of chunk offsets.
#[tactic(auto, unfolding(pw_outside::specs::Reading::bind))]
pub(crate) fn offsets_table_of<M: ByteStore>(store: &mut M, stbl: &Atom) -> Result<Atom, MovieFault>
    requires order { stbl.now.body ≤ stbl.now.end }
    requires inside { Told (M.bytes store.old) (λ file. stbl.now.end ≤ length file) }
    ensures value { Told (M.bytes store.old) (λ file. Answers told_fault (λ a. a) result (offsets_table_in file stbl.now)) }
    ensures lies { IfOk result (LiesIn stbl.now.body stbl.now.end) }
    ensures bytes { M.bytes store.new ≡ M.bytes store.old }
    ensures cause { CountsFault (M.faults store.old) (M.faults store.new) (is_failed result) }
{
    match find_either(store, stbl, [*b"stco", *b"co64"])? {
        Some(table) => Ok(table),
        None => Err(bad(MovieKind::MissingTable, stbl.at)),
    }
}

/// The number of rows of a table, each of `step` bytes, after `before` bytes and the count.
#[tactic(auto, unfolding(crate::specs::Tables::count_in, pw_outside::specs::Reading::bind))]
fn count_of<M: ByteStore>(
    store: &mut M,
    table: &Atom,
    before: u64,
    step: u64,
) -> Result<u64, MovieFault>
    requires order { table.now.body ≤ table.now.end }
    requires small { (before ≤ 8) × (step ≤ 12) }
    requires inside { Told (M.bytes store.old) (λ file. table.now.end ≤ length file) }
    ensures value { Told (M.bytes store.old) (λ file. Answers told_fault (λ n. n) result (count_in file table.now before step)) }
    ensures room { IfOk result (λ n. (n ≤ MAX_SAMPLES)
        × (table.now.body + before + 4 + step * n ≤ table.now.end) × (table.now.end < 2 ^ 64)) }
    ensures bytes { M.bytes store.new ≡ M.bytes store.old }
    ensures cause { CountsFault (M.faults store.old) (M.faults store.new) (is_failed result) }
{
    if table.end - table.body < before + 4 {
        return Err(bad(MovieKind::TableShape, table.at));
    }
    let count = number_at(store, table.body + before)?;
    if MAX_SAMPLES < count {
        return Err(bad(MovieKind::TooManySamples, table.at));
    }
    if table.end - table.body < before + 4 + step * count as u64 {
        return Err(bad(MovieKind::TableShape, table.at));
    }
    Ok(count as u64)
}

/// Validates an `mdhd` and returns its time scale.
#[tactic(auto, unfolding(crate::specs::Tables::timescale_in, pw_outside::specs::Reading::bind))]
pub(crate) fn timescale_of<M: ByteStore>(store: &mut M, mdhd: &Atom) -> Result<u32, MovieFault>
    requires order { mdhd.now.body ≤ mdhd.now.end }
    requires inside { Told (M.bytes store.old) (λ file. mdhd.now.end ≤ length file) }
    ensures value { Told (M.bytes store.old) (λ file. Answers told_fault (λ n. n) result (timescale_in file mdhd.now)) }
    ensures least { IfOk result (λ n. 1 ≤ n) }
    ensures bytes { M.bytes store.new ≡ M.bytes store.old }
    ensures cause { CountsFault (M.faults store.old) (M.faults store.new) (is_failed result) }
{
    let length = mdhd.end - mdhd.body;
    if length == 0 {
        return Err(bad(MovieKind::TableShape, mdhd.at));
    }
    let version = byte_at(store, mdhd.body)?;
    if 1 < version {
        return Err(bad(MovieKind::TableShape, mdhd.at));
    }
    let at = if version == 0 { 12 } else { 20 };
    if length < at + 4 {
        return Err(bad(MovieKind::TableShape, mdhd.at));
    }
    let timescale = number_at(store, mdhd.body + at)?;
    if timescale == 0 {
        return Err(bad(MovieKind::TableShape, mdhd.at));
    }
    Ok(timescale)
}

/// Validates an `stsz` and returns its sizes.
#[tactic(auto, unfolding(crate::specs::Tables::sizes_in, crate::specs::Tables::count_in, pw_outside::specs::Reading::bind))]
pub(crate) fn sizes_of<M: ByteStore>(
    alloc: Global,
    store: &mut M,
    stsz: &Atom,
) -> Result<Vec<u32>, MovieFault>
    requires order { stsz.now.body ≤ stsz.now.end }
    requires inside { Told (M.bytes store.old) (λ file. stsz.now.end ≤ length file) }
    ensures value { Told (M.bytes store.old) (λ file. Answers told_fault (λ v. v.items) result (sizes_in file stsz.now)) }
    ensures few { IfOk result (λ v. length v.items ≤ MAX_SAMPLES) }
    ensures bytes { M.bytes store.new ≡ M.bytes store.old }
    ensures cause { CountsFault (M.faults store.old) (M.faults store.new) (is_failed result) }
{
    if stsz.end - stsz.body < 12 {
        return Err(bad(MovieKind::TableShape, stsz.at));
    }
    let common = number_at(store, stsz.body + 4)?;
    if common != 0 {
        let count = count_of(store, stsz, 8, 0)?;
        return repeated(alloc, common, count);
    }
    let count = count_of(store, stsz, 8, 4)?;
    numbers_of(alloc, store, stsz.body + 12, count)
}

/// Validates an `stts` and returns its runs.
#[tactic(auto, unfolding(crate::specs::Tables::times_in, pw_outside::specs::Reading::bind))]
pub(crate) fn times_of<M: ByteStore>(
    alloc: Global,
    store: &mut M,
    stts: &Atom,
) -> Result<Vec<TimeRun>, MovieFault>
    requires order { stts.now.body ≤ stts.now.end }
    requires inside { Told (M.bytes store.old) (λ file. stts.now.end ≤ length file) }
    ensures value { Told (M.bytes store.old) (λ file. Answers told_fault (λ v. v.items) result (times_in file stts.now)) }
    ensures few { IfOk result (λ v. length v.items ≤ MAX_SAMPLES) }
    ensures bytes { M.bytes store.new ≡ M.bytes store.old }
    ensures cause { CountsFault (M.faults store.old) (M.faults store.new) (is_failed result) }
{
    let count = count_of(store, stts, 4, 8)?;
    time_runs_of(alloc, store, stts.body + 8, count)
}

/// Whether the runs begin at chunk 1 and rise, none has empty chunks, and each names an existing description.
fn are_runs(runs: &[ChunkRun], descriptions: u32) -> bool
    ensures { result ≡ (begins_at_1 runs.now && is_in_order descriptions 0 runs.now) }
{
    if 0 < runs.len() && runs[0].first != 1 {
        return false;
    }
    let mut from = 0;
    'runs: for run in runs {
        if run.first <= from
            || run.samples == 0
            || run.description == 0
            || descriptions < run.description
        {
            return false;
        }
        from = run.first;
    }
    true
}

/// Validates an `stsc`, for this number of descriptions, and returns its runs.
#[tactic(auto, unfolding(crate::specs::Tables::runs_in, pw_outside::specs::Reading::bind))]
pub(crate) fn runs_of<M: ByteStore>(
    alloc: Global,
    store: &mut M,
    stsc: &Atom,
    descriptions: u32,
) -> Result<Vec<ChunkRun>, MovieFault>
    requires order { stsc.now.body ≤ stsc.now.end }
    requires inside { Told (M.bytes store.old) (λ file. stsc.now.end ≤ length file) }
    ensures value { Told (M.bytes store.old) (λ file. Answers told_fault (λ v. v.items) result (runs_in file stsc.now descriptions)) }
    ensures few { IfOk result (λ v. length v.items ≤ MAX_SAMPLES) }
    ensures good { IfOk result (λ v. AreRuns v.items) }
    ensures bytes { M.bytes store.new ≡ M.bytes store.old }
    ensures cause { CountsFault (M.faults store.old) (M.faults store.new) (is_failed result) }
{
    let count = count_of(store, stsc, 4, 12)?;
    let runs = chunk_runs_of(alloc, store, stsc.body + 8, count)?;
    if !are_runs(&runs, descriptions) {
        return Err(bad(MovieKind::TableShape, stsc.at));
    }
    Ok(runs)
}

/// The number of descriptions by the `stsd`, 0 if there is none.
pub(crate) fn descriptions_in<M: ByteStore>(
    store: &mut M,
    stsd: &Option<Atom>,
) -> Result<u32, MovieFault>
    requires order { IfSome stsd.now (λ a. a.body ≤ a.end) }
    requires inside { Told (M.bytes store.old) (λ file. IfSome stsd.now (λ a. a.end ≤ length file)) }
    ensures value { Told (M.bytes store.old) (λ file. Answers told_fault (λ n. n) result (Ok (descriptions_of file stsd.now))) }
    ensures bytes { M.bytes store.new ≡ M.bytes store.old }
    ensures cause { CountsFault (M.faults store.old) (M.faults store.new) (is_failed result) }
{
    match stsd {
        None => Ok(0),
        Some(stsd) => {
            if stsd.end - stsd.body < 8 {
                return Ok(0);
            }
            number_at(store, stsd.body + 4)
        }
    }
}

/// Whether an offset is 2^62 or more.
fn has_far(offsets: &[u64]) -> bool
    ensures { result ≡ list_any (λ offset. nat_le (2 ^ 62) offset) offsets.now }
{
    offsets.iter().any(|offset| *offset >= 1 << 62)
}

/// Validates an `stco` or a `co64` and returns its offsets.
#[tactic(auto, unfolding(crate::specs::Tables::offsets_in, pw_outside::specs::Reading::bind))]
pub(crate) fn offsets_of<M: ByteStore>(
    alloc: Global,
    store: &mut M,
    table: &Atom,
) -> Result<Vec<u64>, MovieFault>
    requires order { table.now.body ≤ table.now.end }
    requires inside { Told (M.bytes store.old) (λ file. table.now.end ≤ length file) }
    ensures value { Told (M.bytes store.old) (λ file. Answers told_fault (λ v. v.items) result (offsets_in file table.now)) }
    ensures few { IfOk result (λ v. length v.items ≤ MAX_SAMPLES) }
    ensures near { IfOk result (λ v. All (λ offset. offset < 2 ^ 62) v.items) }
    ensures bytes { M.bytes store.new ≡ M.bytes store.old }
    ensures cause { CountsFault (M.faults store.old) (M.faults store.new) (is_failed result) }
{
    if table.kind == *b"stco" {
        let count = count_of(store, table, 4, 4)?;
        return places32_of(alloc, store, table.body + 8, count);
    }
    let count = count_of(store, table, 4, 8)?;
    let offsets = places64_of(alloc, store, table.body + 8, count)?;
    if has_far(&offsets) {
        return Err(bad(MovieKind::TableShape, table.at));
    }
    Ok(offsets)
}
