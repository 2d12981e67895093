//! Reads the rows of tables.

ghost use Rattle.std.specs.Prelude.{◌≡◌, ◌+◌, ◌*◌, ◌^◌, ◌<◌, ◌≤◌, length, Ok, IfOk, OnOk, replicate, false};
ghost use Rattle.std.specs.List.{All};
ghost use Rattle.std.specs.Int.{w32, w64};
ghost use Rattle.pw_outside.specs.Ports.{CountsFault};
ghost use Rattle.pw_outside.specs.Reading.{Answers, Told};
ghost use Rattle.qt_atoms.specs.Atoms.{number_in};
ghost use Rattle.qt_atoms.specs.Written.{rows};
ghost use Rattle.qt_tables.specs.Faults.{told_fault, is_failed};
ghost use Rattle.qt_tables.specs.Tables.{time_run_at, chunk_run_at};
ghost use Rattle.qt_tables.specs.inner.Window.{Shows};
ghost use Rattle.qt_tables.specs.declared.tables.TheConstants.{MAX_SAMPLES};

use crate::fault::MovieFault;
use crate::runs::{ChunkRun, TimeRun};
use crate::window::{Window, u32_at, u64_at};
use pw_outside::ByteStore;
use std::alloc::Global;

/// `count` consecutive 32-bit numbers.
pub(crate) fn numbers_of<M: ByteStore>(
    alloc: Global,
    store: &mut M,
    from: u64,
    count: u64,
) -> Result<Vec<u32>, MovieFault>
    requires few { count ≤ MAX_SAMPLES }
    requires inside { Told (M.bytes store.old) (λ file. from + 4 * count ≤ length file) }
    requires room { from + 4 * count < 2 ^ 64 }
    ensures value { Told (M.bytes store.old) (λ file. Answers told_fault (λ v. v.items) result (Ok (rows (number_in w32 file) from 4 count))) }
    ensures len { IfOk result (λ v. length v.items ≡ count) }
    ensures bytes { M.bytes store.new ≡ M.bytes store.old }
    ensures cause { CountsFault (M.faults store.old) (M.faults store.new) (is_failed result) }
{
    let mut window = Window::new(from + 4 * count);
    let mut found = Vec::new(alloc);
    'rows: for i in 0..count {
        let row = u32_at(&mut window, store, from + 4 * i)?;
        found.push(row)?;
    }
    Ok(found)
}

/// `number`, `count` times.
pub(crate) fn repeated(alloc: Global, number: u32, count: u64) -> Result<Vec<u32>, MovieFault>
    ensures value { Answers told_fault (λ v. v.items) result (Ok (replicate count number)) }
    ensures len { IfOk result (λ v. length v.items ≡ count) }
    ensures failed { is_failed result ≡ false }
{
    let mut numbers = Vec::new(alloc);
    'rows: for _i in 0..count {
        numbers.push(number)?;
    }
    Ok(numbers)
}

fn time_run_of<M: ByteStore>(
    window: &mut Window,
    store: &mut M,
    place: u64,
) -> Result<TimeRun, MovieFault>
    requires shows { Shows (M.bytes store.old) window.old }
    requires place { place + 8 ≤ window.old.end }
    requires inside { Told (M.bytes store.old) (λ file. window.old.end ≤ length file) }
    ensures end { window.new.end ≡ window.old.end }
    ensures shows { OnOk result (Shows (M.bytes store.old) window.new) }
    ensures value { Told (M.bytes store.old) (λ file. Answers told_fault (λ r. r) result (Ok (time_run_at file place))) }
    ensures bytes { M.bytes store.new ≡ M.bytes store.old }
    ensures cause { CountsFault (M.faults store.old) (M.faults store.new) (is_failed result) }
{
    let count = u32_at(window, store, place)?;
    let duration = u32_at(window, store, place + 4)?;
    Ok(TimeRun { count, duration })
}

fn chunk_run_of<M: ByteStore>(
    window: &mut Window,
    store: &mut M,
    place: u64,
) -> Result<ChunkRun, MovieFault>
    requires shows { Shows (M.bytes store.old) window.old }
    requires place { place + 12 ≤ window.old.end }
    requires inside { Told (M.bytes store.old) (λ file. window.old.end ≤ length file) }
    ensures end { window.new.end ≡ window.old.end }
    ensures shows { OnOk result (Shows (M.bytes store.old) window.new) }
    ensures value { Told (M.bytes store.old) (λ file. Answers told_fault (λ r. r) result (Ok (chunk_run_at file place))) }
    ensures bytes { M.bytes store.new ≡ M.bytes store.old }
    ensures cause { CountsFault (M.faults store.old) (M.faults store.new) (is_failed result) }
{
    let first = u32_at(window, store, place)?;
    let samples = u32_at(window, store, place + 4)?;
    let description = u32_at(window, store, place + 8)?;
    Ok(ChunkRun {
        first,
        samples,
        description,
    })
}

/// `count` consecutive runs of durations.
pub(crate) fn time_runs_of<M: ByteStore>(
    alloc: Global,
    store: &mut M,
    from: u64,
    count: u64,
) -> Result<Vec<TimeRun>, MovieFault>
    requires few { count ≤ MAX_SAMPLES }
    requires inside { Told (M.bytes store.old) (λ file. from + 8 * count ≤ length file) }
    requires room { from + 8 * count < 2 ^ 64 }
    ensures value { Told (M.bytes store.old) (λ file. Answers told_fault (λ v. v.items) result (Ok (rows (time_run_at file) from 8 count))) }
    ensures len { IfOk result (λ v. length v.items ≡ count) }
    ensures bytes { M.bytes store.new ≡ M.bytes store.old }
    ensures cause { CountsFault (M.faults store.old) (M.faults store.new) (is_failed result) }
{
    let mut window = Window::new(from + 8 * count);
    let mut found = Vec::new(alloc);
    'rows: for i in 0..count {
        let row = time_run_of(&mut window, store, from + 8 * i)?;
        found.push(row)?;
    }
    Ok(found)
}

/// `count` consecutive runs of chunks.
pub(crate) fn chunk_runs_of<M: ByteStore>(
    alloc: Global,
    store: &mut M,
    from: u64,
    count: u64,
) -> Result<Vec<ChunkRun>, MovieFault>
    requires few { count ≤ MAX_SAMPLES }
    requires inside { Told (M.bytes store.old) (λ file. from + 12 * count ≤ length file) }
    requires room { from + 12 * count < 2 ^ 64 }
    ensures value { Told (M.bytes store.old) (λ file. Answers told_fault (λ v. v.items) result (Ok (rows (chunk_run_at file) from 12 count))) }
    ensures len { IfOk result (λ v. length v.items ≡ count) }
    ensures bytes { M.bytes store.new ≡ M.bytes store.old }
    ensures cause { CountsFault (M.faults store.old) (M.faults store.new) (is_failed result) }
{
    let mut window = Window::new(from + 12 * count);
    let mut found = Vec::new(alloc);
    'rows: for i in 0..count {
        let row = chunk_run_of(&mut window, store, from + 12 * i)?;
        found.push(row)?;
    }
    Ok(found)
}

/// The 32-bit offset at a position of a table, which has it.
fn place32_at<M: ByteStore>(
    window: &mut Window,
    store: &mut M,
    place: u64,
) -> Result<u64, MovieFault>
    requires shows { Shows (M.bytes store.old) window.old }
    requires place { place + 4 ≤ window.old.end }
    requires inside { Told (M.bytes store.old) (λ file. window.old.end ≤ length file) }
    ensures end { window.new.end ≡ window.old.end }
    ensures shows { OnOk result (Shows (M.bytes store.old) window.new) }
    ensures value { Told (M.bytes store.old) (λ file. Answers told_fault (λ n. n) result (Ok (number_in w32 file place))) }
    ensures small { IfOk result (λ n. n < 2 ^ 32) }
    ensures bytes { M.bytes store.new ≡ M.bytes store.old }
    ensures cause { CountsFault (M.faults store.old) (M.faults store.new) (is_failed result) }
{
    Ok(u64::from(u32_at(window, store, place)?))
}

/// `count` consecutive 32-bit offsets.
pub(crate) fn places32_of<M: ByteStore>(
    alloc: Global,
    store: &mut M,
    from: u64,
    count: u64,
) -> Result<Vec<u64>, MovieFault>
    requires few { count ≤ MAX_SAMPLES }
    requires inside { Told (M.bytes store.old) (λ file. from + 4 * count ≤ length file) }
    requires room { from + 4 * count < 2 ^ 64 }
    ensures value { Told (M.bytes store.old) (λ file. Answers told_fault (λ v. v.items) result (Ok (rows (number_in w32 file) from 4 count))) }
    ensures len { IfOk result (λ v. length v.items ≡ count) }
    ensures near { IfOk result (λ v. All (λ place. place < 2 ^ 62) v.items) }
    ensures bytes { M.bytes store.new ≡ M.bytes store.old }
    ensures cause { CountsFault (M.faults store.old) (M.faults store.new) (is_failed result) }
{
    let mut window = Window::new(from + 4 * count);
    let mut found = Vec::new(alloc);
    'rows: for i in 0..count {
        let row = place32_at(&mut window, store, from + 4 * i)?;
        found.push(row)?;
    }
    Ok(found)
}

/// `count` consecutive 64-bit offsets.
pub(crate) fn places64_of<M: ByteStore>(
    alloc: Global,
    store: &mut M,
    from: u64,
    count: u64,
) -> Result<Vec<u64>, MovieFault>
    requires few { count ≤ MAX_SAMPLES }
    requires inside { Told (M.bytes store.old) (λ file. from + 8 * count ≤ length file) }
    requires room { from + 8 * count < 2 ^ 64 }
    ensures value { Told (M.bytes store.old) (λ file. Answers told_fault (λ v. v.items) result (Ok (rows (number_in w64 file) from 8 count))) }
    ensures len { IfOk result (λ v. length v.items ≡ count) }
    ensures bytes { M.bytes store.new ≡ M.bytes store.old }
    ensures cause { CountsFault (M.faults store.old) (M.faults store.new) (is_failed result) }
{
    let mut window = Window::new(from + 8 * count);
    let mut found = Vec::new(alloc);
    'rows: for i in 0..count {
        let row = u64_at(&mut window, store, from + 8 * i)?;
        found.push(row)?;
    }
    Ok(found)
}
