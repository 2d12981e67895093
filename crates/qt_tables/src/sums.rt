//! Prefix sums over tables, for binary search.

ghost use Rattle.std.specs.Prelude.{◌≡◌, ◌≤◌, ◌<◌, ◌+◌, ◌-◌, ◌*◌, length, slice_get, slice_index, IfOk, IfErr};
ghost use Rattle.qt_tables.specs.declared.fault.MovieFault.TheVariants as faults;
ghost use Rattle.qt_tables.specs.Sums.{AreSums, bytes_before, timed_before, chunks_before, held_before};
ghost use Rattle.qt_tables.specs.Tables.{AreRuns};
ghost use Rattle.qt_tables.specs.declared.tables.TheConstants.{MAX_SAMPLES};

use crate::fault::MovieFault;
use crate::runs::{ChunkRun, TimeRun};
use std::alloc::Global;

/// The number of bytes before each sample, and the total.
pub(crate) fn size_sums(alloc: Global, sizes: &[u32]) -> Result<Vec<u64>, MovieFault>
    requires few { length sizes.now ≤ MAX_SAMPLES }
    ensures value { IfOk result (λ v. AreSums (length sizes.now) (bytes_before sizes.now) v.items) }
    ensures cause { IfErr result (λ e. e ≡ faults.NoMemory) }
{
    let mut sums = Vec::new(alloc);
    let mut total = 0;
    sums.push(total)?;
    'sizes: for size in sizes {
        total += u64::from(*size);
        sums.push(total)?;
    }
    Ok(sums)
}

/// The number of samples before each run of durations, and the total.
pub(crate) fn time_sums(alloc: Global, times: &[TimeRun]) -> Result<Vec<u64>, MovieFault>
    requires few { length times.now ≤ MAX_SAMPLES }
    ensures value { IfOk result (λ v. AreSums (length times.now) (timed_before times.now) v.items) }
    ensures cause { IfErr result (λ e. e ≡ faults.NoMemory) }
{
    let mut sums = Vec::new(alloc);
    let mut total = 0;
    sums.push(total)?;
    'times: for run in times {
        total += u64::from(run.count);
        sums.push(total)?;
    }
    Ok(sums)
}

/// The number of chunks before run `k`, or `chunks` if there is no run `k`.
fn chunks_in_front(runs: &[ChunkRun], chunks: u64, k: usize) -> u64
    ensures value { result ≡ chunks_before chunks (slice_get runs.now k) }
    ensures few { result ≤ chunks }
{
    match runs.get(k) {
        Some(run) => u64::from(run.first).saturating_sub(1).min(chunks),
        None => chunks,
    }
}

/// `total` samples plus those of `chunks` chunks of a run.
fn with_chunks(total: u64, chunks: u64, run: ChunkRun) -> u64
    requires few { chunks ≤ MAX_SAMPLES }
    requires room { total ≤ 4294967295 * MAX_SAMPLES }
    ensures value { result ≡ total + chunks * run.samples }
    ensures small { result ≤ total + chunks * 4294967295 }
{
    total + chunks * u64::from(run.samples)
}

/// The number of samples before each run of chunks, and the total of all chunks.
pub(crate) fn run_sums(
    alloc: Global,
    runs: &[ChunkRun],
    offsets: &[u64],
) -> Result<Vec<u64>, MovieFault>
    requires few { length offsets.now ≤ MAX_SAMPLES }
    requires runs { AreRuns runs.now }
    ensures value { IfOk result (λ v. AreSums (length runs.now) (held_before runs.now offsets.now) v.items) }
    ensures cause { IfErr result (λ e. e ≡ faults.NoMemory) }
{
    let chunks = offsets.len() as u64;
    let mut sums = Vec::new(alloc);
    let mut total = 0;
    sums.push(total)?;
    let mut begun = chunks_in_front(runs, chunks, 0);
    'runs: for k in 0..runs.len() {
        let next = chunks_in_front(runs, chunks, k + 1);
        total = with_chunks(total, next - begun, runs[k]);
        sums.push(total)?;
        begun = next;
    }
    Ok(sums)
}

/// The last index whose prefix sum is at most `count`. Binary search.
pub(crate) fn last_begun(sums: &[u64], count: u64) -> usize
    requires some { 2 ≤ length sums.now }
    requires first { slice_index sums.now 0 ≤ count }
    requires last { count < slice_index sums.now (length sums.now - 1) }
    ensures in_range { result + 1 < length sums.now }
    ensures begun { slice_index sums.now result ≤ count }
    ensures next { count < slice_index sums.now (result + 1) }
{
    let mut low = 0;
    let mut high = sums.len() - 1;
    'halves: while low + 1 < high {
        let middle = low + (high - low) / 2;
        if sums[middle] <= count {
            low = middle;
        } else {
            high = middle;
        }
    }
    low
}
