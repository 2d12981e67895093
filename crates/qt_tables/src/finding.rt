//! Finds a sample by binary search.

ghost use Rattle.std.specs.Prelude.{◌≡◌, ◌≤◌, ◌<◌, ◌+◌, ◌-◌, ◌/◌, ◌%◌, ◌^◌, Some, length, sum, sum_by, take, drop, slice_get, slice_index};
ghost use Rattle.std.specs.List.{All};
ghost use Rattle.qt_tables.specs.Samples.{chunks, durations, held_by};
ghost use Rattle.qt_tables.specs.Sums.{AreSums, bytes_before, timed_before, held_before, InRun};
ghost use Rattle.qt_tables.specs.Tables.{AreRuns};
ghost use Rattle.qt_tables.specs.declared.tables.TheConstants.{MAX_SAMPLES};

use crate::runs::{ChunkRun, Sample, TimeRun};
use crate::sums::last_begun;

/// The duration of a sample.
pub(crate) fn duration_of(times: &[TimeRun], sums: &[u64], i: u32) -> u32
    requires sums { AreSums (length times.now) (timed_before times.now) sums.now }
    requires inside { i < sum_by (λ r. r.count) times.now }
    ensures { slice_get (durations times.now) i ≡ Some result }
{
    times[last_begun(sums, u64::from(i))].duration
}

/// The chunk that holds a sample: its index, its run, and the index of its first sample.
#[derive(Clone, Copy)]
pub(crate) struct Held {
    pub(crate) chunk: usize,
    pub(crate) run: ChunkRun,
    pub(crate) first: u32,
}

/// The chunk of sample `i`, which lies in this run, with `before` samples before the run.
fn held_in(run: ChunkRun, before: u32, i: u32) -> Held
    requires filled { 0 < run.samples }
    requires first { 1 ≤ run.first }
    requires begun { before ≤ i }
    ensures chunk { result.chunk ≡ (run.first - 1) + (i - before) / run.samples }
    ensures run { result.run ≡ run }
    ensures first { result.first ≡ i - (i - before) % run.samples }
{
    let behind = i - before;
    Held {
        chunk: (run.first - 1) as usize + (behind / run.samples) as usize,
        run,
        first: i - behind % run.samples,
    }
}

/// The chunk that holds sample `i`.
pub(crate) fn held_of(runs: &[ChunkRun], sums: &[u64], offsets: &[u64], i: u32) -> Held
    requires runs { AreRuns runs.now }
    requires sums { AreSums (length runs.now) (held_before runs.now offsets.now) sums.now }
    requires inside { i < held_by (chunks runs.now offsets.now) }
    ensures { InRun runs.now offsets.now i result.chunk result.first result.run }
{
    let k = last_begun(sums, u64::from(i));
    held_in(runs[k], sums[k] as u32, i)
}

/// Sample `i`, which lies in this chunk and has this duration.
pub(crate) fn sample_in(
    sizes: &[u32],
    sums: &[u64],
    offsets: &[u64],
    held: Held,
    duration: u32,
    i: u32,
) -> Sample
    requires few { length sizes.now ≤ MAX_SAMPLES }
    requires sums { AreSums (length sizes.now) (bytes_before sizes.now) sums.now }
    requires near { All (λ offset. offset < 2 ^ 62) offsets.now }
    requires inside { i < length sizes.now }
    requires chunk { held.chunk < length offsets.now }
    requires first { held.first ≤ i }
    ensures place { result.at ≡ slice_index offsets.now held.chunk + sum (take (i - held.first) (drop held.first sizes.now)) }
    ensures near { result.at < 2 ^ 63 }
    ensures size { result.size ≡ slice_index sizes.now i }
    ensures duration { result.duration ≡ duration }
    ensures description { result.description ≡ held.run.description }
{
    let before = sums[i as usize] - sums[held.first as usize];
    Sample {
        at: offsets[held.chunk] + before,
        size: sizes[i as usize],
        duration,
        description: held.run.description,
    }
}
