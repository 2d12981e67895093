//! A frame's part of a group's slices and choice.

ghost use Rattle.std.specs.Prelude.{◌≡◌, ◌+◌, ◌<◌, ◌≤◌, ◌^◌, List, length};
ghost use Rattle.std.specs.List.{All};
ghost use Rattle.pr_frame.specs.Written.{coded_bytes};
ghost use Rattle.rate_build.specs.Coding.{coded_frame};
ghost use Rattle.rate_table.specs.declared.entry.Entry.{Entry};
ghost use Rattle.rate_table.specs.declared.table.TheConstants.{MAX_TABLE_SLICES};
ghost use Rattle.rate_table.specs.Table.{IsSliceTable, IsChoice, indices, size_of, error_of};
ghost use Rattle.run_encode.specs.Groups.{IsJob, IsFrameOf, frame_slices, header_in, slice_tables};
ghost use Rattle.run_encode.specs.inner.Over.{IsFrameChoice};

use crate::job::Job;
use pr_frame::written_has_length;
use pr_head::{FrameHeader, own_header};
use rate_build::{Coefficients, fixed_size, frame_has_table_size};
use rate_table::{SliceTable, indices_tell_choice, part_total};

/// The header of each frame.
pub(crate) fn header_of(job: &Job) -> FrameHeader
    ensures { result ≡ header_in job.now }
{
    let head = &job.head;
    own_header(
        head.width,
        head.height,
        head.chroma,
        head.interlace,
        head.alpha,
        &job.weights,
    )
}

/// Number of slices in a frame.
pub(crate) fn slices_in(job: &Job) -> usize
    ensures value { result ≡ frame_slices job.now }
    ensures some { 1 ≤ result }
{
    usize::from(job.layout.pictures()) * job.layout.slices() as usize
}

/// The size in bytes and the error of a frame's part of a choice.
pub(crate) fn part_sums(slices: &[SliceTable], choice: &[u8]) -> (u64, u64)
    requires some { 1 ≤ length slices.now }
    requires few { length slices.now ≤ MAX_TABLE_SLICES }
    requires each { All IsSliceTable slices.now }
    requires choice { (entries : List Entry) × IsChoice slices.now entries × (indices entries ≡ choice.now) }
    ensures size { (entries : List Entry) → IsChoice slices.now entries → indices entries ≡ choice.now
        → result.0 ≡ size_of entries }
    ensures error { (entries : List Entry) → IsChoice slices.now entries → indices entries ≡ choice.now
        → result.1 ≡ error_of entries }
    ensures small { result.0 < 2 ^ 33 }
{
    indices_tell_choice();
    match part_total(slices, choice) {
        Some(sums) => sums,
        None => unreachable!(),
    }
}

/// The size in bytes of a frame with slice tables `slices`, coded by its part of a choice.
pub(crate) fn frame_size(
    job: &Job,
    frame: &Coefficients,
    slices: &[SliceTable],
    choice: &[u8],
) -> u32
    requires job { IsJob job.now }
    requires frame { IsFrameOf job.now frame.now }
    requires slices { slices.now ≡ slice_tables job.now frame.now }
    requires some { 1 ≤ length slices.now }
    requires few { length slices.now ≤ MAX_TABLE_SLICES }
    requires each { All IsSliceTable slices.now }
    requires choice { IsFrameChoice job.now slices.now choice.now }
    ensures size { result ≡ length (coded_bytes (coded_frame frame.now (header_in job.now) choice.now)) }
    ensures small { result ≤ 4294967286 }
{
    frame_has_table_size();
    written_has_length();
    let sums = part_sums(slices, choice);
    fixed_size(&job.layout) + sums.0 as u32
}
