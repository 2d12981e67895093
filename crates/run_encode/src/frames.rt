//! Writing the frames of a choice.

ghost use Rattle.std.specs.Prelude.{◌≡◌, ◌+◌, ◌++◌, ◌≤◌, ◌<◌, [], ◌∷◌, map, length, OnOk, OnErr, is_err};
ghost use Rattle.std.specs.List.{All, flat_map};
ghost use Rattle.pw_outside.specs.Ports.{CountsFault};
ghost use Rattle.pw_outside.specs.Writing.{Puts, PutsFront};
ghost use Rattle.pr_frame.specs.Written.{coded_bytes};
ghost use Rattle.qt_movie.specs.MovieBytes.{frame_bytes};
ghost use Rattle.qt_tables.specs.declared.tables.TheConstants.{MAX_SAMPLES};
ghost use Rattle.rate_build.specs.Coding.{coded_frame};
ghost use Rattle.rate_table.specs.declared.table.TheConstants.{MAX_TABLE_SLICES};
ghost use Rattle.rate_table.specs.Table.{IsSliceTable};
ghost use Rattle.run_encode.specs.Groups.{IsJob, IsFrameOf, header_in, slice_tables, table_of_group, coded_group};
ghost use Rattle.run_encode.specs.Outputs.{state_of};
ghost use Rattle.run_encode.specs.inner.Over.{HasFitting, IsFrameChoice};

use crate::job::Job;
use crate::parts::{frame_size, header_of, slices_in};
use pr_head::FrameHeader;
use pw_outside::{ByteSink, Failed};
use qt_movie::MovieWriter;
use rate_build::{Coefficients, write_part};
use rate_table::{FrameTable, SliceTable};

/// Writes the header of a data atom, and a frame.
fn write_frame<K: ByteSink>(
    job: &Job,
    header: &FrameHeader,
    frame: &Coefficients,
    slices: &[SliceTable],
    choice: &[u8],
    movie: &mut MovieWriter,
    out: &mut K,
) -> Result<(), Failed>
    requires job { IsJob job.now }
    requires header { header.now ≡ header_in job.now }
    requires frame { IsFrameOf job.now frame.now }
    requires slices { slices.now ≡ slice_tables job.now frame.now }
    requires some_slices { 1 ≤ length slices.now }
    requires few_slices { length slices.now ≤ MAX_TABLE_SLICES }
    requires each { All IsSliceTable slices.now }
    requires choice { IsFrameChoice job.now slices.now choice.now }
    requires few { length movie.old.sizes < MAX_SAMPLES }
    requires spare { 1 ≤ movie.old.spare }
    ensures ok { OnOk result (Puts (state_of K.held K.taken out.old) (state_of K.held K.taken out.new)
        (frame_bytes (coded_bytes (coded_frame frame.now (header_in job.now) choice.now)))) }
    ensures err { OnErr result (PutsFront (state_of K.held K.taken out.old) (state_of K.held K.taken out.new)
        (frame_bytes (coded_bytes (coded_frame frame.now (header_in job.now) choice.now)))) }
    ensures sizes { OnOk result (movie.new.sizes ≡ movie.old.sizes ++ length
        (coded_bytes (coded_frame frame.now (header_in job.now) choice.now)) ∷ []) }
    ensures head { movie.new.head ≡ movie.old.head }
    ensures spare_left { movie.old.spare ≤ movie.new.spare + 1 }
    ensures cause { CountsFault (K.faults out.old) (K.faults out.new) (is_err result) }
{
    let size = frame_size(job, frame, slices, choice);
    movie.frame_head(out, size)?;
    write_part(frame, header, slices, choice, out)
}

/// Writes the frames of a choice, each after the header of its data atom.
pub(crate) fn write_frames<K: ByteSink>(
    job: &Job,
    frames: &[Coefficients],
    table: &FrameTable,
    choice: &[u8],
    movie: &mut MovieWriter,
    out: &mut K,
) -> Result<(), Failed>
    requires job { IsJob job.now }
    requires frames { All (IsFrameOf job.now) frames.now }
    requires table { table.now ≡ table_of_group job.now frames.now }
    requires choice { HasFitting table.now choice.now }
    requires few { length movie.old.sizes + length frames.now ≤ MAX_SAMPLES }
    requires spare { length frames.now ≤ movie.old.spare }
    ensures ok { OnOk result (Puts (state_of K.held K.taken out.old) (state_of K.held K.taken out.new)
        (flat_map frame_bytes (map coded_bytes (coded_group job.now frames.now choice.now)))) }
    ensures err { OnErr result (PutsFront (state_of K.held K.taken out.old) (state_of K.held K.taken out.new)
        (flat_map frame_bytes (map coded_bytes (coded_group job.now frames.now choice.now)))) }
    ensures sizes { OnOk result (movie.new.sizes ≡ movie.old.sizes ++ map length
        (map coded_bytes (coded_group job.now frames.now choice.now))) }
    ensures head { movie.new.head ≡ movie.old.head }
    ensures cause { CountsFault (K.faults out.old) (K.faults out.new) (is_err result) }
{
    let header = header_of(job);
    let count = slices_in(job);
    let mut slices = table.slices.as_slice();
    let mut choice = choice;
    'frames: for frame in frames {
        let (here, behind) = slices.split_at(count);
        let (chosen, rest) = choice.split_at(count);
        write_frame(job, &header, frame, here, chosen, movie, out)?;
        slices = behind;
        choice = rest;
    }
    Ok(())
}
