//! The printed lines of frames.

ghost use Rattle.std.specs.Prelude.{◌≡◌, ◌+◌, ◌*◌, ◌++◌, ◌<◌, ◌≤◌, ◌^◌, List, length, map, IfOk, OnOk};
ghost use Rattle.std.specs.List.{All};
ghost use Rattle.qt_tables.specs.declared.tables.TheConstants.{MAX_SAMPLES};
ghost use Rattle.rate_table.specs.declared.entry.Entry.{Entry};
ghost use Rattle.rate_table.specs.Table.{IsChoice, indices};
ghost use Rattle.rate_build.specs.Groups.{shares};
ghost use Rattle.run_encode.specs.Groups.{IsJob, IsFrameOf, frame_slices, table_of_group};
ghost use Rattle.run_encode.specs.Encoding.{frame_line, frames_line, part_lines};
ghost use Rattle.run_encode.specs.inner.Over.{HasFitting};

use crate::job::Job;
use crate::parts::{part_sums, slices_in};
use pw_outside::NoMemory;
use pw_text::{put_decimal, put_words};
use rate_build::{Coefficients, fixed_size};
use rate_table::FrameTable;
use std::alloc::Global;

/// Appends the line of a frame: its number, its size in bytes and its error.
#[tactic(auto, unfolding(crate::specs::Encoding::frame_line))]
fn put_line(text: &mut Vec<u8>, number: u32, size: u64, error: u64) -> Result<(), NoMemory>
    ensures { OnOk result (text.new.items ≡ text.old.items ++ frame_line number size error) }
{
    put_words(text, "frame ")?;
    put_decimal(text, u64::from(number))?;
    put_words(text, " size ")?;
    put_decimal(text, size)?;
    put_words(text, " error ")?;
    put_decimal(text, error)?;
    put_words(text, "\n")
}

/// The lines of a group's frames, the first of which is frame `number`.
pub(crate) fn lines_for(
    alloc: Global,
    job: &Job,
    number: u32,
    frames: &[Coefficients],
    table: &FrameTable,
    choice: &[u8],
) -> Result<Vec<u8>, NoMemory>
    requires job { IsJob job.now }
    requires number { number + length frames.now ≤ MAX_SAMPLES }
    requires frames { All (IsFrameOf job.now) frames.now }
    requires table { table.now ≡ table_of_group job.now frames.now }
    requires choice { HasFitting table.now choice.now }
    ensures lines { IfOk result (λ lines.
        (entries : List Entry) → IsChoice table.now.slices entries → indices entries ≡ choice.now
        → lines.items ≡ part_lines job.now number
        (map (λ p. p.1) (shares (frame_slices job.now) frames.now entries))) }
{
    let fixed = u64::from(fixed_size(&job.layout));
    let count = slices_in(job);
    let mut lines = Vec::new(alloc);
    let mut slices = table.slices.as_slice();
    let mut choice = choice;
    'frames: for k in 0..frames.len() {
        let (here, behind) = slices.split_at(count);
        let (chosen, rest) = choice.split_at(count);
        let sums = part_sums(here, chosen);
        put_line(&mut lines, number + k as u32, fixed + sums.0, sums.1)?;
        slices = behind;
        choice = rest;
    }
    Ok(lines)
}

/// The last line.
#[tactic(auto, unfolding(crate::specs::Encoding::frames_line))]
pub(crate) fn last_line(alloc: Global, frames: u32) -> Result<Vec<u8>, NoMemory>
    ensures { IfOk result (λ line. line.items ≡ frames_line frames) }
{
    let mut line = Vec::new(alloc);
    put_words(&mut line, "frames ")?;
    put_decimal(&mut line, u64::from(frames))?;
    put_words(&mut line, "\n")?;
    Ok(line)
}
