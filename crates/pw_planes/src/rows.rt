//! Rows of samples, moved whole.

ghost use Rattle.std.specs.Prelude.{◌≡◌, ℕ, ◌+◌, ◌-◌, ◌*◌, ◌/◌, ◌%◌, ◌<◌, ◌≤◌, length, slice_index, IfOk};
ghost use Rattle.pw_planes.specs.Rows.{raster, in_turn, RowsWritten, OthersStay};

use crate::plane::{MAX_HEIGHT, MAX_WIDTH};
use std::alloc::{AllocError, Global};

/// Eight samples of each of eight rows of `width` samples, from index `first` on.
pub(crate) fn inner_samples(samples: &[u16], width: usize, at: usize) -> [u16; 64]
    requires width { width ≤ MAX_WIDTH }
    requires inside { at + 7 * width + 8 ≤ length samples.now }
    ensures { result ≡ raster 8 8 (λ column row. slice_index samples.now (at + row * width + column)) }
{
    let mut block = [0; 64];
    for row in 0..8 {
        let place = at + row * width;
        block[8 * row..8 * row + 8].copy_from_slice(&samples[place..place + 8]);
    }
    block
}

/// Writes the first values of each row of eight into rows of a width, from an index on.
pub(crate) fn write_rows(
    samples: &mut [u16],
    width: usize,
    at: usize,
    columns: usize,
    rows: usize,
    block: &[u16; 64],
)
    requires width { width ≤ MAX_WIDTH }
    requires columns { columns ≤ 8 }
    requires apart { columns ≤ width }
    requires rows { rows ≤ 8 }
    requires some { 1 ≤ rows }
    requires inside { at + (rows - 1) * width + columns ≤ length samples.old }
    ensures len { length samples.new ≡ length samples.old }
    ensures written { RowsWritten samples.old samples.new width at columns rows block.now }
    ensures others { OthersStay samples.old samples.new width at columns rows }
{
    for row in 0..rows {
        let place = at + row * width;
        samples[place..place + columns].copy_from_slice(&block[8 * row..8 * row + columns]);
    }
}

/// Every second row of a width, from an index on.
pub(crate) fn every_second_row(
    alloc: Global,
    samples: &[u16],
    width: usize,
    first: usize,
    rows: usize,
) -> Result<Vec<u16>, AllocError>
    requires width { width ≤ MAX_WIDTH }
    requires rows { rows ≤ MAX_HEIGHT }
    requires inside { first ≤ width }
    requires whole { rows * (2 * width) ≤ length samples.now }
    ensures { IfOk result (λ kept. kept.items ≡ raster width rows (λ column row. slice_index samples.now (first + row * (2 * width) + column))) }
{
    let mut kept = Vec::with_capacity(alloc, rows * width)?;
    for row in 0..rows {
        let at = first + row * (2 * width);
        kept.extend_from_slice(&samples[at..at + width])?;
    }
    Ok(kept)
}

/// The rows of two lists, alternating.
pub(crate) fn rows_in_turn(
    alloc: Global,
    top: &[u16],
    bottom: &[u16],
    width: usize,
    rows: usize,
) -> Result<Vec<u16>, AllocError>
    requires width { width ≤ MAX_WIDTH }
    requires rows { rows ≤ MAX_HEIGHT }
    requires top { rows * width ≤ length top.now }
    requires bottom { rows * width ≤ length bottom.now }
    ensures { IfOk result (λ woven. woven.items ≡ raster width (2 * rows) (in_turn top.now bottom.now width)) }
{
    let mut woven = Vec::with_capacity(alloc, 2 * rows * width)?;
    for row in 0..rows {
        let at = row * width;
        woven.extend_from_slice(&top[at..at + width])?;
        woven.extend_from_slice(&bottom[at..at + width])?;
    }
    Ok(woven)
}
