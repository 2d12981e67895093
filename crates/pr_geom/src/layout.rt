//! The layout of a frame.

ghost use Rattle.std.specs.Prelude.{◌≡◌, ◌+◌, ◌<◌, ◌≤◌, IfOk, length, slice_index_or};
ghost use Rattle.std.specs.Result.{result_err};
ghost use Rattle.pr_geom.specs.Slices.{pictures_of, macroblocks, row_widths, no_slice};
ghost use Rattle.pr_geom.specs.inner.Spots.{spot};
ghost use Rattle.pr_geom.specs.Faults.{slice_count, first_fault, IsAllowed};
ghost use Rattle.pr_geom.specs.Blocks.{blocks_of};

use crate::places::{GeomFault, MAX_SLICES, Part, SlicePlace};
use pw_planes::{Chroma, Interlace, MAX_HEIGHT, MAX_WIDTH};

/// The number of pictures of a frame of this mode: 1, or 2 where it is interlaced (SMPTE RDD 36, frame syntax).
pub fn pictures_of(interlace: Interlace) -> u8
    ensures { result ≡ pictures_of interlace }
{
    match interlace {
        Interlace::Progressive => 1,
        Interlace::TopFirst | Interlace::BottomFirst => 2,
    }
}

/// The number of macroblocks that hold `samples` samples.
fn macroblocks_for(samples: u16) -> u32
    ensures { result ≡ macroblocks samples }
{
    u32::from(samples).div_ceil(16)
}

/// The number of slices of a row of `macroblocks` macroblocks.
#[tactic(auto, using(crate::proofs::SliceLemmas::row_counts))]
fn slices_in_row(columns: u32, log2: u32) -> u32
    requires size { log2 ≤ 3 }
    requires columns { columns ≤ 512 }
    ensures { result ≡ length (row_widths columns log2) }
{
    if log2 == 0 {
        columns
    } else {
        (columns >> log2) + slices_in_row(columns % (1 << log2), log2 - 1)
    }
}

/// The column and the width of a slice of a row of macroblocks.
fn spot_in_row(columns: u32, log2: u32, number: u32) -> (u32, u32)
    requires size { log2 ≤ 3 }
    requires columns { columns ≤ 512 }
    requires number { number < length (row_widths columns log2) }
    ensures value { result ≡ spot columns log2 number }
    ensures inside { result.0 + result.1 ≤ columns }
{
    if log2 == 0 {
        return (number, 1);
    }
    let full = columns >> log2;
    if number < full {
        (number << log2, 1 << log2)
    } else {
        let (column, width) = spot_in_row(columns % (1 << log2), log2 - 1, number - full);
        ((full << log2) + column, width)
    }
}

/// The number of slices of each picture of a frame.
fn slices_in_picture(width: u16, height: u16, log2: u8, interlace: Interlace) -> u32
    requires columns { width ≤ MAX_WIDTH }
    requires rows { height ≤ MAX_HEIGHT }
    requires size { log2 ≤ 3 }
    ensures { result ≡ slice_count width height log2 interlace }
{
    let rows = macroblocks_for(height / u16::from(pictures_of(interlace)));
    rows * slices_in_row(macroblocks_for(width), u32::from(log2))
}

/// How a frame is cut into pictures, slices and blocks (SMPTE RDD 36, picture structure). Each layout is one that
/// [`Layout::new`] returns.
#[derive(Clone, Copy, Debug, PartialEq, Eq)]
pub struct Layout {
    /// The width of the frame in samples, from 1 to [`MAX_WIDTH`].
    pub width: u16,
    /// The height of the frame in samples, from 1 to [`MAX_HEIGHT`].
    pub height: u16,
    /// The binary logarithm of the desired width of a slice in macroblocks, from 0 to 3.
    pub log2: u8,
    /// How the frame is made of pictures.
    pub interlace: Interlace,
    /// How chroma is sampled.
    pub chroma: Chroma,
    ghost allowed: { IsAllowed width height log2 interlace },
}

impl Layout {
    ghost use Rattle.pr_geom.specs.Layout.{picture_height_of, slices_of, IsSlice, IsInside, IsLayoutOf, HasNoFault, SlicesCoverRows, BlocksAreOnce, FrameSlicesAreFew};

    /// The layout of a frame, or the first cause, in the order of [`GeomFault`], why there is none.
    pub fn new(
        width: u16,
        height: u16,
        log2: u8,
        interlace: Interlace,
        chroma: Chroma,
    ) -> Result<Layout, GeomFault>
        requires size { log2 ≤ 3 }
        ensures fault { result_err result ≡ first_fault width height log2 interlace }
        ensures layout { IfOk result (λ layout. IsLayoutOf layout width height log2 interlace chroma) }
    {
        if width == 0 || height == 0 {
            return Err(GeomFault::SizeZero);
        }
        if u32::from(width) > MAX_WIDTH || u32::from(height) > MAX_HEIGHT {
            return Err(GeomFault::SizeLimit);
        }
        if height % u16::from(pictures_of(interlace)) != 0 {
            return Err(GeomFault::OddInterlaced);
        }
        if slices_in_picture(width, height, log2, interlace) > MAX_SLICES {
            return Err(GeomFault::TooManySlices);
        }
        Ok(Layout {
            width,
            height,
            log2,
            interlace,
            chroma,
        })
    }

    /// The number of pictures of the frame: 1, or 2 fields.
    pub fn pictures(&self) -> u8
        ensures { result ≡ pictures_of self.now.interlace }
    {
        pictures_of(self.interlace)
    }

    /// The height of each picture in samples.
    pub fn picture_height(&self) -> u16
        ensures { result ≡ picture_height_of self.now }
    {
        self.height / u16::from(self.pictures())
    }

    /// The number of slices of each picture, from 1 to [`MAX_SLICES`].
    pub fn slices(&self) -> u32
        ensures value { result ≡ length (slices_of self.now) }
        ensures some { 0 < result }
        ensures limit { result ≤ MAX_SLICES }
    {
        slices_in_picture(self.width, self.height, self.log2, self.interlace)
    }

    /// The slice of this number.
    pub fn slice(&self, number: u32) -> SlicePlace
        requires { number < length (slices_of self.now) }
        ensures value { result ≡ slice_index_or (slices_of self.now) number no_slice }
        ensures slice { IsSlice self.now result }
        ensures inside { IsInside self.now result }
    {
        let columns = macroblocks_for(self.width);
        let log2 = u32::from(self.log2);
        let count = slices_in_row(columns, log2);
        let (column, width) = spot_in_row(columns, log2, number % count);
        SlicePlace {
            column: column as u16,
            row: (number / count) as u16,
            width: width as u8,
        }
    }

    /// The number of blocks of a part of a slice, from 1 to 32.
    pub fn blocks(&self, slice: &SlicePlace, part: Part) -> u8
        requires { IsSlice self.now slice.now }
        ensures value { result ≡ length (blocks_of self.now.chroma part slice.now) }
        ensures some { 0 < result }
        ensures limit { result ≤ 32 }
    {
        match (self.chroma, part) {
            (_, Part::Y) => 4 * slice.width,
            (Chroma::C422, _) => 2 * slice.width,
            (Chroma::C444, _) => 4 * slice.width,
        }
    }

    /// The corner of a block of a part of a slice, in the part's plane: its column and its row in samples.
    pub fn block_place(&self, slice: &SlicePlace, part: Part, k: u8) -> (u32, u32)
        requires slice { IsSlice self.now slice.now }
        requires block { k < length (blocks_of self.now.chroma part slice.now) }
        ensures { result ≡ slice_index_or (blocks_of self.now.chroma part slice.now) k (0, 0) }
    {
        let k = u32::from(k);
        let column = u32::from(slice.column);
        let y = 16 * u32::from(slice.row);
        match (self.chroma, part) {
            (_, Part::Y) => (16 * (column + k / 4) + 8 * (k % 2), y + 8 * (k % 4 / 2)),
            (Chroma::C422, _) => (8 * (column + k / 2), y + 8 * (k % 2)),
            (Chroma::C444, _) => (16 * (column + k / 4) + 8 * (k % 4 / 2), y + 8 * (k % 2)),
        }
    }

    /// The law that each layout is one that [`Layout::new`] returns.
    pub fn has_no_fault(&self)
        ensures { HasNoFault self.now }
    {}

    /// The law that the slices of each row cover it without gap or overlap.
    pub fn slices_cover_rows(&self)
        ensures { SlicesCoverRows self.now }
    {}

    /// The law that the blocks of a part of all slices of a picture are each block position once.
    pub fn blocks_are_once(&self, part: Part)
        ensures { BlocksAreOnce self.now part }
    {}

    /// The law that all pictures of a frame have at most `2 * MAX_SLICES` slices.
    pub fn frame_slices_are_few(&self)
        ensures { FrameSlicesAreFew self.now }
    {
        let _ = self.log2;
    }
}
