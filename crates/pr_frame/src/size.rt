//! The number of bytes that are written.

ghost use Rattle.std.specs.Prelude.{◌≡◌, ◌+◌, ◌*◌, ◌<◌, ◌≤◌, ◌^◌, length, map, sum};
ghost use Rattle.std.specs.List.{All};
ghost use Rattle.pr_geom.specs.declared.places.TheConstants.{MAX_SLICES};
ghost use Rattle.pr_head.specs.Slice.{least_slice_header};
ghost use Rattle.pr_frame.specs.Forms.{has_alpha};
ghost use Rattle.pr_frame.specs.Coded.{IsWritable};
ghost use Rattle.pr_frame.specs.Ready.{IsReadyPart, IsReadyAlpha, IsReady, IsReadyPicture};
ghost use Rattle.pr_frame.specs.Written.{component_bytes, alpha_size, slice_length, picture_length, frame_length_of};

use crate::coded::{CodedFrame, CodedPicture, CodedSlice};
use crate::parts::scan_of;
use pr_alpha::alpha_length;
use pr_coeff::{Block, component_length};
use pw_planes::{AlphaKind, Interlace};

/// The number of bytes of a component.
pub(crate) fn part_size(blocks: &[Block], mode: Interlace) -> u16
    requires { IsReadyPart blocks.now }
    ensures value { result ≡ length (component_bytes mode blocks.now) }
    ensures short { result < 14592 }
{
    component_length(blocks, scan_of(mode)) as u16
}

/// The number of bytes of alpha values.
pub(crate) fn alpha_part_size(values: &[u16], alpha: AlphaKind) -> u16
    requires { IsReadyAlpha alpha values.now }
    ensures value { result ≡ alpha_size alpha values.now }
    ensures short { result ≤ 8448 }
{
    match alpha {
        AlphaKind::Absent => 0,
        AlphaKind::Eight => alpha_length(values, 8) as u16,
        AlphaKind::Sixteen => alpha_length(values, 16) as u16,
    }
}

/// The number of bytes of a slice header.
pub(crate) fn least_header(alpha: AlphaKind) -> u8
    ensures value { result ≡ least_slice_header (has_alpha alpha) }
    ensures small { result ≤ 8 }
{
    match alpha {
        AlphaKind::Absent => 6,
        AlphaKind::Eight | AlphaKind::Sixteen => 8,
    }
}

/// The number of bytes of a slice.
pub(crate) fn slice_size(slice: &CodedSlice, mode: Interlace, alpha: AlphaKind) -> u16
    requires { IsReady alpha slice.now }
    ensures value { result ≡ slice_length mode alpha slice.now }
    ensures short { result < 65535 }
{
    u16::from(least_header(alpha))
        + part_size(slice.y.as_slice(), mode)
        + part_size(slice.cb.as_slice(), mode)
        + part_size(slice.cr.as_slice(), mode)
        + alpha_part_size(slice.alpha.as_slice(), alpha)
}

/// The number of bytes of slices together.
fn slices_size(slices: &[CodedSlice], mode: Interlace, alpha: AlphaKind) -> u64
    requires few { length slices.now ≤ MAX_SLICES }
    requires ready { All (IsReady alpha) slices.now }
    ensures value { result ≡ sum (map (slice_length mode alpha) slices.now) }
    ensures short { result ≤ 65535 * length slices.now }
{
    let mut size = 0;
    for slice in slices {
        size += u64::from(slice_size(slice, mode, alpha));
    }
    size
}

/// The number of bytes of a picture.
pub(crate) fn picture_size(picture: &CodedPicture, mode: Interlace, alpha: AlphaKind) -> u64
    requires { IsReadyPicture alpha picture.now }
    ensures value { result ≡ picture_length mode alpha picture.now }
    ensures short { result < 2 ^ 33 }
{
    let slices = picture.slices.as_slice();
    8 + 2 * slices.len() as u64 + slices_size(slices, mode, alpha)
}

/// The number of bytes of pictures together.
fn pictures_size(pictures: &[CodedPicture], mode: Interlace, alpha: AlphaKind) -> u64
    requires few { length pictures.now ≤ 2 }
    requires ready { All (IsReadyPicture alpha) pictures.now }
    ensures value { result ≡ sum (map (picture_length mode alpha) pictures.now) }
    ensures short { result ≤ 2 ^ 33 * length pictures.now }
{
    let mut size = 0;
    for picture in pictures {
        size += picture_size(picture, mode, alpha);
    }
    size
}

/// The number of bytes that [`crate::write_frame`] writes.
pub fn frame_length(frame: &CodedFrame) -> u64
    requires { IsWritable frame.now }
    ensures { result ≡ frame_length_of frame.now }
{
    156 + pictures_size(
        frame.pictures.as_slice(),
        frame.header.interlace,
        frame.header.alpha,
    )
}
