//! The header that this project's frames have.

ghost use Rattle.std.specs.Prelude.{◌≡◌};
ghost use Rattle.pr_head.specs.Own.{own_header_of};

use crate::frame::FrameHeader;
use pr_quant::Weights;
use pw_planes::{AlphaKind, Chroma, Interlace};

/// The header of a frame that this project makes: the identifier `pwk0`, no aspect ratio and no frame rate,
/// unspecified colour codes, and the least version that has the form.
pub fn own_header(
    width: u16,
    height: u16,
    chroma: Chroma,
    interlace: Interlace,
    alpha: AlphaKind,
    weights: &Weights,
) -> FrameHeader
    ensures { result ≡ own_header_of width height chroma interlace alpha weights.now }
{
    let version = match (chroma, alpha) {
        (Chroma::C422, AlphaKind::Absent) => 0,
        _ => 1,
    };
    FrameHeader {
        version,
        encoder: *b"pwk0",
        width,
        height,
        chroma,
        interlace,
        aspect: 0,
        rate: 0,
        primaries: 2,
        transfer: 2,
        matrix: 2,
        alpha,
        luma: weights.luma,
        chroma_weights: weights.chroma,
    }
}
