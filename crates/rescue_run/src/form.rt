//! The common form of a movie's frames, and their rate.

ghost use Rattle.std.specs.Prelude.{◌≡◌};
ghost use Rattle.rescue_run.specs.Rescuing.{head_of};

use pic_y4m::Head;
use pw_planes::{AlphaKind, Chroma, Depth, Interlace};

/// The properties that all frames of a movie share (SMPTE RDD 36, frame header).
#[derive(Clone, Copy, Debug, PartialEq, Eq)]
pub struct FrameForm {
    /// The width in samples.
    pub width: u16,
    /// The height in samples.
    pub height: u16,
    /// How chroma is sampled.
    pub chroma: Chroma,
    /// Progressive, or two fields in this order.
    pub interlace: Interlace,
    /// Whether there is alpha, and its bit depth.
    pub alpha: AlphaKind,
}

/// A frame rate: `num` frames in `den` seconds.
#[derive(Clone, Copy, Debug, PartialEq, Eq)]
pub struct Rate {
    /// The numerator, 1 to 1,000,000.
    pub num: u32,
    /// The denominator, 1 to 4,000.
    pub den: u32,
}

/// The header of a movie whose frames have this form.
pub(crate) fn head_of(rate: &Rate, form: &FrameForm) -> Head
    ensures { result ≡ head_of rate.now form.now }
{
    Head {
        width: form.width,
        height: form.height,
        chroma: form.chroma,
        depth: Depth::D10,
        alpha: form.alpha,
        interlace: form.interlace,
        num: rate.num,
        den: rate.den,
    }
}
