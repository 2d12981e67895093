//! The form of all pictures of an input.

use pw_planes::{AlphaKind, Chroma, Depth, Interlace};

/// The maximum numerator of a frame rate.
pub const MAX_RATE_NUM: u32 = 1_000_000;

/// The maximum denominator of a frame rate.
pub const MAX_RATE_DEN: u32 = 4_000;

/// The maximum number of frames of an input.
pub const MAX_FRAMES: u32 = 1_000_000;

/// The form and the rate of pictures.
#[derive(Clone, Copy, Debug, PartialEq, Eq)]
pub struct Head {
    /// The width in samples, 1 to 8192.
    pub width: u16,
    /// The height in samples, 1 to 4320.
    pub height: u16,
    /// The chroma subsampling.
    pub chroma: Chroma,
    /// The bit depth of luma and chroma.
    pub depth: Depth,
    /// Whether there is alpha, and its bit depth.
    pub alpha: AlphaKind,
    /// Progressive or interlaced frames. Interlaced frames have an even height.
    pub interlace: Interlace,
    /// The frame rate's numerator, 1 to [`MAX_RATE_NUM`].
    pub num: u32,
    /// The frame rate's denominator, 1 to [`MAX_RATE_DEN`].
    pub den: u32,
}
