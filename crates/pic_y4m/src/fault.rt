//! Errors of reading pictures.

ghost use Rattle.std.specs.Prelude.{◌≡◌};
ghost use Rattle.pic_y4m.specs.declared.fault.PictureFault.TheVariants as faults;

use pw_outside::Failed;
use std::alloc::{AllocError, AllocFailed};
use thiserror::Error;

/// Kinds of faults of an input of pictures.
#[derive(Clone, Copy, Debug, PartialEq, Eq)]
pub enum PictureKind {
    /// The input doesn't begin with the magic word of its format.
    Magic,
    /// A parameter of the head line is no number, out of range, repeated or missing, or the line is too long.
    Parameter,
    /// Unsupported chroma subsampling.
    Chroma,
    /// Unsupported interlacing.
    Interlace,
    /// The line before a frame doesn't begin with `FRAME`, or is too long.
    FrameLine,
    /// The input ends within a line or within a frame.
    Truncated,
    /// A sample exceeds the bit depth.
    SampleRange,
    /// There are more than [`MAX_FRAMES`](crate::MAX_FRAMES) frames.
    TooManyFrames,
    /// A frame has more slices than a picture may have.
    TooManySlices,
}

/// Why a call returned no picture.
#[derive(Debug, Drop, Error)]
pub enum PictureFault {
    /// The bytes are invalid; `place` is an offset in the input.
    #[error("Bad")]
    Bad { kind: PictureKind, place: u64 },
    /// A call of the port failed.
    #[error("Failed")]
    Failed,
    /// Memory ran out.
    #[error("NoMemory")]
    NoMemory,
}

pub(crate) fn bad(kind: PictureKind, place: u64) -> PictureFault
    ensures { result ≡ faults.Bad kind place }
{
    PictureFault::Bad { kind, place }
}

impl From<Failed> for PictureFault {
    ghost from_gives = { λ _ e. e ≡ faults.Failed };

    fn from(_: Failed) -> PictureFault {
        PictureFault::Failed
    }
}

impl From<AllocError> for PictureFault {
    ghost from_gives = { λ _ e. e ≡ faults.NoMemory };

    fn from(_: AllocError) -> PictureFault {
        PictureFault::NoMemory
    }
}

impl<T: Drop> From<AllocFailed<T>> for PictureFault {
    ghost from_gives = { λ _ e. e ≡ faults.NoMemory };

    fn from(_: AllocFailed<T>) -> PictureFault {
        PictureFault::NoMemory
    }
}
