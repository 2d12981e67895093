//! Why a frame could not be read.

ghost use Rattle.std.specs.Prelude.{◌≡◌};
ghost use Rattle.pr_head.specs.declared.fault.FrameFault.TheVariants as faults;

use pw_outside::Failed;
use std::alloc::{AllocError, AllocFailed};
use thiserror::Error;

/// What is wrong with the bytes of a frame.
#[derive(Clone, Copy, Debug, PartialEq, Eq)]
pub enum FrameKind {
    /// The sample has fewer bytes than the shortest frame.
    FrameShort,
    /// The mark isn't `icpf`.
    NoIcpf,
    /// The frame's size is below 28, or passes the sample.
    FrameSize,
    /// The frame header's size is below its fields, or passes the frame.
    HeaderSize,
    /// The version is above 1.
    Version,
    /// The chroma format is a reserved one.
    Chroma,
    /// The interlace mode is the reserved one.
    Interlace,
    /// The alpha channel type is a reserved one.
    AlphaType,
    /// The width or the height is 0.
    SizeZero,
    /// The width or the height is above its limit.
    SizeLimit,
    /// An interlaced frame has an odd number of rows.
    OddInterlaced,
    /// A picture header's size or its picture's size is wrong.
    PictureHeader,
    /// A picture has more than 65,535 slices.
    TooManySlices,
    /// The table of sizes, or the slices together, pass the picture.
    SliceTable,
    /// A slice, or its header, is below its fields, or the header passes the slice.
    SliceHeader,
    /// A quantisation index is 0 or above 224.
    QuantIndex,
    /// The components pass the slice.
    ComponentSize,
    /// A component has a bad codeword.
    Codeword,
    /// A run of zeros passes the last coefficient.
    RunPast,
    /// A coefficient is outside its range.
    LevelRange,
    /// Alpha values are missing.
    AlphaShort,
    /// Alpha values pass the slice.
    AlphaPast,
    /// The form isn't that of the first frame.
    Differs,
}

/// Why a call of a frame's reading failed.
#[derive(Debug, Drop, Error)]
pub enum FrameFault {
    /// The bytes are no frame; `place` counts from the first byte of the sample.
    #[error("Bad")]
    Bad { kind: FrameKind, place: u64 },
    /// A call of the port failed.
    #[error("Failed")]
    Failed,
    /// Memory ran out.
    #[error("NoMemory")]
    NoMemory,
}

pub(crate) fn bad(kind: FrameKind, place: u64) -> FrameFault
    ensures { result ≡ faults.Bad kind place }
{
    FrameFault::Bad { kind, place }
}

impl From<Failed> for FrameFault {
    ghost from_gives = { λ _ e. e ≡ faults.Failed };

    fn from(_: Failed) -> FrameFault {
        FrameFault::Failed
    }
}

impl From<AllocError> for FrameFault {
    ghost from_gives = { λ _ e. e ≡ faults.NoMemory };

    fn from(_: AllocError) -> FrameFault {
        FrameFault::NoMemory
    }
}

impl<T: Drop> From<AllocFailed<T>> for FrameFault {
    ghost from_gives = { λ _ e. e ≡ faults.NoMemory };

    fn from(_: AllocFailed<T>) -> FrameFault {
        FrameFault::NoMemory
    }
}
