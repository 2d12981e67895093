//! Why a WAV could not be read.

ghost use Rattle.std.specs.Prelude.{◌≡◌};
ghost use Rattle.pcm_track.specs.declared.fault.SoundFault.TheVariants as faults;

use pw_outside::Failed;
use thiserror::Error;

/// What is wrong with a WAV.
#[derive(Clone, Copy, Debug, PartialEq, Eq)]
pub enum SoundKind {
    /// The file doesn't begin with `RIFF`, a size and `WAVE`.
    Magic,
    /// A chunk is out of order, or its format isn't plain PCM of 16 bits.
    Form,
    /// The input ends before the end of the sound.
    Truncated,
}

/// Why reading a WAV failed.
#[derive(Clone, Copy, Debug, PartialEq, Eq, Error)]
pub enum SoundFault {
    /// The bytes are no readable WAV; `place` is the offset of the fault in the input.
    #[error("Bad")]
    Bad { kind: SoundKind, place: u64 },
    /// A call of the source failed.
    #[error("Failed")]
    Failed,
}

pub(crate) fn bad(kind: SoundKind, place: u64) -> SoundFault
    ensures { result ≡ faults.Bad kind place }
{
    SoundFault::Bad { kind, place }
}

impl From<Failed> for SoundFault {
    ghost from_gives = { λ _ e. e ≡ faults.Failed };

    fn from(_: Failed) -> SoundFault {
        SoundFault::Failed
    }
}

/// Why copying sound stopped.
#[derive(Clone, Copy, Debug, PartialEq, Eq, Error)]
pub enum CopyFault {
    /// The WAV has this fault, or its source failed.
    #[error("Sound")]
    Sound(SoundFault),
    /// A call of the sink failed.
    #[error("Sink")]
    Sink(Failed),
}
