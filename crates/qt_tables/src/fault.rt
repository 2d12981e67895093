//! Errors of reading a movie.

ghost use Rattle.std.specs.Prelude.{◌≡◌};
ghost use Rattle.qt_tables.specs.declared.fault.MovieFault.TheVariants as faults;
ghost use Rattle.qt_tables.specs.Faults.{lifted};

use pw_outside::Failed;
use qt_atoms::AtomFault;
use std::alloc::{AllocError, AllocFailed};
use thiserror::Error;

/// Kinds of faults of a movie.
#[derive(Clone, Copy, Debug, PartialEq, Eq)]
pub enum MovieKind {
    /// The size of an atom is less than its head, or passes the end of the parent or the file.
    AtomSize,
    /// No movie atom at the top level.
    NoMoov,
    /// The movie atom is compressed.
    Compressed,
    /// The movie is fragmented.
    Fragmented,
    /// No track of pictures whose descriptions are all of ProRes.
    NoProResTrack,
    /// The data of a description lies in another file, or nowhere.
    ExternalData,
    /// A table that a track needs is missing.
    MissingTable,
    /// A table's body is too short for its counts, or its values are out of range.
    TableShape,
    /// The tables don't agree on the number of samples.
    TablesDisagree,
    /// A table with more than [`MAX_SAMPLES`](crate::MAX_SAMPLES) samples or entries.
    TooManySamples,
    /// A sample passes the end of the file.
    SampleOutside,
    /// No track of plain PCM sound.
    NoSound,
    /// The sound description is too short, or its form isn't 16 bits with one or two channels.
    SoundForm,
    /// The chunks of the sound hold more than 4,294,967,250 bytes.
    SoundLong,
    /// A sample is too large for a data atom with a 32-bit size.
    SampleLarge,
    /// The file has no frame.
    NoFrames,
}

/// Why a call on a movie failed.
#[derive(Clone, Copy, Debug, PartialEq, Eq, Error)]
pub enum MovieFault {
    /// The bytes are no readable movie; `place` is an offset in the file.
    #[error("Bad")]
    Bad { kind: MovieKind, place: u64 },
    /// A call of the store failed.
    #[error("Failed")]
    Failed,
    /// Memory ran out.
    #[error("NoMemory")]
    NoMemory,
}

pub(crate) fn bad(kind: MovieKind, place: u64) -> MovieFault
    ensures { result ≡ faults.Bad kind place }
{
    MovieFault::Bad { kind, place }
}

impl From<Failed> for MovieFault {
    ghost from_gives = { λ _ e. e ≡ faults.Failed };

    fn from(_: Failed) -> MovieFault {
        MovieFault::Failed
    }
}

impl From<AtomFault> for MovieFault {
    ghost from_gives = { λ a e. e ≡ lifted a };

    fn from(fault: AtomFault) -> MovieFault {
        match fault {
            AtomFault::Size(place) => bad(MovieKind::AtomSize, place),
            AtomFault::Failed => MovieFault::Failed,
        }
    }
}

impl From<AllocError> for MovieFault {
    ghost from_gives = { λ _ e. e ≡ faults.NoMemory };

    fn from(_: AllocError) -> MovieFault {
        MovieFault::NoMemory
    }
}

impl<T: Drop> From<AllocFailed<T>> for MovieFault {
    ghost from_gives = { λ _ e. e ≡ faults.NoMemory };

    fn from(_: AllocFailed<T>) -> MovieFault {
        MovieFault::NoMemory
    }
}
