//! The outcome of a run that adds sound to a movie, or extracts it.

use crate::fault::SoundKind;
use qt_tables::MovieKind;

/// The outcome of a run.
#[derive(Clone, Copy, Debug, PartialEq, Eq)]
pub enum SoundEnd {
    /// The run is complete.
    Done,
    /// Memory ran out.
    NoMemory,
    /// A port that the run reads from failed.
    ReadFault,
    /// A port that the run writes to failed.
    WriteFault,
    /// The movie's first fault, and its offset.
    BadMovie { kind: MovieKind, place: u64 },
    /// The WAV's first fault, and its offset.
    BadSound { kind: SoundKind, place: u64 },
}
