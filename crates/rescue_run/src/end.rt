//! The outcome of a run that rescues frames.

use qt_tables::MovieKind;

/// The outcome of a run.
#[derive(Clone, Copy, Debug, PartialEq, Eq)]
pub enum RescueEnd {
    /// The run is complete.
    Done,
    /// Memory ran out.
    NoMemory,
    /// A port that the run reads from failed.
    ReadFault,
    /// A port that the run writes to failed.
    WriteFault,
    /// The file holds no frame (`NoFrames`, offset 0), or more than 1,000,000 (`TooManySamples`, at the offset of
    /// the first frame beyond them).
    BadMovie { kind: MovieKind, place: u64 },
}
