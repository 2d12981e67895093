//! The outcome of a run that looks at files.

use pic_y4m::PictureKind;
use pr_head::FrameKind;
use qt_tables::MovieKind;
use rate_table::{ProofKind, TableFault};

/// The outcome of a run.
#[derive(Clone, Copy, Debug, PartialEq, Eq)]
pub enum LookEnd {
    /// The run is complete.
    Done,
    /// Memory ran out.
    NoMemory,
    /// A port that the run reads from failed.
    ReadFault,
    /// A port that the run writes to failed.
    WriteFault,
    /// The first fault of the pictures, and its offset.
    BadPictures {
        kind: PictureKind,
        place: u64,
    },
    /// The movie's first fault, and its offset.
    BadMovie {
        kind: MovieKind,
        place: u64,
    },
    /// The first fault of the sample with this number, from 0, and its offset in the sample.
    BadFrame {
        sample: u32,
        kind: FrameKind,
        place: u64,
    },
    /// The proof's first fault, and its offset.
    BadProof {
        kind: ProofKind,
        place: u64,
    },
    /// The first clause that fails, and the number of its frame, from 0.
    Refused {
        frame: u32,
        clause: u8,
    },
}

/// A run that reads a proof ends with the proof's fault.
impl From<TableFault> for LookEnd {
    ghost use Rattle.std.specs.Prelude.{◌≡◌};
    ghost use Rattle.run_look.specs.Ends.{fault_end};

    ghost from_gives = { λ fault e. e ≡ fault_end fault };

    fn from(fault: TableFault) -> LookEnd {
        match fault {
            TableFault::Bad { kind, place } => LookEnd::BadProof { kind, place },
            TableFault::Failed => LookEnd::ReadFault,
            TableFault::NoMemory => LookEnd::NoMemory,
        }
    }
}
