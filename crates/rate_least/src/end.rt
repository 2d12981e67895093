//! Outcomes of runs.

use rate_layers::BestFault;
use rate_table::{ProofKind, TableFault};

/// The outcome of a run.
#[derive(Clone, Copy, Debug, PartialEq, Eq)]
pub enum LeastEnd {
    /// The run is complete.
    Done,
    /// Memory ran out.
    NoMemory,
    /// The input port failed.
    ReadFault,
    /// An output port failed.
    WriteFault,
    /// The Pareto frontiers of the table have more than 2^25 pairs.
    LayersFull,
    /// The first error of the table file or the certificate, and its offset.
    BadProof { kind: ProofKind, place: u64 },
    /// The first clause of the certificate that fails.
    Refused { clause: u8 },
}

/// An error of the table file or the certificate is the run's outcome.
impl From<TableFault> for LeastEnd {
    ghost use Rattle.std.specs.Prelude.{◌≡◌};
    ghost use Rattle.rate_least.specs.Ends.{fault_end};

    ghost from_gives = { λ fault e. e ≡ fault_end fault };

    fn from(fault: TableFault) -> LeastEnd {
        match fault {
            TableFault::Bad { kind, place } => LeastEnd::BadProof { kind, place },
            TableFault::Failed => LeastEnd::ReadFault,
            TableFault::NoMemory => LeastEnd::NoMemory,
        }
    }
}

/// An error of the search is the run's outcome.
impl From<BestFault> for LeastEnd {
    ghost use Rattle.std.specs.Prelude.{◌≡◌};
    ghost use Rattle.rate_least.specs.Ends.{best_end};

    ghost from_gives = { λ fault e. e ≡ best_end fault };

    fn from(fault: BestFault) -> LeastEnd {
        match fault {
            BestFault::LayersFull => LeastEnd::LayersFull,
            BestFault::NoMemory => LeastEnd::NoMemory,
        }
    }
}
