//! Pairs of any size, and outcomes for a table and a cap.

use rate_table::FrameTable;
use std::marker::Model;

/// Total size and error of several slices.
#[derive(Clone, Copy, Debug, PartialEq, Eq)]
pub struct WidePair {
    /// The total size, in bytes. It may exceed 2^32.
    pub size: u64,
    /// The total error.
    pub error: u64,
}

/// The smallest choice under a cap on the error with the Pareto frontiers that prove it, or the least error if none
/// meets the cap.
#[derive(Debug, Drop)]
pub enum LeastOutcome {
    /// A choice meets the cap.
    Fits {
        /// The indices of the choice, one for each slice.
        choice: Vec<u8>,
        /// Its size in bytes, without the fixed bytes.
        size: u64,
        /// Its error.
        error: u64,
        /// After each number of slices, by rising size, pairs that no other dominates. There is one layer more than
        /// slices.
        layers: Vec<Vec<WidePair>>,
        /// The Lagrangian multiplier of the bound.
        multiplier: u64,
    },
    /// No choice meets the cap.
    None {
        /// The sum of the slices' least errors, above the cap.
        least_error: u64,
    },
}

/// A certificate: a table, a cap, and the outcome for them.
#[derive(Drop)]
pub struct LeastProof {
    /// The rate-distortion table. Its budget and its fixed bytes don't matter.
    pub table: FrameTable,
    /// The greatest error that a choice may have.
    pub cap: u64,
    /// The smallest choice, or that there is none.
    pub outcome: LeastOutcome,
}

impl Model for LeastProof {
    ghost use Rattle.rate_least.specs.Records.{Certificate, said_by};

    ghost Value = { Certificate };

    ghost view = { λ p. record { table = p.table; cap = p.cap; said = said_by p.outcome } };
}
