//! The records of a proof.

use rate_table::{FrameTable, Pair};
use std::marker::Model;

/// The verdict on a table.
#[derive(Debug, Drop)]
pub enum Verdict {
    /// A choice fits, and no fitting choice has less error.
    Fits {
        /// The indices of the choice, one for each slice.
        choice: Vec<u8>,
        /// Its size in bytes, without the fixed bytes.
        size: u32,
        /// Its error.
        error: u64,
        /// The Lagrangian multiplier of the bound.
        multiplier: u64,
        /// The Pareto frontier (layer) that is kept after each number of slices, from none to all.
        layers: Vec<Vec<Pair>>,
    },
    /// No choice fits.
    None {
        /// The fixed bytes plus each slice's least size.
        least: u64,
    },
}

/// A record: the table of a group of frames, and the verdict on it.
#[derive(Drop)]
pub struct FrameProof {
    /// The rate-distortion table of the group, with its budget.
    pub table: FrameTable,
    /// The best choice, or that none fits.
    pub verdict: Verdict,
}

impl Model for FrameProof {
    ghost use Rattle.rate_cert.specs.Records.{Record, said_by};

    ghost Value = { Record };

    ghost view = { λ p. record { table = p.table; said = said_by p.verdict } };
}
