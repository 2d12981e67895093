//! The result of the search for the best choice.

use rate_table::Pair;

/// The best choice of a table with the Pareto frontiers that prove it, or the least number of bytes if no choice
/// fits.
#[derive(Debug, Drop)]
pub enum Outcome {
    /// A choice fits.
    Fits {
        /// The indices of the best choice, one for each slice.
        choice: Vec<u8>,
        /// Its size in bytes, without the fixed bytes.
        size: u64,
        /// Its error.
        error: u64,
        /// After each number of slices, by rising size, the pairs that no other dominates and that the bound of
        /// this error does not prune. There is one frontier more than slices.
        layers: Vec<Vec<Pair>>,
        /// The least Lagrangian multiplier whose minimisers fit.
        multiplier: u64,
    },
    /// No choice fits.
    None {
        /// The fixed bytes plus each slice's least size; greater than the budget.
        least: u64,
    },
}
