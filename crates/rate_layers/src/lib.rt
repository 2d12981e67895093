//! Pareto frontiers under a bound, the Lagrangian multiplier of a table, and the laws of both.
#![tactic(auto)]

mod bits;
mod bound;
mod fault;
mod laws;
mod layers;
mod live;
mod marks;
mod merge;
mod multiplied;
mod multiplier;
mod narrowed;
mod outcome;
mod passing;
mod places;
mod search;
mod thin;

pub use fault::BestFault;
pub use laws::{
    best_of_full, best_of_kept, full_exists, full_is_good, full_is_merged, full_is_narrow,
    full_is_one, kept_are_fewer, kept_are_narrow, kept_are_one, kept_exist, kept_is_filter,
    kept_is_good, kept_is_merged, multiplier_exists, multiplier_is_one, none_of_full, none_of_kept,
    picks_fall,
};
pub use layers::kept_layers;
pub use multiplier::{fitting_multiplier, least_multiplier, pick_sums};
pub use outcome::Outcome;
pub use search::best;
