//! The smallest choice under a cap on the error, certificates that no choice is smaller, and the Pareto frontier of
//! a table.
#![tactic(auto)]

mod bound;
mod check;
mod covering;
mod end;
mod errors;
mod held;
mod laws;
mod layers;
mod leasting;
mod live;
mod marks;
mod merge;
mod multiplier;
mod narrowed;
mod outcome;
mod passing;
mod places;
mod points;
mod reading;
mod runs;
mod search;
mod steps;
mod texts;
mod writing;

pub use check::check_least;
pub use end::LeastEnd;
pub use laws::{certificate_is_read_again, curve_is_one, good_is_true};
pub use leasting::least_run;
pub use outcome::{LeastOutcome, LeastProof, WidePair};
pub use points::curve;
pub use reading::read_least;
pub use runs::{checkleast_run, curve_run};
pub use search::smallest;
pub use writing::write_least;
