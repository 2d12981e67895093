//! The commands that look at files: listing a movie, checking a proof, and rewriting one.
#![tactic(auto)]

mod agreeing;
mod checking;
mod coded;
mod comparing;
mod end;
mod laws;
mod lines;
mod listing;
mod reproof;
mod through;

pub use agreeing::check_run;
pub use checking::check_proof_run;
pub use end::LookEnd;
pub use laws::{agreeing_is_done_once, checking_ends_once, proof_stays_as_it_is};
pub use listing::list_run;
pub use reproof::reproof_run;
