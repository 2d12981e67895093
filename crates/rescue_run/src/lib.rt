//! The run of `rescue`: a movie of the frames that lie in a file, whatever lies around them.
#![tactic(auto)]

mod end;
mod finish;
mod form;
mod gather;
mod gathering;
mod judging;
mod laws;
mod run;
mod search;
mod window;

pub use end::RescueEnd;
pub use laws::{rescued_movie_is_read, rescuing_goes_on, rescuing_is_one, runs_write_fronts};
pub use run::rescue_run;
