//! The run of `encode`: reads pictures; writes a movie of their frames, a proof that each group's choice is best,
//! and a line for each frame.
#![tactic(auto)]

mod coding;
mod end;
mod finish;
mod fit;
mod frames;
mod groups;
mod job;
mod laws;
mod lines;
mod parts;
mod reading;
mod run;
mod settings;
mod tables;
mod turn;

pub use end::EncodeEnd;
pub use job::{EncodeWords, Job};
pub use laws::{cut_has_headline, encoded_has_headline, encoding_goes_on, encoding_is_one};
pub use run::encode_run;
