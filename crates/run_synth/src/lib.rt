//! The run of `synth`: synthetic pictures, encoded, decoded and checked in memory.
#![tactic(auto)]

mod encoding;
mod end;
mod looking;
mod memory;
mod ports;
mod run;
mod words;

pub use end::SynthEnd;
pub use run::synth_run;
pub use words::SynthWords;
