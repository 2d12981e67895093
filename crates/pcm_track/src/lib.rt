//! Plain PCM sound beside the pictures of a movie: reads WAVs, adds sound to a movie, and extracts it from one.
#![tactic(auto)]

mod adding;
mod copying;
mod end;
mod fault;
mod form;
mod parts;
mod plan;
mod reader;
mod sounding;
mod track;
mod wav;

pub use adding::add_run;
pub use end::SoundEnd;
pub use fault::{CopyFault, SoundFault, SoundKind};
pub use form::{Format, Met, Pcm};
pub use parts::Part;
pub use reader::WavReader;
pub use sounding::sound_run;
