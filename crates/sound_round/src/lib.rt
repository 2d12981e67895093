//! Round trip of sound: a movie with added sound is read back as its pictures and its sound. Laws alone, over the
//! definitions of `pcm_track` and `qt_movie`.
#![tactic(auto)]

mod laws;

pub use laws::{added_is_read_again, added_pictures_are_read, added_sound_is_taken_out};
