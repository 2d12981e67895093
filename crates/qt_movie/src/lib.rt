//! Reads and writes QuickTime movies of ProRes pictures.
#![tactic(auto)]

mod containers;
mod describing;
mod description;
mod external;
mod fields;
mod laws;
mod leaves;
mod moov;
mod parts;
mod pictures;
mod reader;
mod tables;
mod track;
mod trak;
mod writer;

pub use containers::{write_moov, write_trak};
pub use description::Description;
pub use external::{dref_of, lies_here, references_of};
pub use fields::{bytes_of, u16_of, u32_of};
pub use laws::{
    frames_lie_at_their_places, lone_samples_are_told, written_frames_are_read,
    written_movie_is_read, written_samples_are_read, written_traks_are_read,
};
pub use moov::{judge_children, moov_of};
pub use parts::{Parts, parts_of};
pub use qt_tables::{MovieFault, MovieKind, Sample};
pub use reader::{MovieReader, Track};
pub use trak::{Media, Trak};
pub use writer::MovieWriter;
