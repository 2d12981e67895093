//! Whole frames, read and written: the bytes of a coded frame, and the coded frame that a sample stands for, or its
//! first fault.
#![tactic(auto)]

mod coded;
mod laws;
mod output;
mod parts;
mod pictures;
mod placing;
mod products;
mod read;
mod scratch;
mod showing;
mod size;
mod slices;
mod write;

pub use coded::{
    AlphaValues, Blocks, CodedFrame, CodedPicture, CodedPictures, CodedSlice, CodedSlices,
};
pub use laws::{
    frame_has_no_fault, frame_or_fault, one_frame, slices_are_short, written_has_length,
    written_is_read_again, written_stands,
};
pub use parts::scan_of;
pub use pictures::show;
pub use read::read_frame;
pub use showing::{Shown, read_shown};
pub use size::frame_length;
pub use write::{write_frame, write_slice};
