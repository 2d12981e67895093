//! Reads and writes pictures in the Y4M format (yuv4mpeg(5) of the mjpegtools).
#![tactic(auto)]

mod bytes;
mod fault;
mod frame;
mod head;
mod head_line;
mod laws;
mod line;
mod parameters;
mod pieces;
mod reader;
mod samples;
mod values;
mod writer;

pub use bytes::next_byte;
pub use fault::{PictureFault, PictureKind};
pub use head::{Head, MAX_FRAMES, MAX_RATE_DEN, MAX_RATE_NUM};
pub use laws::{
    head_is_read, left_have_form, next_is_first, pictures_are_read, pictures_have_form,
    written_is_meant, written_is_read,
};
pub use pieces::put_samples;
pub use reader::Y4mReader;
pub use samples::{SampleSize, check_range, limit_of, next_samples, read_samples};
pub use writer::{WriteEnd, Y4mWriter};
