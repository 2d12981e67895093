//! Reads and writes raw planar pictures, and reads pictures of any format.
#![tactic(auto)]

mod any;
mod frame;
mod laws;
mod reader;
mod writer;

pub use any::AnyReader;
pub use laws::{
    left_have_form, next_is_first, pictures_are_read, pictures_have_form, written_is_meant,
    written_is_read, y4m_is_meant,
};
pub use reader::RawReader;
pub use writer::RawWriter;
