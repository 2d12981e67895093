//! The headers of frames, pictures and slices, and the tables of slices' sizes, read and written.
#![tactic(auto)]

mod fault;
mod frame;
mod laws;
mod own;
mod picture;
mod pieces;
mod slice;
mod start;
mod writing;

pub use fault::{FrameFault, FrameKind};
pub use frame::{FrameHeader, read_frame_header};
pub use laws::{
    frame_header_is_read_again, picture_header_is_read_again, slice_header_is_read_again,
    slice_sizes_are_read_again,
};
pub use own::own_header;
pub use picture::{PictureHeader, read_picture_header, read_slice_sizes};
pub use slice::{SliceHeader, read_slice_header};
pub use writing::{write_frame_header, write_picture_header, write_slice_header};
