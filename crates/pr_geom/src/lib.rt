//! The layout of a frame: pictures, slices and blocks.
#![tactic(auto)]

mod layout;
mod places;

pub use layout::{Layout, pictures_of};
pub use places::{GeomFault, MAX_SLICES, Part, SlicePlace};
