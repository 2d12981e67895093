//! Synthetic pictures, as raw planar bytes.
#![tactic(auto)]

mod laws;
mod source;
mod synthetic;

pub use laws::synthetic_is_meant;
pub use source::SyntheticSource;
pub use synthetic::Synthetic;
