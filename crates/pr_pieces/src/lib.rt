//! The components of a slice, read from memory: the same coefficients and the same first fault as from a source,
//! with short codewords looked up in tables. No call takes memory.
#![tactic(auto)]

mod blocks;
mod component;
mod first;
mod short;
mod shorts;
mod step;
mod triple;
mod values;
mod word;

pub use component::read_component_in;
pub use shorts::ShortWords;
