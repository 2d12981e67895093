//! The alpha values of a slice, written and read: differences to the value before and runs of equal values, as
//! in SMPTE RDD 36. A value has 8 or 16 bits. No call takes memory.
#![tactic(auto)]

mod laws;
mod read;
mod width;
mod write;

pub use laws::{alpha_is_read, alpha_is_read_again, alpha_is_short, one_list_or_fault};
pub use read::{AlphaFault, read_alpha};
pub use write::{alpha_length, write_alpha};
