//! Codewords: numbers in a bitstream by the Golomb combination codes of SMPTE RDD 36, entropy coding. No call takes
//! memory.
#![tactic(auto)]

mod book;
mod codes;
mod laws;

pub use book::Codebook;
pub use codes::{CodeFault, code_length, get_after, get_code, put_code, tail_parts, word_bits};
pub use laws::{words_are_prefix_free, words_are_read, words_are_short, words_go_on};
