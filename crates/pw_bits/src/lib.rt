//! Bits in streams of bytes, the most significant bit of a byte first: written to any sink, read from any source.
//! No call takes memory.
#![tactic(auto)]

mod byte;
mod laws;
mod places;
mod reader;
mod spelled;
mod window;
mod writer;

pub use laws::{bits_are_numbers, bytes_are_bits};
pub use places::{behind_last_one, bit_at, front_at};
pub use reader::{BitFault, BitReader, ZeroRun};
pub use spelled::{Cursor, finish, put_bits};
pub use window::Window;
pub use writer::BitWriter;
