//! Atoms of QuickTime files: read one, find the first that matches, and a writer that frames atoms.
#![tactic(auto)]

mod atom;
mod laws;
mod next;
mod walking;
mod writer;

pub use atom::{Atom, AtomFault, Step};
pub use laws::{
    ended_is_atom, walk_meets_written, written_atom_stands, written_long_numbers_are_read,
    written_numbers_are_read,
};
pub use next::next_atom;
pub use walking::{find, find_either, first_of};
pub use writer::AtomWriter;
