//! The components of a slice, written and read: the coefficients of 1 to 32 blocks as the codewords of their DC
//! differences and of their runs and levels, as in SMPTE RDD 36. No call takes memory.
#![tactic(auto)]

mod books;
mod component;
mod laws;
mod lengths;
mod read;
mod scan;
mod triple;
mod write;

pub use books::{book_of_difference, book_of_level, book_of_run, first_book};
pub use component::{read_component, unfold};
pub use laws::{
    bits_are_counted, classes_name_books, coefficients_are_short, component_is_read,
    components_are_of_triples, components_are_short, one_list_of_triples, one_list_or_fault,
    scans_have_each_place,
};
pub use lengths::{Cost, Lengths, class_of_level, class_of_run, firsts_length, level_of, run_of};
pub use read::CoeffFault;
pub use scan::{Block, Scan};
pub use triple::{RunLevel, signed_level};
pub use write::{component_length, write_component};
