//! Rate-distortion tables, their files, and their choices.
#![tactic(auto)]

mod entry;
mod fault;
mod field;
mod joining;
mod laws;
mod nested;
mod priced;
mod reading;
mod small;
mod sums;
mod table;
mod writing;

pub use entry::{Entry, Pair};
pub use fault::{ProofKind, TableFault, bad};
pub use field::{read_u8, read_u16, read_u32, read_u64};
pub use joining::join;
pub use laws::{
    all_choices_are_choices, all_choices_count, best_exists, best_is_one, body_is_read_again,
    body_is_spelled, good_is_least, good_none_fits, indices_tell_choice, none_fits_below_least,
};
pub use nested::{read_indices, read_proof_table};
pub use priced::{cost_of, least_cost, least_costs, least_size};
pub use reading::{read_body, read_body_on, read_file, read_table};
pub use small::{SmallFault, SmallOutcome, best_small};
pub use sums::{least, part_total, total};
pub use table::{FrameTable, MAX_TABLE_BYTES, MAX_TABLE_SLICES, SliceTable, Slices};
pub use writing::write_body;
