//! Whole rounds: the result of encoding passes the check and is decoded. Laws alone, over the definitions of the
//! three runs.
#![tactic(auto)]

mod laws;

pub use laws::{
    checked_is_checked_alone, encoded_is_checked, encoded_is_decoded, small_is_checked,
};
