//! Optimality proofs of choices: their settings, their records and their files.
#![tactic(auto)]

mod field;
mod gather;
mod head;
mod laws;
mod layer_bytes;
mod layers;
mod progress;
mod proof;
mod reader;
mod record;
mod settings;
mod writer;

pub use laws::{
    head_is_read_again, head_is_spelled, number_is_read_again, proof_is_read_again,
    proof_is_spelled, record_is_read_again, record_is_spelled,
};
pub use progress::MAX_RECORDS;
pub use proof::{FrameProof, Verdict};
pub use reader::ProofReader;
pub use settings::Settings;
pub use writer::ProofWriter;
