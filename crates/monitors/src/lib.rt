//! Monitors, which receive the facts of each decoded picture, and report at the end.
#![tactic(auto)]

mod black;
mod extremes;
mod facts;
mod indices;
mod laws;
mod levels;
mod monitor;
mod sizes;

pub use black::BlackMonitor;
pub use facts::PictureFacts;
pub use indices::IndexMonitor;
pub use laws::{pictures_are_taken_in_order, runs_have_all_black_pictures};
pub use levels::LevelMonitor;
pub use monitor::Monitor;
pub use sizes::BytesMonitor;
