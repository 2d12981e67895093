//! The program `workshop`.
#![tactic(auto)]

mod checking;
mod decode;
mod encode;
mod files;
mod help;
mod input;
mod least;
mod listing;
mod options;
mod output;
mod plan;
mod process;
mod raw_form;
mod reproofing;
mod rescuing;
mod sounding;
mod status;
mod store;
mod synthesis;
mod top;
mod words;

pub use files::Target;
pub use input::InputPort;
pub use options::Rate;
pub use output::OutputPort;
pub use process::{exit_code, program, run_alone, told, unread, words_of};
pub use status::{Status, UsageKind};
pub use store::StorePort;
pub use top::workshop;
pub use words::{Command, DecodeWords, Names, Task, names_of, tells_monitors};
