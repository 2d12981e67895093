//! The program `workshop`, for a stored run that writes files: it encodes a picture.
#![tactic(auto)]

use std::process::ExitCode;
use workshop::run_alone;

fn main(rt: HostRuntime) -> ExitCode {
    run_alone(&rt)
}
