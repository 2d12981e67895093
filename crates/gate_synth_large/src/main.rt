//! The program `workshop`, for a stored run of a whole round in memory: a picture of 720x576.
#![tactic(auto)]

use std::process::ExitCode;
use workshop::run_alone;

fn main(rt: HostRuntime) -> ExitCode {
    run_alone(&rt)
}
