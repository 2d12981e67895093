//! The program `workshop`, for a stored run of a whole round in memory: two pictures of 320x240.
#![tactic(auto)]

use std::process::ExitCode;
use workshop::run_alone;

fn main(rt: HostRuntime) -> ExitCode {
    run_alone(&rt)
}
