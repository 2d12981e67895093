//! The program `workshop`, for a stored run that ends in a refusal: a table file without its last byte.
#![tactic(auto)]

use std::process::ExitCode;
use workshop::run_alone;

fn main(rt: HostRuntime) -> ExitCode {
    run_alone(&rt)
}
