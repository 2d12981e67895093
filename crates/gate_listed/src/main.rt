//! The program `workshop`, for a stored run over a file that is read at offsets: it lists a movie.
#![tactic(auto)]

use std::process::ExitCode;
use workshop::run_alone;

fn main(rt: HostRuntime) -> ExitCode {
    run_alone(&rt)
}
