//! The program `workshop`.
#![tactic(auto)]

use monitors::{BlackMonitor, BytesMonitor, IndexMonitor, LevelMonitor, Monitor};
use std::io;
use std::process::ExitCode;
use workshop::{Status, exit_code, program, tells_monitors, told, unread, words_of};

/// Runs the command line, or answers a question about the program itself. `decode` has four monitors, in the order
/// of their reports; other commands have none.
fn run(rt: &HostRuntime, words: &[String]) -> io::Result<Status> {
    let alloc = rt.alloc();
    if let Some(status) = told(rt, words) {
        return Ok(status);
    }
    let mut monitors: Vec<Box<dyn Monitor>> = Vec::new(alloc);
    if tells_monitors(words) {
        monitors.push(Box::new(alloc, LevelMonitor::new())?)?;
        monitors.push(Box::new(alloc, BlackMonitor::new(alloc))?)?;
        monitors.push(Box::new(alloc, BytesMonitor::new())?)?;
        monitors.push(Box::new(alloc, IndexMonitor::new())?)?;
    }
    program(rt, words, &mut monitors)
}

fn main(rt: HostRuntime) -> ExitCode {
    match words_of(&rt) {
        Ok(words) => exit_code(&rt, &words, run(&rt, &words)),
        Err(error) => unread(&rt, &error),
    }
}
