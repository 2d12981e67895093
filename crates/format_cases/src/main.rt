//! A program for the gate alone. Each line of standard input is a case of an independent reference, and its answer is printed on one line:
//! `component put|get SCAN COUNT BYTES`, `frame BYTES`, or `table W H CHROMA DEPTH ALPHA MODE LO HI LOG2 MATRIX SAMPLES`.
#![tactic(auto)]

mod components;
mod frames;
mod tables;

use pr_pieces::ShortWords;
use std::io;

fn main(rt: HostRuntime) -> io::Result<()> {
    let words = ShortWords::new();
    for line in rt.lines(rt.alloc()) {
        let line = line?;
        let (form, case) = line.as_str().split_once(' ').unwrap_or(("", ""));
        match form {
            "component" => components::print(&rt, &words, case)?,
            "frame" => frames::print(&rt, case)?,
            "table" => tables::print(&rt, case)?,
            _ => println!(&rt; "no case")?,
        }
    }
    Ok(())
}
