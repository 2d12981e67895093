//! A program for the gate alone. Each line of standard input is a case, and its answer is printed on one line. The cases and the answers
//! that are compared with it are worked ones, or those of an independent reference. A file stands in hexadecimal, or as a lone dash
//! where it is empty; PICTURES, PROOF and MOVIE are the files of the three ports that a run may read.
//!
//! - `run WORD .. PICTURES PROOF MOVIE`: a run of the top call: the exit status with its line, the text with `\n` for each line feed, and
//!   what `out` and `cert` got, more than 600 bytes as their number and a hash. The run is made in steps of 1, 3 and 4,096 bytes a call.
//! - `heard WORD .. PICTURES PROOF MOVIE`: the same of `sound` over the movie that this run wrote.
//! - `cuts PORT WORD .. PICTURES PROOF MOVIE`: the exit status with its line over each prefix of the port's file (`pictures`, `proof` or
//!   `movie`): each one after the length of the first prefix that has it, where the prefix before has another.
//! - `fails WORD .. PICTURES PROOF MOVIE`: each call of each port fails in turn, in steps of 7 bytes a call. For each of `pictures`, `proof`,
//!   `movie`, `out`, `cert` and `text`: `unused`, or `told` where each such run ends with a read or a write fault, each sink holds a prefix of
//!   what the whole run writes, and `text` holds nothing before `out` and `cert` hold what they held at the first call of `text`; then how
//!   many bytes that is, and the whole run as after `run`.
//! - `words WORD ..`: the files' names among these words, the exit status over empty files, and its line.
//! - `line WORD ..`: the fault of these words, or a lone dash where they are in the grammar.
//! - `places MOVIE`: where the samples of the movie lie.
//! - `write DEN ALPHA SIZE ..`: a movie of frames of zeros of these sizes, in hexadecimal.
//! - `written DEN ALPHA SIZE ..`: what `list` answers over that movie.
#![tactic(auto)]

mod cases;
mod fails;
mod movies;
mod ports;
mod runs;
mod words;

use std::io;

/// The answer to the case of a line.
fn answer(rt: &HostRuntime, line: &str) -> io::Result<String> {
    let alloc = rt.alloc();
    let (form, rest) = line.split_once(' ').unwrap_or((line, ""));
    match form {
        "run" => runs::run_answer(rt, rest),
        "heard" => runs::heard_answer(rt, rest),
        "cuts" => runs::cuts_answer(rt, rest),
        "fails" => fails::fails_answer(rt, rest),
        "words" => words::words_answer(rt, rest),
        "line" => words::line_answer(rt, rest),
        "places" => movies::places_answer(rt, rest),
        "write" => movies::bytes_answer(rt, rest),
        "written" => movies::written_answer(rt, rest),
        _ => Ok("no case".to_string(alloc)?),
    }
}

fn main(rt: HostRuntime) -> io::Result<()> {
    for line in rt.lines(rt.alloc()) {
        let line = line?;
        let answer = answer(&rt, line.as_str())?;
        println!(&rt; "{answer}")?;
    }
    Ok(())
}
