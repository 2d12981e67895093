//! Whole runs, and runs over the prefixes of a file.

ghost use Rattle.std.specs.Prelude.{◌≤◌};

use crate::cases::{Case, Files, case_of, words_of};
use crate::ports::{Calls, Ran, run_over};
use gate_words::{hashed_of, text_line};
use std::io;
use workshop::Status;

/// Bytes that a call moves, where their number isn't the point.
const MANY: usize = 4096;

/// The exit status with its line.
fn status_of(rt: &HostRuntime, status: Status) -> io::Result<String> {
    let code = status.code();
    Ok(format!(in rt.alloc(); "{code} {status}")?)
}

/// A run on one line.
pub(crate) fn line_of(rt: &HostRuntime, run: &Ran) -> io::Result<String> {
    let status = status_of(rt, run.status)?;
    let text = text_line(rt.alloc(), &run.text)?;
    let out = hashed_of(rt.alloc(), &run.out)?;
    let cert = hashed_of(rt.alloc(), &run.cert)?;
    Ok(format!(in rt.alloc(); "{status} | {text} | {out} | {cert}")?)
}

/// A run on one line, whatever number of bytes a call moves.
pub(crate) fn answer_over(
    rt: &HostRuntime,
    words: &[String],
    files: Files<'_>,
) -> io::Result<String> {
    let answer = line_of(rt, &run_over(rt, words, files, Calls::of(MANY))?)?;
    for step in [1, 3] {
        let other = line_of(rt, &run_over(rt, words, files, Calls::of(step))?)?;
        if other != answer {
            return Ok(format!(in rt.alloc(); "{answer}, but in steps of {step} {other}")?);
        }
    }
    Ok(answer)
}

pub(crate) fn run_answer(rt: &HostRuntime, text: &str) -> io::Result<String> {
    let case = case_of(rt, text)?;
    answer_over(rt, &case.words, case.files())
}

pub(crate) fn heard_answer(rt: &HostRuntime, text: &str) -> io::Result<String> {
    let case = case_of(rt, text)?;
    let run = run_over(rt, &case.words, case.files(), Calls::of(MANY))?;
    let words = words_of(rt, "sound movie wav")?;
    answer_over(rt, &words, Files::of_movie(&run.out))
}

/// The first `length` bytes of a file, or all where it has fewer.
fn prefix(file: &[u8], length: usize) -> &[u8] {
    if length < file.len() {
        &file[..length]
    } else {
        file
    }
}

/// The files of a case, with a prefix of the one of this port.
fn cut_files<'a>(case: &'a Case, port: &str, length: usize) -> Files<'a> {
    let files = case.files();
    match port {
        "pictures" => Files {
            pictures: prefix(files.pictures, length),
            ..files
        },
        "proof" => Files {
            proof: prefix(files.proof, length),
            ..files
        },
        _ => Files {
            movie: prefix(files.movie, length),
            ..files
        },
    }
}

pub(crate) fn cuts_answer(rt: &HostRuntime, text: &str) -> io::Result<String> {
    let (port, rest) = text.split_once(' ').unwrap_or((text, "- - -"));
    let case = case_of(rt, rest)?;
    let whole = match port {
        "pictures" => case.pictures.len(),
        "proof" => case.proof.len(),
        _ => case.movie.len(),
    };
    let mut all = String::new(rt.alloc());
    let mut last = String::new(rt.alloc());
    for length in 0..=whole {
        let files = cut_files(&case, port, length);
        let run = run_over(rt, &case.words, files, Calls::of(MANY))?;
        let status = status_of(rt, run.status)?;
        if status != last {
            all.push_str(&format!(in rt.alloc(); "{length} {status}; ")?)?;
            last = status;
        }
    }
    Ok(all)
}
