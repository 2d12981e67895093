//! The program: the real ports for the command-line words, the top call, and the exit status.

use crate::files::Target;
use crate::help::{put_answer, put_help, question_of, says_help};
use crate::input::InputPort;
use crate::output::OutputPort;
use crate::status::Status;
use crate::store::StorePort;
use crate::top::workshop;
use crate::words::{Names, names_of};
use monitors::Monitor;
use std::alloc::Global;
use std::env;
use std::io::{self, IsTerminal, Write};
use std::process::ExitCode;

/// The exit status for words that can't be read, which no call of the program sees.
const UNREAD: u8 = 1;

/// The exit status of the process: the number of `status`; an error counts as `NoMemory`. The line of a status
/// other than `Done` goes to standard error. If the words aren't in the grammar, help follows the line, for a
/// person: if standard error is a terminal, or a word is `--help`.
pub fn exit_code(rt: &HostRuntime, words: &[String], status: io::Result<Status>) -> ExitCode {
    let status = match status {
        Ok(status) => status,
        Err(_) => Status::NoMemory,
    };
    if status != Status::Done {
        // If standard error fails, the number alone reports the status.
        let _ = eprintln!(rt; "workshop: {status}");
    }
    if let Status::Usage { .. } = status {
        if rt.stderr().is_terminal() || says_help(words) {
            let mut text = String::new(rt.alloc());
            if put_help(&mut text, words).is_ok() {
                let _ = eprint!(rt; "{}", text.as_str());
            }
        }
    }
    ExitCode::from(status.code())
}

/// The exit status if the command-line words can't be read: a word isn't UTF-8, as every file name handed to the
/// system here has to be, or memory ran out.
pub fn unread(rt: &HostRuntime, error: &io::Error) -> ExitCode {
    if error.kind() == io::ErrorKind::InvalidData {
        let _ = eprintln!(rt; "workshop: usage: a word isn't UTF-8");
        return ExitCode::from(UNREAD);
    }
    exit_code(rt, &[], Ok(Status::NoMemory))
}

/// Answers a question about the program itself (`--help`, `help COMMAND` or `--version`) on standard output. `None`
/// if the words ask no such question.
pub fn told(rt: &HostRuntime, words: &[String]) -> Option<Status> {
    let question = question_of(words)?;
    let mut text = String::new(rt.alloc());
    if put_answer(&mut text, question).is_err() {
        return Some(Status::NoMemory);
    }
    match io::writer(rt).write_all(text.as_bytes()) {
        Ok(()) => Some(Status::Done),
        Err(_) => Some(Status::WriteFault),
    }
}

/// The command-line words after the program's name.
pub fn words_of(rt: &HostRuntime) -> io::Result<Vec<String>> {
    let mut words = Vec::new(rt.alloc());
    let mut is_name = true;
    for word in env::args(rt)? {
        if !is_name {
            words.push(word)?;
        }
        is_name = false;
    }
    Ok(words)
}

/// The file that word `word` names.
fn file_of(word: Option<usize>, words: &[String]) -> io::Result<Target> {
    match word.and_then(|number| words.get(number)) {
        Some(name) => Ok(Target::File(name.clone()?)),
        None => Ok(Target::Nothing),
    }
}

/// The names of the run's files except that of word `own`: an output is none of them. Standard input and standard
/// output have names on every system that the program is built for.
fn others_of(
    alloc: Global,
    names: &Names,
    own: Option<usize>,
    words: &[String],
) -> io::Result<Vec<String>> {
    let mut others = Vec::new(alloc);
    let all = [
        names.pictures,
        names.proof,
        names.movie,
        names.out,
        names.cert,
    ];
    for number in all {
        if number == own {
            continue;
        }
        if let Target::File(name) = file_of(number, words)? {
            others.push(name)?;
        }
    }
    others.push(String::from_str(alloc, "/dev/stdin")?)?;
    others.push(String::from_str(alloc, "/dev/stdout")?)?;
    Ok(others)
}

/// The source of the pictures: the file that word `word` names, or standard input if the word is a lone dash.
fn pictures_of(word: Option<usize>, words: &[String]) -> io::Result<Target> {
    match word.and_then(|number| words.get(number)) {
        Some(name) if name.as_str() == "-" => Ok(Target::Standard),
        _ => file_of(word, words),
    }
}

/// Runs the command over the files that the words name. `decode` reports each picture to `monitors`; other commands
/// leave the list unchanged. An error means that memory ran out.
pub fn program(
    rt: &HostRuntime,
    words: &[String],
    monitors: &mut Vec<Box<dyn Monitor>>,
) -> io::Result<Status> {
    let names = names_of(words);
    let mut pictures = InputPort::new(rt.clone()?, pictures_of(names.pictures, words)?);
    let mut proof = InputPort::new(rt.clone()?, file_of(names.proof, words)?);
    let mut movie = StorePort::new(rt.clone()?, file_of(names.movie, words)?);
    let mut out = OutputPort::new(
        rt.clone()?,
        file_of(names.out, words)?,
        others_of(rt.alloc(), &names, names.out, words)?,
    );
    let mut cert = OutputPort::new(
        rt.clone()?,
        file_of(names.cert, words)?,
        others_of(rt.alloc(), &names, names.cert, words)?,
    );
    let mut text = OutputPort::new(rt.clone()?, Target::Standard, Vec::new(rt.alloc()));
    Ok(workshop(
        rt.alloc(),
        words,
        &mut pictures,
        &mut proof,
        &mut movie,
        &mut out,
        &mut cert,
        &mut text,
        monitors,
    ))
}

/// The program without monitors, for stored runs.
pub fn run_alone(rt: &HostRuntime) -> ExitCode {
    match words_of(rt) {
        Ok(words) => {
            let status = program(rt, &words, &mut Vec::new(rt.alloc()));
            exit_code(rt, &words, status)
        }
        Err(error) => unread(rt, &error),
    }
}
