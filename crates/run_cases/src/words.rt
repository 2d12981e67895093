//! Words of the command line.

use crate::cases::{Files, words_of};
use crate::ports::{Calls, Ran, run_over};
use std::io;
use workshop::{Status, names_of};

pub(crate) fn words_answer(rt: &HostRuntime, text: &str) -> io::Result<String> {
    let words = words_of(rt, text)?;
    let names = names_of(&words);
    let Ran { status, text, .. } = run_over(rt, &words, Files::none(), Calls::of(1))?;
    let code = status.code();
    let length = text.len();
    Ok(format!(in rt.alloc(); "{names:?}, {code}, {status}, {length} bytes")?)
}

pub(crate) fn line_answer(rt: &HostRuntime, text: &str) -> io::Result<String> {
    let words = words_of(rt, text)?;
    match run_over(rt, &words, Files::none(), Calls::of(1))?.status {
        Status::Usage { kind, word } => {
            Ok(format!(in rt.alloc(); "usage: {kind:?} at word {word}")?)
        }
        _ => Ok("-".to_string(rt.alloc())?),
    }
}
