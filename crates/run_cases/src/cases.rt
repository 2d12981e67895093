//! The words and the files of a case.

use gate_words::bytes_of;
use std::io;

/// The files of the ports that a run may read.
#[derive(Clone, Copy)]
pub(crate) struct Files<'a> {
    pub(crate) pictures: &'a [u8],
    pub(crate) proof: &'a [u8],
    pub(crate) movie: &'a [u8],
}

impl<'a> Files<'a> {
    /// No files.
    pub(crate) fn none() -> Files<'a> {
        Files {
            pictures: &[],
            proof: &[],
            movie: &[],
        }
    }

    /// A movie alone.
    pub(crate) fn of_movie(movie: &'a [u8]) -> Files<'a> {
        Files {
            pictures: &[],
            proof: &[],
            movie,
        }
    }
}

/// A case: the words of its run, and its files.
#[derive(Drop)]
pub(crate) struct Case {
    pub(crate) words: Vec<String>,
    pub(crate) pictures: Vec<u8>,
    pub(crate) proof: Vec<u8>,
    pub(crate) movie: Vec<u8>,
}

impl Case {
    /// The files of the case.
    pub(crate) fn files(&self) -> Files<'_> {
        Files {
            pictures: &self.pictures,
            proof: &self.proof,
            movie: &self.movie,
        }
    }
}

/// The words of a text, with spaces between them.
pub(crate) fn words_of(rt: &HostRuntime, text: &str) -> io::Result<Vec<String>> {
    let mut words = Vec::new(rt.alloc());
    for word in text.split_whitespace() {
        words.push(word.to_string(rt.alloc())?)?;
    }
    Ok(words)
}

/// The text before the last word, and the file of that word.
fn last_file<'a>(rt: &HostRuntime, text: &'a str) -> io::Result<(&'a str, Vec<u8>)> {
    let (rest, word) = text.rsplit_once(' ').unwrap_or((text, "-"));
    Ok((rest, bytes_of(rt.alloc(), word.as_bytes())?))
}

/// The case of a line's text: `WORD .. PICTURES PROOF MOVIE`.
pub(crate) fn case_of(rt: &HostRuntime, text: &str) -> io::Result<Case> {
    let (rest, movie) = last_file(rt, text)?;
    let (rest, proof) = last_file(rt, rest)?;
    let (rest, pictures) = last_file(rt, rest)?;
    Ok(Case {
        words: words_of(rt, rest)?,
        pictures,
        proof,
        movie,
    })
}
