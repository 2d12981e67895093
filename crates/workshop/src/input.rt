//! A real source.

ghost use Rattle.std.specs.Prelude.{◌≡◌, None, min};
ghost use Rattle.std.specs.Io.{ReadsAtMost};
ghost use Rattle.std.proofs.Common.{arith};
ghost use Rattle.pw_outside.specs.Ports.{last};

use crate::files::{PIECE, Target, is_interrupted, no_file};
use pw_outside::{ByteSource, Failed};
use std::fs;
use std::io::{self, BufReader, Read};
use std::rt::Files;

#[derive(Drop)]
enum OpenInput<R: Files + Input + Drop> {
    File(BufReader<R::File>),
    Standard(BufReader<R::Reader>),
}

/// A source over a file or standard input, opened at its first use. It counts its faults, and its contents are
/// opaque: no contract knows what a file, a pipe or a terminal holds. Once a read has returned no bytes, every
/// later one returns none.
#[derive(Drop)]
pub struct InputPort<R: Files + Input + AllocGlobal + Drop> {
    rt: R,
    target: Target,
    open: Option<OpenInput<R>>,
    ended: bool,
    faults: u64,
}

impl<R: Files + Input + AllocGlobal + Drop> InputPort<R> {
    pub fn new(rt: R, target: Target) -> Self {
        InputPort {
            rt,
            target,
            open: None,
            ended: false,
            faults: 0,
        }
    }

    fn opened(&self) -> io::Result<OpenInput<R>> {
        let alloc = self.rt.alloc();
        match &self.target {
            Target::File(path) => {
                let file = fs::open(&self.rt, path.as_str())?;
                Ok(OpenInput::File(BufReader::with_capacity(alloc, PIECE, file)?))
            }
            Target::Standard => Ok(OpenInput::Standard(BufReader::with_capacity(
                alloc,
                PIECE,
                self.rt.reader(),
            )?)),
            Target::Nothing => Err(no_file()),
        }
    }

    fn read_once(&mut self, piece: &mut [u8]) -> io::Result<usize>
        ensures count { ReadsAtMost result piece.new }
        ensures kept { self.new.faults ≡ self.old.faults }
    {
        if self.open.is_none() {
            self.open = Some(self.opened()?);
        }
        match &mut self.open {
            Some(OpenInput::File(file)) => file.read(piece),
            Some(OpenInput::Standard(input)) => input.read(piece),
            None => Err(no_file()),
        }
    }

    /// Reads, and retries after an interrupt.
    fn read_open(&mut self, piece: &mut [u8]) -> io::Result<usize>
        ensures count { ReadsAtMost result piece.new }
        ensures kept { self.new.faults ≡ self.old.faults }
    {
        for _ in 0..u64::MAX {
            match self.read_once(piece) {
                Err(error) if is_interrupted(&error) => {}
                answer => return answer,
            }
        }
        Err(io::Error::from(io::ErrorKind::Interrupted))
    }
}

impl<R: Files + Input + AllocGlobal + Drop> ByteSource for InputPort<R> {
    ghost left = { λ _. None };

    ghost most = { λ _. None };

    ghost faults = { λ s. min s.faults last };

    ghost becomes = { λ _ _. Unit {0} };

    ghost becomes_same = { λ _. tt };

    ghost bound = { λ _. tt };

    ghost faults_end = { λ s. Prim.omega arith };

    fn read(&mut self, piece: &mut [u8]) -> Result<usize, Failed> {
        if self.ended {
            return Ok(0);
        }
        match self.read_open(piece) {
            Ok(count) => {
                self.ended = count == 0 && !piece.is_empty();
                Ok(count)
            }
            Err(_) => {
                self.faults = self.faults.saturating_add(1);
                Err(Failed)
            }
        }
    }
}
