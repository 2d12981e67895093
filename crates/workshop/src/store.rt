//! A real store.

ghost use Rattle.std.specs.Prelude.{◌≡◌, None, min, length, ◌≤◌};
ghost use Rattle.std.specs.Io.{ReadsAtMost};
ghost use Rattle.std.proofs.Common.{arith};
ghost use Rattle.pw_outside.specs.Ports.{last};

use crate::files::{PIECE, Target, is_interrupted, keeps_bytes, no_file, unfit};
use pw_outside::{ByteStore, Failed};
use std::alloc::Global;
use std::fs::{self, OpenFile};
use std::io::{self, Read, Seek, SeekFrom};
use std::rt::Files;

/// Number of bytes to read at a position that doesn't continue the window: the head of an atom, and some more.
const HEAD: usize = 512;

/// An open file that can be read again, its length when it was opened, and a window of its bytes.
#[derive(Drop)]
struct OpenStore<F: Drop> {
    file: F,
    length: u64,
    window: Vec<u8>,
    window_at: u64,
    window_len: usize,
}

/// A store over a regular file or a block device, opened at its first use. It counts its faults, its contents are
/// opaque, and it buffers a window of bytes. Any other file, as a pipe or a terminal, is a fault.
#[derive(Drop)]
pub struct StorePort<R: Files + AllocGlobal + Drop> {
    rt: R,
    target: Target,
    open: Option<OpenStore<R::File>>,
    faults: u64,
}

/// Reads, and retries after an interrupt.
fn read_file<F: Read>(file: &mut F, piece: &mut [u8]) -> io::Result<usize>
    ensures count { ReadsAtMost result piece.new }
{
    for _ in 0..u64::MAX {
        match file.read(piece) {
            Err(error) if is_interrupted(&error) => {}
            answer => return answer,
        }
    }
    Err(io::Error::from(io::ErrorKind::Interrupted))
}

impl<F: Read + Seek + OpenFile + Drop> OpenStore<F> {
    /// A file of length 0 that can still be read has no known length, and is an error.
    fn new(alloc: Global, file: F) -> io::Result<Self> {
        let mut file = file;
        if !keeps_bytes(&file.metadata()?) {
            return Err(unfit());
        }
        let length = file.seek(SeekFrom::End(0))?;
        if length == 0 && read_file(&mut file, &mut [0; 1])? != 0 {
            return Err(unfit());
        }
        let mut window = Vec::with_capacity(alloc, PIECE)?;
        window.resize(PIECE, 0)?;
        Ok(OpenStore {
            file,
            length,
            window,
            window_at: 0,
            window_len: 0,
        })
    }

    /// The bytes of the window from `place` on.
    fn at_hand(&self, place: u64) -> &[u8] {
        let within = match place.checked_sub(self.window_at) {
            Some(skipped) => skipped,
            None => return &[],
        };
        match usize::try_from(within) {
            Ok(from) => self.window.get(from..self.window_len).unwrap_or(&[]),
            Err(_) => &[],
        }
    }

    /// Moves the window to `place`. If it continues the old window, the whole window is filled; otherwise only its
    /// first bytes.
    fn move_window(&mut self, place: u64) -> io::Result<()> {
        let goes_on = place.checked_sub(self.window_at) == Some(self.window_len as u64);
        let wanted = if goes_on { PIECE } else { HEAD };
        self.window_len = 0;
        self.file.seek(SeekFrom::Start(place))?;
        let end = wanted.min(self.window.len());
        let piece = &mut self.window.as_mut_slice()[..end];
        self.window_len = read_file(&mut self.file, piece)?;
        self.window_at = place;
        Ok(())
    }

    /// Reads bytes from `place` on: a large piece directly, others through the window.
    fn read_from(&mut self, place: u64, piece: &mut [u8]) -> io::Result<usize>
        ensures count { ReadsAtMost result piece.new }
    {
        if self.at_hand(place).is_empty() {
            if piece.len() >= PIECE {
                self.file.seek(SeekFrom::Start(place))?;
                return read_file(&mut self.file, piece);
            }
            self.move_window(place)?;
        }
        let bytes = self.at_hand(place);
        let count = bytes.len().min(piece.len());
        piece[..count].copy_from_slice(&bytes[..count]);
        Ok(count)
    }
}

impl<R: Files + AllocGlobal + Drop> StorePort<R> {
    pub fn new(rt: R, target: Target) -> Self {
        StorePort {
            rt,
            target,
            open: None,
            faults: 0,
        }
    }

    fn opened(&self) -> io::Result<OpenStore<R::File>> {
        match &self.target {
            Target::File(path) => OpenStore::new(
                self.rt.alloc(),
                fs::open(&self.rt, path.as_str())?,
            ),
            Target::Standard | Target::Nothing => Err(no_file()),
        }
    }

    fn length_open(&mut self) -> io::Result<u64>
        ensures { self.new.faults ≡ self.old.faults }
    {
        if self.open.is_none() {
            self.open = Some(self.opened()?);
        }
        match &self.open {
            Some(open) => Ok(open.length),
            None => Err(no_file()),
        }
    }

    fn read_open(&mut self, place: u64, piece: &mut [u8]) -> io::Result<usize>
        ensures count { ReadsAtMost result piece.new }
        ensures kept { self.new.faults ≡ self.old.faults }
    {
        if self.open.is_none() {
            self.open = Some(self.opened()?);
        }
        match &mut self.open {
            Some(open) => open.read_from(place, piece),
            None => Err(no_file()),
        }
    }
}

impl<R: Files + AllocGlobal + Drop> ByteStore for StorePort<R> {
    ghost bytes = { λ _. None };

    ghost faults = { λ s. min s.faults last };

    ghost faults_end = { λ s. Prim.omega arith };

    fn length(&mut self) -> Result<u64, Failed> {
        match self.length_open() {
            Ok(length) => Ok(length),
            Err(_) => {
                self.faults = self.faults.saturating_add(1);
                Err(Failed)
            }
        }
    }

    fn read_at(&mut self, place: u64, piece: &mut [u8]) -> Result<usize, Failed> {
        if piece.is_empty() {
            return Ok(0);
        }
        match self.read_open(place, piece) {
            Ok(count) => Ok(count),
            Err(_) => {
                self.faults = self.faults.saturating_add(1);
                Err(Failed)
            }
        }
    }
}
