//! A real sink.

ghost use Rattle.std.specs.Prelude.{◌≡◌, None, min, IfOk, length, ◌≤◌, ◌<◌};
ghost use Rattle.std.proofs.Common.{arith};
ghost use Rattle.pw_outside.specs.Ports.{last};

use crate::files::{PIECE, Target, is_interrupted, is_named, keeps_bytes, no_file, unfit};
use pw_outside::{ByteSink, Failed};
use std::fs::{OpenFile, OpenOptions};
use std::io::{self, BufWriter, Write};
use std::rt::Files;

#[derive(Drop)]
enum OpenOutput<R: Files + Drop> {
    File(BufWriter<R::File>),
    Standard,
}

/// A sink over a file or standard output. It counts its faults, and its contents are opaque. Its file is created,
/// or truncated, at the first write or flush, unless it is the same file as another one of the run: that is a
/// fault, and the file is left as it was.
#[derive(Drop)]
pub struct OutputPort<R: Files + Print + AllocGlobal + Drop> {
    rt: R,
    target: Target,
    others: Vec<String>,
    open: Option<OpenOutput<R>>,
    taken: u64,
    settled: u64,
    faults: u64,
}

impl<R: Files + Print + AllocGlobal + Drop> OutputPort<R> {
    /// `others` are the names of the run's other files.
    pub fn new(rt: R, target: Target, others: Vec<String>) -> Self {
        OutputPort {
            rt,
            target,
            others,
            open: None,
            taken: 0,
            settled: 0,
            faults: 0,
        }
    }

    /// Opens the file with this name for writing, truncated, and created if it is absent.
    fn emptied(&self, path: &str) -> io::Result<R::File> {
        let mut how = OpenOptions::new();
        how.write(true);
        how.create(true);
        let file = how.open(&self.rt, path)?;
        let metadata = file.metadata()?;
        for other in &self.others {
            if is_named(&self.rt, other.as_str(), &metadata) {
                return Err(unfit());
            }
        }
        if metadata.is_file() {
            file.set_len(0)?;
        }
        Ok(file)
    }

    fn opened(&self) -> io::Result<OpenOutput<R>> {
        match &self.target {
            Target::File(path) => {
                let file = self.emptied(path.as_str())?;
                Ok(OpenOutput::File(BufWriter::with_capacity(self.rt.alloc(), PIECE, file)?))
            }
            Target::Standard => Ok(OpenOutput::Standard),
            Target::Nothing => Err(no_file()),
        }
    }

    /// A write of a nonempty piece that takes no byte is an error.
    fn write_once(&mut self, piece: &[u8]) -> io::Result<usize>
        ensures count { IfOk result (λ n. (n ≤ length piece.now) × (0 < length piece.now → 0 < n)) }
        ensures kept { (self.new.taken ≡ self.old.taken) × (self.new.settled ≡ self.old.settled)
            × (self.new.faults ≡ self.old.faults) }
    {
        if self.open.is_none() {
            self.open = Some(self.opened()?);
        }
        let count = match &mut self.open {
            Some(OpenOutput::File(file)) => file.write(piece)?,
            Some(OpenOutput::Standard) => io::writer(&self.rt).write(piece)?,
            None => return Err(no_file()),
        };
        if count == 0 && !piece.is_empty() {
            return Err(io::Error::from(io::ErrorKind::WriteZero));
        }
        Ok(count)
    }

    /// Writes, and retries after an interrupt.
    fn write_open(&mut self, piece: &[u8]) -> io::Result<usize>
        ensures count { IfOk result (λ n. (n ≤ length piece.now) × (0 < length piece.now → 0 < n)) }
        ensures kept { (self.new.taken ≡ self.old.taken) × (self.new.settled ≡ self.old.settled)
            × (self.new.faults ≡ self.old.faults) }
    {
        for _ in 0..u64::MAX {
            match self.write_once(piece) {
                Err(error) if is_interrupted(&error) => {}
                answer => return answer,
            }
        }
        Err(io::Error::from(io::ErrorKind::Interrupted))
    }

    fn flush_once(&mut self) -> io::Result<()>
        ensures { (self.new.taken ≡ self.old.taken) × (self.new.settled ≡ self.old.settled)
            × (self.new.faults ≡ self.old.faults) }
    {
        if self.open.is_none() {
            self.open = Some(self.opened()?);
        }
        match &mut self.open {
            Some(OpenOutput::File(file)) => file.flush(),
            Some(OpenOutput::Standard) => io::writer(&self.rt).flush(),
            None => Err(no_file()),
        }
    }

    /// Flushes, and retries after an interrupt.
    fn flush_open(&mut self) -> io::Result<()>
        ensures { (self.new.taken ≡ self.old.taken) × (self.new.settled ≡ self.old.settled)
            × (self.new.faults ≡ self.old.faults) }
    {
        for _ in 0..u64::MAX {
            match self.flush_once() {
                Err(error) if is_interrupted(&error) => {}
                answer => return answer,
            }
        }
        Err(io::Error::from(io::ErrorKind::Interrupted))
    }
}

impl<R: Files + Print + AllocGlobal + Drop> ByteSink for OutputPort<R> {
    ghost held = { λ _. None };

    ghost taken = { λ s. min s.taken last };

    ghost settled = { λ s. min s.settled (min s.taken last) };

    ghost faults = { λ s. min s.faults last };

    ghost counts = { λ s. (Prim.omega arith, Prim.omega arith) };

    ghost faults_end = { λ s. Prim.omega arith };

    fn write(&mut self, piece: &[u8]) -> Result<usize, Failed> {
        match self.write_open(piece) {
            Ok(count) => {
                self.taken = self.taken.saturating_add(count as u64);
                Ok(count)
            }
            Err(_) => {
                self.faults = self.faults.saturating_add(1);
                Err(Failed)
            }
        }
    }

    fn flush(&mut self) -> Result<(), Failed> {
        match self.flush_open() {
            Ok(()) => {
                self.settled = self.taken;
                Ok(())
            }
            Err(_) => {
                self.faults = self.faults.saturating_add(1);
                Err(Failed)
            }
        }
    }
}
