//! A writer that frames atoms.

ghost use Rattle.std.specs.Prelude.{◌≡◌, ◌≤◌, ◌<◌, ◌+◌, ◌-◌, ◌^◌, [], ◌++◌, length, IfOk, OnOk, OnErr};
ghost use Rattle.qt_atoms.specs.Written.{with_number, ended, begun_atom, IsBegun};

use pw_outside::NoMemory;
use std::alloc::Global;
use std::marker::Model;

/// The bytes of the atoms written so far.
#[derive(Drop)]
pub struct AtomWriter {
    held: Vec<u8>,
}

impl Model for AtomWriter {
    ghost use Rattle.std.specs.Prelude.{List, ℕ};

    ghost Value = { List ℕ };

    ghost view = { λ w. w.held.items };
}

impl AtomWriter {
    /// An empty writer.
    pub fn new(alloc: Global) -> AtomWriter
        ensures { result ≡ [] }
    {
        AtomWriter {
            held: Vec::new(alloc),
        }
    }

    /// The bytes written so far.
    pub fn held(&self) -> &[u8]
        ensures { result.now ≡ self.now }
    {
        &self.held
    }

    /// Appends bytes. After `NoMemory` the writer is unchanged.
    pub fn bytes(&mut self, piece: &[u8]) -> Result<(), NoMemory>
        ensures bytes { OnOk result (self.new ≡ self.old ++ piece.now) }
        ensures same { OnErr result (self.new ≡ self.old) }
    {
        match self.held.extend_from_slice(piece) {
            Ok(()) => Ok(()),
            Err(_) => Err(NoMemory),
        }
    }

    /// Begins an atom: appends four bytes for its size and its kind, and returns its offset. After `NoMemory` the
    /// writer is unchanged.
    pub fn begin(&mut self, kind: [u8; 4]) -> Result<u64, NoMemory>
        ensures place { IfOk result (λ begun. begun ≡ length self.old) }
        ensures bytes { OnOk result (self.new ≡ begun_atom self.old kind) }
        ensures same { OnErr result (self.new ≡ self.old) }
    {
        let begun = self.held.len() as u64;
        self.bytes(&[0, 0, 0, 0, kind[0], kind[1], kind[2], kind[3]])?;
        Ok(begun)
    }

    /// Ends the atom at `begun`: sets its size so that it reaches to the end of the bytes written so
    /// far.
    pub fn end(&mut self, begun: u64)
        requires begun { IsBegun self.old begun }
        requires small { length self.old - begun < 2 ^ 32 }
        ensures { self.new ≡ ended self.old begun }
    {
        let size = (self.held.len() as u64 - begun) as u32;
        put_number(&mut self.held, begun as usize, size);
    }
}

fn put_number(bytes: &mut [u8], at: usize, number: u32)
    requires { at + 4 ≤ length bytes.old }
    ensures { bytes.new ≡ with_number bytes.old at number }
{
    bytes[at..at + 4].copy_from_slice(&number.to_be_bytes());
}
