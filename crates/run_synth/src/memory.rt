//! Bytes in memory, written and then read.

ghost use Rattle.std.specs.Prelude.{◌≤◌, length};

use pw_outside::{ByteSink, ByteSource, ByteStore, Failed};
use std::alloc::Global;

/// Bytes in memory. They are written, and then read from the start or at any offset.
///
/// A write fails only if memory for the piece runs out. Reading never fails.
#[derive(Drop)]
pub struct Memory {
    bytes: Vec<u8>,
    at: usize,
    faults: u64,
    ghost within: { at ≤ length bytes.items },
}

impl Memory {
    ghost use Rattle.std.specs.Prelude.{◌≡◌, []};

    /// No bytes.
    pub fn new(alloc: Global) -> Memory
        ensures bytes { result.bytes.items ≡ [] }
        ensures front { result.at ≡ 0 }
        ensures faults { result.faults ≡ 0 }
    {
        Memory {
            bytes: Vec::new(alloc),
            at: 0,
            faults: 0,
        }
    }

    /// The same bytes, read from the start.
    pub fn rewound(self) -> Memory
        ensures bytes { result.bytes.items ≡ self.bytes.items }
        ensures front { result.at ≡ 0 }
    {
        Memory {
            bytes: self.bytes,
            at: 0,
            faults: self.faults,
        }
    }

    /// All bytes.
    pub fn bytes(&self) -> &[u8]
        ensures { result.now ≡ self.now.bytes.items }
    {
        &self.bytes
    }
}

impl ByteSink for Memory {
    ghost use Rattle.std.specs.Prelude.{◌≡◌, ◌≤◌, ◌<◌, min, Some, is_err, IfOk, OnOk, length};
    ghost use Rattle.std.specs.Io.KnownBytes.{WriteAppends, Keeps};
    ghost use Rattle.std.proofs.Common.{arith};
    ghost use Rattle.pw_outside.specs.Ports.{last, count_of, taken_more, CountsFault};

    ghost held = { λ m. Some m.bytes.items };

    ghost taken = { λ m. min (length m.bytes.items) last };

    ghost settled = { λ m. min (length m.bytes.items) last };

    ghost faults = { λ m. min m.faults last };

    ghost counts = { λ m. (Prim.omega arith, Prim.omega arith) };

    ghost faults_end = { λ m. Prim.omega arith };

    fn write(&mut self, piece: &[u8]) -> Result<usize, Failed>
        ensures count { IfOk result (λ n. (n ≤ length piece.now) × (0 < length piece.now → 0 < n)) }
        ensures bytes { WriteAppends (Some self.old.bytes.items) (Some self.new.bytes.items) result piece.now }
        ensures taken { min (length self.new.bytes.items) last ≡ taken_more (min (length self.old.bytes.items) last)
            (count_of result) }
        ensures settled { min (length self.old.bytes.items) last ≤ min (length self.new.bytes.items) last }
        ensures cause { CountsFault (min self.old.faults last) (min self.new.faults last) (is_err result) }
    {
        match self.bytes.extend_from_slice(piece) {
            Ok(()) => Ok(piece.len()),
            Err(_) => {
                self.faults = self.faults.saturating_add(1);
                Err(Failed)
            }
        }
    }

    fn flush(&mut self) -> Result<(), Failed>
        ensures bytes { Keeps (Some self.old.bytes.items) (Some self.new.bytes.items) }
        ensures taken { min (length self.new.bytes.items) last ≡ min (length self.old.bytes.items) last }
        ensures settled { min (length self.old.bytes.items) last ≤ min (length self.new.bytes.items) last }
        ensures all_settled { OnOk result
            (min (length self.new.bytes.items) last ≡ min (length self.new.bytes.items) last) }
        ensures cause { CountsFault (min self.old.faults last) (min self.new.faults last) (is_err result) }
    {
        Ok(())
    }
}

impl ByteSource for Memory {
    ghost use Rattle.std.specs.Prelude.{◌≡◌, ◌≤◌, Some, is_err, length, drop};
    ghost use Rattle.std.specs.Io.{ReadsAtMost};
    ghost use Rattle.std.specs.Io.KnownBytes.{ReadConsumes};
    ghost use Rattle.std.proofs.Common.{le_refl, arith};
    ghost use Rattle.pw_outside.specs.Ports.{last, count_of, Lowers, GoesOn, CountsFault};

    ghost left = { λ m. Some (drop m.at m.bytes.items) };

    ghost most = { λ m. Some (length (drop m.at m.bytes.items)) };

    ghost faults = { λ _. 0 };

    ghost becomes = { λ _ _. Unit {0} };

    ghost becomes_same = { λ _. tt };

    ghost bound = { λ m. le_refl (length (drop m.at m.bytes.items)) };

    ghost faults_end = { λ _. Prim.omega arith };

    fn read(&mut self, piece: &mut [u8]) -> Result<usize, Failed>
        ensures count { ReadsAtMost result piece.new }
        ensures bytes { ReadConsumes (Some (drop self.old.at self.old.bytes.items))
            (Some (drop self.new.at self.new.bytes.items)) result piece.new }
        ensures most { Lowers (Some (length (drop self.old.at self.old.bytes.items)))
            (Some (length (drop self.new.at self.new.bytes.items))) (count_of result) }
        ensures becomes { GoesOn (λ _ _. Unit {0}) self.old self.new }
        ensures cause { CountsFault 0 0 (is_err result) }
    {
        let count = piece.len().min(self.bytes.len() - self.at);
        piece[..count].copy_from_slice(&self.bytes[self.at..self.at + count]);
        self.at += count;
        Ok(count)
    }
}

impl ByteStore for Memory {
    ghost use Rattle.std.specs.Prelude.{◌≡◌, ◌≤◌, Some, is_err, IfOk, length};
    ghost use Rattle.std.specs.Io.{ReadsAtMost};
    ghost use Rattle.std.proofs.Common.{arith};
    ghost use Rattle.pw_outside.specs.Ports.{CountsFault, IsLength, GivesAt, last};

    ghost bytes = { λ m. Some m.bytes.items };

    ghost faults = { λ _. 0 };

    ghost faults_end = { λ _. Prim.omega arith };

    fn length(&mut self) -> Result<u64, Failed>
        ensures value { IfOk result (λ n. IsLength (Some self.old.bytes.items) n) }
        ensures bytes { Some self.new.bytes.items ≡ Some self.old.bytes.items }
        ensures cause { CountsFault 0 0 (is_err result) }
    {
        Ok(self.bytes.len() as u64)
    }

    fn read_at(&mut self, place: u64, piece: &mut [u8]) -> Result<usize, Failed>
        ensures count { ReadsAtMost result piece.new }
        ensures value { IfOk result (λ n. GivesAt (Some self.old.bytes.items) place piece.new n) }
        ensures bytes { Some self.new.bytes.items ≡ Some self.old.bytes.items }
        ensures cause { CountsFault 0 0 (is_err result) }
    {
        let len = self.bytes.len() as u64;
        if place >= len {
            return Ok(0);
        }
        let at = place as usize;
        let count = piece.len().min(self.bytes.len() - at);
        piece[..count].copy_from_slice(&self.bytes[at..at + count]);
        Ok(count)
    }
}
