//! Bits from a source.

ghost use Rattle.std.specs.Prelude.{◌≡◌, ◌+◌, ◌-◌, ◌%◌, ◌^◌, ◌<◌, ◌≤◌, true, [], ◌∷◌, ◌++◌, Err, length, IfOk, IsSome, is_err};
ghost use Rattle.pw_outside.specs.Ports.{CountsFault, Lowers, GoesOn};
ghost use Rattle.pw_bits.specs.Bits.{bits_of, zeros};

use crate::byte::{next_byte, zeros_in_front};
use pw_outside::{ByteSource, Failed};
use std::marker::Model;

/// Why bits are not returned.
#[derive(Clone, Copy, Debug, PartialEq, Eq)]
pub enum BitFault {
    /// Fewer bits are left than are asked for.
    End,
    /// The source failed.
    Failed,
}

/// What reading zeros met.
#[derive(Clone, Copy, Debug, PartialEq, Eq)]
pub enum ZeroRun {
    /// This many zeros, and the 1 after them.
    One(u32),
    /// This many zeros, and then the end of the bits.
    End(u32),
    /// More zeros than were allowed.
    Many,
}

/// Reads bits from a source, the most significant of a byte first. It keeps the bits of the current byte that it
/// hasn't returned yet, fewer than 8.
#[derive(Drop)]
pub struct BitReader {
    low: u8,
    count: u8,
}

impl Model for BitReader {
    ghost use Rattle.std.specs.Prelude.{◌<◌, ◌^◌, List, Bool};
    ghost use Rattle.pw_bits.specs.Bits.{bits_of};

    ghost Value = { List Bool };

    ghost view = { λ r. bits_of r.count r.low };

    ghost invariant = { λ r. (r.count < 8) × (r.low < 2 ^ r.count) };
}

impl BitReader {
    ghost use Rattle.pw_bits.specs.Reading.{unread, Takes, TakesZeros, TakesRest, is_failed};

    /// A reader that keeps nothing.
    pub fn new() -> Self
        ensures { result ≡ [] }
    {
        BitReader { low: 0, count: 0 }
    }

    /// The next bit.
    pub fn bit<S: ByteSource>(&mut self, source: &mut S) -> Result<bool, BitFault>
        ensures bit { IfOk result (λ b. Takes self.old (S.left source.old) self.new (S.left source.new) (b ∷ [])) }
        ensures end { result ≡ Err BitFault.End → IsSome (S.left source.old) → unread self.old (S.left source.old) ≡ [] }
        ensures told { IsSome (S.left source.old) → IsSome (S.left source.new) }
        ensures most { Lowers (S.most source.old) (S.most source.new) 0 }
        ensures becomes { GoesOn S.becomes source.old source.new }
        ensures cause { CountsFault (S.faults source.old) (S.faults source.new) (is_failed result) }
    {
        match self.bits(source, 1) {
            Ok(value) => Ok(value == 1),
            Err(fault) => Err(fault),
        }
    }

    /// The next `n` bits as a number, the most significant first. `n` is at most 32. `End` where fewer are left,
    /// `Failed` where the source failed.
    pub fn bits<S: ByteSource>(&mut self, source: &mut S, n: u8) -> Result<u32, BitFault>
        requires { n ≤ 32 }
        ensures fits { IfOk result (λ value. value < 2 ^ n) }
        ensures bits { IfOk result (λ value. Takes self.old (S.left source.old) self.new (S.left source.new) (bits_of n value)) }
        ensures end { result ≡ Err BitFault.End → IsSome (S.left source.old) → length (unread self.old (S.left source.old)) < n }
        ensures told { IsSome (S.left source.old) → IsSome (S.left source.new) }
        ensures most { Lowers (S.most source.old) (S.most source.new) 0 }
        ensures becomes { GoesOn S.becomes source.old source.new }
        ensures cause { CountsFault (S.faults source.old) (S.faults source.new) (is_failed result) }
    {
        let mut all = u64::from(self.low);
        let mut count = self.count;
        while count < n {
            match next_byte(source) {
                Ok(Some(byte)) => {
                    all = (all << 8) + u64::from(byte);
                    count += 8;
                }
                Ok(None) => return Err(BitFault::End),
                Err(_) => return Err(BitFault::Failed),
            }
        }
        let kept = count - n;
        self.low = (all % (1 << kept)) as u8;
        self.count = kept;
        Ok((all >> kept) as u32)
    }

    /// Takes zeros and the 1 after them, but at most `most + 1` zeros.
    pub fn zeros<S: ByteSource>(&mut self, source: &mut S, most: u32) -> Result<ZeroRun, Failed>
        ensures run { TakesZeros result most self.old (S.left source.old) self.new (S.left source.new) }
        ensures told { IsSome (S.left source.old) → IsSome (S.left source.new) }
        ensures most { Lowers (S.most source.old) (S.most source.new) 0 }
        ensures becomes { GoesOn S.becomes source.old source.new }
        ensures cause { CountsFault (S.faults source.old) (S.faults source.new) (is_err result) }
    {
        let mut low = self.low;
        let mut count = self.count;
        let mut run = 0;
        loop {
            let front = zeros_in_front(low, count);
            if u32::from(front) > most - run {
                self.low = low;
                self.count = count - (most - run) as u8 - 1;
                return Ok(ZeroRun::Many);
            }
            run += u32::from(front);
            if front < count {
                count -= front + 1;
                self.low = low % (1 << count);
                self.count = count;
                return Ok(ZeroRun::One(run));
            }
            match next_byte(source) {
                Ok(Some(byte)) => {
                    low = byte;
                    count = 8;
                }
                Ok(None) => {
                    self.low = 0;
                    self.count = 0;
                    return Ok(ZeroRun::End(run));
                }
                Err(fault) => return Err(fault),
            }
        }
    }

    /// Takes bits up to the end or to the first 1, and returns whether all were zeros. The source has a visible
    /// bound on its bytes.
    pub fn rest_is_zero<S: ByteSource>(&mut self, source: &mut S) -> Result<bool, Failed>
        requires { IsSome (S.most source.old) }
        ensures rest { TakesRest result self.old (S.left source.old) self.new (S.left source.new) }
        ensures told { IsSome (S.left source.old) → IsSome (S.left source.new) }
        ensures most { Lowers (S.most source.old) (S.most source.new) 0 }
        ensures becomes { GoesOn S.becomes source.old source.new }
        ensures cause { CountsFault (S.faults source.old) (S.faults source.new) (is_err result) }
    {
        let mut low = self.low;
        let mut count = self.count;
        loop {
            let front = zeros_in_front(low, count);
            if front < count {
                count = count - front - 1;
                self.low = low % (1 << count);
                self.count = count;
                return Ok(false);
            }
            match next_byte(source) {
                Ok(Some(byte)) => {
                    low = byte;
                    count = 8;
                }
                Ok(None) => {
                    self.low = 0;
                    self.count = 0;
                    return Ok(true);
                }
                Err(fault) => return Err(fault),
            }
        }
    }
}
