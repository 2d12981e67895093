//! Bits to a sink.

ghost use Rattle.std.specs.Prelude.{◌≡◌, ◌^◌, ◌<◌, ◌≤◌, [], false, length, OnOk, OnErr, is_err};
ghost use Rattle.pw_outside.specs.Ports.{CountsFault};
ghost use Rattle.pw_bits.specs.Bits.{bits_of, padding};
ghost use Rattle.pw_bits.specs.Writing.{written, Writes, Begins};

use pw_outside::{ByteSink, Failed, put};
use std::marker::Model;

/// Writes bits to a sink, and keeps those that don't fill a byte yet, fewer than 8. After a failed call the writer
/// is spoiled and writes no more.
#[derive(Drop)]
pub struct BitWriter {
    low: u8,
    count: u8,
    spoiled: bool,
}

impl Model for BitWriter {
    ghost use Rattle.std.specs.Prelude.{◌<◌, ◌^◌};
    ghost use Rattle.pw_bits.specs.Bits.{bits_of};
    ghost use Rattle.pw_bits.specs.Writing.{Writer};

    ghost Value = { Writer };

    ghost view = { λ w. record { pending = bits_of w.count w.low; spoiled = w.spoiled } };

    ghost invariant = { λ w. (w.count < 8) × (w.low < 2 ^ w.count) };
}

impl BitWriter {
    /// A writer with nothing pending.
    pub fn new() -> Self
        ensures { result ≡ record { pending = []; spoiled = false } }
    {
        BitWriter {
            low: 0,
            count: 0,
            spoiled: false,
        }
    }

    /// Whether a call has failed.
    pub fn spoiled(&self) -> bool
        ensures { result ≡ self.now.spoiled }
    {
        self.spoiled
    }

    /// The number of pending bits, below 8.
    pub fn pending(&self) -> u8
        ensures count { result ≡ length self.now.pending }
        ensures few { result < 8 }
    {
        self.count
    }

    /// Writes the `n` low bits of `value`, the most significant first. `n` is at most 32, and `value` below 2^n.
    pub fn bits<K: ByteSink>(&mut self, sink: &mut K, value: u32, n: u8) -> Result<(), Failed>
        requires usable { self.old.spoiled ≡ false }
        requires size { n ≤ 32 }
        requires fits { value < 2 ^ n }
        ensures ok { OnOk result (Writes (written (K.held sink.old) (K.taken sink.old) self.old.pending) (written (K.held sink.new) (K.taken sink.new) self.new.pending) (bits_of n value)) }
        ensures err { OnErr result (Begins (written (K.held sink.old) (K.taken sink.old) self.old.pending) (written (K.held sink.new) (K.taken sink.new) self.new.pending) (bits_of n value)) }
        ensures settled { K.settled sink.old ≤ K.settled sink.new }
        ensures spoiled { self.new.spoiled ≡ is_err result }
        ensures cause { CountsFault (K.faults sink.old) (K.faults sink.new) (is_err result) }
    {
        let all = (u64::from(self.low) << n) + u64::from(value);
        let count = self.count + n;
        let pending = count % 8;
        let bytes = ((all >> pending) as u32).to_be_bytes();
        match put(sink, &bytes[4 - usize::from(count / 8)..]) {
            Ok(()) => {
                self.low = (all % (1 << pending)) as u8;
                self.count = pending;
                Ok(())
            }
            Err(_) => {
                self.spoiled = true;
                Err(Failed)
            }
        }
    }

    /// Writes zero bits up to a whole byte; none where nothing is pending. Then nothing is pending.
    pub fn pad<K: ByteSink>(&mut self, sink: &mut K) -> Result<(), Failed>
        requires usable { self.old.spoiled ≡ false }
        ensures ok { OnOk result (Writes (written (K.held sink.old) (K.taken sink.old) self.old.pending) (written (K.held sink.new) (K.taken sink.new) self.new.pending) (padding self.old.pending)) }
        ensures none { OnOk result (self.new.pending ≡ []) }
        ensures err { OnErr result (Begins (written (K.held sink.old) (K.taken sink.old) self.old.pending) (written (K.held sink.new) (K.taken sink.new) self.new.pending) (padding self.old.pending)) }
        ensures settled { K.settled sink.old ≤ K.settled sink.new }
        ensures spoiled { self.new.spoiled ≡ is_err result }
        ensures cause { CountsFault (K.faults sink.old) (K.faults sink.new) (is_err result) }
    {
        let zeros = (8 - self.pending()) % 8;
        self.bits(sink, 0, zeros)
    }
}
