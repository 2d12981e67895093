//! A sink that counts bytes and keeps none.

ghost use Rattle.std.specs.Prelude.{◌≡◌, ◌≤◌, ◌<◌, Ok, length, min, IfOk, OnOk, is_err, None, Option};
ghost use Rattle.std.specs.Io.KnownBytes.{WriteAppends, Keeps};
ghost use Rattle.pw_outside.specs.Ports.{last, count_of, taken_more, CountsFault};

use crate::ports::{ByteSink, Failed};
use std::marker::Model;

/// A sink that counts the bytes that it took and keeps none of them; its contents are opaque to contracts. The
/// count stays at 2^64 − 1 once it is reached. It takes every piece whole, and never fails.
#[derive(Debug, Drop)]
pub struct CountSink {
    taken: u64,
}

impl Model for CountSink {
    ghost use Rattle.std.specs.Prelude.{ℕ};

    ghost Value = { ℕ };

    ghost view = { λ s. s.taken };
}

impl CountSink {
    /// A sink that has taken nothing.
    pub fn new() -> CountSink
        ensures { result ≡ 0 }
    {
        CountSink { taken: 0 }
    }

    /// The number of bytes taken.
    pub fn taken(&self) -> u64
        ensures { result ≡ self.now }
    {
        self.taken
    }
}

impl ByteSink for CountSink {
    ghost use Rattle.std.specs.Prelude.{◌≡◌, ◌≤◌, Ok, None, min, length, IfOk, OnOk, is_err};
    ghost use Rattle.std.proofs.Common.{arith};
    ghost use Rattle.pw_outside.specs.Ports.{last, taken_more, count_of};

    ghost held = { λ _. None };

    ghost taken = { λ n. min n last };

    ghost settled = { λ n. min n last };

    ghost faults = { λ _. 0 };

    ghost counts = { λ n. (Prim.omega arith, Prim.omega arith) };

    ghost faults_end = { λ _. Prim.omega arith };

    fn write(&mut self, piece: &[u8]) -> Result<usize, Failed>
        ensures count { IfOk result (λ n. (n ≤ length piece.now) × (0 < length piece.now → 0 < n)) }
        ensures bytes { WriteAppends None None result piece.now }
        ensures taken { min self.new last ≡ taken_more (min self.old last) (count_of result) }
        ensures settled { min self.old last ≤ min self.new last }
        ensures cause { CountsFault 0 0 (is_err result) }
        // Every piece is taken whole.
        ensures whole { result ≡ Ok (length piece.now) }
        ensures after { self.new ≡ taken_more self.old (length piece.now) }
    {
        self.taken = self.taken.saturating_add(piece.len() as u64);
        Ok(piece.len())
    }

    fn flush(&mut self) -> Result<(), Failed>
        ensures bytes { Keeps None None }
        ensures taken { min self.new last ≡ min self.old last }
        ensures settled { min self.old last ≤ min self.new last }
        ensures all_settled { OnOk result (min self.new last ≡ min self.new last) }
        ensures cause { CountsFault 0 0 (is_err result) }
        ensures succeeds { result ≡ Ok tt }
        ensures after { self.new ≡ self.old }
    {
        Ok(())
    }
}
