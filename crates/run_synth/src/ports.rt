//! The ports of the parts of a run.

use crate::memory::Memory;
use pic_synth::SyntheticSource;
use pw_outside::{ByteSink, ByteSource, CountSink, Failed};

/// A source of the bytes of synthetic pictures, or of bytes in memory. It never fails.
#[derive(Drop)]
pub enum Input {
    /// Synthetic pictures.
    Synthetic(SyntheticSource),
    /// Bytes that were written.
    Held(Memory),
}

/// A sink that stores what it takes, or only counts it.
#[derive(Drop)]
pub enum Output {
    /// Stores the bytes.
    Held(Memory),
    /// Counts the bytes.
    Counted(CountSink),
}

impl ByteSource for Input {
    ghost use Rattle.std.specs.Prelude.{◌≡◌, is_err};
    ghost use Rattle.std.specs.Io.{ReadsAtMost};
    ghost use Rattle.std.specs.Io.KnownBytes.{ReadConsumes};
    ghost use Rattle.std.proofs.Common.{arith};
    ghost use Rattle.pw_outside.specs.Ports.{last, count_of, Lowers, GoesOn, CountsFault};
    ghost use Rattle.run_synth.specs.inner.Ports.{left_in, most_in, most_bound};

    ghost left = { left_in };

    ghost most = { most_in };

    ghost faults = { λ _. 0 };

    ghost becomes = { λ _ _. Unit {0} };

    ghost becomes_same = { λ _. tt };

    ghost bound = { most_bound };

    ghost faults_end = { λ _. Prim.omega arith };

    fn read(&mut self, piece: &mut [u8]) -> Result<usize, Failed>
        ensures count { ReadsAtMost result piece.new }
        ensures bytes { ReadConsumes (left_in self.old) (left_in self.new) result piece.new }
        ensures most { Lowers (most_in self.old) (most_in self.new) (count_of result) }
        ensures becomes { GoesOn (λ _ _. Unit {0}) self.old self.new }
        ensures cause { CountsFault 0 0 (is_err result) }
    {
        match self {
            Input::Synthetic(pictures) => pictures.read(piece),
            Input::Held(memory) => memory.read(piece),
        }
    }
}

impl ByteSink for Output {
    ghost use Rattle.std.specs.Prelude.{◌≡◌, ◌≤◌, ◌<◌, is_err, IfOk, OnOk, length};
    ghost use Rattle.std.specs.Io.KnownBytes.{WriteAppends, Keeps};
    ghost use Rattle.pw_outside.specs.Ports.{last, count_of, taken_more, CountsFault};
    ghost use Rattle.run_synth.specs.inner.Ports.{held_in, taken_in, faults_in, counts_hold, faults_last};

    ghost held = { held_in };

    ghost taken = { taken_in };

    ghost settled = { taken_in };

    ghost faults = { faults_in };

    ghost counts = { counts_hold };

    ghost faults_end = { faults_last };

    fn write(&mut self, piece: &[u8]) -> Result<usize, Failed>
        ensures count { IfOk result (λ n. (n ≤ length piece.now) × (0 < length piece.now → 0 < n)) }
        ensures bytes { WriteAppends (held_in self.old) (held_in self.new) result piece.now }
        ensures taken { taken_in self.new ≡ taken_more (taken_in self.old) (count_of result) }
        ensures settled { taken_in self.old ≤ taken_in self.new }
        ensures cause { CountsFault (faults_in self.old) (faults_in self.new) (is_err result) }
    {
        match self {
            Output::Held(memory) => memory.write(piece),
            Output::Counted(count) => count.write(piece),
        }
    }

    fn flush(&mut self) -> Result<(), Failed>
        ensures bytes { Keeps (held_in self.old) (held_in self.new) }
        ensures taken { taken_in self.new ≡ taken_in self.old }
        ensures settled { taken_in self.old ≤ taken_in self.new }
        ensures all_settled { OnOk result (taken_in self.new ≡ taken_in self.new) }
        ensures cause { CountsFault (faults_in self.old) (faults_in self.new) (is_err result) }
    {
        match self {
            Output::Held(memory) => memory.flush(),
            Output::Counted(count) => count.flush(),
        }
    }
}

impl Output {
    ghost use Rattle.std.specs.Prelude.{◌≡◌, IfSome};
    ghost use Rattle.run_synth.specs.inner.Ports.{held_in};

    /// The stored bytes; none if it only counts.
    pub fn bytes(&self) -> &[u8]
        ensures { IfSome (held_in self.now) (λ bytes. result.now ≡ bytes) }
    {
        match self {
            Output::Held(memory) => memory.bytes(),
            Output::Counted(_) => &[],
        }
    }
}
