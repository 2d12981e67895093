//! The bytes of synthetic pictures.

ghost use Rattle.std.specs.Prelude.{◌≡◌, ◌<◌, ◌^◌, if◌then◌else◌};
ghost use Rattle.pic_synth.specs.Pictures.{next_state, noise_of};
ghost use Rattle.pic_synth.specs.Numbered.{byte_of};

use crate::synthetic::Synthetic;
use pw_outside::{ByteSource, Failed};
use std::marker::Model;

/// The state after one step.
fn next_state(state: u32) -> u32
    ensures { result ≡ next_state state }
{
    ((u64::from(state) * 1_664_525 + 1_013_904_223) % (1 << 32)) as u32
}

/// The state after a byte: only the low byte of a sample takes a step.
fn stepped(low: bool, state: u32) -> u32
    ensures { result ≡ (if low then next_state state else state) }
{
    if low { next_state(state) } else { state }
}

/// The noise from a state.
fn noise_of(state: u32) -> u16
    ensures value { result ≡ noise_of state }
    ensures small { result < 8 }
{
    (state >> 29) as u16
}

/// The low or the high byte of a sample.
fn byte_of(low: bool, sample: u16) -> u8
    requires { sample < 2 ^ 10 }
    ensures { result ≡ byte_of low sample }
{
    if low {
        (sample % 256) as u8
    } else {
        (sample / 256) as u8
    }
}

/// A source of the bytes of synthetic pictures, as raw planes: for each frame the planes Y, Cb and Cr, with
/// two-byte little-endian samples. It generates each byte on demand, never fails, and stores no picture.
#[derive(Drop)]
pub struct SyntheticSource {
    synthetic: Synthetic,
    place: u64,
    state: u32,
}

impl Model for SyntheticSource {
    ghost use Rattle.std.specs.Prelude.{◌≡◌, ◌≤◌, ◌+◌, ◌*◌, ◌/◌, ℕ, List, drop};
    ghost use Rattle.pic_synth.specs.Pictures.{IsSynthetic, state_after};
    ghost use Rattle.pic_synth.specs.Numbered.{sample_count, synthetic_bytes};

    ghost Value = { List ℕ };

    ghost view = { λ s. drop s.place (synthetic_bytes s.synthetic) };

    ghost invariant = { λ s. IsSynthetic s.synthetic × (s.place ≤ 2 * sample_count s.synthetic) × (s.state ≡ state_after s.synthetic.seed ((s.place + 1) / 2)) };
}

impl SyntheticSource {
    ghost use Rattle.std.specs.Prelude.{◌≡◌, [], ◌∷◌, IfSome, IfNone};
    ghost use Rattle.pic_synth.specs.Pictures.{IsSynthetic};
    ghost use Rattle.pic_synth.specs.Numbered.{synthetic_bytes};

    /// A source at the first byte.
    pub fn new(synthetic: Synthetic) -> SyntheticSource
        requires { IsSynthetic synthetic }
        ensures { result ≡ synthetic_bytes synthetic }
    {
        SyntheticSource {
            synthetic,
            place: 0,
            state: synthetic.seed,
        }
    }

    /// The next byte; `None` after the last.
    fn next_byte(&mut self) -> Option<u8>
        ensures byte { IfSome result (λ b. self.old ≡ b ∷ self.new) }
        ensures end { IfNone result ((self.old ≡ []) × (self.new ≡ [])) }
    {
        let number = self.place / 2;
        if number >= self.synthetic.samples() {
            return None;
        }
        let low = self.place % 2 == 0;
        self.state = stepped(low, self.state);
        let sample = self.synthetic.level(number) + noise_of(self.state);
        self.place += 1;
        Some(byte_of(low, sample))
    }
}

impl ByteSource for SyntheticSource {
    ghost use Rattle.std.specs.Prelude.{◌≡◌, ◌≤◌, Some, is_err, length};
    ghost use Rattle.std.specs.Io.{ReadsAtMost};
    ghost use Rattle.std.specs.Io.KnownBytes.{ReadConsumes};
    ghost use Rattle.std.proofs.Common.{le_refl, arith};
    ghost use Rattle.pw_outside.specs.Ports.{last, count_of, Lowers, GoesOn, CountsFault};

    ghost left = { λ s. Some s };

    ghost most = { λ s. Some (length s) };

    ghost faults = { λ _. 0 };

    ghost becomes = { λ _ _. Unit {0} };

    ghost becomes_same = { λ _. tt };

    ghost bound = { λ s. le_refl (length s) };

    ghost faults_end = { λ _. Prim.omega arith };

    fn read(&mut self, piece: &mut [u8]) -> Result<usize, Failed>
        ensures count { ReadsAtMost result piece.new }
        ensures bytes { ReadConsumes (Some self.old) (Some self.new) result piece.new }
        ensures most { Lowers (Some (length self.old)) (Some (length self.new)) (count_of result) }
        ensures cause { CountsFault 0 0 (is_err result) }
        ensures becomes { GoesOn (λ _ _. Unit {0}) self.old self.new }
    {
        let mut count = 0;
        while count < piece.len() {
            match self.next_byte() {
                Some(byte) => piece[count] = byte,
                None => return Ok(count),
            }
            count += 1;
        }
        Ok(count)
    }
}
