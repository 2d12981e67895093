//! The next bytes, and big-endian numbers in them.

ghost use Rattle.std.specs.Prelude.{◌≡◌, ◌+◌, ◌<◌, ◌≤◌, ◌^◌, length, false};
ghost use Rattle.pw_outside.specs.Ports.{CountsFault, Lowers, GoesOn};
ghost use Rattle.pw_outside.specs.Reading.{Gives};
ghost use Rattle.pr_head.specs.Bytes.{number16, number32};
ghost use Rattle.pr_head.specs.Faults.{told_fault, is_failed, is_out_of_memory};
ghost use Rattle.pr_head.specs.inner.Steps.{piece_at, passed};

use crate::fault::{FrameFault, FrameKind, bad};
use pw_outside::{ByteSource, fill};

/// Fills the piece with the next bytes. If fewer are left, the fault is `kind` at `at`.
#[tactic(auto, using(crate::proofs::Bounds::lowers_some))]
pub(crate) fn whole<S: ByteSource>(
    source: &mut S,
    place: &mut u64,
    piece: &mut [u8],
    kind: FrameKind,
    at: u64,
) -> Result<(), FrameFault>
    requires { place.old + length piece.old < 2 ^ 64 }
    ensures bytes { Gives told_fault (λ _. piece.new) (S.left source.old) (S.left source.new) place.old place.new result (piece_at kind at (length piece.old)) }
    ensures place { place.new ≤ place.old + length piece.old }
    ensures most { Lowers (S.most source.old) (S.most source.new) 0 }
    ensures becomes { GoesOn S.becomes source.old source.new }
    ensures cause { CountsFault (S.faults source.old) (S.faults source.new) (is_failed result) }
    ensures memory { is_out_of_memory result ≡ false }
{
    let count = fill(source, piece)?;
    if count < piece.len() {
        return Err(bad(kind, at));
    }
    *place += count as u64;
    Ok(())
}

/// Skips some of the next bytes, at most 64.
#[tactic(auto, unfolding(crate::specs::inner::Steps::passed))]
fn pass_some<S: ByteSource>(
    source: &mut S,
    place: &mut u64,
    count: usize,
    kind: FrameKind,
    at: u64,
) -> Result<(), FrameFault>
    requires few { count ≤ 64 }
    requires room { place.old + count < 2 ^ 64 }
    ensures bytes { Gives told_fault (λ x. x) (S.left source.old) (S.left source.new) place.old place.new result (passed kind at count) }
    ensures place { place.new ≤ place.old + count }
    ensures most { Lowers (S.most source.old) (S.most source.new) 0 }
    ensures becomes { GoesOn S.becomes source.old source.new }
    ensures cause { CountsFault (S.faults source.old) (S.faults source.new) (is_failed result) }
    ensures memory { is_out_of_memory result ≡ false }
{
    let mut piece = [0u8; 64];
    whole(source, place, &mut piece[..count], kind, at)
}

/// Skips the next bytes.
#[tactic(auto, using(crate::proofs::Bounds::lowers_then, crate::proofs::Bounds::lowers_same))]
pub(crate) fn pass<S: ByteSource>(
    source: &mut S,
    place: &mut u64,
    count: u16,
    kind: FrameKind,
    at: u64,
) -> Result<(), FrameFault>
    requires { place.old + count < 2 ^ 64 }
    ensures bytes { Gives told_fault (λ x. x) (S.left source.old) (S.left source.new) place.old place.new result (passed kind at count) }
    ensures place { place.new ≤ place.old + count }
    ensures most { Lowers (S.most source.old) (S.most source.new) 0 }
    ensures becomes { GoesOn S.becomes source.old source.new }
    ensures cause { CountsFault (S.faults source.old) (S.faults source.new) (is_failed result) }
    ensures memory { is_out_of_memory result ≡ false }
{
    let mut left = usize::from(count);
    while 0 < left {
        let part = left.min(64);
        pass_some(source, place, part, kind, at)?;
        left -= part;
    }
    Ok(())
}

/// The number of two bytes.
pub(crate) fn u16_at(bytes: &[u8], at: usize) -> u16
    requires { at + 2 ≤ length bytes.now }
    ensures { result ≡ number16 bytes.now at }
{
    u16::from_be_bytes([bytes[at], bytes[at + 1]])
}

/// The number of four bytes.
pub(crate) fn u32_at(bytes: &[u8], at: usize) -> u32
    requires { at + 4 ≤ length bytes.now }
    ensures { result ≡ number32 bytes.now at }
{
    u32::from_be_bytes([bytes[at], bytes[at + 1], bytes[at + 2], bytes[at + 3]])
}
