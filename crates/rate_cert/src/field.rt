//! Fields of a proof other than big-endian numbers: byte arrays and LEB128 numbers.

ghost use Rattle.std.specs.Prelude.{◌≡◌, ◌+◌, ◌*◌, ◌<◌, ◌≤◌, ◌^◌, IfOk, false};
ghost use Rattle.pw_outside.specs.Ports.{CountsFault, GoesOn};
ghost use Rattle.pw_outside.specs.Reading.{Gives, bytes_at};
ghost use Rattle.rate_table.specs.declared.fault.ProofKind.TheVariants.{ProofShort};
ghost use Rattle.rate_table.specs.Reading.{told_fault, is_failed, is_out_of_memory};
ghost use Rattle.rate_cert.specs.Numbers.{group_at, groups_at, limit, short_at};

use pw_outside::{ByteSource, fill};
use rate_table::{ProofKind, TableFault, bad, read_u8};

/// The error if the input ends within a field.
pub(crate) const SHORT: ProofKind = ProofKind::ProofShort;

/// The next `N` bytes.
pub(crate) fn bytes_of<S: ByteSource, const N: usize>(
    source: &mut S,
    place: &mut u64,
) -> Result<[u8; N], TableFault>
    requires { place.old + N < 2 ^ 64 }
    ensures bytes { Gives told_fault (λ x. x) (S.left source.old) (S.left source.new) place.old place.new result
        (bytes_at ProofShort N) }
    ensures place { place.new ≤ place.old + N }
    ensures becomes { GoesOn S.becomes source.old source.new }
    ensures cause { CountsFault (S.faults source.old) (S.faults source.new) (is_failed result) }
    ensures memory { is_out_of_memory result ≡ false }
{
    let mut piece = [0u8; N];
    let count = fill(source, &mut piece)?;
    if count < N {
        return Err(bad(ProofKind::ProofShort, *place));
    }
    *place += N as u64;
    Ok(piece)
}

/// Reads the next byte of the number at offset `first`.
#[tactic(auto, unfolding(crate::specs::Numbers::group_at))]
fn group_of<S: ByteSource>(source: &mut S, place: &mut u64, first: u64) -> Result<u8, TableFault>
    requires { place.old + 1 < 2 ^ 64 }
    ensures bytes { Gives told_fault (λ x. x) (S.left source.old) (S.left source.new) place.old place.new result
        (group_at first) }
    ensures place { place.new ≤ place.old + 1 }
    ensures becomes { GoesOn S.becomes source.old source.new }
    ensures cause { CountsFault (S.faults source.old) (S.faults source.new) (is_failed result) }
    ensures memory { is_out_of_memory result ≡ false }
{
    let mut piece = [0u8; 1];
    let count = fill(source, &mut piece)?;
    if count < 1 {
        return Err(bad(ProofKind::ProofShort, first));
    }
    *place += 1;
    Ok(piece[0])
}

/// Reads the rest of the LEB128 number at offset `first`, after its first byte: one byte and at most `more` more.
fn groups_of<S: ByteSource>(
    source: &mut S,
    place: &mut u64,
    first: u64,
    more: u8,
) -> Result<u64, TableFault>
    requires room { place.old + more + 1 < 2 ^ 64 }
    requires few { more ≤ 8 }
    ensures bytes { Gives told_fault (λ x. x) (S.left source.old) (S.left source.new) place.old place.new result
        (groups_at more first) }
    ensures small { IfOk result (λ n. n < limit more) }
    ensures place { place.new ≤ place.old + more + 1 }
    ensures becomes { GoesOn S.becomes source.old source.new }
    ensures cause { CountsFault (S.faults source.old) (S.faults source.new) (is_failed result) }
    ensures memory { is_out_of_memory result ≡ false }
{
    let byte = group_of(source, place, first)?;
    if more == 0 {
        if byte != 1 {
            return Err(bad(ProofKind::ProofShape, first));
        }
        return Ok(1);
    }
    if byte == 0 {
        return Err(bad(ProofKind::ProofShape, first));
    }
    if byte < 128 {
        return Ok(u64::from(byte));
    }
    let high = groups_of(source, place, first, more - 1)?;
    Ok(u64::from(byte - 128) + 128 * high)
}

/// Reads a LEB128 number.
#[tactic(auto, unfolding(crate::specs::Numbers::short_at, pw_outside::specs::Reading::bind))]
pub(crate) fn short_of<S: ByteSource>(source: &mut S, place: &mut u64) -> Result<u64, TableFault>
    requires { place.old + 10 < 2 ^ 64 }
    ensures bytes { Gives told_fault (λ x. x) (S.left source.old) (S.left source.new) place.old place.new result
        short_at }
    ensures place { place.new ≤ place.old + 10 }
    ensures becomes { GoesOn S.becomes source.old source.new }
    ensures cause { CountsFault (S.faults source.old) (S.faults source.new) (is_failed result) }
    ensures memory { is_out_of_memory result ≡ false }
{
    let first = *place;
    let byte = read_u8(source, place, SHORT)?;
    if byte < 128 {
        return Ok(u64::from(byte));
    }
    let high = groups_of(source, place, first, 8)?;
    Ok(u64::from(byte - 128) + 128 * high)
}
