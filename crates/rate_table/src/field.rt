//! One field of a file: a big-endian number of one, two, four or eight bytes.
//!
//! Each call reads the number at offset `place` of its file and advances `place` past it. The error is `Bad` with
//! the kind `short` at the number's offset if the input ends within it, or `Failed` if a call of the source failed.

ghost use Rattle.std.specs.Prelude.{◌≡◌, ◌+◌, ◌<◌, ◌≤◌, ◌^◌, false};
ghost use Rattle.std.specs.Int.{w8, w16, w32, w64};
ghost use Rattle.pw_outside.specs.Ports.{CountsFault, GoesOn};
ghost use Rattle.pw_outside.specs.Reading.{Gives, bytes_at, number_at};
ghost use Rattle.rate_table.specs.Reading.{told_fault, is_failed, is_out_of_memory};

use crate::fault::{ProofKind, TableFault, bad};
use pw_outside::{ByteSource, fill};

/// The next `N` bytes.
fn field<S: ByteSource, const N: usize>(
    source: &mut S,
    place: &mut u64,
    short: ProofKind,
) -> Result<[u8; N], TableFault>
    requires { place.old + N < 2 ^ 64 }
    ensures bytes { Gives told_fault (λ x. x) (S.left source.old) (S.left source.new) place.old place.new result
        (bytes_at short N) }
    ensures place { place.new ≤ place.old + N }
    ensures becomes { GoesOn S.becomes source.old source.new }
    ensures cause { CountsFault (S.faults source.old) (S.faults source.new) (is_failed result) }
    ensures memory { is_out_of_memory result ≡ false }
{
    let mut piece = [0u8; N];
    let count = fill(source, &mut piece)?;
    if count < N {
        return Err(bad(short, *place));
    }
    *place += N as u64;
    Ok(piece)
}

/// A number of one byte.
pub fn read_u8<S: ByteSource>(
    source: &mut S,
    place: &mut u64,
    short: ProofKind,
) -> Result<u8, TableFault>
    requires { place.old + 1 < 2 ^ 64 }
    ensures bytes { Gives told_fault (λ x. x) (S.left source.old) (S.left source.new) place.old place.new result
        (number_at short w8) }
    ensures place { place.new ≤ place.old + 1 }
    ensures becomes { GoesOn S.becomes source.old source.new }
    ensures cause { CountsFault (S.faults source.old) (S.faults source.new) (is_failed result) }
    // Takes no memory.
    ensures memory { is_out_of_memory result ≡ false }
{
    let piece = field::<S, 1>(source, place, short)?;
    Ok(u8::from_be_bytes(piece))
}

/// A number of two bytes.
pub fn read_u16<S: ByteSource>(
    source: &mut S,
    place: &mut u64,
    short: ProofKind,
) -> Result<u16, TableFault>
    requires { place.old + 2 < 2 ^ 64 }
    ensures bytes { Gives told_fault (λ x. x) (S.left source.old) (S.left source.new) place.old place.new result
        (number_at short w16) }
    ensures place { place.new ≤ place.old + 2 }
    ensures becomes { GoesOn S.becomes source.old source.new }
    ensures cause { CountsFault (S.faults source.old) (S.faults source.new) (is_failed result) }
    // Takes no memory.
    ensures memory { is_out_of_memory result ≡ false }
{
    let piece = field::<S, 2>(source, place, short)?;
    Ok(u16::from_be_bytes(piece))
}

/// A number of four bytes.
pub fn read_u32<S: ByteSource>(
    source: &mut S,
    place: &mut u64,
    short: ProofKind,
) -> Result<u32, TableFault>
    requires { place.old + 4 < 2 ^ 64 }
    ensures bytes { Gives told_fault (λ x. x) (S.left source.old) (S.left source.new) place.old place.new result
        (number_at short w32) }
    ensures place { place.new ≤ place.old + 4 }
    ensures becomes { GoesOn S.becomes source.old source.new }
    ensures cause { CountsFault (S.faults source.old) (S.faults source.new) (is_failed result) }
    // Takes no memory.
    ensures memory { is_out_of_memory result ≡ false }
{
    let piece = field::<S, 4>(source, place, short)?;
    Ok(u32::from_be_bytes(piece))
}

/// A number of eight bytes.
pub fn read_u64<S: ByteSource>(
    source: &mut S,
    place: &mut u64,
    short: ProofKind,
) -> Result<u64, TableFault>
    requires { place.old + 8 < 2 ^ 64 }
    ensures bytes { Gives told_fault (λ x. x) (S.left source.old) (S.left source.new) place.old place.new result
        (number_at short w64) }
    ensures place { place.new ≤ place.old + 8 }
    ensures becomes { GoesOn S.becomes source.old source.new }
    ensures cause { CountsFault (S.faults source.old) (S.faults source.new) (is_failed result) }
    // Takes no memory.
    ensures memory { is_out_of_memory result ≡ false }
{
    let piece = field::<S, 8>(source, place, short)?;
    Ok(u64::from_be_bytes(piece))
}
