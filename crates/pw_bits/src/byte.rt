//! Single bytes of a source, and the leading zeros of a byte's bits.

ghost use Rattle.std.specs.Prelude.{◌≡◌, ◌+◌, ◌-◌, ◌%◌, ◌^◌, ◌<◌, ◌≤◌, true, ◌∷◌, ◌++◌, length, slice_index, IsSome, is_err};
ghost use Rattle.pw_outside.specs.Ports.{CountsFault, Lowers, GoesOn};
ghost use Rattle.pw_bits.specs.Bits.{bits_of, zeros};
ghost use Rattle.pw_bits.specs.inner.Bytes.{GivesByte, byte_count};

use pw_outside::{ByteSource, Failed};

/// The next byte of `source`; `None` at its end.
pub(crate) fn next_byte<S: ByteSource>(source: &mut S) -> Result<Option<u8>, Failed>
    ensures bytes { GivesByte result (S.left source.old) (S.left source.new) }
    ensures told { IsSome (S.left source.old) → IsSome (S.left source.new) }
    ensures most { Lowers (S.most source.old) (S.most source.new) (byte_count result) }
    ensures becomes { GoesOn S.becomes source.old source.new }
    ensures cause { CountsFault (S.faults source.old) (S.faults source.new) (is_err result) }
{
    let mut piece = [0];
    match source.read(&mut piece) {
        Ok(0) => Ok(None),
        Ok(_) => Ok(Some(first(&piece))),
        Err(fault) => Err(fault),
    }
}

/// The first byte of a piece.
fn first(piece: &[u8]) -> u8
    requires { 0 < length piece.now }
    ensures value { result ≡ slice_index piece.now 0 }
    ensures small { result < 256 }
{
    piece[0]
}

/// The number of zeros before the first 1 of the `count` low bits, or `count` where there is no 1.
pub(crate) fn zeros_in_front(low: u8, count: u8) -> u8
    requires size { count ≤ 8 }
    requires fits { low < 2 ^ count }
    ensures within { result ≤ count }
    ensures small { low < 2 ^ (count - result) }
    ensures one { result < count → bits_of count low ≡ zeros result ++ true ∷ bits_of (count - result - 1) (low % 2 ^ (count - result - 1)) }
    ensures none { result ≡ count → low ≡ 0 }
{
    low.leading_zeros() as u8 + count - 8
}
