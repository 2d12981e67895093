//! Bits of bytes in memory, by their offsets.

ghost use Rattle.std.specs.Prelude.{◌≡◌, ℕ, ◌+◌, ◌-◌, ◌*◌, ◌/◌, ◌%◌, ◌^◌, ◌<◌, ◌≤◌, ◌++◌, ◌∷◌, length, drop};
ghost use Rattle.pw_bits.specs.Bits.{bits_of, bits};
ghost use Rattle.pw_bits.specs.Places.{LastOne};

/// Eight bytes as a number, the first the highest.
fn eight(bytes: &[u8], from: usize) -> u64
    requires { from + 8 ≤ length bytes.now }
    ensures { drop (8 * from) (bits bytes.now) ≡ bits_of 64 result ++ drop (8 * from + 64) (bits bytes.now) }
{
    u64::from_be_bytes([
        bytes[from],
        bytes[from + 1],
        bytes[from + 2],
        bytes[from + 3],
        bytes[from + 4],
        bytes[from + 5],
        bytes[from + 6],
        bytes[from + 7],
    ])
}

/// The bits from bit offset `place` on, at the top of a number: at least 57 of them. Eight bytes follow the offset.
pub fn front_at(padded: &[u8], at: usize) -> u64
    requires { at + 64 ≤ 8 * length padded.now }
    ensures front { (k : ℕ) → k ≤ 57 → drop at (bits padded.now) ≡ bits_of k (result / 2 ^ (64 - k)) ++ drop (at + k) (bits padded.now) }
{
    eight(padded, at / 8) << (at % 8)
}

/// The bit at bit offset `place`. Eight bytes follow it.
pub fn bit_at(padded: &[u8], at: usize) -> bool
    requires { at + 64 ≤ 8 * length padded.now }
    ensures { drop at (bits padded.now) ≡ result ∷ drop (at + 1) (bits padded.now) }
{
    front_at(padded, at) >> 63 == 1
}

/// The number of zeros after the last 1 of a byte that isn't 0.
fn zeros_behind(byte: u8) -> u8
    requires { 0 < byte }
    ensures few { result < 8 }
    ensures zeros { byte % 2 ^ result ≡ 0 }
    ensures one { byte / 2 ^ result % 2 ≡ 1 }
{
    byte.trailing_zeros() as u8
}

/// The bit offset after the last 1 of the first `bytes` bytes, of which there are at most 2^32; 0 where there is no
/// 1.
pub fn behind_last_one(padded: &[u8], bytes: usize) -> usize
    requires inside { bytes ≤ length padded.now }
    requires few { bytes ≤ 2 ^ 32 }
    ensures { LastOne padded.now (8 * bytes) result }
{
    let mut last = bytes;
    while last > 0 {
        let byte = padded[last - 1];
        if byte > 0 {
            return 8 * last - usize::from(zeros_behind(byte));
        }
        last -= 1;
    }
    0
}
