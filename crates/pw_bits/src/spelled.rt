//! Bits written to memory, eight bytes at a time.

ghost use Rattle.std.specs.Prelude.{◌≡◌, ℕ, ◌+◌, ◌-◌, ◌*◌, ◌/◌, ◌^◌, ◌<◌, ◌≤◌, ◌++◌, length, take};
ghost use Rattle.pw_bits.specs.Bits.{bits_of, bits, bytes};
ghost use Rattle.pw_bits.specs.Spelled.{spelled};

/// A cursor of writing: whole bytes up to `at`, and after them the `count` bits of `low`, fewer than 8.
#[derive(Clone, Copy)]
pub struct Cursor {
    pub at: usize,
    pub low: u64,
    pub count: u32,
    ghost few: { count < 8 },
    ghost fits: { low < 2 ^ count },
}

impl Cursor {
    /// A cursor at the start.
    pub fn start() -> Cursor
        ensures { (result.at ≡ 0) × (result.count ≡ 0) }
    {
        Cursor {
            at: 0,
            low: 0,
            count: 0,
        }
    }
}

/// Writes a number as eight bytes, the most significant first.
fn store(out: &mut [u8], at: usize, value: u64)
    requires { at + 8 ≤ length out.old }
    ensures { (w : ℕ) → w ≤ 8 → bits (take (at + w) out.new) ≡ bits (take at out.old) ++ bits_of (8 * w) (value / 2 ^ (64 - 8 * w)) }
{
    out[at..at + 8].copy_from_slice(&value.to_be_bytes());
}

/// Writes the `n` low bits of `value`, 1 to 57 of them. Eight bytes at the cursor are written.
pub fn put_bits(out: &mut [u8], cursor: Cursor, value: u64, n: u32) -> Cursor
    requires few { (0 < n) × (n ≤ 57) }
    requires fits { value < 2 ^ n }
    requires room { 8 * cursor.at + cursor.count + 64 ≤ 8 * length out.old }
    ensures bits { spelled out.new result.at result.low result.count ≡ spelled out.old cursor.at cursor.low cursor.count ++ bits_of n value }
    ensures place { 8 * result.at + result.count ≡ 8 * cursor.at + cursor.count + n }
{
    let all = (cursor.low << n) + value;
    let total = cursor.count + n;
    store(out, cursor.at, all << (64 - total));
    let left = total % 8;
    Cursor {
        at: cursor.at + (total / 8) as usize,
        low: all % (1 << left),
        count: left,
    }
}

/// Fills the last byte with zeros, and returns the number of bytes written.
pub fn finish(out: &mut [u8], cursor: Cursor) -> usize
    requires room { 8 * cursor.at + cursor.count + 64 ≤ 8 * length out.old }
    ensures bytes { take result out.new ≡ bytes (spelled out.old cursor.at cursor.low cursor.count) }
    ensures inside { result ≤ length out.new }
{
    if cursor.count == 0 {
        return cursor.at;
    }
    put_bits(out, cursor, 0, 8 - cursor.count).at
}
