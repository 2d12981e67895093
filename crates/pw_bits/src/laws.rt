//! Laws of numbers, bytes and their bits. The functions do nothing; their contracts are the laws.

ghost use Rattle.std.specs.Prelude.{◌≡◌, ℕ, ◌^◌, ◌<◌, Bool, List, ◌++◌, length};
ghost use Rattle.pw_bits.specs.Bits.{bits_of, value, bits, bytes, padding, AreBytes};

/// A number below 2^k has one list of k bits, and each list of bits is that of one number.
pub fn bits_are_numbers()
    ensures there { (k n : ℕ) → n < 2 ^ k → value (bits_of k n) ≡ n }
    ensures back { (l : List Bool) → bits_of (length l) (value l) ≡ l }
{}

/// The bytes of a list of bits have these bits, and after them the fewest zeros that fill a byte.
pub fn bytes_are_bits()
    ensures there { (l : List Bool) → bits (bytes l) ≡ l ++ padding l }
    ensures back { (b : List ℕ) → AreBytes b → bytes (bits b) ≡ b }
{}
