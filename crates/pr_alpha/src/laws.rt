//! Laws of alpha values. The functions do nothing; their contracts are the laws.

ghost use Rattle.std.specs.Prelude.{◌≡◌, ◌↔◌, ◌⊎◌, ℕ, ◌+◌, ◌*◌, ◌<◌, ◌≤◌, Bool, List, length, Ok, Err, IsTrue};
ghost use Rattle.pw_bits.specs.Bits.{bits};
ghost use Rattle.pr_alpha.specs.Alpha.{is_width, AreBelow, Stands, alpha};
ghost use Rattle.pr_alpha.specs.Reading.{Fault, alpha_at};

/// Bits stand for values exactly where these values are read from them.
pub fn alpha_is_read()
    ensures { (n count : ℕ) (l : List Bool) (values : List ℕ) →
        (alpha_at count n l ≡ Ok values) ↔ ((length values ≡ count) × Stands l values n) }
{}

/// Bits stand for exactly one list of n values, or have a fault, and never both.
pub fn one_list_or_fault()
    ensures one { (n : ℕ) (l : List Bool) (a b : List ℕ) → length b ≡ length a →
        Stands l a n → Stands l b n → a ≡ b }
    ensures some { (n count : ℕ) (l : List Bool) →
        ((values : List ℕ) × (length values ≡ count) × Stands l values n) ⊎ ((fault : Fault) × (alpha_at count n l ≡ Err fault)) }
    ensures not_both { (n : ℕ) (l : List Bool) (a : List ℕ) (fault : Fault) →
        Stands l a n → alpha_at (length a) n l ≡ Err fault → ⊥ }
{}

/// The written bytes stand for the values that were written.
pub fn alpha_is_read_again()
    ensures { (n : ℕ) (values : List ℕ) → IsTrue (is_width n) → 0 < length values → length values ≤ 2048 → AreBelow n values →
        Stands (bits (alpha n values)) values n }
{}

/// Values of n bits cost at most n + 17 bits each, plus the zeros that fill the last byte.
pub fn alpha_is_short()
    ensures { (n : ℕ) (values : List ℕ) → IsTrue (is_width n) →
        8 * length (alpha n values) ≤ (n + 17) * length values + 7 }
{}
