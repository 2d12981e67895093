//! Laws of codewords. The functions do nothing; their contracts are the laws.

ghost use Rattle.std.specs.Prelude.{◌≡◌, ◌≢◌, ℕ, ◌+◌, ◌*◌, ◌^◌, ◌<◌, ◌≤◌, Bool, true, List, ◌∷◌, ◌++◌, length, Ok, Err, IsTrue};
ghost use Rattle.pw_bits.specs.Bits.{zeros};
ghost use Rattle.pr_codes.specs.Words.{word, after, code_at, is_book, at_end, too_large};
ghost use Rattle.pr_codes.specs.declared.book.Codebook.{Codebook};

/// Codebooks are prefix-free: of two different numbers neither codeword in a codebook begins with the other. So
/// bits begin with the codeword of at most one number.
pub fn words_are_prefix_free()
    ensures apart { (book : Codebook) (m n : ℕ) (x : List Bool) → m ≢ n → word book n ≢ word book m ++ x }
    ensures one { (book : Codebook) (m n : ℕ) (x y : List Bool) → word book m ++ x ≡ word book n ++ y → (m ≡ n) × (x ≡ y) }
{}

/// What is read is the number, at most 2^20, whose codeword comes first, and a codeword of a codebook that comes
/// first is read.
pub fn words_are_read()
    ensures found { (book : Codebook) (l : List Bool) (n : ℕ) (rest : List Bool) → code_at book l ≡ Ok (n, rest) → (n ≤ 2 ^ 20) × (l ≡ word book n ++ rest) }
    ensures again { (book : Codebook) (n : ℕ) (rest : List Bool) → IsTrue (is_book book) → n ≤ 2 ^ 20 → code_at book (word book n ++ rest) ≡ Ok (n, rest) }
{}

/// What is read after zeros and a 1 is the one number, at most 2^20, whose codeword continues there. Where the
/// codeword of a larger number does, the result is that it is too large; where the bits end, no number's codeword
/// does.
pub fn words_go_on()
    ensures found { (book : Codebook) (z : ℕ) (l : List Bool) (n : ℕ) (rest : List Bool) → after book z l ≡ Ok (n, rest) → (n ≤ 2 ^ 20) × (zeros z ++ true ∷ l ≡ word book n ++ rest) }
    ensures again { (book : Codebook) (z : ℕ) (l : List Bool) (n : ℕ) (rest : List Bool) → n ≤ 2 ^ 20 → zeros z ++ true ∷ l ≡ word book n ++ rest → after book z l ≡ Ok (n, rest) }
    ensures large { (book : Codebook) (z : ℕ) (l : List Bool) (n : ℕ) (rest : List Bool) → 2 ^ 20 < n → zeros z ++ true ∷ l ≡ word book n ++ rest → after book z l ≡ Err too_large }
    ensures wanting { (book : Codebook) (z : ℕ) (l : List Bool) (n : ℕ) (rest : List Bool) → after book z l ≡ Err at_end → zeros z ++ true ∷ l ≢ word book n ++ rest }
{}

/// The greatest length of a codeword of a codebook.
pub fn words_are_short()
    ensures { (book : Codebook) (n k : ℕ) → IsTrue (is_book book) → 5 ≤ k → n + 2 ^ book.exp < 2 ^ (k + 1) → length (word book n) ≤ 2 * k + 3 }
{}
