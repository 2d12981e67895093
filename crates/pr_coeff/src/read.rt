//! Reading a codeword, a sign, and the end of the data.

ghost use Rattle.std.specs.Prelude.{◌≡◌, ◌≢◌, ◌≤◌, ◌^◌, ℕ, Bool, false, [], ◌∷◌, ◌++◌, Ok, Err, IfOk, IfErr, IfSome, IsSome, IsTrue};
ghost use Rattle.pw_outside.specs.Ports.{CountsFault, Lowers, GoesOn};
ghost use Rattle.pw_bits.specs.Reading.{unread};
ghost use Rattle.pr_codes.specs.Words.{is_book, most};
ghost use Rattle.pr_coeff.specs.Reading.{word_at};
ghost use Rattle.pr_coeff.specs.Calls.{IsFault, IsFaultThere, is_failed, WordBegins, WordOrEnd};

use pr_codes::{CodeFault, Codebook, get_after, get_code};
use pw_bits::{BitFault, BitReader, ZeroRun};
use pw_outside::ByteSource;

/// Why a component is not read.
#[derive(Clone, Copy, Debug, PartialEq, Eq)]
pub enum CoeffFault {
    /// A codeword is missing or too large, or a sign is missing.
    Codeword,
    /// A run of zeros passes the last coefficient.
    RunPast,
    /// A coefficient is of magnitude above 32,767.
    LevelRange,
    /// The source failed.
    Failed,
}

/// Reads the next codeword and returns its number.
pub(crate) fn get_word<S: ByteSource>(
    reader: &mut BitReader,
    source: &mut S,
    book: Codebook,
) -> Result<u32, CoeffFault>
    requires { IsTrue (is_book book) }
    ensures value { IfOk result (λ n. IsSome (S.left source.old) → word_at book (unread reader.old (S.left source.old)) ≡ Ok (n, unread reader.new (S.left source.new))) }
    ensures fault { IfErr result (λ e. IsSome (S.left source.old) → IsFault e (word_at book (unread reader.old (S.left source.old)))) }
    ensures small { IfOk result (λ n. n ≤ 2 ^ 20) }
    ensures told { IsSome (S.left source.old) → IsSome (S.left source.new) }
    ensures most { Lowers (S.most source.old) (S.most source.new) 0 }
    ensures becomes { GoesOn S.becomes source.old source.new }
    ensures cause { CountsFault (S.faults source.old) (S.faults source.new) (is_failed result) }
{
    match get_code(reader, source, book) {
        Ok(number) => Ok(number),
        Err(CodeFault::End) => Err(CoeffFault::Codeword),
        Err(CodeFault::TooLarge) => Err(CoeffFault::Codeword),
        Err(CodeFault::Failed) => Err(CoeffFault::Failed),
    }
}

/// Reads a sign, true for negative.
pub(crate) fn get_sign<S: ByteSource>(
    reader: &mut BitReader,
    source: &mut S,
) -> Result<bool, CoeffFault>
    ensures value { IfOk result (λ b. IsSome (S.left source.old) → unread reader.old (S.left source.old) ≡ b ∷ unread reader.new (S.left source.new)) }
    ensures wanting { result ≡ Err CoeffFault.Codeword → IsSome (S.left source.old) → unread reader.old (S.left source.old) ≡ [] }
    ensures others { (result ≢ Err CoeffFault.RunPast) × (result ≢ Err CoeffFault.LevelRange) }
    ensures told { IsSome (S.left source.old) → IsSome (S.left source.new) }
    ensures most { Lowers (S.most source.old) (S.most source.new) 0 }
    ensures becomes { GoesOn S.becomes source.old source.new }
    ensures cause { CountsFault (S.faults source.old) (S.faults source.new) (is_failed result) }
{
    match reader.bit(source) {
        Ok(bit) => Ok(bit),
        Err(BitFault::End) => Err(CoeffFault::Codeword),
        Err(BitFault::Failed) => Err(CoeffFault::Failed),
    }
}

/// Reads the zeros and the 1 of a codeword, unless the data has ended before it.
fn begin_word<S: ByteSource>(
    reader: &mut BitReader,
    source: &mut S,
    book: Codebook,
) -> Result<Option<u32>, CoeffFault>
    requires book { IsTrue (is_book book) }
    requires bound { IsSome (S.most source.old) }
    ensures value { IfOk result (λ o. IsSome (S.left source.old) → WordBegins book (unread reader.old (S.left source.old)) (unread reader.new (S.left source.new)) o) }
    ensures few { IfOk result (λ o. IfSome o (λ z. z ≤ most book)) }
    ensures fault { IfErr result (λ e. IsSome (S.left source.old) → IsFaultThere e (unread reader.old (S.left source.old)) (word_at book (unread reader.old (S.left source.old)))) }
    ensures told { IsSome (S.left source.old) → IsSome (S.left source.new) }
    ensures most { Lowers (S.most source.old) (S.most source.new) 0 }
    ensures becomes { GoesOn S.becomes source.old source.new }
    ensures cause { CountsFault (S.faults source.old) (S.faults source.new) (is_failed result) }
{
    match reader.zeros(source, 21 - u32::from(book.exp) + u32::from(book.last)) {
        Ok(ZeroRun::One(zeros)) => Ok(Some(zeros)),
        Ok(ZeroRun::End(_)) => Ok(None),
        Ok(ZeroRun::Many) => match reader.rest_is_zero(source) {
            Ok(true) => Ok(None),
            Ok(false) => Err(CoeffFault::Codeword),
            Err(_) => Err(CoeffFault::Failed),
        },
        Err(_) => Err(CoeffFault::Failed),
    }
}

/// Reads the next codeword and returns its number, unless the data has ended before it.
pub(crate) fn get_word_or_end<S: ByteSource>(
    reader: &mut BitReader,
    source: &mut S,
    book: Codebook,
) -> Result<Option<u32>, CoeffFault>
    requires book { IsTrue (is_book book) }
    requires bound { IsSome (S.most source.old) }
    ensures value { IfOk result (λ o. IsSome (S.left source.old) → WordOrEnd book (unread reader.old (S.left source.old)) (unread reader.new (S.left source.new)) o) }
    ensures fault { IfErr result (λ e. IsSome (S.left source.old) → IsFaultThere e (unread reader.old (S.left source.old)) (word_at book (unread reader.old (S.left source.old)))) }
    ensures told { IsSome (S.left source.old) → IsSome (S.left source.new) }
    ensures most { Lowers (S.most source.old) (S.most source.new) 0 }
    ensures becomes { GoesOn S.becomes source.old source.new }
    ensures cause { CountsFault (S.faults source.old) (S.faults source.new) (is_failed result) }
{
    match begin_word(reader, source, book) {
        Ok(Some(zeros)) => match get_after(reader, source, book, zeros) {
            Ok(number) => Ok(Some(number)),
            Err(CodeFault::End) => Err(CoeffFault::Codeword),
            Err(CodeFault::TooLarge) => Err(CoeffFault::Codeword),
            Err(CodeFault::Failed) => Err(CoeffFault::Failed),
        },
        Ok(None) => Ok(None),
        Err(fault) => Err(fault),
    }
}
