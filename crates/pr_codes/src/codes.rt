//! Codewords of a codebook, written and read.

ghost use Rattle.std.specs.Prelude.{◌≡◌, ◌+◌, ◌-◌, ◌^◌, ◌<◌, ◌≤◌, ◌++◌, length, OnOk, OnErr, IfOk, IsSome, IsTrue, is_err, false};
ghost use Rattle.pw_outside.specs.Ports.{CountsFault, Lowers, GoesOn};
ghost use Rattle.pw_bits.specs.Bits.{bits_of, zeros};
ghost use Rattle.pw_bits.specs.Reading.{unread};
ghost use Rattle.pw_bits.specs.Writing.{written, Writes, Begins};
ghost use Rattle.pr_codes.specs.Codes.{Reads, is_failed};
ghost use Rattle.pr_codes.specs.Words.{word, is_book, most, tail, first, after, code_at};

use crate::book::Codebook;
use pw_bits::{BitFault, BitReader, BitWriter, ZeroRun};
use pw_outside::{ByteSink, ByteSource, Failed};

/// Why no number is read.
#[derive(Clone, Copy, Debug, PartialEq, Eq)]
pub enum CodeFault {
    /// The bits end before the codeword does.
    End,
    /// The codeword has too many zeros, or its number is above 2^20.
    TooLarge,
    /// The source failed.
    Failed,
}

/// A codeword: zeros, and after them a number in binary, whose highest bit is 1.
#[derive(Clone, Copy)]
struct WordParts {
    zeros: u8,
    size: u8,
    number: u64,
}

/// The number of bits of a number that isn't 0.
fn bit_length(value: u64) -> u8
    requires { 0 < value }
    ensures low { 2 ^ (result - 1) ≤ value }
    ensures high { value < 2 ^ result }
    ensures size { (0 < result) × (result ≤ 64) }
{
    64 - value.leading_zeros() as u8
}

/// The parts of a number's codeword.
fn word_parts(book: Codebook, value: u32) -> WordParts
    requires { IsTrue (is_book book) }
    ensures word { word book value ≡ zeros result.zeros ++ bits_of result.size result.number }
    ensures fits { result.number < 2 ^ result.size }
    ensures sizes { (result.zeros ≤ 40) × (result.size ≤ 34) }
    ensures small { value ≤ 2 ^ 20 → (result.zeros ≤ 24) × (result.size ≤ 21) }
{
    let high = value >> book.rice;
    if high <= u32::from(book.last) {
        WordParts {
            zeros: high as u8,
            size: book.rice + 1,
            number: (1 << book.rice) + u64::from(value % (1 << book.rice)),
        }
    } else {
        let offset = u64::from(value) + (1 << book.exp) - ((u64::from(book.last) + 1) << book.rice);
        let size = bit_length(offset);
        WordParts {
            zeros: size - book.exp + book.last,
            size,
            number: offset,
        }
    }
}

/// A codeword as a number and its count of bits; the codeword's zeros are the highest of them.
pub fn word_bits(book: Codebook, value: u32) -> (u64, u32)
    requires { IsTrue (is_book book) }
    ensures word { word book value ≡ bits_of result.1 result.0 }
    ensures fits { result.0 < 2 ^ result.1 }
    ensures some { 0 < result.1 }
{
    let parts = word_parts(book, value);
    (parts.number, u32::from(parts.zeros + parts.size))
}

/// The number of bits of a number's codeword.
pub fn code_length(book: Codebook, value: u32) -> u32
    requires { IsTrue (is_book book) }
    ensures { result ≡ length (word book value) }
{
    let parts = word_parts(book, value);
    u32::from(parts.zeros) + u32::from(parts.size)
}

/// Writes the codeword of `number`, which is at most 2^20.
pub fn put_code<K: ByteSink>(
    writer: &mut BitWriter,
    sink: &mut K,
    book: Codebook,
    value: u32,
) -> Result<(), Failed>
    requires usable { writer.old.spoiled ≡ false }
    requires book { IsTrue (is_book book) }
    requires small { value ≤ 2 ^ 20 }
    ensures ok { OnOk result (Writes (written (K.held sink.old) (K.taken sink.old) writer.old.pending) (written (K.held sink.new) (K.taken sink.new) writer.new.pending) (word book value)) }
    ensures err { OnErr result (Begins (written (K.held sink.old) (K.taken sink.old) writer.old.pending) (written (K.held sink.new) (K.taken sink.new) writer.new.pending) (word book value)) }
    ensures settled { K.settled sink.old ≤ K.settled sink.new }
    ensures spoiled { writer.new.spoiled ≡ is_err result }
    ensures cause { CountsFault (K.faults sink.old) (K.faults sink.new) (is_err result) }
{
    let parts = word_parts(book, value);
    let number = parts.number as u32;
    if parts.zeros + parts.size <= 32 {
        return writer.bits(sink, number, parts.zeros + parts.size);
    }
    writer.bits(sink, 0, parts.zeros)?;
    writer.bits(sink, number, parts.size)
}

/// Of the codewords that begin with `zeros` zeros and a 1: the number of bits after these, and the least number.
/// `zeros` is at most `21 − exp + last`.
pub fn tail_parts(book: Codebook, zeros: u32) -> (u8, u32)
    requires book { IsTrue (is_book book) }
    requires few { zeros ≤ most book }
    ensures size { (result.0 ≡ tail book zeros) × (result.0 ≤ 20) }
    ensures least { (result.1 ≡ first book zeros) × (result.1 ≤ 2 ^ 21) }
{
    let last = u32::from(book.last);
    if zeros <= last {
        (book.rice, zeros << book.rice)
    } else {
        let size = (zeros - last - 1) as u8 + book.exp;
        (
            size,
            (1 << size) + ((last + 1) << book.rice) - (1 << book.exp),
        )
    }
}

/// Reads the rest of a codeword whose `zeros` zeros, at most `21 − exp + last`, and whose 1 were taken before, and
/// returns its number.
pub fn get_after<S: ByteSource>(
    reader: &mut BitReader,
    source: &mut S,
    book: Codebook,
    zeros: u32,
) -> Result<u32, CodeFault>
    requires book { IsTrue (is_book book) }
    requires few { zeros ≤ most book }
    ensures read { IsSome (S.left source.old) → Reads result (after book zeros (unread reader.old (S.left source.old))) (unread reader.new (S.left source.new)) }
    ensures small { IfOk result (λ n. n ≤ 2 ^ 20) }
    ensures told { IsSome (S.left source.old) → IsSome (S.left source.new) }
    ensures most { Lowers (S.most source.old) (S.most source.new) 0 }
    ensures becomes { GoesOn S.becomes source.old source.new }
    ensures cause { CountsFault (S.faults source.old) (S.faults source.new) (is_failed result) }
{
    let (size, least) = tail_parts(book, zeros);
    match reader.bits(source, size) {
        Ok(low) if least + low > 1 << 20 => Err(CodeFault::TooLarge),
        Ok(low) => Ok(least + low),
        Err(BitFault::End) => Err(CodeFault::End),
        Err(BitFault::Failed) => Err(CodeFault::Failed),
    }
}

/// Reads the next codeword and returns its number.
pub fn get_code<S: ByteSource>(
    reader: &mut BitReader,
    source: &mut S,
    book: Codebook,
) -> Result<u32, CodeFault>
    requires { IsTrue (is_book book) }
    ensures read { IsSome (S.left source.old) → Reads result (code_at book (unread reader.old (S.left source.old))) (unread reader.new (S.left source.new)) }
    ensures small { IfOk result (λ n. n ≤ 2 ^ 20) }
    ensures told { IsSome (S.left source.old) → IsSome (S.left source.new) }
    ensures most { Lowers (S.most source.old) (S.most source.new) 0 }
    ensures becomes { GoesOn S.becomes source.old source.new }
    ensures cause { CountsFault (S.faults source.old) (S.faults source.new) (is_failed result) }
{
    match reader.zeros(source, 21 - u32::from(book.exp) + u32::from(book.last)) {
        Ok(ZeroRun::One(zeros)) => get_after(reader, source, book, zeros),
        Ok(ZeroRun::End(_)) => Err(CodeFault::End),
        Ok(ZeroRun::Many) => Err(CodeFault::TooLarge),
        Err(_) => Err(CodeFault::Failed),
    }
}
