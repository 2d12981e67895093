//! Writing alpha values.

ghost use Rattle.std.specs.Prelude.{◌≡◌, ◌<◌, ◌≤◌, ◌+◌, ◌^◌, ℕ, List, Bool, false, [], ◌∷◌, OnOk, OnErr, IsTrue, is_err, length};
ghost use Rattle.pw_outside.specs.Ports.{CountsFault};
ghost use Rattle.pw_outside.specs.Writing.{sink_state, Puts, PutsFront};
ghost use Rattle.pw_bits.specs.Bits.{bits_of};
ghost use Rattle.pw_bits.specs.Writing.{written, Writes, Begins};
ghost use Rattle.pr_alpha.specs.Alpha.{is_width, difference_word, difference_of, run_word, run_of, row_words, alpha, AreBelow};
ghost use Rattle.pr_alpha.specs.inner.Writing.{words_behind, Codes};

use crate::width::{greatest_value, size_of_short};
use pw_bits::BitWriter;
use pw_outside::{ByteSink, CountSink, Failed};

/// Equal values whose codewords are still to be written: the value before them, the value itself, and the number of
/// further ones.
#[derive(Clone, Copy)]
struct Coding {
    before: u16,
    value: u16,
    further: u32,
}

/// A codeword: a number and its number of bits.
#[derive(Clone, Copy)]
struct Word {
    size: u8,
    number: u32,
}

/// The codeword of a value's difference to the one before, the short one wherever it fits.
fn word_of_difference(bits: u8, before: u16, value: u16) -> Word
    requires width { IsTrue (is_width bits) }
    requires before { before < 2 ^ bits }
    requires value { value < 2 ^ bits }
    ensures word { bits_of result.size result.number ≡ difference_word bits (difference_of bits before value) }
    ensures fits { result.number < 2 ^ result.size }
    ensures size { result.size ≤ 17 }
{
    let modulus = 1 << bits;
    let ahead = (u32::from(value) + modulus - u32::from(before)) % modulus;
    let size = size_of_short(bits);
    if ahead > 0 && ahead <= 1 << size {
        Word {
            size: size + 2,
            number: 2 * (ahead - 1),
        }
    } else if modulus <= ahead + (1 << size) {
        Word {
            size: size + 2,
            number: 2 * (modulus - ahead - 1) + 1,
        }
    } else {
        Word {
            size: bits + 1,
            number: modulus + ahead,
        }
    }
}

/// The codeword of a run of at most 2,047 further values, the short one wherever it fits.
fn word_of_run(further: u32) -> Word
    requires { further < 2 ^ 11 }
    ensures word { bits_of result.size result.number ≡ run_word (run_of further) }
    ensures fits { result.number < 2 ^ result.size }
    ensures size { result.size ≤ 16 }
{
    if further == 0 {
        Word { size: 1, number: 1 }
    } else if further <= 15 {
        Word {
            size: 5,
            number: further,
        }
    } else {
        Word {
            size: 16,
            number: further,
        }
    }
}

/// Writes the codewords of equal values: a difference and a run.
fn put_row<K: ByteSink>(
    writer: &mut BitWriter,
    sink: &mut K,
    bits: u8,
    row: Coding,
) -> Result<(), Failed>
    requires usable { writer.old.spoiled ≡ false }
    requires width { IsTrue (is_width bits) }
    requires before { row.before < 2 ^ bits }
    requires value { row.value < 2 ^ bits }
    requires few { row.further < 2 ^ 11 }
    ensures ok { OnOk result (Writes (written (K.held sink.old) (K.taken sink.old) writer.old.pending) (written (K.held sink.new) (K.taken sink.new) writer.new.pending) (row_words bits row.before (record { value = row.value; further = row.further }))) }
    ensures err { OnErr result (Begins (written (K.held sink.old) (K.taken sink.old) writer.old.pending) (written (K.held sink.new) (K.taken sink.new) writer.new.pending) (row_words bits row.before (record { value = row.value; further = row.further }))) }
    ensures settled { K.settled sink.old ≤ K.settled sink.new }
    ensures spoiled { writer.new.spoiled ≡ is_err result }
    ensures cause { CountsFault (K.faults sink.old) (K.faults sink.new) (is_err result) }
{
    let difference = word_of_difference(bits, row.before, row.value);
    let run = word_of_run(row.further);
    writer.bits(sink, difference.number, difference.size)?;
    writer.bits(sink, run.number, run.size)
}

/// Counts a further equal value, or writes the codewords of the equal values so far and begins others with this
/// value.
fn put_value<K: ByteSink>(
    coding: &mut Coding,
    writer: &mut BitWriter,
    sink: &mut K,
    bits: u8,
    value: u16,
) -> Result<(), Failed>
    requires usable { writer.old.spoiled ≡ false }
    requires kept { length writer.old.pending < 8 }
    requires width { IsTrue (is_width bits) }
    requires coded { (coding.old.before < 2 ^ bits) × (coding.old.value < 2 ^ bits) }
    requires value { value < 2 ^ bits }
    requires few { coding.old.further < 2 ^ 11 }
    ensures ok { OnOk result ((words : List Bool) × Codes bits coding.old coding.new (value ∷ []) words × Writes (written (K.held sink.old) (K.taken sink.old) writer.old.pending) (written (K.held sink.new) (K.taken sink.new) writer.new.pending) words) }
    ensures err { OnErr result ((rest : List ℕ) → Begins (written (K.held sink.old) (K.taken sink.old) writer.old.pending) (written (K.held sink.new) (K.taken sink.new) writer.new.pending) (words_behind bits coding.old (value ∷ rest))) }
    ensures coded { (coding.new.before < 2 ^ bits) × (coding.new.value < 2 ^ bits) }
    ensures further { coding.new.further ≤ coding.old.further + 1 }
    ensures settled { K.settled sink.old ≤ K.settled sink.new }
    ensures spoiled { writer.new.spoiled ≡ is_err result }
    ensures cause { CountsFault (K.faults sink.old) (K.faults sink.new) (is_err result) }
{
    if value == coding.value {
        coding.further += 1;
        return Ok(());
    }
    let row = *coding;
    coding.before = row.value;
    coding.value = value;
    coding.further = 0;
    put_row(writer, sink, bits, row)
}

/// Writes the codewords of values after the first, except those of the last equal ones.
fn put_values<K: ByteSink>(
    coding: &mut Coding,
    writer: &mut BitWriter,
    sink: &mut K,
    bits: u8,
    values: &[u16],
) -> Result<(), Failed>
    requires usable { writer.old.spoiled ≡ false }
    requires kept { length writer.old.pending < 8 }
    requires width { IsTrue (is_width bits) }
    requires coded { (coding.old.before < 2 ^ bits) × (coding.old.value < 2 ^ bits) }
    requires below { AreBelow bits values.now }
    requires first { coding.old.further ≡ 0 }
    requires few { length values.now < 2 ^ 11 }
    ensures ok { OnOk result ((words : List Bool) × Codes bits coding.old coding.new values.now words × Writes (written (K.held sink.old) (K.taken sink.old) writer.old.pending) (written (K.held sink.new) (K.taken sink.new) writer.new.pending) words) }
    ensures err { OnErr result (Begins (written (K.held sink.old) (K.taken sink.old) writer.old.pending) (written (K.held sink.new) (K.taken sink.new) writer.new.pending) (words_behind bits coding.old values.now)) }
    ensures coded { (coding.new.before < 2 ^ bits) × (coding.new.value < 2 ^ bits) }
    ensures further { OnOk result (coding.new.further < 2 ^ 11) }
    ensures settled { K.settled sink.old ≤ K.settled sink.new }
    ensures spoiled { writer.new.spoiled ≡ is_err result }
    ensures cause { CountsFault (K.faults sink.old) (K.faults sink.new) (is_err result) }
{
    for value in values {
        put_value(coding, writer, sink, bits, *value)?;
    }
    Ok(())
}

/// Writes the bytes of 1 to 2,048 values of 8 or 16 bits, the last byte filled with zeros. All values are below
/// 2^bits.
pub fn write_alpha<K: ByteSink>(values: &[u16], bits: u8, sink: &mut K) -> Result<(), Failed>
    requires width { IsTrue (is_width bits) }
    requires count { (0 < length values.now) × (length values.now ≤ 2 ^ 11) }
    requires below { AreBelow bits values.now }
    ensures ok { OnOk result (Puts (sink_state (K.held sink.old) (K.taken sink.old)) (sink_state (K.held sink.new) (K.taken sink.new)) (alpha bits values.now)) }
    ensures err { OnErr result (PutsFront (sink_state (K.held sink.old) (K.taken sink.old)) (sink_state (K.held sink.new) (K.taken sink.new)) (alpha bits values.now)) }
    ensures settled { K.settled sink.old ≤ K.settled sink.new }
    ensures cause { CountsFault (K.faults sink.old) (K.faults sink.new) (is_err result) }
{
    let mut writer = BitWriter::new();
    let mut coding = Coding {
        before: greatest_value(bits),
        value: values[0],
        further: 0,
    };
    put_values(&mut coding, &mut writer, sink, bits, &values[1..])?;
    put_row(&mut writer, sink, bits, coding)?;
    writer.pad(sink)
}

/// The number of bytes that `write_alpha` writes.
pub fn alpha_length(values: &[u16], bits: u8) -> u32
    requires width { IsTrue (is_width bits) }
    requires count { (0 < length values.now) × (length values.now ≤ 2 ^ 11) }
    requires below { AreBelow bits values.now }
    ensures { result ≡ length (alpha bits values.now) }
{
    let mut sink = CountSink::new();
    let _ = write_alpha(values, bits, &mut sink);
    sink.taken() as u32
}
