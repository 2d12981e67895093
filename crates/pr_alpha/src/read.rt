//! Reading alpha values.

ghost use Rattle.std.specs.Prelude.{◌≡◌, ℕ, ◌+◌, ◌-◌, ◌^◌, ◌<◌, ◌≤◌, Bool, true, [], ◌∷◌, ◌++◌, Ok, IfOk, IfErr, OnOk, IsSome, IsTrue, length, take, drop, replicate};
ghost use Rattle.pw_outside.specs.Ports.{CountsFault, Lowers, GoesOn};
ghost use Rattle.pw_outside.specs.Reading.{bytes_of};
ghost use Rattle.pw_bits.specs.Bits.{bits as bits_of_bytes};
ghost use Rattle.pw_bits.specs.Reading.{unread};
ghost use Rattle.pr_alpha.specs.Alpha.{is_width, greatest, moved, AreBelow, Stands};
ghost use Rattle.pr_alpha.specs.Reading.{number_at, size_behind, numbered, value_behind, run_at, step_behind, values_at, alpha_at};
ghost use Rattle.pr_alpha.specs.Calls.{IsFault, IsEnd, is_failed};

use crate::width::{greatest_value, size_of_short};
use pw_bits::{BitFault, BitReader};
use pw_outside::ByteSource;

/// Why alpha values are not read.
#[derive(Clone, Copy, Debug, PartialEq, Eq)]
pub enum AlphaFault {
    /// The bits end before all values are known.
    AlphaShort,
    /// A run passes the number of values.
    AlphaPast,
    /// The source failed.
    Failed,
}

/// A value, and its number of repetitions.
#[derive(Clone, Copy)]
struct Row {
    value: u16,
    count: usize,
}

/// The next bit.
fn get_bit<S: ByteSource>(reader: &mut BitReader, source: &mut S) -> Result<bool, AlphaFault>
    ensures value { IfOk result (λ b. IsSome (S.left source.old) → unread reader.old (S.left source.old) ≡ b ∷ unread reader.new (S.left source.new)) }
    ensures fault { IfErr result (λ e. IsSome (S.left source.old) → IsEnd e (unread reader.old (S.left source.old))) }
    ensures told { IsSome (S.left source.old) → IsSome (S.left source.new) }
    ensures most { Lowers (S.most source.old) (S.most source.new) 0 }
    ensures becomes { GoesOn S.becomes source.old source.new }
    ensures cause { CountsFault (S.faults source.old) (S.faults source.new) (is_failed result) }
{
    match reader.bit(source) {
        Ok(bit) => Ok(bit),
        Err(BitFault::End) => Err(AlphaFault::AlphaShort),
        Err(BitFault::Failed) => Err(AlphaFault::Failed),
    }
}

/// The number of the next bits, at most 32.
fn get_number<S: ByteSource>(
    reader: &mut BitReader,
    source: &mut S,
    size: u8,
) -> Result<u32, AlphaFault>
    requires { size ≤ 32 }
    ensures value { IfOk result (λ n. IsSome (S.left source.old) → number_at size (unread reader.old (S.left source.old)) ≡ Ok (n, unread reader.new (S.left source.new))) }
    ensures fits { IfOk result (λ n. n < 2 ^ size) }
    ensures fault { IfErr result (λ e. IsSome (S.left source.old) → IsFault e (number_at size (unread reader.old (S.left source.old)))) }
    ensures told { IsSome (S.left source.old) → IsSome (S.left source.new) }
    ensures most { Lowers (S.most source.old) (S.most source.new) 0 }
    ensures becomes { GoesOn S.becomes source.old source.new }
    ensures cause { CountsFault (S.faults source.old) (S.faults source.new) (is_failed result) }
{
    match reader.bits(source, size) {
        Ok(number) => Ok(number),
        Err(BitFault::End) => Err(AlphaFault::AlphaShort),
        Err(BitFault::Failed) => Err(AlphaFault::Failed),
    }
}

/// The number of bits of a difference after its first bit.
fn size_after(bits: u8, long: bool) -> u8
    requires { IsTrue (is_width bits) }
    ensures size { result ≡ size_behind bits long }
    ensures small { result ≤ 16 }
{
    if long { bits } else { size_of_short(bits) + 1 }
}

/// The value at a difference from the one before, by the difference's number.
fn move_on(bits: u8, before: u16, long: bool, number: u32) -> u16
    requires width { IsTrue (is_width bits) }
    requires before { before < 2 ^ bits }
    requires number { number < 2 ^ size_behind bits long }
    ensures value { result ≡ moved bits before (numbered long number) }
    ensures below { result < 2 ^ bits }
{
    let modulus = 1 << bits;
    let ahead = if long {
        number
    } else if number % 2 == 0 {
        number / 2 + 1
    } else {
        modulus - (number / 2 + 1)
    };
    ((u32::from(before) + ahead) % modulus) as u16
}

/// Reads the rest of a difference, whose first bit was taken: returns the value at this difference from the one
/// before.
fn get_value<S: ByteSource>(
    reader: &mut BitReader,
    source: &mut S,
    bits: u8,
    before: u16,
    long: bool,
) -> Result<u16, AlphaFault>
    requires width { IsTrue (is_width bits) }
    requires before { before < 2 ^ bits }
    ensures value { IfOk result (λ v. IsSome (S.left source.old) → value_behind bits before long (unread reader.old (S.left source.old)) ≡ Ok (v, unread reader.new (S.left source.new))) }
    ensures below { IfOk result (λ v. v < 2 ^ bits) }
    ensures fault { IfErr result (λ e. IsSome (S.left source.old) → IsFault e (value_behind bits before long (unread reader.old (S.left source.old)))) }
    ensures told { IsSome (S.left source.old) → IsSome (S.left source.new) }
    ensures most { Lowers (S.most source.old) (S.most source.new) 0 }
    ensures becomes { GoesOn S.becomes source.old source.new }
    ensures cause { CountsFault (S.faults source.old) (S.faults source.new) (is_failed result) }
{
    match get_number(reader, source, size_after(bits, long)) {
        Ok(number) => Ok(move_on(bits, before, long, number)),
        Err(fault) => Err(fault),
    }
}

/// Reads a run: the number of further equal values.
fn get_run<S: ByteSource>(reader: &mut BitReader, source: &mut S) -> Result<u32, AlphaFault>
    ensures value { IfOk result (λ k. IsSome (S.left source.old) → run_at (unread reader.old (S.left source.old)) ≡ Ok (k, unread reader.new (S.left source.new))) }
    ensures fault { IfErr result (λ e. IsSome (S.left source.old) → IsFault e (run_at (unread reader.old (S.left source.old)))) }
    ensures told { IsSome (S.left source.old) → IsSome (S.left source.new) }
    ensures most { Lowers (S.most source.old) (S.most source.new) 0 }
    ensures becomes { GoesOn S.becomes source.old source.new }
    ensures cause { CountsFault (S.faults source.old) (S.faults source.new) (is_failed result) }
{
    match get_bit(reader, source) {
        Ok(true) => return Ok(0),
        Ok(false) => {}
        Err(fault) => return Err(fault),
    }
    match get_number(reader, source, 4) {
        Ok(0) => get_number(reader, source, 11),
        Ok(run) => Ok(run),
        Err(fault) => Err(fault),
    }
}

/// Reads the rest of a step, whose first bit was taken: a difference and, if values are missing after it, a run.
fn get_row<S: ByteSource>(
    reader: &mut BitReader,
    source: &mut S,
    bits: u8,
    before: u16,
    wanting: usize,
    long: bool,
) -> Result<Row, AlphaFault>
    requires width { IsTrue (is_width bits) }
    requires before { before < 2 ^ bits }
    requires wanting { 0 < wanting }
    ensures value { IfOk result (λ r. IsSome (S.left source.old) → step_behind bits before wanting long (unread reader.old (S.left source.old)) ≡ Ok (record { value = r.value; count = r.count; rest = unread reader.new (S.left source.new) })) }
    ensures inside { IfOk result (λ r. (r.value < 2 ^ bits) × (0 < r.count) × (r.count ≤ wanting)) }
    ensures fault { IfErr result (λ e. IsSome (S.left source.old) → IsFault e (step_behind bits before wanting long (unread reader.old (S.left source.old)))) }
    ensures told { IsSome (S.left source.old) → IsSome (S.left source.new) }
    ensures most { Lowers (S.most source.old) (S.most source.new) 0 }
    ensures becomes { GoesOn S.becomes source.old source.new }
    ensures cause { CountsFault (S.faults source.old) (S.faults source.new) (is_failed result) }
{
    let value = match get_value(reader, source, bits, before, long) {
        Ok(value) => value,
        Err(fault) => return Err(fault),
    };
    if wanting <= 1 {
        return Ok(Row { value, count: 1 });
    }
    match get_run(reader, source) {
        Ok(run) => row_of(value, run, wanting),
        Err(fault) => Err(fault),
    }
}

/// A value and its run, which is validated against the number of missing values.
fn row_of(value: u16, run: u32, wanting: usize) -> Result<Row, AlphaFault>
    ensures value { IfOk result (λ r. (r.value ≡ value) × (r.count ≡ run + 1) × (run < wanting)) }
    ensures fault { IfErr result (λ e. (e ≡ AlphaFault.AlphaPast) × (wanting ≤ run)) }
{
    let run = run as usize;
    if run < wanting {
        Ok(Row {
            value,
            count: run + 1,
        })
    } else {
        Err(AlphaFault::AlphaPast)
    }
}

/// Writes the value of `row` `row.count` times, from index `from` on.
fn set_row(values: &mut [u16], from: usize, row: Row)
    requires { from + row.count ≤ length values.old }
    ensures { values.new ≡ take from values.old ++ (replicate row.count row.value ++ drop (from + row.count) values.old) }
{
    values[from..from + row.count].fill(row.value);
}

/// Reads values; the first bit of their first difference was taken.
fn get_values<S: ByteSource>(
    reader: &mut BitReader,
    source: &mut S,
    bits: u8,
    first: bool,
    values: &mut [u16],
) -> Result<(), AlphaFault>
    requires width { IsTrue (is_width bits) }
    requires some { 0 < length values.old }
    ensures value { OnOk result (IsSome (S.left source.old) → values_at (length values.new) bits (greatest bits) (length values.new) (first ∷ unread reader.old (S.left source.old)) ≡ Ok values.new) }
    ensures below { OnOk result (AreBelow bits values.new) }
    ensures fault { IfErr result (λ e. IsSome (S.left source.old) → IsFault e (values_at (length values.new) bits (greatest bits) (length values.new) (first ∷ unread reader.old (S.left source.old)))) }
    ensures told { IsSome (S.left source.old) → IsSome (S.left source.new) }
    ensures most { Lowers (S.most source.old) (S.most source.new) 0 }
    ensures becomes { GoesOn S.becomes source.old source.new }
    ensures cause { CountsFault (S.faults source.old) (S.faults source.new) (is_failed result) }
{
    let mut long = first;
    let mut last = greatest_value(bits);
    let mut done = 0;
    'rows: loop {
        match get_row(reader, source, bits, last, values.len() - done, long) {
            Ok(row) => {
                set_row(values, done, row);
                done += row.count;
                last = row.value;
            }
            Err(fault) => return Err(fault),
        }
        if done == values.len() {
            return Ok(());
        }
        match get_bit(reader, source) {
            Ok(bit) => long = bit,
            Err(fault) => return Err(fault),
        }
    }
}

/// Reads 1 to 2,048 values of 8 or 16 bits from all remaining bytes of the source. Data of no bytes stands for the
/// greatest value everywhere. The bits after the last value are skipped. After an error the values are arbitrary.
pub fn read_alpha<S: ByteSource>(
    source: &mut S,
    bits: u8,
    values: &mut [u16],
) -> Result<(), AlphaFault>
    requires width { IsTrue (is_width bits) }
    requires count { (0 < length values.old) × (length values.old ≤ 2 ^ 11) }
    ensures stands { OnOk result (IsSome (S.left source.old) → Stands (bits_of_bytes (bytes_of (S.left source.old))) values.new bits) }
    ensures fault { IfErr result (λ e. IsSome (S.left source.old) → IsFault e (alpha_at (length values.new) bits (bits_of_bytes (bytes_of (S.left source.old))))) }
    ensures below { OnOk result (AreBelow bits values.new) }
    ensures told { IsSome (S.left source.old) → IsSome (S.left source.new) }
    ensures most { Lowers (S.most source.old) (S.most source.new) 0 }
    ensures becomes { GoesOn S.becomes source.old source.new }
    ensures cause { CountsFault (S.faults source.old) (S.faults source.new) (is_failed result) }
{
    let mut reader = BitReader::new();
    match reader.bit(source) {
        Ok(first) => get_values(&mut reader, source, bits, first, values),
        Err(BitFault::End) => {
            values.fill(greatest_value(bits));
            Ok(())
        }
        Err(BitFault::Failed) => Err(AlphaFault::Failed),
    }
}
