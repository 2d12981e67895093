//! Reading a component.

ghost use Rattle.std.specs.Prelude.{◌≡◌, ◌+◌, ◌*◌, ◌<◌, ◌≤◌, ◌^◌, ℕ, List, [], ◌∷◌, ◌++◌, Ok, OnOk, IfOk, IfErr, IsSome, false, true, ℤ, pos, ◌+ℤ◌, nat_abs, length, replicate, slice_set};
ghost use Rattle.pw_outside.specs.Ports.{CountsFault, Lowers, GoesOn};
ghost use Rattle.pw_outside.specs.Reading.{bytes_of};
ghost use Rattle.pw_bits.specs.Bits.{bits};
ghost use Rattle.pw_bits.specs.Reading.{unread};
ghost use Rattle.pr_coeff.specs.Component.{places, listed, AreBlocks, Stands};
ghost use Rattle.pr_coeff.specs.Reading.{unfolded, is_small, first_at, firsts_at, all_firsts_at, with_first, values_at, component_at};
ghost use Rattle.pr_coeff.specs.Calls.{IsFault, is_failed};

use crate::books::{book_of_difference, first_book};
use crate::read::{CoeffFault, get_word};
use crate::scan::{Block, Scan};
use crate::triple::{get_triple, signed_level};
use crate::write::{Differences, below_zero, turn};
use pw_bits::BitReader;
use pw_outside::ByteSource;

/// The signed number of a code, which is at most 2^20.
pub fn unfold(code: u32) -> i32
    requires { code ≤ 2 ^ 20 }
    ensures value { result ≡ unfolded code }
    ensures small { nat_abs result ≤ 2 ^ 20 }
{
    if code % 2 == 0 {
        (code / 2) as i32
    } else {
        -((code / 2) as i32) - 1
    }
}

/// A number as a coefficient, which is of magnitude at most 32,767.
fn judge(value: i32) -> Result<i16, CoeffFault>
    requires { nat_abs value ≤ 2 ^ 21 }
    ensures value { IfOk result (λ v. (v ≡ value) × (is_small value ≡ true) × (nat_abs v ≤ 32767)) }
    ensures fault { IfErr result (λ e. (e ≡ CoeffFault.LevelRange) × (is_small value ≡ false)) }
{
    if value.unsigned_abs() <= 32767 {
        Ok(value as i16)
    } else {
        Err(CoeffFault::LevelRange)
    }
}

/// A coefficient and a difference.
fn plus(last: i16, difference: i32) -> i32
    requires last { nat_abs last ≤ 32767 }
    requires difference { nat_abs difference ≤ 2 ^ 20 }
    ensures value { result ≡ last +ℤ difference }
    ensures small { nat_abs result ≤ 2 ^ 21 }
{
    i32::from(last) + difference
}

/// Reads the first DC coefficient.
fn get_first<S: ByteSource>(reader: &mut BitReader, source: &mut S) -> Result<i16, CoeffFault>
    ensures value { IfOk result (λ v. IsSome (S.left source.old) → (k : ℕ) → all_firsts_at (k + 1) (unread reader.old (S.left source.old)) ≡ with_first v (firsts_at k v false 5 (unread reader.new (S.left source.new)))) }
    ensures small { IfOk result (λ v. nat_abs v ≤ 32767) }
    ensures fault { IfErr result (λ e. IsSome (S.left source.old) → (k : ℕ) → IsFault e (all_firsts_at (k + 1) (unread reader.old (S.left source.old)))) }
    ensures told { IsSome (S.left source.old) → IsSome (S.left source.new) }
    ensures most { Lowers (S.most source.old) (S.most source.new) 0 }
    ensures becomes { GoesOn S.becomes source.old source.new }
    ensures cause { CountsFault (S.faults source.old) (S.faults source.new) (is_failed result) }
{
    match get_word(reader, source, first_book()) {
        Ok(code) => judge(unfold(code)),
        Err(fault) => Err(fault),
    }
}

/// Reads a DC coefficient after another.
fn get_difference<S: ByteSource>(
    reader: &mut BitReader,
    source: &mut S,
    differences: &mut Differences,
) -> Result<i16, CoeffFault>
    requires { nat_abs differences.old.last ≤ 32767 }
    ensures value { IfOk result (λ v. IsSome (S.left source.old) → first_at differences.old.last differences.old.negative differences.old.code (unread reader.old (S.left source.old)) ≡ Ok (record { value = v; negative = differences.new.negative; code = differences.new.code; rest = unread reader.new (S.left source.new) })) }
    ensures last { IfOk result (λ v. (differences.new.last ≡ v) × (nat_abs v ≤ 32767)) }
    ensures fault { IfErr result (λ e. IsSome (S.left source.old) → IsFault e (first_at differences.old.last differences.old.negative differences.old.code (unread reader.old (S.left source.old)))) }
    ensures told { IsSome (S.left source.old) → IsSome (S.left source.new) }
    ensures most { Lowers (S.most source.old) (S.most source.new) 0 }
    ensures becomes { GoesOn S.becomes source.old source.new }
    ensures cause { CountsFault (S.faults source.old) (S.faults source.new) (is_failed result) }
{
    match get_word(reader, source, book_of_difference(differences.code)) {
        Ok(code) => {
            let difference = turn(differences.negative, unfold(code));
            match judge(plus(differences.last, difference)) {
                Ok(value) => {
                    differences.last = value;
                    differences.negative = below_zero(difference);
                    differences.code = code;
                    Ok(value)
                }
                Err(fault) => Err(fault),
            }
        }
        Err(fault) => Err(fault),
    }
}

/// Writes a coefficient at an index in scan order, in which each position runs over all blocks.
fn set_value(blocks: &mut [Block], scan: Scan, index: u32, value: i16)
    requires inside { index < 64 * length blocks.old }
    requires few { length blocks.old ≤ 32 }
    requires blocks { AreBlocks blocks.old }
    requires small { nat_abs value ≤ 32767 }
    ensures listed { listed (places scan) blocks.new ≡ slice_set (listed (places scan) blocks.old) index value }
    ensures blocks { AreBlocks blocks.new }
{
    let count = blocks.len() as u32;
    let place = scan.places()[(index / count) as usize];
    blocks[(index % count) as usize][usize::from(place)] = value;
}

/// Sets all coefficients to 0.
fn clear(blocks: &mut [Block])
    ensures blocks { AreBlocks blocks.new }
    ensures zeros { (scan : Scan) → listed (places scan) blocks.new ≡ replicate (64 * length blocks.new) (pos 0) }
{
    for block in blocks.iter_mut() {
        *block = [0; 64];
    }
}

/// Reads the DC coefficients of all blocks, whose coefficients are 0 before.
fn get_firsts<S: ByteSource>(
    reader: &mut BitReader,
    source: &mut S,
    scan: Scan,
    blocks: &mut [Block],
) -> Result<(), CoeffFault>
    requires count { (0 < length blocks.old) × (length blocks.old ≤ 32) }
    requires blocks { AreBlocks blocks.old }
    requires zeros { listed (places scan) blocks.old ≡ replicate (64 * length blocks.old) (pos 0) }
    ensures blocks { OnOk result (AreBlocks blocks.new) }
    ensures value { OnOk result ((ds : List ℤ) × (length ds ≡ length blocks.new) × (listed (places scan) blocks.new ≡ ds ++ replicate (63 * length blocks.new) (pos 0)) × (IsSome (S.left source.old) → all_firsts_at (length blocks.new) (unread reader.old (S.left source.old)) ≡ Ok (ds, unread reader.new (S.left source.new)))) }
    ensures fault { IfErr result (λ e. IsSome (S.left source.old) → IsFault e (all_firsts_at (length blocks.new) (unread reader.old (S.left source.old)))) }
    ensures told { IsSome (S.left source.old) → IsSome (S.left source.new) }
    ensures most { Lowers (S.most source.old) (S.most source.new) 0 }
    ensures becomes { GoesOn S.becomes source.old source.new }
    ensures cause { CountsFault (S.faults source.old) (S.faults source.new) (is_failed result) }
{
    let first = match get_first(reader, source) {
        Ok(value) => value,
        Err(fault) => return Err(fault),
    };
    set_value(blocks, scan, 0, first);
    let mut differences = Differences::behind(first);
    for index in 1..blocks.len() as u32 {
        match get_difference(reader, source, &mut differences) {
            Ok(value) => set_value(blocks, scan, index, value),
            Err(fault) => return Err(fault),
        }
    }
    Ok(())
}

/// Reads the coefficients at the other positions, which are 0 before.
fn get_values<S: ByteSource>(
    reader: &mut BitReader,
    source: &mut S,
    scan: Scan,
    blocks: &mut [Block],
) -> Result<(), CoeffFault>
    requires count { (0 < length blocks.old) × (length blocks.old ≤ 32) }
    requires blocks { AreBlocks blocks.old }
    requires bound { IsSome (S.most source.old) }
    ensures blocks { OnOk result (AreBlocks blocks.new) }
    ensures value { OnOk result ((ds : List ℤ) → length ds ≡ length blocks.new → listed (places scan) blocks.old ≡ ds ++ replicate (63 * length blocks.new) (pos 0) → (vs : List ℤ) × (listed (places scan) blocks.new ≡ ds ++ vs) × (IsSome (S.left source.old) → values_at (63 * length blocks.new + 1) (63 * length blocks.new) 4 2 (unread reader.old (S.left source.old)) ≡ Ok vs)) }
    ensures fault { IfErr result (λ e. IsSome (S.left source.old) → IsFault e (values_at (63 * length blocks.new + 1) (63 * length blocks.new) 4 2 (unread reader.old (S.left source.old)))) }
    ensures told { IsSome (S.left source.old) → IsSome (S.left source.new) }
    ensures most { Lowers (S.most source.old) (S.most source.new) 0 }
    ensures becomes { GoesOn S.becomes source.old source.new }
    ensures cause { CountsFault (S.faults source.old) (S.faults source.new) (is_failed result) }
{
    let count = blocks.len() as u32;
    let mut room = 63 * count;
    let mut run = 4;
    let mut magnitude = 2;
    'triples: loop {
        match get_triple(reader, source, room, run, magnitude) {
            Ok(None) => return Ok(()),
            Ok(Some(triple)) => {
                room -= triple.run + 1;
                let value = signed_level(triple.level, triple.negative);
                set_value(blocks, scan, 64 * count - room - 1, value);
                run = triple.run;
                magnitude = triple.level + 1;
            }
            Err(fault) => return Err(fault),
        }
    }
}

/// Reads the blocks of a component from all remaining bytes of the source. There are 1 to 32 blocks, and the
/// source's contract bounds its number of bytes. After an error the coefficients of the blocks are arbitrary.
pub fn read_component<S: ByteSource>(
    source: &mut S,
    scan: Scan,
    blocks: &mut [Block],
) -> Result<(), CoeffFault>
    requires count { (0 < length blocks.old) × (length blocks.old ≤ 32) }
    requires bound { IsSome (S.most source.old) }
    ensures stands { OnOk result (IsSome (S.left source.old) → Stands (bits (bytes_of (S.left source.old))) blocks.new (places scan)) }
    ensures fault { IfErr result (λ e. IsSome (S.left source.old) → IsFault e (component_at (length blocks.new) (places scan) (bits (bytes_of (S.left source.old))))) }
    ensures blocks { OnOk result (AreBlocks blocks.new) }
    ensures told { IsSome (S.left source.old) → IsSome (S.left source.new) }
    ensures most { Lowers (S.most source.old) (S.most source.new) 0 }
    ensures becomes { GoesOn S.becomes source.old source.new }
    ensures cause { CountsFault (S.faults source.old) (S.faults source.new) (is_failed result) }
{
    clear(blocks);
    let mut reader = BitReader::new();
    match get_firsts(&mut reader, source, scan, blocks) {
        Ok(()) => get_values(&mut reader, source, scan, blocks),
        Err(fault) => Err(fault),
    }
}
