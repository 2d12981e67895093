//! Reads tables from a source.

ghost use Rattle.std.specs.Prelude.{◌≡◌, ◌+◌, ◌<◌, ◌≤◌, ◌^◌, length, IfOk, OnOk};
ghost use Rattle.std.specs.List.{All};
ghost use Rattle.std.specs.Io.KnownBytes.{IsAtEnd};
ghost use Rattle.pw_outside.specs.Ports.{CountsFault, GoesOn};
ghost use Rattle.pw_outside.specs.Reading.{Gives, GivesValue, Answers, Told};
ghost use Rattle.rate_table.specs.declared.table.TheConstants.{MAX_TABLE_SLICES, MAX_TABLE_BYTES};
ghost use Rattle.rate_table.specs.Reading.{told_fault, entry_at, entries_at, slice_at, slices_at, body_at, table_at, tabled, is_failed};
ghost use Rattle.rate_table.specs.Table.{IsEntry, IndicesRise, IsSliceTable, IsTable};

use crate::entry::Entry;
use crate::fault::{ProofKind, TableFault, bad};
use crate::field::{read_u8, read_u16, read_u32, read_u64};
use crate::table::{FrameTable, MAX_TABLE_SLICES, SliceTable, Slices};
use arrayvec::ArrayVec;
use pw_outside::{ByteSource, fill};
use std::alloc::Global;

// `PWTB`
const MAGIC: u32 = 0x5057_5442;

// The error if the input ends within a field of a table.
const SHORT: ProofKind = ProofKind::TableShort;

/// Reads the next entry; its index must be above `low`.
#[tactic(auto, unfolding(crate::specs::Reading::entry_at, pw_outside::specs::Reading::bind))]
fn entry_of<S: ByteSource>(source: &mut S, place: &mut u64, low: u8) -> Result<Entry, TableFault>
    requires { place.old + 11 < 2 ^ 64 }
    ensures bytes { Gives told_fault (λ x. x) (S.left source.old) (S.left source.new) place.old place.new result
        (entry_at low) }
    ensures above { IfOk result (λ e. low < e.index) }
    ensures entry { IfOk result IsEntry }
    ensures place { place.new ≤ place.old + 11 }
    ensures becomes { GoesOn S.becomes source.old source.new }
    ensures cause { CountsFault (S.faults source.old) (S.faults source.new) (is_failed result) }
{
    let at = *place;
    let index = read_u8(source, place, SHORT)?;
    if index == 0 || 224 < index {
        return Err(bad(ProofKind::TableLimit, at));
    }
    if index <= low {
        return Err(bad(ProofKind::TableOrder, at));
    }
    let size = read_u16(source, place, SHORT)?;
    let at = *place;
    let error = read_u64(source, place, SHORT)?;
    if error >= 1 << 43 {
        return Err(bad(ProofKind::TableLimit, at));
    }
    Ok(Entry { index, size, error })
}

#[tactic(auto, using(pw_outside::proofs::Chains::with_front_nil))]
fn entries_of<S: ByteSource>(
    source: &mut S,
    place: &mut u64,
    count: u8,
) -> Result<ArrayVec<Entry, 224>, TableFault>
    requires few { count ≤ 224 }
    requires room { place.old + 2464 < 2 ^ 64 }
    ensures bytes { Gives told_fault (λ v. v.items) (S.left source.old) (S.left source.new) place.old place.new result
        (entries_at count 0) }
    ensures count { IfOk result (λ v. length v.items ≡ count) }
    ensures rises { IfOk result (λ v. IndicesRise v.items) }
    ensures limits { IfOk result (λ v. All IsEntry v.items) }
    ensures place { place.new ≤ place.old + 2464 }
    ensures becomes { GoesOn S.becomes source.old source.new }
    ensures cause { CountsFault (S.faults source.old) (S.faults source.new) (is_failed result) }
{
    let mut entries: ArrayVec<Entry, 224> = ArrayVec::new();
    let mut low = 0;
    for _ in 0..count {
        let entry = entry_of(source, place, low)?;
        entries.push(entry);
        low = entry.index;
    }
    Ok(entries)
}

#[tactic(auto, unfolding(crate::specs::Reading::slice_at, pw_outside::specs::Reading::bind))]
fn slice_of<S: ByteSource>(source: &mut S, place: &mut u64) -> Result<SliceTable, TableFault>
    requires { place.old + 2465 < 2 ^ 64 }
    ensures bytes { Gives told_fault (λ t. t) (S.left source.old) (S.left source.new) place.old place.new result
        slice_at }
    ensures slice { IfOk result IsSliceTable }
    ensures place { place.new ≤ place.old + 2465 }
    ensures becomes { GoesOn S.becomes source.old source.new }
    ensures cause { CountsFault (S.faults source.old) (S.faults source.new) (is_failed result) }
{
    let at = *place;
    let count = read_u8(source, place, SHORT)?;
    if count == 0 {
        return Err(bad(ProofKind::TableEmpty, at));
    }
    if 224 < count {
        return Err(bad(ProofKind::TableLimit, at));
    }
    let entries = entries_of(source, place, count)?;
    Ok(SliceTable::of(entries))
}

#[tactic(auto, using(pw_outside::proofs::Chains::with_front_nil))]
fn slices_of<S: ByteSource>(
    alloc: Global,
    source: &mut S,
    place: &mut u64,
    count: u32,
) -> Result<Vec<SliceTable>, TableFault>
    requires few { count ≤ MAX_TABLE_SLICES }
    requires room { place.old < 2 ^ 63 + 100 }
    ensures bytes { Gives told_fault (λ v. v.items) (S.left source.old) (S.left source.new) place.old place.new result
        (slices_at count) }
    ensures count { IfOk result (λ v. length v.items ≡ count) }
    ensures each { IfOk result (λ v. All IsSliceTable v.items) }
    ensures place { place.new ≤ place.old + 323087550 }
    ensures becomes { GoesOn S.becomes source.old source.new }
    ensures cause { CountsFault (S.faults source.old) (S.faults source.new) (is_failed result) }
{
    let mut slices = Vec::new(alloc);
    for _ in 0..count {
        let slice = slice_of(source, place)?;
        slices.push(slice)?;
    }
    Ok(slices)
}

/// Reads the body of a table at offset `place` of its file and advances `place` past it.
///
/// The errors are those of [`read_body`]. A body has at most [`MAX_TABLE_BYTES`](crate::MAX_TABLE_BYTES) bytes.
#[tactic(auto, unfolding(crate::specs::Reading::body_at, pw_outside::specs::Reading::bind))]
pub fn read_body_on<S: ByteSource>(
    alloc: Global,
    source: &mut S,
    place: &mut u64,
) -> Result<FrameTable, TableFault>
    requires { place.old < 2 ^ 63 + 50 }
    // If the source's bytes are visible, the result is the body that they begin with, or their first error.
    ensures bytes { Gives told_fault (λ t. t) (S.left source.old) (S.left source.new) place.old place.new result
        body_at }
    ensures table { IfOk result IsTable }
    ensures place { place.new ≤ place.old + MAX_TABLE_BYTES }
    ensures becomes { GoesOn S.becomes source.old source.new }
    // The error is `Failed` exactly if a call of the source failed.
    ensures cause { CountsFault (S.faults source.old) (S.faults source.new) (is_failed result) }
{
    let at = *place;
    let budget = read_u32(source, place, SHORT)?;
    if budget == 0 || budget >= 1 << 31 {
        return Err(bad(ProofKind::TableLimit, at));
    }
    let at = *place;
    let fixed = read_u32(source, place, SHORT)?;
    if fixed >= 1 << 31 {
        return Err(bad(ProofKind::TableLimit, at));
    }
    let at = *place;
    let count = read_u32(source, place, SHORT)?;
    if count == 0 {
        return Err(bad(ProofKind::TableEmpty, at));
    }
    if MAX_TABLE_SLICES < count {
        return Err(bad(ProofKind::TableLimit, at));
    }
    let slices = slices_of(alloc, source, place, count)?;
    Ok(FrameTable {
        budget,
        fixed,
        slices: Slices::from_vec(slices),
    })
}

#[tactic(auto, unfolding(crate::specs::Reading::table_at, pw_outside::specs::Reading::bind))]
fn table_of<S: ByteSource>(
    alloc: Global,
    source: &mut S,
    place: &mut u64,
) -> Result<FrameTable, TableFault>
    requires { place.old ≡ 0 }
    ensures bytes { Gives told_fault (λ t. t) (S.left source.old) (S.left source.new) place.old place.new result
        table_at }
    ensures table { IfOk result IsTable }
    ensures becomes { GoesOn S.becomes source.old source.new }
    ensures cause { CountsFault (S.faults source.old) (S.faults source.new) (is_failed result) }
{
    let magic = read_u32(source, place, SHORT)?;
    if magic != MAGIC {
        return Err(bad(ProofKind::TableMagic, 0));
    }
    let at = *place;
    let version = read_u8(source, place, SHORT)?;
    if version != 1 {
        return Err(bad(ProofKind::TableMagic, at));
    }
    read_body_on(alloc, source, place)
}

/// Reads the body of a table at offset `place` of its file.
///
/// The errors are `Bad` with the first error of the bytes, `Failed` if a call of the source failed, and `NoMemory`.
/// After a table, the source is at the first byte after its body.
pub fn read_body<S: ByteSource>(
    alloc: Global,
    source: &mut S,
    place: u64,
) -> Result<FrameTable, TableFault>
    requires { place ≤ 2 ^ 63 }
    // If the source's bytes are visible, the result is the body that they begin with, or their first error.
    ensures bytes { GivesValue told_fault (λ t. t) (S.left source.old) (S.left source.new) place result body_at }
    ensures table { IfOk result IsTable }
    ensures becomes { GoesOn S.becomes source.old source.new }
    // The error is `Failed` exactly if a call of the source failed.
    ensures cause { CountsFault (S.faults source.old) (S.faults source.new) (is_failed result) }
{
    let mut place = place;
    read_body_on(alloc, source, &mut place)
}

/// Reads a table file up to the end of its body.
///
/// The errors are those of [`read_body`].
pub fn read_table<S: ByteSource>(alloc: Global, source: &mut S) -> Result<FrameTable, TableFault>
    // If the source's bytes are visible, the result is the table that they begin with, or their first error.
    ensures bytes { GivesValue told_fault (λ t. t) (S.left source.old) (S.left source.new) 0 result table_at }
    ensures table { IfOk result IsTable }
    ensures becomes { GoesOn S.becomes source.old source.new }
    // The error is `Failed` exactly if a call of the source failed.
    ensures cause { CountsFault (S.faults source.old) (S.faults source.new) (is_failed result) }
{
    let mut place = 0;
    table_of(alloc, source, &mut place)
}

/// Reads a whole table file.
///
/// The errors are those of [`read_body`]; a byte after the body is `Bad` with `TableTrailing`.
#[tactic(auto, unfolding(crate::specs::Reading::tabled, pw_outside::specs::Reading::bind))]
pub fn read_file<S: ByteSource>(alloc: Global, source: &mut S) -> Result<FrameTable, TableFault>
    // If the source's bytes are visible, the result is the table that they are, or their first error.
    ensures bytes { Told (S.left source.old) (λ bytes. Answers told_fault (λ t. t) result (tabled bytes)) }
    ensures table { IfOk result IsTable }
    // A table is returned only if the input was read to its end.
    ensures end { OnOk result (IsAtEnd (S.left source.new)) }
    ensures becomes { GoesOn S.becomes source.old source.new }
    // The error is `Failed` exactly if a call of the source failed.
    ensures cause { CountsFault (S.faults source.old) (S.faults source.new) (is_failed result) }
{
    let mut place = 0;
    let table = table_of(alloc, source, &mut place)?;
    let mut byte = [0u8; 1];
    let count = fill(source, &mut byte)?;
    if 0 < count {
        return Err(bad(ProofKind::TableTrailing, place));
    }
    Ok(table)
}
