//! Size and error of a choice, and the least number of bytes of a table.

ghost use Rattle.std.specs.Prelude.{◌≡◌, ◌<◌, ◌≤◌, ◌*◌, ◌^◌, length, sum_by, IfSome, IfNone};
ghost use Rattle.std.specs.List.{All, Contains};
ghost use Rattle.rate_table.specs.declared.entry.Entry.{Entry};
ghost use Rattle.rate_table.specs.declared.table.TheConstants.{MAX_TABLE_SLICES};
ghost use Rattle.rate_table.specs.Table.{IsSliceTable, HasSums, HasNoChoice, least, least_bytes};

use crate::entry::Entry;
use crate::priced::least_size;
use crate::table::{FrameTable, SliceTable};

/// The entry with this index, if there is one.
fn entry_at(entries: &[Entry], index: u8) -> Option<Entry>
    ensures some { IfSome result (λ e. Contains entries.now e × (e.index ≡ index)) }
    ensures none { IfNone result ((e : Entry) → Contains entries.now e → e.index ≡ index → ⊥) }
{
    for entry in entries {
        if entry.index == index {
            return Some(*entry);
        }
    }
    None
}

/// The size in bytes, without the fixed bytes, and the error of the choice with these indices, one for each slice;
/// `None` if there is no such choice. The size is below 2^33 and the error below 2^60. Takes no memory.
pub fn total(table: &FrameTable, choice: &[u8]) -> Option<(u64, u64)>
    ensures some { IfSome result (λ sums. HasSums table.now.slices choice.now sums.0 sums.1) }
    ensures none { IfNone result (HasNoChoice table.now.slices choice.now) }
    ensures size { IfSome result (λ sums. sums.0 < 2 ^ 33) }
    ensures error { IfSome result (λ sums. sums.1 < 2 ^ 60) }
{
    part_total(table.slices.as_slice(), choice)
}

/// The size in bytes and the error of the choice with these indices from `slices`, at most
/// [`MAX_TABLE_SLICES`](crate::MAX_TABLE_SLICES) slices; `None` if there is no such choice. The size is below 2^33
/// and the error below 2^60. Takes no memory.
pub fn part_total(slices: &[SliceTable], choice: &[u8]) -> Option<(u64, u64)>
    requires few { length slices.now ≤ MAX_TABLE_SLICES }
    requires each { All IsSliceTable slices.now }
    ensures some { IfSome result (λ sums. HasSums slices.now choice.now sums.0 sums.1) }
    ensures none { IfNone result (HasNoChoice slices.now choice.now) }
    ensures size { IfSome result (λ sums. sums.0 < 2 ^ 33) }
    ensures error { IfSome result (λ sums. sums.1 < 2 ^ 60) }
{
    if slices.len() != choice.len() {
        return None;
    }
    let mut size: u64 = 0;
    let mut error: u64 = 0;
    for i in 0..slices.len() {
        let entry = entry_at(slices[i].entries(), choice[i])?;
        size += u64::from(entry.size);
        error += entry.error;
    }
    Some((size, error))
}

fn least_sum(slices: &[SliceTable]) -> u64
    requires { length slices.now ≤ MAX_TABLE_SLICES }
    ensures value { result ≡ sum_by (least (λ x. x.size)) slices.now }
    ensures small { result ≤ 65535 * length slices.now }
{
    let mut bytes = 0;
    for slice in slices {
        bytes += u64::from(least_size(slice.entries()));
    }
    bytes
}

/// The least number of bytes of a choice: the fixed bytes plus each slice's least size. Takes no memory.
pub fn least(table: &FrameTable) -> u64
    ensures { result ≡ least_bytes table.now }
{
    u64::from(table.fixed) + least_sum(table.slices.as_slice())
}
