//! A table with multiplied errors.

ghost use Rattle.std.specs.Prelude.{◌≡◌, ◌<◌, IfOk, IfSome, map};
ghost use Rattle.std.specs.List.{All};
ghost use Rattle.rate_table.specs.Table.{IsEntry, IsSliceTable};
ghost use Rattle.rate_layers.specs.inner.Multiplied.{counted, counted_slices};

use rate_table::{Entry, FrameTable, SliceTable, Slices};
use std::alloc::{AllocError, Global};

/// The greatest error of an entry.
const MOST: u64 = (1 << 43) - 1;

/// The entry with its error multiplied by `times`, capped at the greatest error.
fn entry_of(x: &Entry, times: u64) -> Entry
    requires { IsEntry x.now }
    ensures counted { result ≡ counted times x.now }
    ensures entry { IsEntry result }
{
    Entry {
        index: x.index,
        size: x.size,
        error: x.error.saturating_mul(times).min(MOST),
    }
}

fn slice_of(entries: &[Entry], times: u64) -> SliceTable
    requires { IsSliceTable entries.now }
    ensures counted { result ≡ map (counted times) entries.now }
    ensures slice { IsSliceTable result }
{
    let mut slice = SliceTable::one(entry_of(&entries[0], times));
    for i in 1..entries.len() {
        slice.add(entry_of(&entries[i], times));
    }
    slice
}

fn slices_of(
    alloc: Global,
    slices: &[SliceTable],
    times: u64,
) -> Result<Vec<SliceTable>, AllocError>
    requires { All IsSliceTable slices.now }
    ensures counted { IfOk result (λ v. v.items ≡ counted_slices times slices.now) }
    ensures each { IfOk result (λ v. All IsSliceTable v.items) }
{
    let mut all = Vec::with_capacity(alloc, slices.len())?;
    for slice in slices {
        all.push(slice_of(slice.entries(), times))?;
    }
    Ok(all)
}

/// The table with the errors of all entries multiplied by `times`, capped at the greatest error of an entry. `None`
/// if memory runs out.
pub fn multiplied(alloc: Global, table: &FrameTable, times: u64) -> Option<FrameTable>
    ensures { IfSome result (λ t. t ≡ record {
      budget = table.now.budget;
      fixed = table.now.fixed;
      slices
          = counted_slices times table.now.slices;
    }) }
{
    let slices = slices_of(alloc, table.slices.as_slice(), times).ok()?;
    Some(FrameTable {
        budget: table.budget,
        fixed: table.fixed,
        slices: Slices::from_vec(slices),
    })
}
