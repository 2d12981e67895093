//! Least errors of slices.

ghost use Rattle.std.specs.Prelude.{◌≡◌, ◌*◌, ◌<◌, ◌≤◌, ◌^◌, length};
ghost use Rattle.std.specs.List.{All};
ghost use Rattle.rate_table.specs.declared.table.TheConstants.{MAX_TABLE_SLICES};
ghost use Rattle.rate_table.specs.Table.{IsTable, IsSliceTable, IsEntry, least};
ghost use Rattle.rate_least.specs.Pairs.{least_error};

use rate_table::{Entry, FrameTable, SliceTable};

/// The least error of these entries; there is at least one entry.
pub fn least_error_of(entries: &[Entry]) -> u64
    requires some { 1 ≤ length entries.now }
    requires limits { All IsEntry entries.now }
    ensures value { result ≡ least (λ x. x.error) entries.now }
    ensures small { result < 2 ^ 43 }
{
    let mut least = entries[0].error;
    for entry in entries {
        least = least.min(entry.error);
    }
    least
}

fn errors_of(slices: &[SliceTable]) -> u64
    requires few { length slices.now ≤ MAX_TABLE_SLICES }
    requires each { All IsSliceTable slices.now }
    ensures value { result ≡ least_error slices.now }
    ensures small { result ≤ 2 ^ 43 * length slices.now }
{
    let mut errors = 0;
    for slice in slices {
        errors += least_error_of(slice.entries());
    }
    errors
}

/// The sum of the least errors of a table's slices, below 2^61. Takes no memory.
pub fn least_errors(table: &FrameTable) -> u64
    ensures value { result ≡ least_error table.now.slices }
    ensures small { result < 2 ^ 61 }
    // A table is within the limits.
    ensures table { IsTable table.now }
{
    errors_of(table.slices.as_slice())
}
