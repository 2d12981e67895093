//! Least sizes and least Lagrangian costs of slices.

ghost use Rattle.std.specs.Prelude.{◌≡◌, ◌+◌, ◌*◌, ◌<◌, ◌≤◌, ◌^◌, length};
ghost use Rattle.std.specs.List.{All};
ghost use Rattle.rate_table.specs.declared.table.TheConstants.{MAX_TABLE_SLICES};
ghost use Rattle.rate_table.specs.Table.{IsSliceTable, least};
ghost use Rattle.rate_table.specs.Pairs.{cost, rest};

use crate::entry::Entry;
use crate::table::{FrameTable, SliceTable};

/// The Lagrangian cost of an entry: its error plus `multiplier` times its size. Below 2^81.
pub fn cost_of(entry: &Entry, multiplier: u64) -> u128
    ensures value { result ≡ cost multiplier entry.now }
    ensures small { result < 2 ^ 81 }
{
    u128::from(entry.error) + u128::from(multiplier) * u128::from(entry.size)
}

/// The least size of these entries, in bytes; there is at least one entry.
pub fn least_size(entries: &[Entry]) -> u16
    requires { 1 ≤ length entries.now }
    ensures { result ≡ least (λ x. x.size) entries.now }
{
    let mut least = entries[0].size;
    for entry in entries {
        least = least.min(entry.size);
    }
    least
}

/// The least Lagrangian cost of these entries; there is at least one entry. Below 2^81.
pub fn least_cost(entries: &[Entry], multiplier: u64) -> u128
    requires { 1 ≤ length entries.now }
    ensures value { result ≡ least (cost multiplier) entries.now }
    ensures small { result < 2 ^ 81 }
{
    let mut least = cost_of(&entries[0], multiplier);
    for entry in entries {
        least = least.min(cost_of(entry, multiplier));
    }
    least
}

fn costs_of(slices: &[SliceTable], multiplier: u64) -> u128
    requires few { length slices.now ≤ MAX_TABLE_SLICES }
    requires each { All IsSliceTable slices.now }
    ensures value { result ≡ rest multiplier slices.now }
    ensures small { result ≤ 2 ^ 81 * length slices.now }
{
    let mut costs = 0;
    for slice in slices {
        costs += least_cost(slice.entries(), multiplier);
    }
    costs
}

/// The sum of the least Lagrangian costs of a table's slices. Below 2^98. Takes no memory.
pub fn least_costs(table: &FrameTable, multiplier: u64) -> u128
    ensures value { result ≡ rest multiplier table.now.slices }
    ensures small { result < 2 ^ 98 }
{
    costs_of(table.slices.as_slice(), multiplier)
}
