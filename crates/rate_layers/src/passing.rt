//! The entries of a slice that the bound does not prune with every pair of a frontier.

ghost use Rattle.std.specs.Prelude.{◌+◌, ◌*◌, ◌≤◌, OnOk};
ghost use Rattle.std.specs.List.{All};
ghost use Rattle.rate_table.specs.declared.entry.Pair.{Pair};
ghost use Rattle.rate_table.specs.Table.{IsEntry};
ghost use Rattle.rate_layers.specs.inner.Merge.{IsFloor, Passing};

use crate::bound::Bound;
use rate_table::{Entry, Pair, cost_of};
use std::alloc::AllocError;

/// The least Lagrangian cost of the frontier's pairs by the bound's multiplier, or the ceiling if that is less.
fn floor_of(bound: &Bound, layer: &[Pair]) -> u128
    ensures floor { IsFloor bound.now.multiplier layer.now result }
    ensures ceiling { result ≤ bound.now.ceiling }
{
    let mut floor = bound.ceiling;
    for p in layer {
        let cost = u128::from(p.error) + u128::from(bound.multiplier) * u128::from(p.size);
        floor = floor.min(cost);
    }
    floor
}

/// Writes the entries whose own cost plus the least cost of the frontier's pairs stays within the bound. Each other
/// entry is pruned with every pair of the frontier.
pub fn passing(
    few: &mut Vec<Entry>,
    bound: &Bound,
    layer: &[Pair],
    slice: &[Entry],
) -> Result<(), AllocError>
    requires entries { All IsEntry slice.now }
    ensures ok { OnOk result (Passing bound.now layer.now slice.now few.new.items) }
    ensures entries { OnOk result (All IsEntry few.new.items) }
{
    few.clear();
    let left = bound.ceiling - floor_of(bound, layer);
    for x in slice {
        if cost_of(x, bound.multiplier) < left {
            few.push(*x)?;
        }
    }
    Ok(())
}
