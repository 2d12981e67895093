//! The entries of a slice that the bound does not prune with every pair of a frontier.

ghost use Rattle.std.specs.Prelude.{OnOk};
ghost use Rattle.std.specs.List.{All};
ghost use Rattle.rate_table.specs.Table.{IsEntry};
ghost use Rattle.rate_least.specs.Records.{IsNarrow};
ghost use Rattle.rate_least.specs.inner.Covering.{IsSmall};
ghost use Rattle.rate_least.specs.inner.Merge.{Passing};

use crate::bound::Bound;
use crate::covering::least_weight;
use crate::outcome::WidePair;
use rate_table::{Entry, cost_of};
use std::alloc::AllocError;

/// Writes the entries whose own cost plus the least cost of the frontier's pairs stays within the bound. Each other
/// entry is pruned with every pair of the frontier.
pub fn passing(
    few: &mut Vec<Entry>,
    bound: &Bound,
    layer: &[WidePair],
    slice: &[Entry],
) -> Result<(), AllocError>
    requires small { IsSmall bound.now }
    requires narrow { All IsNarrow layer.now }
    requires entries { All IsEntry slice.now }
    ensures ok { OnOk result (Passing bound.now layer.now slice.now few.new.items) }
    ensures entries { OnOk result (All IsEntry few.new.items) }
{
    few.clear();
    let least = least_weight(layer, bound.multiplier) + bound.floor;
    for x in slice {
        if least + cost_of(x, bound.multiplier) <= bound.most {
            few.push(*x)?;
        }
    }
    Ok(())
}
