//! The bounds that prune pairs.

ghost use Rattle.std.specs.Prelude.{◌≡◌, ◌+◌, ◌-◌, ◌*◌, ◌<◌, ◌^◌, ◌↔◌, IsTrue};
ghost use Rattle.rate_layers.specs.inner.Bound.{IsSmall};

use rate_table::FrameTable;

/// The bound for pairs with some slices still to come: a pair can fit if its size is below `end`, and survives
/// pruning if its Lagrangian cost is below `ceiling`.
#[derive(Clone, Copy)]
pub struct Bound {
    pub end: u64,
    pub ceiling: u128,
    pub multiplier: u64,
}

/// The bound of slices still to come with these least costs, and with these least sizes including the fixed bytes.
pub fn bound_of(table: &FrameTable, sizes: u64, costs: u128, multiplier: u64, error: u64) -> Bound
    requires { costs < 2 ^ 98 }
    ensures multiplier { result.multiplier ≡ multiplier }
    ensures end { result.end ≡ (table.now.budget + 1) - sizes }
    ensures ceiling { result.ceiling ≡ (error + multiplier * table.now.budget + 1) - (costs + multiplier * table.now.fixed) }
    ensures small { IsSmall result }
{
    let byte = u128::from(multiplier);
    let most = u128::from(error) + byte * u128::from(table.budget) + 1;
    let least = costs + byte * u128::from(table.fixed);
    Bound {
        end: (u64::from(table.budget) + 1).saturating_sub(sizes),
        ceiling: most.saturating_sub(least),
        multiplier,
    }
}

/// Whether a pair of this size and error stays within the bound, that is, is not pruned by it.
pub fn is_within(bound: &Bound, size: u64, error: u64) -> bool
    ensures { IsTrue result ↔ (error + bound.now.multiplier * size < bound.now.ceiling) }
{
    u128::from(error) + u128::from(bound.multiplier) * u128::from(size) < bound.ceiling
}
