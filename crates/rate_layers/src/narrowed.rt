//! Frontiers under a smaller error.

ghost use Rattle.std.specs.Prelude.{◌≡◌, ℕ, ◌+◌, ◌*◌, map, nat_lt};
ghost use Rattle.std.specs.List.{filter};
ghost use Rattle.rate_layers.specs.inner.Live.{AreFound};

use crate::bound::{Bound, bound_of, is_within};
use rate_table::{FrameTable, Pair, least_cost, least_costs};

/// Removes the pairs of a frontier that the bound prunes, and the spare capacity.
fn keep_within(layer: &mut Vec<Pair>, bound: &Bound)
    ensures { layer.new.items ≡ filter (λ p. nat_lt (p.error + bound.now.multiplier * p.size) bound.now.ceiling)
        layer.old.items }
{
    layer.retain(|p| is_within(bound, u64::from(p.size), p.error));
    layer.shrink_to_fit();
}

/// Removes the pairs that the goal's own error does not keep. The goal stays. Takes no memory.
pub fn narrow(table: &FrameTable, multiplier: u64, goal: Pair, layers: &mut Vec<Vec<Pair>>)
    requires { (u : ℕ) × AreFound table.now multiplier u goal (map (λ l. l.items) layers.old.items) }
    ensures { AreFound table.now multiplier goal.error goal (map (λ l. l.items) layers.new.items) }
{
    let slices = table.slices.as_slice();
    let mut costs = least_costs(table, multiplier);
    let first = bound_of(table, 0, costs, multiplier, goal.error);
    keep_within(&mut layers[0], &first);
    for k in 0..slices.len() {
        costs -= least_cost(slices[k].entries(), multiplier);
        let bound = bound_of(table, 0, costs, multiplier, goal.error);
        keep_within(&mut layers[k + 1], &bound);
    }
}
