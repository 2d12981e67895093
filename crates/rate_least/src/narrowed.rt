//! Frontiers under a smaller size.

ghost use Rattle.std.specs.Prelude.{◌≡◌, ◌+◌, ◌*◌, ◌<◌, ◌↔◌, IsTrue, ℕ, map, nat_lt};
ghost use Rattle.std.specs.List.{filter};
ghost use Rattle.rate_least.specs.inner.Live.{AreFound};

use crate::outcome::WidePair;
use rate_table::{FrameTable, least_cost, least_costs};

/// Whether a pair's Lagrangian cost is less than the ceiling.
fn is_within(pair: &WidePair, multiplier: u64, ceiling: u128) -> bool
    ensures { IsTrue result ↔ (pair.now.error + multiplier * pair.now.size < ceiling) }
{
    u128::from(pair.error) + u128::from(multiplier) * u128::from(pair.size) < ceiling
}

/// Removes the pairs of a frontier whose cost is not less than the ceiling, and the spare capacity.
fn keep_within(layer: &mut Vec<WidePair>, multiplier: u64, ceiling: u128)
    ensures { layer.new.items ≡ filter (λ p. nat_lt (p.error + multiplier * p.size) ceiling) layer.old.items }
{
    layer.retain(|p| is_within(p, multiplier, ceiling));
    layer.shrink_to_fit();
}

/// Removes the pairs that are not held under the goal's own size. The goal stays. Takes no memory.
pub fn narrow(
    table: &FrameTable,
    cap: u64,
    multiplier: u64,
    goal: WidePair,
    layers: &mut Vec<Vec<WidePair>>,
)
    requires { (u : ℕ) × AreFound (record { slices = table.now.slices; cap = cap }) multiplier u goal
        (map (λ l. l.items) layers.old.items) }
    ensures { AreFound (record { slices = table.now.slices; cap = cap }) multiplier goal.size goal
        (map (λ l. l.items) layers.new.items) }
{
    let slices = table.slices.as_slice();
    let most = u128::from(cap) + u128::from(multiplier) * u128::from(goal.size) + 1;
    let mut costs = least_costs(table, multiplier);
    keep_within(&mut layers[0], multiplier, most.saturating_sub(costs));
    for k in 0..slices.len() {
        costs -= least_cost(slices[k].entries(), multiplier);
        keep_within(&mut layers[k + 1], multiplier, most.saturating_sub(costs));
    }
}
