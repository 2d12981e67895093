//! Whether each step from a layer to the next is covered.

ghost use Rattle.std.specs.Prelude.{◌≡◌, ◌↔◌, IsTrue, ℕ, List, suc, length, map};
ghost use Rattle.std.specs.List.{All};
ghost use Rattle.rate_table.specs.Pairs.{RisesAndFalls};
ghost use Rattle.rate_table.specs.Records.{AllStep};
ghost use Rattle.rate_check.specs.inner.Printed.{of_layers};

use crate::bound::Bound;
use crate::covering::covers;
use rate_table::{FrameTable, Pair, least, least_cost, least_costs, least_size};

/// Whether each pair of each layer, joined with each entry of its slice, is dominated by a pair of the next layer,
/// cannot fit with the slices still to come, or is pruned by the bound of the multiplier and the error.
pub fn all_step(table: &FrameTable, layers: &[Vec<Pair>], multiplier: u64, error: u64) -> bool
    requires count { length layers.now ≡ suc (length table.now.slices) }
    requires order { All RisesAndFalls (map (λ l. l.items) layers.now) }
    ensures { (choice : List ℕ) (size : ℕ) → IsTrue result ↔ AllStep table.now
        (of_layers choice size error multiplier (map (λ l. l.items) layers.now)) table.now.slices
        (map (λ l. l.items) layers.now) }
{
    let slices = table.slices.as_slice();
    let byte = u128::from(multiplier);
    let fixed = byte * u128::from(table.fixed);
    let most = u128::from(error) + byte * u128::from(table.budget);
    let mut taken = least(table);
    let mut costs = least_costs(table, multiplier);
    for k in 0..slices.len() {
        let entries = slices[k].entries();
        taken -= u64::from(least_size(entries));
        costs -= least_cost(entries, multiplier);
        let bound = Bound {
            taken,
            budget: u64::from(table.budget),
            floor: costs + fixed,
            most,
            multiplier,
        };
        if !covers(&bound, &layers[k], entries, &layers[k + 1]) {
            return false;
        }
    }
    true
}
