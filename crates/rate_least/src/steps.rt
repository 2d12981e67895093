//! Whether each step from a layer to the next is covered.

ghost use Rattle.std.specs.Prelude.{◌≡◌, ◌<◌, ◌^◌, ◌↔◌, IsTrue, ℕ, List, suc, length, map};
ghost use Rattle.std.specs.List.{All};
ghost use Rattle.rate_least.specs.Pairs.{RisesAndFalls};
ghost use Rattle.rate_least.specs.Records.{IsNarrow, AllStep};
ghost use Rattle.rate_least.specs.inner.Printed.{of_layers};

use crate::bound::Bound;
use crate::covering::covers;
use crate::errors::{least_error_of, least_errors};
use crate::outcome::WidePair;
use rate_table::{FrameTable, least_cost, least_costs};

/// Whether each pair of each layer, joined with each entry of its slice, is dominated by a pair of the next layer,
/// cannot meet the cap with the slices still to come, or is pruned by the bound of the multiplier and the size.
pub fn all_step(
    table: &FrameTable,
    cap: u64,
    layers: &[Vec<WidePair>],
    multiplier: u64,
    size: u64,
) -> bool
    requires count { length layers.now ≡ suc (length table.now.slices) }
    requires size { size < 2 ^ 34 }
    requires order { All RisesAndFalls (map (λ l. l.items) layers.now) }
    requires narrow { All (λ layer. All IsNarrow layer) (map (λ l. l.items) layers.now) }
    ensures { (choice : List ℕ) (error : ℕ) → IsTrue result ↔ AllStep cap
        (of_layers choice size error multiplier (map (λ l. l.items) layers.now)) table.now.slices
        (map (λ l. l.items) layers.now) }
{
    let slices = table.slices.as_slice();
    let most = u128::from(cap) + u128::from(multiplier) * u128::from(size);
    let mut errors = least_errors(table);
    let mut costs = least_costs(table, multiplier);
    for k in 0..slices.len() {
        let entries = slices[k].entries();
        errors -= least_error_of(entries);
        costs -= least_cost(entries, multiplier);
        let bound = Bound {
            errors,
            cap,
            floor: costs,
            most,
            multiplier,
        };
        if !covers(&bound, &layers[k], entries, &layers[k + 1]) {
            return false;
        }
    }
    true
}
