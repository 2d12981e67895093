//! The smallest choice under a cap.

ghost use Rattle.std.specs.Prelude.{◌≡◌, ◌-◌, ◌+◌, ◌<◌, ◌≤◌, ◌^◌, ℕ, List, [], ◌∷◌, IfOk, IfErr, IfSome, IfNone, IsErr, length, map, slice_index_or};
ghost use Rattle.rate_table.specs.declared.entry.Entry.{Entry};
ghost use Rattle.rate_table.specs.Table.{IsTable, IsChoice, size_of, error_of};
ghost use Rattle.rate_layers.specs.declared.fault.BestFault.TheVariants.{LayersFull};
ghost use Rattle.rate_least.specs.declared.outcome.WidePair.{WidePair};
ghost use Rattle.rate_least.specs.Layers.{pairs_in};
ghost use Rattle.rate_least.specs.Held.{AreHeld, IsGreatestMultiplier};
ghost use Rattle.rate_least.specs.inner.Live.{AreFound};
ghost use Rattle.rate_least.specs.Records.{said_by, IsGood};
ghost use Rattle.rate_least.specs.Files.{CanBeSaid, AreWide};
ghost use Rattle.rate_least.specs.Answers.{IsAnswer, PassesByBend, PassesBySmallest, IsWide};

use crate::errors::least_errors;
use crate::held::held_layers;
use crate::live::first_choice;
use crate::multiplier::{bend_size, greatest_multiplier};
use crate::narrowed::narrow;
use crate::outcome::{LeastOutcome, WidePair};
use rate_layers::BestFault;
use rate_table::{FrameTable, least_costs};
use std::alloc::Global;

/// Frontiers, and the pair of the smallest choice, which is the first one of the last frontier.
#[derive(Drop)]
struct Found {
    layers: Vec<Vec<WidePair>>,
    goal: WidePair,
}

/// The first pair of a frontier.
fn first_of(layer: &[WidePair]) -> Option<WidePair>
    ensures some { IfSome result (λ p. (back : List WidePair) × (layer.now ≡ p ∷ back)) }
    ensures none { IfNone result (layer.now ≡ []) }
{
    if 0 < layer.len() {
        Some(layer[0])
    } else {
        None
    }
}

/// The first pair of the last frontier.
fn first_pair(layers: &[Vec<WidePair>]) -> Option<WidePair>
    ensures some { IfSome result (λ p. (back : List WidePair)
        × (slice_index_or (map (λ l. l.items) layers.now) (length layers.now - 1) [] ≡ p ∷ back)) }
    ensures none { IfNone result (slice_index_or (map (λ l. l.items) layers.now) (length layers.now - 1) [] ≡ []) }
{
    match layers.last() {
        Some(layer) => first_of(layer),
        None => None,
    }
}

/// The frontiers held under this size, if a choice that meets the cap has no more size.
fn found_within(
    alloc: Global,
    table: &FrameTable,
    cap: u64,
    multiplier: u64,
    size: u64,
) -> Result<Option<Found>, BestFault>
    ensures some { IfOk result (λ o. IfSome o (λ f. AreFound (record { slices = table.now.slices; cap = cap })
        multiplier size f.goal (map (λ l. l.items) f.layers.items))) }
    ensures none { IfOk result (λ o. IfNone o ((c : List Entry) → IsChoice table.now.slices c → error_of c ≤ cap → size
        < size_of c)) }
    ensures full { IfErr result (λ e. e ≡ LayersFull → (layers : List (List WidePair)) → AreHeld table.now.slices cap
        multiplier size layers → 2 ^ 25 < pairs_in layers) }
{
    let layers = held_layers(alloc, table, cap, multiplier, size)?;
    match first_pair(&layers) {
        Some(goal) if goal.size <= size => Ok(Some(Found { layers, goal })),
        _ => Ok(None),
    }
}

/// If the multiplier isn't 0, a lower bound of the size of a choice that meets the cap: the least Lagrangian costs
/// are at most the cap plus `multiplier` times the size.
fn lower_bound(table: &FrameTable, cap: u64, multiplier: u64) -> u128 {
    let costs = least_costs(table, multiplier).saturating_sub(u128::from(cap));
    costs.div_ceil(u128::from(multiplier.max(1)))
}

/// The size at one `part`-th of the way from `low` to `most`.
fn between(low: u64, most: u64, part: u64) -> u64
    requires order { low ≤ most }
    requires part { 1 ≤ part }
    ensures least { low ≤ result }
    ensures most { result ≤ most }
{
    low + (most - low) / part
}

/// The frontiers held under some size of a choice that meets the cap. Small sizes are tried first: a 4,096th of the
/// way from the lower bound of all sizes to the size of the Lagrangian minimisers, then four times as far each, up
/// to the minimisers' size, which a choice that meets the cap has. No size is tried twice.
fn find(alloc: Global, table: &FrameTable, cap: u64, multiplier: u64) -> Result<Found, BestFault>
    requires { IsGreatestMultiplier table.now.slices cap multiplier }
    ensures found { IfOk result (λ f. (u : ℕ) × AreFound (record { slices = table.now.slices; cap = cap }) multiplier u
        f.goal (map (λ l. l.items) f.layers.items)) }
    ensures full { IfErr result (λ e. e ≡ LayersFull → PassesByBend table.now.slices cap) }
{
    let most = bend_size(table, multiplier);
    let low = lower_bound(table, cap, multiplier).min(u128::from(most)) as u64;
    let mut untried = low;
    for part in [4096, 1024, 256, 64, 16, 4] {
        let size = between(low, most, part);
        if untried <= size {
            let found = found_within(alloc, table, cap, multiplier, size)?;
            if let Some(found) = found {
                return Ok(found);
            }
            untried = size + 1;
        }
    }
    match found_within(alloc, table, cap, multiplier, most)? {
        Some(found) => Ok(found),
        None => unreachable!(),
    }
}

/// The smallest choice of a table with a choice that meets the cap.
fn smallest_fit(alloc: Global, table: &FrameTable, cap: u64) -> Result<LeastOutcome, BestFault>
    requires table { IsTable table.now }
    requires some { (c : List Entry) × IsChoice table.now.slices c × (error_of c ≤ cap) }
    ensures answer { IfOk result (λ o. IsAnswer table.now.slices cap (said_by o)) }
    ensures good { IfOk result (λ o. IsGood table.now.slices cap (said_by o)) }
    ensures said { IfOk result (λ o. CanBeSaid table.now (said_by o)) }
    ensures widths { IfOk result (λ o. AreWide (said_by o)) }
    ensures full_only { IfErr result (λ e. e ≡ LayersFull → PassesByBend table.now.slices cap) }
    ensures full_always { PassesBySmallest table.now.slices cap → IsErr result }
{
    let multiplier = greatest_multiplier(table, cap);
    let Found { mut layers, goal } = find(alloc, table, cap, multiplier)?;
    narrow(table, cap, multiplier, goal, &mut layers);
    let choice = first_choice(alloc, table, &layers, goal)?;
    Ok(LeastOutcome::Fits {
        choice,
        size: goal.size,
        error: goal.error,
        layers,
        multiplier,
    })
}

/// The smallest choice of error at most `cap`: of least size, then of least error, then the first in lexicographic
/// order of its indices; with the Pareto frontiers and the Lagrangian multiplier that prove that none is smaller.
/// `None` if no choice meets the cap. The table's budget and fixed bytes don't matter.
///
/// The errors are `LayersFull` if the frontiers have more than 2^25 pairs, and `NoMemory`.
pub fn smallest(alloc: Global, table: &FrameTable, cap: u64) -> Result<LeastOutcome, BestFault>
    ensures answer { IfOk result (λ o. IsAnswer table.now.slices cap (said_by o)) }
    // The outcome passes all clauses of a certificate, and can be written as one.
    ensures good { IfOk result (λ o. IsGood table.now.slices cap (said_by o)) }
    ensures said { IfOk result (λ o. CanBeSaid table.now (said_by o)) }
    ensures widths { IfOk result (λ o. AreWide (said_by o)) }
    // `LayersFull` is returned only if the frontiers held under the size of the Lagrangian minimisers have more
    // than 2^25 pairs.
    ensures full_only { IfErr result (λ e. e ≡ LayersFull → PassesByBend table.now.slices cap) }
    // If those held under the smallest choice's own size do, the result is `LayersFull` or `NoMemory`.
    ensures full_always { PassesBySmallest table.now.slices cap → IsErr result }
    // It is never returned if there are few sizes and slices.
    ensures full_wide { IfErr result (λ e. e ≡ LayersFull → IsWide table.now.slices) }
{
    let least_error = least_errors(table);
    if cap < least_error {
        return Ok(LeastOutcome::None { least_error });
    }
    smallest_fit(alloc, table, cap)
}
