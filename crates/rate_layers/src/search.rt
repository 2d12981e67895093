//! The best choice of a table.

ghost use Rattle.std.specs.Prelude.{◌≡◌, ◌≢◌, ◌+◌, ◌-◌, ◌*◌, ◌<◌, ◌≤◌, ◌^◌, ℕ, List, [], ◌∷◌, ◌++◌, IfOk, IfErr, IfSome, IfNone, IsErr, Err, length, map, slice_index_or};
ghost use Rattle.rate_table.specs.declared.entry.Entry.{Entry};
ghost use Rattle.rate_table.specs.declared.entry.Pair.{Pair};
ghost use Rattle.rate_table.specs.Table.{IsTable, IsChoice, Fits, HasNoFit, error_of};
ghost use Rattle.rate_table.specs.Pairs.{rest};
ghost use Rattle.rate_table.specs.Records.{IsGoodFit, SaysNone};
ghost use Rattle.rate_layers.specs.declared.fault.BestFault.TheVariants.{LayersFull};
ghost use Rattle.rate_layers.specs.Layers.{AreKept, pairs_in};
ghost use Rattle.rate_layers.specs.Multiplier.{IsMultiplier};
ghost use Rattle.rate_layers.specs.inner.Live.{AreFound};
ghost use Rattle.rate_layers.specs.Best.{OnFits, OnNone, TellsBest, TellsLayers, PassesByPicks, PassesByBest};

use crate::fault::BestFault;
use crate::layers::kept_layers;
use crate::live::first_choice;
use crate::multiplied::multiplied;
use crate::multiplier::{fitting_multiplier, least_multiplier, pick_sums};
use crate::narrowed::narrow;
use crate::outcome::Outcome;
use rate_table::{FrameTable, Pair, least, least_costs};
use std::alloc::Global;

/// How many times an interval of errors is halved before `LayersFull` is returned.
const HALVINGS: usize = 8;

/// A multiplier below this is small: as a whole number it gives a loose bound.
const SMALL: u64 = 100;

/// A small multiplier is scaled to about this in the search for the least error.
const FINE: u64 = 1024;

/// Frontiers, and the pair of the best choice, which is the last one of the last frontier.
#[derive(Drop)]
struct Found {
    layers: Vec<Vec<Pair>>,
    goal: Pair,
}

/// The last pair of the last frontier.
fn last_pair(layers: &[Vec<Pair>]) -> Option<Pair>
    ensures some { IfSome result (λ p. (front : List Pair) × (slice_index_or (map (λ l. l.items) layers.now)
        (length layers.now - 1) [] ≡ front ++ p ∷ [])) }
    ensures none { IfNone result (slice_index_or (map (λ l. l.items) layers.now) (length layers.now - 1) [] ≡ []) }
{
    match layers.last() {
        Some(layer) => layer.last().copied(),
        None => None,
    }
}

/// The frontiers that this error keeps, if a fitting choice has no more error.
fn found_within(
    alloc: Global,
    table: &FrameTable,
    multiplier: u64,
    error: u64,
) -> Result<Option<Found>, BestFault>
    ensures some { IfOk result (λ o. IfSome o (λ f. AreFound table.now multiplier error f.goal
        (map (λ l. l.items) f.layers.items))) }
    ensures none { IfOk result (λ o. IfNone o ((c : List Entry) → IsChoice table.now.slices c → Fits table.now c → error
        < error_of c)) }
    ensures full { IfErr result (λ e. e ≡ LayersFull → (layers : List (List Pair)) → AreKept table.now multiplier error
        layers → 2 ^ 25 < pairs_in layers) }
{
    let layers = kept_layers(alloc, table, multiplier, error)?;
    match last_pair(&layers) {
        Some(goal) if goal.error <= error => Ok(Some(Found { layers, goal })),
        _ => Ok(None),
    }
}

/// The frontiers of an error below `full`, whose frontiers are too large. All errors below `low` are too small. The
/// interval is halved `halvings` times at most.
fn found_by_halving(
    alloc: Global,
    table: &FrameTable,
    multiplier: u64,
    low: u64,
    full: u64,
    halvings: usize,
) -> Result<Found, BestFault>
    ensures { IfOk result (λ f. (u : ℕ) × AreFound table.now multiplier u f.goal (map (λ l. l.items) f.layers.items)) }
{
    let mut low = low.min(full);
    let mut full = full;
    'halving: for _ in 0..halvings {
        if low == full {
            return Err(BestFault::LayersFull);
        }
        let middle = low + (full - low) / 2;
        match found_within(alloc, table, multiplier, middle) {
            Ok(Some(found)) => return Ok(found),
            Ok(None) => low = middle + 1,
            Err(BestFault::LayersFull) => full = middle,
            Err(BestFault::NoMemory) => return Err(BestFault::NoMemory),
        }
    }
    Err(BestFault::LayersFull)
}

/// The frontiers that this error keeps, if a fitting choice has no more error. If they are too large, those of a
/// smaller error, from `low` on; all below `low` are too small.
fn found_up_to(
    alloc: Global,
    table: &FrameTable,
    multiplier: u64,
    low: u64,
    error: u64,
    halvings: usize,
) -> Result<Option<Found>, BestFault>
    ensures some { IfOk result (λ o. IfSome o (λ f. (u : ℕ) × AreFound table.now multiplier u f.goal
        (map (λ l. l.items) f.layers.items))) }
    ensures none { IfOk result (λ o. IfNone o ((c : List Entry) → IsChoice table.now.slices c → Fits table.now c → error
        < error_of c)) }
    ensures full { IfErr result (λ e. e ≡ LayersFull → (layers : List (List Pair)) → AreKept table.now multiplier error
        layers → 2 ^ 25 < pairs_in layers) }
{
    match found_within(alloc, table, multiplier, error) {
        Ok(found) => Ok(found),
        Err(BestFault::LayersFull) => {
            let found = found_by_halving(alloc, table, multiplier, low, error, halvings)?;
            Ok(Some(found))
        }
        Err(BestFault::NoMemory) => Err(BestFault::NoMemory),
    }
}

/// A lower bound of the error of a fitting choice. It is 0 if the budget's cost is greater than the other costs.
fn lower_bound(table: &FrameTable, multiplier: u64) -> u128
    ensures { result ≡ (rest multiplier table.now.slices + multiplier * table.now.fixed) - multiplier * table.now.budget }
{
    let byte = u128::from(multiplier);
    let costs = least_costs(table, multiplier) + byte * u128::from(table.fixed);
    costs.saturating_sub(byte * u128::from(table.budget))
}

/// The error at one `part`-th of the way from `low` to `most`.
fn between(low: u64, most: u64, part: u64) -> u64
    requires order { low ≤ most }
    requires part { 1 ≤ part }
    ensures least { low ≤ result }
    ensures most { result ≤ most }
{
    low + (most - low) / part
}

/// The frontiers that some error of a fitting choice keeps. Small errors are tried first: a 4,096th of the way from
/// the lower bound of all errors to the error of the Lagrangian minimisers, then four times as far each, up to the
/// minimisers' error, which a fitting choice has. No error is tried twice. If an error's frontiers are too large,
/// the interval is halved `halvings` times at most.
fn find_by_stages(
    alloc: Global,
    table: &FrameTable,
    multiplier: u64,
    halvings: usize,
) -> Result<Found, BestFault>
    requires { IsMultiplier table.now multiplier }
    ensures found { IfOk result (λ f. (u : ℕ) × AreFound table.now multiplier u f.goal
        (map (λ l. l.items) f.layers.items)) }
    ensures full { IfErr result (λ e. e ≡ LayersFull → PassesByPicks table.now) }
{
    let most = pick_sums(table, multiplier).1;
    let low = lower_bound(table, multiplier).min(u128::from(most)) as u64;
    let mut untried = low;
    for part in [4096, 1024, 256, 64, 16, 4] {
        let error = between(low, most, part);
        if untried <= error {
            let found = found_up_to(alloc, table, multiplier, untried, error, halvings)?;
            if let Some(found) = found {
                return Ok(found);
            }
            untried = error + 1;
        }
    }
    match found_up_to(alloc, table, multiplier, untried, most, halvings)? {
        Some(found) => Ok(found),
        None => unreachable!(),
    }
}

/// The factor of errors in the search for the least error: 1 if the multiplier isn't small, or is 0, so that the
/// Lagrangian minimisers are best.
fn times_of(multiplier: u64) -> u64
    ensures { 1 ≤ result }
{
    if multiplier == 0 || SMALL <= multiplier {
        1
    } else {
        FINE / multiplier
    }
}

/// Guesses the error of the best choice, by a search over the table with errors multiplied by `times`. Whole
/// multipliers of that table are fractions of this one, so its bounds prune far more pairs if this one's multiplier
/// is small. `None` if nothing was found. The guess may be too small, since errors of that table may have been
/// capped; the caller tries it.
fn guess(alloc: Global, table: &FrameTable, times: u64) -> Option<u64>
    requires { 1 ≤ times }
    // No fitting choice has less error.
    ensures { IfSome result (λ e. (c : List Entry) → IsChoice table.now.slices c → Fits table.now c → e ≤ error_of c) }
{
    let finer = multiplied(alloc, table, times)?;
    let multiplier = fitting_multiplier(&finer)?;
    match find_by_stages(alloc, &finer, multiplier, 0) {
        Ok(found) => Some(found.goal.error / times),
        Err(_) => None,
    }
}

/// The frontiers that some error of a fitting choice keeps. If the multiplier is small, the error to try first is
/// guessed. The guess is never above the error of the best choice: if its frontiers are too large, so are those of
/// every error that would do. It is that error, and no frontiers are made in vain, unless an error was capped in
/// the multiplied table; then the guess may be too small, and the stages follow.
fn find(alloc: Global, table: &FrameTable, multiplier: u64) -> Result<Found, BestFault>
    requires { IsMultiplier table.now multiplier }
    ensures found { IfOk result (λ f. (u : ℕ) × AreFound table.now multiplier u f.goal
        (map (λ l. l.items) f.layers.items)) }
    ensures full { IfErr result (λ e. e ≡ LayersFull → PassesByPicks table.now) }
{
    let times = times_of(multiplier);
    if 1 < times {
        if let Some(guessed) = guess(alloc, table, times) {
            let error = guessed.min(pick_sums(table, multiplier).1);
            if let Some(kept) = found_within(alloc, table, multiplier, error)? {
                return Ok(kept);
            }
        }
    }
    find_by_stages(alloc, table, multiplier, HALVINGS)
}

/// The best choice of a table with a choice that fits.
fn best_fit(alloc: Global, table: &FrameTable) -> Result<Outcome, BestFault>
    requires table { IsTable table.now }
    requires some { (c : List Entry) × IsChoice table.now.slices c × Fits table.now c }
    ensures fits { OnFits result (TellsBest table.now) }
    ensures layers { OnFits result (TellsLayers table.now) }
    ensures good { OnFits result (IsGoodFit table.now) }
    ensures none { OnNone result (λ least. ⊥) }
    ensures full_only { IfErr result (λ e. e ≡ LayersFull → PassesByPicks table.now) }
    ensures full_always { PassesByBest table.now → IsErr result }
{
    let multiplier = least_multiplier(table);
    let Found { mut layers, goal } = find(alloc, table, multiplier)?;
    narrow(table, multiplier, goal, &mut layers);
    let choice = first_choice(alloc, table, &layers, goal)?;
    Ok(Outcome::Fits {
        choice,
        size: u64::from(goal.size),
        error: goal.error,
        layers,
        multiplier,
    })
}

/// The best choice of a table: the fitting one of least error, then of least size, then the first in lexicographic
/// order of its indices; with the Pareto frontiers and the Lagrangian multiplier that prove that none has less
/// error. `None` if no choice fits.
///
/// The frontiers take 16 bytes a pair and up to 48 bytes a frontier; those that are returned have no spare
/// capacity. During the search the call holds:
/// - at most 2^25 pairs of finished frontiers;
/// - two vectors for the frontier in progress, each of up to 32 bytes a pair of the longest half-merged one;
/// - if the multiplier is small, a second table, until an error is guessed;
/// - while the choice is found, besides the returned frontiers, a bit for each pair and up to 72 bytes a frontier.
///
/// The errors are `LayersFull` if the frontiers have more than 2^25 pairs, and `NoMemory`.
pub fn best(alloc: Global, table: &FrameTable) -> Result<Outcome, BestFault>
    ensures fits { OnFits result (TellsBest table.now) }
    ensures layers { OnFits result (TellsLayers table.now) }
    ensures good { OnFits result (IsGoodFit table.now) }
    ensures none { OnNone result (λ least. HasNoFit table.now × SaysNone table.now least) }
    // `LayersFull` is returned only if the frontiers kept by the error of the Lagrangian minimisers have more than
    // 2^25 pairs.
    ensures full_only { IfErr result (λ e. e ≡ LayersFull → PassesByPicks table.now) }
    // If those kept by the best choice's own error do, the result is `LayersFull` or `NoMemory`.
    ensures full_always { PassesByBest table.now → IsErr result }
    ensures full_never { (table.now.budget + 1) * (length table.now.slices + 1) ≤ 2 ^ 25 → result ≢ Err LayersFull }
{
    let bytes = least(table);
    if u64::from(table.budget) < bytes {
        return Ok(Outcome::None { least: bytes });
    }
    best_fit(alloc, table)
}
