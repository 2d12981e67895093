//! Whether the pairs of a layer joined with the entries of a slice are covered by the next layer.

ghost use Rattle.std.specs.Prelude.{◌+◌, ◌-◌, ◌*◌, ◌<◌, ◌≤◌, ◌^◌, ◌↔◌, IsTrue, length, slice_index_or};
ghost use Rattle.std.specs.List.{All};
ghost use Rattle.rate_table.specs.Pairs.{RisesAndFalls};
ghost use Rattle.rate_check.specs.inner.Covering.{IsSmall, ReachesTo, CoversEntry, IsBelowWeights, weight};

use crate::bound::{Bound, weight_of};
use rate_table::{Entry, Pair, cost_of};

/// Every pair's cost is less.
const HEAVIEST: u128 = 1 << 97;

/// The number of pairs of at most this size; the first `from` pairs are.
fn reach(pairs: &[Pair], from: usize, size: u64) -> usize
    requires from { from ≤ length pairs.now }
    requires reached { ReachesTo pairs.now from size }
    ensures within { result ≤ length pairs.now }
    ensures reached { ReachesTo pairs.now result size }
    ensures behind { result < length pairs.now → size < (slice_index_or pairs.now result
        (record { size = 0; error = 0 })).size }
{
    let mut at = from;
    while at < pairs.len() && u64::from(pairs[at].size) <= size {
        at += 1;
    }
    at
}

/// Whether the last of the first `count` pairs has at most this error.
fn has_no_more(pairs: &[Pair], count: usize, error: u128) -> bool
    requires { count ≤ length pairs.now }
    ensures { IsTrue result ↔ ((0 < count) × ((slice_index_or pairs.now (count - 1)
        (record { size = 0; error = 0 })).error ≤ error)) }
{
    0 < count && u128::from(pairs[count - 1].error) <= error
}

/// Whether each pair of a layer, joined with the entry, is covered. The joined sizes rise, so the number of pairs
/// of the next layer of at most that size does too; the last of those has their least error.
fn covers_entry(bound: &Bound, layer: &[Pair], entry: Entry, next: &[Pair]) -> bool
    requires small { IsSmall bound.now }
    requires layer { RisesAndFalls layer.now }
    requires next { RisesAndFalls next.now }
    ensures { IsTrue result ↔ CoversEntry bound.now layer.now next.now entry }
{
    let mut at = 0;
    for pair in layer {
        let size = u64::from(pair.size) + u64::from(entry.size);
        if bound.budget < bound.taken + size {
            return true;
        }
        at = reach(next, at, size);
        let error = u128::from(pair.error) + u128::from(entry.error);
        let weight = error + u128::from(bound.multiplier) * u128::from(size);
        if weight + bound.floor <= bound.most && !has_no_more(next, at, error) {
            return false;
        }
    }
    true
}

/// A lower bound of the Lagrangian costs of a layer's pairs.
fn least_weight(layer: &[Pair], multiplier: u64) -> u128
    ensures below { IsBelowWeights multiplier layer.now result }
    ensures small { result ≤ 2 ^ 97 }
{
    let mut least = HEAVIEST;
    for pair in layer {
        least = least.min(weight_of(pair, multiplier));
    }
    least
}

/// Whether each pair of a layer, joined with each entry of a slice, is covered. An entry that the bound prunes at
/// the least cost of the layer is pruned with every pair.
pub fn covers(bound: &Bound, layer: &[Pair], slice: &[Entry], next: &[Pair]) -> bool
    requires small { IsSmall bound.now }
    requires layer { RisesAndFalls layer.now }
    requires next { RisesAndFalls next.now }
    ensures { IsTrue result ↔ All (CoversEntry bound.now layer.now next.now) slice.now }
{
    let least = least_weight(layer, bound.multiplier);
    for entry in slice {
        let passes = bound.most < least + cost_of(entry, bound.multiplier) + bound.floor;
        if !passes && !covers_entry(bound, layer, *entry, next) {
            return false;
        }
    }
    true
}
