//! Whether the pairs of a layer joined with the entries of a slice are covered by the next layer.

ghost use Rattle.std.specs.Prelude.{◌+◌, ◌-◌, ◌*◌, ◌<◌, ◌≤◌, ◌^◌, ◌↔◌, IsTrue, length, slice_index_or};
ghost use Rattle.std.specs.List.{All};
ghost use Rattle.rate_least.specs.Pairs.{RisesAndFalls};
ghost use Rattle.rate_least.specs.Records.{IsNarrow};
ghost use Rattle.rate_least.specs.inner.Covering.{IsSmall, ReachesTo, CoversEntry, IsBelowWeights};

use crate::bound::{Bound, weight_of};
use crate::outcome::WidePair;
use rate_table::{Entry, cost_of};

/// Every pair's cost is less.
const HEAVIEST: u128 = 1 << 99;

/// The number of pairs of at most this size; the first `from` pairs are.
fn reach(pairs: &[WidePair], from: usize, size: u64) -> usize
    requires from { from ≤ length pairs.now }
    requires reached { ReachesTo pairs.now from size }
    ensures within { result ≤ length pairs.now }
    ensures reached { ReachesTo pairs.now result size }
    ensures behind { result < length pairs.now → size < (slice_index_or pairs.now result
        (record { size = 0; error = 0 })).size }
{
    let mut at = from;
    while at < pairs.len() && pairs[at].size <= size {
        at += 1;
    }
    at
}

/// Whether the last of the first `count` pairs has at most this error.
fn has_no_more(pairs: &[WidePair], count: usize, error: u128) -> bool
    requires { count ≤ length pairs.now }
    ensures { IsTrue result ↔ ((0 < count) × ((slice_index_or pairs.now (count - 1)
        (record { size = 0; error = 0 })).error ≤ error)) }
{
    0 < count && u128::from(pairs[count - 1].error) <= error
}

/// Whether a pair of this size and error can meet the cap and is not pruned by the bound.
pub(crate) fn counts(bound: &Bound, size: u64, error: u128) -> bool
    requires small { IsSmall bound.now }
    requires size { size < 2 ^ 35 }
    requires error { error < 2 ^ 65 }
    ensures { IsTrue result ↔ ((error + bound.now.errors ≤ bound.now.cap)
        × (error + bound.now.multiplier * size + bound.now.floor ≤ bound.now.most)) }
{
    let weight = error + u128::from(bound.multiplier) * u128::from(size);
    error + u128::from(bound.errors) <= u128::from(bound.cap) && weight + bound.floor <= bound.most
}

/// Whether each pair of a layer, joined with the entry, is covered. The joined sizes rise, so the number of pairs
/// of the next layer of at most that size does too; the last of those has their least error.
fn covers_entry(bound: &Bound, layer: &[WidePair], entry: Entry, next: &[WidePair]) -> bool
    requires small { IsSmall bound.now }
    requires layer { RisesAndFalls layer.now }
    requires narrow { All IsNarrow layer.now }
    requires next { RisesAndFalls next.now }
    ensures { IsTrue result ↔ CoversEntry bound.now layer.now next.now entry }
{
    let mut at = 0;
    for pair in layer {
        let size = pair.size + u64::from(entry.size);
        at = reach(next, at, size);
        let error = u128::from(pair.error) + u128::from(entry.error);
        if counts(bound, size, error) && !has_no_more(next, at, error) {
            return false;
        }
    }
    true
}

/// A lower bound of the Lagrangian costs of a layer's pairs.
pub(crate) fn least_weight(layer: &[WidePair], multiplier: u64) -> u128
    requires { All IsNarrow layer.now }
    ensures below { IsBelowWeights multiplier layer.now result }
    ensures small { result ≤ 2 ^ 99 }
{
    let mut least = HEAVIEST;
    for pair in layer {
        least = least.min(weight_of(pair, multiplier));
    }
    least
}

/// Whether each pair of a layer, joined with each entry of a slice, is covered. An entry that the bound prunes at
/// the least cost of the layer is pruned with every pair.
pub fn covers(bound: &Bound, layer: &[WidePair], slice: &[Entry], next: &[WidePair]) -> bool
    requires small { IsSmall bound.now }
    requires layer { RisesAndFalls layer.now }
    requires narrow { All IsNarrow layer.now }
    requires next { RisesAndFalls next.now }
    ensures { IsTrue result ↔ All (CoversEntry bound.now layer.now next.now) slice.now }
{
    let least = least_weight(layer, bound.multiplier);
    for entry in slice {
        let passes = bound.most < least + cost_of(entry, bound.multiplier) + bound.floor;
        if !passes && !covers_entry(bound, layer, *entry, next) {
            return false;
        }
    }
    true
}
