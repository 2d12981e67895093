//! All Pareto frontiers of a table under a bound.

ghost use Rattle.std.specs.Prelude.{◌≡◌, ◌+◌, ◌*◌, ◌<◌, ◌≤◌, ◌^◌, List, [], ◌∷◌, ◌++◌, OnOk, IfOk, IfErr, length, map};
ghost use Rattle.rate_table.specs.declared.entry.Pair.{Pair};
ghost use Rattle.rate_layers.specs.declared.fault.BestFault.TheVariants.{LayersFull};
ghost use Rattle.rate_layers.specs.Layers.{IsFront, AreKept, pairs_in};
ghost use Rattle.rate_layers.specs.inner.Bound.{HasRoom, IsWithin};

use crate::bound::{Bound, bound_of, is_within};
use crate::fault::BestFault;
use crate::merge::{Work, next_layer};
use rate_table::{FrameTable, Pair, least, least_cost, least_costs, least_size};
use std::alloc::{AllocError, Global};

/// The largest number of pairs of all frontiers together.
const MOST: usize = 1 << 25;

/// The first frontier: the empty pair, if it passes.
fn first_layer(alloc: Global, bound: &Bound) -> Result<Vec<Pair>, AllocError>
    ensures { IfOk result (λ v. IsFront (λ p. (p ≡ record { size = 0; error = 0 })
        × (HasRoom bound.now p × IsWithin bound.now p)) v.items) }
{
    let mut layer = Vec::new(alloc);
    if 0 < bound.end && is_within(bound, 0, 0) {
        layer.push(Pair { size: 0, error: 0 })?;
    }
    Ok(layer)
}

/// A copy without spare capacity.
fn exact(alloc: Global, layer: &[Pair]) -> Result<Vec<Pair>, AllocError>
    ensures { IfOk result (λ v. v.items ≡ layer.now) }
{
    let mut copy = Vec::with_capacity(alloc, layer.len())?;
    copy.extend_from_slice(layer)?;
    Ok(copy)
}

/// Appends a finished frontier and counts its pairs, unless there are too many.
fn put_layer(
    alloc: Global,
    layers: &mut Vec<Vec<Pair>>,
    pairs: &mut usize,
    next: &[Pair],
) -> Result<(), BestFault>
    requires { pairs.old ≤ 2 ^ 25 }
    ensures layers { OnOk result (map (λ l. l.items) layers.new.items ≡ map (λ l. l.items) layers.old.items ++ next.now
        ∷ []) }
    ensures pairs { OnOk result (pairs.new ≡ pairs.old + length next.now) }
    ensures few { OnOk result (pairs.new ≤ 2 ^ 25) }
    ensures full { IfErr result (λ e. e ≡ LayersFull → 2 ^ 25 < pairs.old + length next.now) }
{
    if MOST - *pairs < next.len() {
        return Err(BestFault::LayersFull);
    }
    *pairs += next.len();
    layers.push(exact(alloc, next)?)?;
    Ok(())
}

/// The Pareto frontiers that a multiplier and an error keep: after each number of slices, by rising size, the pairs
/// that no other dominates, of those that can still fit and are not pruned by the bound. They take 16 bytes a pair.
/// While a frontier is made, two vectors take up to 32 bytes for each pair of the longest half-merged frontier.
///
/// The errors are `LayersFull` if the finished frontiers have more than 2^25 pairs, and `NoMemory`.
pub fn kept_layers(
    alloc: Global,
    table: &FrameTable,
    multiplier: u64,
    error: u64,
) -> Result<Vec<Vec<Pair>>, BestFault>
    ensures kept { IfOk result (λ v. AreKept table.now multiplier error (map (λ l. l.items) v.items)) }
    ensures few { IfOk result (λ v. pairs_in (map (λ l. l.items) v.items) ≤ 2 ^ 25) }
    // The error is `LayersFull` only if the kept frontiers have more.
    ensures full { IfErr result (λ e. e ≡ LayersFull → (layers : List (List Pair)) → AreKept table.now multiplier error
        layers → 2 ^ 25 < pairs_in layers) }
{
    let slices = table.slices.as_slice();
    let mut sizes = least(table);
    let mut costs = least_costs(table, multiplier);
    let first = first_layer(alloc, &bound_of(table, sizes, costs, multiplier, error))?;
    let mut layers = Vec::new(alloc);
    let mut pairs = 0;
    put_layer(alloc, &mut layers, &mut pairs, &first)?;
    let mut work = Work::new(alloc);
    for k in 0..slices.len() {
        let entries = slices[k].entries();
        sizes -= u64::from(least_size(entries));
        costs -= least_cost(entries, multiplier);
        let bound = bound_of(table, sizes, costs, multiplier, error);
        next_layer(&mut work, &bound, &layers[k], entries)?;
        put_layer(alloc, &mut layers, &mut pairs, &work.next)?;
    }
    Ok(layers)
}
