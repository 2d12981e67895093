//! All Pareto frontiers under a size.

ghost use Rattle.std.specs.Prelude.{◌≡◌, ◌+◌, ◌<◌, ◌≤◌, ◌^◌, List, [], ◌∷◌, ◌++◌, OnOk, IfOk, IfErr, length, map};
ghost use Rattle.rate_layers.specs.declared.fault.BestFault.TheVariants.{LayersFull};
ghost use Rattle.rate_least.specs.declared.outcome.WidePair.{WidePair};
ghost use Rattle.rate_least.specs.Layers.{IsFront, pairs_in};
ghost use Rattle.rate_least.specs.Held.{AreHeld};
ghost use Rattle.rate_least.specs.inner.Covering.{IsSmall};
ghost use Rattle.rate_least.specs.inner.Merge.{Passes, IsNext};
ghost use Rattle.rate_least.specs.Pairs.{RisesAndFalls};
ghost use Rattle.rate_least.specs.Records.{IsNarrow};
ghost use Rattle.rate_table.specs.Table.{IsEntry};
ghost use Rattle.std.specs.List.{All};

use crate::bound::Bound;
use crate::covering::counts;
use crate::errors::{least_error_of, least_errors};
use crate::merge::merge_all;
use crate::outcome::WidePair;
use crate::passing::passing;
use rate_layers::BestFault;
use rate_table::{Entry, FrameTable, least_cost, least_costs};
use std::alloc::{AllocError, Global};

/// The largest number of pairs of all frontiers together.
const MOST: usize = 1 << 25;

/// The first frontier: the empty pair, if it passes.
fn first_layer(alloc: Global, bound: &Bound) -> Result<Vec<WidePair>, AllocError>
    requires { IsSmall bound.now }
    ensures { IfOk result (λ v. IsFront (λ p. (p ≡ record { size = 0; error = 0 }) × Passes bound.now p) v.items) }
{
    let mut layer = Vec::new(alloc);
    if counts(bound, 0, 0) {
        layer.push(WidePair { size: 0, error: 0 })?;
    }
    Ok(layer)
}

/// A copy without spare capacity.
fn exact(alloc: Global, layer: &[WidePair]) -> Result<Vec<WidePair>, AllocError>
    ensures { IfOk result (λ v. v.items ≡ layer.now) }
{
    let mut copy = Vec::with_capacity(alloc, layer.len())?;
    copy.extend_from_slice(layer)?;
    Ok(copy)
}

/// Appends a finished frontier and counts its pairs, unless there are too many.
fn put_layer(
    alloc: Global,
    layers: &mut Vec<Vec<WidePair>>,
    pairs: &mut usize,
    next: &[WidePair],
) -> Result<(), BestFault>
    requires { pairs.old ≤ 2 ^ 25 }
    ensures layers { OnOk result (map (λ l. l.items) layers.new.items ≡ map (λ l. l.items) layers.old.items ++ next.now
        ∷ []) }
    ensures pairs { OnOk result (pairs.new ≡ pairs.old + length next.now) }
    ensures few { OnOk result (pairs.new ≤ 2 ^ 25) }
    ensures full { IfErr result (λ e. e ≡ LayersFull → 2 ^ 25 < pairs.old + length next.now) }
{
    if MOST - *pairs < next.len() {
        return Err(BestFault::LayersFull);
    }
    *pairs += next.len();
    layers.push(exact(alloc, next)?)?;
    Ok(())
}

/// Makes `next` the next frontier. `few` and `spare` are scratch: for the entries that can pass, and for pairs.
fn next_layer(
    next: &mut Vec<WidePair>,
    spare: &mut Vec<WidePair>,
    few: &mut Vec<Entry>,
    bound: &Bound,
    layer: &[WidePair],
    slice: &[Entry],
) -> Result<(), AllocError>
    requires small { IsSmall bound.now }
    requires layer { RisesAndFalls layer.now }
    requires narrow { All IsNarrow layer.now }
    requires errors { All (λ p. p.error < 2 ^ 63) layer.now }
    requires entries { All IsEntry slice.now }
    ensures { OnOk result (IsNext bound.now layer.now slice.now next.new.items) }
{
    passing(few, bound, layer, slice)?;
    merge_all(next, spare, bound, layer, few)?;
    Ok(())
}

/// The Pareto frontiers held under a size: after each number of slices, by rising size, the pairs that no other
/// dominates, of those that can still meet the cap and are not pruned by the bound. They take 16 bytes a pair.
/// While a frontier is made, two vectors take up to 32 bytes for each pair of the longest half-merged frontier.
///
/// The errors are `LayersFull` if the finished frontiers have more than 2^25 pairs, and `NoMemory`.
pub fn held_layers(
    alloc: Global,
    table: &FrameTable,
    cap: u64,
    multiplier: u64,
    size: u64,
) -> Result<Vec<Vec<WidePair>>, BestFault>
    ensures held { IfOk result (λ v. AreHeld table.now.slices cap multiplier size (map (λ l. l.items) v.items)) }
    ensures few { IfOk result (λ v. pairs_in (map (λ l. l.items) v.items) ≤ 2 ^ 25) }
    // The error is `LayersFull` only if the held frontiers have more.
    ensures full { IfErr result (λ e. e ≡ LayersFull → (layers : List (List WidePair)) → AreHeld table.now.slices cap
        multiplier size layers → 2 ^ 25 < pairs_in layers) }
{
    let slices = table.slices.as_slice();
    let mut bound = Bound {
        errors: least_errors(table),
        cap,
        floor: least_costs(table, multiplier),
        most: u128::from(cap) + u128::from(multiplier) * u128::from(size),
        multiplier,
    };
    let first = first_layer(alloc, &bound)?;
    let mut layers = Vec::new(alloc);
    let mut pairs = 0;
    put_layer(alloc, &mut layers, &mut pairs, &first)?;
    let mut next = Vec::new(alloc);
    let mut spare = Vec::new(alloc);
    let mut few = Vec::new(alloc);
    for k in 0..slices.len() {
        let entries = slices[k].entries();
        bound.errors -= least_error_of(entries);
        bound.floor -= least_cost(entries, multiplier);
        next_layer(&mut next, &mut spare, &mut few, &bound, &layers[k], entries)?;
        put_layer(alloc, &mut layers, &mut pairs, &next)?;
    }
    Ok(layers)
}
