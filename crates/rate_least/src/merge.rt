//! One slice more: the next Pareto frontier, from a frontier and the entries of the slice.

ghost use Rattle.std.specs.Prelude.{◌≡◌, ◌+◌, ◌<◌, ◌≤◌, ◌^◌, IsTrue, OnOk, []};
ghost use Rattle.std.specs.List.{All, Contains};
ghost use Rattle.rate_least.specs.declared.outcome.WidePair.{WidePair};
ghost use Rattle.rate_table.specs.Table.{IsEntry};
ghost use Rattle.rate_least.specs.Pairs.{RisesAndFalls, Dominates};
ghost use Rattle.rate_least.specs.Records.{IsNarrow};
ghost use Rattle.rate_least.specs.inner.Covering.{IsSmall};
ghost use Rattle.rate_least.specs.inner.Merge.{IsBehind, AreBehind, Offered, JoinsIf, Merged, IsNext};

use crate::bound::Bound;
use crate::covering::counts;
use crate::outcome::WidePair;
use rate_table::Entry;
use std::alloc::AllocError;
use std::mem;

/// Whether a pair that comes after a frontier has less error than each of its pairs.
fn is_below(layer: &[WidePair], p: WidePair) -> bool
    requires order { RisesAndFalls layer.now }
    requires behind { AreBehind p layer.now }
    ensures yes { IsTrue result → (q : WidePair) → Contains layer.now q → p.error < q.error }
    ensures no { (IsTrue result → ⊥) → (q : WidePair) × Contains layer.now q × Dominates q p }
{
    match layer.last() {
        Some(last) => p.error < last.error,
        None => true,
    }
}

/// Appends a pair that comes after a frontier, unless the frontier's last pair dominates it.
fn offer(out: &mut Vec<WidePair>, p: WidePair) -> Result<(), AllocError>
    requires order { RisesAndFalls out.old.items }
    requires behind { AreBehind p out.old.items }
    ensures ok { OnOk result (Offered p out.old.items out.new.items) }
{
    if is_below(out, p) {
        out.push(p)?;
    }
    Ok(())
}

/// The pair joined with the entry, if it passes the bound.
fn joined_if(bound: &Bound, p: WidePair, x: Entry) -> Option<WidePair>
    requires small { IsSmall bound.now }
    requires narrow { IsNarrow p }
    requires errors { p.error + x.error < 2 ^ 64 }
    ensures { JoinsIf bound.now p x result }
{
    let size = p.size + u64::from(x.size);
    let error = p.error + x.error;
    if counts(bound, size, u128::from(error)) {
        Some(WidePair { size, error })
    } else {
        None
    }
}

/// Whether `p` has less size, or the same size and no more error.
fn comes_first(p: WidePair, q: WidePair) -> bool
    ensures yes { IsTrue result → IsBehind q p }
    ensures no { (IsTrue result → ⊥) → IsBehind p q × (p.size ≤ q.size → q.error < p.error) }
{
    p.size < q.size || p.size == q.size && p.error <= q.error
}

/// Merges `front` with the pairs of `layer` joined with one entry, as far as they pass the bound, and writes the
/// undominated pairs into the empty vector `out`.
fn merge_one(
    out: &mut Vec<WidePair>,
    bound: &Bound,
    front: &[WidePair],
    layer: &[WidePair],
    x: Entry,
) -> Result<(), AllocError>
    requires empty { out.old.items ≡ [] }
    requires small { IsSmall bound.now }
    requires front { RisesAndFalls front.now }
    requires layer { RisesAndFalls layer.now }
    requires narrow { All IsNarrow layer.now }
    requires errors { All (λ p. p.error < 2 ^ 63) layer.now }
    requires error { x.error < 2 ^ 63 }
    ensures { OnOk result (Merged bound.now front.now layer.now x out.new.items) }
{
    let mut i = 0;
    for p in layer {
        match joined_if(bound, *p, x) {
            Some(q) => {
                'before: while i < front.len() && comes_first(front[i], q) {
                    offer(out, front[i])?;
                    i += 1;
                }
                offer(out, q)?;
            }
            None => {}
        }
    }
    'after: while i < front.len() {
        offer(out, front[i])?;
        i += 1;
    }
    Ok(())
}

/// Makes `next` the next frontier, entry by entry. `spare` is scratch.
pub fn merge_all(
    next: &mut Vec<WidePair>,
    spare: &mut Vec<WidePair>,
    bound: &Bound,
    layer: &[WidePair],
    slice: &[Entry],
) -> Result<(), AllocError>
    requires small { IsSmall bound.now }
    requires layer { RisesAndFalls layer.now }
    requires narrow { All IsNarrow layer.now }
    requires errors { All (λ p. p.error < 2 ^ 63) layer.now }
    requires entries { All IsEntry slice.now }
    ensures { OnOk result (IsNext bound.now layer.now slice.now next.new.items) }
{
    next.clear();
    for x in slice {
        spare.clear();
        merge_one(spare, bound, next, layer, *x)?;
        mem::swap(next, spare);
    }
    Ok(())
}
