//! One slice more: the next Pareto frontier, from a frontier and the entries of the slice.

ghost use Rattle.std.specs.Prelude.{◌≡◌, ◌+◌, ◌*◌, ◌<◌, ◌≤◌, ◌^◌, IsTrue, OnOk, []};
ghost use Rattle.std.specs.List.{All, Contains};
ghost use Rattle.rate_table.specs.declared.entry.Entry.{Entry};
ghost use Rattle.rate_table.specs.declared.entry.Pair.{Pair};
ghost use Rattle.rate_table.specs.Table.{IsEntry};
ghost use Rattle.rate_table.specs.Pairs.{RisesAndFalls, Dominates};
ghost use Rattle.rate_layers.specs.inner.Bound.{IsSmall, IsNext};
ghost use Rattle.rate_layers.specs.inner.Merge.{IsBehind, AreBehind, Offered, JoinsIf, Merged};

use crate::bound::{Bound, is_within};
use crate::passing::passing;
use crate::thin::thin;
use rate_table::{Entry, Pair};
use std::alloc::{AllocError, Global};
use std::mem;

/// Whether a pair that comes after a frontier has less error than each of its pairs.
fn is_below(layer: &[Pair], p: Pair) -> bool
    requires order { RisesAndFalls layer.now }
    requires behind { AreBehind p layer.now }
    ensures yes { IsTrue result → (q : Pair) → Contains layer.now q → p.error < q.error }
    ensures no { (IsTrue result → ⊥) → (q : Pair) × Contains layer.now q × Dominates q p }
{
    match layer.last() {
        Some(last) => p.error < last.error,
        None => true,
    }
}

/// Appends a pair that comes after a frontier, unless the frontier's last pair dominates it.
fn offer(out: &mut Vec<Pair>, p: Pair) -> Result<(), AllocError>
    requires order { RisesAndFalls out.old.items }
    requires behind { AreBehind p out.old.items }
    ensures ok { OnOk result (Offered p out.old.items out.new.items) }
{
    if is_below(out, p) {
        out.push(p)?;
    }
    Ok(())
}

/// The pair joined with the entry, if it passes the bound.
fn joined_if(bound: &Bound, p: Pair, x: Entry) -> Option<Pair>
    requires small { IsSmall bound.now }
    requires errors { p.error + x.error < 2 ^ 64 }
    ensures { JoinsIf bound.now p x result }
{
    let size = u64::from(p.size) + u64::from(x.size);
    let error = p.error + x.error;
    if size < bound.end && is_within(bound, size, error) {
        Some(Pair {
            size: size as u32,
            error,
        })
    } else {
        None
    }
}

/// Whether `p` has less size, or the same size and no more error.
fn comes_first(p: Pair, q: Pair) -> bool
    ensures yes { IsTrue result → IsBehind q p }
    ensures no { (IsTrue result → ⊥) → IsBehind p q × (p.size ≤ q.size → q.error < p.error) }
{
    p.size < q.size || p.size == q.size && p.error <= q.error
}

/// Merges `front` with the pairs of `layer` joined with one entry, as far as they pass the bound, and writes the
/// undominated pairs into the empty vector `out`.
fn merge_one(
    out: &mut Vec<Pair>,
    bound: &Bound,
    front: &[Pair],
    layer: &[Pair],
    x: Entry,
) -> Result<(), AllocError>
    requires empty { out.old.items ≡ [] }
    requires small { IsSmall bound.now }
    requires front { RisesAndFalls front.now }
    requires layer { RisesAndFalls layer.now }
    requires errors { All (λ p. p.error < 2 ^ 63) layer.now }
    requires error { x.error < 2 ^ 63 }
    ensures { OnOk result (Merged bound.now front.now layer.now x out.new.items) }
{
    let mut i = 0;
    for p in layer {
        match joined_if(bound, *p, x) {
            Some(q) => {
                'before: while i < front.len() && comes_first(front[i], q) {
                    offer(out, front[i])?;
                    i += 1;
                }
                offer(out, q)?;
            }
            None => {}
        }
    }
    'after: while i < front.len() {
        offer(out, front[i])?;
        i += 1;
    }
    Ok(())
}

/// Makes `next` the next frontier, entry by entry. `spare` is scratch.
fn merge_all(
    next: &mut Vec<Pair>,
    spare: &mut Vec<Pair>,
    bound: &Bound,
    layer: &[Pair],
    slice: &[Entry],
) -> Result<(), AllocError>
    requires small { IsSmall bound.now }
    requires layer { RisesAndFalls layer.now }
    requires errors { All (λ p. p.error < 2 ^ 63) layer.now }
    requires entries { All IsEntry slice.now }
    ensures { OnOk result (IsNext bound.now layer.now slice.now next.new.items) }
{
    next.clear();
    for x in slice {
        spare.clear();
        merge_one(spare, bound, next, layer, *x)?;
        mem::swap(next, spare);
    }
    Ok(())
}

/// Scratch buffers of the merges.
#[derive(Drop)]
pub struct Work {
    pub next: Vec<Pair>,
    pub spare: Vec<Pair>,
    pub few: Vec<Entry>,
    pub fewer: Vec<Entry>,
}

impl Work {
    /// Empty buffers, which hold no memory.
    pub fn new(alloc: Global) -> Work
        ensures next { result.next.items ≡ [] }
        ensures spare { result.spare.items ≡ [] }
        ensures few { result.few.items ≡ [] }
        ensures fewer { result.fewer.items ≡ [] }
    {
        Work {
            next: Vec::new(alloc),
            spare: Vec::new(alloc),
            few: Vec::new(alloc),
            fewer: Vec::new(alloc),
        }
    }
}

/// Makes `work.next` the next frontier: the undominated pairs of a frontier joined with the entries of a slice, of
/// those that pass the bound.
pub fn next_layer(
    work: &mut Work,
    bound: &Bound,
    layer: &[Pair],
    slice: &[Entry],
) -> Result<(), AllocError>
    requires small { IsSmall bound.now }
    requires layer { RisesAndFalls layer.now }
    requires errors { All (λ p. p.error < 2 ^ 63) layer.now }
    requires entries { All IsEntry slice.now }
    ensures { OnOk result (IsNext bound.now layer.now slice.now work.new.next.items) }
{
    passing(&mut work.few, bound, layer, slice)?;
    // Removing dominated entries first pays only if there are fewer entries than pairs.
    if work.few.len() <= layer.len() {
        thin(&mut work.fewer, &work.few)?;
        thin(&mut work.few, &work.fewer)?;
    }
    merge_all(&mut work.next, &mut work.spare, bound, layer, &work.few)?;
    Ok(())
}
