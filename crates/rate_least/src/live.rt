//! Finds the first choice that has a pair.

ghost use Rattle.std.specs.Prelude.{◌≡◌, ℕ, ◌-◌, ◌<◌, ◌↔◌, IsTrue, IfOk, IfSome, IfNone, List, ◌∷◌, false, true, length, map, replicate};
ghost use Rattle.std.specs.List.{Contains};
ghost use Rattle.rate_table.specs.declared.entry.Entry.{Entry};
ghost use Rattle.rate_least.specs.declared.outcome.WidePair.{WidePair};
ghost use Rattle.rate_table.specs.Table.{IndicesRise, indices};
ghost use Rattle.rate_least.specs.Pairs.{joined};
ghost use Rattle.rate_least.specs.inner.First.{IsFirst};
ghost use Rattle.rate_least.specs.Layers.{Rises};
ghost use Rattle.rate_least.specs.inner.Live.{marked, LeadsOn, IsFirstOn, AreFound, AreMarked};

use crate::marks::marks_before;
use crate::outcome::WidePair;
use crate::places::place_of;
use rate_table::{Entry, FrameTable};
use std::alloc::{AllocError, Global};

/// Whether the pair joined with the entry is a marked one of `next`, whose sizes rise.
fn leads(next: &[WidePair], marks: &[bool], p: WidePair, x: Entry) -> bool
    requires rises { Rises next.now }
    requires count { length marks.now ≡ length next.now }
    ensures { IsTrue result ↔ Contains (marked marks.now next.now) (joined p x) }
{
    let size = u128::from(p.size) + u128::from(x.size);
    match place_of(next, size, u128::from(p.error) + u128::from(x.error)) {
        Some(at) => marks[at],
        None => false,
    }
}

/// The first entry of the slice that leads from the pair to a marked one of `next`.
fn first_lead(slice: &[Entry], next: &[WidePair], marks: &[bool], p: WidePair) -> Option<Entry>
    requires indices { IndicesRise slice.now }
    requires next { Rises next.now }
    requires count { length marks.now ≡ length next.now }
    ensures some { IfSome result (IsFirstOn slice.now (marked marks.now next.now) p) }
    ensures none { IfNone result (LeadsOn slice.now (marked marks.now next.now) p → ⊥) }
{
    for x in slice {
        if leads(next, marks, p, *x) {
            return Some(*x);
        }
    }
    None
}

/// Marks of which the first alone is set.
fn first_marked(alloc: Global, count: usize) -> Result<Vec<bool>, AllocError>
    requires { 0 < count }
    ensures { IfOk result (λ v. v.items ≡ true ∷ replicate (count - 1) false) }
{
    let mut marks = Vec::with_capacity(alloc, count)?;
    marks.push(true)?;
    marks.resize(count, false)?;
    Ok(marks)
}

/// For each frontier, the last one's first, a mark for each pair: it is set if a choice leads from the pair to the
/// goal.
fn marks_of(
    alloc: Global,
    table: &FrameTable,
    layers: &[Vec<WidePair>],
    goal: WidePair,
) -> Result<Vec<Vec<bool>>, AllocError>
    requires { (cap m u : ℕ) × AreFound (record { slices = table.now.slices; cap = cap }) m u goal
        (map (λ l. l.items) layers.now) }
    ensures { IfOk result (λ v. AreMarked table.now.slices goal (map (λ l. l.items) layers.now)
        (map (λ l. l.items) v.items)) }
{
    let slices = table.slices.as_slice();
    let mut marks = Vec::new(alloc);
    marks.push(first_marked(alloc, layers[slices.len()].len())?)?;
    let mut k = slices.len();
    while k > 0 {
        k -= 1;
        let before = marks_before(
            alloc,
            &layers[k],
            slices[k].entries(),
            &layers[k + 1],
            &marks[marks.len() - 1],
        )?;
        marks.push(before)?;
    }
    Ok(marks)
}

/// The indices of the first choice that goes from marked pair to marked pair.
fn walk(
    alloc: Global,
    table: &FrameTable,
    layers: &[Vec<WidePair>],
    marks: &[Vec<bool>],
    goal: WidePair,
) -> Result<Vec<u8>, AllocError>
    requires { AreMarked table.now.slices goal (map (λ l. l.items) layers.now) (map (λ l. l.items) marks.now) }
    ensures { IfOk result (λ v. (c : List Entry) × IsFirst table.now.slices goal c × (v.items ≡ indices c)) }
{
    let slices = table.slices.as_slice();
    let mut choice = Vec::new(alloc);
    let mut p = WidePair { size: 0, error: 0 };
    for k in 0..slices.len() {
        let next_marks = &marks[slices.len() - 1 - k];
        let Some(x) = first_lead(slices[k].entries(), &layers[k + 1], next_marks, p) else {
            unreachable!()
        };
        choice.push(x.index)?;
        p = WidePair {
            size: p.size + u64::from(x.size),
            error: p.error + x.error,
        };
    }
    Ok(choice)
}

/// The indices of the first choice with the goal's pair, in lexicographic order. The pairs that lead to the goal
/// are marked from the last frontier back; then, slice by slice, the first entry that leads to a marked pair is
/// taken.
pub fn first_choice(
    alloc: Global,
    table: &FrameTable,
    layers: &[Vec<WidePair>],
    goal: WidePair,
) -> Result<Vec<u8>, AllocError>
    requires { (cap m u : ℕ) × AreFound (record { slices = table.now.slices; cap = cap }) m u goal
        (map (λ l. l.items) layers.now) }
    ensures { IfOk result (λ v. (c : List Entry) × IsFirst table.now.slices goal c × (v.items ≡ indices c)) }
{
    let marks = marks_of(alloc, table, layers, goal)?;
    walk(alloc, table, layers, &marks, goal)
}
