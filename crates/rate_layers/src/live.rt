//! Finds the first choice that has a pair.

ghost use Rattle.std.specs.Prelude.{◌≡◌, ℕ, ◌-◌, ◌<◌, ◌↔◌, IsTrue, IfOk, IfSome, IfNone, List, [], ◌∷◌, ◌++◌, false, true, length, map, replicate};
ghost use Rattle.std.specs.List.{Contains};
ghost use Rattle.rate_table.specs.declared.entry.Entry.{Entry};
ghost use Rattle.rate_table.specs.declared.entry.Pair.{Pair};
ghost use Rattle.rate_table.specs.Table.{IndicesRise, indices};
ghost use Rattle.rate_table.specs.Pairs.{joined};
ghost use Rattle.rate_layers.specs.First.{IsFirst};
ghost use Rattle.rate_layers.specs.Layers.{Rises};
ghost use Rattle.rate_layers.specs.inner.Live.{marked, LeadsOn, IsFirstOn, AreFound, AreMarked};

use crate::bits::Marks;
use crate::marks::marks_before;
use crate::places::place_of;
use rate_table::{Entry, FrameTable, Pair};
use std::alloc::{AllocError, Global};

/// Whether the pair joined with the entry is a marked one of `next`, whose sizes rise.
fn leads(next: &[Pair], marks: &Marks, p: Pair, x: Entry) -> bool
    requires rises { Rises next.now }
    requires count { length marks.now ≡ length next.now }
    ensures { IsTrue result ↔ Contains (marked marks.now next.now) (joined p x) }
{
    let size = u64::from(p.size) + u64::from(x.size);
    match place_of(next, size, u128::from(p.error) + u128::from(x.error)) {
        Some(at) => marks.get(at),
        None => false,
    }
}

/// The first entry of the slice that leads from the pair to a marked one of `next`.
fn first_lead(slice: &[Entry], next: &[Pair], marks: &Marks, p: Pair) -> Option<Entry>
    requires indices { IndicesRise slice.now }
    requires next { Rises next.now }
    requires count { length marks.now ≡ length next.now }
    ensures some { IfSome result (IsFirstOn slice.now (marked marks.now next.now) p) }
    ensures none { IfNone result (LeadsOn slice.now (marked marks.now next.now) p → ⊥) }
{
    for x in slice {
        if leads(next, marks, p, *x) {
            return Some(*x);
        }
    }
    None
}

/// Marks of which the last alone is set.
fn last_marked(alloc: Global, count: usize) -> Result<Marks, AllocError>
    requires { 0 < count }
    ensures { IfOk result (λ m. m ≡ replicate (count - 1) false ++ true ∷ []) }
{
    let mut marks = Marks::new(alloc, count)?;
    marks.set(count - 1);
    Ok(marks)
}

/// For each frontier, the last one's first, a mark for each pair: it is set if a choice leads from the pair to the
/// goal.
fn marks_of(
    alloc: Global,
    table: &FrameTable,
    layers: &[Vec<Pair>],
    goal: Pair,
) -> Result<Vec<Marks>, AllocError>
    requires { (m u : ℕ) × AreFound table.now m u goal (map (λ l. l.items) layers.now) }
    ensures { IfOk result (λ v. AreMarked table.now goal (map (λ l. l.items) layers.now) v.items) }
{
    let slices = table.slices.as_slice();
    let mut marks = Vec::new(alloc);
    marks.push(last_marked(alloc, layers[slices.len()].len())?)?;
    let mut k = slices.len();
    while k > 0 {
        k -= 1;
        let before = marks_before(
            alloc,
            &layers[k],
            slices[k].entries(),
            &layers[k + 1],
            &marks[marks.len() - 1],
        )?;
        marks.push(before)?;
    }
    Ok(marks)
}

/// The indices of the first choice that goes from marked pair to marked pair.
fn walk(
    alloc: Global,
    table: &FrameTable,
    layers: &[Vec<Pair>],
    marks: &[Marks],
    goal: Pair,
) -> Result<Vec<u8>, AllocError>
    requires { AreMarked table.now goal (map (λ l. l.items) layers.now) marks.now }
    ensures { IfOk result (λ v. (c : List Entry) × IsFirst table.now.slices goal c × (v.items ≡ indices c)) }
{
    let slices = table.slices.as_slice();
    let mut choice = Vec::new(alloc);
    let mut p = Pair { size: 0, error: 0 };
    for k in 0..slices.len() {
        let next_marks = &marks[slices.len() - 1 - k];
        let Some(x) = first_lead(slices[k].entries(), &layers[k + 1], next_marks, p) else {
            unreachable!()
        };
        choice.push(x.index)?;
        p = Pair {
            size: p.size + u32::from(x.size),
            error: p.error + x.error,
        };
    }
    Ok(choice)
}

/// The indices of the first choice with the goal's pair, in lexicographic order. The pairs that lead to the goal
/// are marked from the last frontier back; then, slice by slice, the first entry that leads to a marked pair is
/// taken.
pub fn first_choice(
    alloc: Global,
    table: &FrameTable,
    layers: &[Vec<Pair>],
    goal: Pair,
) -> Result<Vec<u8>, AllocError>
    requires { (m u : ℕ) × AreFound table.now m u goal (map (λ l. l.items) layers.now) }
    ensures { IfOk result (λ v. (c : List Entry) × IsFirst table.now.slices goal c × (v.items ≡ indices c)) }
{
    let marks = marks_of(alloc, table, layers, goal)?;
    walk(alloc, table, layers, &marks, goal)
}
