//! Marks of the pairs of a frontier from which an entry leads to a marked pair of the next.

ghost use Rattle.std.specs.Prelude.{◌≡◌, IfOk, IfSome, IfNone, length};
ghost use Rattle.std.specs.List.{Contains};
ghost use Rattle.rate_table.specs.declared.entry.Pair.{Pair};
ghost use Rattle.rate_table.specs.Pairs.{joined};
ghost use Rattle.rate_layers.specs.Layers.{Rises};
ghost use Rattle.rate_layers.specs.inner.Live.{MarkedMore, MarkedOn, LeadsAt};

use crate::bits::Marks;
use crate::places::place_of;
use rate_table::{Entry, Pair};
use std::alloc::{AllocError, Global};

/// The position of the pair that the entry leads from to this one, if it is in the frontier.
fn source_of(layer: &[Pair], x: Entry, q: Pair) -> Option<usize>
    requires { Rises layer.now }
    ensures some { IfSome result (LeadsAt layer.now x q) }
    ensures none { IfNone result ((p : Pair) → Contains layer.now p → joined p x ≡ q → ⊥) }
{
    if u32::from(x.size) <= q.size && x.error <= q.error {
        place_of(
            layer,
            u64::from(q.size - u32::from(x.size)),
            u128::from(q.error - x.error),
        )
    } else {
        None
    }
}

/// Marks the pairs of a frontier from which an entry of the slice leads to this pair.
fn mark_sources(marks: &mut Marks, layer: &[Pair], slice: &[Entry], q: Pair)
    requires layer { Rises layer.now }
    requires count { length marks.old ≡ length layer.now }
    ensures count { length marks.new ≡ length layer.now }
    ensures more { MarkedMore slice.now q layer.now marks.old marks.new }
{
    for x in slice {
        if let Some(at) = source_of(layer, *x, q) {
            marks.set(at);
        }
    }
}

/// A mark for each pair of a frontier: it is set if an entry of the slice leads from the pair to a marked pair of
/// the next frontier.
pub fn marks_before(
    alloc: Global,
    layer: &[Pair],
    slice: &[Entry],
    next: &[Pair],
    next_marks: &Marks,
) -> Result<Marks, AllocError>
    requires layer { Rises layer.now }
    requires count { length next_marks.now ≡ length next.now }
    ensures { IfOk result (MarkedOn slice.now next.now next_marks.now layer.now) }
{
    let mut marks = Marks::new(alloc, layer.len())?;
    for i in 0..next.len() {
        if next_marks.get(i) {
            mark_sources(&mut marks, layer, slice, next[i]);
        }
    }
    Ok(marks)
}
