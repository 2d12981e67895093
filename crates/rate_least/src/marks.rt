//! Marks of the pairs of a frontier from which an entry leads to a marked pair of the next.

ghost use Rattle.std.specs.Prelude.{◌≡◌, IfOk, IfSome, IfNone, length};
ghost use Rattle.std.specs.List.{Contains};
ghost use Rattle.rate_least.specs.declared.outcome.WidePair.{WidePair};
ghost use Rattle.rate_least.specs.Pairs.{joined};
ghost use Rattle.rate_least.specs.Layers.{Rises};
ghost use Rattle.rate_least.specs.inner.Live.{MarkedMore, MarkedOn, LeadsAt};

use crate::outcome::WidePair;
use crate::places::place_of;
use rate_table::Entry;
use std::alloc::{AllocError, Global};

/// The position of the pair that the entry leads from to this one, if it is in the frontier.
fn source_of(layer: &[WidePair], x: Entry, q: WidePair) -> Option<usize>
    requires { Rises layer.now }
    ensures some { IfSome result (LeadsAt layer.now x q) }
    ensures none { IfNone result ((p : WidePair) → Contains layer.now p → joined p x ≡ q → ⊥) }
{
    if u64::from(x.size) <= q.size && x.error <= q.error {
        place_of(
            layer,
            u128::from(q.size - u64::from(x.size)),
            u128::from(q.error - x.error),
        )
    } else {
        None
    }
}

/// Marks the pairs of a frontier from which an entry of the slice leads to this pair.
fn mark_sources(marks: &mut [bool], layer: &[WidePair], slice: &[Entry], q: WidePair)
    requires layer { Rises layer.now }
    requires count { length marks.old ≡ length layer.now }
    ensures count { length marks.new ≡ length layer.now }
    ensures more { MarkedMore slice.now q layer.now marks.old marks.new }
{
    for x in slice {
        if let Some(at) = source_of(layer, *x, q) {
            marks[at] = true;
        }
    }
}

/// A mark for each pair of a frontier: it is set if an entry of the slice leads from the pair to a marked pair of
/// the next frontier.
pub fn marks_before(
    alloc: Global,
    layer: &[WidePair],
    slice: &[Entry],
    next: &[WidePair],
    next_marks: &[bool],
) -> Result<Vec<bool>, AllocError>
    requires layer { Rises layer.now }
    requires count { length next_marks.now ≡ length next.now }
    ensures { IfOk result (λ v. MarkedOn slice.now next.now next_marks.now layer.now v.items) }
{
    let mut marks = Vec::new(alloc);
    marks.resize(layer.len(), false)?;
    for i in 0..next.len() {
        if next_marks[i] {
            mark_sources(&mut marks, layer, slice, next[i]);
        }
    }
    Ok(marks)
}
