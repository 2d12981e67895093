//! Finds the first atom of a walk with one of some kinds.

ghost use Rattle.std.specs.Prelude.{◌≡◌, ◌≤◌, length, IfOk, IfSome};
ghost use Rattle.pw_outside.specs.Ports.{CountsFault};
ghost use Rattle.pw_outside.specs.Reading.{Answers, Told};
ghost use Rattle.qt_atoms.specs.Atoms.{first_in, walk, child, child_of, is_one_of, told_fault, is_failed, LiesIn};

use crate::atom::{Atom, AtomFault, Step};
use crate::next::next_atom;
use pw_outside::ByteStore;

fn is_one_of(atom: &Atom, kinds: &[[u8; 4]]) -> bool
    ensures { result ≡ is_one_of kinds.now atom.now }
{
    kinds.iter().any(|kind| atom.kind == *kind)
}

/// The first atom with one of these kinds between an offset and an end; `None` exactly if the walk ends without
/// one. `AtomFault::Size` is a bad size met before one. Takes no memory.
pub fn first_of<M: ByteStore>(
    store: &mut M,
    at: u64,
    end: u64,
    top: bool,
    kinds: &[[u8; 4]],
) -> Result<Option<Atom>, AtomFault>
    requires order { at ≤ end }
    requires inside { Told (M.bytes store.old) (λ file. end ≤ length file) }
    ensures value { Told (M.bytes store.old) (λ file. Answers told_fault (λ x. x) result (first_in (is_one_of kinds.now) (walk file at end top))) }
    ensures lies { IfOk result (λ found. IfSome found (LiesIn at end)) }
    ensures bytes { M.bytes store.new ≡ M.bytes store.old }
    ensures cause { CountsFault (M.faults store.old) (M.faults store.new) (is_failed result) }
{
    let mut place = at;
    'walk: while place < end {
        match next_atom(store, place, end, top)? {
            Step::End => return Ok(None),
            Step::Atom(atom) => {
                if is_one_of(&atom, kinds) {
                    return Ok(Some(atom));
                }
                place = atom.end;
            }
        }
    }
    Ok(None)
}

/// The first child of this kind; `None` exactly if the walk of the parent ends without one. `AtomFault::Size` is a
/// bad size met before one. Takes no memory.
pub fn find<M: ByteStore>(
    store: &mut M,
    parent: &Atom,
    kind: [u8; 4],
) -> Result<Option<Atom>, AtomFault>
    requires order { parent.now.body ≤ parent.now.end }
    requires inside { Told (M.bytes store.old) (λ file. parent.now.end ≤ length file) }
    ensures value { Told (M.bytes store.old) (λ file. Answers told_fault (λ x. x) result (child file parent.now kind)) }
    ensures lies { IfOk result (λ found. IfSome found (LiesIn parent.now.body parent.now.end)) }
    ensures bytes { M.bytes store.new ≡ M.bytes store.old }
    ensures cause { CountsFault (M.faults store.old) (M.faults store.new) (is_failed result) }
{
    first_of(store, parent.body, parent.end, false, &[kind])
}

/// The first child with one of two kinds, as `find`.
pub fn find_either<M: ByteStore>(
    store: &mut M,
    parent: &Atom,
    kinds: [[u8; 4]; 2],
) -> Result<Option<Atom>, AtomFault>
    requires order { parent.now.body ≤ parent.now.end }
    requires inside { Told (M.bytes store.old) (λ file. parent.now.end ≤ length file) }
    ensures value { Told (M.bytes store.old) (λ file. Answers told_fault (λ x. x) result (child_of file parent.now kinds)) }
    ensures lies { IfOk result (λ found. IfSome found (LiesIn parent.now.body parent.now.end)) }
    ensures bytes { M.bytes store.new ≡ M.bytes store.old }
    ensures cause { CountsFault (M.faults store.old) (M.faults store.new) (is_failed result) }
{
    first_of(store, parent.body, parent.end, false, &kinds)
}
