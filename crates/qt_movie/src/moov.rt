//! The movie atom.

ghost use Rattle.std.specs.Prelude.{◌≡◌, ◌≤◌, length, codes, false, IfOk, OnOk, None, Some};
ghost use Rattle.pw_outside.specs.Ports.{CountsFault};
ghost use Rattle.pw_outside.specs.Reading.{Answers, Told};
ghost use Rattle.qt_atoms.specs.Atoms.{LiesIn, children, is_kind};
ghost use Rattle.qt_tables.specs.declared.fault.MovieKind.TheVariants as kinds;
ghost use Rattle.qt_tables.specs.Faults.{told_fault, is_failed, is_out_of_memory, some_or};
ghost use Rattle.qt_movie.specs.Movie.{moov_in, moov_or, whole_in, unread_kind};

use crate::fields::bad;
use pw_outside::ByteStore;
use qt_atoms::{Atom, Step, find_either, next_atom};
use qt_tables::{MovieFault, MovieKind};

fn is_moof(atom: &Atom) -> bool
    ensures { result ≡ is_kind (codes "moof") atom.now }
{
    atom.kind == *b"moof"
}

fn is_moov(atom: &Atom) -> bool
    ensures { result ≡ is_kind (codes "moov") atom.now }
{
    atom.kind == *b"moov"
}

/// `met`, the first `moov` before this atom, or this atom if there is none and it is one.
fn first_moov(met: Option<Atom>, atom: &Atom) -> Option<Atom>
    ensures { result ≡ moov_or met atom.now }
{
    match met {
        Some(moov) => Some(moov),
        None => { if is_moov(atom) { Some(*atom) } else { None } }
    }
}

/// The `moov`; `NoMoov` if there is none.
fn met_moov(moov: Option<Atom>) -> Result<Atom, MovieFault>
    ensures value { Answers told_fault (λ x. x) result (some_or moov kinds.NoMoov 0) }
    ensures lies { IfOk result (λ m. moov ≡ Some m) }
    ensures failed { is_failed result ≡ false }
    ensures memory { is_out_of_memory result ≡ false }
{
    match moov {
        Some(moov) => Ok(moov),
        None => Err(bad(MovieKind::NoMoov, 0)),
    }
}

/// The first `moov` of a file of `end` bytes. Walks the top level once.
pub fn moov_of<M: ByteStore>(store: &mut M, end: u64) -> Result<Atom, MovieFault>
    requires end { Told (M.bytes store.old) (λ file. end ≡ length file) }
    ensures value { Told (M.bytes store.old) (λ file. Answers told_fault (λ x. x) result (moov_in file)) }
    ensures lies { IfOk result (LiesIn 0 end) }
    ensures bytes { M.bytes store.new ≡ M.bytes store.old }
    ensures cause { CountsFault (M.faults store.old) (M.faults store.new) (is_failed result) }
    // Takes no memory.
    ensures memory { is_out_of_memory result ≡ false }
{
    let mut moov = None;
    let mut place = 0;
    'walk: while place < end {
        let atom = match next_atom(store, place, end, true)? {
            Step::End => return met_moov(moov),
            Step::Atom(atom) => atom,
        };
        if is_moof(&atom) {
            return Err(bad(MovieKind::Fragmented, atom.at));
        }
        moov = first_moov(moov, &atom);
        place = atom.end;
    }
    met_moov(moov)
}

fn kind_of(other: &Atom) -> MovieKind
    ensures { result ≡ unread_kind other.now }
{
    if other.kind == *b"cmov" {
        MovieKind::Compressed
    } else {
        MovieKind::Fragmented
    }
}

/// Validates the children of a `moov`: no `cmov`, no `mvex`, no bad size.
#[tactic(auto, unfolding(crate::specs::Movie::whole_in, pw_outside::specs::Reading::bind), using(qt_atoms::proofs::Walks::none_is_whole))]
pub fn judge_children<M: ByteStore>(store: &mut M, moov: &Atom) -> Result<(), MovieFault>
    requires order { moov.now.body ≤ moov.now.end }
    requires inside { Told (M.bytes store.old) (λ file. moov.now.end ≤ length file) }
    ensures value { Told (M.bytes store.old) (λ file. Answers told_fault (λ x. x) result (whole_in file moov.now)) }
    ensures whole { Told (M.bytes store.old) (λ file. OnOk result ((children file moov.now).bad ≡ None)) }
    ensures bytes { M.bytes store.new ≡ M.bytes store.old }
    ensures cause { CountsFault (M.faults store.old) (M.faults store.new) (is_failed result) }
    // Takes no memory.
    ensures memory { is_out_of_memory result ≡ false }
{
    match find_either(store, moov, [*b"cmov", *b"mvex"])? {
        None => Ok(()),
        Some(other) => Err(bad(kind_of(&other), other.at)),
    }
}
