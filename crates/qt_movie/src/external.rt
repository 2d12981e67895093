//! Data references: which file holds the data of a track.

ghost use Rattle.std.specs.Prelude.{◌≡◌, ◌≤◌, ◌<◌, ◌+◌, ◌^◌, length, IfOk, IfSome, Ok, false};
ghost use Rattle.pw_outside.specs.Ports.{CountsFault};
ghost use Rattle.pw_outside.specs.Reading.{Answers, Told};
ghost use Rattle.qt_atoms.specs.Atoms.{LiesIn};
ghost use Rattle.qt_tables.specs.Faults.{told_fault, is_failed, is_out_of_memory};
ghost use Rattle.qt_movie.specs.Movie.{reference_at, references, references_of, dref_in, data_in, lies_here, is_external};

use crate::description::Description;
use crate::fields::{bad, u32_of};
use pw_outside::ByteStore;
use qt_atoms::{Atom, find};
use qt_tables::{MovieFault, MovieKind};
use std::alloc::Global;

/// An entry of a `dref`.
#[derive(Clone, Copy, Debug, PartialEq, Eq)]
pub(crate) struct Reference {
    /// Its size in bytes.
    pub(crate) size: u32,
    /// Whether the data lies in the same file.
    pub(crate) here: bool,
}

/// The entry at an offset of a `dref`, if there is one.
#[tactic(auto, unfolding(crate::specs::Movie::reference_at))]
fn reference_of<M: ByteStore>(
    store: &mut M,
    dref: &Atom,
    place: u64,
) -> Result<Option<Reference>, MovieFault>
    requires order { place ≤ dref.now.end }
    requires inside { Told (M.bytes store.old) (λ file. dref.now.end ≤ length file) }
    ensures value { Told (M.bytes store.old) (λ file. Answers told_fault (λ x. x) result (Ok (reference_at file place dref.now.end))) }
    ensures within { IfOk result (λ found. IfSome found (λ r. place + r.size ≤ dref.now.end)) }
    ensures bytes { M.bytes store.new ≡ M.bytes store.old }
    ensures cause { CountsFault (M.faults store.old) (M.faults store.new) (is_failed result) }
    ensures memory { is_out_of_memory result ≡ false }
{
    let room = dref.end - place;
    if room < 12 {
        return Ok(None);
    }
    let size = u32_of(store, place, dref.at)?;
    if size < 12 || room < u64::from(size) {
        return Ok(None);
    }
    let flags = u32_of(store, place + 8, dref.at)?;
    Ok(Some(Reference {
        size,
        here: flags % 2 == 1,
    }))
}

/// For each of `count` entries of a `dref`, from offset `place` on, whether the data lies in the same file; stops
/// before the first missing entry.
fn references_from<M: ByteStore>(
    alloc: Global,
    store: &mut M,
    dref: &Atom,
    place: u64,
    count: u32,
) -> Result<Vec<bool>, MovieFault>
    requires order { place ≤ dref.now.end }
    requires room { dref.now.end < 2 ^ 64 }
    requires inside { Told (M.bytes store.old) (λ file. dref.now.end ≤ length file) }
    ensures value { Told (M.bytes store.old) (λ file. Answers told_fault (λ v. v.items) result (Ok (references file dref.now.end count place))) }
    ensures bytes { M.bytes store.new ≡ M.bytes store.old }
    ensures cause { CountsFault (M.faults store.old) (M.faults store.new) (is_failed result) }
{
    let mut references = Vec::new(alloc);
    let mut place = place;
    for _ in 0..count {
        match reference_of(store, dref, place)? {
            None => return Ok(references),
            Some(reference) => {
                references.push(reference.here)?;
                place += u64::from(reference.size);
            }
        }
    }
    Ok(references)
}

/// The entries of a `dref`.
#[tactic(auto, unfolding(crate::specs::Movie::references_of))]
pub fn references_of<M: ByteStore>(
    alloc: Global,
    store: &mut M,
    dref: &Atom,
) -> Result<Vec<bool>, MovieFault>
    requires order { dref.now.body ≤ dref.now.end }
    requires inside { Told (M.bytes store.old) (λ file. dref.now.end ≤ length file) }
    ensures value { Told (M.bytes store.old) (λ file. Answers told_fault (λ v. v.items) result (Ok (references_of file dref.now))) }
    ensures bytes { M.bytes store.new ≡ M.bytes store.old }
    ensures cause { CountsFault (M.faults store.old) (M.faults store.new) (is_failed result) }
{
    if dref.end - dref.body < 8 {
        return Ok(Vec::new(alloc));
    }
    let count = u32_of(store, dref.body + 4, dref.at)?;
    references_from(alloc, store, dref, dref.body + 8, count.min(65535))
}

/// The `dref` of a track, if there is one.
#[tactic(auto, unfolding(crate::specs::Movie::dref_in, pw_outside::specs::Reading::bind))]
pub fn dref_of<M: ByteStore>(store: &mut M, minf: &Atom) -> Result<Option<Atom>, MovieFault>
    requires order { minf.now.body ≤ minf.now.end }
    requires inside { Told (M.bytes store.old) (λ file. minf.now.end ≤ length file) }
    ensures value { Told (M.bytes store.old) (λ file. Answers told_fault (λ x. x) result (dref_in file minf.now)) }
    ensures lies { IfOk result (λ found. IfSome found (LiesIn minf.now.body minf.now.end)) }
    ensures bytes { M.bytes store.new ≡ M.bytes store.old }
    ensures cause { CountsFault (M.faults store.old) (M.faults store.new) (is_failed result) }
    // Takes no memory.
    ensures memory { is_out_of_memory result ≡ false }
{
    match find(store, minf, *b"dinf")? {
        Some(dinf) => Ok(find(store, &dinf, *b"dref")?),
        None => Ok(None),
    }
}

/// Whether the data of reference `reference`, from 1, lies in the same file.
pub fn lies_here(references: &[bool], reference: u16) -> bool
    ensures { result ≡ lies_here references.now reference }
{
    if reference == 0 {
        return false;
    }
    match references.get(usize::from(reference) - 1) {
        Some(here) => *here,
        None => false,
    }
}

/// Whether the data of some description lies in another file, or nowhere.
fn is_external(references: &[bool], descriptions: &[Description]) -> bool
    ensures { result ≡ is_external references.now descriptions.now }
{
    descriptions.iter().any(|description| !lies_here(references, description.reference))
}

/// Validates that all data of a track lies in the same file.
#[tactic(auto, unfolding(crate::specs::Movie::data_in, pw_outside::specs::Reading::bind))]
pub(crate) fn judge_data<M: ByteStore>(
    alloc: Global,
    store: &mut M,
    minf: &Atom,
    descriptions: &[Description],
) -> Result<(), MovieFault>
    requires order { minf.now.body ≤ minf.now.end }
    requires inside { Told (M.bytes store.old) (λ file. minf.now.end ≤ length file) }
    ensures value { Told (M.bytes store.old) (λ file. Answers told_fault (λ x. x) result (data_in file minf.now descriptions.now)) }
    ensures bytes { M.bytes store.new ≡ M.bytes store.old }
    ensures cause { CountsFault (M.faults store.old) (M.faults store.new) (is_failed result) }
{
    let dref = match dref_of(store, minf)? {
        Some(dref) => dref,
        None => return Ok(()),
    };
    let references = references_of(alloc, store, &dref)?;
    if is_external(&references, descriptions) {
        return Err(bad(MovieKind::ExternalData, minf.at));
    }
    Ok(())
}
