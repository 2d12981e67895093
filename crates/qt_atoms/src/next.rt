//! Reads the next atom.

ghost use Rattle.std.specs.Prelude.{◌≡◌, ◌≤◌, ◌<◌, ◌+◌, ◌^◌, length, false, IfOk, Ok};
ghost use Rattle.std.specs.Int.{w32};
ghost use Rattle.pw_outside.specs.Ports.{CountsFault};
ghost use Rattle.pw_outside.specs.Reading.{Answers, Told};
ghost use Rattle.qt_atoms.specs.Atoms.{bytes_in, number_in, kind_in, framed, atom_at, told_fault, is_failed, StartsAt};

use crate::atom::{Atom, AtomFault, Step};
use pw_outside::{ByteStore, fill_at};

/// Reads `N` bytes, which the store has, from the head of the atom at `at`.
fn piece_of<M: ByteStore, const N: usize>(
    store: &mut M,
    place: u64,
    at: u64,
) -> Result<[u8; N], AtomFault>
    requires inside { Told (M.bytes store.old) (λ file. place + N ≤ length file) }
    requires room { place + N < 2 ^ 64 }
    ensures value { Told (M.bytes store.old) (λ file. Answers told_fault (λ x. x) result (Ok (bytes_in N file place))) }
    ensures bytes { M.bytes store.new ≡ M.bytes store.old }
    ensures cause { CountsFault (M.faults store.old) (M.faults store.new) (is_failed result) }
{
    let mut piece = [0u8; N];
    let count = fill_at(store, place, &mut piece)?;
    if count < N {
        return Err(AtomFault::Size(at));
    }
    Ok(piece)
}

/// Reads the size and the kind from the head of the atom at an offset.
fn head_of<M: ByteStore>(store: &mut M, at: u64) -> Result<(u32, [u8; 4]), AtomFault>
    requires inside { Told (M.bytes store.old) (λ file. at + 8 ≤ length file) }
    requires room { at + 8 < 2 ^ 64 }
    ensures value { Told (M.bytes store.old) (λ file. Answers told_fault (λ x. x) result (Ok (number_in w32 file at, kind_in file at))) }
    ensures bytes { M.bytes store.new ≡ M.bytes store.old }
    ensures cause { CountsFault (M.faults store.old) (M.faults store.new) (is_failed result) }
{
    let head = piece_of::<M, 8>(store, at, at)?;
    let mut size = [0u8; 4];
    let mut kind = [0u8; 4];
    size.copy_from_slice(&head[..4]);
    kind.copy_from_slice(&head[4..]);
    Ok((u32::from_be_bytes(size), kind))
}

/// The atom with this head length and total size; an error if it doesn't fit.
fn atom_of(kind: [u8; 4], at: u64, end: u64, head: u64, size: u64) -> Result<Step, AtomFault>
    requires order { at ≤ end }
    requires head { 8 ≤ head }
    ensures value { Answers told_fault (λ x. x) result (framed kind at end head size) }
    ensures lies { IfOk result (StartsAt at end) }
    ensures failed { is_failed result ≡ false }
{
    if size < head || end - at < size {
        return Err(AtomFault::Size(at));
    }
    Ok(Step::Atom(Atom {
        kind,
        at,
        body: at + head,
        end: at + size,
    }))
}

/// Reads the next entry before an end offset, at the top level of a file or inside a parent: an atom, or the end of
/// the walk. `AtomFault::Size` is a bad size, with the atom's offset. An atom that is returned lies between the two
/// offsets, whether the bytes are visible or opaque. Takes no memory.
#[tactic(auto, unfolding(crate::specs::Atoms::atom_at))]
pub fn next_atom<M: ByteStore>(
    store: &mut M,
    at: u64,
    end: u64,
    top: bool,
) -> Result<Step, AtomFault>
    requires order { at ≤ end }
    requires inside { Told (M.bytes store.old) (λ file. end ≤ length file) }
    ensures value { Told (M.bytes store.old) (λ file. Answers told_fault (λ x. x) result (atom_at file at end top)) }
    ensures lies { IfOk result (StartsAt at end) }
    ensures bytes { M.bytes store.new ≡ M.bytes store.old }
    ensures cause { CountsFault (M.faults store.old) (M.faults store.new) (is_failed result) }
{
    if end - at < 8 {
        return Ok(Step::End);
    }
    let (size, kind) = head_of(store, at)?;
    if size == 0 {
        if top {
            return atom_of(kind, at, end, 8, end - at);
        }
        return Ok(Step::End);
    }
    if size == 1 {
        if end - at < 16 {
            return Err(AtomFault::Size(at));
        }
        let long = piece_of::<M, 8>(store, at + 8, at)?;
        return atom_of(kind, at, end, 16, u64::from_be_bytes(long));
    }
    atom_of(kind, at, end, 8, u64::from(size))
}
