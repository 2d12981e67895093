//! The sample descriptions of a track.

ghost use Rattle.std.specs.Prelude.{◌≡◌, ◌≤◌, ◌<◌, ◌+◌, ◌^◌, length, IfOk, false};
ghost use Rattle.std.specs.List.{All};
ghost use Rattle.pw_outside.specs.Ports.{CountsFault};
ghost use Rattle.pw_outside.specs.Reading.{Answers, Told};
ghost use Rattle.qt_tables.specs.Faults.{told_fault, is_failed, is_out_of_memory};
ghost use Rattle.qt_movie.specs.Movie.{is_prores, description_in, described, descriptions_in};
ghost use Rattle.qt_movie.specs.Ranges.{DescriptionLies, HasSize};

use crate::fields::{bad, bytes_of, u16_of, u32_of};
use pw_outside::ByteStore;
use qt_atoms::Atom;
use qt_tables::{MovieFault, MovieKind};
use std::alloc::Global;

/// The ProRes kinds: 422 Proxy, LT, Standard and HQ, 4444 and 4444 XQ.
const PRORES: [[u8; 4]; 6] = [*b"apco", *b"apcs", *b"apcn", *b"apch", *b"ap4h", *b"ap4x"];

/// The maximum number of descriptions of a track.
const MAX_DESCRIPTIONS: u32 = 1000;

/// The head of a sample description.
#[derive(Clone, Copy, Debug, PartialEq, Eq)]
pub struct Description {
    /// Its offset in the file.
    pub at: u64,
    /// Its size in bytes.
    pub size: u32,
    /// The kind of the samples' data.
    pub kind: [u8; 4],
    /// The number of the data reference, from 1.
    pub reference: u16,
}

/// Whether this kind is a ProRes kind.
pub(crate) fn is_prores(kind: [u8; 4]) -> bool
    ensures { result ≡ is_prores kind }
{
    PRORES.iter().any(|prores| kind == *prores)
}

/// The description at an offset of an `stsd`.
#[tactic(auto, unfolding(crate::specs::Movie::description_in, pw_outside::specs::Reading::bind))]
fn description_of<M: ByteStore>(
    store: &mut M,
    stsd: &Atom,
    place: u64,
) -> Result<Description, MovieFault>
    requires order { place ≤ stsd.now.end }
    requires inside { Told (M.bytes store.old) (λ file. stsd.now.end ≤ length file) }
    ensures value { Told (M.bytes store.old) (λ file. Answers told_fault (λ x. x) result (description_in file stsd.now place)) }
    ensures lies { IfOk result (DescriptionLies place stsd.now.end) }
    ensures bytes { M.bytes store.new ≡ M.bytes store.old }
    ensures cause { CountsFault (M.faults store.old) (M.faults store.new) (is_failed result) }
    ensures memory { is_out_of_memory result ≡ false }
{
    let room = stsd.end - place;
    if room < 16 {
        return Err(bad(MovieKind::TableShape, stsd.at));
    }
    let size = u32_of(store, place, stsd.at)?;
    let kind = bytes_of::<M, 4>(store, place + 4, stsd.at)?;
    if size < 16 || room < u64::from(size) || (is_prores(kind) && size < 86) {
        return Err(bad(MovieKind::TableShape, stsd.at));
    }
    let reference = u16_of(store, place + 14, stsd.at)?;
    Ok(Description {
        at: place,
        size,
        kind,
        reference,
    })
}

/// `count` descriptions of an `stsd`, from offset `place` on.
#[tactic(auto, using(crate::proofs::InOrder::after_front_nil))]
fn described_of<M: ByteStore>(
    alloc: Global,
    store: &mut M,
    stsd: &Atom,
    place: u64,
    count: u32,
) -> Result<Vec<Description>, MovieFault>
    requires order { place ≤ stsd.now.end }
    requires room { stsd.now.end < 2 ^ 64 }
    requires inside { Told (M.bytes store.old) (λ file. stsd.now.end ≤ length file) }
    ensures value { Told (M.bytes store.old) (λ file. Answers told_fault (λ v. v.items) result (described file stsd.now count place)) }
    ensures sizes { IfOk result (λ v. All (HasSize stsd.now.end) v.items) }
    ensures bytes { M.bytes store.new ≡ M.bytes store.old }
    ensures cause { CountsFault (M.faults store.old) (M.faults store.new) (is_failed result) }
{
    let mut descriptions = Vec::new(alloc);
    let mut place = place;
    for _ in 0..count {
        let description = description_of(store, stsd, place)?;
        descriptions.push(description)?;
        place += u64::from(description.size);
    }
    Ok(descriptions)
}

/// The descriptions of an `stsd`.
#[tactic(auto, unfolding(crate::specs::Movie::descriptions_in, pw_outside::specs::Reading::bind))]
pub(crate) fn descriptions_of<M: ByteStore>(
    alloc: Global,
    store: &mut M,
    stsd: &Atom,
) -> Result<Vec<Description>, MovieFault>
    requires order { stsd.now.body ≤ stsd.now.end }
    requires inside { Told (M.bytes store.old) (λ file. stsd.now.end ≤ length file) }
    ensures value { Told (M.bytes store.old) (λ file. Answers told_fault (λ v. v.items) result (descriptions_in file stsd.now)) }
    ensures sizes { IfOk result (λ v. All (HasSize stsd.now.end) v.items) }
    ensures bytes { M.bytes store.new ≡ M.bytes store.old }
    ensures cause { CountsFault (M.faults store.old) (M.faults store.new) (is_failed result) }
{
    if stsd.end - stsd.body < 8 {
        return Err(bad(MovieKind::TableShape, stsd.at));
    }
    let count = u32_of(store, stsd.body + 4, stsd.at)?;
    if count > MAX_DESCRIPTIONS {
        return Err(bad(MovieKind::TableShape, stsd.at));
    }
    described_of(alloc, store, stsd, stsd.body + 8, count)
}
