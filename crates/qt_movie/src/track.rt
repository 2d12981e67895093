//! Selects the track.

ghost use Rattle.std.specs.Prelude.{◌≡◌, ◌≤◌, ◌<◌, ◌+◌, ◌^◌, length, IfOk, IfSome, None, Ok, false};
ghost use Rattle.std.specs.List.{All, list_all};
ghost use Rattle.pw_outside.specs.Ports.{CountsFault};
ghost use Rattle.pw_outside.specs.Reading.{Answers, Told};
ghost use Rattle.qt_atoms.specs.Atoms.{children};
ghost use Rattle.qt_tables.specs.Faults.{told_fault, is_failed, is_out_of_memory};
ghost use Rattle.qt_movie.specs.Movie.{is_prores, is_trak, is_video, prores_track, track_in, first_track, traks_of};
ghost use Rattle.qt_movie.specs.Ranges.{PartsLie, HasSize, TrackLies};

use crate::description::{Description, descriptions_of, is_prores};
use crate::fields::bytes_of;
use crate::parts::{Parts, parts_of};
use pw_outside::ByteStore;
use qt_atoms::{Atom, Step, next_atom};
use qt_tables::MovieFault;
use std::alloc::Global;
use std::marker::Model;

/// A track of ProRes pictures.
#[derive(Drop)]
pub(crate) struct VideoTrack {
    number: u64,
    parts: Parts,
    first: Description,
    descriptions: Vec<Description>,
}

impl Model for VideoTrack {
    ghost use Rattle.qt_movie.specs.Movie.{VideoTrack};

    ghost Value = { VideoTrack };

    ghost view = { λ t. record { number = t.number; parts = t.parts; first = t.first; descriptions = t.descriptions.items } };
}

impl VideoTrack {
    ghost use Rattle.std.specs.Prelude.{◌≡◌, ◌≤◌, ◌+◌, IfSome};
    ghost use Rattle.std.specs.List.{All};
    ghost use Rattle.qt_movie.specs.Movie.{prores_track};
    ghost use Rattle.qt_movie.specs.Ranges.{HasSize};

    /// The track with these descriptions, if there are any and all are of ProRes.
    fn of(number: u64, parts: Parts, descriptions: Vec<Description>) -> Option<VideoTrack>
        requires sizes { All (HasSize parts.stsd.end) descriptions.items }
        ensures value { result ≡ prores_track number parts descriptions.items }
        ensures first { IfSome result (λ t. t.first.at + 86 ≤ parts.stsd.end) }
        ensures parts { IfSome result (λ t. t.parts ≡ parts) }
    {
        if !are_prores(&descriptions) {
            return None;
        }
        let first = *descriptions.first()?;
        Some(VideoTrack {
            number,
            parts,
            first,
            descriptions,
        })
    }

    /// Its number among the tracks of the movie, from 1.
    pub(crate) fn number(&self) -> u64
        ensures { result ≡ self.now.number }
    {
        self.number
    }

    /// The atoms that describe its pictures.
    pub(crate) fn parts(&self) -> &Parts
        ensures { result.now ≡ self.now.parts }
    {
        &self.parts
    }

    /// Its first description.
    pub(crate) fn first(&self) -> &Description
        ensures { result.now ≡ self.now.first }
    {
        &self.first
    }

    /// All its descriptions.
    pub(crate) fn descriptions(&self) -> &[Description]
        ensures { result.now ≡ self.now.descriptions }
    {
        &self.descriptions
    }
}

fn are_prores(descriptions: &[Description]) -> bool
    ensures { result ≡ list_all (λ d. is_prores d.kind) descriptions.now }
{
    descriptions
        .iter()
        .all(|description| is_prores(description.kind))
}

/// Whether the handler is for pictures.
fn is_video<M: ByteStore>(store: &mut M, hdlr: &Atom) -> Result<bool, MovieFault>
    requires order { hdlr.now.body ≤ hdlr.now.end }
    requires inside { Told (M.bytes store.old) (λ file. hdlr.now.end ≤ length file) }
    ensures value { Told (M.bytes store.old) (λ file. Answers told_fault (λ x. x) result (Ok (is_video file hdlr.now))) }
    ensures bytes { M.bytes store.new ≡ M.bytes store.old }
    ensures cause { CountsFault (M.faults store.old) (M.faults store.new) (is_failed result) }
    ensures memory { is_out_of_memory result ≡ false }
{
    if hdlr.end - hdlr.body < 12 {
        return Ok(false);
    }
    let subtype = bytes_of::<M, 4>(store, hdlr.body + 8, hdlr.at)?;
    Ok(subtype == *b"vide")
}

/// The track of a `trak`, with this number; `None` if it is skipped.
#[tactic(auto, unfolding(crate::specs::Movie::track_in, pw_outside::specs::Reading::bind))]
fn track_of<M: ByteStore>(
    alloc: Global,
    store: &mut M,
    number: u64,
    trak: &Atom,
) -> Result<Option<VideoTrack>, MovieFault>
    requires order { trak.now.body ≤ trak.now.end }
    requires inside { Told (M.bytes store.old) (λ file. trak.now.end ≤ length file) }
    ensures value { Told (M.bytes store.old) (λ file. Answers told_fault (λ x. x) result (track_in file number trak.now)) }
    ensures lies { IfOk result (λ found. IfSome found (TrackLies trak.now.body trak.now.end)) }
    ensures bytes { M.bytes store.new ≡ M.bytes store.old }
    ensures cause { CountsFault (M.faults store.old) (M.faults store.new) (is_failed result) }
{
    let parts = match parts_of(store, trak)? {
        Some(parts) => parts,
        None => return Ok(None),
    };
    if !is_video(store, &parts.hdlr)? {
        return Ok(None);
    }
    let descriptions = descriptions_of(alloc, store, &parts.stsd)?;
    Ok(VideoTrack::of(number, parts, descriptions))
}

/// The first track of a `moov` that isn't skipped.
pub(crate) fn first_track_of<M: ByteStore>(
    alloc: Global,
    store: &mut M,
    moov: &Atom,
) -> Result<Option<VideoTrack>, MovieFault>
    requires order { moov.now.body ≤ moov.now.end }
    requires inside { Told (M.bytes store.old) (λ file. moov.now.end ≤ length file) }
    requires whole { Told (M.bytes store.old) (λ file. (children file moov.now).bad ≡ None) }
    ensures value { Told (M.bytes store.old) (λ file. Answers told_fault (λ x. x) result (first_track file (traks_of file moov.now) 1)) }
    ensures lies { IfOk result (λ found. IfSome found (TrackLies moov.now.body moov.now.end)) }
    ensures bytes { M.bytes store.new ≡ M.bytes store.old }
    ensures cause { CountsFault (M.faults store.old) (M.faults store.new) (is_failed result) }
{
    let mut number = 0;
    let mut place = moov.body;
    'walk: while place < moov.end {
        let atom = match next_atom(store, place, moov.end, false)? {
            Step::End => return Ok(None),
            Step::Atom(atom) => atom,
        };
        place = atom.end;
        if !is_trak(&atom) {
            continue;
        }
        number += 1;
        match track_of(alloc, store, number, &atom)? {
            Some(track) => return Ok(Some(track)),
            None => continue,
        }
    }
    Ok(None)
}

fn is_trak(atom: &Atom) -> bool
    ensures { result ≡ is_trak atom.now }
{
    atom.kind == *b"trak"
}
