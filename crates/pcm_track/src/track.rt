//! The sound track of a movie.

ghost use Rattle.std.specs.Prelude.{◌≡◌, ◌≤◌, ◌<◌, ◌+◌, ◌*◌, ◌^◌, length, IfOk, IfSome, None, Ok, codes, true};
ghost use Rattle.pw_outside.specs.Ports.{CountsFault};
ghost use Rattle.pw_outside.specs.Reading.{Answers, Told};
ghost use Rattle.qt_atoms.specs.Atoms.{children};
ghost use Rattle.qt_tables.specs.declared.tables.TheConstants.{MAX_SAMPLES};
ghost use Rattle.qt_tables.specs.declared.fault.MovieFault.TheVariants as faults;
ghost use Rattle.qt_tables.specs.Faults.{told_fault, is_failed};
ghost use Rattle.qt_tables.specs.Samples.{chunks, held_by};
ghost use Rattle.qt_tables.specs.Tables.{AreChunkLists};
ghost use Rattle.qt_movie.specs.Movie.{traks_of, is_trak, is_external, data_in};
ghost use Rattle.qt_movie.specs.Ranges.{PartsLie};
ghost use Rattle.pcm_track.specs.Wav.{sound_size, IsFormat};
ghost use Rattle.pcm_track.specs.Track.{is_sound, is_plain, sound_track_in, first_sound, readable_at, readable, readable_of, format_in, sound_in};

use crate::form::Format;
use pw_outside::ByteStore;
use qt_atoms::{Atom, Step, find, next_atom};
use qt_movie::{
    Description, Parts, bytes_of, dref_of, judge_children, lies_here, moov_of, parts_of,
    references_of, u16_of, u32_of,
};
use qt_tables::{ChunkTables, MovieFault, MovieKind};
use std::alloc::Global;

/// The greatest size of the sound: with the header of a WAV it fits 32 bits.
const MOST_BYTES: u64 = 4_294_967_250;

fn bad(kind: MovieKind, place: u64) -> MovieFault
    ensures { result ≡ faults.Bad kind place }
{
    MovieFault::Bad { kind, place }
}

/// Whether a handler is that of sound.
fn is_sound<M: ByteStore>(store: &mut M, hdlr: &Atom) -> Result<bool, MovieFault>
    requires order { hdlr.now.body ≤ hdlr.now.end }
    requires inside { Told (M.bytes store.old) (λ file. hdlr.now.end ≤ length file) }
    ensures value { Told (M.bytes store.old) (λ file. Answers told_fault (λ x. x) result (Ok (is_sound file hdlr.now))) }
    ensures bytes { M.bytes store.new ≡ M.bytes store.old }
    ensures cause { CountsFault (M.faults store.old) (M.faults store.new) (is_failed result) }
{
    if hdlr.end - hdlr.body < 12 {
        return Ok(false);
    }
    let subtype = bytes_of::<M, 4>(store, hdlr.body + 8, hdlr.at)?;
    Ok(subtype == *b"soun")
}

/// Whether the first description exists and is plain PCM.
fn is_plain<M: ByteStore>(store: &mut M, stsd: &Atom) -> Result<bool, MovieFault>
    requires order { stsd.now.body ≤ stsd.now.end }
    requires inside { Told (M.bytes store.old) (λ file. stsd.now.end ≤ length file) }
    ensures value { Told (M.bytes store.old) (λ file. Answers told_fault (λ x. x) result (Ok (is_plain file stsd.now))) }
    ensures some { IfOk result (λ plain. plain ≡ true → stsd.now.body + 16 ≤ stsd.now.end) }
    ensures bytes { M.bytes store.new ≡ M.bytes store.old }
    ensures cause { CountsFault (M.faults store.old) (M.faults store.new) (is_failed result) }
{
    if stsd.end - stsd.body < 16 {
        return Ok(false);
    }
    let count = u32_of(store, stsd.body + 4, stsd.at)?;
    let kind = bytes_of::<M, 4>(store, stsd.body + 12, stsd.at)?;
    Ok(0 < count && kind == *b"sowt")
}

/// The track of a `trak`, if it is plain PCM sound.
#[tactic(auto, unfolding(crate::specs::Track::sound_track_in, pw_outside::specs::Reading::bind))]
fn sound_track_of<M: ByteStore>(store: &mut M, trak: &Atom) -> Result<Option<Parts>, MovieFault>
    requires order { trak.now.body ≤ trak.now.end }
    requires inside { Told (M.bytes store.old) (λ file. trak.now.end ≤ length file) }
    ensures value { Told (M.bytes store.old) (λ file. Answers told_fault (λ x. x) result (sound_track_in file trak.now)) }
    ensures lie { IfOk result (λ found. IfSome found (PartsLie trak.now.body trak.now.end)) }
    ensures some { IfOk result (λ found. IfSome found (λ p. p.stsd.body + 16 ≤ p.stsd.end)) }
    ensures bytes { M.bytes store.new ≡ M.bytes store.old }
    ensures cause { CountsFault (M.faults store.old) (M.faults store.new) (is_failed result) }
{
    let parts = match parts_of(store, trak)? {
        Some(parts) => parts,
        None => return Ok(None),
    };
    if !is_sound(store, &parts.hdlr)? {
        return Ok(None);
    }
    if is_plain(store, &parts.stsd)? {
        Ok(Some(parts))
    } else {
        Ok(None)
    }
}

fn is_trak(atom: &Atom) -> bool
    ensures { result ≡ is_trak atom.now }
{
    atom.kind == *b"trak"
}

/// The first plain PCM sound track.
fn first_sound_of<M: ByteStore>(store: &mut M, moov: &Atom) -> Result<Option<Parts>, MovieFault>
    requires order { moov.now.body ≤ moov.now.end }
    requires inside { Told (M.bytes store.old) (λ file. moov.now.end ≤ length file) }
    requires whole { Told (M.bytes store.old) (λ file. (children file moov.now).bad ≡ None) }
    ensures value { Told (M.bytes store.old) (λ file. Answers told_fault (λ x. x) result (first_sound file (traks_of file moov.now))) }
    ensures lie { IfOk result (λ found. IfSome found (PartsLie moov.now.body moov.now.end)) }
    ensures some { IfOk result (λ found. IfSome found (λ p. p.stsd.body + 16 ≤ p.stsd.end)) }
    ensures bytes { M.bytes store.new ≡ M.bytes store.old }
    ensures cause { CountsFault (M.faults store.old) (M.faults store.new) (is_failed result) }
{
    let mut place = moov.body;
    'walk: while place < moov.end {
        let atom = match next_atom(store, place, moov.end, false)? {
            Step::End => return Ok(None),
            Step::Atom(atom) => atom,
        };
        place = atom.end;
        if !is_trak(&atom) {
            continue;
        }
        match sound_track_of(store, &atom)? {
            Some(parts) => return Ok(Some(parts)),
            None => continue,
        }
    }
    Ok(None)
}

/// The description at offset `place` of an `stsd`, if it is readable.
#[tactic(auto, unfolding(crate::specs::Track::readable_at))]
fn readable_of<M: ByteStore>(
    store: &mut M,
    stsd: &Atom,
    place: u64,
) -> Result<Option<Description>, MovieFault>
    requires order { place ≤ stsd.now.end }
    requires inside { Told (M.bytes store.old) (λ file. stsd.now.end ≤ length file) }
    ensures value { Told (M.bytes store.old) (λ file. Answers told_fault (λ x. x) result (Ok (readable_at file stsd.now place))) }
    ensures within { IfOk result (λ found. IfSome found (λ d. place + d.size ≤ stsd.now.end)) }
    ensures bytes { M.bytes store.new ≡ M.bytes store.old }
    ensures cause { CountsFault (M.faults store.old) (M.faults store.new) (is_failed result) }
{
    let room = stsd.end - place;
    if room < 16 {
        return Ok(None);
    }
    let size = u32_of(store, place, stsd.at)?;
    if size < 16 || room < u64::from(size) {
        return Ok(None);
    }
    let kind = bytes_of::<M, 4>(store, place + 4, stsd.at)?;
    let reference = u16_of(store, place + 14, stsd.at)?;
    Ok(Some(Description {
        at: place,
        size,
        kind,
        reference,
    }))
}

/// Whether one of the readable descriptions of an `stsd` refers to data in another file, or to no data reference.
/// Reads `count` descriptions from `place` on, and stops at the first unreadable one.
fn has_external<M: ByteStore>(
    store: &mut M,
    references: &[bool],
    stsd: &Atom,
    place: u64,
    count: u32,
) -> Result<bool, MovieFault>
    requires order { place ≤ stsd.now.end }
    requires room { stsd.now.end < 2 ^ 64 }
    requires inside { Told (M.bytes store.old) (λ file. stsd.now.end ≤ length file) }
    ensures value { Told (M.bytes store.old) (λ file. Answers told_fault (λ x. x) result (Ok (is_external references.now (readable file stsd.now count place)))) }
    ensures bytes { M.bytes store.new ≡ M.bytes store.old }
    ensures cause { CountsFault (M.faults store.old) (M.faults store.new) (is_failed result) }
{
    let mut place = place;
    for _ in 0..count {
        let description = match readable_of(store, stsd, place)? {
            Some(description) => description,
            None => return Ok(false),
        };
        if !lies_here(references, description.reference) {
            return Ok(true);
        }
        place += u64::from(description.size);
    }
    Ok(false)
}

/// Validates where the data of a sound track lies: all of it in the same file.
#[tactic(auto, unfolding(qt_movie::specs::Movie::data_in, pw_outside::specs::Reading::bind))]
fn judge_sound_data<M: ByteStore>(
    alloc: Global,
    store: &mut M,
    minf: &Atom,
    stsd: &Atom,
) -> Result<(), MovieFault>
    requires order { minf.now.body ≤ minf.now.end }
    requires inside { Told (M.bytes store.old) (λ file. minf.now.end ≤ length file) }
    requires stsd_order { stsd.now.body + 16 ≤ stsd.now.end }
    requires stsd_room { stsd.now.end < 2 ^ 64 }
    requires stsd_inside { Told (M.bytes store.old) (λ file. stsd.now.end ≤ length file) }
    ensures value { Told (M.bytes store.old) (λ file. Answers told_fault (λ x. x) result (data_in file minf.now (readable_of file stsd.now))) }
    ensures bytes { M.bytes store.new ≡ M.bytes store.old }
    ensures cause { CountsFault (M.faults store.old) (M.faults store.new) (is_failed result) }
{
    let dref = match dref_of(store, minf)? {
        Some(dref) => dref,
        None => return Ok(()),
    };
    let references = references_of(alloc, store, &dref)?;
    let count = u32_of(store, stsd.body + 4, stsd.at)?;
    if has_external(store, &references, stsd, stsd.body + 8, count)? {
        return Err(bad(MovieKind::ExternalData, minf.at));
    }
    Ok(())
}

/// The format in the first description of an `stsd`.
#[tactic(auto, unfolding(crate::specs::Track::format_in, pw_outside::specs::Reading::bind))]
fn format_of<M: ByteStore>(store: &mut M, stsd: &Atom) -> Result<Format, MovieFault>
    requires order { stsd.now.body + 16 ≤ stsd.now.end }
    requires inside { Told (M.bytes store.old) (λ file. stsd.now.end ≤ length file) }
    ensures value { Told (M.bytes store.old) (λ file. Answers told_fault (λ x. x) result (format_in file stsd.now)) }
    ensures format { IfOk result IsFormat }
    ensures bytes { M.bytes store.new ≡ M.bytes store.old }
    ensures cause { CountsFault (M.faults store.old) (M.faults store.new) (is_failed result) }
{
    let at = stsd.body + 8;
    let size = u32_of(store, at, stsd.at)?;
    if size < 36 || stsd.end - at < u64::from(size) {
        return Err(bad(MovieKind::SoundForm, stsd.at));
    }
    let channels = u16_of(store, at + 24, stsd.at)?;
    let bits = u16_of(store, at + 26, stsd.at)?;
    let rate = u16_of(store, at + 32, stsd.at)?;
    if (channels != 1 && channels != 2) || bits != 16 || rate == 0 {
        return Err(bad(MovieKind::SoundForm, stsd.at));
    }
    Ok(Format {
        channels: channels as u8,
        rate,
    })
}

/// The number of frames in the chunks.
fn frames_of(tables: &ChunkTables) -> u64
    requires { AreChunkLists tables.now }
    ensures value { result ≡ held_by (chunks tables.now.runs tables.now.offsets) }
    ensures small { result ≤ 4294967295 * MAX_SAMPLES }
{
    let mut frames = 0;
    for i in 0..tables.count() {
        frames += u64::from(tables.chunk(i).samples);
    }
    frames
}

/// The sound of a movie.
#[derive(Drop)]
pub(crate) struct SoundTrack {
    pub(crate) format: Format,
    pub(crate) tables: ChunkTables,
    pub(crate) frames: u32,
}

/// The sound of a movie; `size` is the file's size.
#[tactic(auto, unfolding(crate::specs::Track::sound_in, pw_outside::specs::Reading::bind))]
pub(crate) fn sound_of<M: ByteStore>(
    alloc: Global,
    store: &mut M,
    end: u64,
) -> Result<SoundTrack, MovieFault>
    requires end { Told (M.bytes store.old) (λ file. end ≡ length file) }
    ensures value { Told (M.bytes store.old) (λ file. Answers told_fault (λ s. record { format = s.format; tables = s.tables }) result (sound_in file)) }
    ensures format { IfOk result (λ s. IsFormat s.format) }
    ensures tables { IfOk result (λ s. AreChunkLists s.tables) }
    ensures frames { IfOk result (λ s. s.frames ≡ held_by (chunks s.tables.runs s.tables.offsets)) }
    ensures small { IfOk result (λ s. sound_size s.format.channels s.frames ≤ 4294967250) }
    ensures bytes { M.bytes store.new ≡ M.bytes store.old }
    ensures cause { CountsFault (M.faults store.old) (M.faults store.new) (is_failed result) }
{
    let moov = moov_of(store, end)?;
    judge_children(store, &moov)?;
    let parts = match first_sound_of(store, &moov)? {
        Some(parts) => parts,
        None => return Err(bad(MovieKind::NoSound, moov.at)),
    };
    judge_sound_data(alloc, store, &parts.minf, &parts.stsd)?;
    let format = format_of(store, &parts.stsd)?;
    let tables = ChunkTables::read(alloc, store, &parts.stbl)?;
    let stsc = match find(store, &parts.stbl, *b"stsc")? {
        Some(stsc) => stsc,
        None => return Err(bad(MovieKind::MissingTable, parts.stbl.at)),
    };
    let frames = frames_of(&tables);
    if MOST_BYTES < 2 * u64::from(format.channels) * frames {
        return Err(bad(MovieKind::SoundLong, stsc.at));
    }
    Ok(SoundTrack {
        format,
        tables,
        frames: frames as u32,
    })
}
