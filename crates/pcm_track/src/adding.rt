//! Putting sound beside the pictures of a movie.

ghost use Rattle.std.specs.Prelude.{◌+◌, ◌≡◌, ◌≤◌, ◌<◌, ◌^◌, ◌++◌, length, sum_by, OnOk, OnErr, IfOk, IfErr, IsSome, Ok, false};
ghost use Rattle.std.specs.Bool.{OnTrue};
ghost use Rattle.std.specs.List.{All};
ghost use Rattle.pw_outside.specs.Ports.{Rose, CountsFault, CountsFaults};
ghost use Rattle.pw_outside.specs.Reading.{Rest, Told, rest_of};
ghost use Rattle.pw_outside.specs.Writing.{sink_state, Puts, PutsFront, Extends};
ghost use Rattle.qt_tables.specs.Tables.{AreTables};
ghost use Rattle.qt_movie.specs.MovieBytes.{ftyp_bytes, frame_head_bytes};
ghost use Rattle.pcm_track.specs.declared.end.SoundEnd.TheVariants as ends;
ghost use Rattle.pcm_track.specs.Ends.{is_done, is_read_fault, is_write_fault, AnswersUnlessOutside, Completes, PutsUntil, end_of};
ghost use Rattle.pcm_track.specs.Wav.{sound_size, passed_over, IsPcm};
ghost use Rattle.pcm_track.specs.Writing.{PutsSome, PutsSomeFront, told_from, BothTold};
ghost use Rattle.pcm_track.specs.Adding.{added, data_atom, data_atoms, part_bytes, part_frames, behind_picture, behind_sound, behind_part, parts_end, parts_in, two_tracks_bytes, added_line, Stops, IsAtomOf, IsNear, IsPartNear};

use crate::copying::{Stop, copy_stored};
use crate::end::SoundEnd;
use crate::fault::{CopyFault, SoundFault};
use crate::form::Pcm;
use crate::parts::{Part, parts_of, samples_of, sound_bytes};
use crate::plan::{added_line, movie_atom};
use crate::reader::WavReader;
use crate::sounding::{PIECE, finish};
use pw_outside::{ByteSink, ByteSource, ByteStore, NoMemory, put_all};
use qt_atoms::AtomWriter;
use qt_movie::MovieReader;
use qt_tables::{MovieFault, MovieKind, Sample};
use std::alloc::Global;

/// The file type: QuickTime.
const FTYP: [u8; 20] = *b"\x00\x00\x00\x14ftypqt  \x00\x00\x00\x00qt  ";

/// The greatest size of a data atom's body.
const MOST_BYTES: u32 = 4_294_967_286;

/// Appends these bytes. The error is `WriteFault`.
fn put_bytes<K: ByteSink>(out: &mut K, bytes: &[u8]) -> Result<(), SoundEnd>
    ensures ok { OnOk result (Puts (sink_state (K.held out.old) (K.taken out.old)) (sink_state (K.held out.new) (K.taken out.new)) bytes.now) }
    ensures err { OnErr result (PutsFront (sink_state (K.held out.old) (K.taken out.old)) (sink_state (K.held out.new) (K.taken out.new)) bytes.now) }
    ensures end { IfErr result (λ end. end ≡ ends.WriteFault) }
    ensures write { CountsFault (K.faults out.old) (K.faults out.new) (is_write_fault (end_of result)) }
{
    match put_all(out, bytes) {
        Ok(()) => Ok(()),
        Err(_) => Err(SoundEnd::WriteFault),
    }
}

/// Appends the head of a data atom with a body of `size` bytes. The error is `WriteFault`.
fn put_head<K: ByteSink>(out: &mut K, size: u32) -> Result<(), SoundEnd>
    requires { size ≤ 4294967286 }
    ensures ok { OnOk result (Puts (sink_state (K.held out.old) (K.taken out.old)) (sink_state (K.held out.new) (K.taken out.new)) (frame_head_bytes size)) }
    ensures err { OnErr result (PutsFront (sink_state (K.held out.old) (K.taken out.old)) (sink_state (K.held out.new) (K.taken out.new)) (frame_head_bytes size)) }
    ensures end { IfErr result (λ end. end ≡ ends.WriteFault) }
    ensures write { CountsFault (K.faults out.old) (K.faults out.new) (is_write_fault (end_of result)) }
{
    let length = (size + 8).to_be_bytes();
    let head = [
        length[0], length[1], length[2], length[3], b'm', b'd', b'a', b't',
    ];
    put_bytes(out, &head)
}

/// Appends the data atom of a sample; `size` is the file's size.
///
/// The error is how the run ends there.
fn write_picture<M: ByteStore, K: ByteSink>(
    movie: &mut M,
    end: u64,
    sample: Sample,
    out: &mut K,
    piece: &mut [u8],
) -> Result<(), SoundEnd>
    requires end { Told (M.bytes movie.old) (λ file. end ≡ length file) }
    requires near { IsNear sample }
    requires some { 1 ≤ length piece.old }
    ensures passes { Told (M.bytes movie.old) (λ file. OnOk result ((sound : Rest) → behind_picture file sample sound ≡ Ok sound)) }
    ensures stops { Told (M.bytes movie.old) (λ file. IfErr result (λ end. (sound : Rest) → Stops end (behind_picture file sample sound))) }
    ensures ok { OnOk result (PutsSome (IsAtomOf (told_from sample.at (M.bytes movie.old)) sample.size) (sink_state (K.held out.old) (K.taken out.old)) (sink_state (K.held out.new) (K.taken out.new))) }
    ensures err { OnErr result (PutsSomeFront (IsAtomOf (told_from sample.at (M.bytes movie.old)) sample.size) (sink_state (K.held out.old) (K.taken out.old)) (sink_state (K.held out.new) (K.taken out.new))) }
    ensures length { length piece.new ≡ length piece.old }
    ensures bytes { M.bytes movie.new ≡ M.bytes movie.old }
    ensures not_done { IfErr result (λ end. is_done end ≡ false) }
    ensures read { CountsFault (M.faults movie.old) (M.faults movie.new) (is_read_fault (end_of result)) }
    ensures write { CountsFault (K.faults out.old) (K.faults out.new) (is_write_fault (end_of result)) }
{
    let size = u64::from(sample.size);
    if end < sample.at + size {
        return Err(SoundEnd::BadMovie {
            kind: MovieKind::SampleOutside,
            place: sample.at,
        });
    }
    if MOST_BYTES < sample.size {
        return Err(SoundEnd::BadMovie {
            kind: MovieKind::SampleLarge,
            place: sample.at,
        });
    }
    put_head(out, sample.size)?;
    match copy_stored(movie, sample.at, size, out, piece) {
        Ok(()) => Ok(()),
        Err(Stop::Store) => Err(SoundEnd::ReadFault),
        Err(Stop::Sink) => Err(SoundEnd::WriteFault),
        Err(Stop::Short) => Err(SoundEnd::BadMovie {
            kind: MovieKind::SampleOutside,
            place: sample.at,
        }),
    }
}

/// Appends the data atom of the next `frames` frames of sound.
///
/// The error is how the run ends there.
fn write_sound<S: ByteSource, K: ByteSink>(
    reader: &mut WavReader,
    wav: &mut S,
    frames: u32,
    out: &mut K,
) -> Result<(), SoundEnd>
    requires left { frames ≤ reader.old.left }
    requires small { sound_size reader.old.form.channels frames ≤ 4294967286 }
    ensures told { IsSome (S.left wav.old) → OnOk result (IsSome (S.left wav.new)) }
    ensures passes { IsSome (S.left wav.old) → OnOk result
        (behind_sound (passed_over (sound_size reader.old.form.channels frames) (rest_of reader.old.place (S.left wav.old))) ≡ Ok (rest_of reader.new.place (S.left wav.new))) }
    ensures stops { IsSome (S.left wav.old) → IfErr result (λ end.
        Stops end (behind_sound (passed_over (sound_size reader.old.form.channels frames) (rest_of reader.old.place (S.left wav.old))))) }
    ensures ok { OnOk result (PutsSome (IsAtomOf (S.left wav.old) (sound_size reader.old.form.channels frames)) (sink_state (K.held out.old) (K.taken out.old)) (sink_state (K.held out.new) (K.taken out.new))) }
    ensures err { OnErr result (PutsSomeFront (IsAtomOf (S.left wav.old) (sound_size reader.old.form.channels frames)) (sink_state (K.held out.old) (K.taken out.old)) (sink_state (K.held out.new) (K.taken out.new))) }
    ensures form { reader.new.form ≡ reader.old.form }
    ensures left { OnOk result (reader.new.left + frames ≡ reader.old.left) }
    ensures not_done { IfErr result (λ end. is_done end ≡ false) }
    ensures read { CountsFault (S.faults wav.old) (S.faults wav.new) (is_read_fault (end_of result)) }
    ensures write { CountsFault (K.faults out.old) (K.faults out.new) (is_write_fault (end_of result)) }
{
    let size = sound_bytes(reader.form().channels, frames);
    put_head(out, size as u32)?;
    match reader.copy(wav, out, frames) {
        Ok(()) => Ok(()),
        Err(CopyFault::Sound(SoundFault::Bad { kind, place })) => {
            Err(SoundEnd::BadSound { kind, place })
        }
        Err(CopyFault::Sound(SoundFault::Failed)) => Err(SoundEnd::ReadFault),
        Err(CopyFault::Sink(_)) => Err(SoundEnd::WriteFault),
    }
}

/// Appends the data atom of a part. The error is how the run ends there.
fn write_part<M: ByteStore, S: ByteSource, K: ByteSink>(
    movie: &mut M,
    end: u64,
    reader: &mut WavReader,
    wav: &mut S,
    part: Part,
    out: &mut K,
    piece: &mut [u8],
) -> Result<(), SoundEnd>
    requires end { Told (M.bytes movie.old) (λ file. end ≡ length file) }
    requires near { IsPartNear part }
    requires some { 1 ≤ length piece.old }
    requires left { part_frames part ≤ reader.old.left }
    requires small { sound_size reader.old.form.channels (part_frames part) ≤ 4294967286 }
    ensures told { IsSome (S.left wav.old) → OnOk result (IsSome (S.left wav.new)) }
    ensures passes { BothTold (M.bytes movie.old) (S.left wav.old) (λ file sound. OnOk result
        (behind_part file reader.old.form.channels part (rest_of reader.old.place (S.left wav.old)) ≡ Ok (rest_of reader.new.place (S.left wav.new)))) }
    ensures stops { BothTold (M.bytes movie.old) (S.left wav.old) (λ file sound. IfErr result (λ end.
        Stops end (behind_part file reader.old.form.channels part (rest_of reader.old.place (S.left wav.old))))) }
    ensures ok { OnOk result (PutsSome (λ bytes. BothTold (M.bytes movie.old) (S.left wav.old) (λ file sound. bytes ≡ data_atom (part_bytes file reader.old.form.channels part sound)))
        (sink_state (K.held out.old) (K.taken out.old)) (sink_state (K.held out.new) (K.taken out.new))) }
    ensures err { OnErr result (PutsSomeFront (λ bytes. BothTold (M.bytes movie.old) (S.left wav.old) (λ file sound. bytes ≡ data_atom (part_bytes file reader.old.form.channels part sound)))
        (sink_state (K.held out.old) (K.taken out.old)) (sink_state (K.held out.new) (K.taken out.new))) }
    ensures form { reader.new.form ≡ reader.old.form }
    ensures left { OnOk result (reader.new.left + part_frames part ≡ reader.old.left) }
    ensures length { length piece.new ≡ length piece.old }
    ensures bytes { M.bytes movie.new ≡ M.bytes movie.old }
    ensures not_done { IfErr result (λ end. is_done end ≡ false) }
    ensures read { CountsFaults (M.faults movie.old) (M.faults movie.new) (S.faults wav.old) (S.faults wav.new) (is_read_fault (end_of result)) }
    ensures write { CountsFault (K.faults out.old) (K.faults out.new) (is_write_fault (end_of result)) }
{
    match part {
        Part::Picture(sample) => write_picture(movie, end, sample, out, piece),
        Part::Sound(frames) => write_sound(reader, wav, frames, out),
    }
}

/// Appends the data atoms of all parts. The error is how the run ends.
fn write_parts<M: ByteStore, S: ByteSource, K: ByteSink>(
    movie: &mut M,
    end: u64,
    reader: &mut WavReader,
    wav: &mut S,
    parts: &[Part],
    out: &mut K,
    piece: &mut [u8],
) -> Result<(), SoundEnd>
    requires end { Told (M.bytes movie.old) (λ file. end ≡ length file) }
    requires near { All IsPartNear parts.now }
    requires some { 1 ≤ length piece.old }
    requires pcm { IsPcm reader.old.form }
    requires left { sum_by part_frames parts.now ≤ reader.old.left }
    requires within { reader.old.left ≤ reader.old.form.frames }
    ensures answer { BothTold (M.bytes movie.old) (S.left wav.old) (λ file sound.
        AnswersUnlessOutside (end_of result) (parts_end file reader.old.form.channels parts.now (rest_of reader.old.place (S.left wav.old)))) }
    ensures ok { OnOk result (PutsSome (λ bytes. BothTold (M.bytes movie.old) (S.left wav.old) (λ file sound. bytes ≡ data_atoms file reader.old.form.channels parts.now sound))
        (sink_state (K.held out.old) (K.taken out.old)) (sink_state (K.held out.new) (K.taken out.new))) }
    ensures err { OnErr result (PutsSomeFront (λ bytes. BothTold (M.bytes movie.old) (S.left wav.old) (λ file sound. bytes ≡ data_atoms file reader.old.form.channels parts.now sound))
        (sink_state (K.held out.old) (K.taken out.old)) (sink_state (K.held out.new) (K.taken out.new))) }
    ensures bytes { M.bytes movie.new ≡ M.bytes movie.old }
    ensures not_done { IfErr result (λ end. is_done end ≡ false) }
    ensures read { CountsFaults (M.faults movie.old) (M.faults movie.new) (S.faults wav.old) (S.faults wav.new) (is_read_fault (end_of result)) }
    ensures write { CountsFault (K.faults out.old) (K.faults out.new) (is_write_fault (end_of result)) }
{
    for k in 0..parts.len() {
        write_part(movie, end, reader, wav, parts[k], out, piece)?;
    }
    Ok(())
}

/// The run's output: the parts of the data atoms, the movie atom and the line of text.
#[derive(Drop)]
struct Plan {
    parts: Vec<Part>,
    moov: AtomWriter,
    line: Vec<u8>,
}

/// The run's output for a movie and sound of this form.
fn plan_of(alloc: Global, movie: &MovieReader, pcm: Pcm) -> Result<Plan, NoMemory>
    requires tables { AreTables movie.now.tables }
    requires pcm { IsPcm pcm }
    ensures parts { IfOk result (λ plan. plan.parts.items ≡ parts_in movie.now pcm) }
    ensures moov { IfOk result (λ plan. plan.moov ≡ two_tracks_bytes movie.now pcm) }
    ensures line { IfOk result (λ plan. plan.line.items ≡ added_line movie.now pcm) }
    ensures near { IfOk result (λ plan. All IsPartNear plan.parts.items) }
    ensures sound { IfOk result (λ plan. sum_by part_frames plan.parts.items ≤ pcm.frames) }
{
    let Ok(samples) = samples_of(alloc, movie) else {
        return Err(NoMemory);
    };
    let Ok(parts) = parts_of(alloc, movie.track().timescale, pcm, &samples) else {
        return Err(NoMemory);
    };
    let moov = movie_atom(alloc, movie, pcm, &samples, &parts)?;
    let line = added_line(alloc, movie, pcm, &samples)?;
    Ok(Plan { parts, moov, line })
}

/// Writes the movie: the file type, the data atoms and the movie atom. The error is how the run ends.
fn write_movie<M: ByteStore, S: ByteSource, K: ByteSink>(
    alloc: Global,
    movie: &mut M,
    end: u64,
    reader: &mut WavReader,
    wav: &mut S,
    plan: &Plan,
    out: &mut K,
) -> Result<(), SoundEnd>
    requires end { Told (M.bytes movie.old) (λ file. end ≡ length file) }
    requires near { All IsPartNear plan.now.parts.items }
    requires pcm { IsPcm reader.old.form }
    requires left { sum_by part_frames plan.now.parts.items ≤ reader.old.left }
    requires within { reader.old.left ≤ reader.old.form.frames }
    ensures answer { BothTold (M.bytes movie.old) (S.left wav.old) (λ file sound.
        AnswersUnlessOutside (end_of result) (parts_end file reader.old.form.channels plan.now.parts.items (rest_of reader.old.place (S.left wav.old)))) }
    ensures ok { OnOk result (PutsSome (λ bytes. BothTold (M.bytes movie.old) (S.left wav.old) (λ file sound.
        bytes ≡ ftyp_bytes ++ (data_atoms file reader.old.form.channels plan.now.parts.items sound ++ plan.now.moov)))
        (sink_state (K.held out.old) (K.taken out.old)) (sink_state (K.held out.new) (K.taken out.new))) }
    ensures err { OnErr result (PutsSomeFront (λ bytes. BothTold (M.bytes movie.old) (S.left wav.old) (λ file sound.
        bytes ≡ ftyp_bytes ++ (data_atoms file reader.old.form.channels plan.now.parts.items sound ++ plan.now.moov)))
        (sink_state (K.held out.old) (K.taken out.old)) (sink_state (K.held out.new) (K.taken out.new))) }
    ensures bytes { M.bytes movie.new ≡ M.bytes movie.old }
    ensures not_done { IfErr result (λ end. is_done end ≡ false) }
    ensures read { CountsFaults (M.faults movie.old) (M.faults movie.new) (S.faults wav.old) (S.faults wav.new) (is_read_fault (end_of result)) }
    ensures write { CountsFault (K.faults out.old) (K.faults out.new) (is_write_fault (end_of result)) }
{
    let Ok(mut piece) = vec![in alloc; 0u8; PIECE] else {
        return Err(SoundEnd::NoMemory);
    };
    put_bytes(out, &FTYP)?;
    write_parts(movie, end, reader, wav, &plan.parts, out, &mut piece)?;
    put_bytes(out, plan.moov.held())
}

/// Reads a QuickTime movie with pictures in ProRes and a WAV. Writes a movie of the same pictures with the sound
/// added, and a line of text. Holds neither the pictures nor the sound in memory.
#[tactic(auto, using(crate::proofs::Sinks::none_until, pw_outside::proofs::Puts::none_extends))]
pub fn add_run<M: ByteStore, S: ByteSource, K: ByteSink>(
    alloc: Global,
    movie: &mut M,
    wav: &mut S,
    out: &mut K,
    text: &mut K,
) -> SoundEnd
    // If the bytes of the movie and of the WAV are visible, they determine the result: BadMovie and BadSound are
    // the first fault in the order of reading and writing, and come only if there is one. The order: the movie, the
    // WAV up to its sound, then each sample followed by its sound.
    ensures answer { Told (M.bytes movie.old) (λ file. Told (S.left wav.old) (λ bytes. AnswersUnlessOutside result (added file bytes).end)) }
    // If no port failed and memory lasted, the result is this one.
    ensures complete { Told (M.bytes movie.old) (λ file. Told (S.left wav.old) (λ bytes.
        (Rose (M.faults movie.old) (M.faults movie.new) → ⊥) → (Rose (S.faults wav.old) (S.faults wav.new) → ⊥)
        → (Rose (K.faults out.old) (K.faults out.new) → ⊥) → (Rose (K.faults text.old) (K.faults text.new) → ⊥) → Completes (added file bytes).end result)) }
    // At Done the movie with sound and the line of text were appended. After any other result a prefix of them was,
    // with bytes missing from an input taken as 0.
    ensures out { Told (M.bytes movie.old) (λ file. Told (S.left wav.old) (λ bytes. PutsUntil result (added file bytes).out
        (sink_state (K.held out.old) (K.taken out.old)) (sink_state (K.held out.new) (K.taken out.new)))) }
    ensures text { Told (M.bytes movie.old) (λ file. Told (S.left wav.old) (λ bytes. PutsUntil result (added file bytes).text
        (sink_state (K.held text.old) (K.taken text.old)) (sink_state (K.held text.new) (K.taken text.new)))) }
    // Visible or opaque, both outputs extend what was held.
    ensures out_extends { Extends (sink_state (K.held out.old) (K.taken out.old)) (sink_state (K.held out.new) (K.taken out.new)) }
    ensures text_extends { Extends (sink_state (K.held text.old) (K.taken text.old)) (sink_state (K.held text.new) (K.taken text.new)) }
    ensures settled { OnTrue (is_done result) ((K.settled out.new ≡ K.taken out.new) × (K.settled text.new ≡ K.taken text.new)) }
    ensures bytes { M.bytes movie.new ≡ M.bytes movie.old }
    // A port fault is returned only if the counter of one of the two ports that are read, or written, rose; every
    // other result leaves all counters unchanged.
    ensures read { CountsFaults (M.faults movie.old) (M.faults movie.new) (S.faults wav.old) (S.faults wav.new) (is_read_fault result) }
    ensures write { CountsFaults (K.faults out.old) (K.faults out.new) (K.faults text.old) (K.faults text.new) (is_write_fault result) }
{
    let reader = match MovieReader::start(alloc, movie) {
        Ok(reader) => reader,
        Err(MovieFault::Bad { kind, place }) => return SoundEnd::BadMovie { kind, place },
        Err(MovieFault::Failed) => return SoundEnd::ReadFault,
        Err(MovieFault::NoMemory) => return SoundEnd::NoMemory,
    };
    let Ok(end) = movie.length() else {
        return SoundEnd::ReadFault;
    };
    let mut sound = match WavReader::start(wav) {
        Ok(sound) => sound,
        Err(SoundFault::Bad { kind, place }) => return SoundEnd::BadSound { kind, place },
        Err(SoundFault::Failed) => return SoundEnd::ReadFault,
    };
    let Ok(plan) = plan_of(alloc, &reader, sound.form()) else {
        return SoundEnd::NoMemory;
    };
    match write_movie(alloc, movie, end, &mut sound, wav, &plan, out) {
        Ok(()) => finish(&plan.line, out, text),
        Err(end) => end,
    }
}
