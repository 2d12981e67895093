//! Extracting the sound of a movie.

ghost use Rattle.std.specs.Prelude.{◌≡◌, ◌+◌, ◌≤◌, ◌^◌, ◌++◌, length, OnOk, OnErr, IfOk, IfErr, is_err, map, [], Some, false};
ghost use Rattle.std.specs.Bool.{OnTrue};
ghost use Rattle.std.specs.List.{flat_map};
ghost use Rattle.pw_outside.specs.Ports.{Rose, CountsFault, CountsFaults};
ghost use Rattle.pw_outside.specs.Reading.{Told};
ghost use Rattle.pw_outside.specs.Writing.{sink_state, Puts, PutsFront, Extends};
ghost use Rattle.qt_tables.specs.Samples.{chunks, held_by};
ghost use Rattle.qt_tables.specs.Tables.{AreChunkLists};
ghost use Rattle.pcm_track.specs.declared.end.SoundEnd.TheVariants as ends;
ghost use Rattle.pcm_track.specs.Ends.{is_done, is_read_fault, is_write_fault, AnswersUnlessOutside, Completes, PutsUntil, end_of};
ghost use Rattle.pcm_track.specs.Wav.{sound_size, IsFormat};
ghost use Rattle.pcm_track.specs.Writing.{wav_head, sound_line, Copied, CopiedFront, told_from};
ghost use Rattle.pcm_track.specs.Sounding.{sounded, chunk_bytes, chunk_end, chunks_end};

use crate::copying::{Stop, copy_stored};
use crate::end::SoundEnd;
use crate::form::Format;
use crate::track::{SoundTrack, sound_of};
use pw_outside::{ByteSink, ByteStore, Failed, NoMemory, put_all};
use pw_text::{put_decimal, put_words};
use qt_atoms::AtomWriter;
use qt_tables::{Chunk, ChunkTables, MovieFault, MovieKind};
use std::alloc::Global;

/// The size of a piece that is copied.
pub(crate) const PIECE: usize = 65536;

/// The header of a WAV of `frames` frames.
#[tactic(auto, unfolding(crate::specs::Writing::wav_head))]
fn wav_head(alloc: Global, format: Format, frames: u32) -> Result<AtomWriter, NoMemory>
    requires format { IsFormat format }
    requires small { sound_size format.channels frames ≤ 4294967250 }
    ensures { IfOk result (λ head. head ≡ wav_head format frames) }
{
    let frame = 2 * u16::from(format.channels);
    let size = u32::from(frame) * frames;
    let mut head = AtomWriter::new(alloc);
    head.bytes(b"RIFF")?;
    head.bytes(&(36 + size).to_le_bytes())?;
    head.bytes(b"WAVE")?;
    head.bytes(b"fmt ")?;
    head.bytes(&16u32.to_le_bytes())?;
    head.bytes(&1u16.to_le_bytes())?;
    head.bytes(&u16::from(format.channels).to_le_bytes())?;
    head.bytes(&u32::from(format.rate).to_le_bytes())?;
    head.bytes(&(u32::from(frame) * u32::from(format.rate)).to_le_bytes())?;
    head.bytes(&frame.to_le_bytes())?;
    head.bytes(&16u16.to_le_bytes())?;
    head.bytes(b"data")?;
    head.bytes(&size.to_le_bytes())?;
    Ok(head)
}

/// Writes the bytes of a chunk; `size` is the file's size.
///
/// The error is how the run ends there.
#[tactic(auto, using(crate::proofs::Pieces::front_none))]
fn write_chunk<M: ByteStore, K: ByteSink>(
    movie: &mut M,
    end: u64,
    channels: u8,
    chunk: Chunk,
    out: &mut K,
    piece: &mut [u8],
) -> Result<(), SoundEnd>
    requires end { Told (M.bytes movie.old) (λ file. end ≡ length file) }
    requires channels { channels ≤ 2 }
    requires near { chunk.at ≤ 2 ^ 62 }
    requires some { 1 ≤ length piece.old }
    ensures answer { Told (M.bytes movie.old) (λ file. AnswersUnlessOutside (end_of result) (chunk_end file channels (record { at = chunk.at; samples = chunk.samples; description = 0 }))) }
    ensures ok { OnOk result (Copied (told_from chunk.at (M.bytes movie.old)) (sound_size channels chunk.samples) (sink_state (K.held out.old) (K.taken out.old)) (sink_state (K.held out.new) (K.taken out.new))) }
    ensures err { OnErr result (CopiedFront (told_from chunk.at (M.bytes movie.old)) (sound_size channels chunk.samples) (sink_state (K.held out.old) (K.taken out.old)) (sink_state (K.held out.new) (K.taken out.new))) }
    ensures length { length piece.new ≡ length piece.old }
    ensures bytes { M.bytes movie.new ≡ M.bytes movie.old }
    ensures not_done { IfErr result (λ end. is_done end ≡ false) }
    ensures read { CountsFault (M.faults movie.old) (M.faults movie.new) (is_read_fault (end_of result)) }
    ensures write { CountsFault (K.faults out.old) (K.faults out.new) (is_write_fault (end_of result)) }
{
    let size = 2 * u64::from(channels) * u64::from(chunk.samples);
    if end < chunk.at + size {
        return Err(SoundEnd::BadMovie {
            kind: MovieKind::SampleOutside,
            place: chunk.at,
        });
    }
    match copy_stored(movie, chunk.at, size, out, piece) {
        Ok(()) => Ok(()),
        Err(Stop::Store) => Err(SoundEnd::ReadFault),
        Err(Stop::Sink) => Err(SoundEnd::WriteFault),
        Err(Stop::Short) => Err(SoundEnd::BadMovie {
            kind: MovieKind::SampleOutside,
            place: chunk.at,
        }),
    }
}

/// Writes the bytes of all chunks; `size` is the file's size.
///
/// The error is how the run ends.
fn write_chunks<M: ByteStore, K: ByteSink>(
    movie: &mut M,
    end: u64,
    channels: u8,
    tables: &ChunkTables,
    out: &mut K,
    piece: &mut [u8],
) -> Result<(), SoundEnd>
    requires end { Told (M.bytes movie.old) (λ file. end ≡ length file) }
    requires channels { channels ≤ 2 }
    requires tables { AreChunkLists tables.now }
    requires some { 1 ≤ length piece.old }
    ensures answer { Told (M.bytes movie.old) (λ file. AnswersUnlessOutside (end_of result) (chunks_end file channels (chunks tables.now.runs tables.now.offsets))) }
    ensures ok { Told (M.bytes movie.old) (λ file. OnOk result (Puts (sink_state (K.held out.old) (K.taken out.old)) (sink_state (K.held out.new) (K.taken out.new)) (flat_map (chunk_bytes file channels) (chunks tables.now.runs tables.now.offsets)))) }
    ensures err { Told (M.bytes movie.old) (λ file. OnErr result (PutsFront (sink_state (K.held out.old) (K.taken out.old)) (sink_state (K.held out.new) (K.taken out.new)) (flat_map (chunk_bytes file channels) (chunks tables.now.runs tables.now.offsets)))) }
    ensures extends { Extends (sink_state (K.held out.old) (K.taken out.old)) (sink_state (K.held out.new) (K.taken out.new)) }
    ensures bytes { M.bytes movie.new ≡ M.bytes movie.old }
    ensures not_done { IfErr result (λ end. is_done end ≡ false) }
    ensures read { CountsFault (M.faults movie.old) (M.faults movie.new) (is_read_fault (end_of result)) }
    ensures write { CountsFault (K.faults out.old) (K.faults out.new) (is_write_fault (end_of result)) }
{
    for i in 0..tables.count() {
        write_chunk(movie, end, channels, tables.chunk(i), out, piece)?;
    }
    Ok(())
}

/// The line of text.
#[tactic(auto, unfolding(crate::specs::Writing::sound_line))]
fn sound_line(alloc: Global, format: Format, frames: u32) -> Result<Vec<u8>, NoMemory>
    ensures { IfOk result (λ line. line.items ≡ sound_line format frames) }
{
    let mut line = Vec::new(alloc);
    put_words(&mut line, "sound ")?;
    put_decimal(&mut line, u64::from(frames))?;
    put_words(&mut line, " channels ")?;
    put_decimal(&mut line, u64::from(format.channels))?;
    put_words(&mut line, " rate ")?;
    put_decimal(&mut line, u64::from(format.rate))?;
    put_words(&mut line, "\n")?;
    Ok(line)
}

/// Writes a line, and flushes it and the other output.
#[tactic(auto, using(pw_outside::proofs::Puts::front_none))]
pub(crate) fn finish<K: ByteSink>(line: &[u8], out: &mut K, text: &mut K) -> SoundEnd
    ensures answer { AnswersUnlessOutside result ends.Done }
    ensures reads { is_read_fault result ≡ false }
    ensures text { PutsUntil result line.now (sink_state (K.held text.old) (K.taken text.old)) (sink_state (K.held text.new) (K.taken text.new)) }
    ensures out { Puts (sink_state (K.held out.old) (K.taken out.old)) (sink_state (K.held out.new) (K.taken out.new)) [] }
    ensures settled { OnTrue (is_done result) ((K.settled out.new ≡ K.taken out.new) × (K.settled text.new ≡ K.taken text.new)) }
    ensures write { CountsFaults (K.faults out.old) (K.faults out.new) (K.faults text.old) (K.faults text.new) (is_write_fault result) }
{
    match settle(line, out, text) {
        Ok(()) => SoundEnd::Done,
        Err(_) => SoundEnd::WriteFault,
    }
}

/// Writes a line, and flushes it and the other output.
fn settle<K: ByteSink>(line: &[u8], out: &mut K, text: &mut K) -> Result<(), Failed>
    ensures ok { OnOk result (Puts (sink_state (K.held text.old) (K.taken text.old)) (sink_state (K.held text.new) (K.taken text.new)) line.now) }
    ensures err { OnErr result (PutsFront (sink_state (K.held text.old) (K.taken text.old)) (sink_state (K.held text.new) (K.taken text.new)) line.now) }
    ensures out { Puts (sink_state (K.held out.old) (K.taken out.old)) (sink_state (K.held out.new) (K.taken out.new)) [] }
    ensures settled { OnOk result ((K.settled out.new ≡ K.taken out.new) × (K.settled text.new ≡ K.taken text.new)) }
    ensures write { CountsFaults (K.faults out.old) (K.faults out.new) (K.faults text.old) (K.faults text.new) (is_err result) }
{
    put_all(text, line)?;
    out.flush()?;
    text.flush()
}

/// Writes the header of a WAV, then the sound.
///
/// The error is how the run ends.
fn write_wav<M: ByteStore, K: ByteSink>(
    alloc: Global,
    movie: &mut M,
    end: u64,
    sound: &SoundTrack,
    out: &mut K,
) -> Result<(), SoundEnd>
    requires end { Told (M.bytes movie.old) (λ file. end ≡ length file) }
    requires format { IsFormat sound.now.format }
    requires tables { AreChunkLists sound.now.tables }
    requires frames { sound.now.frames ≡ held_by (chunks sound.now.tables.runs sound.now.tables.offsets) }
    requires small { sound_size sound.now.format.channels sound.now.frames ≤ 4294967250 }
    ensures answer { Told (M.bytes movie.old) (λ file. AnswersUnlessOutside (end_of result) (chunks_end file sound.now.format.channels (chunks sound.now.tables.runs sound.now.tables.offsets))) }
    ensures ok { Told (M.bytes movie.old) (λ file. OnOk result (Puts (sink_state (K.held out.old) (K.taken out.old)) (sink_state (K.held out.new) (K.taken out.new))
        (wav_head sound.now.format sound.now.frames ++ flat_map (chunk_bytes file sound.now.format.channels) (chunks sound.now.tables.runs sound.now.tables.offsets)))) }
    ensures err { Told (M.bytes movie.old) (λ file. OnErr result (PutsFront (sink_state (K.held out.old) (K.taken out.old)) (sink_state (K.held out.new) (K.taken out.new))
        (wav_head sound.now.format sound.now.frames ++ flat_map (chunk_bytes file sound.now.format.channels) (chunks sound.now.tables.runs sound.now.tables.offsets)))) }
    ensures extends { Extends (sink_state (K.held out.old) (K.taken out.old)) (sink_state (K.held out.new) (K.taken out.new)) }
    ensures bytes { M.bytes movie.new ≡ M.bytes movie.old }
    ensures not_done { IfErr result (λ end. is_done end ≡ false) }
    ensures read { CountsFault (M.faults movie.old) (M.faults movie.new) (is_read_fault (end_of result)) }
    ensures write { CountsFault (K.faults out.old) (K.faults out.new) (is_write_fault (end_of result)) }
{
    let Ok(mut piece) = vec![in alloc; 0u8; PIECE] else {
        return Err(SoundEnd::NoMemory);
    };
    let Ok(head) = wav_head(alloc, sound.format, sound.frames) else {
        return Err(SoundEnd::NoMemory);
    };
    match put_all(out, head.held()) {
        Ok(()) => write_chunks(
            movie,
            end,
            sound.format.channels,
            &sound.tables,
            out,
            &mut piece,
        ),
        Err(_) => Err(SoundEnd::WriteFault),
    }
}

/// Reads a QuickTime movie, and writes its first plain PCM sound track as a WAV, with a line of text. Doesn't hold
/// the sound in memory.
#[tactic(auto, using(crate::proofs::Sinks::none_until, pw_outside::proofs::Puts::none_extends))]
pub fn sound_run<M: ByteStore, K: ByteSink>(
    alloc: Global,
    movie: &mut M,
    out: &mut K,
    text: &mut K,
) -> SoundEnd
    // If the movie's bytes are visible, they determine the result: BadMovie is their first fault in the order of
    // reading, and comes only if there is one.
    ensures answer { Told (M.bytes movie.old) (λ file. AnswersUnlessOutside result (sounded file).end) }
    // If no port failed and memory lasted, the result is this one.
    ensures complete { Told (M.bytes movie.old) (λ file. (Rose (M.faults movie.old) (M.faults movie.new) → ⊥)
        → (Rose (K.faults out.old) (K.faults out.new) → ⊥) → (Rose (K.faults text.old) (K.faults text.new) → ⊥) → Completes (sounded file).end result) }
    // At Done the header of a WAV, the bytes of the chunks and the line of text were appended. After any other
    // result a prefix of them was, with bytes missing from the file taken as 0.
    ensures out { Told (M.bytes movie.old) (λ file. PutsUntil result (sounded file).out
        (sink_state (K.held out.old) (K.taken out.old)) (sink_state (K.held out.new) (K.taken out.new))) }
    ensures text { Told (M.bytes movie.old) (λ file. PutsUntil result (sounded file).text
        (sink_state (K.held text.old) (K.taken text.old)) (sink_state (K.held text.new) (K.taken text.new))) }
    // Visible or opaque, both outputs extend what was held.
    ensures out_extends { Extends (sink_state (K.held out.old) (K.taken out.old)) (sink_state (K.held out.new) (K.taken out.new)) }
    ensures text_extends { Extends (sink_state (K.held text.old) (K.taken text.old)) (sink_state (K.held text.new) (K.taken text.new)) }
    ensures settled { OnTrue (is_done result) ((K.settled out.new ≡ K.taken out.new) × (K.settled text.new ≡ K.taken text.new)) }
    ensures bytes { M.bytes movie.new ≡ M.bytes movie.old }
    // A port fault is returned only if that port's counter rose; every other result leaves the counters unchanged.
    ensures read { CountsFault (M.faults movie.old) (M.faults movie.new) (is_read_fault result) }
    ensures write { CountsFaults (K.faults out.old) (K.faults out.new) (K.faults text.old) (K.faults text.new) (is_write_fault result) }
{
    let Ok(end) = movie.length() else {
        return SoundEnd::ReadFault;
    };
    let sound = match sound_of(alloc, movie, end) {
        Ok(sound) => sound,
        Err(MovieFault::Bad { kind, place }) => return SoundEnd::BadMovie { kind, place },
        Err(MovieFault::Failed) => return SoundEnd::ReadFault,
        Err(MovieFault::NoMemory) => return SoundEnd::NoMemory,
    };
    let Ok(line) = sound_line(alloc, sound.format, sound.frames) else {
        return SoundEnd::NoMemory;
    };
    match write_wav(alloc, movie, end, &sound, out) {
        Ok(()) => finish(&line, out, text),
        Err(end) => end,
    }
}
