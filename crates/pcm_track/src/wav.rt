//! Reading a WAV.

ghost use Rattle.std.specs.Prelude.{◌≡◌, ◌+◌, ◌-◌, ◌*◌, ◌<◌, ◌≤◌, ◌^◌, ◌%◌, IfOk, IfSome, Option, Some, None, codes};
ghost use Rattle.std.specs.Int.{w16, w32};
ghost use Rattle.pw_outside.specs.Ports.{CountsFault};
ghost use Rattle.pw_outside.specs.Reading.{Gives};
ghost use Rattle.pcm_track.specs.Faults.{told_fault, is_failed};
ghost use Rattle.pcm_track.specs.declared.form.Met.{Met};
ghost use Rattle.pcm_track.specs.Wav.{next_bytes, next_number, passed_over, padded_size, format_at, format_chunk_at, data_chunk_at, other_chunk_at, chunk_at, form_from, form_at, frame_size, IsFormat, IsPcm, IsMet};

use crate::fault::{SoundFault, SoundKind, bad};
use crate::form::{Format, Met, Pcm};
use pw_outside::{ByteSource, fill};

/// The greatest size of the sound: with the header of a WAV, or of a data atom, it fits 32 bits.
const MOST_BYTES: u32 = 4_294_967_250;

/// The greatest number of chunks before the sound.
const MOST_CHUNKS: u32 = 1000;

/// The size of a piece that is skipped.
const PIECE: u64 = 4096;

/// The next `N` bytes.
fn next_bytes<S: ByteSource, const N: usize>(
    source: &mut S,
    place: &mut u64,
) -> Result<[u8; N], SoundFault>
    requires { place.old + N < 2 ^ 64 }
    ensures bytes { Gives told_fault (λ x. x) (S.left source.old) (S.left source.new) place.old place.new result (next_bytes N) }
    ensures place { place.new ≤ place.old + N }
    ensures cause { CountsFault (S.faults source.old) (S.faults source.new) (is_failed result) }
{
    let mut piece = [0u8; N];
    let count = fill(source, &mut piece)?;
    *place += count as u64;
    if count < N {
        return Err(bad(SoundKind::Truncated, *place));
    }
    Ok(piece)
}

/// The next number of two bytes, little-endian.
#[tactic(auto, unfolding(crate::specs::Wav::next_number, pw_outside::specs::Reading::bind))]
fn next_u16<S: ByteSource>(source: &mut S, place: &mut u64) -> Result<u16, SoundFault>
    requires { place.old + 2 < 2 ^ 64 }
    ensures bytes { Gives told_fault (λ x. x) (S.left source.old) (S.left source.new) place.old place.new result (next_number w16) }
    ensures place { place.new ≤ place.old + 2 }
    ensures cause { CountsFault (S.faults source.old) (S.faults source.new) (is_failed result) }
{
    let piece = next_bytes::<S, 2>(source, place)?;
    Ok(u16::from_le_bytes(piece))
}

/// The next number of four bytes, little-endian.
#[tactic(auto, unfolding(crate::specs::Wav::next_number, pw_outside::specs::Reading::bind))]
fn next_u32<S: ByteSource>(source: &mut S, place: &mut u64) -> Result<u32, SoundFault>
    requires { place.old + 4 < 2 ^ 64 }
    ensures bytes { Gives told_fault (λ x. x) (S.left source.old) (S.left source.new) place.old place.new result (next_number w32) }
    ensures place { place.new ≤ place.old + 4 }
    ensures cause { CountsFault (S.faults source.old) (S.faults source.new) (is_failed result) }
{
    let piece = next_bytes::<S, 4>(source, place)?;
    Ok(u32::from_le_bytes(piece))
}

/// Skips at most `PIECE` bytes.
#[tactic(auto, unfolding(crate::specs::Wav::passed_over, pw_outside::specs::Reading::bind))]
fn pass_piece<S: ByteSource>(source: &mut S, place: &mut u64, count: u64) -> Result<(), SoundFault>
    requires few { count ≤ PIECE }
    requires room { place.old + count < 2 ^ 64 }
    ensures bytes { Gives told_fault (λ x. tt) (S.left source.old) (S.left source.new) place.old place.new result (passed_over count) }
    ensures place { place.new ≤ place.old + count }
    ensures cause { CountsFault (S.faults source.old) (S.faults source.new) (is_failed result) }
{
    let mut piece = [0u8; PIECE as usize];
    let given = fill(source, &mut piece[..count as usize])? as u64;
    *place += given;
    if given < count {
        return Err(bad(SoundKind::Truncated, *place));
    }
    Ok(())
}

/// Skips `count` bytes.
fn pass_over<S: ByteSource>(source: &mut S, place: &mut u64, count: u64) -> Result<(), SoundFault>
    requires { place.old + count < 2 ^ 64 }
    ensures bytes { Gives told_fault (λ x. tt) (S.left source.old) (S.left source.new) place.old place.new result (passed_over count) }
    ensures place { place.new ≤ place.old + count }
    ensures cause { CountsFault (S.faults source.old) (S.faults source.new) (is_failed result) }
{
    let mut left = count;
    while 0 < left {
        let piece = left.min(PIECE);
        pass_piece(source, place, piece)?;
        left -= piece;
    }
    Ok(())
}

/// Reads the body of a `fmt ` of `size` bytes, in the chunk at offset `chunk`.
#[tactic(auto, unfolding(crate::specs::Wav::format_at, pw_outside::specs::Reading::bind))]
fn read_format<S: ByteSource>(
    source: &mut S,
    place: &mut u64,
    chunk: u64,
    size: u32,
) -> Result<Format, SoundFault>
    requires { place.old + 2 ^ 33 < 2 ^ 64 }
    ensures bytes { Gives told_fault (λ x. x) (S.left source.old) (S.left source.new) place.old place.new result (format_at chunk size) }
    ensures format { IfOk result IsFormat }
    ensures place { place.new ≤ place.old + 4294967296 }
    ensures cause { CountsFault (S.faults source.old) (S.faults source.new) (is_failed result) }
{
    if size < 16 {
        return Err(bad(SoundKind::Form, chunk));
    }
    let kind = next_u16(source, place)?;
    if kind != 1 {
        return Err(bad(SoundKind::Form, chunk));
    }
    let channels = next_u16(source, place)?;
    if channels != 1 && channels != 2 {
        return Err(bad(SoundKind::Form, chunk));
    }
    let rate = next_u32(source, place)?;
    if rate == 0 || 65535 < rate {
        return Err(bad(SoundKind::Form, chunk));
    }
    let _second = next_u32(source, place)?;
    let frame = next_u16(source, place)?;
    if frame != 2 * channels {
        return Err(bad(SoundKind::Form, chunk));
    }
    let bits = next_u16(source, place)?;
    if bits != 16 {
        return Err(bad(SoundKind::Form, chunk));
    }
    let size = u64::from(size);
    pass_over(source, place, size + size % 2 - 16)?;
    Ok(Format {
        channels: channels as u8,
        rate: rate as u16,
    })
}

/// Reads a `fmt ` after its kind; `known` is the format read before it.
#[tactic(auto, unfolding(crate::specs::Wav::format_chunk_at, pw_outside::specs::Reading::bind))]
fn read_format_chunk<S: ByteSource>(
    source: &mut S,
    place: &mut u64,
    chunk: u64,
    known: Option<Format>,
) -> Result<Met, SoundFault>
    requires { place.old + 2 ^ 34 < 2 ^ 64 }
    ensures bytes { Gives told_fault (λ x. x) (S.left source.old) (S.left source.new) place.old place.new result (format_chunk_at chunk known) }
    ensures met { IfOk result IsMet }
    ensures place { place.new ≤ place.old + 4294967300 }
    ensures cause { CountsFault (S.faults source.old) (S.faults source.new) (is_failed result) }
{
    if known.is_some() {
        return Err(bad(SoundKind::Form, chunk));
    }
    let size = next_u32(source, place)?;
    let format = read_format(source, place, chunk, size)?;
    Ok(Met::Format(format))
}

/// Reads the header of a `data` after its kind; `known` is the format read before it.
#[tactic(auto, unfolding(crate::specs::Wav::data_chunk_at, pw_outside::specs::Reading::bind))]
fn read_data_chunk<S: ByteSource>(
    source: &mut S,
    place: &mut u64,
    chunk: u64,
    known: Option<Format>,
) -> Result<Met, SoundFault>
    requires room { place.old + 2 ^ 34 < 2 ^ 64 }
    requires known { IfSome known IsFormat }
    ensures bytes { Gives told_fault (λ x. x) (S.left source.old) (S.left source.new) place.old place.new result (data_chunk_at chunk known) }
    ensures met { IfOk result IsMet }
    ensures place { place.new ≤ place.old + 4294967300 }
    ensures cause { CountsFault (S.faults source.old) (S.faults source.new) (is_failed result) }
{
    let format = match known {
        Some(format) => format,
        None => return Err(bad(SoundKind::Form, chunk)),
    };
    let size = next_u32(source, place)?;
    let frame = 2 * u32::from(format.channels);
    if size % frame != 0 || MOST_BYTES < size {
        return Err(bad(SoundKind::Form, chunk));
    }
    Ok(Met::Data(Pcm {
        channels: format.channels,
        rate: format.rate,
        frames: size / frame,
    }))
}

/// Reads any other chunk after its kind.
#[tactic(auto, unfolding(crate::specs::Wav::other_chunk_at, pw_outside::specs::Reading::bind))]
fn read_other_chunk<S: ByteSource>(source: &mut S, place: &mut u64) -> Result<Met, SoundFault>
    requires { place.old + 2 ^ 34 < 2 ^ 64 }
    ensures bytes { Gives told_fault (λ x. x) (S.left source.old) (S.left source.new) place.old place.new result other_chunk_at }
    ensures met { IfOk result IsMet }
    ensures place { place.new ≤ place.old + 4294967300 }
    ensures cause { CountsFault (S.faults source.old) (S.faults source.new) (is_failed result) }
{
    let size = u64::from(next_u32(source, place)?);
    pass_over(source, place, size + size % 2)?;
    Ok(Met::Other)
}

/// Reads the next chunk; of the `data` only the header.
#[tactic(auto, unfolding(crate::specs::Wav::chunk_at, pw_outside::specs::Reading::bind))]
fn read_chunk<S: ByteSource>(
    source: &mut S,
    place: &mut u64,
    known: Option<Format>,
) -> Result<Met, SoundFault>
    requires room { place.old + 2 ^ 35 < 2 ^ 64 }
    requires known { IfSome known IsFormat }
    ensures bytes { Gives told_fault (λ x. x) (S.left source.old) (S.left source.new) place.old place.new result (chunk_at known) }
    ensures met { IfOk result IsMet }
    ensures place { place.new ≤ place.old + 4294967304 }
    ensures cause { CountsFault (S.faults source.old) (S.faults source.new) (is_failed result) }
{
    let chunk = *place;
    let kind = next_bytes::<S, 4>(source, place)?;
    if kind == *b"fmt " {
        return read_format_chunk(source, place, chunk, known);
    }
    if kind == *b"data" {
        return read_data_chunk(source, place, chunk, known);
    }
    read_other_chunk(source, place)
}

/// Reads the chunks up to the sound.
fn read_chunks<S: ByteSource>(source: &mut S, place: &mut u64) -> Result<Pcm, SoundFault>
    requires { place.old ≤ 100 }
    ensures bytes { Gives told_fault (λ x. x) (S.left source.old) (S.left source.new) place.old place.new result (form_from 1000 None) }
    ensures form { IfOk result IsPcm }
    ensures place { place.new ≤ 2 ^ 43 }
    ensures cause { CountsFault (S.faults source.old) (S.faults source.new) (is_failed result) }
{
    let mut known = None;
    for _ in 0..MOST_CHUNKS {
        match read_chunk(source, place, known)? {
            Met::Format(format) => known = Some(format),
            Met::Other => {}
            Met::Data(form) => return Ok(form),
        }
    }
    let chunk = *place;
    let _kind = next_bytes::<S, 4>(source, place)?;
    Err(bad(SoundKind::Form, chunk))
}

/// Reads a WAV up to its sound.
#[tactic(auto, unfolding(crate::specs::Wav::form_at, pw_outside::specs::Reading::bind))]
pub(crate) fn read_form<S: ByteSource>(source: &mut S, place: &mut u64) -> Result<Pcm, SoundFault>
    requires { place.old ≡ 0 }
    ensures bytes { Gives told_fault (λ x. x) (S.left source.old) (S.left source.new) place.old place.new result form_at }
    ensures form { IfOk result IsPcm }
    ensures place { place.new ≤ 2 ^ 43 }
    ensures cause { CountsFault (S.faults source.old) (S.faults source.new) (is_failed result) }
{
    let riff = next_bytes::<S, 4>(source, place)?;
    if riff != *b"RIFF" {
        return Err(bad(SoundKind::Magic, 0));
    }
    let _size = next_u32(source, place)?;
    let at = *place;
    let wave = next_bytes::<S, 4>(source, place)?;
    if wave != *b"WAVE" {
        return Err(bad(SoundKind::Magic, at));
    }
    read_chunks(source, place)
}
