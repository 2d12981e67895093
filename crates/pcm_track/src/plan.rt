//! The tables of a movie with sound.

ghost use Rattle.std.specs.Prelude.{◌/◌, ◌≡◌, ◌≤◌, ◌<◌, ◌+◌, ◌*◌, ◌^◌, ◌++◌, length, map, sum_by, min, IfOk, OnOk};
ghost use Rattle.std.specs.List.{All};
ghost use Rattle.qt_tables.specs.declared.tables.TheConstants.{MAX_SAMPLES};
ghost use Rattle.qt_tables.specs.Samples as track;
ghost use Rattle.qt_tables.specs.Tables.{AreTables};
ghost use Rattle.qt_movie.specs.Trak.{IsTrak};
ghost use Rattle.pcm_track.specs.Wav.{IsPcm};
ghost use Rattle.pcm_track.specs.Adding.{part_size, picture_at, sound_at, picture_places, sound_places, frames_in, chunk_frames, runs_of, chunk_runs, where_some, duration_field, first_place, parts_in, picture_values, sound_values, two_tracks_bytes, added_line};

use crate::form::Pcm;
use crate::parts::Part;
use pw_outside::NoMemory;
use pw_text::{put_decimal, put_words};
use qt_atoms::AtomWriter;
use qt_movie::{Media, MovieReader, Trak, write_moov};
use qt_tables::Sample;
use std::alloc::{AllocError, Global};

/// The offset after the file type.
const FIRST_PLACE: u64 = 20;

// ---- lists

fn sizes_of(alloc: Global, samples: &[Sample]) -> Result<Vec<u32>, AllocError>
    ensures { IfOk result (λ sizes. sizes.items ≡ map (λ s. s.size) samples.now) }
{
    let mut sizes = Vec::new(alloc);
    for sample in samples {
        sizes.push(sample.size)?;
    }
    Ok(sizes)
}

fn durations_of(alloc: Global, samples: &[Sample]) -> Result<Vec<u32>, AllocError>
    ensures { IfOk result (λ durations. durations.items ≡ map (λ s. s.duration) samples.now) }
{
    let mut durations = Vec::new(alloc);
    for sample in samples {
        durations.push(sample.duration)?;
    }
    Ok(durations)
}

/// The duration of all samples.
fn duration_of(samples: &[Sample]) -> u64
    requires { length samples.now ≤ MAX_SAMPLES }
    ensures { result ≡ sum_by (λ s. s.duration) samples.now }
{
    let mut duration: u64 = 0;
    for sample in samples {
        duration += u64::from(sample.duration);
    }
    duration
}

/// Appends a part's number of frames, if it is a chunk of sound.
fn push_frames(frames: &mut Vec<u32>, part: Part) -> Result<(), AllocError>
    ensures { OnOk result (frames.new.items ≡ frames.old.items ++ frames_in part) }
{
    if let Part::Sound(count) = part {
        frames.push(count)?;
    }
    Ok(())
}

/// The number of frames of each chunk of sound.
fn chunk_frames(alloc: Global, parts: &[Part]) -> Result<Vec<u32>, AllocError>
    ensures { IfOk result (λ frames. frames.items ≡ chunk_frames parts.now) }
{
    let mut frames = Vec::new(alloc);
    for part in parts {
        push_frames(&mut frames, *part)?;
    }
    Ok(frames)
}

// ---- runs

/// The runs of equal values: count and value.
fn runs_of(alloc: Global, values: &[u32]) -> Result<Vec<(u32, u32)>, AllocError>
    requires { length values.now ≤ 1000001 }
    ensures { IfOk result (λ runs. runs.items ≡ runs_of values.now) }
{
    let mut runs = Vec::new(alloc);
    if values.is_empty() {
        return Ok(runs);
    }
    let mut value = values[0];
    let mut count: u32 = 1;
    for next in &values[1..] {
        if *next == value {
            count += 1;
        } else {
            runs.push((count, value))?;
            value = *next;
            count = 1;
        }
    }
    runs.push((count, value))?;
    Ok(runs)
}

/// The runs of chunks: first chunk, samples per chunk, first description.
fn chunk_runs(alloc: Global, runs: &[(u32, u32)]) -> Result<Vec<(u32, u32, u32)>, AllocError>
    requires { sum_by (λ r. r.0) runs.now ≤ 1000001 }
    ensures { IfOk result (λ chunks. chunks.items ≡ chunk_runs 1 runs.now) }
{
    let mut chunks = Vec::new(alloc);
    let mut number: u32 = 1;
    for (count, value) in runs {
        chunks.push((number, *value, 1))?;
        number += *count;
    }
    Ok(chunks)
}

/// One run, if its count isn't 0.
fn where_some<T: Drop>(alloc: Global, count: u32, run: T) -> Result<Vec<T>, AllocError>
    ensures { IfOk result (λ runs. runs.items ≡ where_some count run) }
{
    let mut runs = Vec::new(alloc);
    if count != 0 {
        runs.push(run)?;
    }
    Ok(runs)
}

// ---- places

/// The number of bytes of a part.
fn size_of(channels: u8, part: Part) -> u64
    requires { channels ≤ 2 }
    ensures value { result ≡ part_size channels part }
    ensures small { result ≤ 17179869180 }
{
    match part {
        Part::Picture(sample) => u64::from(sample.size),
        Part::Sound(frames) => 2 * u64::from(channels) * u64::from(frames),
    }
}

/// Appends the offset of a sample's bytes, if the part is a sample, in a data atom at `place`.
fn push_picture(places: &mut Vec<u64>, place: u64, part: Part) -> Result<(), AllocError>
    requires { place ≤ 2 ^ 62 }
    ensures { OnOk result (places.new.items ≡ places.old.items ++ picture_at place part) }
{
    if let Part::Picture(_) = part {
        places.push(place + 8)?;
    }
    Ok(())
}

/// Appends the offset of a chunk of sound, if the part is one, in a data atom at `place`.
fn push_chunk(places: &mut Vec<u64>, place: u64, part: Part) -> Result<(), AllocError>
    requires { place ≤ 2 ^ 62 }
    ensures { OnOk result (places.new.items ≡ places.old.items ++ sound_at place part) }
{
    if let Part::Sound(_) = part {
        places.push(place + 8)?;
    }
    Ok(())
}

/// The offsets of the samples.
fn picture_places(alloc: Global, channels: u8, parts: &[Part]) -> Result<Vec<u64>, AllocError>
    requires channels { channels ≤ 2 }
    requires few { length parts.now ≤ 2000001 }
    ensures { IfOk result (λ places. places.items ≡ picture_places channels first_place parts.now) }
{
    let mut places = Vec::new(alloc);
    let mut place = FIRST_PLACE;
    for part in parts {
        push_picture(&mut places, place, *part)?;
        place += 8 + size_of(channels, *part);
    }
    Ok(places)
}

/// The offsets of the chunks of sound.
fn sound_places(alloc: Global, channels: u8, parts: &[Part]) -> Result<Vec<u64>, AllocError>
    requires channels { channels ≤ 2 }
    requires few { length parts.now ≤ 2000001 }
    ensures { IfOk result (λ places. places.items ≡ sound_places channels first_place parts.now) }
{
    let mut places = Vec::new(alloc);
    let mut place = FIRST_PLACE;
    for part in parts {
        push_chunk(&mut places, place, *part)?;
        place += 8 + size_of(channels, *part);
    }
    Ok(places)
}

// ---- the tracks

/// A duration, saturated to a field of 32 bits.
fn duration_field(duration: u64) -> u32
    ensures { result ≡ duration_field duration }
{
    duration.min(4_294_967_295) as u32
}

/// The duration of the sound in units of a movie with this time scale.
fn sound_duration(timescale: u32, pcm: Pcm) -> u64
    requires { IsPcm pcm }
    ensures { result ≡ pcm.frames * timescale / pcm.rate }
{
    u64::from(pcm.frames) * u64::from(timescale) / u64::from(pcm.rate)
}

/// The picture track.
fn picture_track(
    alloc: Global,
    movie: &MovieReader,
    pcm: Pcm,
    samples: &[Sample],
    parts: &[Part],
) -> Result<Trak, AllocError>
    requires tables { AreTables movie.now.tables }
    requires pcm { IsPcm pcm }
    requires samples { samples.now ≡ track.samples movie.now.tables }
    requires few { length samples.now ≤ MAX_SAMPLES }
    requires parts { parts.now ≡ parts_in movie.now pcm }
    ensures value { IfOk result (λ trak. trak ≡ picture_values movie.now pcm) }
    ensures fits { IfOk result IsTrak }
{
    let track = movie.track();
    let count = samples.len() as u32;
    let duration = duration_field(duration_of(samples));
    let durations = durations_of(alloc, samples)?;
    Ok(Trak {
        number: 1,
        movie_duration: duration,
        timescale: track.timescale,
        duration,
        media: Media::Video {
            kind: track.kind,
            width: track.width,
            height: track.height,
            depth: 24,
        },
        stts: runs_of(alloc, &durations)?,
        stsc: where_some(alloc, count, (1, 1, 1))?,
        common: 0,
        count,
        sizes: sizes_of(alloc, samples)?,
        offsets: picture_places(alloc, pcm.channels, parts)?,
    })
}

/// The sound track.
fn sound_track(
    alloc: Global,
    movie: &MovieReader,
    pcm: Pcm,
    parts: &[Part],
) -> Result<Trak, AllocError>
    requires tables { AreTables movie.now.tables }
    requires pcm { IsPcm pcm }
    requires parts { parts.now ≡ parts_in movie.now pcm }
    ensures value { IfOk result (λ trak. trak ≡ sound_values movie.now pcm) }
    ensures fits { IfOk result IsTrak }
{
    let frames = chunk_frames(alloc, parts)?;
    let runs = runs_of(alloc, &frames)?;
    Ok(Trak {
        number: 2,
        movie_duration: duration_field(sound_duration(movie.track().timescale, pcm)),
        timescale: u32::from(pcm.rate),
        duration: pcm.frames,
        media: Media::Sound {
            channels: pcm.channels,
            rate: pcm.rate,
        },
        stts: where_some(alloc, pcm.frames, (pcm.frames, 1))?,
        stsc: chunk_runs(alloc, &runs)?,
        common: 2 * u32::from(pcm.channels),
        count: pcm.frames,
        sizes: Vec::new(alloc),
        offsets: sound_places(alloc, pcm.channels, parts)?,
    })
}

/// The movie atom.
pub(crate) fn movie_atom(
    alloc: Global,
    movie: &MovieReader,
    pcm: Pcm,
    samples: &[Sample],
    parts: &[Part],
) -> Result<AtomWriter, NoMemory>
    requires tables { AreTables movie.now.tables }
    requires pcm { IsPcm pcm }
    requires samples { samples.now ≡ track.samples movie.now.tables }
    requires few { length samples.now ≤ MAX_SAMPLES }
    requires parts { parts.now ≡ parts_in movie.now pcm }
    ensures { IfOk result (λ atom. atom ≡ two_tracks_bytes movie.now pcm) }
{
    let timescale = movie.track().timescale;
    let longer = duration_of(samples).max(sound_duration(timescale, pcm));
    let Ok(pictures) = picture_track(alloc, movie, pcm, samples, parts) else {
        return Err(NoMemory);
    };
    let Ok(sound) = sound_track(alloc, movie, pcm, parts) else {
        return Err(NoMemory);
    };
    let traks = [pictures, sound];
    write_moov(alloc, timescale, duration_field(longer), &traks)
}

/// The line of text.
#[tactic(auto, unfolding(crate::specs::Adding::added_line))]
pub(crate) fn added_line(
    alloc: Global,
    movie: &MovieReader,
    pcm: Pcm,
    samples: &[Sample],
) -> Result<Vec<u8>, NoMemory>
    requires samples { samples.now ≡ track.samples movie.now.tables }
    ensures { IfOk result (λ line. line.items ≡ added_line movie.now pcm) }
{
    let mut line = Vec::new(alloc);
    put_words(&mut line, "frames ")?;
    put_decimal(&mut line, samples.len() as u64)?;
    put_words(&mut line, " sound ")?;
    put_decimal(&mut line, u64::from(pcm.frames))?;
    put_words(&mut line, "\n")?;
    Ok(line)
}
