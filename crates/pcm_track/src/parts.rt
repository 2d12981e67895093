//! The contents of the data atoms of a movie with sound.

ghost use Rattle.std.specs.Prelude.{◌≡◌, ◌≤◌, ◌+◌, ◌*◌, ◌++◌, [], length, IfOk, OnOk};
ghost use Rattle.std.specs.List.{All};
ghost use Rattle.qt_tables.specs.declared.tables.TheConstants.{MAX_SAMPLES};
ghost use Rattle.qt_tables.specs.Samples.{samples};
ghost use Rattle.qt_tables.specs.Tables.{AreTables};
ghost use Rattle.pcm_track.specs.Wav.{sound_size, IsPcm};
ghost use Rattle.pcm_track.specs.Adding.{border, sound_end, with_sound, parts_from, parts_of, IsNear};

use crate::form::Pcm;
use qt_movie::MovieReader;
use qt_tables::Sample;
use std::alloc::{AllocError, Global};

/// The contents of one data atom of the movie that is written.
#[derive(Clone, Copy, Debug, PartialEq, Eq)]
pub enum Part {
    /// A picture sample of the movie that is read.
    Picture(Sample),
    /// This number of frames of sound, at least 1.
    Sound(u32),
}

/// The number of bytes of `frames` frames of sound.
pub(crate) fn sound_bytes(channels: u8, frames: u32) -> u64
    ensures { result ≡ sound_size channels frames }
{
    2 * u64::from(channels) * u64::from(frames)
}

/// The samples of a movie, one per size of its tables.
pub(crate) fn samples_of(alloc: Global, movie: &MovieReader) -> Result<Vec<Sample>, AllocError>
    requires { AreTables movie.now.tables }
    ensures value { IfOk result (λ found. found.items ≡ samples movie.now.tables) }
    ensures few { IfOk result (λ found. length found.items ≤ MAX_SAMPLES) }
    ensures near { IfOk result (λ found. All IsNear found.items) }
{
    let count = movie.track().samples;
    let mut found = Vec::new(alloc);
    for i in 0..count {
        found.push(movie.sample(i))?;
    }
    Ok(found)
}

/// The number of frames of sound before `time` of a movie with this time scale, at most all frames.
#[tactic(auto, using(crate::proofs::Borders::border_early, crate::proofs::Borders::border_late))]
fn border(timescale: u32, pcm: Pcm, time: u64) -> u32
    requires some { 1 ≤ timescale }
    requires pcm { IsPcm pcm }
    ensures { result ≡ border timescale pcm time }
{
    let scale = u64::from(timescale);
    let seconds = time / scale;
    if u64::from(pcm.frames) <= seconds {
        return pcm.frames;
    }
    let rate = u64::from(pcm.rate);
    let frames = seconds * rate + time % scale * rate / scale;
    frames.min(u64::from(pcm.frames)) as u32
}

/// The number of frames up to the end of the sound beside a sample that ends at `time`; `others` are the samples
/// after it.
fn sound_end(timescale: u32, pcm: Pcm, time: u64, others: &[Sample]) -> u32
    requires some { 1 ≤ timescale }
    requires pcm { IsPcm pcm }
    ensures { result ≡ sound_end timescale pcm time others.now }
{
    if others.is_empty() {
        pcm.frames
    } else {
        border(timescale, pcm, time)
    }
}

/// Appends `frames` frames of sound, if there are any.
fn push_sound(parts: &mut Vec<Part>, frames: u32) -> Result<(), AllocError>
    ensures { OnOk result (parts.new.items ≡ parts.old.items ++ with_sound frames []) }
{
    if frames != 0 {
        parts.push(Part::Sound(frames))?;
    }
    Ok(())
}

/// The duration of a sample.
fn duration_of(sample: Sample) -> u64
    ensures value { result ≡ sample.duration }
    ensures small { result ≤ 4294967295 }
{
    u64::from(sample.duration)
}

/// The samples, each followed by its sound.
fn parts_beside(
    alloc: Global,
    timescale: u32,
    pcm: Pcm,
    samples: &[Sample],
) -> Result<Vec<Part>, AllocError>
    requires some { 1 ≤ timescale }
    requires pcm { IsPcm pcm }
    requires few { length samples.now ≤ MAX_SAMPLES }
    ensures { IfOk result (λ parts. parts.items ≡ parts_from timescale pcm 0 samples.now) }
{
    let mut parts = Vec::new(alloc);
    let mut time: u64 = 0;
    for i in 0..samples.len() {
        let sample = samples[i];
        let start = border(timescale, pcm, time);
        time += duration_of(sample);
        let end = sound_end(timescale, pcm, time, &samples[i + 1..]);
        parts.push(Part::Picture(sample))?;
        push_sound(&mut parts, end.saturating_sub(start))?;
    }
    Ok(parts)
}

/// The contents of the data atoms: the samples with their sound; without a sample, all sound.
pub(crate) fn parts_of(
    alloc: Global,
    timescale: u32,
    pcm: Pcm,
    samples: &[Sample],
) -> Result<Vec<Part>, AllocError>
    requires some { 1 ≤ timescale }
    requires pcm { IsPcm pcm }
    requires few { length samples.now ≤ MAX_SAMPLES }
    ensures { IfOk result (λ parts. parts.items ≡ parts_of timescale pcm samples.now) }
{
    if samples.is_empty() {
        let mut parts = Vec::new(alloc);
        push_sound(&mut parts, pcm.frames)?;
        return Ok(parts);
    }
    parts_beside(alloc, timescale, pcm, samples)
}
