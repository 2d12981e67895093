//! The movie atom over frames.

ghost use Rattle.std.specs.Prelude.{◌≡◌, ◌≤◌, ◌*◌, length, IfOk};
ghost use Rattle.pic_y4m.specs.HeadLine.{IsHead};
ghost use Rattle.qt_tables.specs.Writing.{places_of};
ghost use Rattle.qt_movie.specs.Trak.{IsTrak};
ghost use Rattle.qt_movie.specs.MovieBytes.{kind_of, pixel_bits, one_run, frames_trak, moov_bytes, extents};
ghost use Rattle.qt_tables.specs.declared.tables.TheConstants.{MAX_SAMPLES};

use crate::containers::write_moov;
use crate::trak::{Media, Trak};
use pic_y4m::Head;
use pw_outside::NoMemory;
use pw_planes::{AlphaKind, Chroma};
use qt_atoms::AtomWriter;
use std::alloc::Global;

/// The offset after the file type.
const FIRST_PLACE: u64 = 20;

/// The offsets of frames of these sizes, each after the head of its data atom.
fn places_of(alloc: Global, sizes: &[u32]) -> Result<Vec<u64>, NoMemory>
    requires { length sizes.now ≤ MAX_SAMPLES }
    ensures { IfOk result (λ places. places.items ≡ places_of (extents sizes.now)) }
{
    let mut places = Vec::new(alloc);
    let mut place = FIRST_PLACE;
    for size in sizes {
        if places.push(place + 8).is_err() {
            return Err(NoMemory);
        }
        place += 8 + u64::from(*size);
    }
    Ok(places)
}

/// One run of durations for `count` samples, if there are any.
fn times_of(alloc: Global, count: u32, duration: u32) -> Result<Vec<(u32, u32)>, NoMemory>
    ensures { IfOk result (λ runs. runs.items ≡ one_run count (count, duration)) }
{
    let mut runs = Vec::new(alloc);
    if count == 0 {
        return Ok(runs);
    }
    match runs.push((count, duration)) {
        Ok(()) => Ok(runs),
        Err(_) => Err(NoMemory),
    }
}

/// One run of chunks with one sample each, if there are any.
fn runs_of(alloc: Global, count: u32) -> Result<Vec<(u32, u32, u32)>, NoMemory>
    ensures { IfOk result (λ runs. runs.items ≡ one_run count (1, 1, 1)) }
{
    let mut runs = Vec::new(alloc);
    if count == 0 {
        return Ok(runs);
    }
    match runs.push((1, 1, 1)) {
        Ok(()) => Ok(runs),
        Err(_) => Err(NoMemory),
    }
}

/// The kind and the bits per pixel of the description.
fn kind_of(head: &Head) -> [u8; 4]
    ensures { result ≡ kind_of head.now }
{
    match (head.chroma, head.alpha) {
        (Chroma::C422, AlphaKind::Absent) => *b"apch",
        _ => *b"ap4h",
    }
}

fn pixel_bits(alpha: AlphaKind) -> u16
    ensures { result ≡ pixel_bits alpha }
{
    match alpha {
        AlphaKind::Absent => 24,
        AlphaKind::Eight | AlphaKind::Sixteen => 32,
    }
}

/// The track of frames of these sizes, each in a chunk of its own.
fn trak_of(alloc: Global, head: &Head, duration: u32, sizes: Vec<u32>) -> Result<Trak, NoMemory>
    requires few { length sizes.items ≤ MAX_SAMPLES }
    requires duration { duration ≡ length sizes.items * head.now.den }
    ensures value { IfOk result (λ trak. trak ≡ frames_trak head.now (extents sizes.items)) }
    ensures can { IfOk result IsTrak }
{
    let count = sizes.len() as u32;
    let offsets = places_of(alloc, &sizes)?;
    let stts = times_of(alloc, count, head.den)?;
    let stsc = runs_of(alloc, count)?;
    Ok(Trak {
        number: 1,
        movie_duration: duration,
        timescale: head.num,
        duration,
        media: Media::Video {
            kind: kind_of(head),
            width: head.width,
            height: head.height,
            depth: pixel_bits(head.alpha),
        },
        stts,
        stsc,
        common: 0,
        count,
        sizes,
        offsets,
    })
}

/// The movie atom over frames of these sizes.
pub(crate) fn moov_of(alloc: Global, head: &Head, sizes: Vec<u32>) -> Result<AtomWriter, NoMemory>
    requires head { IsHead head.now }
    requires few { length sizes.items ≤ MAX_SAMPLES }
    ensures { IfOk result (λ atoms. atoms ≡ moov_bytes head.now (extents sizes.items)) }
{
    let duration = sizes.len() as u32 * head.den;
    let trak = trak_of(alloc, head, duration, sizes)?;
    write_moov(alloc, head.num, duration, &[trak])
}
