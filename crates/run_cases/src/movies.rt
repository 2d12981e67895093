//! Movies in memory, written and read.

ghost use Rattle.std.specs.Prelude.{◌≤◌};
ghost use Rattle.pic_y4m.specs.HeadLine.{IsHead};

use crate::cases::{Files, words_of};
use crate::runs::answer_over;
use gate_words::{bytes_of, word_of};
use pic_y4m::Head;
use pw_outside::{MemSink, MemStore, put};
use pw_planes::{AlphaKind, Chroma, Depth, Interlace};
use qt_movie::{MovieFault, MovieReader, MovieWriter};
use std::io;

fn no_memory() -> io::Error {
    io::Error::from(io::ErrorKind::OutOfMemory)
}

/// Where a sample lies, or its fault.
fn place_of(
    rt: &HostRuntime,
    reader: &MovieReader,
    store: &mut MemStore,
    sample: u32,
) -> io::Result<String> {
    let alloc = rt.alloc();
    if reader.track().samples <= sample {
        return Ok("no sample".to_string(alloc)?);
    }
    let description = reader.sample(sample).description;
    let told = match reader.place(store, sample) {
        Ok((at, end)) => format!(in alloc; "{at} to {end} of description {description}, ")?,
        Err(MovieFault::Bad { kind, place }) => format!(in alloc; "fault {kind:?} {place}, ")?,
        Err(_) => "failed, ".to_string(alloc)?,
    };
    let is_given = reader.span(store, sample).is_ok();
    Ok(format!(in alloc; "{told}{is_given}; ")?)
}

pub(crate) fn places_answer(rt: &HostRuntime, case: &str) -> io::Result<String> {
    let alloc = rt.alloc();
    let mut store = MemStore::new(bytes_of(rt.alloc(), case.as_bytes())?, 7, Vec::new(alloc));
    let reader = match MovieReader::start(alloc, &mut store) {
        Ok(reader) => reader,
        Err(_) => return Ok("no movie".to_string(alloc)?),
    };
    let mut all = String::new(alloc);
    for sample in 0..reader.track().samples {
        let told = place_of(rt, &reader, &mut store, sample)?;
        all.push_str(&told)?;
    }
    Ok(all)
}

/// Writes a frame of `size` zeros.
fn write_frame(
    rt: &HostRuntime,
    writer: &mut MovieWriter,
    sink: &mut MemSink,
    size: u32,
) -> io::Result<()> {
    if size > 1000 || writer.frames() > 1000 {
        return Err(io::Error::from(io::ErrorKind::InvalidData));
    }
    let mut frame = Vec::new(rt.alloc());
    for _ in 0..size {
        frame.push(0)?;
    }
    if writer.reserve(1).is_err() {
        return Err(no_memory());
    }
    if writer.frame_head(sink, size).is_err() || put(sink, &frame).is_err() {
        return Err(no_memory());
    }
    Ok(())
}

/// Pictures of 16 by 16 samples, 25 each `den` seconds, with 8 bits of alpha where `alpha` is 8, and none otherwise.
fn head_of(den: u32, alpha: u32) -> Head
    requires some { 1 ≤ den }
    requires few { den ≤ 4000 }
    ensures { IsHead result }
{
    Head {
        width: 16,
        height: 16,
        chroma: Chroma::C422,
        depth: Depth::D10,
        alpha: if alpha == 8 {
            AlphaKind::Eight
        } else {
            AlphaKind::Absent
        },
        interlace: Interlace::Progressive,
        num: 25,
        den,
    }
}

/// A movie of frames of these sizes.
fn written(rt: &HostRuntime, head: &Head, sizes: &[u32]) -> io::Result<Vec<u8>>
    requires { IsHead head.now }
{
    let alloc = rt.alloc();
    let mut sink = match MemSink::new(alloc, 0, 4096, Vec::new(alloc)) {
        Ok(sink) => sink,
        Err(_) => return Err(no_memory()),
    };
    let mut writer = match MovieWriter::begin(alloc, &mut sink, head) {
        Ok(writer) => writer,
        Err(_) => return Err(no_memory()),
    };
    for size in sizes {
        write_frame(rt, &mut writer, &mut sink, *size)?;
    }
    match writer.finish(alloc, &mut sink) {
        Ok(()) => Ok(sink.bytes().to_vec(alloc)?),
        Err(_) => Err(no_memory()),
    }
}

/// The movie of a case: the denominator of its rate, its bits of alpha, and the sizes of its frames.
fn movie_of(rt: &HostRuntime, case: &str) -> io::Result<Vec<u8>> {
    let mut numbers = Vec::new(rt.alloc());
    for word in case.split_whitespace() {
        match word.parse::<u32>() {
            Ok(number) => numbers.push(number)?,
            Err(_) => return Err(io::Error::from(io::ErrorKind::InvalidData)),
        }
    }
    if numbers.len() < 2 || numbers[0] < 1 || numbers[0] > 4000 {
        return Err(io::Error::from(io::ErrorKind::InvalidData));
    }
    let head = head_of(numbers[0], numbers[1]);
    written(rt, &head, &numbers[2..])
}

pub(crate) fn bytes_answer(rt: &HostRuntime, case: &str) -> io::Result<String> {
    word_of(rt.alloc(), &movie_of(rt, case)?)
}

pub(crate) fn written_answer(rt: &HostRuntime, case: &str) -> io::Result<String> {
    let words = words_of(rt, "list movie")?;
    answer_over(rt, &words, Files::of_movie(&movie_of(rt, case)?))
}
