//! Listings of movies in memory.

ghost use Rattle.std.specs.Prelude.{◌≤◌};

use pic_y4m::Head;
use pw_outside::{MemSink, MemStore, put};
use pw_planes::{AlphaKind, Chroma, Depth, Interlace};
use qt_movie::MovieWriter;
use qt_tables::MovieKind;
use run_look::*;
use std::test::Fail;

/// The text of a movie of one frame of 178 bytes.
const GREY: &[u8] =
    b"track 1 timescale 25 kind apch width 16 height 16 samples 1\nsample 0 at 28 size 178 duration 1\n";

/// A movie of so many frames of so many bytes.
fn movie_of(rt: &HostRuntime, frames: u32, size: u32) -> Result<Vec<u8>, Fail>
    requires frames { frames ≤ 1000 }
    requires size { size ≤ 1000 }
{
    let alloc = rt.alloc();
    let head = Head {
        width: 16,
        height: 16,
        chroma: Chroma::C422,
        depth: Depth::D10,
        alpha: AlphaKind::Absent,
        interlace: Interlace::Progressive,
        num: 25,
        den: 1,
    };
    let mut sink = MemSink::new(alloc, 4096, 4096, Vec::new(alloc))?;
    let mut frame = Vec::new(alloc);
    for _ in 0..size {
        frame.push(7)?;
    }
    let mut writer = MovieWriter::begin(alloc, &mut sink, &head)?;
    for _ in 0..frames {
        writer.reserve(1)?;
        writer.frame_head(&mut sink, size)?;
        put(&mut sink, &frame)?;
    }
    writer.finish(alloc, &mut sink)?;
    Ok(sink.bytes().to_vec(alloc)?)
}

/// How listing a file ends, where the calls with these numbers fail, and its text.
fn listed(
    rt: &HostRuntime,
    file: &[u8],
    step: usize,
    reading: &[u64],
    writing: &[u64],
) -> Result<(LookEnd, Vec<u8>), Fail>
    requires { 1 ≤ step }
{
    let alloc = rt.alloc();
    let mut movie = MemStore::new(file.to_vec(alloc)?, step, reading.to_vec(alloc)?);
    let mut text = MemSink::new(alloc, 64, step, writing.to_vec(alloc)?)?;
    let end = list_run(alloc, &mut movie, &mut text);
    Ok((end, text.bytes().to_vec(alloc)?))
}

#[test]
fn a_movie_of_one_frame_has_two_lines(rt: HostRuntime) -> Result<(), Fail> {
    let file = movie_of(&rt, 1, 178)?;
    for step in [1, 3, 4096] {
        let (end, text) = listed(&rt, &file, step, &[], &[])?;
        assert_eq!(rt; end, LookEnd::Done, "step {step}");
        assert!(rt; text.as_slice() == GREY, "step {step}");
    }
    Ok(())
}

#[test]
fn more_lines_than_are_written_at_once(rt: HostRuntime) -> Result<(), Fail> {
    let file = movie_of(&rt, 600, 1)?;
    let (end, text) = listed(&rt, &file, 4096, &[], &[])?;
    assert_eq!(rt; end, LookEnd::Done);
    assert!(rt;
        text.starts_with(
            b"track 1 timescale 25 kind apch width 16 height 16 samples 600\nsample 0 at 28 size 1 duration 1\nsample 1 at 37 "
        )
    );
    assert!(rt; text.ends_with(b"\nsample 599 at 5419 size 1 duration 1\n"));
    let mut lines: u32 = 0;
    for byte in &text {
        if *byte == b'\n' {
            lines = lines.saturating_add(1);
        }
    }
    assert_eq!(rt; lines, 601);
    Ok(())
}

#[test]
fn a_movie_without_frames_has_one_line(rt: HostRuntime) -> Result<(), Fail> {
    let file = movie_of(&rt, 0, 0)?;
    let (end, text) = listed(&rt, &file, 4096, &[], &[])?;
    assert_eq!(rt; end, LookEnd::Done);
    let want = "track 1 timescale 25 kind apch width 16 height 16 samples 0\n";
    assert!(rt; text.as_slice() == want.as_bytes());
    Ok(())
}

#[test]
fn the_first_fault_of_a_file_is_told(rt: HostRuntime) -> Result<(), Fail> {
    let file = movie_of(&rt, 1, 178)?;
    let cases = [
        (0, MovieKind::NoMoov, 0),
        (8, MovieKind::AtomSize, 0),
        (28, MovieKind::AtomSize, 20),
        (210, MovieKind::NoMoov, 0),
        (700, MovieKind::AtomSize, 206),
    ];
    for (length, kind, place) in cases {
        let (end, text) = listed(&rt, file.get(..length).unwrap_or(&[]), 4096, &[], &[])?;
        assert_eq!(rt; end, LookEnd::BadMovie { kind, place }, "{length} bytes");
        assert_eq!(rt; text.len(), 0, "{length} bytes");
    }
    Ok(())
}

#[test]
fn each_fault_of_a_port_is_told(rt: HostRuntime) -> Result<(), Fail> {
    let file = movie_of(&rt, 1, 178)?;
    let mut read_faults: u32 = 0;
    for call in 0..200 {
        let (end, text) = listed(&rt, &file, 4096, &[call], &[])?;
        if end == LookEnd::ReadFault {
            read_faults = read_faults.saturating_add(1);
            assert_eq!(rt; text.len(), 0, "call {call}");
        } else {
            assert_eq!(rt; end, LookEnd::Done, "call {call}");
        }
    }
    assert!(rt; read_faults > 20);
    // The text in pieces of 7 bytes, line by line and then the samples, and the flush.
    for call in 0..15 {
        let (end, text) = listed(&rt, &file, 7, &[], &[call])?;
        assert_eq!(rt; end, LookEnd::WriteFault, "call {call}");
        assert!(rt; GREY.starts_with(&text), "call {call}");
    }
    let (end, _) = listed(&rt, &file, 7, &[], &[100])?;
    assert_eq!(rt; end, LookEnd::Done);
    Ok(())
}
