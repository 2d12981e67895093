//! Movies in memory, decoded.

ghost use Rattle.std.specs.Prelude.{◌≤◌};

use monitors::{BlackMonitor, BytesMonitor, IndexMonitor, LevelMonitor, Monitor, PictureFacts};
use pic_y4m::Head;
use pr_head::FrameKind;
use pw_outside::{MemSink, MemStore, NoMemory, put};
use pw_planes::{AlphaKind, Chroma, Depth, Interlace};
use qt_movie::MovieWriter;
use run_decode::*;
use std::test::Fail;

// the fields in front of the matrices of a grey frame of 16 by 16
const START: [u8; 28] =
    *b"\x00\x00\x00\xb2icpf\x00\x94\x00\x00pwk0\x00\x10\x00\x10\x80\x00\x02\x02\x02\x00\x00\x03";

// its picture: header, table and one slice
const PICTURE: [u8; 22] =
    *b"\x40\x00\x00\x00\x16\x00\x01\x30\x00\x0c\x30\x01\x00\x02\x00\x02\x82\x30\x82\x00\x82\x00";

const REPORTS: &[u8] = b"pictures 1\nlevels 512 512\nblack none\nbytes 178 178\nindices 1 1\n";

/// The grey frame, with this index.
fn grey(rt: &HostRuntime, index: u8) -> Result<Vec<u8>, Fail> {
    let mut bytes = START.to_vec(rt.alloc())?;
    for _ in 0..128 {
        bytes.push(4)?;
    }
    bytes.extend_from_slice(&PICTURE)?;
    if let Some(place) = bytes.get_mut(167) {
        *place = index;
    }
    Ok(bytes)
}

/// The movie of so many grey frames, the first of which have these indices.
fn movie_of(rt: &HostRuntime, frames: u32, indices: &[u8]) -> Result<Vec<u8>, Fail>
    requires { frames ≤ 1000 }
{
    let alloc = rt.alloc();
    let head = Head {
        width: 16,
        height: 16,
        chroma: Chroma::C422,
        depth: Depth::D10,
        alpha: AlphaKind::Absent,
        interlace: Interlace::Progressive,
        num: 25,
        den: 1,
    };
    let mut sink = MemSink::new(alloc, 4096, 4096, Vec::new(alloc))?;
    let mut writer = MovieWriter::begin(alloc, &mut sink, &head)?;
    for number in 0..frames {
        let index = indices.get(number as usize).unwrap_or(&1);
        let frame = grey(rt, *index)?;
        writer.reserve(1)?;
        writer.frame_head(&mut sink, 178)?;
        put(&mut sink, &frame)?;
    }
    writer.finish(alloc, &mut sink)?;
    Ok(sink.bytes().to_vec(alloc)?)
}

/// The pictures of so many grey frames, as Y4M.
fn greys(rt: &HostRuntime, count: u32) -> Result<Vec<u8>, Fail> {
    let mut bytes = Vec::new(rt.alloc());
    if 0 < count {
        bytes.extend_from_slice(b"YUV4MPEG2 W16 H16 F25:1 Ip C422p10\n")?;
    }
    for _ in 0..count {
        bytes.extend_from_slice(b"FRAME\n")?;
        for _ in 0..512 {
            bytes.extend_from_slice(b"\x00\x02")?;
        }
    }
    Ok(bytes)
}

/// The four monitors, in the order of their reports.
fn four_monitors(rt: &HostRuntime) -> Result<Vec<Box<dyn Monitor>>, Fail> {
    let alloc = rt.alloc();
    let mut monitors: Vec<Box<dyn Monitor>> = Vec::new(alloc);
    monitors.push(Box::new(alloc, LevelMonitor::new())?)?;
    monitors.push(Box::new(alloc, BlackMonitor::new(alloc))?)?;
    monitors.push(Box::new(alloc, BytesMonitor::new())?)?;
    monitors.push(Box::new(alloc, IndexMonitor::new())?)?;
    Ok(monitors)
}

/// Which calls of each port fail.
#[derive(Clone, Copy)]
struct Fails {
    reading: Option<u64>,
    writing: Option<u64>,
    printing: Option<u64>,
}

const NONE_FAILS: Fails = Fails {
    reading: None,
    writing: None,
    printing: None,
};

fn calls_of(rt: &HostRuntime, call: Option<u64>) -> Result<Vec<u64>, Fail> {
    let mut calls = Vec::new(rt.alloc());
    if let Some(call) = call {
        calls.push(call)?;
    }
    Ok(calls)
}

/// How decoding a file at 10 bits as Y4M ends, what was written, and the text.
fn decoded(
    rt: &HostRuntime,
    file: &[u8],
    step: usize,
    fails: &Fails,
    monitors: &mut Vec<Box<dyn Monitor>>,
) -> Result<(DecodeEnd, Vec<u8>, Vec<u8>), Fail>
    requires { 1 ≤ step }
{
    let alloc = rt.alloc();
    let mut movie = MemStore::new(file.to_vec(alloc)?, step, calls_of(rt, fails.reading)?);
    let mut out = MemSink::new(alloc, 64, step, calls_of(rt, fails.writing)?)?;
    let mut text = MemSink::new(alloc, 64, step, calls_of(rt, fails.printing)?)?;
    let end = decode_run(
        alloc,
        &mut movie,
        Depth::D10,
        Form::Y4m,
        &mut out,
        &mut text,
        monitors,
    );
    Ok((end, out.bytes().to_vec(alloc)?, text.bytes().to_vec(alloc)?))
}

#[test]
fn a_grey_movie_is_shown_and_reported(rt: HostRuntime) -> Result<(), Fail> {
    let file = movie_of(&rt, 1, &[1])?;
    assert_eq!(rt; file.len(), 798);
    let pictures = greys(&rt, 1)?;
    assert_eq!(rt; pictures.len(), 1065);
    for step in [1, 3, 4096] {
        let mut monitors = four_monitors(&rt)?;
        let (end, out, text) = decoded(&rt, &file, step, &NONE_FAILS, &mut monitors)?;
        assert_eq!(rt; end, DecodeEnd::Done, "step {step}");
        assert!(rt; out == pictures, "step {step}");
        assert!(rt; text.as_slice() == REPORTS, "step {step}");
        assert_eq!(rt; monitors.len(), 0);
    }
    Ok(())
}

#[test]
fn a_movie_without_samples_has_no_head_line(rt: HostRuntime) -> Result<(), Fail> {
    let file = movie_of(&rt, 0, &[])?;
    assert_eq!(rt; file.len(), 584);
    let mut monitors = four_monitors(&rt)?;
    let (end, out, text) = decoded(&rt, &file, 4096, &NONE_FAILS, &mut monitors)?;
    assert_eq!(rt; end, DecodeEnd::Done);
    assert_eq!(rt; out.len(), 0);
    let want = b"pictures 0\nlevels none\nblack none\nbytes 0 0\nindices none\n";
    assert!(rt; text.as_slice() == want.as_slice());
    Ok(())
}

#[test]
fn each_fault_of_a_port_is_told(rt: HostRuntime) -> Result<(), Fail> {
    let file = movie_of(&rt, 1, &[1])?;
    let pictures = greys(&rt, 1)?;
    let mut told = [0u32; 3];
    for call in 0..200 {
        let tries = [
            (Some(call), None, None, DecodeEnd::ReadFault),
            (None, Some(call), None, DecodeEnd::WriteFault),
            (None, None, Some(call), DecodeEnd::WriteFault),
        ];
        for (port, (reading, writing, printing, fault)) in tries.into_iter().enumerate() {
            let fails = Fails {
                reading,
                writing,
                printing,
            };
            let mut monitors = four_monitors(&rt)?;
            let (end, out, text) = decoded(&rt, &file, 64, &fails, &mut monitors)?;
            assert!(rt; end == fault || end == DecodeEnd::Done, "call {call}");
            assert!(rt; pictures.starts_with(&out), "call {call}");
            assert!(rt; REPORTS.starts_with(&text), "call {call}");
            if end == fault && port < 3 {
                told[port] = told[port].saturating_add(1);
            }
        }
    }
    // The text has five writes and a flush.
    assert!(rt; told[0] > 20);
    assert!(rt; told[1] > 18);
    assert_eq!(rt; told[2], 6);
    Ok(())
}

/// Keeps the facts of each picture, and finds no memory at one of them or at the report.
#[derive(Drop)]
struct Keeper {
    kept: Vec<u8>,
    no_memory_at: u32,
    no_report: bool,
}

impl Monitor for Keeper {
    ghost use Rattle.std.specs.Prelude.{◌++◌, ◌∷◌, [], ◌%◌, ◌/◌};
    ghost use Rattle.std.specs.List.{flat_map};

    ghost state = { λ m. λ fs. m.kept.items ++ flat_map (λ f. f.number % 256 ∷ f.bytes % 256 ∷ f.least_index ∷ f.greatest_index ∷ f.least_luma % 256 ∷ f.greatest_luma / 256 ∷ []) fs };

    #[tactic(auto, using(crate::proofs::Kept::one_kept))]
    fn picture(&mut self, facts: &PictureFacts) -> Result<(), NoMemory> {
        let facts = *facts;
        if facts.number == self.no_memory_at {
            return Err(NoMemory);
        }
        let line = [
            (facts.number % 256) as u8,
            (facts.bytes % 256) as u8,
            facts.least_index,
            facts.greatest_index,
            (facts.least_luma % 256) as u8,
            (facts.greatest_luma / 256) as u8,
        ];
        match self.kept.extend_from_slice(&line) {
            Ok(()) => Ok(()),
            Err(_) => Err(NoMemory),
        }
    }

    #[tactic(auto, using(crate::proofs::Kept::all_kept, crate::proofs::Kept::none_added))]
    fn report(&self, text: &mut Vec<u8>) -> Result<(), NoMemory> {
        if self.no_report {
            return Err(NoMemory);
        }
        match text.extend_from_slice(&self.kept) {
            Ok(()) => Ok(()),
            Err(_) => Err(NoMemory),
        }
    }
}

/// A keeper that finds no memory at these.
fn keeper_of(rt: &HostRuntime, no_memory_at: u32, no_report: bool) -> Keeper {
    Keeper {
        kept: Vec::new(rt.alloc()),
        no_memory_at,
        no_report,
    }
}

/// Three keepers, of which the second finds no memory at these.
fn three_keepers(
    rt: &HostRuntime,
    no_memory_at: u32,
    no_report: bool,
) -> Result<Vec<Box<dyn Monitor>>, Fail> {
    let alloc = rt.alloc();
    let mut monitors: Vec<Box<dyn Monitor>> = Vec::new(alloc);
    monitors.push(Box::new(alloc, keeper_of(rt, 9, false))?)?;
    monitors.push(Box::new(alloc, keeper_of(rt, no_memory_at, no_report))?)?;
    monitors.push(Box::new(alloc, keeper_of(rt, 9, false))?)?;
    Ok(monitors)
}

/// What the monitors that are left report, one behind the other.
fn left_of(rt: &HostRuntime, monitors: &[Box<dyn Monitor>]) -> Result<Vec<u8>, Fail> {
    let mut text = Vec::new(rt.alloc());
    for monitor in monitors {
        monitor.report(&mut text)?;
    }
    Ok(text)
}

#[test]
fn monitors_are_told_every_fact_in_order(rt: HostRuntime) -> Result<(), Fail> {
    let file = movie_of(&rt, 3, &[1, 2, 3])?;
    let mut monitors = three_keepers(&rt, 9, false)?;
    let (end, out, text) = decoded(&rt, &file, 4096, &NONE_FAILS, &mut monitors)?;
    assert_eq!(rt; end, DecodeEnd::Done);
    assert!(rt; out == greys(&rt, 3)?);
    assert_eq!(rt; monitors.len(), 0);
    let want =
        b"pictures 3\n\x00\xb2\x01\x01\x00\x02\x01\xb2\x02\x02\x00\x02\x02\xb2\x03\x03\x00\x02\x00\xb2\x01\x01\x00\x02\x01\xb2\x02\x02\x00\x02\x02\xb2\x03\x03\x00\x02\x00\xb2\x01\x01\x00\x02\x01\xb2\x02\x02\x00\x02\x02\xb2\x03\x03\x00\x02";
    assert!(rt; text.as_slice() == want.as_slice());
    Ok(())
}

#[test]
fn a_monitor_that_finds_no_memory_is_one_picture_behind(rt: HostRuntime) -> Result<(), Fail> {
    let file = movie_of(&rt, 3, &[1, 2, 3])?;
    let mut monitors = three_keepers(&rt, 1, false)?;
    let (end, out, text) = decoded(&rt, &file, 4096, &NONE_FAILS, &mut monitors)?;
    assert_eq!(rt; end, DecodeEnd::NoMemory);
    assert!(rt; out == greys(&rt, 2)?);
    assert_eq!(rt; text.len(), 0);
    assert_eq!(rt; monitors.len(), 3);
    let want =
        b"\x00\xb2\x01\x01\x00\x02\x01\xb2\x02\x02\x00\x02\x00\xb2\x01\x01\x00\x02\x00\xb2\x01\x01\x00\x02";
    assert!(rt; left_of(&rt, &monitors)?.as_slice() == want.as_slice());
    Ok(())
}

#[test]
fn a_monitor_whose_report_finds_no_memory_stays(rt: HostRuntime) -> Result<(), Fail> {
    let file = movie_of(&rt, 1, &[1])?;
    let mut monitors = three_keepers(&rt, 9, true)?;
    let (end, _, text) = decoded(&rt, &file, 4096, &NONE_FAILS, &mut monitors)?;
    assert_eq!(rt; end, DecodeEnd::NoMemory);
    assert!(rt; text.as_slice() == b"pictures 1\n\x00\xb2\x01\x01\x00\x02".as_slice());
    assert_eq!(rt; monitors.len(), 2);
    Ok(())
}

#[test]
fn a_fault_comes_behind_the_pictures_in_front_of_it(rt: HostRuntime) -> Result<(), Fail> {
    let file = movie_of(&rt, 3, &[1, 2, 0])?;
    let mut monitors = three_keepers(&rt, 9, false)?;
    let (end, out, text) = decoded(&rt, &file, 4096, &NONE_FAILS, &mut monitors)?;
    let fault = DecodeEnd::BadFrame {
        sample: 2,
        kind: FrameKind::QuantIndex,
        place: 167,
    };
    assert_eq!(rt; end, fault);
    assert!(rt; out == greys(&rt, 2)?);
    assert_eq!(rt; text.len(), 0);
    assert_eq!(rt; monitors.len(), 3);
    assert_eq!(rt; left_of(&rt, &monitors)?.len(), 36);
    Ok(())
}
