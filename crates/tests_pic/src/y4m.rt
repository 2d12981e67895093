//! Inputs with their heads, pictures and faults, from an implementation that was written apart from this one.

ghost use Rattle.pic_y4m.specs.Frames.{HasForm};

use pic_y4m::{Head, PictureFault, PictureKind, WriteEnd, Y4mReader, Y4mWriter};
use pw_outside::{MemSink, MemSource};
use pw_planes::{AlphaKind, Chroma, Depth, Interlace, Picture, Plane};
use std::alloc::Global;
use std::process::Abort;
use std::test::Fail;

/// How an input ended, how many pictures stand before that, and a hash of their samples.
#[derive(Clone, Copy, Debug, PartialEq, Eq)]
struct Outcome {
    fault: Option<(PictureKind, u64)>,
    pictures: u32,
    samples: u64,
}

// the hash of no samples
const NONE: u64 = 0xcbf2_9ce4_8422_2325;

const fn ends(fault: Option<(PictureKind, u64)>, pictures: u32, samples: u64) -> Outcome {
    Outcome {
        fault,
        pictures,
        samples,
    }
}

// FNV-1a of 64 bits over two bytes a sample, the low byte first
fn hashed(mut hash: u64, plane: &Plane) -> u64 {
    for sample in plane.samples() {
        for byte in [*sample & 255, *sample >> 8] {
            hash = (hash ^ u64::from(byte)).wrapping_mul(0x100_0000_01b3);
        }
    }
    hash
}

fn source_of(rt: &impl Abort, alloc: Global, bytes: &[u8], step: usize, fail: u64) -> MemSource {
    assert!(rt; 1 <= step);
    let bytes = Vec::from_slice(alloc, bytes).expect(rt, "memory");
    let fails = Vec::from_array(alloc, [fail]).expect(rt, "memory");
    MemSource::new(bytes, step, fails)
}

fn fault_of(rt: &impl Abort, fault: PictureFault) -> Option<(PictureKind, u64)> {
    match fault {
        PictureFault::Bad { kind, place } => Some((kind, place)),
        _ => {
            assert!(rt; false, "neither the port fails nor memory runs out");
            None
        }
    }
}

fn outcome_of(rt: &impl Abort, alloc: Global, bytes: &[u8], step: usize) -> Outcome {
    let mut source = source_of(rt, alloc, bytes, step, u64::MAX);
    let mut reader = match Y4mReader::start(&mut source) {
        Ok(reader) => reader,
        Err(fault) => return ends(fault_of(rt, fault), 0, NONE),
    };
    let mut samples = NONE;
    for pictures in 0..10 {
        match reader.next(alloc, &mut source) {
            Ok(Some(picture)) => {
                samples = hashed(samples, &picture.y);
                samples = hashed(samples, &picture.cb);
                samples = hashed(samples, &picture.cr);
            }
            Ok(None) => return ends(None, pictures, samples),
            Err(fault) => return ends(fault_of(rt, fault), pictures, samples),
        }
    }
    ends(None, 10, samples)
}

#[test]
fn tells_the_first_fault_of_the_head_line(rt: HostRuntime) {
    let cases: [(&[u8], PictureKind, u64); 34] = [
        (b"", PictureKind::Truncated, 0),
        (b"YUV4", PictureKind::Truncated, 4),
        (b"YUV4MPEG2", PictureKind::Truncated, 9),
        (b"YUV4MPEG2 W2 H2", PictureKind::Truncated, 15),
        (b" UV4MPEG2 W2 H2\n", PictureKind::Magic, 0),
        (b"YUW", PictureKind::Magic, 0),
        (b"YUV4MPEG2\nW2 H2\n", PictureKind::Parameter, 0),
        (b"YUV4MPEG2XW2 H2\n", PictureKind::Parameter, 9),
        (b"YUV4MPEG2 W  H2\n", PictureKind::Parameter, 10),
        (b"YUV4MPEG2 W8193 H4", PictureKind::Truncated, 18),
        (b"YUV4MPEG2 W8193 H4\n", PictureKind::Parameter, 10),
        (b"YUV4MPEG2 W4 H4 H4\n", PictureKind::Parameter, 16),
        (b"YUV4MPEG2 W4 H4 F25:1 F25:1\n", PictureKind::Parameter, 22),
        (b"YUV4MPEG2 W4 H4 F1:1 F0:0\n", PictureKind::Parameter, 21),
        (b"YUV4MPEG2 W4 H4 It\n", PictureKind::Interlace, 16),
        (b"YUV4MPEG2 W4 H4 Im\n", PictureKind::Interlace, 16),
        (b"YUV4MPEG2 W4 H4 Ip Ip\n", PictureKind::Parameter, 19),
        (b"YUV4MPEG2 It W4 H4\n", PictureKind::Interlace, 10),
        (
            b"YUV4MPEG2 Ib W4 H4 C420 F0:1\n",
            PictureKind::Parameter,
            24,
        ),
        (b"YUV4MPEG2 W4 H4 C\n", PictureKind::Chroma, 16),
        (b"YUV4MPEG2 C9 F0:1\n", PictureKind::Chroma, 10),
        (b"YUV4MPEG2 W1 H1 C444p12 Ib\n", PictureKind::Interlace, 24),
        (b"YUV4MPEG2 W3 H2 C420jpeg It\n", PictureKind::Interlace, 25),
        (b"YUV4MPEG2 W4 Im W2\n", PictureKind::Interlace, 13),
        (b"YUV4MPEG2 C422 C9 W2\n", PictureKind::Parameter, 15),
        (b"YUV4MPEG2 X It W2\n", PictureKind::Interlace, 12),
        (
            b"YUV4MPEG2   W1   Ib H3   C420\n",
            PictureKind::Interlace,
            17,
        ),
        (b"YUV4MPEG2 H6 C422p12   ", PictureKind::Truncated, 23),
        (
            b"YUV4MPEG2   W2 H5 It C420 F44I95:859\nFR",
            PictureKind::Parameter,
            26,
        ),
        (
            b"YUV4MPEG2 Ip  CA0:0 C444   H2 W6\n",
            PictureKind::Chroma,
            14,
        ),
        (b"YUV4MPEG2 W1   H6 C44C A0:0\n", PictureKind::Chroma, 18),
        (
            b"YUV4MPEG2   C444p12 WW   Ip H2\nFRAME",
            PictureKind::Parameter,
            20,
        ),
        (
            b"YUV4MPEG2 F59588:426 W6   C422p10 H5   It\n",
            PictureKind::Interlace,
            39,
        ),
        (
            b"YUV4MPEG2 F18837:942   C420 H4 I\n",
            PictureKind::Parameter,
            31,
        ),
    ];
    for (bytes, kind, place) in cases {
        for step in [1, 4096] {
            let want = ends(Some((kind, place)), 0, NONE);
            assert_eq!(rt; outcome_of(&rt, rt.alloc(), bytes, step), want, "{bytes:?}");
        }
    }
}

#[test]
fn reads_pictures_up_to_the_end_or_the_first_fault(rt: HostRuntime) {
    let late = |kind, place| Some((kind, place));
    let cases: [(&[u8], Outcome); 19] = [
        (b"YUV4MPEG2 W2 H2\n", ends(None, 0, NONE)),
        (
            b"YUV4MPEG2 W4 H4 Ip C422p10 F50:1 A128:117 XCOLORRANGE=LIMITED\n",
            ends(None, 0, NONE),
        ),
        (
            b"YUV4MPEG2 W2 H1 C422\nFRAME\n1234",
            ends(None, 1, 0x58b5_59d9_2cfa_a2a1),
        ),
        (
            b"YUV4MPEG2 W2 H1 C422\nFRAME\n1234FRAME\n5678",
            ends(None, 2, 0x887e_8a36_bbf8_b8dd),
        ),
        (
            b"YUV4MPEG2 W2 H1 C422\nFRAM\n1234",
            ends(late(PictureKind::FrameLine, 21), 0, NONE),
        ),
        (
            b"YUV4MPEG2 W2 H1 C422\nFRAME1234",
            ends(late(PictureKind::Truncated, 30), 0, NONE),
        ),
        (
            b"YUV4MPEG2 W2 H1 C422\nFRAME\n1234F",
            ends(late(PictureKind::Truncated, 32), 1, 0x58b5_59d9_2cfa_a2a1),
        ),
        (
            b"YUV4MPEG2 W2 H1 C422\nFRAME\n1234\n",
            ends(late(PictureKind::FrameLine, 31), 1, 0x58b5_59d9_2cfa_a2a1),
        ),
        (
            b"YUV4MPEG2 W1 H1 C444\nFRAME\n\xfd5\x83",
            ends(None, 1, 0x32ed_8f45_9aa4_d1a6),
        ),
        (
            b"YUV4MPEG2 W1 H1 C444\nFRAME\n\xfd5",
            ends(late(PictureKind::Truncated, 29), 0, NONE),
        ),
        (
            b"YUV4MPEG2 W1 H1 C422p10\nFRAME\n\xb2\x00v\x02\xe8\x02",
            ends(None, 1, 0x3e6f_f106_3863_9991),
        ),
        (
            b"YUV4MPEG2 W1 H1 C422p10\nFRAME\n\x00\x04v\x02\xe8\x02",
            ends(late(PictureKind::SampleRange, 30), 0, NONE),
        ),
        (
            b"YUV4MPEG2 W1 H1 C422p10\nFRAME\n\x00\x04v\x02\xe8",
            ends(late(PictureKind::Truncated, 35), 0, NONE),
        ),
        (
            b"YUV4MPEG2 W1 H1 C444p10\nFRAME\n\xdf\x01\xbf\x02 \x02",
            ends(None, 1, 0x7fd9_e06d_9da9_ac12),
        ),
        (
            b"YUV4MPEG2 W1 H1 C422p12\nFRAME\n\x95\x09\x8b\x031\n",
            ends(None, 1, 0x47e0_25ef_397d_a446),
        ),
        (
            b"YUV4MPEG2 W1 H1 C444p12\nFRAME\n\x84\x03 \nv\x03",
            ends(None, 1, 0xe362_681b_5e55_aa51),
        ),
        (
            b"YUV4MPEG2 F9534:243 H2 W1 C444p12 Ib\nFRAME\n\x1f\x07\xfb\x08\xc7\x08\xeb\x04\x0f\x0b\xa1\x0d",
            ends(None, 1, 0x56f5_285b_6b05_f5e4),
        ),
        (
            b"YUV4MPEG2 C420 W3 H1\nFRAME\n!\x14I\x10v\x9f\x08FRAME\n\xc4\xf6\x8fz\xcb.\x06FRAME",
            ends(late(PictureKind::Truncated, 52), 2, 0x5a33_dc90_b025_eea4),
        ),
        (
            b"YUV4MPEG2 F39688:818 W1   H6 It C444\n\n",
            ends(late(PictureKind::FrameLine, 37), 0, NONE),
        ),
    ];
    for (bytes, want) in cases {
        for step in [1, 4096] {
            assert_eq!(rt; outcome_of(&rt, rt.alloc(), bytes, step), want, "{bytes:?}");
        }
    }
}

// one frame of 16 by 16 samples of 10 bits, all of them 512
fn grey(rt: &impl Abort, alloc: Global) -> Vec<u8> {
    let mut bytes = Vec::from_slice(alloc, b"YUV4MPEG2 W16 H16 F25:1 Ip C422p10\nFRAME\n").expect(
        rt, "memory",
    );
    for _ in 0..512 {
        bytes.extend_from_slice(b"\x00\x02").expect(rt, "memory");
    }
    bytes
}

#[test]
fn an_input_cut_anywhere_ends_there(rt: HostRuntime) {
    let bytes = grey(&rt, rt.alloc());
    assert_eq!(rt; bytes.len(), 1065);
    for length in 0..=1065 {
        let got = outcome_of(&rt, rt.alloc(), &bytes[..length], 512);
        let want = match length {
            35 | 1065 => None,
            _ => Some((PictureKind::Truncated, length as u64)),
        };
        assert_eq!(rt; got.fault, want, "{length}");
        assert_eq!(rt; got.pictures, u32::from(length == 1065), "{length}");
    }
}

#[test]
fn a_port_that_fails_is_told(rt: HostRuntime) {
    let bytes = grey(&rt, rt.alloc());
    for call in [0, 5, 28, 29, 34, 35] {
        let mut source = source_of(&rt, rt.alloc(), &bytes, 4096, call);
        let failed = match Y4mReader::start(&mut source) {
            Ok(mut reader) => reader.next(rt.alloc(), &mut source),
            Err(fault) => Err(fault),
        };
        assert!(rt; matches!(failed, Err(PictureFault::Failed)), "{call}");
    }
}

fn first_picture(rt: &impl Abort, alloc: Global, bytes: &[u8]) -> (Head, Picture)
    ensures { HasForm result.0 result.1 }
{
    let mut source = source_of(rt, alloc, bytes, 4096, u64::MAX);
    let mut reader = Y4mReader::start(&mut source).expect(rt, "a head");
    let picture = reader.next(alloc, &mut source).expect(rt, "a frame");
    (reader.head(), picture.expect(rt, "a picture"))
}

#[test]
fn rows_that_share_chroma_are_widened(rt: HostRuntime) {
    let input = b"YUV4MPEG2 W2 H2 F25:1\nFRAME\n\x10\x20\x30\x40\x50\x60";
    let (head, picture) = first_picture(&rt, rt.alloc(), input);
    let want = Head {
        width: 2,
        height: 2,
        chroma: Chroma::C422,
        depth: Depth::D8,
        alpha: AlphaKind::Absent,
        interlace: Interlace::Progressive,
        num: 25,
        den: 1,
    };
    assert_eq!(rt; head, want);
    assert!(rt; picture.y.samples() == [16, 32, 48, 64].as_slice());
    assert!(rt; picture.cb.samples() == [80, 80].as_slice());
    assert!(rt; picture.cr.samples() == [96, 96].as_slice());
    let cut = outcome_of(&rt, rt.alloc(), &input[..33], 4096);
    assert_eq!(rt; cut.fault, Some((PictureKind::Truncated, 33)));
}

#[test]
fn lines_have_their_limits(rt: HostRuntime) -> Result<(), Fail> {
    for (spaces, want) in [(1008, None), (1009, Some((PictureKind::Parameter, 1024)))] {
        let mut bytes = Vec::from_slice(rt.alloc(), b"YUV4MPEG2 W2 H2")?;
        for _ in 0..spaces {
            bytes.push(b' ')?;
        }
        bytes.push(b'\n')?;
        assert_eq!(rt;
            outcome_of(&rt, rt.alloc(), &bytes, 4096).fault,
            want,
            "{spaces}"
        );
    }
    Ok(())
}

// reads the first picture and writes it into a sink whose calls with this number fail
fn copied(
    rt: &impl Abort,
    alloc: Global,
    bytes: &[u8],
    fail: u64,
) -> (MemSink, Result<(), WriteEnd>) {
    let (head, picture) = first_picture(rt, alloc, bytes);
    let fails = Vec::from_array(alloc, [fail]).expect(rt, "memory");
    let mut sink = MemSink::new(alloc, 2048, 4096, fails).expect(rt, "memory");
    let end = match Y4mWriter::start(alloc, &mut sink, &head) {
        Ok(mut writer) => writer.picture(&mut sink, &picture),
        Err(end) => Err(end),
    };
    (sink, end)
}

#[test]
fn what_is_written_is_what_was_read(rt: HostRuntime) {
    let grey = grey(&rt, rt.alloc());
    let shared = b"YUV4MPEG2 W2 H2 F25:1\nFRAME\n\x10\x20\x30\x40\x50\x60";
    let whole = b"YUV4MPEG2 W2 H2 F25:1 Ip C422\nFRAME\n\x10\x20\x30\x40\x50\x50\x60\x60";
    let fields =
        b"YUV4MPEG2 W1 H2 F9534:243 Ib C444p12\nFRAME\n\x1f\x07\xfb\x08\xc7\x08\xeb\x04\x0f\x0b\xa1\x0d";
    let cases: [(&[u8], &[u8]); 3] = [(&grey, &grey), (shared, whole), (fields, fields)];
    for (input, want) in cases {
        let (sink, end) = copied(&rt, rt.alloc(), input, u64::MAX);
        assert_eq!(rt; end, Ok(()));
        assert!(rt; sink.bytes() == want, "{input:?}");
    }
}

#[test]
fn a_sink_that_fails_is_told(rt: HostRuntime) {
    let grey = grey(&rt, rt.alloc());
    for (call, length) in [(0, 0), (1, 35)] {
        let (sink, end) = copied(&rt, rt.alloc(), &grey, call);
        assert_eq!(rt; end, Err(WriteEnd::Failed), "{call}");
        assert_eq!(rt; sink.bytes().len(), length, "{call}");
        assert!(rt; grey.starts_with(sink.bytes()), "{call}");
    }
}
