//! Raw planar inputs with their pictures and faults, from an implementation that was written apart from this one.

ghost use Rattle.pic_y4m.specs.HeadLine.{IsHead};

use pic_raw::{AnyReader, RawWriter};
use pic_y4m::{Head, PictureFault, PictureKind, WriteEnd};
use pw_outside::{MemSink, MemSource};
use pw_planes::{AlphaKind, Chroma, Depth, Interlace, Picture, Plane};
use std::alloc::Global;
use std::process::Abort;
use std::test::Fail;

/// How an input ended, how many pictures stand before that, and a hash of their samples.
#[derive(Clone, Copy, Debug, PartialEq, Eq)]
struct Outcome {
    fault: Option<(PictureKind, u64)>,
    pictures: u32,
    samples: u64,
}

// the hash of no samples
const NONE: u64 = 0xcbf2_9ce4_8422_2325;

const fn ends(fault: Option<(PictureKind, u64)>, pictures: u32, samples: u64) -> Outcome {
    Outcome {
        fault,
        pictures,
        samples,
    }
}

// FNV-1a of 64 bits over two bytes a sample, the low byte first
fn hashed(mut hash: u64, plane: &Plane) -> u64 {
    for sample in plane.samples() {
        for byte in [*sample & 255, *sample >> 8] {
            hash = (hash ^ u64::from(byte)).wrapping_mul(0x100_0000_01b3);
        }
    }
    hash
}

fn shown(samples: u64, picture: &Picture) -> u64 {
    let samples = hashed(samples, &picture.y);
    let samples = hashed(samples, &picture.cb);
    let samples = hashed(samples, &picture.cr);
    match &picture.alpha {
        Some(alpha) => hashed(samples, alpha),
        None => samples,
    }
}

// the form of pictures of one sample
fn form_of(chroma: Chroma, depth: Depth, alpha: AlphaKind) -> Head
    ensures { IsHead result }
{
    Head {
        width: 1,
        height: 1,
        chroma,
        depth,
        alpha,
        interlace: Interlace::Progressive,
        num: 25,
        den: 1,
    }
}

fn source_of(rt: &impl Abort, alloc: Global, bytes: &[u8], step: usize, fail: u64) -> MemSource {
    assert!(rt; 1 <= step);
    let bytes = Vec::from_slice(alloc, bytes).expect(rt, "memory");
    let fails = Vec::from_array(alloc, [fail]).expect(rt, "memory");
    MemSource::new(bytes, step, fails)
}

fn reader_of(rt: &impl Abort, source: &mut MemSource, form: Head) -> AnyReader
    requires { IsHead form }
{
    AnyReader::start(source, Some(form)).expect(rt, "a form that is said")
}

fn fault_of(rt: &impl Abort, fault: PictureFault) -> Option<(PictureKind, u64)> {
    match fault {
        PictureFault::Bad { kind, place } => Some((kind, place)),
        _ => {
            assert!(rt; false, "neither the port fails nor memory runs out");
            None
        }
    }
}

fn outcome_of(rt: &impl Abort, alloc: Global, form: Head, bytes: &[u8], step: usize) -> Outcome
    requires { IsHead form }
{
    let mut source = source_of(rt, alloc, bytes, step, u64::MAX);
    let mut reader = reader_of(rt, &mut source, form);
    let mut samples = NONE;
    for pictures in 0..10 {
        match reader.next(alloc, &mut source) {
            Ok(Some(picture)) => samples = shown(samples, &picture),
            Ok(None) => return ends(None, pictures, samples),
            Err(fault) => return ends(fault_of(rt, fault), pictures, samples),
        }
    }
    ends(None, 10, samples)
}

#[test]
fn reads_pictures_up_to_the_end_or_the_first_fault(rt: HostRuntime) {
    let plain = form_of(Chroma::C422, Depth::D8, AlphaKind::Absent);
    let eight = form_of(Chroma::C422, Depth::D8, AlphaKind::Eight);
    let ten = form_of(Chroma::C444, Depth::D10, AlphaKind::Eight);
    let twelve = form_of(Chroma::C444, Depth::D12, AlphaKind::Sixteen);
    let late = |kind, place| Some((kind, place));
    let cases: [(Head, &[u8], Outcome); 10] = [
        (plain, b"", ends(None, 0, NONE)),
        (
            plain,
            b"\x85\x00\xff\x00\x00\x00",
            ends(None, 1, 0x3581_7354_9922_cdcf),
        ),
        (
            plain,
            b"\x85\x00\xff\x00\x00\x00\x85\x00\xff\x00\x00\x00",
            ends(None, 2, 0x338c_dca6_d432_9ef5),
        ),
        (
            plain,
            b"\x85",
            ends(late(PictureKind::Truncated, 1), 0, NONE),
        ),
        (
            plain,
            b"\x85\x00\xff\x00\x00\x00\x85",
            ends(late(PictureKind::Truncated, 7), 1, 0x3581_7354_9922_cdcf),
        ),
        (
            plain,
            b"\x00\x01\xff\x00\x00\xff",
            ends(late(PictureKind::SampleRange, 0), 0, NONE),
        ),
        (
            plain,
            b"\x00\x01\xff\x00\x00",
            ends(late(PictureKind::Truncated, 5), 0, NONE),
        ),
        (
            eight,
            b"\xff\x00\x85\x00\xff\x00\x00\x01",
            ends(late(PictureKind::SampleRange, 6), 0, NONE),
        ),
        (
            ten,
            b"\xff\x03\xff\x03\x05\x02\xff\x00",
            ends(None, 1, 0xd587_bc7d_ddb4_451d),
        ),
        (
            twelve,
            b"\x00\x00\x05\x08\x00\x00\xff\xff",
            ends(None, 1, 0xf757_88df_9a6b_3706),
        ),
    ];
    for (form, bytes, want) in cases {
        for step in [1, 4096] {
            assert_eq!(rt;
                outcome_of(&rt, rt.alloc(), form, bytes, step),
                want,
                "{bytes:?}"
            );
        }
    }
}

fn first_picture(rt: &impl Abort, alloc: Global, form: Head, bytes: &[u8]) -> Picture
    requires { IsHead form }
{
    let mut source = source_of(rt, alloc, bytes, 4096, u64::MAX);
    let mut reader = reader_of(rt, &mut source, form);
    let picture = reader.next(alloc, &mut source).expect(rt, "a frame");
    picture.expect(rt, "a picture")
}

#[test]
fn what_is_written_is_what_was_read(rt: HostRuntime) -> Result<(), Fail> {
    let form = form_of(Chroma::C444, Depth::D12, AlphaKind::Sixteen);
    let input: &[u8] = b"\x00\x00\x05\x08\x00\x00\xff\xff";
    let picture = first_picture(&rt, rt.alloc(), form, input);
    for (fail, length, want) in [
        (u64::MAX, 8, Ok(())),
        (0, 0, Err(WriteEnd::Failed)),
        (3, 6, Err(WriteEnd::Failed)),
    ] {
        let fails = Vec::from_array(rt.alloc(), [fail])?;
        let mut sink = MemSink::new(rt.alloc(), 16, 4096, fails)?;
        let mut writer = RawWriter::new();
        assert_eq!(rt; writer.picture(&mut sink, &picture), want, "{fail}");
        assert_eq!(rt; sink.bytes().len(), length, "{fail}");
        assert!(rt; input.starts_with(sink.bytes()), "{fail}");
    }
    Ok(())
}

#[test]
fn without_a_form_it_is_y4m(rt: HostRuntime) {
    let input = b"YUV4MPEG2 W2 H1 C422\nFRAME\n1234";
    let mut source = source_of(&rt, rt.alloc(), input, 4096, u64::MAX);
    let mut reader = AnyReader::start(&mut source, None).expect(&rt, "a head");
    assert_eq!(rt; reader.head().width, 2);
    let picture = reader.next(rt.alloc(), &mut source).expect(&rt, "a frame");
    let picture = picture.expect(&rt, "a picture");
    assert!(rt; picture.y.samples() == [49, 50].as_slice());
    assert!(rt; matches!(reader.next(rt.alloc(), &mut source), Ok(None)));
}

#[test]
fn a_port_that_fails_is_told(rt: HostRuntime) {
    let form = form_of(Chroma::C422, Depth::D8, AlphaKind::Eight);
    for call in 0..4 {
        let mut source = source_of(
            &rt,
            rt.alloc(),
            b"\x01\x00\x02\x00\x03\x00\x04\x00",
            4096,
            call,
        );
        let mut reader = reader_of(&rt, &mut source, form);
        let failed = reader.next(rt.alloc(), &mut source);
        assert!(rt; matches!(failed, Err(PictureFault::Failed)), "{call}");
    }
}
