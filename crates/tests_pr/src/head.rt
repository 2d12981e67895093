ghost use Rattle.std.specs.Prelude.{◌≡◌, ◌≤◌, Some};
ghost use Rattle.pr_head.specs.Header.{HasLayoutSize};

use pr_geom::Layout;
use pr_head::{
    FrameFault, FrameHeader, FrameKind, PictureHeader, SliceHeader, own_header, read_frame_header,
    read_picture_header, read_slice_header, read_slice_sizes, write_frame_header,
    write_picture_header, write_slice_header,
};
use pr_quant::{Matrix, Weights};
use pw_outside::{MemSink, MemSource, put};
use pw_planes::{AlphaKind, Chroma, Interlace};
use std::alloc::Global;
use std::process::Abort;

// the fields in front of the matrices of a grey frame of 16 by 16
const START: [u8; 28] =
    *b"\x00\x00\x00\xb2icpf\x00\x94\x00\x00pwk0\x00\x10\x00\x10\x80\x00\x02\x02\x02\x00\x00\x03";

// its picture: header, table and one slice
const PICTURE: [u8; 22] =
    *b"\x40\x00\x00\x00\x16\x00\x01\x30\x00\x0c\x30\x01\x00\x02\x00\x02\x82\x30\x82\x00\x82\x00";

// the frame of 178 bytes, with one byte changed
fn frame(at: usize, to: u8) -> [u8; 178] {
    let mut bytes = [4u8; 178];
    bytes[..28].copy_from_slice(&START);
    bytes[156..].copy_from_slice(&PICTURE);
    if at < 178 {
        bytes[at] = to;
    }
    bytes
}

fn source(rt: &impl Abort, alloc: Global, bytes: &[u8], fail: u64) -> MemSource
    ensures { result.left ≡ bytes.now }
{
    let bytes = Vec::from_slice(alloc, bytes).expect(rt, "memory");
    let fails = Vec::from_array(alloc, [fail]).expect(rt, "memory");
    MemSource::new(bytes, 7, fails)
}

// the header of a sample, all of whose bytes are there
fn opened(
    rt: &impl Abort,
    alloc: Global,
    sample: &[u8],
    fail: u64,
) -> Result<(FrameHeader, u32, u32), FrameFault> {
    assert!(rt; sample.len() <= 200);
    let mut source = source(rt, alloc, sample, fail);
    read_frame_header(&mut source, sample.len() as u32)
}

// the fault, as a kind and a place
fn fault<T: Drop>(answer: Result<T, FrameFault>) -> Option<(FrameKind, u64)> {
    match answer {
        Err(FrameFault::Bad { kind, place }) => Some((kind, place)),
        _ => None,
    }
}

fn grey_header() -> FrameHeader
    ensures aspect { result.aspect ≡ 0 }
    ensures rate { result.rate ≡ 0 }
{
    let weights = Weights::named(Matrix::Flat);
    own_header(
        16,
        16,
        Chroma::C422,
        Interlace::Progressive,
        AlphaKind::Absent,
        &weights,
    )
}

const GREY_SLICE: SliceHeader = SliceHeader {
    header: 6,
    index: 1,
    y: 2,
    cb: 2,
    cr: 2,
    alpha: 0,
};

#[test]
fn writes_the_grey_frame(rt: HostRuntime) {
    let fails = Vec::new(rt.alloc());
    let mut sink = MemSink::new(rt.alloc(), 178, 50, fails).expect(&rt, "memory");
    assert_eq!(rt; write_frame_header(&mut sink, &grey_header(), 178), Ok(()));
    assert_eq!(rt; write_picture_header(&mut sink, 22, 1, 3), Ok(()));
    assert_eq!(rt; put(&mut sink, &PICTURE[8..10]), Ok(()));
    assert_eq!(rt; write_slice_header(&mut sink, &GREY_SLICE, false), Ok(()));
    assert_eq!(rt; put(&mut sink, &PICTURE[16..]), Ok(()));
    assert!(rt; sink.bytes() == frame(178, 0).as_slice());
}

#[test]
fn reads_the_grey_frame_cut_to_each_length(rt: HostRuntime) {
    let mut sample = [0u8; 200];
    sample[..178].copy_from_slice(&frame(178, 0));
    for length in 0..=200 {
        let answer = opened(&rt, rt.alloc(), &sample[..length], u64::MAX);
        if length < 28 {
            assert_eq!(rt; fault(answer), Some((FrameKind::FrameShort, 0)), "{length}");
        } else if length < 178 {
            assert_eq!(rt; fault(answer), Some((FrameKind::FrameSize, 0)), "{length}");
        } else {
            match answer {
                Ok(found) => assert_eq!(rt; found, (grey_header(), 156, 178), "{length}"),
                Err(_) => assert!(rt; false, "{length}"),
            }
        }
    }
}

#[test]
fn tells_a_changed_header(rt: HostRuntime) {
    let cases = [
        (3, 179, FrameKind::FrameSize, 0),
        (3, 27, FrameKind::FrameSize, 0),
        (4, 0, FrameKind::NoIcpf, 4),
        (9, 147, FrameKind::HeaderSize, 8),
        (8, 1, FrameKind::HeaderSize, 8),
        (11, 2, FrameKind::Version, 11),
        (20, 0x40, FrameKind::Chroma, 20),
        (20, 0x8c, FrameKind::Interlace, 20),
        (25, 3, FrameKind::AlphaType, 25),
        (17, 0, FrameKind::SizeZero, 16),
        (16, 0x21, FrameKind::SizeLimit, 16),
    ];
    for (at, to, kind, place) in cases {
        let answer = opened(&rt, rt.alloc(), &frame(at, to), u64::MAX);
        assert_eq!(rt; fault(answer), Some((kind, place)), "{at} {to}");
    }
    for call in 0..8 {
        match opened(&rt, rt.alloc(), &frame(178, 0), call) {
            Err(FrameFault::Failed) => {}
            _ => assert!(rt; false, "{call}"),
        }
    }
}

fn is_flat(weights: &[u8; 64]) -> bool {
    weights.iter().all(|weight| *weight == 4)
}

#[test]
fn reads_headers_without_matrices(rt: HostRuntime) {
    // the fields of the known bytes, and either the interlace mode and the alpha or the fault
    let cases = [
        (
            *b"\x00\x00\x00\x1cicpf\x00\x14\x00\x00test\x00\x10\x00\x10\xeb\x23\x01\x02\x03\x00\x00\x00",
            None,
        ),
        (
            *b"\x00\x00\x00\x1c\x00cpf\x00\x14\x00\x02test\x00\x10\x00\x10\x80\x23\x01\x02\x03\x00\x00\x00",
            Some((FrameKind::NoIcpf, 4)),
        ),
        (
            *b"\x00\x00\x00\x1cicpf\x00\x14\x00\x00\x60\xd1\xf4\xa9\x00\x01\x00\x0b\xc4\xec\xe7\x08\xb1\x02\x00\x00",
            Some((FrameKind::OddInterlaced, 16)),
        ),
    ];
    for (sample, want) in cases {
        let answer = opened(&rt, rt.alloc(), &sample, u64::MAX);
        match answer {
            Ok((header, taken, size)) => {
                assert_eq!(rt; (taken, size), (28, 28));
                assert_eq!(rt; (header.aspect, header.rate), (2, 3));
                assert!(rt; is_flat(&header.luma) && is_flat(&header.chroma_weights));
                assert_eq!(rt; want, None);
            }
            Err(error) => assert_eq!(rt; fault::<()>(Err(error)), want),
        }
    }
}

// the same frame in 50 bytes: a header of 20 bytes that loads no matrices
fn frame_without_matrices() -> [u8; 50] {
    let mut bytes = [0u8; 50];
    bytes[..28].copy_from_slice(&START);
    bytes[28..].copy_from_slice(&PICTURE);
    bytes[3] = 50;
    bytes[9] = 20;
    bytes[27] = 0;
    bytes
}

#[test]
fn reads_the_grey_frame_without_matrices(rt: HostRuntime) {
    match opened(&rt, rt.alloc(), &frame_without_matrices(), u64::MAX) {
        Ok((header, taken, size)) => {
            assert_eq!(rt; (taken, size), (28, 50));
            assert_eq!(rt; (header.width, header.height), (16, 16));
            assert!(rt; is_flat(&header.luma) && is_flat(&header.chroma_weights));
        }
        Err(error) => panic!(rt; "{error:?}"),
    }
}

// a header of this form
fn form(rt: &impl Abort, width: u16, height: u16, interlace: Interlace) -> FrameHeader
    ensures { HasLayoutSize result }
{
    match Layout::new(width, height, 3, interlace, Chroma::C422) {
        Ok(layout) => own_header(
            layout.width,
            layout.height,
            layout.chroma,
            layout.interlace,
            AlphaKind::Absent,
            &Weights::named(Matrix::Flat),
        ),
        Err(_) => panic!(rt; "no layout"),
    }
}

#[test]
fn reads_picture_headers(rt: HostRuntime) {
    let small = form(&rt, 16, 16, Interlace::Progressive);
    let large = form(&rt, 8192, 4320, Interlace::Progressive);
    let fields = form(&rt, 8192, 4320, Interlace::TopFirst);
    let cases = [
        (
            28,
            small,
            *b"\x40\x00\x00\x00\x08\x00\x01\x30",
            Ok((8, 3, 1)),
        ),
        (
            28,
            fields,
            *b"\x40\x00\x00\x00\x08\x00\x00\xa1",
            Ok((8, 2, 17280)),
        ),
        (
            156,
            large,
            *b"\x40\x00\x00\x00\x08\x00\x00\x10",
            Err(FrameKind::TooManySlices),
        ),
        (
            156,
            small,
            *b"\x40\x00\x00\x00\x09\x00\x01\x30",
            Err(FrameKind::PictureHeader),
        ),
    ];
    for (at, header, bytes, want) in cases {
        let mut source = source(&rt, rt.alloc(), &bytes, u64::MAX);
        match read_picture_header(&mut source, at, at + 8, &header) {
            Ok((picture, layout)) => {
                assert_eq!(rt; Ok((picture.header, picture.log2, layout.slices())), want);
            }
            Err(error) => match want {
                Err(kind) => assert_eq!(rt; fault::<()>(Err(error)), Some((kind, u64::from(at)))),
                Ok(_) => assert!(rt; false),
            },
        }
    }
}

// the sizes of two slices of the picture with a header of 9 bytes at place 156
fn sizes(rt: &impl Abort, alloc: Global, size: u32, bytes: &[u8]) -> Result<Vec<u16>, FrameFault> {
    assert!(rt; 9 <= size && bytes.len() < 100 && size <= 9 + bytes.len() as u32);
    let picture = PictureHeader {
        header: 9,
        size,
        log2: 3,
    };
    let mut source = source(rt, alloc, bytes, u64::MAX);
    read_slice_sizes(alloc, &mut source, 156, &picture, 2)
}

#[test]
fn reads_the_sizes_of_slices(rt: HostRuntime) {
    let bytes = *b"\x00\x06\x00\x07\xee\xee\xee\xee\xee\xee\xee\xee\xee\xee\xee\xee\xee";
    let answer = sizes(&rt, rt.alloc(), 26, &bytes);
    match answer {
        Ok(sizes) => assert!(rt; sizes[..] == [6, 7]),
        Err(_) => assert!(rt; false),
    }
    for size in [9, 10, 12, 13, 25] {
        let answer = sizes(&rt, rt.alloc(), size, &bytes);
        assert_eq!(rt; fault(answer), Some((FrameKind::SliceTable, 165)), "{size}");
    }
}

#[test]
fn reads_slice_headers(rt: HostRuntime) {
    // the slice's size and alpha, its front, and the sizes of Cr and of alpha or the fault
    let cases = [
        (24, false, *b"\x3d\x09\x00\x01\x00\x01\x55\x55", Ok((15, 0))),
        (24, true, *b"\x95\x09\x00\x01\x00\x01\x00\x01", Ok((1, 3))),
        (
            24,
            false,
            *b"\xed\x09\x00\x01\x00\x01\x55\x55",
            Err((FrameKind::SliceHeader, 166)),
        ),
        (
            12,
            false,
            *b"\x30\xe1\x00\x02\x00\x02\x82\x30",
            Err((FrameKind::QuantIndex, 167)),
        ),
        (
            24,
            true,
            *b"\xc5\x09\x00\x01\x00\x01\x00\x01",
            Err((FrameKind::ComponentSize, 168)),
        ),
    ];
    for (size, alpha, front, want) in cases {
        let mut bytes = [0x55u8; 24];
        bytes[..8].copy_from_slice(&front);
        assert!(rt; size <= 24);
        let mut source = source(&rt, rt.alloc(), &bytes, u64::MAX);
        match read_slice_header(&mut source, 166, size, alpha) {
            Ok(slice) => assert_eq!(rt; Ok((slice.cr, slice.alpha)), want),
            Err(error) => match want {
                Err(pair) => assert_eq!(rt; fault::<()>(Err(error)), Some(pair)),
                Ok(_) => assert!(rt; false),
            },
        }
    }
}
