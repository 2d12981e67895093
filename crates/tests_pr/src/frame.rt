//! Frames read from memory.

ghost use Rattle.std.specs.Prelude.{IfOk};
ghost use Rattle.pr_frame.specs.Coded.{IsCodedFrame};

use pr_frame::{CodedFrame, Shown, read_frame, read_shown, show};
use pr_head::{FrameFault, FrameKind};
use pw_outside::MemSource;
use pw_planes::{AlphaKind, Chroma, Depth, Interlace};
use std::alloc::Global;
use std::process::Abort;

// the fields in front of the matrices of a grey frame of 16 by 16
const START: [u8; 28] =
    *b"\x00\x00\x00\xb2icpf\x00\x94\x00\x00pwk0\x00\x10\x00\x10\x80\x00\x02\x02\x02\x00\x00\x03";

// its picture: header, table and one slice
const PICTURE: [u8; 22] =
    *b"\x40\x00\x00\x00\x16\x00\x01\x30\x00\x0c\x30\x01\x00\x02\x00\x02\x82\x30\x82\x00\x82\x00";

// the picture of a field of 16 by 16, whose luma is the same everywhere
const FIELD: [u8; 23] =
    *b"\x40\x00\x00\x00\x17\x00\x01\x30\x00\x0d\x30\x01\x00\x03\x00\x02\x05\xa0\x8c\x82\x00\x82\x00";

// the frame of 178 bytes, with some bytes written over, cut to a length, and bytes behind it
fn frame(
    rt: &impl Abort,
    alloc: Global,
    changes: &[(usize, u8)],
    kept: usize,
    more: usize,
) -> Vec<u8> {
    let mut bytes = Vec::from_elem(alloc, 4, 178).expect(rt, "memory");
    for (at, byte) in START.iter().enumerate() {
        bytes[at] = *byte;
    }
    for (at, byte) in PICTURE.iter().enumerate() {
        bytes[156 + at] = *byte;
    }
    for (at, byte) in changes {
        if *at < 178 {
            bytes[*at] = *byte;
        }
    }
    bytes.truncate(kept);
    for _ in 0..more {
        bytes.push(0).expect(rt, "memory");
    }
    bytes
}

fn read(rt: &impl Abort, alloc: Global, bytes: Vec<u8>, fail: u64) -> Result<CodedFrame, FrameFault>
    ensures { IfOk result IsCodedFrame }
{
    let size = bytes.len();
    assert!(rt; size <= 1000);
    let fails = Vec::from_array(alloc, [fail]).expect(rt, "memory");
    let mut source = MemSource::new(bytes, 7, fails);
    read_frame(alloc, &mut source, size as u32)
}

// the fault, as a kind and a place
fn fault(answer: Result<CodedFrame, FrameFault>) -> Option<(FrameKind, u64)> {
    match answer {
        Err(FrameFault::Bad { kind, place }) => Some((kind, place)),
        _ => None,
    }
}

#[test]
fn a_grey_frame_is_read(rt: HostRuntime) {
    let bytes = frame(&rt, rt.alloc(), &[], 178, 0);
    let coded = match read(&rt, rt.alloc(), bytes, 1000) {
        Ok(coded) => coded,
        Err(_) => panic!(rt; "a fault"),
    };
    let header = coded.header;
    assert_eq!(rt; (header.version, header.width, header.height), (0, 16, 16));
    assert_eq!(rt; header.encoder, *b"pwk0");
    assert_eq!(rt;
        (header.chroma, header.interlace, header.alpha),
        (Chroma::C422, Interlace::Progressive, AlphaKind::Absent)
    );
    assert_eq!(rt;
        (header.primaries, header.transfer, header.matrix),
        (2, 2, 2)
    );
    assert_eq!(rt; header.luma, [4; 64]);
    assert_eq!(rt; header.chroma_weights, [4; 64]);
    let pictures = coded.pictures.into_vec();
    assert_eq!(rt; pictures.len(), 1);
    for picture in pictures {
        assert_eq!(rt; picture.log2, 3);
        let slices = picture.slices.into_vec();
        assert_eq!(rt; slices.len(), 1);
        for slice in slices {
            assert_eq!(rt; slice.index, 1);
            assert_eq!(rt; slice.y.as_slice(), [[0; 64]; 4].as_slice());
            assert_eq!(rt; slice.cb.as_slice(), [[0; 64]; 2].as_slice());
            assert_eq!(rt; slice.cr.as_slice(), [[0; 64]; 2].as_slice());
            assert_eq!(rt; slice.alpha.as_slice().len(), 0);
        }
    }
}

#[test]
fn faults_have_their_places(rt: HostRuntime) {
    // the changes, how many bytes are kept, how many stand behind, and the fault
    let cases: [(&[(usize, u8)], usize, usize, Option<(FrameKind, u64)>); 31] = [
        (&[], 178, 0, None),
        (&[], 178, 22, None),
        (&[(3, 179)], 178, 0, Some((FrameKind::FrameSize, 0))),
        (&[(167, 0)], 178, 0, Some((FrameKind::QuantIndex, 167))),
        (&[(167, 225)], 178, 0, Some((FrameKind::QuantIndex, 167))),
        (&[(167, 224)], 178, 0, None),
        (&[(169, 200)], 178, 0, Some((FrameKind::ComponentSize, 168))),
        (&[(20, 0x8c)], 178, 0, Some((FrameKind::Interlace, 20))),
        (&[], 27, 0, Some((FrameKind::FrameShort, 0))),
        (&[], 177, 0, Some((FrameKind::FrameSize, 0))),
        // alpha, whose slices have a longer header, and what comes before it
        (&[(25, 1)], 178, 0, Some((FrameKind::SliceHeader, 166))),
        (&[(25, 2)], 178, 0, Some((FrameKind::SliceHeader, 166))),
        (
            &[(20, 0x84), (19, 17)],
            178,
            0,
            Some((FrameKind::OddInterlaced, 16)),
        ),
        (
            &[(25, 1), (156, 0)],
            178,
            0,
            Some((FrameKind::PictureHeader, 156)),
        ),
        (
            &[(20, 0xc0), (16, 0x21)],
            178,
            0,
            Some((FrameKind::SizeLimit, 16)),
        ),
        // the header
        (&[(7, 0)], 178, 0, Some((FrameKind::NoIcpf, 4))),
        (&[(9, 0x14)], 178, 0, Some((FrameKind::HeaderSize, 8))),
        (&[(9, 0xff)], 178, 0, Some((FrameKind::HeaderSize, 8))),
        (&[(11, 2)], 178, 0, Some((FrameKind::Version, 11))),
        (&[(10, 255)], 178, 0, None),
        (&[(17, 0)], 178, 0, Some((FrameKind::SizeZero, 16))),
        (&[(17, 1)], 178, 0, None),
        // the picture, its table and its slices
        (&[(156, 0)], 178, 0, Some((FrameKind::PictureHeader, 156))),
        (&[(160, 23)], 178, 0, Some((FrameKind::PictureHeader, 156))),
        (&[(165, 13)], 178, 0, Some((FrameKind::SliceTable, 164))),
        (&[(166, 0)], 178, 0, Some((FrameKind::SliceHeader, 166))),
        (&[(165, 5)], 178, 0, Some((FrameKind::SliceHeader, 166))),
        // the components, each at its first byte
        (
            &[(172, 0), (173, 0)],
            178,
            0,
            Some((FrameKind::Codeword, 172)),
        ),
        (
            &[(174, 0), (175, 0)],
            178,
            0,
            Some((FrameKind::Codeword, 174)),
        ),
        (
            &[(176, 0), (177, 0)],
            178,
            0,
            Some((FrameKind::Codeword, 176)),
        ),
        (&[(17, 33)], 178, 0, Some((FrameKind::SliceTable, 164))),
    ];
    for (changes, kept, more, wanted) in cases {
        let bytes = frame(&rt, rt.alloc(), changes, kept, more);
        assert_eq!(rt; fault(read(&rt, rt.alloc(), bytes, 1000)), wanted, "{kept}");
    }
}

// the frame cut to each length, and the same with its size set to that length
#[test]
fn cut_frames_are_refused(rt: HostRuntime) {
    for kept in 0..178 {
        let bytes = frame(&rt, rt.alloc(), &[], kept, 0);
        let wanted = if kept < 28 {
            FrameKind::FrameShort
        } else {
            FrameKind::FrameSize
        };
        assert_eq!(rt;
            fault(read(&rt, rt.alloc(), bytes, 1000)),
            Some((wanted, 0)),
            "{kept}"
        );
        if 28 <= kept {
            let bytes = frame(&rt, rt.alloc(), &[(3, kept as u8)], kept, 0);
            let wanted = if kept < 156 {
                (FrameKind::HeaderSize, 8)
            } else {
                (FrameKind::PictureHeader, 156)
            };
            assert_eq!(rt;
                fault(read(&rt, rt.alloc(), bytes, 1000)),
                Some(wanted),
                "{kept}"
            );
        }
    }
}

#[test]
fn failed_calls_are_answered(rt: HostRuntime) {
    for fail in 0..12 {
        let bytes = frame(&rt, rt.alloc(), &[], 178, 0);
        let failed = match read(&rt, rt.alloc(), bytes, fail) {
            Err(FrameFault::Failed) => true,
            _ => false,
        };
        assert!(rt; failed, "{fail}");
    }
}

// a frame of 16 by 32 whose bottom field comes first
fn fields(rt: &impl Abort, alloc: Global) -> Vec<u8> {
    let mut bytes = Vec::from_elem(alloc, 4, 202).expect(rt, "memory");
    for (at, byte) in START.iter().enumerate() {
        bytes[at] = *byte;
    }
    bytes[3] = 0xca;
    bytes[19] = 32;
    bytes[20] = 0x88;
    for (at, byte) in FIELD.iter().enumerate() {
        bytes[156 + at] = *byte;
        bytes[179 + at] = *byte;
    }
    // the luma of the second field
    bytes[195] = 0x07;
    bytes[196] = 0x1f;
    bytes[197] = 0x8c;
    bytes
}

fn shown(rt: &impl Abort, alloc: Global, bytes: Vec<u8>, depth: Depth) -> Shown {
    let size = bytes.len();
    assert!(rt; size <= 1000);
    let mut source = MemSource::new(bytes, 7, Vec::new(alloc));
    match read_shown(alloc, &mut source, size as u32, depth) {
        Ok(shown) => shown,
        Err(_) => panic!(rt; "a fault"),
    }
}

#[test]
fn fields_are_woven(rt: HostRuntime) {
    let bytes = fields(&rt, rt.alloc());
    let shown = shown(&rt, rt.alloc(), bytes, Depth::D10);
    assert_eq!(rt; (shown.least_index, shown.greatest_index), (1, 1));
    assert_eq!(rt;
        (shown.picture.y.width(), shown.picture.y.height()),
        (16, 32)
    );
    for row in 0..32 {
        let wanted = if row % 2 == 0 { 400 } else { 600 };
        for column in 0..16 {
            assert_eq!(rt; shown.picture.y.sample(column, row), wanted, "{row}");
        }
    }
    assert!(rt;
        shown
            .picture
            .cb
            .samples()
            .iter()
            .all(|sample| *sample == 512)
    );
    assert!(rt;
        shown
            .picture
            .cr
            .samples()
            .iter()
            .all(|sample| *sample == 512)
    );
    assert!(rt; shown.picture.alpha.is_none());
}

#[test]
fn a_grey_frame_is_shown(rt: HostRuntime) {
    for (depth, wanted) in [(Depth::D8, 128), (Depth::D10, 512), (Depth::D12, 2048)] {
        let bytes = frame(&rt, rt.alloc(), &[], 178, 0);
        let coded = match read(&rt, rt.alloc(), bytes, 1000) {
            Ok(coded) => coded,
            Err(_) => panic!(rt; "a fault"),
        };
        let picture = show(rt.alloc(), &coded, depth).expect(&rt, "memory");
        assert_eq!(rt; picture.y.samples().len(), 256);
        assert!(rt; picture.y.samples().iter().all(|sample| *sample == wanted));
        assert!(rt; picture.cb.samples().iter().all(|sample| *sample == wanted));
    }
}
