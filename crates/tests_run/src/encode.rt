//! Pictures in memory, encoded.

ghost use Rattle.std.specs.Prelude.{◌≤◌, ◌<◌};
ghost use Rattle.run_encode.specs.Groups.{AreWords};

use pic_y4m::{Head, PictureKind};
use pr_quant::Matrix;
use pw_outside::{MemSink, MemSource};
use pw_planes::{AlphaKind, Chroma, Depth, Interlace};
use run_encode::*;
use std::alloc::Global;
use std::process::Abort;
use std::test::Fail;

/// What a run gave: its answer, and what the three sinks hold.
#[derive(Drop)]
struct Gave {
    end: EncodeEnd,
    movie: Vec<u8>,
    proof: Vec<u8>,
    text: Vec<u8>,
}

/// Words with this budget, these indices from 1 on, so many frames in a group, and this format of the proof.
fn words(budget: u32, hi: u8, group: u8, proof: u8) -> EncodeWords
    requires budget { (1 ≤ budget) × (budget < 1000) }
    requires hi { (1 ≤ hi) × (hi ≤ 224) }
    requires group { (1 ≤ group) × (group ≤ 8) }
    requires proof { (1 ≤ proof) × (proof ≤ 2) }
    ensures { AreWords result }
{
    EncodeWords {
        budget,
        lo: 1,
        hi,
        log2: 3,
        matrix: Matrix::Flat,
        raw: None,
        group,
        proof,
    }
}

/// Appends so many samples of this value, each of two bytes, the low one first.
fn put_samples(bytes: &mut Vec<u8>, count: u32, sample: u16) -> Result<(), Fail> {
    for _ in 0..count {
        bytes.extend_from_slice(&sample.to_le_bytes())?;
    }
    Ok(())
}

/// Pictures of 16 by 16 in 4:2:2 of 10 bits, each of this luma and of grey chroma.
fn greys(alloc: Global, lumas: &[u16]) -> Result<Vec<u8>, Fail> {
    let mut bytes = Vec::new(alloc);
    bytes.extend_from_slice(b"YUV4MPEG2 W16 H16 F25:1 Ip C422p10\n")?;
    for luma in lumas {
        bytes.extend_from_slice(b"FRAME\n")?;
        put_samples(&mut bytes, 256, *luma)?;
        put_samples(&mut bytes, 256, 512)?;
    }
    Ok(bytes)
}

/// Whether these bytes stand at this place.
fn stands_at(bytes: &[u8], place: usize, piece: &[u8]) -> bool {
    place <= bytes.len() && bytes[place..].starts_with(piece)
}

/// What a run over these bytes gives, where the calls with these numbers of the source and of the movie's sink fail.
fn given(
    alloc: Global,
    words: &EncodeWords,
    bytes: &[u8],
    reading: &[u64],
    writing: &[u64],
) -> Result<Gave, Fail>
    requires { AreWords words.now }
{
    let mut pictures = MemSource::new(bytes.to_vec(alloc)?, 600, reading.to_vec(alloc)?);
    let mut out = MemSink::new(alloc, 4096, 100, writing.to_vec(alloc)?)?;
    let mut cert = MemSink::new(alloc, 4096, 4096, Vec::new(alloc))?;
    let mut text = MemSink::new(alloc, 4096, 4096, Vec::new(alloc))?;
    let end = encode_run(alloc, words, &mut pictures, &mut out, &mut cert, &mut text);
    Ok(Gave {
        end,
        movie: out.bytes().to_vec(alloc)?,
        proof: cert.bytes().to_vec(alloc)?,
        text: text.bytes().to_vec(alloc)?,
    })
}

/// A run over these bytes gives this answer and this text, and a movie and a proof of these lengths.
fn gives(
    rt: &impl Abort,
    alloc: Global,
    words: &EncodeWords,
    bytes: &[u8],
    end: EncodeEnd,
    text: &str,
    lengths: (usize, usize),
) -> Result<Gave, Fail>
    requires { AreWords words.now }
{
    let gave = given(alloc, words, bytes, &[], &[])?;
    assert_eq!(rt; gave.end, end, "{text}");
    assert!(rt; gave.text.as_slice() == text.as_bytes(), "{text}");
    assert_eq!(rt; gave.movie.len(), lengths.0, "{text}");
    assert_eq!(rt; gave.proof.len(), lengths.1, "{text}");
    Ok(gave)
}

#[test]
fn one_frame_alone(rt: HostRuntime) -> Result<(), Fail> {
    let alloc = rt.alloc();
    let grey = greys(alloc, &[512])?;
    let lines = "frame 0 size 178 error 0\nframes 1\n";
    let done = EncodeEnd::Done;
    let gave = gives(
        &rt,
        alloc,
        &words(178, 3, 1, 2),
        &grey,
        done,
        lines,
        (798, 237),
    )?;
    let slice = b"\x30\x01\x00\x02\x00\x02\x82\x30\x82\x00\x82\x00";
    assert!(rt; stands_at(&gave.movie, 194, slice));
    gives(
        &rt,
        alloc,
        &words(178, 3, 1, 1),
        &grey,
        done,
        lines,
        (798, 263),
    )?;
    let small = EncodeEnd::TooSmall {
        frame: 0,
        least: 178,
    };
    gives(
        &rt,
        alloc,
        &words(177, 3, 1, 2),
        &grey,
        small,
        "",
        (20, 218),
    )?;
    let none = greys(alloc, &[])?;
    gives(
        &rt,
        alloc,
        &words(178, 3, 1, 2),
        &none,
        done,
        "frames 0\n",
        (584, 162),
    )?;
    Ok(())
}

#[test]
fn two_frames_under_one_budget(rt: HostRuntime) -> Result<(), Fail> {
    let alloc = rt.alloc();
    let two = greys(alloc, &[512, 1023])?;
    let lines = "frame 0 size 178 error 0\nframe 1 size 179 error 100\nframes 2\n";
    let alone = given(alloc, &words(179, 3, 1, 2), &two, &[], &[])?;
    assert_eq!(rt; alone.end, EncodeEnd::Done);
    assert!(rt; alone.text.as_slice() == lines.as_bytes());
    let lines = "frame 0 size 178 error 0\nframe 1 size 180 error 4\nframes 2\n";
    for (proof, length) in [(2, 275), (1, 314)] {
        let together = given(alloc, &words(179, 3, 2, proof), &two, &[], &[])?;
        assert_eq!(rt; together.end, EncodeEnd::Done);
        assert!(rt; together.text.as_slice() == lines.as_bytes());
        assert_eq!(rt; together.proof.len(), length);
        assert!(rt; stands_at(&together.proof, 5, b"\x02"));
    }
    let small = EncodeEnd::TooSmall {
        frame: 0,
        least: 357,
    };
    let gave = given(alloc, &words(178, 3, 2, 2), &two, &[], &[])?;
    assert_eq!(rt; gave.end, small);
    assert_eq!(rt; gave.movie.len(), 20);
    Ok(())
}

/// A picture of two fields, of another luma each, and of grey chroma; the bottom field is the first.
fn fields(alloc: Global) -> Result<Vec<u8>, Fail> {
    let mut bytes = Vec::new(alloc);
    bytes.extend_from_slice(b"YUV4MPEG2 W16 H32 F25:1 Ib C422p10\nFRAME\n")?;
    for _ in 0..16u8 {
        put_samples(&mut bytes, 16, 400)?;
        put_samples(&mut bytes, 16, 600)?;
    }
    put_samples(&mut bytes, 512, 512)?;
    Ok(bytes)
}

#[test]
fn both_fields_of_a_frame(rt: HostRuntime) -> Result<(), Fail> {
    let alloc = rt.alloc();
    let bytes = fields(alloc)?;
    let gave = given(alloc, &words(202, 1, 1, 2), &bytes, &[], &[])?;
    assert_eq!(rt; gave.end, EncodeEnd::Done);
    assert!(rt; gave.text.as_slice() == b"frame 0 size 202 error 0\nframes 1\n".as_slice());
    assert!(rt; stands_at(&gave.movie, 48, b"\x88"));
    let first = b"\x40\0\0\0\x17\0\x01\x30\0\x0d\x30\x01\0\x03\0\x02\x05\xa0\x8c\x82\0\x82\0";
    assert!(rt; stands_at(&gave.movie, 184, first));
    let gave = given(alloc, &words(202, 31, 1, 2), &bytes, &[], &[])?;
    assert!(rt; gave.text.as_slice() == b"frame 0 size 200 error 0\nframes 1\n".as_slice());
    Ok(())
}

/// Words for raw pictures of 16 by 16 in 4:4:4 of 10 bits, with alpha of 8.
fn raw_words(budget: u32) -> EncodeWords
    requires { (1 ≤ budget) × (budget < 1000) }
    ensures { AreWords result }
{
    EncodeWords {
        budget,
        lo: 1,
        hi: 1,
        log2: 3,
        matrix: Matrix::Flat,
        raw: Some(Head {
            width: 16,
            height: 16,
            chroma: Chroma::C444,
            depth: Depth::D10,
            alpha: AlphaKind::Eight,
            interlace: Interlace::Progressive,
            num: 25,
            den: 1,
        }),
        group: 1,
        proof: 2,
    }
}

#[test]
fn raw_pictures_with_alpha(rt: HostRuntime) -> Result<(), Fail> {
    let alloc = rt.alloc();
    let mut bytes = Vec::new(alloc);
    put_samples(&mut bytes, 768, 512)?;
    put_samples(&mut bytes, 256, 255)?;
    let gave = given(alloc, &raw_words(184), &bytes, &[], &[])?;
    assert_eq!(rt; gave.end, EncodeEnd::Done);
    assert!(rt; gave.text.as_slice() == b"frame 0 size 184 error 0\nframes 1\n".as_slice());
    let slice = b"\x40\x01\0\x02\0\x02\0\x02\x82\x30\x82\x30\x82\x30\x80\0\x7f\x80";
    assert!(rt; stands_at(&gave.movie, 194, slice));
    assert!(rt; stands_at(&gave.proof, 5, b"\x01"));
    Ok(())
}

#[test]
fn faults_of_ports_and_of_pictures(rt: HostRuntime) -> Result<(), Fail> {
    let alloc = rt.alloc();
    let grey = greys(alloc, &[512])?;
    let words = words(178, 3, 1, 2);
    let whole = given(alloc, &words, &grey, &[], &[])?;
    // The movie's sink is called 20 times in all, its flush included.
    for call in 0..20u8 {
        let gave = given(alloc, &words, &grey, &[], &[u64::from(call)])?;
        assert_eq!(rt; gave.end, EncodeEnd::WriteFault, "call {call}");
        assert!(rt;
            whole.movie.as_slice().starts_with(&gave.movie),
            "call {call}"
        );
    }
    let gave = given(alloc, &words, &grey, &[], &[20])?;
    assert_eq!(rt; gave.end, EncodeEnd::Done);
    let gave = given(alloc, &words, &grey, &[1], &[])?;
    assert_eq!(rt; gave.end, EncodeEnd::ReadFault);
    let mut short = greys(alloc, &[512])?;
    short.truncate(1064);
    let cut = EncodeEnd::BadPictures {
        kind: PictureKind::Truncated,
        place: 1064,
    };
    let gave = given(alloc, &words, &short, &[], &[])?;
    assert_eq!(rt; gave.end, cut);
    assert_eq!(rt; gave.movie.len(), 20);
    Ok(())
}
