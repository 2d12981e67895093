//! A movie that is written and read again, and ports whose calls fail. Worked movies, those of an independent reference and
//! changes of them are read by `run_cases`.

ghost use Rattle.std.specs.Prelude.{IfOk};
ghost use Rattle.qt_movie.specs.Trak.{IsTrak};

use pic_y4m::{Head, WriteEnd};
use pw_outside::{MemSink, MemStore, fill, put};
use pw_planes::{AlphaKind, Chroma, Depth, Interlace};
use qt_atoms::AtomWriter;
use qt_movie::{Media, MovieFault, MovieReader, MovieWriter, Sample, Track, Trak, write_trak};
use std::test::Fail;

const HEAD: Head = Head {
    width: 16,
    height: 32,
    chroma: Chroma::C422,
    depth: Depth::D10,
    alpha: AlphaKind::Absent,
    interlace: Interlace::Progressive,
    num: 25,
    den: 2,
};

// a movie of two frames
fn movie_of(rt: &HostRuntime) -> Result<Vec<u8>, Fail> {
    let alloc = rt.alloc();
    let mut sink = MemSink::new(alloc, 0, 7, Vec::new(alloc))?;
    let mut writer = MovieWriter::begin(alloc, &mut sink, &HEAD)?;
    writer.reserve(2)?;
    writer.frame_head(&mut sink, 3)?;
    put(&mut sink, b"abc")?;
    writer.frame_head(&mut sink, 5)?;
    put(&mut sink, b"defgh")?;
    writer.finish(alloc, &mut sink)?;
    Ok(sink.bytes().to_vec(alloc)?)
}

#[test]
fn a_written_movie_is_read(rt: HostRuntime) -> Result<(), Fail> {
    let mut store = MemStore::new(movie_of(&rt)?, 4096, Vec::new(rt.alloc()));
    let reader = MovieReader::start(rt.alloc(), &mut store)?;
    let track = Track {
        number: 1,
        timescale: 25,
        kind: *b"apch",
        width: 16,
        height: 32,
        samples: 2,
    };
    assert_eq!(rt; reader.track(), track);
    if 1 < reader.track().samples {
        let sample = Sample {
            at: 39,
            size: 5,
            duration: 2,
            description: 1,
        };
        assert_eq!(rt; reader.sample(1), sample);
        assert_eq!(rt; reader.place(&mut store, 1), Ok((39, 44)));
        let mut bytes = [0u8; 8];
        let mut span = reader.span(&mut store, 1)?;
        assert_eq!(rt; fill(&mut span, &mut bytes), Ok(5));
        assert!(rt; bytes.starts_with(b"defgh"));
    }
    Ok(())
}

#[test]
fn each_fault_of_the_store_is_told(rt: HostRuntime) -> Result<(), Fail> {
    let mut failed: u64 = 0;
    for call in 0..200 {
        let fails = Vec::from_array(rt.alloc(), [call])?;
        let mut store = MemStore::new(movie_of(&rt)?, 4096, fails);
        if let Err(fault) = MovieReader::start(rt.alloc(), &mut store) {
            assert_eq!(rt; fault, MovieFault::Failed, "call {call}");
            assert_eq!(rt; failed, call, "call {call}");
            failed = call.saturating_add(1);
        }
    }
    assert!(rt; 20 < failed && failed < 200);
    Ok(())
}

#[test]
fn each_fault_of_the_sink_is_told(rt: HostRuntime) -> Result<(), Fail> {
    for call in 0..3 {
        let mut sink = MemSink::new(rt.alloc(), 0, 4096, Vec::from_array(rt.alloc(), [call])?)?;
        let mut steps: u64 = 0;
        if let Ok(mut writer) = MovieWriter::begin(rt.alloc(), &mut sink, &HEAD) {
            steps = 1;
            writer.reserve(1)?;
            if writer.frame_head(&mut sink, 0).is_ok() {
                steps = 2;
                assert_eq!(rt; writer.frames(), 1);
                assert_eq!(rt; writer.finish(rt.alloc(), &mut sink), Err(WriteEnd::Failed));
            }
        }
        assert_eq!(rt; steps, call);
    }
    Ok(())
}

/// The matrix that leaves pictures as they are.
const MATRIX: [u8; 36] =
    *b"\x00\x01\x00\x00\x00\x00\x00\x00\x00\x00\x00\x00\x00\x00\x00\x00\x00\x01\x00\x00\x00\x00\x00\x00\x00\x00\x00\x00\x00\x00\x00\x00\x40\x00\x00\x00";

// a track of two pictures, one of them behind the first 4 GiB
fn pictures_of(rt: &HostRuntime) -> Result<Trak, Fail>
    ensures { IfOk result IsTrak }
{
    let alloc = rt.alloc();
    Ok(Trak {
        number: 1,
        movie_duration: 5,
        timescale: 25,
        duration: 7,
        media: Media::Video {
            kind: *b"apcn",
            width: 16,
            height: 32,
            depth: 24,
        },
        stts: Vec::from_array(alloc, [(1, 3), (1, 4)])?,
        stsc: Vec::from_array(alloc, [(1, 1, 1)])?,
        common: 0,
        count: 2,
        sizes: Vec::from_array(alloc, [3, 5])?,
        offsets: Vec::from_array(alloc, [28, 1 << 32])?,
    })
}

// a track of six frames of sound in two chunks
fn sound_of(rt: &HostRuntime) -> Result<Trak, Fail>
    ensures { IfOk result IsTrak }
{
    let alloc = rt.alloc();
    Ok(Trak {
        number: 2,
        movie_duration: 2,
        timescale: 48000,
        duration: 6,
        media: Media::Sound {
            channels: 2,
            rate: 48000,
        },
        stts: Vec::from_array(alloc, [(6, 1)])?,
        stsc: Vec::from_array(alloc, [(1, 4, 1), (2, 2, 1)])?,
        common: 4,
        count: 6,
        sizes: Vec::new(alloc),
        offsets: Vec::from_array(alloc, [300, 400])?,
    })
}

// the bytes of a track, worked out by hand
const PICTURES: [&[u8]; 32] = [
    b"\x00\x00\x01\xf4trak",
    b"\x00\x00\x00\x5ctkhd\x00\x00\x00\x0f\x00\x00\x00\x00\x00\x00\x00\x00\x00\x00\x00",
    b"\x01\x00\x00\x00\x00\x00\x00\x00\x05\x00\x00\x00\x00\x00\x00\x00\x00\x00\x00\x00",
    b"\x00\x00\x00\x00\x00",
    &MATRIX,
    b"\x00\x10\x00\x00\x00\x20\x00\x00",
    b"\x00\x00\x01\x90mdia",
    b"\x00\x00\x00\x20mdhd\x00\x00\x00\x00\x00\x00\x00\x00\x00\x00\x00\x00\x00\x00\x00",
    b"\x19\x00\x00\x00\x07\x00\x00\x00\x00",
    b"\x00\x00\x00\x21hdlr\x00\x00\x00\x00mhlrvide\x00\x00\x00\x00\x00\x00\x00\x00\x00",
    b"\x00\x00\x00\x00",
    b"\x00\x00\x01\x47minf",
    b"\x00\x00\x00\x14vmhd\x00\x00\x00\x01\x00\x00\x00\x00\x00\x00\x00\x00",
    b"\x00\x00\x00\x21hdlr\x00\x00\x00\x00dhlralis\x00\x00\x00\x00\x00\x00\x00\x00\x00",
    b"\x00\x00\x00\x00",
    b"\x00\x00\x00\x24dinf",
    b"\x00\x00\x00\x1cdref\x00\x00\x00\x00\x00\x00\x00\x01\x00\x00\x00\x0calis\x00\x00",
    b"\x00\x01",
    b"\x00\x00\x00\xe6stbl",
    b"\x00\x00\x00fstsd\x00\x00\x00\x00\x00\x00\x00\x01\x00\x00\x00\x56apcn\x00\x00\x00",
    b"\x00\x00\x00\x00\x01\x00\x00\x00\x00pwk\x30\x00\x00\x00\x00\x00\x00\x00\x00\x00",
    b"\x10\x00\x20\x00\x48\x00\x00\x00\x48\x00\x00\x00\x00\x00\x00\x00\x01\x00\x00\x00",
    b"\x00\x00\x00\x00\x00\x00\x00\x00\x00\x00\x00\x00\x00\x00\x00\x00\x00\x00\x00\x00",
    b"\x00\x00\x00\x00\x00\x00\x00\x00\x00\x00\x18\xff\xff",
    b"\x00\x00\x00\x20stts\x00\x00\x00\x00\x00\x00\x00\x02\x00\x00\x00\x01\x00\x00\x00",
    b"\x03\x00\x00\x00\x01\x00\x00\x00\x04",
    b"\x00\x00\x00\x1cstsc\x00\x00\x00\x00\x00\x00\x00\x01\x00\x00\x00\x01\x00\x00\x00",
    b"\x01\x00\x00\x00\x01",
    b"\x00\x00\x00\x1cstsz\x00\x00\x00\x00\x00\x00\x00\x00\x00\x00\x00\x02\x00\x00\x00",
    b"\x03\x00\x00\x00\x05",
    b"\x00\x00\x00\x20co\x36\x34\x00\x00\x00\x00\x00\x00\x00\x02\x00\x00\x00\x00\x00\x00",
    b"\x00\x1c\x00\x00\x00\x01\x00\x00\x00\x00",
];

const SOUND: [&[u8]; 29] = [
    b"\x00\x00\x01\xb2trak",
    b"\x00\x00\x00\x5ctkhd\x00\x00\x00\x0f\x00\x00\x00\x00\x00\x00\x00\x00\x00\x00\x00",
    b"\x02\x00\x00\x00\x00\x00\x00\x00\x02\x00\x00\x00\x00\x00\x00\x00\x00\x00\x00\x00",
    b"\x00\x01\x00\x00\x00",
    &MATRIX,
    b"\x00\x00\x00\x00\x00\x00\x00\x00",
    b"\x00\x00\x01\x4emdia",
    b"\x00\x00\x00\x20mdhd\x00\x00\x00\x00\x00\x00\x00\x00\x00\x00\x00\x00\x00\x00\xbb",
    b"\x80\x00\x00\x00\x06\x00\x00\x00\x00",
    b"\x00\x00\x00\x21hdlr\x00\x00\x00\x00mhlrsoun\x00\x00\x00\x00\x00\x00\x00\x00\x00",
    b"\x00\x00\x00\x00",
    b"\x00\x00\x01\x05minf",
    b"\x00\x00\x00\x10smhd\x00\x00\x00\x00\x00\x00\x00\x00",
    b"\x00\x00\x00\x21hdlr\x00\x00\x00\x00dhlralis\x00\x00\x00\x00\x00\x00\x00\x00\x00",
    b"\x00\x00\x00\x00",
    b"\x00\x00\x00\x24dinf",
    b"\x00\x00\x00\x1cdref\x00\x00\x00\x00\x00\x00\x00\x01\x00\x00\x00\x0calis\x00\x00",
    b"\x00\x01",
    b"\x00\x00\x00\xa8stbl",
    b"\x00\x00\x00\x34stsd\x00\x00\x00\x00\x00\x00\x00\x01\x00\x00\x00\x24sowt\x00\x00",
    b"\x00\x00\x00\x00\x00\x01\x00\x00\x00\x00\x00\x00\x00\x00\x00\x02\x00\x10\x00\x00",
    b"\x00\x00\xbb\x80\x00\x00",
    b"\x00\x00\x00\x18stts\x00\x00\x00\x00\x00\x00\x00\x01\x00\x00\x00\x06\x00\x00\x00",
    b"\x01",
    b"\x00\x00\x00\x28stsc\x00\x00\x00\x00\x00\x00\x00\x02\x00\x00\x00\x01\x00\x00\x00",
    b"\x04\x00\x00\x00\x01\x00\x00\x00\x02\x00\x00\x00\x02\x00\x00\x00\x01",
    b"\x00\x00\x00\x14stsz\x00\x00\x00\x00\x00\x00\x00\x04\x00\x00\x00\x06",
    b"\x00\x00\x00\x18stco\x00\x00\x00\x00\x00\x00\x00\x02\x00\x00\x01\x2c\x00\x00\x01",
    b"\x90",
];

fn joined(rt: &HostRuntime, pieces: &[&[u8]]) -> Result<Vec<u8>, Fail> {
    let mut bytes = Vec::new(rt.alloc());
    for piece in pieces {
        bytes.extend_from_slice(piece)?;
    }
    Ok(bytes)
}

#[test]
fn a_track_of_pictures_is_written(rt: HostRuntime) -> Result<(), Fail> {
    let mut atoms = AtomWriter::new(rt.alloc());
    write_trak(rt.alloc(), &mut atoms, &pictures_of(&rt)?)?;
    assert!(rt; atoms.held() == joined(&rt, &PICTURES)?.as_slice());
    Ok(())
}

#[test]
fn a_track_of_sound_is_written(rt: HostRuntime) -> Result<(), Fail> {
    let mut atoms = AtomWriter::new(rt.alloc());
    write_trak(rt.alloc(), &mut atoms, &sound_of(&rt)?)?;
    assert!(rt; atoms.held() == joined(&rt, &SOUND)?.as_slice());
    Ok(())
}
