//! Files in memory, rescued.

use pw_outside::{MemSink, MemStore};
use qt_tables::MovieKind;
use rescue_run::*;
use std::test::Fail;

// the fields in front of the matrices of a grey frame of 16 by 16
const START: [u8; 28] =
    *b"\x00\x00\x00\xb2icpf\x00\x94\x00\x00pwk0\x00\x10\x00\x10\x80\x00\x02\x02\x02\x00\x00\x03";

// its picture: header, table and one slice
const PICTURE: [u8; 22] =
    *b"\x40\x00\x00\x00\x16\x00\x01\x30\x00\x0c\x30\x01\x00\x02\x00\x02\x82\x30\x82\x00\x82\x00";

/// The grey frame behind these bytes.
fn grey_behind(rt: &HostRuntime, front: &[u8]) -> Result<Vec<u8>, Fail> {
    let mut bytes = front.to_vec(rt.alloc())?;
    bytes.extend_from_slice(&START)?;
    for _ in 0..128 {
        bytes.push(4)?;
    }
    bytes.extend_from_slice(&PICTURE)?;
    Ok(bytes)
}

// what a movie of one frame has in front of the frame
const FRONT: &[u8; 28] = b"\x00\x00\x00\x14ftypqt  \x00\x00\x00\x00qt  \x00\x00\x00\xbamdat";

#[test]
fn rescues_frames_wherever_they_stand(rt: HostRuntime) -> Result<(), Fail> {
    let movie = grey_behind(&rt, FRONT)?;
    let second = grey_behind(&rt, b"\x00\x00\x00\xb2icpf")?;
    let none = RescueEnd::BadMovie {
        kind: MovieKind::NoFrames,
        place: 0,
    };
    let rows: [(&[u8], RescueEnd, usize, &[u8]); 4] = [
        (
            &movie,
            RescueEnd::Done,
            798,
            b"frame 0 at 28 size 178\nframes 1\n",
        ),
        (movie.get(..205).unwrap_or(&[]), none, 0, b""),
        (
            &second,
            RescueEnd::Done,
            798,
            b"frame 0 at 8 size 178\nframes 1\n",
        ),
        (b"", none, 0, b""),
    ];
    for (file, end, length, lines) in rows {
        let alloc = rt.alloc();
        let bytes = file.to_vec(alloc)?;
        let mut store = MemStore::new(bytes, 4096, Vec::new(alloc));
        let mut out = MemSink::new(alloc, 2048, 4096, Vec::new(alloc))?;
        let mut text = MemSink::new(alloc, 2048, 4096, Vec::new(alloc))?;
        let answer = rescue_run(alloc, &mut store, 25, 1, &mut out, &mut text);
        assert_eq!(rt; answer, end);
        assert_eq!(rt; out.bytes().len(), length);
        assert!(rt; text.bytes() == lines);
    }
    Ok(())
}
