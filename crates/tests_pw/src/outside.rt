//! Objects in memory over steps of every size, with their faults.

use pw_outside::{
    ByteSink, ByteSource, Failed, MemSink, MemSource, MemStore, PutFault, Span, fill, fill_at, put,
};

#[test]
fn fills_a_piece_over_short_reads(rt: HostRuntime) {
    for (step, room, want) in [(1, 4, 4), (3, 4, 4), (4096, 4, 4), (2, 8, 6), (1, 0, 0)] {
        let bytes = Vec::from_array(rt.alloc(), *b"mdat\x00\x01").expect(&rt, "memory");
        let mut source = MemSource::new(bytes, step, Vec::new(rt.alloc()));
        let mut piece = [0u8; 8];
        assert_eq!(rt;
            fill(&mut source, &mut piece[..room]),
            Ok(want),
            "step {step}"
        );
        assert!(rt; piece[..want] == b"mdat\x00\x01"[..want], "step {step}");
    }
}

#[test]
fn takes_a_piece_in_steps_with_room_or_without(rt: HostRuntime) {
    for (room, step) in [(0, 1), (0, 4096), (3, 2), (8, 3), (8, 4096)] {
        let fails = Vec::new(rt.alloc());
        let mut sink = MemSink::new(rt.alloc(), room, step, fails).expect(&rt, "memory");
        assert_eq!(rt; put(&mut sink, b"apcn"), Ok(()));
        assert_eq!(rt; put(&mut sink, b"apch"), Ok(()));
        assert_eq!(rt; sink.flush(), Ok(()));
        assert!(rt;
            sink.bytes() == b"apcnapch".as_slice(),
            "room {room} step {step}"
        );
    }
}

#[test]
fn says_how_many_bytes_stand_before_a_fault(rt: HostRuntime) {
    for (call, out) in [(0, 0), (1, 3), (2, 6)] {
        let fails = Vec::from_array(rt.alloc(), [call]).expect(&rt, "memory");
        let mut sink = MemSink::new(rt.alloc(), 16, 3, fails).expect(&rt, "memory");
        assert_eq!(rt; put(&mut sink, b"icpfapch"), Err(PutFault { out }));
        assert!(rt; sink.bytes()[..] == b"icpfapch"[..out], "call {call}");
    }
}

#[test]
fn fills_a_piece_from_a_place_over_short_reads(rt: HostRuntime) {
    for (step, place, room, want) in [
        (1, 0, 4, 4),
        (3, 2, 4, 4),
        (4096, 4, 4, 2),
        (2, 6, 4, 0),
        (1, 9, 1, 0),
        (1, 3, 0, 0),
    ] {
        let bytes = Vec::from_array(rt.alloc(), *b"moov\x00\x01").expect(&rt, "memory");
        let mut store = MemStore::new(bytes, step, Vec::new(rt.alloc()));
        let mut piece = [0u8; 4];
        assert_eq!(rt;
            fill_at(&mut store, place, &mut piece[..room]),
            Ok(want),
            "step {step} place {place}"
        );
        let there = b"moov\x00\x01".get(place as usize..).unwrap_or(&[]);
        assert!(rt;
            there.starts_with(piece.get(..want).unwrap_or(&[])),
            "step {step} place {place}"
        );
    }
}

#[test]
fn gives_a_part_of_a_store(rt: HostRuntime) {
    for (step, at, end, want) in [
        (1, 0, 6, 6),
        (4, 2, 5, 3),
        (4096, 4, 6, 2),
        (2, 3, 3, 0),
        (3, 4, 99, 2),
    ] {
        let bytes = Vec::from_array(rt.alloc(), *b"moov\x00\x01").expect(&rt, "memory");
        let mut store = MemStore::new(bytes, step, Vec::new(rt.alloc()));
        let mut span = Span::new(&mut store, at, end);
        let mut piece = [0u8; 8];
        assert_eq!(rt; fill(&mut span, &mut piece), Ok(want), "from {at} to {end}");
        let there = b"moov\x00\x01".get(at as usize..).unwrap_or(&[]);
        assert!(rt;
            there.starts_with(piece.get(..want).unwrap_or(&[])),
            "from {at} to {end}"
        );
    }
}

#[test]
fn a_part_fails_where_its_store_does(rt: HostRuntime) {
    let bytes = Vec::from_array(rt.alloc(), *b"moov\x00\x01").expect(&rt, "memory");
    let fails = Vec::from_array(rt.alloc(), [1]).expect(&rt, "memory");
    let mut store = MemStore::new(bytes, 2, fails);
    let mut span = Span::new(&mut store, 1, 5);
    let mut piece = [0u8; 8];
    assert_eq!(rt; span.read(&mut piece), Ok(2));
    assert_eq!(rt; span.read(&mut piece), Err(Failed));
    assert_eq!(rt; span.read(&mut piece), Ok(2));
    assert_eq!(rt; span.read(&mut piece), Ok(0));
}
