//! Whole cases that no clause names: built bytes, short reads, failing calls.

use pw_outside::MemStore;
use qt_atoms::{Atom, AtomFault, AtomWriter, Step, find, find_either, next_atom};

// a `free` of 12 bytes, an empty `skip`, and a `free` with a 64-bit size of 20
const CHILDREN: [u8; 40] =
    *b"\x00\x00\x00\x0cfree\x01\x02\x03\x04\x00\x00\x00\x08skip\x00\x00\x00\x01free\x00\x00\x00\x00\x00\x00\x00\x14\x05\x06\x07\x08";

const PARENT: Atom = Atom {
    kind: *b"moov",
    at: 0,
    body: 0,
    end: 40,
};

#[test]
fn reads_atoms_over_short_reads(rt: HostRuntime) {
    for step in [1, 3, 4096] {
        let bytes = Vec::from_array(rt.alloc(), CHILDREN).expect(&rt, "memory");
        let mut store = MemStore::new(bytes, step, Vec::new(rt.alloc()));
        let first = Atom {
            kind: *b"free",
            at: 0,
            body: 8,
            end: 12,
        };
        let skip = Atom {
            kind: *b"skip",
            at: 12,
            body: 20,
            end: 20,
        };
        let long = Atom {
            kind: *b"free",
            at: 20,
            body: 36,
            end: 40,
        };
        assert_eq!(rt; next_atom(&mut store, 0, 40, true), Ok(Step::Atom(first)));
        assert_eq!(rt; next_atom(&mut store, 20, 40, false), Ok(Step::Atom(long)));
        assert_eq!(rt;
            next_atom(&mut store, 20, 39, false),
            Err(AtomFault::Size(20))
        );
        assert_eq!(rt;
            next_atom(&mut store, 20, 35, false),
            Err(AtomFault::Size(20))
        );
        assert_eq!(rt; next_atom(&mut store, 33, 40, true), Ok(Step::End));
        assert_eq!(rt; find(&mut store, &PARENT, *b"free"), Ok(Some(first)));
        assert_eq!(rt; find(&mut store, &PARENT, *b"skip"), Ok(Some(skip)));
        assert_eq!(rt; find(&mut store, &PARENT, *b"trak"), Ok(None));
        assert_eq!(rt;
            find_either(&mut store, &PARENT, [*b"co64", *b"skip"]),
            Ok(Some(skip))
        );
    }
}

#[test]
fn judges_sizes(rt: HostRuntime) {
    for (size, top, want) in [
        (0, false, Ok(Step::End)),
        (
            0,
            true,
            Ok(Step::Atom(Atom {
                kind: *b"mdat",
                at: 0,
                body: 8,
                end: 12,
            })),
        ),
        (1, false, Err(AtomFault::Size(0))),
        (2, false, Err(AtomFault::Size(0))),
        (7, true, Err(AtomFault::Size(0))),
        (
            8,
            false,
            Ok(Step::Atom(Atom {
                kind: *b"mdat",
                at: 0,
                body: 8,
                end: 8,
            })),
        ),
        (
            12,
            true,
            Ok(Step::Atom(Atom {
                kind: *b"mdat",
                at: 0,
                body: 8,
                end: 12,
            })),
        ),
        (13, true, Err(AtomFault::Size(0))),
    ] {
        let bytes = Vec::from_array(
            rt.alloc(),
            [0, 0, 0, size, 0x6d, 0x64, 0x61, 0x74, 9, 9, 9, 9],
        )
        .expect(&rt, "memory");
        let mut store = MemStore::new(bytes, 4096, Vec::new(rt.alloc()));
        assert_eq!(rt; next_atom(&mut store, 0, 12, top), want, "size {size}");
    }
}

#[test]
fn tells_that_the_store_failed(rt: HostRuntime) {
    for (call, want) in [
        (0, Err(AtomFault::Failed)),
        (1, Err(AtomFault::Failed)),
        (2, Ok(None)),
    ] {
        let bytes = Vec::from_array(
            rt.alloc(),
            *b"\x00\x00\x00\x08free\x00\x00\x00\x08skip",
        ).expect(&rt, "memory");
        let fails = Vec::from_array(rt.alloc(), [call]).expect(&rt, "memory");
        let mut store = MemStore::new(bytes, 4096, fails);
        let parent = Atom {
            kind: *b"moov",
            at: 0,
            body: 0,
            end: 16,
        };
        assert_eq!(rt; find(&mut store, &parent, *b"trak"), want, "call {call}");
    }
}

#[test]
fn frames_atoms(rt: HostRuntime) {
    let mut atoms = AtomWriter::new(rt.alloc());
    let outer = atoms.begin(*b"dinf").expect(&rt, "memory");
    let inner = atoms.begin(*b"dref").expect(&rt, "memory");
    atoms.bytes(b"\x01\x02\x03").expect(&rt, "memory");
    atoms.end(inner);
    atoms.end(outer);
    assert!(rt; atoms.held() == b"\x00\x00\x00\x13dinf\x00\x00\x00\x0bdref\x01\x02\x03".as_slice());
}
