//! Certificates and curves over ports in memory.

use pw_outside::{MemSink, MemSource};
use rate_least::{LeastEnd, checkleast_run, curve_run, least_run, read_least, write_least};
use rate_table::ProofKind;
use std::test::Fail;

// budget 13, nothing fixed, the slices {1: 10/0, 2: 4/10} and {1: 9/0, 2: 5/6} (size/error)
const TABLE: &[u8] = b"PWTB\x01\0\0\0\x0d\0\0\0\0\0\0\0\x02\
    \x02\x01\0\x0a\0\0\0\0\0\0\0\0\x02\0\x04\0\0\0\0\0\0\0\x0a\
    \x02\x01\0\x09\0\0\0\0\0\0\0\0\x02\0\x05\0\0\0\0\0\0\0\x06";

// under the cap 10 the choice 2 1 of size 13 and error 10, the multiplier 1, and the layers (0,0) and (4,10), (10,0)
const FRONT: &[u8] = b"PWLC\x01\0\0\0\0\0\0\0\x0a\0\0\0\x0d\0\0\0\0\0\0\0\x02\
    \x02\x01\0\x0a\0\0\0\0\0\0\0\0\x02\0\x04\0\0\0\0\0\0\0\x0a\
    \x02\x01\0\x09\0\0\0\0\0\0\0\0\x02\0\x05\0\0\0\0\0\0\0\x06\
    \x01\x02\x01\0\0\0\0\0\0\0\x0d\0\0\0\0\0\0\0\x0a\0\0\0\0\0\0\0\x01\
    \0\0\0\x01\0\0\0\0\0\0\0\0\0\0\0\0\0\0\0\0\
    \0\0\0\x02\0\0\0\0\0\0\0\x04\0\0\0\0\0\0\0\x0a\0\0\0\0\0\0\0\x0a\0\0\0\0\0\0\0\0";

// the last layer (13,10), (15,6), (19,0); without its first pair; with the size 12 in place of 13; a pair of 2^34 bytes
const LAST: &[u8] = b"\0\0\0\x03\0\0\0\0\0\0\0\x0d\0\0\0\0\0\0\0\x0a\
    \0\0\0\0\0\0\0\x0f\0\0\0\0\0\0\0\x06\0\0\0\0\0\0\0\x13\0\0\0\0\0\0\0\0";

const LESS: &[u8] =
    b"\0\0\0\x02\0\0\0\0\0\0\0\x0f\0\0\0\0\0\0\0\x06\0\0\0\0\0\0\0\x13\0\0\0\0\0\0\0\0";

const SMALL: &[u8] = b"\0\0\0\x01\0\0\0\0\0\0\0\x0c\0\0\0\0\0\0\0\0";

const LARGE: &[u8] = b"\0\0\0\x01\0\0\0\x04\0\0\0\0\0\0\0\0\0\0\0\0";

/// How checking these bytes ends, and its text.
fn checked(rt: &HostRuntime, front: &[u8], last: &[u8]) -> Result<(LeastEnd, Vec<u8>), Fail> {
    let alloc = rt.alloc();
    let mut bytes = front.to_vec(alloc)?;
    bytes.extend_from_slice(last)?;
    let mut proof = MemSource::new(bytes, 7, Vec::new(alloc));
    let mut text = MemSink::new(alloc, 64, 7, Vec::new(alloc))?;
    let end = checkleast_run(alloc, &mut proof, &mut text);
    Ok((end, text.bytes().to_vec(alloc)?))
}

#[test]
fn checks_a_certificate_by_its_clauses(rt: HostRuntime) -> Result<(), Fail> {
    let cut = &FRONT[..100];
    let cases: [(&[u8], &[u8], LeastEnd, &[u8]); 5] = [
        (FRONT, LAST, LeastEnd::Done, b"yes\n"),
        (FRONT, LESS, LeastEnd::Refused { clause: 7 }, b""),
        (FRONT, SMALL, LeastEnd::Refused { clause: 8 }, b""),
        (
            FRONT,
            LARGE,
            LeastEnd::BadProof {
                kind: ProofKind::ProofShape,
                place: 158,
            },
            b"",
        ),
        (
            cut,
            b"",
            LeastEnd::BadProof {
                kind: ProofKind::ProofShort,
                place: 98,
            },
            b"",
        ),
    ];
    for (front, last, want, lines) in cases {
        let (end, text) = checked(&rt, front, last)?;
        assert_eq!(&rt; end, want);
        assert!(&rt; text.as_slice() == lines);
    }
    Ok(())
}

#[test]
fn writes_what_was_read(rt: HostRuntime) -> Result<(), Fail> {
    let alloc = rt.alloc();
    let mut bytes = FRONT.to_vec(alloc)?;
    bytes.extend_from_slice(LAST)?;
    let mut source = MemSource::new(bytes.to_vec(alloc)?, 4096, Vec::new(alloc));
    let proof = read_least(alloc, &mut source)?;
    let mut sink = MemSink::new(alloc, 4096, 4096, Vec::new(alloc))?;
    write_least(&proof.table, proof.cap, &proof.outcome, &mut sink)?;
    assert!(&rt; sink.bytes() == bytes.as_slice());
    Ok(())
}

#[test]
fn prints_all_undominated_pairs(rt: HostRuntime) -> Result<(), Fail> {
    let alloc = rt.alloc();
    let mut proof = MemSource::new(TABLE.to_vec(alloc)?, 7, Vec::new(alloc));
    let mut text = MemSink::new(alloc, 64, 7, Vec::new(alloc))?;
    assert_eq!(&rt; curve_run(alloc, &mut proof, &mut text), LeastEnd::Done);
    let lines = b"point 9 16\npoint 13 10\npoint 15 6\npoint 19 0\npoints 4\n";
    assert!(&rt; text.bytes() == lines.as_slice());
    Ok(())
}

/// How the smallest choice of this table under this cap is told, with its certificate.
fn least_of(
    rt: &HostRuntime,
    table: &[u8],
    cap: u64,
) -> Result<(LeastEnd, Vec<u8>, Vec<u8>), Fail> {
    let alloc = rt.alloc();
    let mut proof = MemSource::new(table.to_vec(alloc)?, 7, Vec::new(alloc));
    let mut cert = MemSink::new(alloc, 64, 7, Vec::new(alloc))?;
    let mut text = MemSink::new(alloc, 64, 7, Vec::new(alloc))?;
    let end = least_run(alloc, &mut proof, cap, &mut cert, &mut text);
    Ok((
        end,
        cert.bytes().to_vec(alloc)?,
        text.bytes().to_vec(alloc)?,
    ))
}

// budget 10, nothing fixed, and the slice {1: 4/5, 2: 3/5}
const ONE: &[u8] = b"PWTB\x01\0\0\0\x0a\0\0\0\0\0\0\0\x01\
    \x02\x01\0\x04\0\0\0\0\0\0\0\x05\x02\0\x03\0\0\0\0\0\0\0\x05";

#[test]
fn finds_the_smallest_choice(rt: HostRuntime) -> Result<(), Fail> {
    let cases: [(&[u8], u64, &[u8]); 5] = [
        (TABLE, 10, b"choice 2 1\nsize 13\nerror 10\n"),
        (TABLE, 9, b"choice 1 2\nsize 15\nerror 6\n"),
        (TABLE, 16, b"choice 2 2\nsize 9\nerror 16\n"),
        (ONE, 4, b"none least-error 5\n"),
        (ONE, 5, b"choice 2\nsize 3\nerror 5\n"),
    ];
    for (table, cap, lines) in cases {
        let (end, _cert, text) = least_of(&rt, table, cap)?;
        assert_eq!(&rt; end, LeastEnd::Done);
        assert!(&rt; text.as_slice() == lines);
    }
    let mut want = FRONT.to_vec(rt.alloc())?;
    want.extend_from_slice(LAST)?;
    let (_end, cert, _text) = least_of(&rt, TABLE, 10)?;
    assert!(&rt; cert.as_slice() == want.as_slice());
    Ok(())
}
