//! Proof files of one grey frame, written, read again, cut at every length, and changed.

use pw_outside::{MemSink, MemSource};
use rate_cert::{ProofReader, ProofWriter};
use rate_table::{ProofKind, TableFault};
use std::alloc::Global;
use std::process::Abort;

// the head in front of the matrices, behind the format
const FIELDS: [u8; 20] = *b"\0\0\x10\0\x10\x02\x0a\0\0\x03\x01\x03\0\0\0\x19\0\0\0\x01";

// the table of the record behind its budget: 166 bytes are fixed, and each index of the slice has 12 bytes and no error
const TABLE: [u8; 42] = *b"\0\0\0\xa6\0\0\0\x01\x03\
    \x01\0\x0c\0\0\0\0\0\0\0\0\x02\0\x0c\0\0\0\0\0\0\0\0\x03\0\x0c\0\0\0\0\0\0\0\0";

// the choice, its sums and the multiplier
const CHOICE: [u8; 21] = *b"\x01\0\0\0\x0c\0\0\0\0\0\0\0\0\0\0\0\0\0\0\0\0";

// the layers in each format
const WIDE: [u8; 32] = *b"\0\0\0\x01\0\0\0\0\0\0\0\0\0\0\0\0\0\0\0\x01\0\0\0\x0c\0\0\0\0\0\0\0\0";

const CLOSE: [u8; 6] = *b"\x01\0\0\x01\x0c\0";

// where the fields begin, up to the layers, and from there in each format
const PLACES: [u64; 41] = [
    0, 4, 5, 6, 8, 10, 11, 12, 13, 14, 15, 16, 17, 21, 25, 89, 153, 157, 158, 159, 163, 167, 171,
    172, 173, 175, 183, 184, 186, 194, 195, 197, 205, 206, 210, 218, 226, 230, 234, 242, 246,
];

/// What stands behind the head.
#[derive(Clone, Copy, PartialEq, Eq)]
enum Records {
    None,
    NoFit,
    Fit,
}

fn put(bytes: &mut Vec<u8>, piece: &[u8], rt: &impl Abort) {
    bytes.extend_from_slice(piece).expect(rt, "memory");
}

/// The proof of the frame with a budget of 178, or of 177, in which nothing fits, or of no frame.
fn proof(rt: &impl Abort, alloc: Global, format: u8, records: Records) -> Vec<u8> {
    let budget: u32 = if records == Records::NoFit { 177 } else { 178 };
    let mut bytes = Vec::new(alloc);
    put(&mut bytes, b"PWPF", rt);
    put(&mut bytes, &[format], rt);
    put(&mut bytes, &FIELDS, rt);
    put(&mut bytes, &[4; 128], rt);
    put(&mut bytes, &budget.to_be_bytes(), rt);
    match records {
        Records::None => put(&mut bytes, b"\x45\0\0\0\0", rt),
        Records::NoFit => {
            put(&mut bytes, b"\x52\0", rt);
            put(&mut bytes, &budget.to_be_bytes(), rt);
            put(&mut bytes, &TABLE, rt);
            put(&mut bytes, b"\0\0\0\0\0\0\0\xb2\x45\0\0\0\x01", rt);
        }
        Records::Fit => {
            put(&mut bytes, b"\x52\x01", rt);
            put(&mut bytes, &budget.to_be_bytes(), rt);
            put(&mut bytes, &TABLE, rt);
            put(&mut bytes, &CHOICE, rt);
            let layers = if format == 1 {
                WIDE.as_slice()
            } else {
                CLOSE.as_slice()
            };
            put(&mut bytes, layers, rt);
            put(&mut bytes, b"\x45\0\0\0\x01", rt);
        }
    }
    bytes
}

/// The fault that reading meets: of the head, of the first record, or behind it.
fn read(alloc: Global, bytes: Vec<u8>) -> Result<(), TableFault> {
    let mut source = MemSource::new(bytes, 4096, Vec::new(alloc));
    let mut reader = ProofReader::start(&mut source)?;
    if reader.next(alloc, &mut source)?.is_some() {
        reader.next(alloc, &mut source)?;
    }
    Ok(())
}

/// Reads a proof of at most one record and writes it again.
fn again(rt: &impl Abort, alloc: Global, bytes: Vec<u8>, step: usize) -> MemSink {
    assert!(rt; 0 < step && bytes.len() < 300);
    let mut sink = MemSink::new(alloc, 300, step, Vec::new(alloc)).expect(rt, "memory");
    let mut source = MemSource::new(bytes, step, Vec::new(alloc));
    let mut reader = ProofReader::start(&mut source).expect(rt, "a head");
    let mut writer = ProofWriter::begin(&mut sink, &reader.settings(), reader.format()).expect(
        rt, "a sink",
    );
    if let Some(record) = reader.next(alloc, &mut source).expect(rt, "a record") {
        writer.put(&mut sink, &record).expect(rt, "a sink");
        assert!(rt;
            reader
                .next(alloc, &mut source)
                .expect(rt, "an end")
                .is_none()
        );
    }
    writer.end(&mut sink).expect(rt, "a sink");
    sink
}

#[test]
fn writes_what_was_read(rt: HostRuntime) {
    let alloc = rt.alloc();
    for (format, records, size) in [
        (1, Records::Fit, 263),
        (2, Records::Fit, 237),
        (1, Records::NoFit, 218),
        (2, Records::NoFit, 218),
        (1, Records::None, 162),
        (2, Records::None, 162),
    ] {
        for step in [1, 4096] {
            let bytes = proof(&rt, alloc, format, records);
            assert_eq!(rt; bytes.len(), size);
            let sink = again(&rt, alloc, proof(&rt, alloc, format, records), step);
            assert_eq!(rt; sink.bytes(), bytes.as_slice());
        }
    }
}

/// The place of the field that has the byte at a place.
fn field_at(format: u8, place: u64) -> u64 {
    let mut field = 0;
    if format == 2 && 226 <= place {
        return if place < 234 { place } else { 233 };
    }
    if 258 <= place {
        return if place < 259 { 258 } else { 259 };
    }
    if 250 <= place {
        return 250;
    }
    for start in PLACES {
        if start <= place {
            field = start;
        }
    }
    field
}

#[test]
fn a_cut_is_a_fault_of_its_field(rt: HostRuntime) {
    let alloc = rt.alloc();
    for (format, size) in [(1, 263), (2, 237)] {
        for place in 0..size {
            let mut bytes = proof(&rt, alloc, format, Records::Fit);
            bytes.truncate(place);
            let want = field_at(format, place as u64);
            match read(alloc, bytes) {
                Err(TableFault::Bad { kind, place }) => {
                    assert_eq!(rt; (kind, place), (ProofKind::ProofShort, want));
                }
                _ => assert!(rt; false, "a cut at {place}"),
            }
        }
    }
}

#[test]
fn a_changed_field_is_a_fault_at_its_place(rt: HostRuntime) {
    let alloc = rt.alloc();
    for (at, byte, kind, place) in [
        (0, b'Q', ProofKind::ProofMagic, 0),
        (4, 3, ProofKind::ProofMagic, 4),
        (5, 17, ProofKind::ProofShape, 5),
        (6, 0x20, ProofKind::ProofShape, 6),
        (9, 0, ProofKind::ProofShape, 8),
        (10, 1, ProofKind::ProofShape, 10),
        (11, 9, ProofKind::ProofShape, 11),
        (12, 1, ProofKind::ProofShape, 12),
        (13, 3, ProofKind::ProofShape, 13),
        (14, 4, ProofKind::ProofShape, 14),
        (15, 0, ProofKind::ProofShape, 15),
        (15, 4, ProofKind::ProofShape, 16),
        (16, 225, ProofKind::ProofShape, 16),
        (20, 0, ProofKind::ProofShape, 17),
        (24, 0, ProofKind::ProofShape, 21),
        (88, 1, ProofKind::ProofShape, 25),
        (152, 64, ProofKind::ProofShape, 89),
        (153, 0x80, ProofKind::ProofShape, 153),
        (157, 0x53, ProofKind::ProofShape, 157),
        (158, 2, ProofKind::ProofShape, 158),
        (170, 0, ProofKind::TableEmpty, 167),
        (183, 1, ProofKind::TableOrder, 183),
        (226, 0x81, ProofKind::ProofShape, 226),
        (232, 0x52, ProofKind::ProofShort, 234),
        (236, 2, ProofKind::ProofShape, 233),
    ] {
        let mut bytes = proof(&rt, alloc, 2, Records::Fit);
        match bytes.get_mut(at) {
            Some(field) => *field = byte,
            None => assert!(rt; false, "a byte"),
        }
        match read(alloc, bytes) {
            Err(
                TableFault::Bad {
                    kind: found,
                    place: there,
                },
            ) => {
                assert_eq!(rt; (found, there), (kind, place), "byte {at}");
            }
            _ => assert!(rt; false, "byte {at}"),
        }
    }
}
