use pw_outside::MemSource;
use rate_table::{
    FrameTable, ProofKind, TableFault, least, read_body, read_file, read_table, total,
};
use std::alloc::Global;
use std::process::Abort;

// budget 13, nothing fixed, the slices {1: 10/0, 2: 4/10} and {1: 9/0, 2: 5/6} (size/error)
const TABLE: [u8; 63] = *b"PWTB\x01\0\0\0\x0d\0\0\0\0\0\0\0\x02\
    \x02\x01\0\x0a\0\0\0\0\0\0\0\0\x02\0\x04\0\0\0\0\0\0\0\x0a\
    \x02\x01\0\x09\0\0\0\0\0\0\0\0\x02\0\x05\0\0\0\0\0\0\0\x06";

// the first bytes of the table, or one byte more, with one byte changed
fn source(
    rt: &impl Abort,
    alloc: Global,
    (length, at, to): (usize, usize, u8),
    step: usize,
    fail: u64,
) -> MemSource {
    assert!(rt; at < 63 && length <= 64 && 1 <= step);
    let mut bytes = [0u8; 64];
    bytes[..63].copy_from_slice(&TABLE);
    bytes[at] = to;
    let bytes = Vec::from_slice(alloc, &bytes[..length]).expect(rt, "memory");
    let fails = Vec::from_array(alloc, [fail]).expect(rt, "memory");
    MemSource::new(bytes, step, fails)
}

#[test]
fn tells_the_first_fault_at_its_place(rt: HostRuntime) {
    let cases = [
        (0, 0, b'P', ProofKind::TableShort, 0),
        (3, 0, b'P', ProofKind::TableShort, 0),
        (4, 0, b'P', ProofKind::TableShort, 4),
        (4, 0, b'Q', ProofKind::TableMagic, 0),
        (63, 4, 0, ProofKind::TableMagic, 4),
        (63, 8, 0, ProofKind::TableLimit, 5),
        (63, 5, 0x80, ProofKind::TableLimit, 5),
        (63, 16, 0, ProofKind::TableEmpty, 13),
        (63, 17, 225, ProofKind::TableLimit, 17),
        (63, 18, 0, ProofKind::TableLimit, 18),
        (63, 21, 1, ProofKind::TableLimit, 21),
        (63, 29, 1, ProofKind::TableOrder, 29),
        (63, 29, 225, ProofKind::TableLimit, 29),
        (63, 40, 0, ProofKind::TableEmpty, 40),
        (62, 0, b'P', ProofKind::TableShort, 55),
        (63, 16, 3, ProofKind::TableShort, 63),
        (64, 0, b'P', ProofKind::TableTrailing, 63),
    ];
    for (length, at, to, kind, place) in cases {
        for step in [1, 3, 4096] {
            let mut source = source(&rt, rt.alloc(), (length, at, to), step, u64::MAX);
            match read_file(rt.alloc(), &mut source) {
                Err(TableFault::Bad { kind: k, place: p }) => {
                    assert_eq!(rt; (k, p), (kind, place), "{length} {at} {to} {step}");
                }
                _ => assert!(rt; false, "{length} {at} {to} {step}"),
            }
        }
    }
}

fn has_its_sums(rt: &impl Abort, table: &FrameTable) {
    assert_eq!(rt; (table.budget, table.fixed), (13, 0));
    assert_eq!(rt; total(table, &[2, 1]), Some((13, 10)));
    assert_eq!(rt; total(table, &[1, 2]), Some((15, 6)));
    assert_eq!(rt; total(table, &[2, 2]), Some((9, 16)));
    assert_eq!(rt; total(table, &[3, 1]), None);
    assert_eq!(rt; total(table, &[2]), None);
    assert_eq!(rt; total(table, &[2, 1, 1]), None);
    assert_eq!(rt; least(table), 9);
}

#[test]
fn reads_a_table_and_adds_up_choices(rt: HostRuntime) {
    for step in [1, 3, 4096] {
        let mut file = source(&rt, rt.alloc(), (63, 0, b'P'), step, u64::MAX);
        has_its_sums(
            &rt,
            &read_file(rt.alloc(), &mut file).expect(&rt, "a table"),
        );
        let mut front = source(&rt, rt.alloc(), (64, 0, b'P'), step, u64::MAX);
        has_its_sums(
            &rt,
            &read_table(rt.alloc(), &mut front).expect(&rt, "a table"),
        );
    }
    let bytes = Vec::from_slice(rt.alloc(), &TABLE[5..]).expect(&rt, "memory");
    let mut body = MemSource::new(bytes, 7, Vec::new(rt.alloc()));
    has_its_sums(
        &rt,
        &read_body(rt.alloc(), &mut body, 5).expect(&rt, "a table"),
    );
}

#[test]
fn says_that_a_call_failed(rt: HostRuntime) {
    for call in 0..64 {
        let mut source = source(&rt, rt.alloc(), (63, 0, b'P'), 1, call);
        match read_file(rt.alloc(), &mut source) {
            Err(TableFault::Failed) => {}
            _ => assert!(rt; false, "call {call}"),
        }
    }
    let mut source = source(&rt, rt.alloc(), (63, 0, b'P'), 1, 64);
    has_its_sums(
        &rt,
        &read_file(rt.alloc(), &mut source).expect(&rt, "a table"),
    );
}
