//! Tables written, read again, and joined.

ghost use Rattle.std.specs.Prelude.{◌≡◌, length};
ghost use Rattle.rate_table.specs.Table.{IsTable, group_table};

use pw_outside::{MemSink, MemSource};
use rate_table::{
    Entry, FrameTable, SliceTable, Slices, join, part_total, read_body, read_body_on, total,
    write_body,
};
use std::alloc::Global;
use std::process::Abort;

// budget 13, nothing fixed, the slices {1: 10/0, 2: 4/10} and {1: 9/0, 2: 5/6} (size/error)
const BODY: [u8; 58] = *b"\0\0\0\x0d\0\0\0\0\0\0\0\x02\
    \x02\x01\0\x0a\0\0\0\0\0\0\0\0\x02\0\x04\0\0\0\0\0\0\0\x0a\
    \x02\x01\0\x09\0\0\0\0\0\0\0\0\x02\0\x05\0\0\0\0\0\0\0\x06";

fn slice(first: (u16, u64), second: (u16, u64), rt: &impl Abort) -> SliceTable {
    assert!(rt; first.1 < 100 && second.1 < 100);
    let mut slice = SliceTable::one(Entry {
        index: 1,
        size: first.0,
        error: first.1,
    });
    slice.add(Entry {
        index: 2,
        size: second.0,
        error: second.1,
    });
    slice
}

fn table(rt: &impl Abort, alloc: Global) -> FrameTable
    ensures budget { result.budget ≡ 13 }
    ensures fixed { result.fixed ≡ 0 }
    ensures slices { length result.slices ≡ 2 }
{
    let slices = [slice((10, 0), (4, 10), rt), slice((9, 0), (5, 6), rt)];
    let slices = Vec::from_array(alloc, slices).expect(rt, "memory");
    FrameTable {
        budget: 13,
        fixed: 0,
        slices: Slices::from_vec(slices),
    }
}

#[test]
fn writes_a_body_that_is_read_again(rt: HostRuntime) {
    let table = table(&rt, rt.alloc());
    for step in [1, 3, 4096] {
        let fails = Vec::new(rt.alloc());
        let mut sink = MemSink::new(rt.alloc(), 58, step, fails).expect(&rt, "memory");
        write_body(&table, &mut sink).expect(&rt, "a sink");
        assert_eq!(rt; sink.bytes(), BODY.as_slice());
        let bytes = Vec::from_slice(rt.alloc(), sink.bytes()).expect(&rt, "memory");
        let mut source = MemSource::new(bytes, step, Vec::new(rt.alloc()));
        let read = read_body(rt.alloc(), &mut source, 0).expect(&rt, "a table");
        assert_eq!(rt; (read.budget, read.fixed), (13, 0));
        assert_eq!(rt; total(&read, &[2, 1]), Some((13, 10)));
        assert_eq!(rt; total(&read, &[1, 2]), Some((15, 6)));
    }
}

#[test]
fn says_that_a_call_of_the_sink_failed(rt: HostRuntime) {
    let table = table(&rt, rt.alloc());
    for call in 0..58 {
        let fails = Vec::from_array(rt.alloc(), [call]).expect(&rt, "memory");
        let mut sink = MemSink::new(rt.alloc(), 58, 1, fails).expect(&rt, "memory");
        assert!(rt; write_body(&table, &mut sink).is_err());
        let prefix = BODY.get(..call as usize).unwrap_or(&[]);
        assert_eq!(rt; sink.bytes(), prefix, "call {call}");
    }
}

#[test]
fn reads_on_after_a_body(rt: HostRuntime) {
    let mut bytes = Vec::from_slice(rt.alloc(), &BODY).expect(&rt, "memory");
    bytes.push(7).expect(&rt, "memory");
    let mut source = MemSource::new(bytes, 3, Vec::new(rt.alloc()));
    let mut place = 7;
    let table = read_body_on(rt.alloc(), &mut source, &mut place).expect(&rt, "a table");
    assert_eq!(rt; (table.budget, place), (13, 65));
    assert!(rt; read_body_on(rt.alloc(), &mut source, &mut place).is_err());
    assert_eq!(rt; place, 65);
}

fn frames(rt: &impl Abort, alloc: Global) -> Vec<FrameTable>
    ensures { IsTable (group_table result.items) }
{
    let tables = [table(rt, alloc), table(rt, alloc)];
    Vec::from_array(alloc, tables).expect(rt, "memory")
}

#[test]
fn joins_the_tables_of_frames(rt: HostRuntime) {
    let tables = frames(&rt, rt.alloc());
    let joined = join(rt.alloc(), tables).expect(&rt, "memory");
    assert_eq!(rt; (joined.budget, joined.fixed), (26, 0));
    assert_eq!(rt; total(&joined, &[2, 1, 1, 2]), Some((28, 16)));
    assert_eq!(rt; total(&joined, &[2, 1]), None);
    let slices = joined.slices.as_slice();
    assert_eq!(rt; part_total(slices, &[1, 2, 2, 2]), Some((24, 22)));
    assert_eq!(rt; part_total(slices, &[1, 2]), None);
}
