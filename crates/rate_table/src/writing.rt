//! Writes tables as bytes.

ghost use Rattle.std.specs.Prelude.{◌≡◌, ◌++◌, ◌≤◌, OnOk, OnErr, is_err};
ghost use Rattle.std.specs.Int.{w32, to_be_bytes};
ghost use Rattle.std.specs.List.{flat_map};
ghost use Rattle.pw_outside.specs.Ports.{CountsFault};
ghost use Rattle.pw_outside.specs.Writing.{sink_state, Puts, PutsFront};
ghost use Rattle.rate_table.specs.Body.{entry_bytes, slice_bytes, body_bytes};

use crate::entry::Entry;
use crate::table::{FrameTable, SliceTable};
use pw_outside::{ByteSink, Failed, put_all};

/// The bytes of an entry.
fn bytes_of_entry(entry: Entry) -> [u8; 11]
    ensures { result ≡ entry_bytes entry }
{
    let size = entry.size.to_be_bytes();
    let error = entry.error.to_be_bytes();
    [
        entry.index,
        size[0],
        size[1],
        error[0],
        error[1],
        error[2],
        error[3],
        error[4],
        error[5],
        error[6],
        error[7],
    ]
}

/// The bytes before a table's slices: the budget, the fixed bytes and the number of slices.
fn bytes_of_start(budget: u32, fixed: u32, slices: u32) -> [u8; 12]
    ensures { result ≡ to_be_bytes w32 budget ++ (to_be_bytes w32 fixed ++ to_be_bytes w32 slices) }
{
    let budget = budget.to_be_bytes();
    let fixed = fixed.to_be_bytes();
    let slices = slices.to_be_bytes();
    [
        budget[0], budget[1], budget[2], budget[3], fixed[0], fixed[1], fixed[2], fixed[3],
        slices[0], slices[1], slices[2], slices[3],
    ]
}

fn write_entries<K: ByteSink>(entries: &[Entry], sink: &mut K) -> Result<(), Failed>
    ensures all { OnOk result (Puts (sink_state (K.held sink.old) (K.taken sink.old))
        (sink_state (K.held sink.new) (K.taken sink.new)) (flat_map entry_bytes entries.now)) }
    ensures front { OnErr result (PutsFront (sink_state (K.held sink.old) (K.taken sink.old))
        (sink_state (K.held sink.new) (K.taken sink.new)) (flat_map entry_bytes entries.now)) }
    ensures settled { K.settled sink.old ≤ K.settled sink.new }
    ensures cause { CountsFault (K.faults sink.old) (K.faults sink.new) (is_err result) }
{
    for entry in entries {
        put_all(sink, &bytes_of_entry(*entry))?;
    }
    Ok(())
}

fn write_slice<K: ByteSink>(slice: &SliceTable, sink: &mut K) -> Result<(), Failed>
    ensures all { OnOk result (Puts (sink_state (K.held sink.old) (K.taken sink.old))
        (sink_state (K.held sink.new) (K.taken sink.new)) (slice_bytes slice.now)) }
    ensures front { OnErr result (PutsFront (sink_state (K.held sink.old) (K.taken sink.old))
        (sink_state (K.held sink.new) (K.taken sink.new)) (slice_bytes slice.now)) }
    ensures settled { K.settled sink.old ≤ K.settled sink.new }
    ensures cause { CountsFault (K.faults sink.old) (K.faults sink.new) (is_err result) }
{
    let entries = slice.entries();
    put_all(sink, &[entries.len() as u8])?;
    write_entries(entries, sink)
}

fn write_slices<K: ByteSink>(slices: &[SliceTable], sink: &mut K) -> Result<(), Failed>
    ensures all { OnOk result (Puts (sink_state (K.held sink.old) (K.taken sink.old))
        (sink_state (K.held sink.new) (K.taken sink.new)) (flat_map slice_bytes slices.now)) }
    ensures front { OnErr result (PutsFront (sink_state (K.held sink.old) (K.taken sink.old))
        (sink_state (K.held sink.new) (K.taken sink.new)) (flat_map slice_bytes slices.now)) }
    ensures settled { K.settled sink.old ≤ K.settled sink.new }
    ensures cause { CountsFault (K.faults sink.old) (K.faults sink.new) (is_err result) }
{
    for slice in slices {
        write_slice(slice, sink)?;
    }
    Ok(())
}

/// Writes the body of a table. Takes no memory.
///
/// The error is `Failed` if a call of the sink failed; the sink then has a prefix of the bytes.
pub fn write_body<K: ByteSink>(table: &FrameTable, sink: &mut K) -> Result<(), Failed>
    // The sink takes the body of this table, or a prefix of it if a call of the sink failed.
    ensures all { OnOk result (Puts (sink_state (K.held sink.old) (K.taken sink.old))
        (sink_state (K.held sink.new) (K.taken sink.new)) (body_bytes table.now)) }
    ensures front { OnErr result (PutsFront (sink_state (K.held sink.old) (K.taken sink.old))
        (sink_state (K.held sink.new) (K.taken sink.new)) (body_bytes table.now)) }
    ensures settled { K.settled sink.old ≤ K.settled sink.new }
    ensures cause { CountsFault (K.faults sink.old) (K.faults sink.new) (is_err result) }
{
    let slices = table.slices.as_slice();
    let start = bytes_of_start(table.budget, table.fixed, slices.len() as u32);
    put_all(sink, &start)?;
    write_slices(slices, sink)
}
