//! Buffers bytes for a sink. Takes no memory.

ghost use Rattle.std.specs.Prelude.{◌≡◌, ◌+◌, ◌≤◌, ◌++◌, [], OnOk, OnErr, is_err, length};
ghost use Rattle.pw_outside.specs.Ports.{CountsFault};
ghost use Rattle.pw_outside.specs.Writing.{sink_state, Puts, PutsFront};
ghost use Rattle.rate_cert.specs.inner.Gathered.{Gathers};

use arrayvec::ArrayVec;
use pw_outside::{ByteSink, Failed, put};

/// The size of the buffer in bytes.
pub(crate) const ROOM: usize = 4096;

/// Writes the whole piece.
pub(crate) fn write<K: ByteSink>(sink: &mut K, piece: &[u8]) -> Result<(), Failed>
    ensures ok { OnOk result (Puts (sink_state (K.held sink.old) (K.taken sink.old))
        (sink_state (K.held sink.new) (K.taken sink.new)) piece.now) }
    ensures err { OnErr result (PutsFront (sink_state (K.held sink.old) (K.taken sink.old))
        (sink_state (K.held sink.new) (K.taken sink.new)) piece.now) }
    ensures settled { K.settled sink.old ≤ K.settled sink.new }
    ensures cause { CountsFault (K.faults sink.old) (K.faults sink.new) (is_err result) }
{
    match put(sink, piece) {
        Ok(()) => Ok(()),
        Err(_) => Err(Failed),
    }
}

/// Appends the piece to the buffer.
fn append(gathered: &mut ArrayVec<u8, ROOM>, piece: &[u8])
    requires { length gathered.old.items + length piece.now ≤ ROOM }
    ensures { gathered.new.items ≡ gathered.old.items ++ piece.now }
{
    gathered.try_extend_from_slice(piece).unwrap();
}

/// Writes the buffered bytes.
pub(crate) fn give<K: ByteSink>(
    sink: &mut K,
    gathered: &mut ArrayVec<u8, ROOM>,
) -> Result<(), Failed>
    ensures ok { OnOk result (Puts (sink_state (K.held sink.old) (K.taken sink.old))
        (sink_state (K.held sink.new) (K.taken sink.new)) gathered.old.items) }
    ensures empty { OnOk result (gathered.new.items ≡ []) }
    ensures err { OnErr result (PutsFront (sink_state (K.held sink.old) (K.taken sink.old))
        (sink_state (K.held sink.new) (K.taken sink.new)) gathered.old.items) }
    ensures settled { K.settled sink.old ≤ K.settled sink.new }
    ensures cause { CountsFault (K.faults sink.old) (K.faults sink.new) (is_err result) }
{
    write(sink, gathered.as_slice())?;
    gathered.clear();
    Ok(())
}

/// Buffers the piece; if it doesn't fit, the buffered bytes are written first.
pub(crate) fn add<K: ByteSink>(
    sink: &mut K,
    gathered: &mut ArrayVec<u8, ROOM>,
    piece: &[u8],
) -> Result<(), Failed>
    ensures ok { OnOk result (Gathers (sink_state (K.held sink.old) (K.taken sink.old))
        (sink_state (K.held sink.new) (K.taken sink.new)) gathered.old.items gathered.new.items piece.now) }
    ensures err { OnErr result (PutsFront (sink_state (K.held sink.old) (K.taken sink.old))
        (sink_state (K.held sink.new) (K.taken sink.new)) (gathered.old.items ++ piece.now)) }
    ensures settled { K.settled sink.old ≤ K.settled sink.new }
    ensures cause { CountsFault (K.faults sink.old) (K.faults sink.new) (is_err result) }
{
    if piece.len() <= ROOM - gathered.as_slice().len() {
        append(gathered, piece);
        return Ok(());
    }
    give(sink, gathered)?;
    if ROOM < piece.len() {
        write(sink, piece)?;
        return Ok(());
    }
    append(gathered, piece);
    Ok(())
}
