//! Copying bytes of a store to a sink.

ghost use Rattle.std.specs.Prelude.{◌≡◌, ◌+◌, ◌<◌, ◌≤◌, ◌^◌, length, OnOk, OnErr, IsSome, false};
ghost use Rattle.pw_outside.specs.Ports.{CountsFault};
ghost use Rattle.pw_outside.specs.Reading.{Told};
ghost use Rattle.pw_outside.specs.Writing.{sink_state};
ghost use Rattle.pcm_track.specs.Writing.{Copied, CopiedFront, told_from};
ghost use Rattle.pcm_track.specs.inner.Stops.{is_stopped_by_store, is_stopped_by_sink, is_short};

use pw_outside::{ByteSink, ByteStore, fill_at, put_all};

/// Why copying stopped.
#[derive(Clone, Copy, Debug, PartialEq, Eq)]
pub(crate) enum Stop {
    /// A call of the store failed.
    Store,
    /// A call of the sink failed.
    Sink,
    /// The store has fewer bytes than its reported length.
    Short,
}

/// Copies bytes of a store from offset `place` on, as many as the piece holds.
#[tactic(auto, using(crate::proofs::Pieces::front_none))]
fn copy_some<M: ByteStore, K: ByteSink>(
    store: &mut M,
    place: u64,
    sink: &mut K,
    piece: &mut [u8],
) -> Result<(), Stop>
    requires room { place + length piece.old < 2 ^ 64 }
    requires inside { Told (M.bytes store.old) (λ file. place + length piece.old ≤ length file) }
    ensures ok { OnOk result (Copied (told_from place (M.bytes store.old)) (length piece.old) (sink_state (K.held sink.old) (K.taken sink.old)) (sink_state (K.held sink.new) (K.taken sink.new))) }
    ensures err { OnErr result (CopiedFront (told_from place (M.bytes store.old)) (length piece.old) (sink_state (K.held sink.old) (K.taken sink.old)) (sink_state (K.held sink.new) (K.taken sink.new))) }
    ensures whole { IsSome (M.bytes store.old) → is_short result ≡ false }
    ensures length { length piece.new ≡ length piece.old }
    ensures bytes { M.bytes store.new ≡ M.bytes store.old }
    ensures settled { K.settled sink.old ≤ K.settled sink.new }
    ensures read { CountsFault (M.faults store.old) (M.faults store.new) (is_stopped_by_store result) }
    ensures write { CountsFault (K.faults sink.old) (K.faults sink.new) (is_stopped_by_sink result) }
{
    let given = match fill_at(store, place, piece) {
        Ok(given) => given,
        Err(_) => return Err(Stop::Store),
    };
    if given < piece.len() {
        return Err(Stop::Short);
    }
    match put_all(sink, piece) {
        Ok(()) => Ok(()),
        Err(_) => Err(Stop::Sink),
    }
}

/// Copies `count` bytes of a store from offset `place` on, a piece at a time.
pub(crate) fn copy_stored<M: ByteStore, K: ByteSink>(
    store: &mut M,
    place: u64,
    size: u64,
    sink: &mut K,
    piece: &mut [u8],
) -> Result<(), Stop>
    requires some { 1 ≤ length piece.old }
    requires room { place + size < 2 ^ 64 }
    requires inside { Told (M.bytes store.old) (λ file. place + size ≤ length file) }
    ensures ok { OnOk result (Copied (told_from place (M.bytes store.old)) size (sink_state (K.held sink.old) (K.taken sink.old)) (sink_state (K.held sink.new) (K.taken sink.new))) }
    ensures err { OnErr result (CopiedFront (told_from place (M.bytes store.old)) size (sink_state (K.held sink.old) (K.taken sink.old)) (sink_state (K.held sink.new) (K.taken sink.new))) }
    ensures whole { IsSome (M.bytes store.old) → is_short result ≡ false }
    ensures length { length piece.new ≡ length piece.old }
    ensures bytes { M.bytes store.new ≡ M.bytes store.old }
    ensures settled { K.settled sink.old ≤ K.settled sink.new }
    ensures read { CountsFault (M.faults store.old) (M.faults store.new) (is_stopped_by_store result) }
    ensures write { CountsFault (K.faults sink.old) (K.faults sink.new) (is_stopped_by_sink result) }
{
    let mut done = 0;
    while done < size {
        let count = (size - done).min(piece.len() as u64);
        copy_some(store, place + done, sink, &mut piece[..count as usize])?;
        done += count;
    }
    Ok(())
}
