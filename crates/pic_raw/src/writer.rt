//! Writes raw planar pictures in order.

ghost use Rattle.std.specs.Prelude.{◌≡◌, ◌≤◌, OnOk, OnErr, is_err};
ghost use Rattle.pw_outside.specs.Ports.{CountsFault};
ghost use Rattle.pw_outside.specs.Writing.{sink_state, Puts, PutsPart};
ghost use Rattle.pic_y4m.specs.Writing.{Writes, write_failed};
ghost use Rattle.pic_raw.specs.Writing.{alpha_bytes, raw_bytes};

use pic_y4m::{SampleSize, WriteEnd, put_samples};
use pw_outside::{ByteSink, Failed};
use pw_planes::{Picture, Plane};

/// Writes the alpha plane, if there is one.
fn put_alpha<K: ByteSink>(sink: &mut K, alpha: &Option<Plane>) -> Result<(), Failed>
    ensures ok { OnOk result (Puts (sink_state (K.held sink.old) (K.taken sink.old)) (sink_state (K.held sink.new) (K.taken sink.new)) (alpha_bytes alpha.now)) }
    ensures err { OnErr result (PutsPart (sink_state (K.held sink.old) (K.taken sink.old)) (sink_state (K.held sink.new) (K.taken sink.new)) (alpha_bytes alpha.now)) }
    ensures settled { K.settled sink.old ≤ K.settled sink.new }
    ensures cause { CountsFault (K.faults sink.old) (K.faults sink.new) (is_err result) }
{
    match alpha {
        Some(plane) => put_samples(sink, SampleSize::Pair, plane.samples()),
        None => Ok(()),
    }
}

/// Writes the planes of a picture.
fn put_picture<K: ByteSink>(sink: &mut K, picture: &Picture) -> Result<(), Failed>
    ensures ok { OnOk result (Puts (sink_state (K.held sink.old) (K.taken sink.old)) (sink_state (K.held sink.new) (K.taken sink.new)) (raw_bytes picture.now)) }
    ensures err { OnErr result (PutsPart (sink_state (K.held sink.old) (K.taken sink.old)) (sink_state (K.held sink.new) (K.taken sink.new)) (raw_bytes picture.now)) }
    ensures settled { K.settled sink.old ≤ K.settled sink.new }
    ensures cause { CountsFault (K.faults sink.old) (K.faults sink.new) (is_err result) }
{
    put_samples(sink, SampleSize::Pair, picture.y.samples())?;
    put_samples(sink, SampleSize::Pair, picture.cb.samples())?;
    put_samples(sink, SampleSize::Pair, picture.cr.samples())?;
    put_alpha(sink, &picture.alpha)
}

/// Writes raw planar pictures in order.
#[derive(Clone, Copy, Debug, PartialEq, Eq)]
pub struct RawWriter;

impl RawWriter {
    /// A writer that has written nothing.
    pub fn new() -> RawWriter {
        RawWriter
    }

    /// Writes a picture, with its alpha if it has any. Takes no memory.
    ///
    /// The error is `Failed` if a call of the sink failed.
    pub fn picture<K: ByteSink>(&mut self, sink: &mut K, picture: &Picture) -> Result<(), WriteEnd>
        // The planes are appended: all of them, or after `Failed` a prefix.
        ensures bytes { Writes result (sink_state (K.held sink.old) (K.taken sink.old)) (sink_state (K.held sink.new) (K.taken sink.new)) (raw_bytes picture.now) }
        ensures settled { K.settled sink.old ≤ K.settled sink.new }
        // The only error is `Failed`, exactly if a call of the sink failed.
        ensures failed { write_failed result ≡ is_err result }
        ensures cause { CountsFault (K.faults sink.old) (K.faults sink.new) (write_failed result) }
    {
        match put_picture(sink, picture) {
            Ok(()) => Ok(()),
            Err(_) => Err(WriteEnd::Failed),
        }
    }
}
