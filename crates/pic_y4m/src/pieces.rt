//! Writes samples as bytes, piece by piece.

ghost use Rattle.std.specs.Prelude.{◌≡◌, ◌*◌, ◌≤◌, ◌<◌, OnOk, OnErr, is_err, length};
ghost use Rattle.std.specs.List.{All};
ghost use Rattle.pw_outside.specs.Ports.{CountsFault};
ghost use Rattle.pw_outside.specs.Writing.{sink_state, Puts, PutsPart};
ghost use Rattle.pic_y4m.specs.declared.samples.SampleSize.TheVariants.{Byte, Pair};
ghost use Rattle.pic_y4m.specs.Samples.{plane_bytes, Fit};

use crate::samples::SampleSize;
use pw_outside::{ByteSink, Failed, put_all};

/// The number of samples per piece.
const PIECE: usize = 4096;

/// Fills `bytes` with one-byte samples.
fn pack_bytes(bytes: &mut [u8], samples: &[u16])
    requires below { All (λ s. s < 256) samples.now }
    requires len { length bytes.old ≡ length samples.now }
    ensures { bytes.new ≡ plane_bytes Byte samples.now }
{
    for k in 0..samples.len() {
        bytes[k] = samples[k] as u8;
    }
}

/// Fills `bytes` with two-byte little-endian samples.
fn pack_pairs(bytes: &mut [u8], samples: &[u16])
    requires { length bytes.old ≡ 2 * length samples.now }
    ensures { bytes.new ≡ plane_bytes Pair samples.now }
{
    for k in 0..samples.len() {
        bytes[2 * k] = (samples[k] % 256) as u8;
        bytes[2 * k + 1] = (samples[k] / 256) as u8;
    }
}

/// Writes a piece of samples.
fn put_piece<K: ByteSink>(sink: &mut K, size: SampleSize, samples: &[u16]) -> Result<(), Failed>
    requires few { length samples.now ≤ PIECE }
    requires fit { Fit size samples.now }
    ensures ok { OnOk result (Puts (sink_state (K.held sink.old) (K.taken sink.old)) (sink_state (K.held sink.new) (K.taken sink.new)) (plane_bytes size samples.now)) }
    ensures err { OnErr result (PutsPart (sink_state (K.held sink.old) (K.taken sink.old)) (sink_state (K.held sink.new) (K.taken sink.new)) (plane_bytes size samples.now)) }
    ensures settled { K.settled sink.old ≤ K.settled sink.new }
    ensures cause { CountsFault (K.faults sink.old) (K.faults sink.new) (is_err result) }
{
    let mut bytes = [0u8; 2 * PIECE];
    let bytes = &mut bytes[..samples.len() * size.bytes()];
    match size {
        SampleSize::Byte => pack_bytes(bytes, samples),
        SampleSize::Pair => pack_pairs(bytes, samples),
    }
    put_all(sink, bytes)
}

/// Writes samples piece by piece. Takes no memory.
///
/// The error is a failed call of the sink, after which the output is a prefix of the bytes.
pub fn put_samples<K: ByteSink>(
    sink: &mut K,
    size: SampleSize,
    samples: &[u16],
) -> Result<(), Failed>
    // One-byte samples are below 256.
    requires { Fit size samples.now }
    ensures ok { OnOk result (Puts (sink_state (K.held sink.old) (K.taken sink.old)) (sink_state (K.held sink.new) (K.taken sink.new)) (plane_bytes size samples.now)) }
    ensures err { OnErr result (PutsPart (sink_state (K.held sink.old) (K.taken sink.old)) (sink_state (K.held sink.new) (K.taken sink.new)) (plane_bytes size samples.now)) }
    ensures settled { K.settled sink.old ≤ K.settled sink.new }
    // An error is returned exactly if a call of the sink failed.
    ensures cause { CountsFault (K.faults sink.old) (K.faults sink.new) (is_err result) }
{
    let mut at = 0;
    while at < samples.len() {
        let count = PIECE.min(samples.len() - at);
        put_piece(sink, size, &samples[at..at + count])?;
        at += count;
    }
    Ok(())
}
