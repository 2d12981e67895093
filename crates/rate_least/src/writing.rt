//! Writes certificates. Takes no memory.

ghost use Rattle.std.specs.Prelude.{◌≡◌, ◌++◌, ◌∷◌, ◌≤◌, OnOk, OnErr, is_err, length, map, codes};
ghost use Rattle.std.specs.Int.{w64, to_be_bytes};
ghost use Rattle.std.specs.List.{flat_map, sum_by};
ghost use Rattle.pw_outside.specs.Ports.{CountsFault};
ghost use Rattle.pw_outside.specs.Writing.{sink_state, Puts, PutsFront};
ghost use Rattle.rate_table.specs.Body.{body_bytes};
ghost use Rattle.rate_cert.specs.Layers.{most_pairs};
ghost use Rattle.rate_least.specs.Records.{said_by};
ghost use Rattle.rate_least.specs.Files.{pair_bytes, layer_bytes, sums_bytes, said_bytes, cert_bytes, CanBeSaid};

use crate::outcome::{LeastOutcome, WidePair};
use pw_outside::{ByteSink, Failed, put_all};
use rate_table::{FrameTable, write_body};

/// The bytes of a pair.
#[tactic(auto, unfolding(crate::specs::Files::pair_bytes))]
fn bytes_of_pair(pair: WidePair) -> [u8; 16]
    ensures { result ≡ pair_bytes pair }
{
    let size = pair.size.to_be_bytes();
    let error = pair.error.to_be_bytes();
    [
        size[0], size[1], size[2], size[3], size[4], size[5], size[6], size[7], error[0], error[1],
        error[2], error[3], error[4], error[5], error[6], error[7],
    ]
}

/// The bytes of a choice's size, error and multiplier.
fn bytes_of_sums(size: u64, error: u64, multiplier: u64) -> [u8; 24]
    ensures { result ≡ sums_bytes size error multiplier }
{
    let size = size.to_be_bytes();
    let error = error.to_be_bytes();
    let by = multiplier.to_be_bytes();
    [
        size[0], size[1], size[2], size[3], size[4], size[5], size[6], size[7], error[0], error[1],
        error[2], error[3], error[4], error[5], error[6], error[7], by[0], by[1], by[2], by[3],
        by[4], by[5], by[6], by[7],
    ]
}

/// The bytes before the table: the magic number, the version and the cap.
fn bytes_of_start(cap: u64) -> [u8; 13]
    ensures { result ≡ codes "PWLC" ++ (1 ∷ to_be_bytes w64 cap) }
{
    let cap = cap.to_be_bytes();
    [
        b'P', b'W', b'L', b'C', 1, cap[0], cap[1], cap[2], cap[3], cap[4], cap[5], cap[6], cap[7],
    ]
}

fn write_pairs<K: ByteSink>(pairs: &[WidePair], sink: &mut K) -> Result<(), Failed>
    ensures all { OnOk result (Puts (sink_state (K.held sink.old) (K.taken sink.old))
        (sink_state (K.held sink.new) (K.taken sink.new)) (flat_map pair_bytes pairs.now)) }
    ensures front { OnErr result (PutsFront (sink_state (K.held sink.old) (K.taken sink.old))
        (sink_state (K.held sink.new) (K.taken sink.new)) (flat_map pair_bytes pairs.now)) }
    ensures settled { K.settled sink.old ≤ K.settled sink.new }
    ensures cause { CountsFault (K.faults sink.old) (K.faults sink.new) (is_err result) }
{
    for pair in pairs {
        put_all(sink, &bytes_of_pair(*pair))?;
    }
    Ok(())
}

fn write_layer<K: ByteSink>(layer: &[WidePair], sink: &mut K) -> Result<(), Failed>
    requires { length layer.now ≤ most_pairs }
    ensures all { OnOk result (Puts (sink_state (K.held sink.old) (K.taken sink.old))
        (sink_state (K.held sink.new) (K.taken sink.new)) (layer_bytes layer.now)) }
    ensures front { OnErr result (PutsFront (sink_state (K.held sink.old) (K.taken sink.old))
        (sink_state (K.held sink.new) (K.taken sink.new)) (layer_bytes layer.now)) }
    ensures settled { K.settled sink.old ≤ K.settled sink.new }
    ensures cause { CountsFault (K.faults sink.old) (K.faults sink.new) (is_err result) }
{
    let count = layer.len() as u32;
    put_all(sink, &count.to_be_bytes())?;
    write_pairs(layer, sink)
}

fn write_layers<K: ByteSink>(layers: &[Vec<WidePair>], sink: &mut K) -> Result<(), Failed>
    requires { sum_by length (map (λ l. l.items) layers.now) ≤ most_pairs }
    ensures all { OnOk result (Puts (sink_state (K.held sink.old) (K.taken sink.old))
        (sink_state (K.held sink.new) (K.taken sink.new)) (flat_map layer_bytes (map (λ l. l.items) layers.now))) }
    ensures front { OnErr result (PutsFront (sink_state (K.held sink.old) (K.taken sink.old))
        (sink_state (K.held sink.new) (K.taken sink.new)) (flat_map layer_bytes (map (λ l. l.items) layers.now))) }
    ensures settled { K.settled sink.old ≤ K.settled sink.new }
    ensures cause { CountsFault (K.faults sink.old) (K.faults sink.new) (is_err result) }
{
    for layer in layers {
        write_layer(layer.as_slice(), sink)?;
    }
    Ok(())
}

/// Writes the part after the verdict if a choice meets the cap.
fn write_fit<K: ByteSink>(
    choice: &[u8],
    sums: &[u8; 24],
    layers: &[Vec<WidePair>],
    sink: &mut K,
) -> Result<(), Failed>
    requires { sum_by length (map (λ l. l.items) layers.now) ≤ most_pairs }
    ensures all { OnOk result (Puts (sink_state (K.held sink.old) (K.taken sink.old))
        (sink_state (K.held sink.new) (K.taken sink.new)) (1
        ∷ (choice.now ++ (sums.now ++ flat_map layer_bytes (map (λ l. l.items) layers.now))))) }
    ensures front { OnErr result (PutsFront (sink_state (K.held sink.old) (K.taken sink.old))
        (sink_state (K.held sink.new) (K.taken sink.new)) (1
        ∷ (choice.now ++ (sums.now ++ flat_map layer_bytes (map (λ l. l.items) layers.now))))) }
    ensures settled { K.settled sink.old ≤ K.settled sink.new }
    ensures cause { CountsFault (K.faults sink.old) (K.faults sink.new) (is_err result) }
{
    put_all(sink, &[1])?;
    put_all(sink, choice)?;
    put_all(sink, sums)?;
    write_layers(layers, sink)
}

/// Writes that no choice meets the cap, and the least error.
fn write_none<K: ByteSink>(least_error: u64, sink: &mut K) -> Result<(), Failed>
    ensures all { OnOk result (Puts (sink_state (K.held sink.old) (K.taken sink.old))
        (sink_state (K.held sink.new) (K.taken sink.new)) (0 ∷ to_be_bytes w64 least_error)) }
    ensures front { OnErr result (PutsFront (sink_state (K.held sink.old) (K.taken sink.old))
        (sink_state (K.held sink.new) (K.taken sink.new)) (0 ∷ to_be_bytes w64 least_error)) }
    ensures settled { K.settled sink.old ≤ K.settled sink.new }
    ensures cause { CountsFault (K.faults sink.old) (K.faults sink.new) (is_err result) }
{
    put_all(sink, &[0])?;
    put_all(sink, &least_error.to_be_bytes())
}

/// Writes the part after the table.
fn write_said<K: ByteSink>(
    table: &FrameTable,
    outcome: &LeastOutcome,
    sink: &mut K,
) -> Result<(), Failed>
    requires { CanBeSaid table.now (said_by outcome.now) }
    ensures all { OnOk result (Puts (sink_state (K.held sink.old) (K.taken sink.old))
        (sink_state (K.held sink.new) (K.taken sink.new)) (said_bytes (said_by outcome.now))) }
    ensures front { OnErr result (PutsFront (sink_state (K.held sink.old) (K.taken sink.old))
        (sink_state (K.held sink.new) (K.taken sink.new)) (said_bytes (said_by outcome.now))) }
    ensures settled { K.settled sink.old ≤ K.settled sink.new }
    ensures cause { CountsFault (K.faults sink.old) (K.faults sink.new) (is_err result) }
{
    let _table = table;
    match outcome {
        LeastOutcome::Fits {
            choice,
            size,
            error,
            layers,
            multiplier,
        } => {
            let sums = bytes_of_sums(*size, *error, *multiplier);
            write_fit(choice.as_slice(), &sums, layers.as_slice(), sink)
        }
        LeastOutcome::None { least_error } => write_none(*least_error, sink),
    }
}

/// Writes the magic number, the version, the cap and the table.
fn write_front<K: ByteSink>(table: &FrameTable, cap: u64, sink: &mut K) -> Result<(), Failed>
    ensures all { OnOk result (Puts (sink_state (K.held sink.old) (K.taken sink.old))
        (sink_state (K.held sink.new) (K.taken sink.new)) ((codes "PWLC" ++ (1 ∷ to_be_bytes w64 cap)) ++ body_bytes
        table.now)) }
    ensures front { OnErr result (PutsFront (sink_state (K.held sink.old) (K.taken sink.old))
        (sink_state (K.held sink.new) (K.taken sink.new)) ((codes "PWLC" ++ (1 ∷ to_be_bytes w64 cap)) ++ body_bytes
        table.now)) }
    ensures settled { K.settled sink.old ≤ K.settled sink.new }
    ensures cause { CountsFault (K.faults sink.old) (K.faults sink.new) (is_err result) }
{
    put_all(sink, &bytes_of_start(cap))?;
    write_body(table, sink)
}

/// Writes a certificate: the magic number `PWLC`, the version 1, the cap, the table, and the outcome for them. If a
/// choice meets the cap, there is one index for each slice, one layer more than slices, and at most 2^25 pairs.
/// Takes no memory.
///
/// The error is `Failed` if a call of the sink failed; the sink then has a prefix of the certificate.
pub fn write_least<K: ByteSink>(
    table: &FrameTable,
    cap: u64,
    outcome: &LeastOutcome,
    sink: &mut K,
) -> Result<(), Failed>
    requires { CanBeSaid table.now (said_by outcome.now) }
    // The sink takes the certificate, or a prefix of it if a call of the sink failed.
    ensures all { OnOk result (Puts (sink_state (K.held sink.old) (K.taken sink.old))
        (sink_state (K.held sink.new) (K.taken sink.new)) (cert_bytes
        (record { table = table.now; cap = cap; said = said_by outcome.now }))) }
    ensures front { OnErr result (PutsFront (sink_state (K.held sink.old) (K.taken sink.old))
        (sink_state (K.held sink.new) (K.taken sink.new)) (cert_bytes
        (record { table = table.now; cap = cap; said = said_by outcome.now }))) }
    ensures settled { K.settled sink.old ≤ K.settled sink.new }
    ensures cause { CountsFault (K.faults sink.old) (K.faults sink.new) (is_err result) }
{
    write_front(table, cap, sink)?;
    write_said(table, outcome, sink)
}
