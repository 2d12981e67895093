//! Writes the layers of a record. Takes no memory.

ghost use Rattle.std.specs.Prelude.{◌≡◌, ◌+◌, ◌-◌, ◌<◌, ◌≤◌, ◌++◌, ◌∷◌, OnOk, OnErr, is_err, length, map};
ghost use Rattle.std.specs.List.{All, flat_map, sum_by};
ghost use Rattle.pw_outside.specs.Ports.{CountsFault};
ghost use Rattle.pw_outside.specs.Writing.{sink_state, PutsFront};
ghost use Rattle.rate_table.specs.Pairs.{RisesAndFalls};
ghost use Rattle.rate_cert.specs.inner.Gathered.{Gathers};
ghost use Rattle.rate_cert.specs.Files.{IsFormat};
ghost use Rattle.rate_cert.specs.Numbers.{number_bytes};
ghost use Rattle.rate_cert.specs.Layers.{most_pairs, pair_bytes, wide_bytes, steps_bytes, close_pairs_bytes, close_bytes, layer_bytes};

use crate::gather::{ROOM, add};
use arrayvec::ArrayVec;
use pw_outside::{ByteSink, Failed};
use rate_table::Pair;

/// Appends a LEB128 number.
fn push_number(bytes: &mut ArrayVec<u8, 20>, number: u64)
    requires { length bytes.old.items ≤ 10 }
    ensures bytes { bytes.new.items ≡ bytes.old.items ++ number_bytes number }
    ensures few { length bytes.new.items ≤ length bytes.old.items + 10 }
{
    let mut left = number;
    for _ in 0..9u8 {
        if left < 128 {
            bytes.push(left as u8);
            return;
        }
        bytes.push(128 + (left % 128) as u8);
        left /= 128;
    }
    bytes.push(left as u8);
}

/// The bytes of a LEB128 number.
fn bytes_of_number(number: u64) -> ArrayVec<u8, 20>
    ensures { result.items ≡ number_bytes number }
{
    let mut bytes = ArrayVec::new();
    push_number(&mut bytes, number);
    bytes
}

/// The bytes of the first pair of a layer in format 2.
fn bytes_of_first(pair: Pair) -> ArrayVec<u8, 20>
    ensures { result.items ≡ number_bytes pair.size ++ number_bytes pair.error }
{
    let mut bytes = ArrayVec::new();
    push_number(&mut bytes, u64::from(pair.size));
    push_number(&mut bytes, pair.error);
    bytes
}

/// The bytes of the pair after another in format 2.
fn bytes_of_step(before: Pair, pair: Pair) -> ArrayVec<u8, 20>
    requires rises { before.size < pair.size }
    requires falls { pair.error < before.error }
    ensures { result.items ≡ number_bytes (pair.size - (before.size + 1)) ++ number_bytes
        (before.error - (pair.error + 1)) }
{
    let mut bytes = ArrayVec::new();
    push_number(&mut bytes, u64::from(pair.size - (before.size + 1)));
    push_number(&mut bytes, before.error - (pair.error + 1));
    bytes
}

/// The bytes of a pair in format 1.
#[tactic(auto, unfolding(crate::specs::Layers::pair_bytes))]
fn bytes_of_pair(pair: Pair) -> [u8; 12]
    ensures { result ≡ pair_bytes pair }
{
    let size = pair.size.to_be_bytes();
    let error = pair.error.to_be_bytes();
    [
        size[0], size[1], size[2], size[3], error[0], error[1], error[2], error[3], error[4],
        error[5], error[6], error[7],
    ]
}

/// Writes pairs in format 1.
fn add_pairs<K: ByteSink>(
    sink: &mut K,
    gathered: &mut ArrayVec<u8, ROOM>,
    pairs: &[Pair],
) -> Result<(), Failed>
    ensures ok { OnOk result (Gathers (sink_state (K.held sink.old) (K.taken sink.old))
        (sink_state (K.held sink.new) (K.taken sink.new)) gathered.old.items gathered.new.items
        (flat_map pair_bytes pairs.now)) }
    ensures err { OnErr result (PutsFront (sink_state (K.held sink.old) (K.taken sink.old))
        (sink_state (K.held sink.new) (K.taken sink.new)) (gathered.old.items ++ flat_map pair_bytes pairs.now)) }
    ensures settled { K.settled sink.old ≤ K.settled sink.new }
    ensures cause { CountsFault (K.faults sink.old) (K.faults sink.new) (is_err result) }
{
    for pair in pairs {
        add(sink, gathered, &bytes_of_pair(*pair))?;
    }
    Ok(())
}

/// Writes the pairs after one in format 2.
fn add_steps<K: ByteSink>(
    sink: &mut K,
    gathered: &mut ArrayVec<u8, ROOM>,
    first: Pair,
    pairs: &[Pair],
) -> Result<(), Failed>
    requires { RisesAndFalls (first ∷ pairs.now) }
    ensures ok { OnOk result (Gathers (sink_state (K.held sink.old) (K.taken sink.old))
        (sink_state (K.held sink.new) (K.taken sink.new)) gathered.old.items gathered.new.items
        (steps_bytes first pairs.now)) }
    ensures err { OnErr result (PutsFront (sink_state (K.held sink.old) (K.taken sink.old))
        (sink_state (K.held sink.new) (K.taken sink.new)) (gathered.old.items ++ steps_bytes first pairs.now)) }
    ensures settled { K.settled sink.old ≤ K.settled sink.new }
    ensures cause { CountsFault (K.faults sink.old) (K.faults sink.new) (is_err result) }
{
    let mut before = first;
    for pair in pairs {
        add(sink, gathered, bytes_of_step(before, *pair).as_slice())?;
        before = *pair;
    }
    Ok(())
}

/// Writes the pairs of a layer in format 2.
fn add_close_pairs<K: ByteSink>(
    sink: &mut K,
    gathered: &mut ArrayVec<u8, ROOM>,
    layer: &[Pair],
) -> Result<(), Failed>
    requires { RisesAndFalls layer.now }
    ensures ok { OnOk result (Gathers (sink_state (K.held sink.old) (K.taken sink.old))
        (sink_state (K.held sink.new) (K.taken sink.new)) gathered.old.items gathered.new.items
        (close_pairs_bytes layer.now)) }
    ensures err { OnErr result (PutsFront (sink_state (K.held sink.old) (K.taken sink.old))
        (sink_state (K.held sink.new) (K.taken sink.new)) (gathered.old.items ++ close_pairs_bytes layer.now)) }
    ensures settled { K.settled sink.old ≤ K.settled sink.new }
    ensures cause { CountsFault (K.faults sink.old) (K.faults sink.new) (is_err result) }
{
    match layer.split_first() {
        Some((first, others)) => {
            add(sink, gathered, bytes_of_first(*first).as_slice())?;
            add_steps(sink, gathered, *first, others)?;
            Ok(())
        }
        None => Ok(()),
    }
}

/// Writes a layer in format 1.
fn add_wide<K: ByteSink>(
    sink: &mut K,
    gathered: &mut ArrayVec<u8, ROOM>,
    layer: &[Pair],
) -> Result<(), Failed>
    requires { length layer.now ≤ most_pairs }
    ensures ok { OnOk result (Gathers (sink_state (K.held sink.old) (K.taken sink.old))
        (sink_state (K.held sink.new) (K.taken sink.new)) gathered.old.items gathered.new.items
        (wide_bytes layer.now)) }
    ensures err { OnErr result (PutsFront (sink_state (K.held sink.old) (K.taken sink.old))
        (sink_state (K.held sink.new) (K.taken sink.new)) (gathered.old.items ++ wide_bytes layer.now)) }
    ensures settled { K.settled sink.old ≤ K.settled sink.new }
    ensures cause { CountsFault (K.faults sink.old) (K.faults sink.new) (is_err result) }
{
    let count = layer.len() as u32;
    add(sink, gathered, &count.to_be_bytes())?;
    add_pairs(sink, gathered, layer)?;
    Ok(())
}

/// Writes a layer in format 2.
fn add_close<K: ByteSink>(
    sink: &mut K,
    gathered: &mut ArrayVec<u8, ROOM>,
    layer: &[Pair],
) -> Result<(), Failed>
    requires { RisesAndFalls layer.now }
    ensures ok { OnOk result (Gathers (sink_state (K.held sink.old) (K.taken sink.old))
        (sink_state (K.held sink.new) (K.taken sink.new)) gathered.old.items gathered.new.items
        (close_bytes layer.now)) }
    ensures err { OnErr result (PutsFront (sink_state (K.held sink.old) (K.taken sink.old))
        (sink_state (K.held sink.new) (K.taken sink.new)) (gathered.old.items ++ close_bytes layer.now)) }
    ensures settled { K.settled sink.old ≤ K.settled sink.new }
    ensures cause { CountsFault (K.faults sink.old) (K.faults sink.new) (is_err result) }
{
    let count = layer.len() as u64;
    add(sink, gathered, bytes_of_number(count).as_slice())?;
    add_close_pairs(sink, gathered, layer)?;
    Ok(())
}

/// Writes a layer in either format.
#[tactic(auto, unfolding(crate::specs::Layers::layer_bytes))]
fn add_layer<K: ByteSink>(
    sink: &mut K,
    gathered: &mut ArrayVec<u8, ROOM>,
    format: u8,
    layer: &[Pair],
) -> Result<(), Failed>
    requires few { length layer.now ≤ most_pairs }
    requires format { IsFormat format }
    requires order { format ≡ 2 → RisesAndFalls layer.now }
    ensures ok { OnOk result (Gathers (sink_state (K.held sink.old) (K.taken sink.old))
        (sink_state (K.held sink.new) (K.taken sink.new)) gathered.old.items gathered.new.items
        (layer_bytes format layer.now)) }
    ensures err { OnErr result (PutsFront (sink_state (K.held sink.old) (K.taken sink.old))
        (sink_state (K.held sink.new) (K.taken sink.new)) (gathered.old.items ++ layer_bytes format layer.now)) }
    ensures settled { K.settled sink.old ≤ K.settled sink.new }
    ensures cause { CountsFault (K.faults sink.old) (K.faults sink.new) (is_err result) }
{
    if format == 1 {
        add_wide(sink, gathered, layer)
    } else {
        add_close(sink, gathered, layer)
    }
}

/// Writes layers in either format.
pub(crate) fn add_layers<K: ByteSink>(
    sink: &mut K,
    gathered: &mut ArrayVec<u8, ROOM>,
    format: u8,
    layers: &[Vec<Pair>],
) -> Result<(), Failed>
    requires format { IsFormat format }
    requires few { sum_by length (map (λ l. l.items) layers.now) ≤ most_pairs }
    requires order { format ≡ 2 → All RisesAndFalls (map (λ l. l.items) layers.now) }
    ensures ok { OnOk result (Gathers (sink_state (K.held sink.old) (K.taken sink.old))
        (sink_state (K.held sink.new) (K.taken sink.new)) gathered.old.items gathered.new.items
        (flat_map (layer_bytes format) (map (λ l. l.items) layers.now))) }
    ensures err { OnErr result (PutsFront (sink_state (K.held sink.old) (K.taken sink.old))
        (sink_state (K.held sink.new) (K.taken sink.new)) (gathered.old.items ++ flat_map (layer_bytes format)
        (map (λ l. l.items) layers.now))) }
    ensures settled { K.settled sink.old ≤ K.settled sink.new }
    ensures cause { CountsFault (K.faults sink.old) (K.faults sink.new) (is_err result) }
{
    for layer in layers {
        add_layer(sink, gathered, format, layer.as_slice())?;
    }
    Ok(())
}
