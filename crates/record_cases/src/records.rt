//! Records, and changes of one thing in them.

use crate::numbers::Numbers;
use rate_cert::Verdict;
use rate_layers::{Outcome, best};
use rate_table::{FrameTable, Pair};
use std::alloc::Global;

/// What is said of a table's best choice.
pub(crate) fn verdict_of(alloc: Global, table: &FrameTable) -> Option<Verdict> {
    match best(alloc, table).ok()? {
        Outcome::Fits {
            choice,
            size,
            error,
            layers,
            multiplier,
        } => Some(Verdict::Fits {
            choice,
            size: u32::try_from(size).ok()?,
            error,
            multiplier,
            layers,
        }),
        Outcome::None { least } => Some(Verdict::None { least }),
    }
}

fn small(number: u64) -> u32 {
    u32::try_from(number).unwrap_or(u32::MAX)
}

/// Another index, one fewer or one more.
fn change_choice(numbers: &mut Numbers, choice: &mut Vec<u8>) {
    if choice.is_empty() {
        return;
    }
    let i = numbers.place(choice.len());
    match numbers.below(6) {
        0 => {
            choice.remove(i);
        }
        _ => choice[i] = numbers.below(6) as u8,
    }
}

/// Another number in a pair, one pair fewer or one twice, or two exchanged.
fn change_layer(numbers: &mut Numbers, layer: &mut Vec<Pair>) {
    if layer.is_empty() {
        return;
    }
    let (i, j) = (numbers.place(layer.len()), numbers.place(layer.len()));
    match numbers.below(5) {
        0 => layer[i].size = small(numbers.beside(u64::from(layer[i].size))),
        1 => layer[i].error = numbers.beside(layer[i].error),
        2 => layer.swap(i, j),
        3 => {
            layer.remove(i);
        }
        _ => {
            let again = layer[i];
            if layer.push(again).is_err() {
                return;
            }
        }
    }
}

/// Another layer, or one fewer.
fn change_layers(numbers: &mut Numbers, layers: &mut Vec<Vec<Pair>>) {
    if layers.is_empty() {
        return;
    }
    let k = numbers.place(layers.len());
    if numbers.below(8) == 0 {
        layers.remove(k);
    } else {
        change_layer(numbers, &mut layers[k]);
    }
}

/// Changes one thing of what is said.
pub(crate) fn change_verdict(numbers: &mut Numbers, verdict: &mut Verdict) {
    match verdict {
        Verdict::Fits {
            choice,
            size,
            error,
            multiplier,
            layers,
        } => match numbers.below(8) {
            0 => change_choice(numbers, choice),
            1 => *size = small(numbers.beside(u64::from(*size))),
            2 => *error = numbers.beside(*error),
            3 => *multiplier = numbers.beside(*multiplier),
            _ => change_layers(numbers, layers),
        },
        Verdict::None { least } => *least = numbers.beside(*least),
    }
}
