//! A plain program for the clauses of a record, slow and without cleverness, and comparisons with a trial of all choices of
//! a table. Sums that pass their type don't come up in small tables; they stay at its end.

use rate_cert::{FrameProof, Settings, Verdict};
use rate_table::{Entry, FrameTable, Pair, SliceTable, SmallOutcome, best_small};
use std::alloc::Global;

/// What is said of a table of which a choice fits.
#[derive(Clone, Copy)]
struct Fit<'a> {
    choice: &'a [u8],
    size: u32,
    error: u64,
    multiplier: u64,
    layers: &'a [Vec<Pair>],
}

/// A size and an error together.
#[derive(Clone, Copy)]
struct Sums {
    size: u128,
    error: u128,
}

impl Sums {
    fn with(self, size: u128, error: u128) -> Sums {
        Sums {
            size: self.size.saturating_add(size),
            error: self.error.saturating_add(error),
        }
    }

    fn with_entry(self, entry: &Entry) -> Sums {
        self.with(u128::from(entry.size), u128::from(entry.error))
    }
}

const NOTHING: Sums = Sums { size: 0, error: 0 };

/// The entry with this index.
fn entry_at(slice: &SliceTable, index: u8) -> Option<Entry> {
    for entry in slice.entries() {
        if entry.index == index {
            return Some(*entry);
        }
    }
    None
}

/// The least error of these entries where each byte counts for so much, or the least size where errors don't count.
fn least_of(slice: &SliceTable, multiplier: u64, errors: bool) -> u128 {
    let mut least = u128::MAX;
    for entry in slice.entries() {
        let error = if errors { u128::from(entry.error) } else { 0 };
        let bytes = u128::from(multiplier) * u128::from(entry.size);
        least = least.min(error.saturating_add(bytes));
    }
    least
}

fn least_together(slices: &[SliceTable], multiplier: u64, errors: bool) -> u128 {
    let mut sum: u128 = 0;
    for slice in slices {
        sum = sum.saturating_add(least_of(slice, multiplier, errors));
    }
    sum
}

/// Whether sums and the fixed bytes are within the budget.
fn fits(table: &FrameTable, sums: Sums) -> bool {
    sums.size.saturating_add(u128::from(table.fixed)) <= u128::from(table.budget)
}

/// Whether a slice has one entry for each index of the settings, and no other.
fn has_indices(settings: &Settings, slice: &SliceTable) -> bool {
    for index in settings.lo..=settings.hi {
        if entry_at(slice, index).is_none() {
            return false;
        }
    }
    slice.entries().len() + usize::from(settings.lo) == usize::from(settings.hi) + 1
}

/// Whether the table is one of these settings, whose frames have so many slices.
fn is_table(settings: &Settings, slices: usize, table: &FrameTable) -> bool {
    for slice in table.slices.as_slice() {
        if !has_indices(settings, slice) {
            return false;
        }
    }
    let group = u64::from(settings.group);
    u64::from(table.budget) == group * u64::from(settings.budget)
        && table.slices.as_slice().len() == usize::from(settings.group).saturating_mul(slices)
}

/// The sums of the choice with these indices.
fn sums_of(table: &FrameTable, choice: &[u8]) -> Option<Sums> {
    let mut sums = NOTHING;
    for (slice, index) in table.slices.as_slice().iter().zip(choice) {
        sums = sums.with_entry(&entry_at(slice, *index)?);
    }
    Some(sums)
}

/// Whether sizes rise and errors fall.
fn is_in_order(layer: &[Pair]) -> bool {
    for i in 1..layer.len() {
        let (p, q) = (layer[i - 1], layer[i]);
        if q.size <= p.size || p.error <= q.error {
            return false;
        }
    }
    true
}

fn are_in_order(layers: &[Vec<Pair>]) -> bool {
    for layer in layers {
        if !is_in_order(layer) {
            return false;
        }
    }
    true
}

/// Whether a pair of the next layer dominates these sums.
fn is_dominated(next: &[Pair], sums: Sums) -> bool {
    for q in next {
        if u128::from(q.size) <= sums.size && u128::from(q.error) <= sums.error {
            return true;
        }
    }
    false
}

/// Whether the bound of these sums passes the printed error.
fn passes(table: &FrameTable, fit: Fit, later: &[SliceTable], sums: Sums) -> bool {
    let byte = u128::from(fit.multiplier);
    let bytes = sums
        .size
        .saturating_add(u128::from(table.fixed))
        .saturating_mul(byte);
    let rest = least_together(later, fit.multiplier, true);
    let bound = sums.error.saturating_add(rest).saturating_add(bytes);
    bound > u128::from(fit.error).saturating_add(byte * u128::from(table.budget))
}

/// Whether a pair joined with each entry of a slice is dominated, can't fit, or passes.
fn pair_steps(table: &FrameTable, fit: Fit, k: usize, p: &Pair, slice: &SliceTable) -> bool {
    let later = table
        .slices
        .as_slice()
        .get(k.saturating_add(1)..)
        .unwrap_or(&[]);
    let Some(next) = fit.layers.get(k.saturating_add(1)) else {
        return true;
    };
    let sizes = least_together(later, 1, false);
    for entry in slice.entries() {
        let sums = NOTHING
            .with(u128::from(p.size), u128::from(p.error))
            .with_entry(entry);
        if !is_dominated(next, sums)
            && fits(table, sums.with(sizes, 0))
            && !passes(table, fit, later, sums)
        {
            return false;
        }
    }
    true
}

fn layer_steps(table: &FrameTable, fit: Fit, k: usize, slice: &SliceTable) -> bool {
    let Some(layer) = fit.layers.get(k) else {
        return true;
    };
    for p in layer {
        if !pair_steps(table, fit, k, p, slice) {
            return false;
        }
    }
    true
}

fn all_step(table: &FrameTable, fit: Fit) -> bool {
    let slices = table.slices.as_slice();
    for k in 0..slices.len() {
        if !layer_steps(table, fit, k, &slices[k]) {
            return false;
        }
    }
    true
}

fn ends_above(fit: Fit) -> bool {
    let Some(last) = fit.layers.last() else {
        return false;
    };
    for p in last {
        if p.error < fit.error {
            return false;
        }
    }
    true
}

/// The first clause that what is said of a fitting choice fails, or 0.
fn failing_fit(table: &FrameTable, fit: Fit) -> u8 {
    let slices = table.slices.as_slice().len();
    if fit.choice.len() != slices || fit.layers.len() != slices + 1 {
        return 1;
    }
    let Some(sums) = sums_of(table, fit.choice) else {
        return 3;
    };
    let is_printed = sums.size == u128::from(fit.size) && sums.error == u128::from(fit.error);
    if !is_printed || !fits(table, sums) {
        return 4;
    }
    let first = &fit.layers[0];
    if first.len() != 1 || first[0].size != 0 || first[0].error != 0 {
        return 5;
    }
    if !are_in_order(fit.layers) {
        return 6;
    }
    if !all_step(table, fit) {
        return 7;
    }
    if ends_above(fit) { 0 } else { 8 }
}

/// The first clause that the record fails, by settings whose frames have so many slices; 0 if it is good.
pub(crate) fn failing(settings: &Settings, slices: usize, proof: &FrameProof) -> u8 {
    let table = &proof.table;
    if !is_table(settings, slices, table) {
        return 1;
    }
    match &proof.verdict {
        Verdict::Fits {
            choice,
            size,
            error,
            multiplier,
            layers,
        } => failing_fit(
            table,
            Fit {
                choice,
                size: *size,
                error: *error,
                multiplier: *multiplier,
                layers,
            },
        ),
        Verdict::None { least } => {
            let sizes = NOTHING.with(least_together(table.slices.as_slice(), 1, false), 0);
            let bytes = sizes.size.saturating_add(u128::from(table.fixed));
            if !fits(table, sizes) && bytes == u128::from(*least) {
                0
            } else {
                2
            }
        }
    }
}

/// Whether what is said of a table is true: the printed error is that of the best choice, or none fits. All choices are tried.
pub(crate) fn is_true(alloc: Global, proof: &FrameProof) -> bool {
    let Ok(tried) = best_small(alloc, &proof.table) else {
        return false;
    };
    match (&tried, &proof.verdict) {
        (SmallOutcome::Fits { error: least, .. }, Verdict::Fits { error, .. }) => error == least,
        (SmallOutcome::None { .. }, Verdict::None { .. }) => true,
        _ => false,
    }
}

/// Whether the choice that is printed of a table is the best one. All choices are tried.
pub(crate) fn is_best(alloc: Global, proof: &FrameProof) -> bool {
    let Ok(tried) = best_small(alloc, &proof.table) else {
        return false;
    };
    match (&tried, &proof.verdict) {
        (SmallOutcome::Fits { choice: best, .. }, Verdict::Fits { choice, .. }) => choice == best,
        (SmallOutcome::None { .. }, Verdict::None { .. }) => true,
        _ => false,
    }
}
