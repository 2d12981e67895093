//! The best choice of a small table by exhaustive search: the reference that faster programs are compared with.

ghost use Rattle.std.specs.Prelude.{◌≡◌, ◌+◌, ◌*◌, ◌^◌, ◌<◌, ◌≤◌, ◌↔◌, ◌++◌, All, OnOk, IfOk, IfSome, Some, None, if◌then◌else◌, nat_le, nat_lt, ◌==◌, ◌&&◌, ◌||◌, Err, length, map, option_map};
ghost use Rattle.std.specs.List.{flat_map};
ghost use Rattle.rate_table.specs.declared.table.TheConstants.{MAX_TABLE_SLICES};
ghost use Rattle.rate_table.specs.Table.{IsSliceTable, indices};
ghost use Rattle.rate_table.specs.Choices.{all_choices, width, better, best_of};
ghost use Rattle.rate_table.specs.Small.{IsOutcome, all_sums, plus, choice_at};

use crate::entry::Entry;
use crate::sums::least;
use crate::table::{FrameTable, SliceTable};
use std::alloc::{AllocError, Global};

/// The largest number of choices that are tried.
const MOST: usize = 65536;

#[derive(Debug, Drop)]
pub enum SmallOutcome {
    /// The fitting choice of least error, then of least size, then the first.
    Fits {
        choice: Vec<u8>,
        size: u64,
        error: u64,
    },
    /// No choice fits.
    None {
        least: u64,
    },
}

#[derive(Clone, Copy, Debug, PartialEq, Eq)]
pub enum SmallFault {
    /// There are more than 65,536 choices.
    TooWide,
    NoMemory,
}

impl From<AllocError> for SmallFault {
    ghost use Rattle.std.specs.Prelude.{◌≡◌};
    ghost use Rattle.rate_table.specs.declared.small.SmallFault.TheVariants.{NoMemory};

    ghost from_gives = { λ _ e. e ≡ NoMemory };

    fn from(_: AllocError) -> SmallFault {
        SmallFault::NoMemory
    }
}

/// Size and error of a choice.
#[derive(Clone, Copy, Debug, PartialEq, Eq)]
struct Sums {
    size: u64,
    error: u64,
}

/// The number of choices, if it is at most 65,536.
fn width_of(slices: &[SliceTable]) -> Option<usize>
    requires { All IsSliceTable slices.now }
    ensures { result ≡ (if nat_le (width slices.now) 65536 then Some (width slices.now) else None) }
{
    let mut product: usize = 1;
    for slice in slices {
        product *= slice.entries().len();
        if product > MOST {
            return None;
        }
    }
    Some(product)
}

/// Appends the sums in `all`, each with `entry` added.
fn append_with(out: &mut Vec<Sums>, entry: Entry, all: &[Sums]) -> Result<(), AllocError>
    requires small { All (λ s. (s.size ≤ 2 ^ 40) × (s.error ≤ 2 ^ 62)) all.now }
    requires entry { entry.error < 2 ^ 43 }
    ensures { OnOk result (out.new.items ≡ out.old.items ++ map (plus entry) all.now) }
{
    for sums in all {
        out.push(Sums {
            size: u64::from(entry.size) + sums.size,
            error: entry.error + sums.error,
        })?;
    }
    Ok(())
}

/// The sums of all choices, in the order of the choices.
fn sums_of(alloc: Global, slices: &[SliceTable]) -> Result<Vec<Sums>, AllocError>
    requires few { length slices.now ≤ MAX_TABLE_SLICES }
    requires each { All IsSliceTable slices.now }
    ensures sums { IfOk result (λ all. all.items ≡ all_sums slices.now) }
    ensures small { IfOk result (λ all. All (λ s. s.size ≤ 2 ^ 40) all.items) }
    ensures count { IfOk result (λ all. length all.items ≡ width slices.now) }
{
    let mut all = Vec::new(alloc);
    all.push(Sums { size: 0, error: 0 })?;
    let mut i = slices.len();
    while i > 0 {
        i -= 1;
        all = extended(alloc, &slices[i], &all)?;
    }
    Ok(all)
}

/// The sums in `all` with each entry of the slice added, entry by entry.
fn extended(alloc: Global, slice: &SliceTable, all: &[Sums]) -> Result<Vec<Sums>, AllocError>
    requires { All (λ s. (s.size ≤ 2 ^ 40) × (s.error ≤ 2 ^ 62)) all.now }
    ensures { IfOk result (λ out. out.items ≡ flat_map (λ e. map (plus e) all.now) slice.now) }
{
    let mut out = Vec::new(alloc);
    for entry in slice.entries() {
        append_with(&mut out, *entry, all)?;
    }
    Ok(out)
}

/// Whether `sums` has less error, or the same error and less size.
fn is_better(sums: Sums, other: Sums) -> bool
    ensures { result ≡ (nat_lt sums.error other.error || (sums.error == other.error && nat_lt sums.size other.size)) }
{
    sums.error < other.error || (sums.error == other.error && sums.size < other.size)
}

/// The number of the better choice: the best so far or the next.
#[tactic(auto, using(crate::proofs::Numbered::sums_at))]
fn next_best(table: &FrameTable, all: &[Sums], best: Option<usize>, next: usize) -> Option<usize>
    requires sums { all.now ≡ all_sums table.now.slices }
    requires small { All (λ s. s.size ≤ 2 ^ 40) all.now }
    requires best { IfSome best (λ n. n < next) }
    requires next { next < length all.now }
    ensures best { option_map (choice_at table.now.slices) result ≡ better table.now
        (option_map (choice_at table.now.slices) best) (choice_at table.now.slices next) }
    ensures number { IfSome result (λ n. n ≤ next) }
{
    let sums = all[next];
    if u64::from(table.fixed) + sums.size > u64::from(table.budget) {
        return best;
    }
    match best {
        None => Some(next),
        Some(number) => {
            if is_better(sums, all[number]) {
                Some(next)
            } else {
                Some(number)
            }
        }
    }
}

/// The number of the best choice that fits.
fn best_at(table: &FrameTable, all: &[Sums]) -> Option<usize>
    requires sums { all.now ≡ all_sums table.now.slices }
    requires small { All (λ s. s.size ≤ 2 ^ 40) all.now }
    ensures best { best_of table.now None (all_choices table.now.slices) ≡ option_map (choice_at table.now.slices)
        result }
    ensures number { IfSome result (λ n. n < length all.now) }
{
    let mut best: Option<usize> = None;
    for i in 0..all.len() {
        best = next_best(table, all, best, i);
    }
    best
}

/// The indices of choice `number`.
fn choice_of(
    alloc: Global,
    slices: &[SliceTable],
    number: usize,
    all: usize,
) -> Result<Vec<u8>, AllocError>
    requires all { all ≡ width slices.now }
    requires number { number < all }
    requires each { All IsSliceTable slices.now }
    ensures { IfOk result (λ choice. choice.items ≡ indices (choice_at slices.now number)) }
{
    let mut choice = Vec::new(alloc);
    let mut rest = number;
    let mut width = all;
    for slice in slices {
        let entries = slice.entries();
        width /= entries.len();
        choice.push(entries[rest / width].index)?;
        rest %= width;
    }
    Ok(choice)
}

/// Finds the best choice by trying all choices of a table.
pub fn best_small(alloc: Global, table: &FrameTable) -> Result<SmallOutcome, SmallFault>
    ensures wide { (result ≡ Err SmallFault.TooWide) ↔ (65536 < width table.now.slices) }
    ensures best { IfOk result (IsOutcome table.now) }
{
    let slices = table.slices.as_slice();
    let Some(width) = width_of(slices) else {
        return Err(SmallFault::TooWide);
    };
    let all = sums_of(alloc, slices)?;
    match best_at(table, &all) {
        None => Ok(SmallOutcome::None {
            least: least(table),
        }),
        Some(number) => Ok(SmallOutcome::Fits {
            choice: choice_of(alloc, slices, number, width)?,
            size: all[number].size,
            error: all[number].error,
        }),
    }
}
