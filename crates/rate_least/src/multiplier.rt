//! The Lagrangian multiplier under a cap: the greatest one whose choice meets it.

ghost use Rattle.std.specs.Prelude.{◌≡◌, ◌+◌, ◌*◌, ◌<◌, ◌≤◌, ◌^◌, ◌↔◌, IsTrue, ℕ, List, length};
ghost use Rattle.std.specs.List.{All};
ghost use Rattle.rate_table.specs.declared.table.TheConstants.{MAX_TABLE_SLICES};
ghost use Rattle.rate_table.specs.declared.entry.Entry.{Entry};
ghost use Rattle.rate_table.specs.Table.{IsSliceTable, IsChoice, size_of, error_of};
ghost use Rattle.rate_table.specs.Pairs.{cost};
ghost use Rattle.rate_least.specs.Held.{IsBent, IsBend, BendMeets, IsGreatestMultiplier};
ghost use Rattle.rate_least.specs.inner.Bent.{Wins};

use rate_table::{Entry, FrameTable, SliceTable, cost_of};

/// The greatest multiplier that is tried.
const GREATEST: u64 = 1 << 43;

/// Whether `a` is preferred to `b` or is it; `first` and `second` are their costs.
fn is_better(a: &Entry, first: u128, b: &Entry, second: u128) -> bool
    ensures yes { (m : ℕ) → first ≡ cost m a.now → second ≡ cost m b.now → IsTrue result → Wins m a.now b.now }
    ensures no { (m : ℕ) → first ≡ cost m a.now → second ≡ cost m b.now → (IsTrue result → ⊥) → Wins m b.now a.now }
{
    first < second
        || first == second && (a.error < b.error || a.error == b.error && a.index <= b.index)
}

/// The Lagrangian minimiser of a slice: the entry of least cost, then of least error, then of least index.
fn bent(entries: &[Entry], multiplier: u64) -> Entry
    requires { 0 < length entries.now }
    ensures { IsBent multiplier entries.now result }
{
    let mut best = entries[0];
    let mut least = cost_of(&best, multiplier);
    for x in entries {
        let cost = cost_of(x, multiplier);
        if !is_better(&best, least, x, cost) {
            best = *x;
            least = cost;
        }
    }
    best
}

/// Size and error of the Lagrangian minimisers: in each slice the entry of least cost, then of least error, then of
/// least index.
fn sums_of(slices: &[SliceTable], multiplier: u64) -> (u64, u64)
    requires few { length slices.now ≤ MAX_TABLE_SLICES }
    requires each { All IsSliceTable slices.now }
    ensures bend { (c : List Entry) × IsBend multiplier slices.now c × (result.0 ≡ size_of c)
        × (result.1 ≡ error_of c) }
    ensures size { result.0 < 2 ^ 34 }
    ensures error { result.1 < 2 ^ 61 }
{
    let mut size: u64 = 0;
    let mut error: u64 = 0;
    for slice in slices {
        let x = bent(slice.entries(), multiplier);
        size += u64::from(x.size);
        error += x.error;
    }
    (size, error)
}

/// The size of the Lagrangian minimisers. Takes no memory.
pub fn bend_size(table: &FrameTable, multiplier: u64) -> u64
    ensures bend { (c : List Entry) × IsBend multiplier table.now.slices c × (result ≡ size_of c) }
    ensures small { result < 2 ^ 34 }
{
    sums_of(table.slices.as_slice(), multiplier).0
}

/// Whether the Lagrangian minimisers meet the cap.
fn bend_meets(slices: &[SliceTable], multiplier: u64, cap: u64) -> bool
    requires few { length slices.now ≤ MAX_TABLE_SLICES }
    requires each { All IsSliceTable slices.now }
    ensures { IsTrue result ↔ BendMeets slices.now cap multiplier }
{
    sums_of(slices, multiplier).1 <= cap
}

/// The greatest multiplier up to 2^43 whose minimisers meet the cap, of a table with a choice that does. Takes no
/// memory.
pub fn greatest_multiplier(table: &FrameTable, cap: u64) -> u64
    requires meets { (c : List Entry) × IsChoice table.now.slices c × (error_of c ≤ cap) }
    ensures { IsGreatestMultiplier table.now.slices cap result }
{
    let slices = table.slices.as_slice();
    let mut low: u64 = 0;
    let mut high = GREATEST;
    while low < high {
        let middle = high - (high - low) / 2;
        if bend_meets(slices, middle, cap) {
            low = middle;
        } else {
            high = middle - 1;
        }
    }
    low
}
