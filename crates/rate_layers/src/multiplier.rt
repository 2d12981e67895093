//! The Lagrangian multiplier of a table: the least one whose minimisers fit.

ghost use Rattle.std.specs.Prelude.{◌≡◌, ◌+◌, ◌*◌, ◌<◌, ◌≤◌, ◌^◌, ◌↔◌, IsTrue, IfSome, IfNone, ℕ, List, length};
ghost use Rattle.std.specs.List.{All};
ghost use Rattle.rate_table.specs.declared.entry.Entry.{Entry};
ghost use Rattle.rate_table.specs.declared.table.TheConstants.{MAX_TABLE_SLICES};
ghost use Rattle.rate_table.specs.Table.{IsSliceTable, IsChoice, Fits, HasNoFit, size_of, error_of};
ghost use Rattle.rate_table.specs.Pairs.{cost};
ghost use Rattle.rate_layers.specs.Multiplier.{IsPick, ArePicks, IsMultiplier, Wins};

use rate_table::{Entry, FrameTable, SliceTable, cost_of, least};

/// Whether `a` is preferred to `b` or is it; `first` and `second` are their costs.
fn is_better(a: &Entry, first: u128, b: &Entry, second: u128) -> bool
    ensures yes { (m : ℕ) → first ≡ cost m a.now → second ≡ cost m b.now → IsTrue result → Wins m a.now b.now }
    ensures no { (m : ℕ) → first ≡ cost m a.now → second ≡ cost m b.now → (IsTrue result → ⊥) → Wins m b.now a.now }
{
    first < second || first == second && (a.size < b.size || a.size == b.size && a.index <= b.index)
}

/// The Lagrangian minimiser of a slice: the entry of least cost, then of least size, then of least index.
fn pick(entries: &[Entry], multiplier: u64) -> Entry
    requires { 0 < length entries.now }
    ensures { IsPick multiplier entries.now result }
{
    let mut best = entries[0];
    let mut least = cost_of(&best, multiplier);
    for x in entries {
        let cost = cost_of(x, multiplier);
        if !is_better(&best, least, x, cost) {
            best = *x;
            least = cost;
        }
    }
    best
}

fn sums_of(slices: &[SliceTable], multiplier: u64) -> (u64, u64)
    requires few { length slices.now ≤ MAX_TABLE_SLICES }
    requires each { All IsSliceTable slices.now }
    ensures picks { (c : List Entry) × ArePicks multiplier slices.now c × (result.0 ≡ size_of c)
        × (result.1 ≡ error_of c) }
    ensures size { result.0 < 2 ^ 34 }
    ensures error { result.1 < 2 ^ 61 }
{
    let mut size: u64 = 0;
    let mut error: u64 = 0;
    for slice in slices {
        let x = pick(slice.entries(), multiplier);
        size += u64::from(x.size);
        error += x.error;
    }
    (size, error)
}

/// Size, without the fixed bytes, and error of the Lagrangian minimisers: in each slice the entry of least cost,
/// then of least size, then of least index. Takes no memory.
pub fn pick_sums(table: &FrameTable, multiplier: u64) -> (u64, u64)
    ensures picks { (c : List Entry) × ArePicks multiplier table.now.slices c × (result.0 ≡ size_of c)
        × (result.1 ≡ error_of c) }
    ensures size { result.0 < 2 ^ 34 }
    ensures error { result.1 < 2 ^ 61 }
{
    sums_of(table.slices.as_slice(), multiplier)
}

/// Whether the Lagrangian minimisers have at most this size.
fn picks_fit(slices: &[SliceTable], multiplier: u64, room: u64) -> bool
    requires few { length slices.now ≤ MAX_TABLE_SLICES }
    requires each { All IsSliceTable slices.now }
    ensures { IsTrue result ↔ ((c : List Entry) × ArePicks multiplier slices.now c × (size_of c ≤ room)) }
{
    sums_of(slices, multiplier).0 <= room
}

/// The least multiplier whose minimisers fit, of a table with a choice that fits. Takes no memory.
pub fn least_multiplier(table: &FrameTable) -> u64
    requires fits { (c : List Entry) × IsChoice table.now.slices c × Fits table.now c }
    ensures multiplier { IsMultiplier table.now result }
    ensures limit { result ≤ 2 ^ 43 }
{
    let slices = table.slices.as_slice();
    let room = u64::from(table.budget) - u64::from(table.fixed);
    let mut low: u64 = 0;
    let mut high: u64 = 1 << 43;
    while low < high {
        let middle = low + (high - low) / 2;
        if picks_fit(slices, middle, room) {
            high = middle;
        } else {
            low = middle + 1;
        }
    }
    high
}

/// The least multiplier whose minimisers fit; `None` if no choice fits. Takes no memory.
pub fn fitting_multiplier(table: &FrameTable) -> Option<u64>
    ensures some { IfSome result (IsMultiplier table.now) }
    ensures limit { IfSome result (λ m. m ≤ 2 ^ 43) }
    ensures none { IfNone result (HasNoFit table.now) }
{
    if u64::from(table.budget) < least(table) {
        return None;
    }
    Some(least_multiplier(table))
}
