//! Checks a certificate: which of its clauses fails first.

ghost use Rattle.std.specs.Prelude.{◌≡◌, ◌<◌, ◌^◌, ◌↔◌, ℕ, suc, List, IsTrue, Ok, OnOk, IfErr, length, map};
ghost use Rattle.std.specs.List.{All};
ghost use Rattle.rate_cert.specs.Records.{Asks, AsksNothing};
ghost use Rattle.rate_least.specs.Records.{said_by, AreNarrow, IsNarrow, SaysNone, HasCounts, HasEntries, SumsAreRight, AreGood, IsGoodFit, IsGood, Fails, FailsFit, FailsLayers, IsTrueOf};
ghost use Rattle.rate_least.specs.inner.Printed.{of_sums, of_layers};

use crate::errors::least_errors;
use crate::laws::good_is_true;
use crate::layers::{are_in_order, is_empty_pair, none_is_below};
use crate::outcome::{LeastOutcome, WidePair};
use crate::steps::all_step;
use rate_check::Clause;
use rate_table::{FrameTable, indices_tell_choice, total};

/// If no choice meets the cap: the least error is as printed and exceeds the cap.
fn check_none(table: &FrameTable, cap: u64, printed: u64) -> Result<(), Clause>
    ensures good { OnOk result (SaysNone table.now.slices cap printed) }
    ensures fails { IfErr result (λ c. Asks 2 (SaysNone table.now.slices cap printed) AsksNothing c.number) }
{
    if printed == least_errors(table) && cap < printed {
        Ok(())
    } else {
        Err(Clause { number: 2 })
    }
}

/// The choice has entries, and its sums are as printed and meet the cap.
fn check_sums(
    table: &FrameTable,
    cap: u64,
    choice: &[u8],
    size: u64,
    error: u64,
) -> Result<(), Clause>
    ensures good { OnOk result (HasEntries table.now.slices (of_sums choice.now size error) × SumsAreRight
        table.now.slices cap (of_sums choice.now size error)) }
    ensures fails { IfErr result (λ c. Asks 3 (HasEntries table.now.slices (of_sums choice.now size error))
        (Asks 4 (SumsAreRight table.now.slices cap (of_sums choice.now size error)) AsksNothing) c.number) }
{
    // The indices of a choice determine it, since the table is within its limits.
    let _slices = table.slices.as_slice();
    indices_tell_choice();
    let Some((bytes, errors)) = total(table, choice) else {
        return Err(Clause { number: 3 });
    };
    if bytes == size && errors == error && error <= cap {
        Ok(())
    } else {
        Err(Clause { number: 4 })
    }
}

/// The first layer is the empty pair, the layers are in order and cover each step, and the last has no less size
/// than the printed one.
fn check_layers(
    table: &FrameTable,
    cap: u64,
    layers: &[Vec<WidePair>],
    multiplier: u64,
    size: u64,
) -> Result<(), Clause>
    requires count { length layers.now ≡ suc (length table.now.slices) }
    requires size { size < 2 ^ 34 }
    requires narrow { All (λ layer. All IsNarrow layer) (map (λ l. l.items) layers.now) }
    ensures good { (choice : List ℕ) (error : ℕ) → OnOk result
        (AreGood table.now.slices cap (of_layers choice size error multiplier (map (λ l. l.items) layers.now))) }
    ensures fails { (choice : List ℕ) (error : ℕ) → IfErr result
        (λ c. FailsLayers table.now.slices cap (of_layers choice size error multiplier (map (λ l. l.items) layers.now))
        c.number) }
{
    if !is_empty_pair(&layers[0]) {
        return Err(Clause { number: 5 });
    }
    if !are_in_order(layers) {
        return Err(Clause { number: 6 });
    }
    if !all_step(table, cap, layers, multiplier, size) {
        return Err(Clause { number: 7 });
    }
    if !none_is_below(&layers[layers.len() - 1], size) {
        return Err(Clause { number: 8 });
    }
    Ok(())
}

/// Whether there is one index for each slice, and one layer more than slices.
fn has_counts(table: &FrameTable, choice: &[u8], layers: &[Vec<WidePair>]) -> bool
    ensures { IsTrue result ↔ ((length choice.now ≡ length table.now.slices)
        × (length layers.now ≡ suc (length table.now.slices))) }
{
    let slices = table.slices.as_slice().len();
    choice.len() == slices && layers.len() == slices + 1
}

/// All clauses on a choice that meets the cap.
fn check_fit(
    table: &FrameTable,
    cap: u64,
    choice: &[u8],
    size: u64,
    error: u64,
    multiplier: u64,
    layers: &[Vec<WidePair>],
) -> Result<(), Clause>
    requires size { size < 2 ^ 34 }
    requires narrow { All (λ layer. All IsNarrow layer) (map (λ l. l.items) layers.now) }
    ensures good { OnOk result (IsGoodFit table.now.slices cap
        (of_layers choice.now size error multiplier (map (λ l. l.items) layers.now))) }
    ensures fails { IfErr result (λ c. Asks 1 (HasCounts table.now.slices (of_layers choice.now size error multiplier (map (λ l. l.items) layers.now)))
        (FailsFit table.now.slices cap (of_layers choice.now size error multiplier (map (λ l. l.items) layers.now))) c.number) }
{
    if !has_counts(table, choice, layers) {
        return Err(Clause { number: 1 });
    }
    check_sums(table, cap, choice, size, error)?;
    check_layers(table, cap, layers, multiplier, size)
}

/// The first clause that fails.
fn judge(table: &FrameTable, cap: u64, outcome: &LeastOutcome) -> Result<(), Clause>
    requires { AreNarrow (said_by outcome.now) }
    ensures good { OnOk result (IsGood table.now.slices cap (said_by outcome.now)) }
    ensures fails { IfErr result (λ c. Fails table.now.slices cap (said_by outcome.now) c.number) }
{
    match outcome {
        LeastOutcome::None { least_error } => check_none(table, cap, *least_error),
        LeastOutcome::Fits {
            choice,
            size,
            error,
            layers,
            multiplier,
        } => check_fit(table, cap, choice, *size, *error, *multiplier, layers),
    }
}

/// Checks the outcome for a table and a cap. The printed size and the sizes of all pairs are below 2^34. Takes no
/// memory.
///
/// The error is the first clause that fails. 1: the counts of indices and layers; 2: the least error if no choice
/// meets the cap; 3: the choice's entries; 4: its sums and the cap; 5: the first layer; 6: the order in each layer;
/// 7: the steps from layer to layer; 8: the last layer.
pub fn check_least(table: &FrameTable, cap: u64, outcome: &LeastOutcome) -> Result<(), Clause>
    requires { AreNarrow (said_by outcome.now) }
    // The result is Ok exactly if all clauses hold.
    ensures good { (result ≡ Ok tt) ↔ IsGood table.now.slices cap (said_by outcome.now) }
    ensures fails { IfErr result (λ c. Fails table.now.slices cap (said_by outcome.now) c.number) }
    // For every outcome, whoever made it: the printed choice meets the cap and no choice that does has less size,
    // or none does.
    ensures sound { OnOk result (IsTrueOf table.now.slices cap (said_by outcome.now)) }
{
    good_is_true();
    judge(table, cap, outcome)
}
