//! Checks a record: which of its clauses fails first.

ghost use Rattle.std.specs.Prelude.{◌≡◌, ◌↔◌, ℕ, suc, List, IsTrue, Ok, OnOk, IfErr, length, map};
ghost use Rattle.rate_table.specs.Records.{SaysNone, HasCounts, HasEntries, SumsAreRight, IsGoodFit};
ghost use Rattle.rate_cert.specs.Settings.{IsSettings};
ghost use Rattle.rate_cert.specs.Records.{IsGood, Fails, FailsFit, FailsLayers, AreGood, Asks, AsksNothing, IsTrueOf};
ghost use Rattle.rate_check.specs.inner.Printed.{of_sums, of_layers};

use crate::layers::{are_in_order, is_empty_pair, none_is_below};
use crate::shape::is_table_of;
use crate::steps::all_step;
use rate_cert::{FrameProof, Settings, Verdict};
use rate_table::{
    FrameTable, Pair, good_is_least, good_none_fits, indices_tell_choice, least, total,
};

/// A clause that a record fails.
#[derive(Clone, Copy, Debug, PartialEq, Eq)]
pub struct Clause {
    /// 1: the shape; 2: the least number of bytes if none fits; 3: the choice's entries; 4: its sums; 5: the first
    /// layer; 6: the order in each layer; 7: the steps from layer to layer; 8: the last layer.
    pub number: u8,
}

/// If no choice fits: the least number of bytes is as printed and exceeds the budget.
fn check_none(table: &FrameTable, printed: u64) -> Result<(), Clause>
    ensures good { OnOk result (SaysNone table.now printed) }
    ensures fails { IfErr result (λ c. Asks 2 (SaysNone table.now printed) AsksNothing c.number) }
{
    let bytes = least(table);
    if u64::from(table.budget) < bytes && printed == bytes {
        Ok(())
    } else {
        Err(Clause { number: 2 })
    }
}

/// The choice has entries, and its sums are as printed and fit.
fn check_sums(table: &FrameTable, choice: &[u8], size: u32, error: u64) -> Result<(), Clause>
    ensures good { OnOk result (HasEntries table.now (of_sums choice.now size error) × SumsAreRight table.now
        (of_sums choice.now size error)) }
    ensures fails { IfErr result (λ c. Asks 3 (HasEntries table.now (of_sums choice.now size error))
        (Asks 4 (SumsAreRight table.now (of_sums choice.now size error)) AsksNothing) c.number) }
{
    indices_tell_choice();
    let Some((bytes, errors)) = total(table, choice) else {
        return Err(Clause { number: 3 });
    };
    let fits = u64::from(table.fixed) + u64::from(size) <= u64::from(table.budget);
    if bytes == u64::from(size) && errors == error && fits {
        Ok(())
    } else {
        Err(Clause { number: 4 })
    }
}

/// The first layer is the empty pair, the layers are in order and cover each step, and the last has no less error
/// than the printed one.
fn check_layers(
    table: &FrameTable,
    layers: &[Vec<Pair>],
    multiplier: u64,
    error: u64,
) -> Result<(), Clause>
    requires { length layers.now ≡ suc (length table.now.slices) }
    ensures good { (choice : List ℕ) (size : ℕ) → OnOk result
        (AreGood table.now (of_layers choice size error multiplier (map (λ l. l.items) layers.now))) }
    ensures fails { (choice : List ℕ) (size : ℕ) → IfErr result
        (λ c. FailsLayers table.now (of_layers choice size error multiplier (map (λ l. l.items) layers.now)) c.number) }
{
    if !is_empty_pair(&layers[0]) {
        return Err(Clause { number: 5 });
    }
    if !are_in_order(layers) {
        return Err(Clause { number: 6 });
    }
    if !all_step(table, layers, multiplier, error) {
        return Err(Clause { number: 7 });
    }
    if !none_is_below(&layers[layers.len() - 1], error) {
        return Err(Clause { number: 8 });
    }
    Ok(())
}

/// Whether there is one index for each slice, and one layer more than slices.
fn has_counts(table: &FrameTable, choice: &[u8], layers: &[Vec<Pair>]) -> bool
    ensures { IsTrue result ↔ ((length choice.now ≡ length table.now.slices)
        × (length layers.now ≡ suc (length table.now.slices))) }
{
    let slices = table.slices.as_slice().len();
    choice.len() == slices && layers.len() == slices + 1
}

/// All clauses on a fitting verdict.
fn check_fit(
    table: &FrameTable,
    choice: &[u8],
    size: u32,
    error: u64,
    multiplier: u64,
    layers: &[Vec<Pair>],
) -> Result<(), Clause>
    ensures good { OnOk result (IsGoodFit table.now (of_layers choice.now size error multiplier
        (map (λ l. l.items) layers.now))) }
    ensures fails { IfErr result (λ c. Asks 1 (HasCounts table.now (of_layers choice.now size error multiplier (map (λ l. l.items) layers.now)))
        (FailsFit table.now (of_layers choice.now size error multiplier (map (λ l. l.items) layers.now))) c.number) }
{
    if !has_counts(table, choice, layers) {
        return Err(Clause { number: 1 });
    }
    check_sums(table, choice, size, error)?;
    check_layers(table, layers, multiplier, error)
}

/// The first clause that fails, for the settings of the record's proof.
fn judge(settings: &Settings, proof: &FrameProof) -> Result<(), Clause>
    requires { IsSettings settings.now }
    ensures good { OnOk result (IsGood settings.now proof.now) }
    ensures fails { IfErr result (λ c. Fails settings.now proof.now c.number) }
{
    if !is_table_of(settings, &proof.table) {
        return Err(Clause { number: 1 });
    }
    match &proof.verdict {
        Verdict::None { least } => check_none(&proof.table, *least),
        Verdict::Fits {
            choice,
            size,
            error,
            multiplier,
            layers,
        } => check_fit(&proof.table, choice, *size, *error, *multiplier, layers),
    }
}

/// Checks a record against the settings of its proof. Takes no memory.
///
/// The error is the first clause that fails.
pub fn check_record(settings: &Settings, proof: &FrameProof) -> Result<(), Clause>
    requires { IsSettings settings.now }
    // The result is Ok exactly if the record is good.
    ensures good { (result ≡ Ok tt) ↔ IsGood settings.now proof.now }
    ensures fails { IfErr result (λ c. Fails settings.now proof.now c.number) }
    // For every such record, whoever made it: the printed choice fits and no fitting choice has less error, or no
    // choice fits.
    ensures sound { OnOk result (IsTrueOf proof.now.table proof.now.said) }
{
    good_is_least();
    good_none_fits();
    judge(settings, proof)
}
