//! Reads the layers of a record.

ghost use Rattle.std.specs.Prelude.{◌≡◌, ◌+◌, ◌*◌, ◌<◌, ◌≤◌, ◌^◌, IfOk, length, map};
ghost use Rattle.std.specs.List.{All, sum_by};
ghost use Rattle.pw_outside.specs.Ports.{CountsFault, GoesOn};
ghost use Rattle.pw_outside.specs.Reading.{Gives};
ghost use Rattle.rate_table.specs.declared.table.TheConstants.{MAX_TABLE_SLICES};
ghost use Rattle.rate_table.specs.Reading.{told_fault, is_failed};
ghost use Rattle.rate_table.specs.Pairs.{RisesAndFalls};
ghost use Rattle.rate_cert.specs.Layers.{most_pairs, pair_at, pairs_at, step_at, run_at, first_at, close_pairs_at, wide_at, close_at, layer_at, layers_at};
ghost use Rattle.rate_cert.specs.Files.{IsPair};

use crate::field::{SHORT, short_of};
use pw_outside::ByteSource;
use rate_table::{Pair, ProofKind, TableFault, bad, read_u32, read_u64};
use std::alloc::Global;

/// The largest number of pairs of a record.
const MOST_PAIRS: u32 = 33_554_432;

/// Reads a pair of format 1.
#[tactic(auto, unfolding(crate::specs::Layers::pair_at, pw_outside::specs::Reading::bind))]
fn pair_of<S: ByteSource>(source: &mut S, place: &mut u64) -> Result<Pair, TableFault>
    requires { place.old + 12 < 2 ^ 64 }
    ensures bytes { Gives told_fault (λ x. x) (S.left source.old) (S.left source.new) place.old place.new result
        pair_at }
    ensures pair { IfOk result IsPair }
    ensures place { place.new ≤ place.old + 12 }
    ensures becomes { GoesOn S.becomes source.old source.new }
    ensures cause { CountsFault (S.faults source.old) (S.faults source.new) (is_failed result) }
{
    let size = read_u32(source, place, SHORT)?;
    let error = read_u64(source, place, SHORT)?;
    Ok(Pair { size, error })
}

/// Reads the first pair of a layer of format 2.
#[tactic(auto, unfolding(crate::specs::Layers::first_at, pw_outside::specs::Reading::bind))]
fn first_of<S: ByteSource>(source: &mut S, place: &mut u64) -> Result<Pair, TableFault>
    requires { place.old + 20 < 2 ^ 64 }
    ensures bytes { Gives told_fault (λ x. x) (S.left source.old) (S.left source.new) place.old place.new result
        first_at }
    ensures pair { IfOk result IsPair }
    ensures place { place.new ≤ place.old + 20 }
    ensures becomes { GoesOn S.becomes source.old source.new }
    ensures cause { CountsFault (S.faults source.old) (S.faults source.new) (is_failed result) }
{
    let at = *place;
    let size = short_of(source, place)?;
    if size >= 1 << 32 {
        return Err(bad(ProofKind::ProofShape, at));
    }
    let error = short_of(source, place)?;
    Ok(Pair {
        size: size as u32,
        error,
    })
}

/// Reads the pair after `before`, in format 2.
#[tactic(auto, unfolding(crate::specs::Layers::step_at, pw_outside::specs::Reading::bind))]
fn step_of<S: ByteSource>(source: &mut S, place: &mut u64, before: Pair) -> Result<Pair, TableFault>
    requires { place.old + 20 < 2 ^ 64 }
    ensures bytes { Gives told_fault (λ x. x) (S.left source.old) (S.left source.new) place.old place.new result
        (step_at before) }
    ensures pair { IfOk result IsPair }
    ensures behind { IfOk result (λ p. (before.size < p.size) × (p.error < before.error)) }
    ensures place { place.new ≤ place.old + 20 }
    ensures becomes { GoesOn S.becomes source.old source.new }
    ensures cause { CountsFault (S.faults source.old) (S.faults source.new) (is_failed result) }
{
    let at = *place;
    let more = short_of(source, place)?;
    let size = u128::from(before.size) + 1 + u128::from(more);
    if size >= 1 << 32 {
        return Err(bad(ProofKind::ProofShape, at));
    }
    let at = *place;
    let less = short_of(source, place)?;
    if before.error <= less {
        return Err(bad(ProofKind::ProofShape, at));
    }
    Ok(Pair {
        size: size as u32,
        error: before.error - (less + 1),
    })
}

/// Reads `count` pairs of format 1.
#[tactic(auto, using(pw_outside::proofs::Chains::with_front_nil))]
fn pairs_of<S: ByteSource>(
    alloc: Global,
    source: &mut S,
    place: &mut u64,
    count: u32,
) -> Result<Vec<Pair>, TableFault>
    requires few { count ≤ most_pairs }
    requires room { place.old < 2 ^ 63 }
    ensures bytes { Gives told_fault (λ v. v.items) (S.left source.old) (S.left source.new) place.old place.new result
        (pairs_at count) }
    ensures count { IfOk result (λ v. length v.items ≡ count) }
    ensures pairs { IfOk result (λ v. All IsPair v.items) }
    ensures place { place.new ≤ place.old + 12 * count }
    ensures becomes { GoesOn S.becomes source.old source.new }
    ensures cause { CountsFault (S.faults source.old) (S.faults source.new) (is_failed result) }
{
    let mut pairs = Vec::new(alloc);
    for _ in 0..count {
        let pair = pair_of(source, place)?;
        pairs.push(pair)?;
    }
    Ok(pairs)
}

/// Reads the `count` pairs after `first`, in format 2; the result begins with `first`.
#[tactic(auto, using(pw_outside::proofs::Chains::with_front_nil))]
fn run_of<S: ByteSource>(
    alloc: Global,
    source: &mut S,
    place: &mut u64,
    first: Pair,
    count: u32,
) -> Result<Vec<Pair>, TableFault>
    requires few { count ≤ most_pairs }
    requires room { place.old < 2 ^ 63 + 20 }
    requires first { IsPair first }
    ensures bytes { Gives told_fault (λ v. v.items) (S.left source.old) (S.left source.new) place.old place.new result
        (run_at count first) }
    ensures count { IfOk result (λ v. length v.items ≡ count + 1) }
    ensures pairs { IfOk result (λ v. All IsPair v.items) }
    ensures order { IfOk result (λ v. RisesAndFalls v.items) }
    ensures place { place.new ≤ place.old + 20 * count }
    ensures becomes { GoesOn S.becomes source.old source.new }
    ensures cause { CountsFault (S.faults source.old) (S.faults source.new) (is_failed result) }
{
    let mut pairs = Vec::new(alloc);
    let mut last = first;
    for _ in 0..count {
        pairs.push(last)?;
        last = step_of(source, place, last)?;
    }
    pairs.push(last)?;
    Ok(pairs)
}

/// Reads `count` pairs of format 2.
#[tactic(auto, unfolding(crate::specs::Layers::close_pairs_at, pw_outside::specs::Reading::bind))]
fn close_pairs_of<S: ByteSource>(
    alloc: Global,
    source: &mut S,
    place: &mut u64,
    count: u32,
) -> Result<Vec<Pair>, TableFault>
    requires few { count ≤ most_pairs }
    requires room { place.old < 2 ^ 63 }
    ensures bytes { Gives told_fault (λ v. v.items) (S.left source.old) (S.left source.new) place.old place.new result
        (close_pairs_at count) }
    ensures count { IfOk result (λ v. length v.items ≡ count) }
    ensures pairs { IfOk result (λ v. All IsPair v.items) }
    ensures order { IfOk result (λ v. RisesAndFalls v.items) }
    ensures place { place.new ≤ place.old + 20 * count }
    ensures becomes { GoesOn S.becomes source.old source.new }
    ensures cause { CountsFault (S.faults source.old) (S.faults source.new) (is_failed result) }
{
    if count == 0 {
        return Ok(Vec::new(alloc));
    }
    let first = first_of(source, place)?;
    run_of(alloc, source, place, first, count - 1)
}

/// Reads a layer of format 1, after `held` pairs of its record.
#[tactic(auto, unfolding(crate::specs::Layers::wide_at, pw_outside::specs::Reading::bind))]
fn wide_of<S: ByteSource>(
    alloc: Global,
    source: &mut S,
    place: &mut u64,
    held: u32,
) -> Result<Vec<Pair>, TableFault>
    requires few { held ≤ most_pairs }
    requires room { place.old + 4 < 2 ^ 63 }
    ensures bytes { Gives told_fault (λ v. v.items) (S.left source.old) (S.left source.new) place.old place.new result
        (wide_at held) }
    ensures few { IfOk result (λ v. held + length v.items ≤ most_pairs) }
    ensures pairs { IfOk result (λ v. All IsPair v.items) }
    ensures place { IfOk result (λ v. place.new ≤ place.old + 10 + 20 * length v.items) }
    ensures becomes { GoesOn S.becomes source.old source.new }
    ensures cause { CountsFault (S.faults source.old) (S.faults source.new) (is_failed result) }
{
    let at = *place;
    let count = read_u32(source, place, SHORT)?;
    if MOST_PAIRS - held < count {
        return Err(bad(ProofKind::ProofShape, at));
    }
    pairs_of(alloc, source, place, count)
}

/// Reads a layer of format 2, after `held` pairs of its record.
#[tactic(auto, unfolding(crate::specs::Layers::close_at, pw_outside::specs::Reading::bind))]
fn close_of<S: ByteSource>(
    alloc: Global,
    source: &mut S,
    place: &mut u64,
    held: u32,
) -> Result<Vec<Pair>, TableFault>
    requires few { held ≤ most_pairs }
    requires room { place.old + 10 < 2 ^ 63 }
    ensures bytes { Gives told_fault (λ v. v.items) (S.left source.old) (S.left source.new) place.old place.new result
        (close_at held) }
    ensures few { IfOk result (λ v. held + length v.items ≤ most_pairs) }
    ensures pairs { IfOk result (λ v. All IsPair v.items) }
    ensures order { IfOk result (λ v. RisesAndFalls v.items) }
    ensures place { IfOk result (λ v. place.new ≤ place.old + 10 + 20 * length v.items) }
    ensures becomes { GoesOn S.becomes source.old source.new }
    ensures cause { CountsFault (S.faults source.old) (S.faults source.new) (is_failed result) }
{
    let at = *place;
    let count = short_of(source, place)?;
    if u64::from(MOST_PAIRS - held) < count {
        return Err(bad(ProofKind::ProofShape, at));
    }
    close_pairs_of(alloc, source, place, count as u32)
}

/// Reads a layer in either format, after `held` pairs of its record.
#[tactic(auto, unfolding(crate::specs::Layers::layer_at))]
fn layer_of<S: ByteSource>(
    alloc: Global,
    source: &mut S,
    place: &mut u64,
    format: u8,
    held: u32,
) -> Result<Vec<Pair>, TableFault>
    requires few { held ≤ most_pairs }
    requires room { place.old + 10 < 2 ^ 63 }
    ensures bytes { Gives told_fault (λ v. v.items) (S.left source.old) (S.left source.new) place.old place.new result
        (layer_at format held) }
    ensures few { IfOk result (λ v. held + length v.items ≤ most_pairs) }
    ensures pairs { IfOk result (λ v. All IsPair v.items) }
    ensures order { IfOk result (λ v. format ≡ 2 → RisesAndFalls v.items) }
    ensures place { IfOk result (λ v. place.new ≤ place.old + 10 + 20 * length v.items) }
    ensures becomes { GoesOn S.becomes source.old source.new }
    ensures cause { CountsFault (S.faults source.old) (S.faults source.new) (is_failed result) }
{
    if format == 1 {
        wide_of(alloc, source, place, held)
    } else {
        close_of(alloc, source, place, held)
    }
}

/// Reads `count` layers in either format.
#[tactic(auto, using(pw_outside::proofs::Chains::with_front_nil))]
pub(crate) fn layers_of<S: ByteSource>(
    alloc: Global,
    source: &mut S,
    place: &mut u64,
    format: u8,
    count: u32,
) -> Result<Vec<Vec<Pair>>, TableFault>
    requires few { count ≤ MAX_TABLE_SLICES + 1 }
    requires room { place.old < 2 ^ 62 }
    ensures bytes { Gives told_fault (λ v. map (λ l. l.items) v.items) (S.left source.old) (S.left source.new) place.old
        place.new result (layers_at format count 0) }
    ensures count { IfOk result (λ v. length v.items ≡ count) }
    ensures few { IfOk result (λ v. sum_by length (map (λ l. l.items) v.items) ≤ most_pairs) }
    ensures pairs { IfOk result (λ v. All (λ layer. All IsPair layer) (map (λ l. l.items) v.items)) }
    ensures order { IfOk result (λ v. format ≡ 2 → All RisesAndFalls (map (λ l. l.items) v.items)) }
    ensures place { IfOk result (λ _. place.new ≤ place.old + 672399350) }
    ensures becomes { GoesOn S.becomes source.old source.new }
    ensures cause { CountsFault (S.faults source.old) (S.faults source.new) (is_failed result) }
{
    let mut layers = Vec::new(alloc);
    let mut held = 0;
    for _ in 0..count {
        let layer = layer_of(alloc, source, place, format, held)?;
        held += layer.len() as u32;
        layers.push(layer)?;
    }
    Ok(layers)
}
