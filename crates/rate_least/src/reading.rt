//! Reads certificates.

ghost use Rattle.std.specs.Prelude.{◌≡◌, ◌+◌, ◌*◌, ◌<◌, ◌≤◌, ◌^◌, IfOk, OnOk, length, map};
ghost use Rattle.std.specs.List.{All, sum_by};
ghost use Rattle.std.specs.Io.KnownBytes.{IsAtEnd};
ghost use Rattle.pw_outside.specs.Ports.{CountsFault, GoesOn};
ghost use Rattle.pw_outside.specs.Reading.{Gives, Answers, Told};
ghost use Rattle.rate_table.specs.declared.table.TheConstants.{MAX_TABLE_SLICES};
ghost use Rattle.rate_table.specs.Reading.{told_fault, is_failed};
ghost use Rattle.rate_table.specs.Table.{Table};
ghost use Rattle.rate_cert.specs.Layers.{most_pairs};
ghost use Rattle.rate_least.specs.Records.{said_by};
ghost use Rattle.rate_least.specs.Files.{IsPair, CanBeSaid, AreWide, IsWritten, size_at, pair_at, pairs_at, layer_at, layers_at, fit_at, none_at, verdict_at, said_at, cert_at, certified};

use crate::outcome::{LeastOutcome, LeastProof, WidePair};
use pw_outside::{ByteSource, fill};
use rate_table::{
    ProofKind, TableFault, bad, read_indices, read_proof_table, read_u8, read_u32, read_u64,
};
use std::alloc::Global;

// `PWLC`
const MAGIC: u32 = 0x5057_4C43;

// The error if the input ends within a field.
const SHORT: ProofKind = ProofKind::ProofShort;

/// The largest number of pairs of a certificate.
const MOST_PAIRS: u32 = 33_554_432;

/// Reads a size below 2^34.
#[tactic(auto, unfolding(crate::specs::Files::size_at, pw_outside::specs::Reading::bind))]
fn size_of<S: ByteSource>(source: &mut S, place: &mut u64) -> Result<u64, TableFault>
    requires { place.old + 8 < 2 ^ 64 }
    ensures bytes { Gives told_fault (λ x. x) (S.left source.old) (S.left source.new) place.old place.new result
        size_at }
    ensures small { IfOk result (λ n. n < 2 ^ 34) }
    ensures place { place.new ≤ place.old + 8 }
    ensures becomes { GoesOn S.becomes source.old source.new }
    ensures cause { CountsFault (S.faults source.old) (S.faults source.new) (is_failed result) }
{
    let at = *place;
    let size = read_u64(source, place, SHORT)?;
    if size >= 1 << 34 {
        return Err(bad(ProofKind::ProofShape, at));
    }
    Ok(size)
}

#[tactic(auto, unfolding(crate::specs::Files::pair_at, pw_outside::specs::Reading::bind))]
fn pair_of<S: ByteSource>(source: &mut S, place: &mut u64) -> Result<WidePair, TableFault>
    requires { place.old + 16 < 2 ^ 64 }
    ensures bytes { Gives told_fault (λ x. x) (S.left source.old) (S.left source.new) place.old place.new result
        pair_at }
    ensures pair { IfOk result IsPair }
    ensures place { place.new ≤ place.old + 16 }
    ensures becomes { GoesOn S.becomes source.old source.new }
    ensures cause { CountsFault (S.faults source.old) (S.faults source.new) (is_failed result) }
{
    let size = size_of(source, place)?;
    let error = read_u64(source, place, SHORT)?;
    Ok(WidePair { size, error })
}

/// Reads `count` pairs.
#[tactic(auto, using(pw_outside::proofs::Chains::with_front_nil))]
fn pairs_of<S: ByteSource>(
    alloc: Global,
    source: &mut S,
    place: &mut u64,
    count: u32,
) -> Result<Vec<WidePair>, TableFault>
    requires few { count ≤ most_pairs }
    requires room { place.old < 2 ^ 63 }
    ensures bytes { Gives told_fault (λ v. v.items) (S.left source.old) (S.left source.new) place.old place.new result
        (pairs_at count) }
    ensures count { IfOk result (λ v. length v.items ≡ count) }
    ensures pairs { IfOk result (λ v. All IsPair v.items) }
    ensures place { place.new ≤ place.old + 16 * count }
    ensures becomes { GoesOn S.becomes source.old source.new }
    ensures cause { CountsFault (S.faults source.old) (S.faults source.new) (is_failed result) }
{
    let mut pairs = Vec::new(alloc);
    for _ in 0..count {
        let pair = pair_of(source, place)?;
        pairs.push(pair)?;
    }
    Ok(pairs)
}

/// Reads a layer, after `held` pairs of its certificate.
#[tactic(auto, unfolding(crate::specs::Files::layer_at, pw_outside::specs::Reading::bind))]
fn layer_of<S: ByteSource>(
    alloc: Global,
    source: &mut S,
    place: &mut u64,
    held: u32,
) -> Result<Vec<WidePair>, TableFault>
    requires few { held ≤ most_pairs }
    requires room { place.old + 4 < 2 ^ 63 }
    ensures bytes { Gives told_fault (λ v. v.items) (S.left source.old) (S.left source.new) place.old place.new result
        (layer_at held) }
    ensures few { IfOk result (λ v. held + length v.items ≤ most_pairs) }
    ensures pairs { IfOk result (λ v. All IsPair v.items) }
    ensures place { IfOk result (λ v. place.new ≤ place.old + 4 + 16 * length v.items) }
    ensures becomes { GoesOn S.becomes source.old source.new }
    ensures cause { CountsFault (S.faults source.old) (S.faults source.new) (is_failed result) }
{
    let at = *place;
    let count = read_u32(source, place, SHORT)?;
    if MOST_PAIRS - held < count {
        return Err(bad(ProofKind::ProofShape, at));
    }
    pairs_of(alloc, source, place, count)
}

/// Reads `count` layers.
#[tactic(auto, using(pw_outside::proofs::Chains::with_front_nil))]
fn layers_of<S: ByteSource>(
    alloc: Global,
    source: &mut S,
    place: &mut u64,
    count: u32,
) -> Result<Vec<Vec<WidePair>>, TableFault>
    requires few { count ≤ MAX_TABLE_SLICES + 1 }
    requires room { place.old < 2 ^ 62 }
    ensures bytes { Gives told_fault (λ v. map (λ l. l.items) v.items) (S.left source.old) (S.left source.new) place.old
        place.new result (layers_at count 0) }
    ensures count { IfOk result (λ v. length v.items ≡ count) }
    ensures few { IfOk result (λ v. sum_by length (map (λ l. l.items) v.items) ≤ most_pairs) }
    ensures pairs { IfOk result (λ v. All (λ layer. All IsPair layer) (map (λ l. l.items) v.items)) }
    ensures place { IfOk result (λ _. place.new ≤ place.old + 537395196) }
    ensures becomes { GoesOn S.becomes source.old source.new }
    ensures cause { CountsFault (S.faults source.old) (S.faults source.new) (is_failed result) }
{
    let mut layers = Vec::new(alloc);
    let mut held = 0;
    for _ in 0..count {
        let layer = layer_of(alloc, source, place, held)?;
        held += layer.len() as u32;
        layers.push(layer)?;
    }
    Ok(layers)
}

/// Reads the outcome that a choice meets the cap, for a table of `slices` slices.
#[tactic(auto, unfolding(crate::specs::Files::fit_at, pw_outside::specs::Reading::bind))]
fn fit_of<S: ByteSource>(
    alloc: Global,
    source: &mut S,
    place: &mut u64,
    slices: u32,
) -> Result<LeastOutcome, TableFault>
    requires few { slices ≤ MAX_TABLE_SLICES }
    requires room { place.old + 131100 < 2 ^ 62 }
    ensures bytes { Gives told_fault said_by (S.left source.old) (S.left source.new) place.old place.new result
        (fit_at slices) }
    ensures said { IfOk result (λ v. (t : Table) → length t.slices ≡ slices → CanBeSaid t (said_by v)) }
    ensures widths { IfOk result (λ v. AreWide (said_by v)) }
    ensures place { IfOk result (λ _. place.new ≤ place.old + 537526290) }
    ensures becomes { GoesOn S.becomes source.old source.new }
    ensures cause { CountsFault (S.faults source.old) (S.faults source.new) (is_failed result) }
{
    let choice = read_indices(alloc, source, place, slices)?;
    let size = size_of(source, place)?;
    let error = read_u64(source, place, SHORT)?;
    let multiplier = read_u64(source, place, SHORT)?;
    let layers = layers_of(alloc, source, place, slices + 1)?;
    Ok(LeastOutcome::Fits {
        choice,
        size,
        error,
        layers,
        multiplier,
    })
}

/// Reads the outcome that no choice meets the cap.
#[tactic(auto, unfolding(crate::specs::Files::none_at, pw_outside::specs::Reading::bind))]
fn none_of<S: ByteSource>(source: &mut S, place: &mut u64) -> Result<LeastOutcome, TableFault>
    requires { place.old + 8 < 2 ^ 64 }
    ensures bytes { Gives told_fault said_by (S.left source.old) (S.left source.new) place.old place.new result
        none_at }
    ensures said { IfOk result (λ v. (t : Table) → CanBeSaid t (said_by v)) }
    ensures widths { IfOk result (λ v. AreWide (said_by v)) }
    ensures place { place.new ≤ place.old + 8 }
    ensures becomes { GoesOn S.becomes source.old source.new }
    ensures cause { CountsFault (S.faults source.old) (S.faults source.new) (is_failed result) }
{
    let least_error = read_u64(source, place, SHORT)?;
    Ok(LeastOutcome::None { least_error })
}

/// Reads the outcome of this verdict, for a table of `slices` slices.
#[tactic(auto, unfolding(crate::specs::Files::verdict_at))]
fn verdict_of<S: ByteSource>(
    alloc: Global,
    source: &mut S,
    place: &mut u64,
    verdict: u8,
    slices: u32,
) -> Result<LeastOutcome, TableFault>
    requires few { slices ≤ MAX_TABLE_SLICES }
    requires room { place.old + 131100 < 2 ^ 62 }
    ensures bytes { Gives told_fault said_by (S.left source.old) (S.left source.new) place.old place.new result
        (verdict_at verdict slices) }
    ensures said { IfOk result (λ v. (t : Table) → length t.slices ≡ slices → CanBeSaid t (said_by v)) }
    ensures widths { IfOk result (λ v. AreWide (said_by v)) }
    ensures place { IfOk result (λ _. place.new ≤ place.old + 537526290) }
    ensures becomes { GoesOn S.becomes source.old source.new }
    ensures cause { CountsFault (S.faults source.old) (S.faults source.new) (is_failed result) }
{
    if verdict == 1 {
        fit_of(alloc, source, place, slices)
    } else {
        none_of(source, place)
    }
}

/// Reads the verdict and the outcome for a table of `slices` slices.
#[tactic(auto, unfolding(crate::specs::Files::said_at, pw_outside::specs::Reading::bind))]
fn said_of<S: ByteSource>(
    alloc: Global,
    source: &mut S,
    place: &mut u64,
    slices: u32,
) -> Result<LeastOutcome, TableFault>
    requires few { slices ≤ MAX_TABLE_SLICES }
    requires room { place.old + 131110 < 2 ^ 62 }
    ensures bytes { Gives told_fault said_by (S.left source.old) (S.left source.new) place.old place.new result
        (said_at slices) }
    ensures said { IfOk result (λ v. (t : Table) → length t.slices ≡ slices → CanBeSaid t (said_by v)) }
    ensures widths { IfOk result (λ v. AreWide (said_by v)) }
    ensures place { IfOk result (λ _. place.new < 2 ^ 63) }
    ensures becomes { GoesOn S.becomes source.old source.new }
    ensures cause { CountsFault (S.faults source.old) (S.faults source.new) (is_failed result) }
{
    let at = *place;
    let verdict = read_u8(source, place, SHORT)?;
    if 1 < verdict {
        return Err(bad(ProofKind::ProofShape, at));
    }
    verdict_of(alloc, source, place, verdict, slices)
}

/// Reads a certificate up to its last field.
#[tactic(auto, unfolding(crate::specs::Files::cert_at, pw_outside::specs::Reading::bind))]
fn cert_of<S: ByteSource>(
    alloc: Global,
    source: &mut S,
    place: &mut u64,
) -> Result<LeastProof, TableFault>
    requires { place.old ≡ 0 }
    ensures bytes { Gives told_fault (λ p. p) (S.left source.old) (S.left source.new) place.old place.new result
        cert_at }
    ensures written { IfOk result IsWritten }
    ensures becomes { GoesOn S.becomes source.old source.new }
    ensures cause { CountsFault (S.faults source.old) (S.faults source.new) (is_failed result) }
{
    let magic = read_u32(source, place, SHORT)?;
    if magic != MAGIC {
        return Err(bad(ProofKind::ProofMagic, 0));
    }
    let at = *place;
    let version = read_u8(source, place, SHORT)?;
    if version != 1 {
        return Err(bad(ProofKind::ProofMagic, at));
    }
    let cap = read_u64(source, place, SHORT)?;
    let table = read_proof_table(alloc, source, place)?;
    let slices = table.slices.as_slice().len() as u32;
    let outcome = said_of(alloc, source, place, slices)?;
    Ok(LeastProof {
        table,
        cap,
        outcome,
    })
}

/// Reads a whole certificate file.
///
/// The errors are `Bad` with the first error of the bytes, `Failed` if a call of the source failed, and `NoMemory`.
#[tactic(auto, unfolding(crate::specs::Files::certified, pw_outside::specs::Reading::bind))]
pub fn read_least<S: ByteSource>(alloc: Global, source: &mut S) -> Result<LeastProof, TableFault>
    // If the source's bytes are visible, the result is the certificate that they are, or their first error.
    ensures bytes { Told (S.left source.old) (λ bytes. Answers told_fault (λ p. p) result (certified bytes)) }
    // It can be written and checked.
    ensures written { IfOk result IsWritten }
    // A certificate is returned only if the input was read to its end.
    ensures end { OnOk result (IsAtEnd (S.left source.new)) }
    ensures becomes { GoesOn S.becomes source.old source.new }
    // The error is `Failed` exactly if a call of the source failed.
    ensures cause { CountsFault (S.faults source.old) (S.faults source.new) (is_failed result) }
{
    let mut place = 0;
    let proof = cert_of(alloc, source, &mut place)?;
    let mut byte = [0u8; 1];
    let count = fill(source, &mut byte)?;
    if 0 < count {
        return Err(bad(ProofKind::ProofTrailing, place));
    }
    Ok(proof)
}
