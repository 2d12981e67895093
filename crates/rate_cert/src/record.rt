//! Reads the records of a proof.

ghost use Rattle.std.specs.Prelude.{◌≡◌, ℕ, ◌+◌, ◌<◌, ◌≤◌, ◌^◌, IfOk, length};
ghost use Rattle.pw_outside.specs.Ports.{CountsFault, GoesOn};
ghost use Rattle.pw_outside.specs.Reading.{Gives};
ghost use Rattle.rate_table.specs.declared.table.TheConstants.{MAX_TABLE_SLICES};
ghost use Rattle.rate_table.specs.Reading.{told_fault, is_failed};
ghost use Rattle.rate_table.specs.Table.{Table};
ghost use Rattle.rate_cert.specs.Records.{said_by};
ghost use Rattle.rate_cert.specs.Files.{CanBeSaid, AreWide, IsWritten, fit_at, none_at, said_at, record_at};

use crate::field::SHORT;
use crate::layers::layers_of;
use crate::proof::{FrameProof, Verdict};
use pw_outside::ByteSource;
use rate_table::{
    ProofKind, TableFault, bad, read_indices, read_proof_table, read_u8, read_u32, read_u64,
};
use std::alloc::Global;

/// Reads the verdict that a choice fits, for a table of `slices` slices.
#[tactic(auto, unfolding(crate::specs::Files::fit_at, pw_outside::specs::Reading::bind))]
fn fit_of<S: ByteSource>(
    alloc: Global,
    source: &mut S,
    place: &mut u64,
    format: u8,
    slices: u32,
) -> Result<Verdict, TableFault>
    requires few { slices ≤ MAX_TABLE_SLICES }
    requires room { place.old + 131090 < 2 ^ 62 }
    ensures bytes { Gives told_fault said_by (S.left source.old) (S.left source.new) place.old place.new result
        (fit_at format slices) }
    ensures said { IfOk result (λ v. (t : Table) → length t.slices ≡ slices → CanBeSaid format t (said_by v)) }
    ensures widths { IfOk result (λ v. AreWide (said_by v)) }
    ensures place { IfOk result (λ _. place.new ≤ place.old + 672530440) }
    ensures becomes { GoesOn S.becomes source.old source.new }
    ensures cause { CountsFault (S.faults source.old) (S.faults source.new) (is_failed result) }
{
    let choice = read_indices(alloc, source, place, slices)?;
    let size = read_u32(source, place, SHORT)?;
    let error = read_u64(source, place, SHORT)?;
    let multiplier = read_u64(source, place, SHORT)?;
    let layers = layers_of(alloc, source, place, format, slices + 1)?;
    Ok(Verdict::Fits {
        choice,
        size,
        error,
        multiplier,
        layers,
    })
}

/// Reads the verdict that no choice fits.
#[tactic(auto, unfolding(crate::specs::Files::none_at, pw_outside::specs::Reading::bind))]
fn none_of<S: ByteSource>(source: &mut S, place: &mut u64) -> Result<Verdict, TableFault>
    requires { place.old + 8 < 2 ^ 64 }
    ensures bytes { Gives told_fault said_by (S.left source.old) (S.left source.new) place.old place.new result
        none_at }
    ensures said { IfOk result (λ v. (format : ℕ) → (t : Table) → CanBeSaid format t (said_by v)) }
    ensures widths { IfOk result (λ v. AreWide (said_by v)) }
    ensures place { place.new ≤ place.old + 8 }
    ensures becomes { GoesOn S.becomes source.old source.new }
    ensures cause { CountsFault (S.faults source.old) (S.faults source.new) (is_failed result) }
{
    let least = read_u64(source, place, SHORT)?;
    Ok(Verdict::None { least })
}

/// Reads the verdict on a table of `slices` slices.
#[tactic(auto, unfolding(crate::specs::Files::said_at))]
fn said_of<S: ByteSource>(
    alloc: Global,
    source: &mut S,
    place: &mut u64,
    format: u8,
    verdict: u8,
    slices: u32,
) -> Result<Verdict, TableFault>
    requires few { slices ≤ MAX_TABLE_SLICES }
    requires room { place.old + 131090 < 2 ^ 62 }
    ensures bytes { Gives told_fault said_by (S.left source.old) (S.left source.new) place.old place.new result
        (said_at format verdict slices) }
    ensures said { IfOk result (λ v. (t : Table) → length t.slices ≡ slices → CanBeSaid format t (said_by v)) }
    ensures widths { IfOk result (λ v. AreWide (said_by v)) }
    ensures place { IfOk result (λ _. place.new ≤ place.old + 672530440) }
    ensures becomes { GoesOn S.becomes source.old source.new }
    ensures cause { CountsFault (S.faults source.old) (S.faults source.new) (is_failed result) }
{
    if verdict == 1 {
        fit_of(alloc, source, place, format, slices)
    } else {
        none_of(source, place)
    }
}

/// Reads a record after its mark. It has less than 2^30 bytes.
#[tactic(auto, unfolding(crate::specs::Files::record_at, pw_outside::specs::Reading::bind))]
pub(crate) fn record_of<S: ByteSource>(
    alloc: Global,
    source: &mut S,
    place: &mut u64,
    format: u8,
) -> Result<FrameProof, TableFault>
    requires { place.old + 400000000 < 2 ^ 62 }
    ensures bytes { Gives told_fault (λ p. p) (S.left source.old) (S.left source.new) place.old place.new result
        (record_at format) }
    ensures written { IfOk result (IsWritten format) }
    ensures place { IfOk result (λ _. place.new + 1 ≤ place.old + 2 ^ 30) }
    ensures becomes { GoesOn S.becomes source.old source.new }
    ensures cause { CountsFault (S.faults source.old) (S.faults source.new) (is_failed result) }
{
    let at = *place;
    let verdict = read_u8(source, place, SHORT)?;
    if 1 < verdict {
        return Err(bad(ProofKind::ProofShape, at));
    }
    let table = read_proof_table(alloc, source, place)?;
    let slices = table.slices.as_slice().len() as u32;
    let verdict = said_of(alloc, source, place, format, verdict, slices)?;
    Ok(FrameProof { table, verdict })
}
