//! Reads a table and the indices of a choice within a proof file.

ghost use Rattle.std.specs.Prelude.{◌≡◌, ◌+◌, ◌<◌, ◌≤◌, ◌^◌, IfOk, length};
ghost use Rattle.std.specs.List.{All};
ghost use Rattle.pw_outside.specs.Ports.{CountsFault, GoesOn};
ghost use Rattle.pw_outside.specs.Reading.{Gives};
ghost use Rattle.rate_table.specs.declared.table.TheConstants.{MAX_TABLE_SLICES, MAX_TABLE_BYTES};
ghost use Rattle.rate_table.specs.Table.{IsTable};
ghost use Rattle.rate_table.specs.Reading.{told_fault, is_failed};
ghost use Rattle.rate_table.specs.Nested.{renamed, table_at, indices_at};

use crate::fault::{ProofKind, TableFault, bad};
use crate::field::read_u8;
use crate::reading::read_body_on;
use crate::table::FrameTable;
use pw_outside::ByteSource;
use std::alloc::Global;

/// An error of a table as the error of the proof: `TableShort` becomes `ProofShort`.
fn in_proof(fault: TableFault) -> TableFault
    ensures { result ≡ renamed fault }
{
    match fault {
        TableFault::Bad {
            kind: ProofKind::TableShort,
            place,
        } => bad(ProofKind::ProofShort, place),
        other => other,
    }
}

/// Reads the body of a table at offset `place` of a proof file and advances `place` past it.
///
/// The errors are those of [`read_body`](crate::read_body), with `ProofShort` in place of `TableShort`.
pub fn read_proof_table<S: ByteSource>(
    alloc: Global,
    source: &mut S,
    place: &mut u64,
) -> Result<FrameTable, TableFault>
    requires { place.old < 2 ^ 63 }
    ensures bytes { Gives told_fault (λ t. t) (S.left source.old) (S.left source.new) place.old place.new result
        table_at }
    ensures table { IfOk result IsTable }
    ensures place { place.new ≤ place.old + MAX_TABLE_BYTES }
    ensures becomes { GoesOn S.becomes source.old source.new }
    ensures cause { CountsFault (S.faults source.old) (S.faults source.new) (is_failed result) }
{
    match read_body_on(alloc, source, place) {
        Ok(table) => Ok(table),
        Err(fault) => Err(in_proof(fault)),
    }
}

/// Reads the indices of a choice of `count` slices, one byte each, at offset `place` of a proof file and advances
/// `place` past them.
///
/// The errors are `Bad` with `ProofShort`, `Failed` if a call of the source failed, and `NoMemory`.
#[tactic(auto, using(pw_outside::proofs::Chains::with_front_nil))]
pub fn read_indices<S: ByteSource>(
    alloc: Global,
    source: &mut S,
    place: &mut u64,
    count: u32,
) -> Result<Vec<u8>, TableFault>
    requires few { count ≤ MAX_TABLE_SLICES }
    requires room { place.old < 2 ^ 63 }
    ensures bytes { Gives told_fault (λ v. v.items) (S.left source.old) (S.left source.new) place.old place.new result
        (indices_at count) }
    ensures count { IfOk result (λ v. length v.items ≡ count) }
    ensures indices { IfOk result (λ v. All (λ index. index < 256) v.items) }
    ensures place { place.new ≤ place.old + count }
    ensures becomes { GoesOn S.becomes source.old source.new }
    ensures cause { CountsFault (S.faults source.old) (S.faults source.new) (is_failed result) }
{
    let mut choice = Vec::new(alloc);
    for _ in 0..count {
        let index = read_u8(source, place, ProofKind::ProofShort)?;
        choice.push(index)?;
    }
    Ok(choice)
}
