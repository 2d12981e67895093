//! Errors of reading a table or a proof.

ghost use Rattle.std.specs.Prelude.{◌≡◌};
ghost use Rattle.rate_table.specs.declared.fault.TableFault.TheVariants as faults;

use pw_outside::Failed;
use std::alloc::{AllocError, AllocFailed};
use thiserror::Error;

/// What is wrong with the bytes of a table or a proof.
#[derive(Clone, Copy, Debug, PartialEq, Eq)]
pub enum ProofKind {
    /// Wrong magic number or version of a table file.
    TableMagic,
    /// A table without slices, or a slice without entries.
    TableEmpty,
    /// A number of a table is out of range.
    TableLimit,
    /// An index is not greater than the one before.
    TableOrder,
    /// The input ends within a field of a table.
    TableShort,
    /// There are bytes after a table.
    TableTrailing,
    /// Wrong magic number or version of a proof file.
    ProofMagic,
    /// A field of a proof is out of range.
    ProofShape,
    /// The input ends within a field of a proof.
    ProofShort,
    /// There are bytes after a proof.
    ProofTrailing,
}

/// The error of a call that reads a table or a proof.
#[derive(Debug, Drop, Error)]
pub enum TableFault {
    /// The bytes are invalid; `place` is an offset from the start of the file.
    #[error("Bad")]
    Bad { kind: ProofKind, place: u64 },
    /// A call of the port failed.
    #[error("Failed")]
    Failed,
    /// Memory ran out.
    #[error("NoMemory")]
    NoMemory,
}

/// The error of this kind at this offset.
pub fn bad(kind: ProofKind, place: u64) -> TableFault
    ensures { result ≡ faults.Bad kind place }
{
    TableFault::Bad { kind, place }
}

impl From<Failed> for TableFault {
    ghost from_gives = { λ _ e. e ≡ faults.Failed };

    fn from(_: Failed) -> TableFault {
        TableFault::Failed
    }
}

impl From<AllocError> for TableFault {
    ghost from_gives = { λ _ e. e ≡ faults.NoMemory };

    fn from(_: AllocError) -> TableFault {
        TableFault::NoMemory
    }
}

impl<T: Drop> From<AllocFailed<T>> for TableFault {
    ghost from_gives = { λ _ e. e ≡ faults.NoMemory };

    fn from(_: AllocFailed<T>) -> TableFault {
        TableFault::NoMemory
    }
}
