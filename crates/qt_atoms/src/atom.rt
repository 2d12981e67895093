//! Atoms, walk entries, and errors of reading them.

ghost use Rattle.std.specs.Prelude.{◌≡◌};
ghost use Rattle.qt_atoms.specs.declared.atom.AtomFault.TheVariants as faults;

use pw_outside::Failed;
use thiserror::Error;

/// An atom of a file: its kind, its offset, and the start and end offsets of its body.
#[derive(Clone, Copy, Debug, PartialEq, Eq)]
pub struct Atom {
    pub kind: [u8; 4],
    pub at: u64,
    pub body: u64,
    pub end: u64,
}

/// The next entry of a walk.
#[derive(Clone, Copy, Debug, PartialEq, Eq)]
pub enum Step {
    Atom(Atom),
    /// The walk ends: fewer than 8 bytes are left, or an atom inside a parent has size 0.
    End,
}

/// Why no atom could be read.
#[derive(Clone, Copy, Debug, PartialEq, Eq, Error)]
pub enum AtomFault {
    /// The atom at this offset has a bad size: 2 to 7, a 64-bit size below 16 or without room for it, or past the
    /// end.
    #[error("Size")]
    Size(u64),
    /// The store failed.
    #[error("Failed")]
    Failed,
}

impl From<Failed> for AtomFault {
    ghost from_gives = { λ _ e. e ≡ faults.Failed };

    fn from(_: Failed) -> AtomFault {
        AtomFault::Failed
    }
}
