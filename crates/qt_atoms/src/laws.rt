//! Laws over the definitions alone.

ghost use Rattle.qt_atoms.specs.Laws.{WrittenAtomStands, WalkMeetsWritten, EndedIsAtom, WrittenNumbersAreRead, WrittenLongNumbersAreRead};

/// An atom is read at the offset at which it was written.
#[tactic(auto, using(crate::proofs::WrittenAtoms::atom_stands))]
pub fn written_atom_stands()
    ensures { WrittenAtomStands }
{}

/// A walk over consecutive written atoms meets exactly these.
#[tactic(auto, using(crate::proofs::WrittenAtoms::walk_written))]
pub fn walk_meets_written()
    ensures { WalkMeetsWritten }
{}

/// An atom that was begun, filled and ended is a well-formed atom.
#[tactic(auto, using(crate::proofs::WrittenAtoms::ended_atom))]
pub fn ended_is_atom()
    ensures { EndedIsAtom }
{}

/// Consecutive 32-bit numbers that were written are read back.
#[tactic(auto, using(crate::proofs::WrittenAtoms::rows_written))]
pub fn written_numbers_are_read()
    ensures { WrittenNumbersAreRead }
{}

/// Consecutive 64-bit numbers that were written are read back.
#[tactic(auto, using(crate::proofs::WrittenAtoms::rows_written_long))]
pub fn written_long_numbers_are_read()
    ensures { WrittenLongNumbersAreRead }
{}
