//! Laws over the definitions alone.

ghost use Rattle.run_look.specs.Checking.{EndsOnce};
ghost use Rattle.run_look.specs.Agreeing.{DoneOnce};
ghost use Rattle.run_look.specs.Reproofing.{StaysAsItIs};

use pr_frame::{frame_has_no_fault, one_frame};

/// Checking a proof ends in only one way; if it is done, the number of records is unique.
pub fn checking_ends_once()
    ensures { EndsOnce }
{}

/// If checking a proof with a movie and pictures is done, it ends in no other way.
pub fn agreeing_is_done_once()
    ensures { DoneOnce }
{
    one_frame();
    frame_has_no_fault();
}

/// A proof of format 2 without a fault is rewritten byte for byte, and no clause is refused.
pub fn proof_stays_as_it_is()
    ensures { StaysAsItIs }
{}
