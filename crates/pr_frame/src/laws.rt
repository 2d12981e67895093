//! Laws over the definitions alone. The functions do nothing; their contracts are the laws.

ghost use Rattle.pr_frame.specs.Laws.{OneFrame, FrameOrFault, FrameHasNoFault, WrittenStands, WrittenIsReadAgain, WrittenHasLength, SlicesAreShort};

/// A sample stands for one coded frame at most.
pub fn one_frame()
    ensures { OneFrame }
{}

/// A sample stands for a coded frame, or has a fault.
pub fn frame_or_fault()
    ensures { FrameOrFault }
{}

/// A sample that stands for a coded frame has no fault.
pub fn frame_has_no_fault()
    ensures { FrameHasNoFault }
{}

/// The written bytes stand for the frame that was written.
pub fn written_stands()
    ensures { WrittenStands }
{}

/// Reading what was written gives the coded frame back.
pub fn written_is_read_again()
    ensures { WrittenIsReadAgain }
{}

/// The number of bytes that are written.
pub fn written_has_length()
    ensures { WrittenHasLength }
{}

/// A slice that can be written has fewer than 65,535 bytes.
pub fn slices_are_short()
    ensures { SlicesAreShort }
{}
