//! Laws over the definitions alone.

ghost use Rattle.pr_head.specs.Laws.{FrameHeaderIsReadAgain, PictureHeaderIsReadAgain, SliceSizesAreReadAgain, SliceHeaderIsReadAgain};

/// The header of a frame that was written is read again.
pub fn frame_header_is_read_again()
    ensures { FrameHeaderIsReadAgain }
{}

/// The header of a picture that was written is read again.
pub fn picture_header_is_read_again()
    ensures { PictureHeaderIsReadAgain }
{}

/// The table of the sizes of a picture's slices that was written is read again.
pub fn slice_sizes_are_read_again()
    ensures { SliceSizesAreReadAgain }
{}

/// The header of a slice that was written is read again.
pub fn slice_header_is_read_again()
    ensures { SliceHeaderIsReadAgain }
{}
