//! Laws of the meaning of an input, over the definitions alone.

ghost use Rattle.pic_y4m.specs.Forms.{LeftHaveForm, PicturesHaveForm};
ghost use Rattle.pic_y4m.specs.Frames.{NextIsFirst};
ghost use Rattle.pic_y4m.specs.Writing.{HeadIsRead, PicturesAreRead, WrittenIsMeant, WrittenIsRead};

/// The pictures that remain for a reader are the next picture and those that remain after it.
pub fn next_is_first()
    ensures { NextIsFirst }
{}

/// A written picture is read back, and the bytes after it remain.
pub fn written_is_read()
    ensures { WrittenIsRead }
{}

/// A reader returns exactly the written pictures, and then the end.
pub fn pictures_are_read()
    ensures { PicturesAreRead }
{}

/// A written head line is read back, and the bytes after it remain.
pub fn head_is_read()
    ensures { HeadIsRead }
{}

/// A written input means the head and the pictures that were written.
pub fn written_is_meant()
    ensures { WrittenIsMeant }
{}

/// The pictures that remain for a reader have its head's form; with those read before they are at most
/// [`MAX_FRAMES`](crate::MAX_FRAMES).
pub fn left_have_form()
    ensures { LeftHaveForm }
{}

/// The pictures of an input have its head's form, and are at most [`MAX_FRAMES`](crate::MAX_FRAMES).
pub fn pictures_have_form()
    ensures { PicturesHaveForm }
{}
