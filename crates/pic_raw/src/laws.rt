//! Laws of the meaning of an input, over the definitions alone.

ghost use Rattle.pic_raw.specs.Any.{LeftHaveForm, NextIsFirst, PicturesHaveForm, WrittenIsMeant, Y4mIsMeant};
ghost use Rattle.pic_raw.specs.Writing.{PicturesAreRead, WrittenIsRead};

/// The pictures that remain for a reader are the next picture and those that remain after it.
pub fn next_is_first()
    ensures { NextIsFirst }
{}

/// The pictures that remain for a reader have its head's form; with those read before they are at most
/// `pic_y4m::MAX_FRAMES`.
pub fn left_have_form()
    ensures { LeftHaveForm }
{}

/// The pictures of an input have its head's form, and are at most `pic_y4m::MAX_FRAMES`.
pub fn pictures_have_form()
    ensures { PicturesHaveForm }
{}

/// Without a form, an input has its meaning as Y4M.
pub fn y4m_is_meant()
    ensures { Y4mIsMeant }
{}

/// A written raw planar picture is read back, and the bytes after it remain.
pub fn written_is_read()
    ensures { WrittenIsRead }
{}

/// A reader returns exactly the written raw planar pictures, and then the end.
pub fn pictures_are_read()
    ensures { PicturesAreRead }
{}

/// Written raw planar pictures mean exactly the pictures that were written.
pub fn written_is_meant()
    ensures { WrittenIsMeant }
{}
