//! Reads raw planar pictures in order.

ghost use Rattle.std.specs.Prelude.{◌≡◌, IfOk, IfSome};
ghost use Rattle.std.specs.Io.KnownBytes.{IsAtEnd};
ghost use Rattle.std.specs.Option.{IfNone};
ghost use Rattle.pw_outside.specs.Ports.{CountsFault, GoesOn};
ghost use Rattle.pw_outside.specs.Reading.{Gives};
ghost use Rattle.pic_y4m.specs.Faults.{told_fault, is_failed};
ghost use Rattle.pic_y4m.specs.HeadLine.{IsHead};

use crate::frame::frame_of;
use pic_y4m::{Head, MAX_FRAMES, PictureFault, PictureKind, next_byte};
use pw_outside::ByteSource;
use pw_planes::Picture;
use std::alloc::Global;
use std::marker::Model;

/// Reads raw planar pictures of one form in order.
#[derive(Drop)]
pub struct RawReader {
    head: Head,
    frames: u32,
    place: u64,
}

impl Model for RawReader {
    ghost use Rattle.pic_raw.specs.Raw.{State, IsState};

    ghost Value = { State };

    ghost view = { λ r. record { head = r.head; frames = r.frames; place = r.place } };

    ghost invariant = { λ r. IsState (record { head = r.head; frames = r.frames; place = r.place }) };
}

impl RawReader {
    ghost use Rattle.pic_raw.specs.Raw.{IsState, IsAfter, IsPicture, started, next_at};

    /// A reader of an input of this form, at its first byte. The head must be within the limits.
    pub fn new(head: Head) -> RawReader
        requires { IsHead head }
        ensures reader { result ≡ started head }
        ensures state { IsState result }
    {
        RawReader {
            head,
            frames: 0,
            place: 0,
        }
    }

    /// The form of all pictures.
    pub fn head(&self) -> Head
        ensures head { result ≡ self.now.head }
        ensures limits { IsHead result }
    {
        self.head
    }

    /// Reads the next picture; `None` at the end of the input.
    ///
    /// The errors are `Bad` with the first fault and its offset, `Failed` if a call of the source failed, and
    /// `NoMemory`. The faults are Truncated, SampleRange and TooManyFrames. After an error the reader isn't used
    /// again.
    #[tactic(auto, unfolding(crate::specs::Raw::next_at, pw_outside::specs::Reading::bind))]
    pub fn next<S: ByteSource>(
        &mut self,
        alloc: Global,
        source: &mut S,
    ) -> Result<Option<Picture>, PictureFault>
        // If the source's bytes are visible, the result is the next picture, the end, or the first fault.
        ensures bytes { Gives told_fault (λ p. p) (S.left source.old) (S.left source.new) self.old.place self.new.place result (next_at self.old) }
        // A picture has the head's form, and samples within their bit depths.
        ensures picture { IfOk result (λ picture. IfSome picture (IsPicture self.old.head)) }
        // Each picture is counted, at most `MAX_FRAMES`.
        ensures after { IsAfter self.old self.new result }
        ensures reader { IsState self.new }
        // `None` only after all bytes of the source were read.
        ensures end { IfOk result (λ picture. IfNone picture (IsAtEnd (S.left source.new))) }
        ensures becomes { GoesOn S.becomes source.old source.new }
        // The error is `Failed` exactly if a call of the source failed.
        ensures cause { CountsFault (S.faults source.old) (S.faults source.new) (is_failed result) }
    {
        if self.frames == MAX_FRAMES {
            return match next_byte(source)? {
                None => Ok(None),
                Some(_) => Err(PictureFault::Bad {
                    kind: PictureKind::TooManyFrames,
                    place: self.place,
                }),
            };
        }
        let mut place = self.place;
        match frame_of(alloc, source, &mut place, &self.head)? {
            None => Ok(None),
            Some(picture) => {
                self.frames += 1;
                self.place = place;
                Ok(Some(picture))
            }
        }
    }
}
