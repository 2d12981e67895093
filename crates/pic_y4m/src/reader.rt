//! Reads an input picture by picture.

ghost use Rattle.std.specs.Prelude.{◌≡◌, IfOk, IfSome, false};
ghost use Rattle.std.specs.Io.KnownBytes.{IsAtEnd};
ghost use Rattle.std.specs.Option.{IfNone};
ghost use Rattle.pw_outside.specs.Ports.{CountsFault, GoesOn};
ghost use Rattle.pw_outside.specs.Reading.{Gives};
ghost use Rattle.pw_planes.specs.declared.kinds.AlphaKind.TheVariants.{Absent};
ghost use Rattle.pic_y4m.specs.Faults.{told_fault, is_failed, is_out_of_memory};
ghost use Rattle.pic_y4m.specs.HeadLine.{IsHead};

use crate::bytes::next_byte;
use crate::fault::{PictureFault, PictureKind, bad};
use crate::frame::frame_of;
use crate::head::{Head, MAX_FRAMES};
use crate::head_line::{Stream, stream_at};
use pw_outside::ByteSource;
use pw_planes::Picture;
use std::alloc::Global;
use std::marker::Model;

/// Reads the pictures of an input in order.
#[derive(Drop)]
pub struct Y4mReader {
    form: Stream,
    frames: u32,
    place: u64,
}

impl Model for Y4mReader {
    ghost use Rattle.pic_y4m.specs.Frames.{State, IsState};

    ghost Value = { State };

    ghost view = { λ r. record { form = r.form; frames = r.frames; place = r.place } };

    ghost invariant = { λ r. IsState (record { form = r.form; frames = r.frames; place = r.place }) };
}

impl Y4mReader {
    ghost use Rattle.pic_y4m.specs.Frames.{IsState, IsAfter, HasForm, start_at, next_at, place_after};

    /// Reads the head line.
    ///
    /// The errors are `Bad` with the first fault of the line and its offset, and `Failed` if a call of the source
    /// failed. Takes no memory.
    #[tactic(auto, unfolding(crate::specs::Frames::start_at, pw_outside::specs::Reading::bind))]
    pub fn start<S: ByteSource>(source: &mut S) -> Result<Y4mReader, PictureFault>
        // If the source's bytes are visible, the result is the reader of their head line, or its first fault.
        ensures bytes { Gives told_fault (λ r. r) (S.left source.old) (S.left source.new) 0 (place_after result) result start_at }
        // The head is within the limits.
        ensures reader { IfOk result IsState }
        // No picture is read yet.
        ensures fresh { IfOk result (λ r. r.frames ≡ 0) }
        ensures becomes { GoesOn S.becomes source.old source.new }
        // The error is `Failed` exactly if a call of the source failed.
        ensures cause { CountsFault (S.faults source.old) (S.faults source.new) (is_failed result) }
        // Takes no memory.
        ensures memory { is_out_of_memory result ≡ false }
    {
        let mut place = 0;
        let form = stream_at(source, &mut place)?;
        Ok(Y4mReader {
            form,
            frames: 0,
            place,
        })
    }

    /// The form of all pictures.
    pub fn head(&self) -> Head
        ensures head { result ≡ self.now.form.head }
        ensures limits { IsHead result }
        ensures alpha { result.alpha ≡ Absent }
    {
        self.form.head
    }

    /// Reads the next picture; `None` at the end of the input.
    ///
    /// The errors are `Bad` with the first fault and its offset, `Failed` if a call of the source failed, and
    /// `NoMemory`. After an error the reader isn't used again.
    #[tactic(auto, unfolding(crate::specs::Frames::next_at, pw_outside::specs::Reading::bind))]
    pub fn next<S: ByteSource>(
        &mut self,
        alloc: Global,
        source: &mut S,
    ) -> Result<Option<Picture>, PictureFault>
        // If the source's bytes are visible, the result is the next picture, the end, or the first fault.
        ensures bytes { Gives told_fault (λ p. p) (S.left source.old) (S.left source.new) self.old.place self.new.place result (next_at self.old) }
        // A picture has the head's form, and samples below 2 to the bit depth.
        ensures form { IfOk result (λ picture. IfSome picture (HasForm self.old.form.head)) }
        // Each picture is counted, at most `MAX_FRAMES`.
        ensures after { IsAfter self.old self.new result }
        ensures reader { IsState self.new }
        // `None` only after all bytes of the source were read.
        ensures end { IfOk result (λ picture. IfNone picture (IsAtEnd (S.left source.new))) }
        ensures becomes { GoesOn S.becomes source.old source.new }
        // The error is `Failed` exactly if a call of the source failed.
        ensures cause { CountsFault (S.faults source.old) (S.faults source.new) (is_failed result) }
    {
        if self.frames == MAX_FRAMES {
            return match next_byte(source)? {
                None => Ok(None),
                Some(_) => Err(bad(PictureKind::TooManyFrames, self.place)),
            };
        }
        let mut place = self.place;
        match frame_of(alloc, source, &mut place, &self.form)? {
            None => Ok(None),
            Some(picture) => {
                self.frames += 1;
                self.place = place;
                Ok(Some(picture))
            }
        }
    }
}
