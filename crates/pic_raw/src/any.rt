//! A reader of pictures in any form.

ghost use Rattle.std.specs.Prelude.{◌≡◌, IfOk, IfSome, false};
ghost use Rattle.std.specs.Io.KnownBytes.{IsAtEnd};
ghost use Rattle.std.specs.Option.{IfNone};
ghost use Rattle.pw_outside.specs.Ports.{CountsFault, GoesOn};
ghost use Rattle.pw_outside.specs.Reading.{Gives};
ghost use Rattle.pic_y4m.specs.Faults.{told_fault, is_failed, is_out_of_memory};
ghost use Rattle.pic_y4m.specs.HeadLine.{IsHead};

use crate::reader::RawReader;
use pic_y4m::{Head, PictureFault, Y4mReader};
use pw_outside::ByteSource;
use pw_planes::Picture;
use std::alloc::Global;

/// Reads the pictures of an input in order, in the input's format.
#[derive(Drop)]
pub enum AnyReader {
    /// A Y4M input.
    Y4m(Y4mReader),
    /// A raw planar input.
    Raw(RawReader),
}

impl AnyReader {
    ghost use Rattle.pic_raw.specs.Raw.{IsPicture};
    ghost use Rattle.pic_raw.specs.Any.{IsReader, IsAfter, head_of, frames_of, place_of, place_after, start_of, next_of};

    /// A reader of an input: of raw planar pictures if their form is given, which must be within the limits;
    /// otherwise of Y4M, whose head line is read.
    ///
    /// The errors are those of [`Y4mReader::start`]; there is none if the form is given. Takes no memory.
    #[tactic(auto, unfolding(pw_outside::specs::Reading::bind))]
    pub fn start<S: ByteSource>(
        source: &mut S,
        form: Option<Head>,
    ) -> Result<AnyReader, PictureFault>
        requires { IfSome form IsHead }
        // If the source's bytes are visible, the result is the reader of their form, or the first fault of the head
        // line.
        ensures bytes { Gives told_fault (λ r. r) (S.left source.old) (S.left source.new) 0 (place_after result) result (start_of form) }
        ensures reader { IfOk result IsReader }
        // No picture is read yet.
        ensures fresh { IfOk result (λ r. frames_of r ≡ 0) }
        ensures becomes { GoesOn S.becomes source.old source.new }
        // The error is `Failed` exactly if a call of the source failed.
        ensures cause { CountsFault (S.faults source.old) (S.faults source.new) (is_failed result) }
        // Takes no memory.
        ensures memory { is_out_of_memory result ≡ false }
    {
        match form {
            Some(head) => Ok(AnyReader::Raw(RawReader::new(head))),
            None => {
                let reader = Y4mReader::start(source)?;
                Ok(AnyReader::Y4m(reader))
            }
        }
    }

    /// The form of all pictures.
    pub fn head(&self) -> Head
        ensures head { result ≡ head_of self.now }
        ensures limits { IsHead result }
    {
        match self {
            AnyReader::Y4m(reader) => reader.head(),
            AnyReader::Raw(reader) => reader.head(),
        }
    }

    /// Reads the next picture; `None` at the end of the input.
    ///
    /// The errors are those of the inner reader. After an error the reader isn't used again.
    pub fn next<S: ByteSource>(
        &mut self,
        alloc: Global,
        source: &mut S,
    ) -> Result<Option<Picture>, PictureFault>
        // If the source's bytes are visible, the result is the next picture, the end, or the first fault.
        ensures bytes { Gives told_fault (λ p. p) (S.left source.old) (S.left source.new) (place_of self.old) (place_of self.new) result (next_of self.old) }
        // A picture has the head's form, and samples within their bit depths.
        ensures picture { IfOk result (λ picture. IfSome picture (IsPicture (head_of self.old))) }
        // Each picture is counted, at most `MAX_FRAMES`.
        ensures after { IsAfter self.old self.new result }
        ensures reader { IsReader self.new }
        // `None` only after all bytes of the source were read.
        ensures end { IfOk result (λ picture. IfNone picture (IsAtEnd (S.left source.new))) }
        ensures becomes { GoesOn S.becomes source.old source.new }
        // The error is `Failed` exactly if a call of the source failed.
        ensures cause { CountsFault (S.faults source.old) (S.faults source.new) (is_failed result) }
    {
        match self {
            AnyReader::Y4m(reader) => reader.next(alloc, source),
            AnyReader::Raw(reader) => reader.next(alloc, source),
        }
    }
}
