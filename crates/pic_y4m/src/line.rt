//! Reads one line of an input.

ghost use Rattle.std.specs.Prelude.{◌≡◌, ◌+◌, ◌<◌, ◌≤◌, ◌^◌, IfOk, IfSome, length, false};
ghost use Rattle.std.specs.Io.KnownBytes.{IsAtEnd};
ghost use Rattle.std.specs.Option.{IfNone};
ghost use Rattle.pw_outside.specs.Ports.{CountsFault, GoesOn};
ghost use Rattle.pw_outside.specs.Reading.{Gives};
ghost use Rattle.pic_y4m.specs.Faults.{told_fault, is_failed, is_out_of_memory};
ghost use Rattle.pic_y4m.specs.Line.{next_line};

use crate::bytes::next_byte;
use crate::fault::{PictureFault, PictureKind, bad};
use arrayvec::ArrayVec;
use pw_outside::ByteSource;
use std::marker::Model;

/// The maximum length of a line, in bytes with its line feed.
pub(crate) const MAX_LINE: usize = 1024;

/// The bytes of a line without its line feed.
#[derive(Drop)]
pub(crate) struct Line {
    bytes: ArrayVec<u8, 1024>,
}

impl Model for Line {
    ghost use Rattle.std.specs.Prelude.{ℕ, List};

    ghost Value = { List ℕ };

    ghost view = { λ l. l.bytes.items };
}

impl Line {
    ghost use Rattle.std.specs.Prelude.{◌≡◌};

    pub(crate) fn as_slice(&self) -> &[u8]
        ensures { result.now ≡ self.now }
    {
        self.bytes.as_slice()
    }
}

/// Reads the next line, of at most `most` bytes with its line feed; `None` at the end of the input. A longer line
/// is a fault of kind `long` at `long_at`.
pub(crate) fn line_of<S: ByteSource>(
    source: &mut S,
    place: &mut u64,
    most: usize,
    long: PictureKind,
    long_at: u64,
) -> Result<Option<Line>, PictureFault>
    requires most { most ≤ 1024 }
    requires some { 1 ≤ most }
    requires room { place.old < 2 ^ 63 }
    ensures bytes { Gives told_fault (λ x. x) (S.left source.old) (S.left source.new) place.old place.new result (next_line most long long_at) }
    ensures len { IfOk result (λ line. IfSome line (λ l. length l < most)) }
    ensures place { place.new ≤ place.old + most }
    ensures same { IfOk result (λ line. IfNone line (place.new ≡ place.old)) }
    ensures end { IfOk result (λ line. IfNone line (IsAtEnd (S.left source.new))) }
    ensures becomes { GoesOn S.becomes source.old source.new }
    ensures cause { CountsFault (S.faults source.old) (S.faults source.new) (is_failed result) }
    ensures memory { is_out_of_memory result ≡ false }
{
    let mut bytes: ArrayVec<u8, 1024> = ArrayVec::new();
    for _ in 0..most {
        match next_byte(source)? {
            Some(b'\n') => {
                *place += bytes.len() as u64 + 1;
                return Ok(Some(Line { bytes }));
            }
            Some(byte) => bytes.push(byte),
            None if bytes.is_empty() => return Ok(None),
            None => return Err(bad(PictureKind::Truncated, *place + bytes.len() as u64)),
        }
    }
    Err(bad(long, long_at))
}
