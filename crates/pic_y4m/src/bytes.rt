//! Reads the bytes of a source, one or many at a time.

ghost use Rattle.std.specs.Prelude.{◌≡◌, ◌≤◌, ◌∷◌, ◌++◌, [], List, ℕ, IfOk, is_err, MatchOption, IsSome};
ghost use Rattle.std.specs.Io.KnownBytes.{IsAtEnd};
ghost use Rattle.std.specs.Option.{IfNone};
ghost use Rattle.pw_outside.specs.Ports.{CountsFault, GoesOn};
ghost use Rattle.pw_outside.specs.Reading.{bytes_of};
ghost use Rattle.pic_y4m.specs.Line.{NextByte};

use pw_outside::{ByteSource, Failed, fill};

/// Reads the next byte; `None` at the end of the input.
pub fn next_byte<S: ByteSource>(source: &mut S) -> Result<Option<u8>, Failed>
    ensures bytes { IfOk result (NextByte (S.left source.old) (S.left source.new)) }
    ensures end { IfOk result (λ byte. IfNone byte (IsAtEnd (S.left source.new))) }
    ensures becomes { GoesOn S.becomes source.old source.new }
    ensures cause { CountsFault (S.faults source.old) (S.faults source.new) (is_err result) }
{
    let mut piece = [0u8; 1];
    let count = fill(source, &mut piece)?;
    if count == 0 {
        return Ok(None);
    }
    Ok(Some(piece[0]))
}
