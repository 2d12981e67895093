//! Reads the head line of an input.

ghost use Rattle.std.specs.Prelude.{◌≡◌, ◌<◌, ◌≤◌, ◌^◌, IfOk, length, false};
ghost use Rattle.pw_outside.specs.Ports.{CountsFault, GoesOn};
ghost use Rattle.pw_outside.specs.Reading.{Gives, Answers};
ghost use Rattle.pic_y4m.specs.Faults.{told_fault, is_failed, is_out_of_memory};
ghost use Rattle.pic_y4m.specs.Line.{magic_at};
ghost use Rattle.pic_y4m.specs.Parameters.{AreWithin};
ghost use Rattle.pic_y4m.specs.HeadLine.{mode_allowed, stream_of, text_stream, stream_at, IsStream};

use crate::fault::{PictureFault, PictureKind, bad};
use crate::head::Head;
use crate::line::{MAX_LINE, line_of};
use crate::parameters::{Mode, Parameters, parameters_of};
use crate::values::{Format, Rate, is};
use pw_outside::{ByteSource, fill};
use pw_planes::{AlphaKind, Chroma, Depth, Interlace};

// The magic word at the start of an input.
const MAGIC: [u8; 9] = *b"YUV4MPEG2";

/// The contents of a head line: the form of all frames.
#[derive(Clone, Copy, Debug, PartialEq, Eq)]
pub(crate) struct Stream {
    pub head: Head,
    /// Whether two luma rows share a chroma row, as in 4:2:0.
    pub shares_rows: bool,
}

/// Reads the magic word.
#[tactic(auto, unfolding(crate::specs::Line::magic_at, pw_outside::specs::Reading::bind))]
fn magic_of<S: ByteSource>(source: &mut S) -> Result<(), PictureFault>
    ensures bytes { Gives told_fault (λ x. x) (S.left source.old) (S.left source.new) 0 9 result magic_at }
    ensures becomes { GoesOn S.becomes source.old source.new }
    ensures cause { CountsFault (S.faults source.old) (S.faults source.new) (is_failed result) }
    ensures memory { is_out_of_memory result ≡ false }
{
    let mut piece = [0u8; 9];
    let count = fill(source, &mut piece)?;
    if !is(&piece[..count], &MAGIC[..count]) {
        return Err(bad(PictureKind::Magic, 0));
    }
    if count < 9 {
        return Err(bad(PictureKind::Truncated, count as u64));
    }
    Ok(())
}

/// Refuses interlaced frames in 4:2:0 or of odd height.
#[tactic(auto, unfolding(crate::specs::HeadLine::mode_allowed))]
fn check_mode(found: &Parameters, format: Format) -> Result<(), PictureFault>
    ensures answer { Answers told_fault (λ x. x) result (mode_allowed found.now format) }
    ensures pure { is_failed result ≡ false }
    ensures memory { is_out_of_memory result ≡ false }
{
    let Some(mode) = found.mode else {
        return Ok(());
    };
    if mode.interlace == Interlace::Progressive {
        return Ok(());
    }
    let odd = match found.height {
        Some(height) => height % 2 == 1,
        None => false,
    };
    if format.shares_rows || odd {
        return Err(bad(PictureKind::Interlace, mode.place));
    }
    Ok(())
}

/// The form from all parameters.
#[tactic(auto, unfolding(crate::specs::HeadLine::stream_of, crate::specs::HeadLine::mode_allowed, pw_outside::specs::Reading::bind))]
fn stream_of(found: &Parameters) -> Result<Stream, PictureFault>
    requires { AreWithin found.now }
    ensures answer { Answers told_fault (λ x. x) result (stream_of found.now) }
    ensures stream { IfOk result IsStream }
    ensures pure { is_failed result ≡ false }
    ensures memory { is_out_of_memory result ≡ false }
{
    let format = found.format.unwrap_or(Format {
        chroma: Chroma::C422,
        depth: Depth::D8,
        shares_rows: true,
    });
    check_mode(found, format)?;
    let Some(width) = found.width else {
        return Err(bad(PictureKind::Parameter, 0));
    };
    let Some(height) = found.height else {
        return Err(bad(PictureKind::Parameter, 0));
    };
    let rate = found.rate.unwrap_or(Rate { num: 25, den: 1 });
    let interlace = match found.mode {
        Some(mode) => mode.interlace,
        None => Interlace::Progressive,
    };
    Ok(Stream {
        head: Head {
            width,
            height,
            chroma: format.chroma,
            depth: format.depth,
            alpha: AlphaKind::Absent,
            interlace,
            num: rate.num,
            den: rate.den,
        },
        shares_rows: format.shares_rows,
    })
}

/// The form from the text between the magic word and the line feed.
#[tactic(auto, unfolding(crate::specs::HeadLine::text_stream, pw_outside::specs::Reading::bind))]
fn text_stream(text: &[u8]) -> Result<Stream, PictureFault>
    requires { length text.now < 2 ^ 62 }
    ensures answer { Answers told_fault (λ x. x) result (text_stream text.now) }
    ensures stream { IfOk result IsStream }
    ensures pure { is_failed result ≡ false }
    ensures memory { is_out_of_memory result ≡ false }
{
    if !text.is_empty() && text[0] != b' ' {
        return Err(bad(PictureKind::Parameter, 9));
    }
    let found = parameters_of(9, text)?;
    stream_of(&found)
}

/// Reads the head line. `place` is then its length in bytes.
#[tactic(auto, unfolding(crate::specs::HeadLine::stream_at, pw_outside::specs::Reading::bind))]
pub(crate) fn stream_at<S: ByteSource>(
    source: &mut S,
    place: &mut u64,
) -> Result<Stream, PictureFault>
    ensures bytes { Gives told_fault (λ x. x) (S.left source.old) (S.left source.new) 0 place.new result stream_at }
    ensures stream { IfOk result IsStream }
    ensures place { place.new ≤ 1024 }
    ensures becomes { GoesOn S.becomes source.old source.new }
    ensures cause { CountsFault (S.faults source.old) (S.faults source.new) (is_failed result) }
    ensures memory { is_out_of_memory result ≡ false }
{
    *place = 9;
    magic_of(source)?;
    let Some(line) = line_of(source, place, MAX_LINE - 9, PictureKind::Parameter, 1024)? else {
        return Err(bad(PictureKind::Truncated, 9));
    };
    text_stream(line.as_slice())
}
