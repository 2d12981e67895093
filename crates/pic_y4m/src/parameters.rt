//! Reads the parameters of a head line.

ghost use Rattle.std.specs.Prelude.{◌≡◌, ◌+◌, ◌<◌, ◌≤◌, ◌^◌, IfOk, length, position, false};
ghost use Rattle.std.specs.List.{position_or_len, slice_split};
ghost use Rattle.pw_outside.specs.Reading.{Answers};
ghost use Rattle.pic_y4m.specs.Faults.{told_fault, is_failed, is_out_of_memory};
ghost use Rattle.pic_y4m.specs.Parameters.{none_found, is_space, with_width, with_height, with_rate, with_mode, with_format, with_parameter, parameters_of, AreWithin};

use crate::fault::{PictureFault, PictureKind, bad};
use crate::values::{Format, Rate, format_of, interlace_of, is, number_within, rate_of};
use pw_planes::{Interlace, MAX_HEIGHT, MAX_WIDTH};

/// The interlacing, and the offset of its parameter.
#[derive(Clone, Copy, Debug, PartialEq, Eq)]
pub(crate) struct Mode {
    pub interlace: Interlace,
    pub place: u64,
}

/// The parameters found so far.
#[derive(Clone, Copy, Debug, PartialEq, Eq)]
pub(crate) struct Parameters {
    pub width: Option<u16>,
    pub height: Option<u16>,
    pub rate: Option<Rate>,
    pub mode: Option<Mode>,
    pub format: Option<Format>,
}

/// `W`: the width.
#[tactic(auto, unfolding(crate::specs::Parameters::with_width, pw_outside::specs::Reading::bind))]
fn with_width(found: Parameters, place: u64, value: &[u8]) -> Result<Parameters, PictureFault>
    requires { AreWithin found }
    ensures answer { Answers told_fault (λ p. p) result (with_width found place value.now) }
    ensures within { IfOk result AreWithin }
    ensures pure { is_failed result ≡ false }
    ensures memory { is_out_of_memory result ≡ false }
{
    if found.width.is_some() {
        return Err(bad(PictureKind::Parameter, place));
    }
    let Some(width) = number_within(value, 1, u64::from(MAX_WIDTH)) else {
        return Err(bad(PictureKind::Parameter, place));
    };
    Ok(Parameters {
        width: Some(width as u16),
        ..found
    })
}

/// `H`: the height.
#[tactic(auto, unfolding(crate::specs::Parameters::with_height, pw_outside::specs::Reading::bind))]
fn with_height(found: Parameters, place: u64, value: &[u8]) -> Result<Parameters, PictureFault>
    requires { AreWithin found }
    ensures answer { Answers told_fault (λ p. p) result (with_height found place value.now) }
    ensures within { IfOk result AreWithin }
    ensures pure { is_failed result ≡ false }
    ensures memory { is_out_of_memory result ≡ false }
{
    if found.height.is_some() {
        return Err(bad(PictureKind::Parameter, place));
    }
    let Some(height) = number_within(value, 1, u64::from(MAX_HEIGHT)) else {
        return Err(bad(PictureKind::Parameter, place));
    };
    Ok(Parameters {
        height: Some(height as u16),
        ..found
    })
}

/// `F`: the frame rate.
#[tactic(auto, unfolding(crate::specs::Parameters::with_rate, pw_outside::specs::Reading::bind))]
fn with_rate(found: Parameters, place: u64, value: &[u8]) -> Result<Parameters, PictureFault>
    requires { AreWithin found }
    ensures answer { Answers told_fault (λ p. p) result (with_rate found place value.now) }
    ensures within { IfOk result AreWithin }
    ensures pure { is_failed result ≡ false }
    ensures memory { is_out_of_memory result ≡ false }
{
    if found.rate.is_some() {
        return Err(bad(PictureKind::Parameter, place));
    }
    let Some(rate) = rate_of(value) else {
        return Err(bad(PictureKind::Parameter, place));
    };
    Ok(Parameters {
        rate: Some(rate),
        ..found
    })
}

/// `I`: the interlacing.
#[tactic(auto, unfolding(crate::specs::Parameters::with_mode, pw_outside::specs::Reading::bind))]
fn with_mode(found: Parameters, place: u64, value: &[u8]) -> Result<Parameters, PictureFault>
    requires { AreWithin found }
    ensures answer { Answers told_fault (λ p. p) result (with_mode found place value.now) }
    ensures within { IfOk result AreWithin }
    ensures pure { is_failed result ≡ false }
    ensures memory { is_out_of_memory result ≡ false }
{
    if found.mode.is_some() {
        return Err(bad(PictureKind::Parameter, place));
    }
    if is(value, b"m") {
        return Err(bad(PictureKind::Interlace, place));
    }
    let Some(interlace) = interlace_of(value) else {
        return Err(bad(PictureKind::Parameter, place));
    };
    Ok(Parameters {
        mode: Some(Mode { interlace, place }),
        ..found
    })
}

/// `C`: the format tag.
#[tactic(auto, unfolding(crate::specs::Parameters::with_format, pw_outside::specs::Reading::bind))]
fn with_format(found: Parameters, place: u64, value: &[u8]) -> Result<Parameters, PictureFault>
    requires { AreWithin found }
    ensures answer { Answers told_fault (λ p. p) result (with_format found place value.now) }
    ensures within { IfOk result AreWithin }
    ensures pure { is_failed result ≡ false }
    ensures memory { is_out_of_memory result ≡ false }
{
    if found.format.is_some() {
        return Err(bad(PictureKind::Parameter, place));
    }
    let Some(format) = format_of(value) else {
        return Err(bad(PictureKind::Chroma, place));
    };
    Ok(Parameters {
        format: Some(format),
        ..found
    })
}

/// Reads one parameter, at this offset of the input. An empty word is ignored.
#[tactic(auto, unfolding(crate::specs::Parameters::with_parameter))]
fn with_parameter(found: Parameters, place: u64, word: &[u8]) -> Result<Parameters, PictureFault>
    requires { AreWithin found }
    ensures answer { Answers told_fault (λ p. p) result (with_parameter found place word.now) }
    ensures within { IfOk result AreWithin }
    ensures pure { is_failed result ≡ false }
    ensures memory { is_out_of_memory result ≡ false }
{
    if word.is_empty() {
        return Ok(found);
    }
    let value = &word[1..];
    match word[0] {
        b'W' => with_width(found, place, value),
        b'H' => with_height(found, place, value),
        b'F' => with_rate(found, place, value),
        b'I' => with_mode(found, place, value),
        b'C' => with_format(found, place, value),
        _ => Ok(found),
    }
}

/// The index of the first space.
fn space_of(text: &[u8]) -> Option<usize>
    ensures { result ≡ position is_space text.now }
{
    text.iter().position(|b| *b == b' ')
}

/// The number of bytes before the first space.
#[tactic(auto, using(crate::proofs::Words::place_or_len))]
fn word_len(text: &[u8]) -> usize
    ensures value { result ≡ position_or_len is_space text.now }
    ensures inside { result ≤ length text.now }
{
    space_of(text).unwrap_or(text.len())
}

/// Reads the parameters of a text at this offset of the input.
pub(crate) fn parameters_of(place: u64, text: &[u8]) -> Result<Parameters, PictureFault>
    requires { place + length text.now < 2 ^ 63 }
    ensures answer { Answers told_fault (λ p. p) result (parameters_of none_found place (slice_split is_space text.now)) }
    ensures within { IfOk result AreWithin }
    ensures pure { is_failed result ≡ false }
    ensures memory { is_out_of_memory result ≡ false }
{
    let mut found = Parameters {
        width: None,
        height: None,
        rate: None,
        mode: None,
        format: None,
    };
    let mut at = 0;
    while at <= text.len() {
        let rest = &text[at..];
        let len = word_len(rest);
        found = with_parameter(found, place + at as u64, &rest[..len])?;
        at += len + 1;
    }
    Ok(found)
}
