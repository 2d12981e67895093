//! Parses the values of a head line's parameters.

ghost use Rattle.std.specs.Prelude.{◌≡◌, ◌≤◌, ◌<◌, ◌^◌, ◌==◌, IfSome, bytes_eq, length, position};
ghost use Rattle.pic_y4m.specs.Values.{number_within, rate_from, rate_of, interlace_of, is_shared, depth_of, format_of, IsRate};

use crate::head::{MAX_RATE_DEN, MAX_RATE_NUM};
use pw_planes::{Chroma, Depth, Interlace};
use pw_text::read_decimal;

/// A frame rate: `num` frames in `den` seconds.
#[derive(Clone, Copy, Debug, PartialEq, Eq)]
pub(crate) struct Rate {
    pub num: u32,
    pub den: u32,
}

/// The storage of a frame's planes.
#[derive(Clone, Copy, Debug, PartialEq, Eq)]
pub(crate) struct Format {
    /// The chroma subsampling within a row.
    pub chroma: Chroma,
    /// The bit depth.
    pub depth: Depth,
    /// Whether two luma rows share a chroma row, as in 4:2:0.
    pub shares_rows: bool,
}

/// Parses a decimal number from `low` to `high`.
pub(crate) fn number_within(bytes: &[u8], low: u64, high: u64) -> Option<u64>
    ensures value { result ≡ number_within low high bytes.now }
    ensures limits { IfSome result (λ n. (low ≤ n) × (n ≤ high)) }
{
    match read_decimal(bytes) {
        Ok(number) if low <= number && number <= high => Some(number),
        _ => None,
    }
}

/// The index of the first colon.
fn colon_of(bytes: &[u8]) -> Option<usize>
    ensures value { result ≡ position (λ b. b == 58) bytes.now }
    ensures inside { IfSome result (λ n. n < length bytes.now) }
{
    bytes.iter().position(|b| *b == b':')
}

/// The rate `num:den`; `0:0` is unspecified, and means 25:1.
fn rate_from(num: u64, den: u64) -> Option<Rate>
    requires num { num ≤ MAX_RATE_NUM }
    requires den { den ≤ MAX_RATE_DEN }
    ensures value { result ≡ rate_from num den }
    ensures limits { IfSome result IsRate }
{
    if num == 0 && den == 0 {
        return Some(Rate { num: 25, den: 1 });
    }
    if num == 0 || den == 0 {
        return None;
    }
    Some(Rate {
        num: num as u32,
        den: den as u32,
    })
}

/// Parses the rate `a:b`; `0:0` is unspecified, and means 25:1.
#[tactic(auto, unfolding(crate::specs::Values::rate_of))]
pub(crate) fn rate_of(bytes: &[u8]) -> Option<Rate>
    ensures value { result ≡ rate_of bytes.now }
    ensures limits { IfSome result IsRate }
{
    let colon = colon_of(bytes)?;
    let num = number_within(&bytes[..colon], 0, u64::from(MAX_RATE_NUM))?;
    let den = number_within(&bytes[colon + 1..], 0, u64::from(MAX_RATE_DEN))?;
    rate_from(num, den)
}

/// Whether the bytes spell this word.
pub(crate) fn is(bytes: &[u8], word: &[u8]) -> bool
    ensures { result ≡ bytes_eq bytes.now word.now }
{
    bytes == word
}

/// The interlacing: `p` or `?` progressive, `t` top field first, `b` bottom field first.
#[tactic(auto, unfolding(crate::specs::Values::interlace_of))]
pub(crate) fn interlace_of(bytes: &[u8]) -> Option<Interlace>
    ensures { result ≡ interlace_of bytes.now }
{
    if is(bytes, b"p") || is(bytes, b"?") {
        Some(Interlace::Progressive)
    } else if is(bytes, b"t") {
        Some(Interlace::TopFirst)
    } else if is(bytes, b"b") {
        Some(Interlace::BottomFirst)
    } else {
        None
    }
}

/// Whether this is a tag of 8-bit 4:2:0; the tags differ in chroma siting.
#[tactic(auto, unfolding(crate::specs::Values::is_shared))]
fn is_shared(bytes: &[u8]) -> bool
    ensures { result ≡ is_shared bytes.now }
{
    is(bytes, b"420") || is(bytes, b"420jpeg") || is(bytes, b"420mpeg2") || is(bytes, b"420paldv")
}

/// The bit depth by the end of a tag.
#[tactic(auto, unfolding(crate::specs::Values::depth_of))]
fn depth_of(bytes: &[u8]) -> Option<Depth>
    ensures { result ≡ depth_of bytes.now }
{
    if bytes.is_empty() {
        Some(Depth::D8)
    } else if is(bytes, b"p10") {
        Some(Depth::D10)
    } else if is(bytes, b"p12") {
        Some(Depth::D12)
    } else {
        None
    }
}

/// The subsampling and the bit depth by a tag.
#[tactic(auto, unfolding(crate::specs::Values::format_of))]
pub(crate) fn format_of(bytes: &[u8]) -> Option<Format>
    ensures { result ≡ format_of bytes.now }
{
    if is_shared(bytes) {
        return Some(Format {
            chroma: Chroma::C422,
            depth: Depth::D8,
            shares_rows: true,
        });
    }
    let chroma = if bytes.starts_with(b"422") {
        Chroma::C422
    } else if bytes.starts_with(b"444") {
        Chroma::C444
    } else {
        return None;
    };
    let depth = depth_of(&bytes[3..])?;
    Some(Format {
        chroma,
        depth,
        shares_rows: false,
    })
}
