//! Numbers of options, frame rates, and the format of raw planar pictures.

ghost use Rattle.std.specs.Prelude.{◌≡◌, ◌≤◌, ◌<◌, ◌==◌, IfSome, option_map, length, position};
ghost use Rattle.pic_y4m.specs.Values.{number_within};
ghost use Rattle.rescue_run.specs.Rescuing.{IsRate};
ghost use Rattle.workshop.specs.Options.{cut, pair_within, chroma_in, depth_in, alpha_in, rate_in, rate_of, raw_form, IsRawForm};

use crate::options::Rate;
use pic_y4m::{Head, MAX_RATE_DEN, MAX_RATE_NUM};
use pw_planes::{AlphaKind, Chroma, Depth, Interlace, MAX_HEIGHT, MAX_WIDTH};
use pw_text::read_decimal;

/// The decimal number in `bytes`, if it is from `low` to `high`. Leading zeros are allowed.
pub(crate) fn number_within(bytes: &[u8], low: u64, high: u64) -> Option<u64>
    ensures value { result ≡ number_within low high bytes.now }
    ensures limits { IfSome result (λ n. (low ≤ n) × (n ≤ high)) }
{
    match read_decimal(bytes) {
        Ok(number) if low <= number && number <= high => Some(number),
        _ => None,
    }
}

/// The position of the first byte equal to `byte`.
fn place_of(bytes: &[u8], byte: u8) -> Option<usize>
    ensures value { result ≡ position (λ b. b == byte) bytes.now }
    ensures inside { IfSome result (λ n. n < length bytes.now) }
{
    bytes.iter().position(|b| *b == byte)
}

/// What precedes the first byte equal to `byte`, and what follows it.
pub(crate) fn cut(bytes: &[u8], byte: u8) -> Option<(&[u8], &[u8])>
    ensures { option_map (λ parts. (parts.0.now, parts.1.now)) result ≡ cut byte bytes.now }
{
    let at = place_of(bytes, byte)?;
    Some((&bytes[..at], &bytes[at + 1..]))
}

/// Two numbers, separated by `byte`: 1 to `most`, and 1 to `most_behind`.
#[tactic(auto, unfolding(crate::specs::Options::pair_within))]
fn pair_within(bytes: &[u8], byte: u8, most: u64, most_behind: u64) -> Option<(u64, u64)>
    ensures value { result ≡ pair_within byte most most_behind bytes.now }
    ensures limits { IfSome result (λ n. (1 ≤ n.0) × (n.0 ≤ most) × (1 ≤ n.1) × (n.1 ≤ most_behind)) }
{
    let (front, behind) = cut(bytes, byte)?;
    let first = number_within(front, 1, most)?;
    let second = number_within(behind, 1, most_behind)?;
    Some((first, second))
}

/// A frame rate, `NUM/DEN`.
pub(crate) fn rate_in(bytes: &[u8]) -> Option<Rate>
    ensures value { result ≡ rate_in bytes.now }
    ensures limits { IfSome result (λ r. IsRate (rate_of r)) }
{
    let (num, den) = pair_within(
        bytes,
        b'/',
        u64::from(MAX_RATE_NUM),
        u64::from(MAX_RATE_DEN),
    )?;
    Some(Rate {
        num: num as u32,
        den: den as u32,
    })
}

/// The chroma format with this number.
fn chroma_in(bytes: &[u8]) -> Option<Chroma>
    ensures { result ≡ chroma_in bytes.now }
{
    match number_within(bytes, 422, 444)? {
        422 => Some(Chroma::C422),
        444 => Some(Chroma::C444),
        _ => None,
    }
}

/// The bit depth of luma and chroma with this number.
pub(crate) fn depth_in(bytes: &[u8]) -> Option<Depth>
    ensures { result ≡ depth_in bytes.now }
{
    match number_within(bytes, 8, 12)? {
        8 => Some(Depth::D8),
        10 => Some(Depth::D10),
        12 => Some(Depth::D12),
        _ => None,
    }
}

/// The bit depth of alpha, 0 for no alpha.
fn alpha_in(bytes: &[u8]) -> Option<AlphaKind>
    ensures { result ≡ alpha_in bytes.now }
{
    match number_within(bytes, 0, 16)? {
        0 => Some(AlphaKind::Absent),
        8 => Some(AlphaKind::Eight),
        16 => Some(AlphaKind::Sixteen),
        _ => None,
    }
}

/// The format of raw planar pictures, `WxH:CHROMA:DEPTH:ALPHA:NUM/DEN`, as progressive ones.
#[tactic(auto, unfolding(crate::specs::Options::raw_form))]
pub(crate) fn raw_form(bytes: &[u8]) -> Option<Head>
    ensures value { result ≡ raw_form bytes.now }
    ensures limits { IfSome result IsRawForm }
{
    let (size, rest) = cut(bytes, b':')?;
    let (chroma, rest) = cut(rest, b':')?;
    let (depth, rest) = cut(rest, b':')?;
    let (alpha, rate) = cut(rest, b':')?;
    let (width, height) = pair_within(size, b'x', u64::from(MAX_WIDTH), u64::from(MAX_HEIGHT))?;
    let (num, den) = pair_within(rate, b'/', u64::from(MAX_RATE_NUM), u64::from(MAX_RATE_DEN))?;
    let chroma = chroma_in(chroma)?;
    let depth = depth_in(depth)?;
    let alpha = alpha_in(alpha)?;
    Some(Head {
        width: width as u16,
        height: height as u16,
        chroma,
        depth,
        alpha,
        interlace: Interlace::Progressive,
        num: num as u32,
        den: den as u32,
    })
}
