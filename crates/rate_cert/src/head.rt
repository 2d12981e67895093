//! Reads the head of a proof.

ghost use Rattle.std.specs.Prelude.{◌≡◌, ◌+◌, ◌*◌, ◌<◌, ◌≤◌, ◌^◌, false, IfOk};
ghost use Rattle.std.specs.List.{All, list_any};
ghost use Rattle.pw_outside.specs.Ports.{CountsFault, GoesOn};
ghost use Rattle.pw_outside.specs.Reading.{Gives};
ghost use Rattle.pr_geom.specs.Faults.{slice_count};
ghost use Rattle.pr_geom.specs.Slices.{pictures_of};
ghost use Rattle.pr_quant.specs.Matrices.{IsWeight};
ghost use Rattle.rate_table.specs.Reading.{told_fault, is_failed, is_out_of_memory};
ghost use Rattle.rate_cert.specs.Settings.{IsSettings};
ghost use Rattle.rate_cert.specs.Files.{IsFormat};
ghost use Rattle.rate_cert.specs.Head.{chroma_of, depth_of, alpha_of, interlace_of, form_of, group_of, is_no_weight, has_no_layout, format_at, size_at, chroma_at, depth_at, alpha_at, interlace_at, kinds_at, slicing_at, rate_at, weights_at, budget_at, settings_at};

use crate::field::{SHORT, bytes_of};
use crate::settings::Settings;
use pr_geom::{Layout, pictures_of};
use pw_outside::ByteSource;
use pw_planes::{AlphaKind, Chroma, Depth, Interlace};
use rate_table::{MAX_TABLE_SLICES, ProofKind, TableFault, bad, read_u8, read_u16, read_u32};

// `PWPF`
const MAGIC: u32 = 0x5057_5046;

/// The source of the pictures, the number of frames that share a budget, and the size of the pictures.
#[derive(Clone, Copy)]
pub(crate) struct Size {
    form: u8,
    group: u8,
    width: u16,
    height: u16,
}

/// The format of the pictures.
#[derive(Clone, Copy)]
pub(crate) struct Kinds {
    chroma: Chroma,
    depth: Depth,
    alpha: AlphaKind,
    interlace: Interlace,
}

/// The slicing of frames, and the range of quantisation indices.
#[derive(Clone, Copy)]
pub(crate) struct Slicing {
    log2: u8,
    lo: u8,
    hi: u8,
}

/// The frame rate.
#[derive(Clone, Copy)]
pub(crate) struct Rate {
    num: u32,
    den: u32,
}

fn chroma_in(number: u8) -> Option<Chroma>
    ensures { result ≡ chroma_of number }
{
    match number {
        2 => Some(Chroma::C422),
        3 => Some(Chroma::C444),
        _ => None,
    }
}

fn depth_in(number: u8) -> Option<Depth>
    ensures { result ≡ depth_of number }
{
    match number {
        8 => Some(Depth::D8),
        10 => Some(Depth::D10),
        12 => Some(Depth::D12),
        _ => None,
    }
}

fn alpha_in(number: u8) -> Option<AlphaKind>
    ensures { result ≡ alpha_of number }
{
    match number {
        0 => Some(AlphaKind::Absent),
        8 => Some(AlphaKind::Eight),
        16 => Some(AlphaKind::Sixteen),
        _ => None,
    }
}

fn interlace_in(number: u8) -> Option<Interlace>
    ensures { result ≡ interlace_of number }
{
    match number {
        0 => Some(Interlace::Progressive),
        1 => Some(Interlace::TopFirst),
        2 => Some(Interlace::BottomFirst),
        _ => None,
    }
}

/// The form in the byte of form and group; 16 is the form of products.
fn form_in(number: u8) -> u8
    ensures { result ≡ form_of number }
{
    if number == 16 { 2 } else { number % 2 }
}

/// The number of frames that share a budget.
fn group_in(number: u8) -> u8
    ensures { result ≡ group_of number }
{
    if number == 16 { 1 } else { number / 2 + 1 }
}

/// Whether such pictures can't be cut into slices, or a group of their frames has too many slices.
#[tactic(auto, unfolding(pr_geom::specs::Faults::slice_count))]
fn has_no_layout(width: u16, height: u16, log2: u8, interlace: Interlace, group: u8) -> bool
    requires size { log2 ≤ 3 }
    ensures { result ≡ has_no_layout width height log2 interlace group }
{
    match Layout::new(width, height, log2, interlace, Chroma::C422) {
        Ok(layout) => {
            MAX_TABLE_SLICES < u32::from(group) * (u32::from(layout.pictures()) * layout.slices())
        }
        Err(_) => true,
    }
}

/// Reads the magic number and the format.
#[tactic(auto, unfolding(crate::specs::Head::format_at, pw_outside::specs::Reading::bind))]
pub(crate) fn format_of<S: ByteSource>(source: &mut S, place: &mut u64) -> Result<u8, TableFault>
    requires { place.old + 5 < 2 ^ 64 }
    ensures bytes { Gives told_fault (λ x. x) (S.left source.old) (S.left source.new) place.old place.new result
        format_at }
    ensures format { IfOk result IsFormat }
    ensures place { place.new ≤ place.old + 5 }
    ensures becomes { GoesOn S.becomes source.old source.new }
    ensures cause { CountsFault (S.faults source.old) (S.faults source.new) (is_failed result) }
    ensures memory { is_out_of_memory result ≡ false }
{
    let at = *place;
    let magic = read_u32(source, place, SHORT)?;
    if magic != MAGIC {
        return Err(bad(ProofKind::ProofMagic, at));
    }
    let at = *place;
    let format = read_u8(source, place, SHORT)?;
    if format != 1 && format != 2 {
        return Err(bad(ProofKind::ProofMagic, at));
    }
    Ok(format)
}

/// Reads form and group, and the size of the pictures.
#[tactic(auto, unfolding(crate::specs::Head::size_at, pw_outside::specs::Reading::bind))]
fn size_of<S: ByteSource>(source: &mut S, place: &mut u64) -> Result<Size, TableFault>
    requires { place.old + 5 < 2 ^ 64 }
    ensures bytes { Gives told_fault (λ x. x) (S.left source.old) (S.left source.new) place.old place.new result
        size_at }
    ensures form { IfOk result (λ s. (s.form ≤ 2) × (1 ≤ s.group) × (s.group ≤ 8) × (s.form ≡ 2 → s.group ≡ 1)) }
    ensures place { place.new ≤ place.old + 5 }
    ensures becomes { GoesOn S.becomes source.old source.new }
    ensures cause { CountsFault (S.faults source.old) (S.faults source.new) (is_failed result) }
    ensures memory { is_out_of_memory result ≡ false }
{
    let at = *place;
    let form = read_u8(source, place, SHORT)?;
    if 16 < form {
        return Err(bad(ProofKind::ProofShape, at));
    }
    let at = *place;
    let width = read_u16(source, place, SHORT)?;
    if width == 0 || 8192 < width {
        return Err(bad(ProofKind::ProofShape, at));
    }
    let at = *place;
    let height = read_u16(source, place, SHORT)?;
    if height == 0 || 4320 < height {
        return Err(bad(ProofKind::ProofShape, at));
    }
    Ok(Size {
        form: form_in(form),
        group: group_in(form),
        width,
        height,
    })
}

/// Reads the chroma sampling.
#[tactic(auto, unfolding(crate::specs::Head::chroma_at, crate::specs::Head::meant, pw_outside::specs::Reading::bind))]
fn chroma_of<S: ByteSource>(source: &mut S, place: &mut u64) -> Result<Chroma, TableFault>
    requires { place.old + 1 < 2 ^ 64 }
    ensures bytes { Gives told_fault (λ x. x) (S.left source.old) (S.left source.new) place.old place.new result
        chroma_at }
    ensures place { place.new ≤ place.old + 1 }
    ensures becomes { GoesOn S.becomes source.old source.new }
    ensures cause { CountsFault (S.faults source.old) (S.faults source.new) (is_failed result) }
    ensures memory { is_out_of_memory result ≡ false }
{
    let at = *place;
    let number = read_u8(source, place, SHORT)?;
    match chroma_in(number) {
        Some(chroma) => Ok(chroma),
        None => Err(bad(ProofKind::ProofShape, at)),
    }
}

/// Reads the bit depth.
#[tactic(auto, unfolding(crate::specs::Head::depth_at, crate::specs::Head::meant, pw_outside::specs::Reading::bind))]
fn depth_of<S: ByteSource>(source: &mut S, place: &mut u64) -> Result<Depth, TableFault>
    requires { place.old + 1 < 2 ^ 64 }
    ensures bytes { Gives told_fault (λ x. x) (S.left source.old) (S.left source.new) place.old place.new result
        depth_at }
    ensures place { place.new ≤ place.old + 1 }
    ensures becomes { GoesOn S.becomes source.old source.new }
    ensures cause { CountsFault (S.faults source.old) (S.faults source.new) (is_failed result) }
    ensures memory { is_out_of_memory result ≡ false }
{
    let at = *place;
    let number = read_u8(source, place, SHORT)?;
    match depth_in(number) {
        Some(depth) => Ok(depth),
        None => Err(bad(ProofKind::ProofShape, at)),
    }
}

/// Reads the kind of alpha.
#[tactic(auto, unfolding(crate::specs::Head::alpha_at, crate::specs::Head::meant, pw_outside::specs::Reading::bind))]
fn alpha_of<S: ByteSource>(source: &mut S, place: &mut u64) -> Result<AlphaKind, TableFault>
    requires { place.old + 1 < 2 ^ 64 }
    ensures bytes { Gives told_fault (λ x. x) (S.left source.old) (S.left source.new) place.old place.new result
        alpha_at }
    ensures place { place.new ≤ place.old + 1 }
    ensures becomes { GoesOn S.becomes source.old source.new }
    ensures cause { CountsFault (S.faults source.old) (S.faults source.new) (is_failed result) }
    ensures memory { is_out_of_memory result ≡ false }
{
    let at = *place;
    let number = read_u8(source, place, SHORT)?;
    match alpha_in(number) {
        Some(alpha) => Ok(alpha),
        None => Err(bad(ProofKind::ProofShape, at)),
    }
}

/// Reads the interlace mode.
#[tactic(auto, unfolding(crate::specs::Head::interlace_at, crate::specs::Head::meant, pw_outside::specs::Reading::bind))]
fn interlace_of<S: ByteSource>(source: &mut S, place: &mut u64) -> Result<Interlace, TableFault>
    requires { place.old + 1 < 2 ^ 64 }
    ensures bytes { Gives told_fault (λ x. x) (S.left source.old) (S.left source.new) place.old place.new result
        interlace_at }
    ensures place { place.new ≤ place.old + 1 }
    ensures becomes { GoesOn S.becomes source.old source.new }
    ensures cause { CountsFault (S.faults source.old) (S.faults source.new) (is_failed result) }
    ensures memory { is_out_of_memory result ≡ false }
{
    let at = *place;
    let number = read_u8(source, place, SHORT)?;
    match interlace_in(number) {
        Some(interlace) => Ok(interlace),
        None => Err(bad(ProofKind::ProofShape, at)),
    }
}

/// Reads the format of pictures of this height.
#[tactic(auto, unfolding(crate::specs::Head::kinds_at, pw_outside::specs::Reading::bind))]
fn kinds_of<S: ByteSource>(
    source: &mut S,
    place: &mut u64,
    height: u16,
) -> Result<Kinds, TableFault>
    requires { place.old + 4 < 2 ^ 64 }
    ensures bytes { Gives told_fault (λ x. x) (S.left source.old) (S.left source.new) place.old place.new result
        (kinds_at height) }
    ensures place { place.new ≤ place.old + 4 }
    ensures becomes { GoesOn S.becomes source.old source.new }
    ensures cause { CountsFault (S.faults source.old) (S.faults source.new) (is_failed result) }
    ensures memory { is_out_of_memory result ≡ false }
{
    let chroma = chroma_of(source, place)?;
    let depth = depth_of(source, place)?;
    let alpha = alpha_of(source, place)?;
    let at = *place;
    let interlace = interlace_of(source, place)?;
    if 0 < height % u16::from(pictures_of(interlace)) {
        return Err(bad(ProofKind::ProofShape, at));
    }
    Ok(Kinds {
        chroma,
        depth,
        alpha,
        interlace,
    })
}

/// Reads the slicing of such pictures, and the range of quantisation indices.
#[tactic(auto, unfolding(crate::specs::Head::slicing_at, pw_outside::specs::Reading::bind))]
fn slicing_of<S: ByteSource>(
    source: &mut S,
    place: &mut u64,
    size: Size,
    interlace: Interlace,
) -> Result<Slicing, TableFault>
    requires { place.old + 3 < 2 ^ 64 }
    ensures bytes { Gives told_fault (λ x. x) (S.left source.old) (S.left source.new) place.old place.new result
        (slicing_at size interlace) }
    ensures layout { IfOk result (λ s. (s.log2 ≤ 3) × (has_no_layout size.width size.height s.log2 interlace size.group
        ≡ false)) }
    ensures indices { IfOk result (λ s. (1 ≤ s.lo) × (s.lo ≤ s.hi) × (s.hi ≤ 224)) }
    ensures place { place.new ≤ place.old + 3 }
    ensures becomes { GoesOn S.becomes source.old source.new }
    ensures cause { CountsFault (S.faults source.old) (S.faults source.new) (is_failed result) }
    ensures memory { is_out_of_memory result ≡ false }
{
    let at = *place;
    let log2 = read_u8(source, place, SHORT)?;
    if 3 < log2 {
        return Err(bad(ProofKind::ProofShape, at));
    }
    if has_no_layout(size.width, size.height, log2, interlace, size.group) {
        return Err(bad(ProofKind::ProofShape, at));
    }
    let at = *place;
    let lo = read_u8(source, place, SHORT)?;
    if lo == 0 || 224 < lo {
        return Err(bad(ProofKind::ProofShape, at));
    }
    let at = *place;
    let hi = read_u8(source, place, SHORT)?;
    if hi < lo || 224 < hi {
        return Err(bad(ProofKind::ProofShape, at));
    }
    Ok(Slicing { log2, lo, hi })
}

/// Reads the frame rate.
#[tactic(auto, unfolding(crate::specs::Head::rate_at, pw_outside::specs::Reading::bind))]
fn rate_of<S: ByteSource>(source: &mut S, place: &mut u64) -> Result<Rate, TableFault>
    requires { place.old + 8 < 2 ^ 64 }
    ensures bytes { Gives told_fault (λ x. x) (S.left source.old) (S.left source.new) place.old place.new result
        rate_at }
    ensures rate { IfOk result (λ r. (1 ≤ r.num) × (r.num ≤ 1000000) × (1 ≤ r.den) × (r.den ≤ 4000)) }
    ensures place { place.new ≤ place.old + 8 }
    ensures becomes { GoesOn S.becomes source.old source.new }
    ensures cause { CountsFault (S.faults source.old) (S.faults source.new) (is_failed result) }
    ensures memory { is_out_of_memory result ≡ false }
{
    let at = *place;
    let num = read_u32(source, place, SHORT)?;
    if num == 0 || 1_000_000 < num {
        return Err(bad(ProofKind::ProofShape, at));
    }
    let at = *place;
    let den = read_u32(source, place, SHORT)?;
    if den == 0 || 4000 < den {
        return Err(bad(ProofKind::ProofShape, at));
    }
    Ok(Rate { num, den })
}

/// Whether one of these weights isn't from 2 to 63.
fn has_no_weight(weights: &[u8; 64]) -> bool
    ensures { result ≡ list_any is_no_weight weights.now }
{
    weights.iter().any(|weight| *weight < 2 || 63 < *weight)
}

/// Reads the weights of a matrix.
#[tactic(auto, unfolding(crate::specs::Head::weights_at, pw_outside::specs::Reading::bind))]
fn weights_of<S: ByteSource>(source: &mut S, place: &mut u64) -> Result<[u8; 64], TableFault>
    requires { place.old + 64 < 2 ^ 64 }
    ensures bytes { Gives told_fault (λ x. x) (S.left source.old) (S.left source.new) place.old place.new result
        weights_at }
    ensures weights { IfOk result (All IsWeight) }
    ensures place { place.new ≤ place.old + 64 }
    ensures becomes { GoesOn S.becomes source.old source.new }
    ensures cause { CountsFault (S.faults source.old) (S.faults source.new) (is_failed result) }
    ensures memory { is_out_of_memory result ≡ false }
{
    let at = *place;
    let weights = bytes_of::<S, 64>(source, place)?;
    if has_no_weight(&weights) {
        return Err(bad(ProofKind::ProofShape, at));
    }
    Ok(weights)
}

/// Reads the budget of one of the `group` frames of a group.
#[tactic(auto, unfolding(crate::specs::Head::budget_at, pw_outside::specs::Reading::bind))]
fn budget_of<S: ByteSource>(source: &mut S, place: &mut u64, group: u8) -> Result<u32, TableFault>
    requires { place.old + 4 < 2 ^ 64 }
    ensures bytes { Gives told_fault (λ x. x) (S.left source.old) (S.left source.new) place.old place.new result
        (budget_at group) }
    ensures budget { IfOk result (λ b. (1 ≤ b) × (group * b < 2 ^ 31)) }
    ensures place { place.new ≤ place.old + 4 }
    ensures becomes { GoesOn S.becomes source.old source.new }
    ensures cause { CountsFault (S.faults source.old) (S.faults source.new) (is_failed result) }
    ensures memory { is_out_of_memory result ≡ false }
{
    let at = *place;
    let budget = read_u32(source, place, SHORT)?;
    if budget == 0 || 1 << 31 <= u64::from(group) * u64::from(budget) {
        return Err(bad(ProofKind::ProofShape, at));
    }
    Ok(budget)
}

/// Reads the settings, which follow the format.
#[tactic(auto, unfolding(crate::specs::Head::settings_at, pw_outside::specs::Reading::bind))]
pub(crate) fn settings_of<S: ByteSource>(
    source: &mut S,
    place: &mut u64,
) -> Result<Settings, TableFault>
    requires { place.old + 152 < 2 ^ 64 }
    ensures bytes { Gives told_fault (λ x. x) (S.left source.old) (S.left source.new) place.old place.new result
        settings_at }
    ensures settings { IfOk result IsSettings }
    ensures place { place.new ≤ place.old + 152 }
    ensures becomes { GoesOn S.becomes source.old source.new }
    ensures cause { CountsFault (S.faults source.old) (S.faults source.new) (is_failed result) }
    ensures memory { is_out_of_memory result ≡ false }
{
    let size = size_of(source, place)?;
    let kinds = kinds_of(source, place, size.height)?;
    let slicing = slicing_of(source, place, size, kinds.interlace)?;
    let rate = rate_of(source, place)?;
    let luma = weights_of(source, place)?;
    let chroma_weights = weights_of(source, place)?;
    let budget = budget_of(source, place, size.group)?;
    Ok(Settings {
        form: size.form,
        group: size.group,
        width: size.width,
        height: size.height,
        chroma: kinds.chroma,
        depth: kinds.depth,
        alpha: kinds.alpha,
        interlace: kinds.interlace,
        log2: slicing.log2,
        lo: slicing.lo,
        hi: slicing.hi,
        num: rate.num,
        den: rate.den,
        luma,
        chroma_weights,
        budget,
    })
}
