//! Reads the planes of a frame.

ghost use Rattle.std.specs.Prelude.{◌≡◌, ◌+◌, ◌*◌, ◌≤◌, ◌<◌, ◌^◌, false, IfOk, IfSome, OnOk, is_some, length};
ghost use Rattle.std.specs.Io.KnownBytes.{IsAtEnd};
ghost use Rattle.std.specs.List.{All};
ghost use Rattle.std.specs.Option.{IfNone, option_map};
ghost use Rattle.pw_outside.specs.Ports.{CountsFault, GoesOn};
ghost use Rattle.pw_outside.specs.Reading.{Answers, Gives};
ghost use Rattle.pic_y4m.specs.Faults.{told_fault, is_failed};
ghost use Rattle.pic_y4m.specs.Frames.{has_alpha};
ghost use Rattle.pic_y4m.specs.HeadLine.{IsHead};
ghost use Rattle.pic_raw.specs.Raw.{luma_count, chroma_count, alpha_limit, alpha_at, alpha_in_range, plane_of, picture_of, picture_behind, frame_at, IsPicture};

use pic_y4m::{Head, PictureFault, SampleSize, check_range, limit_of, next_samples, read_samples};
use pw_outside::ByteSource;
use pw_planes::{AlphaKind, Picture, Plane};
use std::alloc::Global;

/// The number of samples of luma, and of alpha.
fn luma_count(head: &Head) -> usize
    requires { IsHead head.now }
    ensures value { result ≡ luma_count head.now }
    ensures some { 1 ≤ result }
    ensures few { result ≤ 35389440 }
{
    usize::from(head.height) * usize::from(head.width)
}

/// The number of samples of a chroma plane.
fn chroma_count(head: &Head) -> usize
    requires { IsHead head.now }
    ensures value { result ≡ chroma_count head.now }
    ensures some { 1 ≤ result }
    ensures few { result ≤ 35389440 }
{
    let width = head.chroma.plane_width(u32::from(head.width));
    usize::from(head.height) * width as usize
}

/// 2 to alpha's bit depth: one more than the largest sample.
fn alpha_limit(kind: AlphaKind) -> u32
    ensures { result ≡ alpha_limit kind }
{
    match kind {
        AlphaKind::Eight => 256,
        AlphaKind::Absent | AlphaKind::Sixteen => 65536,
    }
}

/// Whether there is alpha.
fn has_alpha(kind: AlphaKind) -> bool
    ensures { result ≡ has_alpha kind }
{
    match kind {
        AlphaKind::Absent => false,
        AlphaKind::Eight | AlphaKind::Sixteen => true,
    }
}

/// Reads the samples of alpha, if there is alpha.
#[tactic(auto, unfolding(pw_outside::specs::Reading::bind))]
fn alpha_of<S: ByteSource>(
    alloc: Global,
    source: &mut S,
    place: &mut u64,
    there: bool,
    count: usize,
) -> Result<Option<Vec<u16>>, PictureFault>
    requires some { 1 ≤ count }
    requires few { count ≤ 35389440 }
    requires room { place.old < 2 ^ 62 }
    ensures bytes { Gives told_fault (λ v. option_map (λ w. w.items) v) (S.left source.old) (S.left source.new) place.old place.new result (alpha_at there count) }
    ensures there { IfOk result (λ samples. is_some samples ≡ there) }
    ensures len { IfOk result (λ samples. IfSome samples (λ v. length v.items ≡ count)) }
    ensures place { place.new ≤ place.old + 2 * count }
    ensures becomes { GoesOn S.becomes source.old source.new }
    ensures cause { CountsFault (S.faults source.old) (S.faults source.new) (is_failed result) }
{
    if !there {
        return Ok(None);
    }
    let samples = read_samples(alloc, source, place, SampleSize::Pair, count)?;
    Ok(Some(samples))
}

/// Refuses samples of alpha that exceed its bit depth. The plane begins at offset `place`.
fn check_alpha(kind: AlphaKind, samples: &Option<Vec<u16>>, place: u64) -> Result<(), PictureFault>
    requires few { IfSome samples.now (λ v. length v.items ≤ 2 ^ 26) }
    requires room { place < 2 ^ 62 }
    ensures answer { Answers told_fault (λ x. x) result (alpha_in_range kind (option_map (λ w. w.items) samples.now) place) }
    ensures below { OnOk result (IfSome samples.now (λ v. All (λ s. s < alpha_limit kind) v.items)) }
    ensures pure { is_failed result ≡ false }
{
    match samples {
        Some(samples) => check_range(SampleSize::Pair, alpha_limit(kind), samples, place),
        None => Ok(()),
    }
}

/// The plane of alpha.
fn alpha_plane(head: &Head, samples: Option<Vec<u16>>) -> Option<Plane>
    requires head { IsHead head.now }
    requires len { IfSome samples (λ v. length v.items ≡ luma_count head.now) }
    ensures { result ≡ option_map (plane_of head.now.width head.now.height) (option_map (λ w. w.items) samples) }
{
    match samples {
        Some(samples) => Some(Plane::from_samples(
            u32::from(head.width),
            u32::from(head.height),
            samples,
        )),
        None => None,
    }
}

/// The picture with these planes.
fn picture_of(
    head: &Head,
    y: Vec<u16>,
    cb: Vec<u16>,
    cr: Vec<u16>,
    alpha: Option<Vec<u16>>,
) -> Picture
    requires head { IsHead head.now }
    requires y_whole { length y.items ≡ luma_count head.now }
    requires cb_whole { length cb.items ≡ chroma_count head.now }
    requires cr_whole { length cr.items ≡ chroma_count head.now }
    requires alpha_whole { IfSome alpha (λ v. length v.items ≡ luma_count head.now) }
    ensures { result ≡ picture_of head.now y.items cb.items cr.items (option_map (λ w. w.items) alpha) }
{
    let width = u32::from(head.width);
    let height = u32::from(head.height);
    let chroma_width = head.chroma.plane_width(width);
    Picture {
        y: Plane::from_samples(width, height, y),
        cb: Plane::from_samples(chroma_width, height, cb),
        cr: Plane::from_samples(chroma_width, height, cr),
        alpha: alpha_plane(head, alpha),
        chroma: head.chroma,
        depth: head.depth,
    }
}

/// Reads the planes after luma, which begins at this offset.
#[tactic(auto, unfolding(crate::specs::Raw::picture_behind, pw_outside::specs::Reading::bind))]
fn picture_behind<S: ByteSource>(
    alloc: Global,
    source: &mut S,
    place: &mut u64,
    head: &Head,
    y: Vec<u16>,
    y_at: u64,
) -> Result<Picture, PictureFault>
    requires head { IsHead head.now }
    requires y_whole { length y.items ≡ luma_count head.now }
    requires room { place.old < 2 ^ 61 }
    requires y_room { y_at < 2 ^ 62 }
    ensures bytes { Gives told_fault (λ p. p) (S.left source.old) (S.left source.new) place.old place.new result (picture_behind head.now y_at y.items) }
    ensures picture { IfOk result (IsPicture head.now) }
    ensures place { place.new ≤ place.old + 6 * 35389440 }
    ensures becomes { GoesOn S.becomes source.old source.new }
    ensures cause { CountsFault (S.faults source.old) (S.faults source.new) (is_failed result) }
{
    let limit = limit_of(head.depth);
    let there = has_alpha(head.alpha);
    let cb_at = *place;
    let cb = read_samples(alloc, source, place, SampleSize::Pair, chroma_count(head))?;
    let cr_at = *place;
    let cr = read_samples(alloc, source, place, SampleSize::Pair, chroma_count(head))?;
    let alpha_at = *place;
    let alpha = alpha_of(alloc, source, place, there, luma_count(head))?;
    check_range(SampleSize::Pair, limit, &y, y_at)?;
    check_range(SampleSize::Pair, limit, &cb, cb_at)?;
    check_range(SampleSize::Pair, limit, &cr, cr_at)?;
    check_alpha(head.alpha, &alpha, alpha_at)?;
    Ok(picture_of(head, y, cb, cr, alpha))
}

/// Reads the next frame; `None` at the end of the input.
#[tactic(auto, unfolding(crate::specs::Raw::frame_at, pw_outside::specs::Reading::bind))]
pub(crate) fn frame_of<S: ByteSource>(
    alloc: Global,
    source: &mut S,
    place: &mut u64,
    head: &Head,
) -> Result<Option<Picture>, PictureFault>
    requires head { IsHead head.now }
    requires room { place.old < 2 ^ 60 }
    ensures bytes { Gives told_fault (λ p. p) (S.left source.old) (S.left source.new) place.old place.new result (frame_at head.now) }
    ensures picture { IfOk result (λ picture. IfSome picture (IsPicture head.now)) }
    ensures place { place.new ≤ place.old + 2 ^ 29 }
    ensures same { IfOk result (λ picture. IfNone picture (place.new ≡ place.old)) }
    ensures end { IfOk result (λ picture. IfNone picture (IsAtEnd (S.left source.new))) }
    ensures becomes { GoesOn S.becomes source.old source.new }
    ensures cause { CountsFault (S.faults source.old) (S.faults source.new) (is_failed result) }
{
    let start = *place;
    let Some(y) = next_samples(alloc, source, place, SampleSize::Pair, luma_count(head))? else {
        return Ok(None);
    };
    let picture = picture_behind(alloc, source, place, head, y, start)?;
    Ok(Some(picture))
}
