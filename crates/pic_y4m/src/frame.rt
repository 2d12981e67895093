//! Reads the planes of a frame.

ghost use Rattle.std.specs.Prelude.{◌≡◌, ◌+◌, ◌-◌, ◌*◌, ◌/◌, ◌≤◌, ◌<◌, ◌^◌, IfOk, IfSome, length, slice_index};
ghost use Rattle.std.specs.Io.KnownBytes.{IsAtEnd};
ghost use Rattle.std.specs.Option.{IfNone};
ghost use Rattle.pw_outside.specs.Ports.{CountsFault, GoesOn};
ghost use Rattle.pw_outside.specs.Reading.{Gives};
ghost use Rattle.pw_planes.specs.Rows.{raster};
ghost use Rattle.pic_y4m.specs.Faults.{told_fault, is_failed};
ghost use Rattle.pic_y4m.specs.Frames.{luma_count, chroma_count, chroma_rows, chroma_samples, picture_of, planes_at, frame_at, HasForm};
ghost use Rattle.pic_y4m.specs.HeadLine.{IsStream};

use crate::fault::{PictureFault, PictureKind, bad};
use crate::head_line::Stream;
use crate::line::line_of;
use crate::samples::{check_range, limit_of, read_samples, size_of};
use pw_outside::ByteSource;
use pw_planes::{Picture, Plane};
use std::alloc::{AllocError, Global};

/// The maximum length of the line before a frame, in bytes with its line feed.
const MAX_FRAME_LINE: usize = 256;

/// The number of luma samples.
fn luma_count(form: &Stream) -> usize
    requires { IsStream form.now }
    ensures value { result ≡ luma_count form.now }
    ensures some { 1 ≤ result }
    ensures few { result ≤ 35389440 }
{
    usize::from(form.head.height) * usize::from(form.head.width)
}

/// The number of stored chroma rows.
fn chroma_rows(shares_rows: bool, height: u32) -> u32
    requires { height ≤ 4320 }
    ensures value { result ≡ chroma_rows shares_rows height }
    ensures few { result ≤ 4320 }
{
    if shares_rows {
        height.div_ceil(2)
    } else {
        height
    }
}

/// The number of stored samples of a chroma plane.
fn chroma_count(form: &Stream) -> usize
    requires { IsStream form.now }
    ensures value { result ≡ chroma_count form.now }
    ensures some { 1 ≤ result }
    ensures few { result ≤ 35389440 }
{
    let width = form.head.chroma.plane_width(u32::from(form.head.width));
    let rows = chroma_rows(form.shares_rows, u32::from(form.head.height));
    rows as usize * width as usize
}

/// Doubles each stored row.
fn widened(
    alloc: Global,
    stored: &[u16],
    width: usize,
    height: usize,
) -> Result<Vec<u16>, AllocError>
    requires width { width ≤ 8192 }
    requires rows { height ≤ 4320 }
    requires whole { (height + 1) / 2 * width ≤ length stored.now }
    ensures len { IfOk result (λ v. length v.items ≡ height * width) }
    ensures value { IfOk result (λ v. v.items ≡ raster width height (λ column row. slice_index stored.now (row / 2 * width + column))) }
{
    let mut samples = Vec::with_capacity(alloc, height * width)?;
    for row in 0..height {
        let at = row / 2 * width;
        samples.extend_from_slice(&stored[at..at + width])?;
    }
    Ok(samples)
}

/// The chroma plane of the picture, from its stored samples.
fn chroma_samples(
    alloc: Global,
    stored: Vec<u16>,
    shares_rows: bool,
    width: usize,
    height: usize,
) -> Result<Vec<u16>, AllocError>
    requires width { width ≤ 8192 }
    requires rows { height ≤ 4320 }
    requires whole { length stored.items ≡ chroma_rows shares_rows height * width }
    ensures len { IfOk result (λ v. length v.items ≡ height * width) }
    ensures value { IfOk result (λ v. v.items ≡ chroma_samples shares_rows width height stored.items) }
{
    if shares_rows {
        widened(alloc, &stored, width, height)
    } else {
        Ok(stored)
    }
}

/// The picture with these three stored planes.
fn picture_of(
    alloc: Global,
    form: &Stream,
    y: Vec<u16>,
    cb: Vec<u16>,
    cr: Vec<u16>,
) -> Result<Picture, AllocError>
    requires stream { IsStream form.now }
    requires y_whole { length y.items ≡ luma_count form.now }
    requires cb_whole { length cb.items ≡ chroma_count form.now }
    requires cr_whole { length cr.items ≡ chroma_count form.now }
    ensures { IfOk result (λ p. p ≡ picture_of form.now y.items cb.items cr.items) }
{
    let head = form.head;
    let width = u32::from(head.width);
    let height = u32::from(head.height);
    let chroma_width = head.chroma.plane_width(width);
    let cb = chroma_samples(
        alloc,
        cb,
        form.shares_rows,
        chroma_width as usize,
        height as usize,
    )?;
    let cr = chroma_samples(
        alloc,
        cr,
        form.shares_rows,
        chroma_width as usize,
        height as usize,
    )?;
    Ok(Picture {
        y: Plane::from_samples(width, height, y),
        cb: Plane::from_samples(chroma_width, height, cb),
        cr: Plane::from_samples(chroma_width, height, cr),
        alpha: None,
        chroma: head.chroma,
        depth: head.depth,
    })
}

/// Reads the planes of a frame.
#[tactic(auto, using(crate::proofs::Planes::picture_form), unfolding(crate::specs::Frames::planes_at, pw_outside::specs::Reading::bind))]
pub(crate) fn planes_of<S: ByteSource>(
    alloc: Global,
    source: &mut S,
    place: &mut u64,
    form: &Stream,
) -> Result<Picture, PictureFault>
    requires stream { IsStream form.now }
    requires room { place.old < 2 ^ 61 }
    ensures bytes { Gives told_fault (λ p. p) (S.left source.old) (S.left source.new) place.old place.new result (planes_at form.now) }
    ensures form { IfOk result (HasForm form.now.head) }
    ensures place { place.new ≤ place.old + (2 ^ 28 - 256) }
    ensures becomes { GoesOn S.becomes source.old source.new }
    ensures cause { CountsFault (S.faults source.old) (S.faults source.new) (is_failed result) }
{
    let size = size_of(form.head.depth);
    let limit = limit_of(form.head.depth);
    let y_at = *place;
    let y = read_samples(alloc, source, place, size, luma_count(form))?;
    let cb_at = *place;
    let cb = read_samples(alloc, source, place, size, chroma_count(form))?;
    let cr_at = *place;
    let cr = read_samples(alloc, source, place, size, chroma_count(form))?;
    check_range(size, limit, &y, y_at)?;
    check_range(size, limit, &cb, cb_at)?;
    check_range(size, limit, &cr, cr_at)?;
    Ok(picture_of(alloc, form, y, cb, cr)?)
}

/// Reads the next frame; `None` at the end of the input.
#[tactic(auto, unfolding(crate::specs::Frames::frame_at, pw_outside::specs::Reading::bind))]
pub(crate) fn frame_of<S: ByteSource>(
    alloc: Global,
    source: &mut S,
    place: &mut u64,
    form: &Stream,
) -> Result<Option<Picture>, PictureFault>
    requires stream { IsStream form.now }
    requires room { place.old < 2 ^ 60 }
    ensures bytes { Gives told_fault (λ p. p) (S.left source.old) (S.left source.new) place.old place.new result (frame_at form.now) }
    ensures form { IfOk result (λ picture. IfSome picture (HasForm form.now.head)) }
    ensures place { place.new ≤ place.old + 2 ^ 28 }
    ensures same { IfOk result (λ picture. IfNone picture (place.new ≡ place.old)) }
    ensures end { IfOk result (λ picture. IfNone picture (IsAtEnd (S.left source.new))) }
    ensures becomes { GoesOn S.becomes source.old source.new }
    ensures cause { CountsFault (S.faults source.old) (S.faults source.new) (is_failed result) }
{
    let start = *place;
    let Some(line) = line_of(source, place, MAX_FRAME_LINE, PictureKind::FrameLine, start)? else {
        return Ok(None);
    };
    if !line.as_slice().starts_with(b"FRAME") {
        return Err(bad(PictureKind::FrameLine, start));
    }
    let picture = planes_of(alloc, source, place, form)?;
    Ok(Some(picture))
}
