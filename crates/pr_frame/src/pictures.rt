//! Coded frames, shown.

ghost use Rattle.std.specs.Prelude.{◌≡◌, ◌*◌, ◌≤◌, [], ◌∷◌, IfOk};
ghost use Rattle.pw_planes.specs.declared.kinds.AlphaKind.TheVariants.{Absent};
ghost use Rattle.pw_planes.specs.declared.kinds.Interlace.TheVariants.{Progressive};
ghost use Rattle.pr_geom.specs.Faults.{IsAllowed};
ghost use Rattle.pr_geom.specs.Layout.{IsLayoutOf, IsSlice};
ghost use Rattle.pr_frame.specs.Coded.{IsCodedSlice, IsCodedPicture, IsCodedFrame};
ghost use Rattle.pr_frame.specs.Shown.{width_of, weights_of, shown_part, part_plane, alpha_plane, woven, shown_plane, shown_alpha, shown, HasHeaderForm};
ghost use Rattle.pr_frame.specs.inner.Placing.{with_placed};

use crate::coded::{CodedFrame, CodedPicture, CodedSlice};
use crate::placing::{put_part, put_values};
use pr_geom::{Layout, Part, SlicePlace};
use pr_head::FrameHeader;
use pw_outside::NoMemory;
use pw_planes::{AlphaKind, Depth, Interlace, MAX_HEIGHT, Picture, Plane};
use std::alloc::Global;

/// The layout of the pictures of a frame, for slices of this desired width.
fn layout_of(header: &FrameHeader, log2: u8) -> Layout
    requires { IsAllowed header.now.width header.now.height log2 header.now.interlace }
    ensures { IsLayoutOf result header.now.width header.now.height log2 header.now.interlace header.now.chroma }
{
    match Layout::new(
        header.width,
        header.height,
        log2,
        header.interlace,
        header.chroma,
    ) {
        Ok(layout) => layout,
        Err(_) => unreachable!(),
    }
}

/// The width of the plane of a part.
pub(crate) fn plane_width(header: &FrameHeader, part: Part) -> u32
    ensures { result ≡ width_of header.now part }
{
    let width = u32::from(header.width);
    match part {
        Part::Y => width,
        Part::Cb | Part::Cr => header.chroma.plane_width(width),
    }
}

/// The weights of a part.
fn weights_of(header: &FrameHeader, part: Part) -> &[u8; 64]
    ensures { result.now ≡ weights_of header.now part }
{
    match part {
        Part::Y => &header.luma,
        Part::Cb | Part::Cr => &header.chroma_weights,
    }
}

/// Writes the samples of a part of a slice into the plane of the part.
pub(crate) fn put_slice_part(
    plane: &mut Plane,
    depth: Depth,
    header: &FrameHeader,
    layout: &Layout,
    place: &SlicePlace,
    part: Part,
    slice: &CodedSlice,
)
    requires layout { layout.now.chroma ≡ header.now.chroma }
    requires place { IsSlice layout.now place.now }
    requires slice { IsCodedSlice header.now place.now slice.now }
    ensures { plane.new ≡ with_placed plane.old (shown_part header.now depth part place.now slice.now) }
{
    let blocks = match part {
        Part::Y => slice.y.as_slice(),
        Part::Cb => slice.cb.as_slice(),
        Part::Cr => slice.cr.as_slice(),
    };
    let weights = weights_of(header, part);
    put_part(
        plane,
        depth,
        weights,
        slice.index,
        layout,
        place,
        part,
        blocks,
    );
}

/// The plane of a part of a coded picture.
fn part_plane(
    alloc: Global,
    header: &FrameHeader,
    depth: Depth,
    part: Part,
    picture: &CodedPicture,
) -> Result<Plane, NoMemory>
    requires { IsCodedPicture header.now picture.now }
    ensures { IfOk result (λ p. p ≡ part_plane header.now depth part picture.now) }
{
    let layout = layout_of(header, picture.log2);
    let height = u32::from(layout.picture_height());
    let mut plane = Plane::new(alloc, plane_width(header, part), height, 0)?;
    let slices = picture.slices.as_slice();
    for number in 0..slices.len() {
        let place = layout.slice(number as u32);
        put_slice_part(
            &mut plane,
            depth,
            header,
            &layout,
            &place,
            part,
            &slices[number],
        );
    }
    Ok(plane)
}

/// The plane of alpha of a coded picture of a frame with alpha.
fn alpha_plane(
    alloc: Global,
    header: &FrameHeader,
    picture: &CodedPicture,
) -> Result<Plane, NoMemory>
    requires alpha { header.now.alpha ≡ Absent → ⊥ }
    requires picture { IsCodedPicture header.now picture.now }
    ensures { IfOk result (λ p. p ≡ alpha_plane header.now picture.now) }
{
    let layout = layout_of(header, picture.log2);
    let height = u32::from(layout.picture_height());
    let mut plane = Plane::new(alloc, u32::from(header.width), height, 0)?;
    let slices = picture.slices.as_slice();
    for number in 0..slices.len() {
        let place = layout.slice(number as u32);
        put_values(&mut plane, &layout, &place, slices[number].alpha.as_slice());
    }
    Ok(plane)
}

/// The planes of the two fields of a frame, the earlier first, as one.
pub(crate) fn woven(
    alloc: Global,
    interlace: Interlace,
    first: &Plane,
    second: &Plane,
) -> Result<Plane, NoMemory>
    requires columns { first.now.width ≡ second.now.width }
    requires rows { first.now.height ≡ second.now.height }
    requires limit { 2 * first.now.height ≤ MAX_HEIGHT }
    requires fields { interlace ≡ Progressive → ⊥ }
    ensures { IfOk result (λ p. p ≡ woven interlace (first.now ∷ second.now ∷ [])) }
{
    match interlace {
        Interlace::BottomFirst => Plane::weave(alloc, second, first),
        Interlace::Progressive | Interlace::TopFirst => Plane::weave(alloc, first, second),
    }
}

/// The plane of a part of a frame.
fn shown_plane(
    alloc: Global,
    frame: &CodedFrame,
    depth: Depth,
    part: Part,
) -> Result<Plane, NoMemory>
    requires { IsCodedFrame frame.now }
    ensures { IfOk result (λ p. p ≡ shown_plane frame.now depth part) }
{
    let pictures = frame.pictures.as_slice();
    let first = part_plane(alloc, &frame.header, depth, part, &pictures[0])?;
    if frame.header.interlace == Interlace::Progressive {
        return Ok(first);
    }
    let second = part_plane(alloc, &frame.header, depth, part, &pictures[1])?;
    woven(alloc, frame.header.interlace, &first, &second)
}

/// The plane of alpha of a frame, where it has alpha.
fn shown_alpha(alloc: Global, frame: &CodedFrame) -> Result<Option<Plane>, NoMemory>
    requires { IsCodedFrame frame.now }
    ensures { IfOk result (λ a. a ≡ shown_alpha frame.now frame.now.header.alpha) }
{
    if frame.header.alpha == AlphaKind::Absent {
        return Ok(None);
    }
    let pictures = frame.pictures.as_slice();
    let first = alpha_plane(alloc, &frame.header, &pictures[0])?;
    if frame.header.interlace == Interlace::Progressive {
        return Ok(Some(first));
    }
    let second = alpha_plane(alloc, &frame.header, &pictures[1])?;
    Ok(Some(woven(alloc, frame.header.interlace, &first, &second)?))
}

/// The picture that a coded frame shows, with samples of this depth (SMPTE RDD 36, decoding; the product without a
/// division, the transform and the clipping are our own). Alpha values are shown as they are, at every depth.
pub fn show(alloc: Global, frame: &CodedFrame, depth: Depth) -> Result<Picture, NoMemory>
    requires { IsCodedFrame frame.now }
    ensures value { IfOk result (λ p. p ≡ shown frame.now depth) }
    // It has the form that the header says.
    ensures form { IfOk result (HasHeaderForm frame.now.header depth) }
{
    Ok(Picture {
        y: shown_plane(alloc, frame, depth, Part::Y)?,
        cb: shown_plane(alloc, frame, depth, Part::Cb)?,
        cr: shown_plane(alloc, frame, depth, Part::Cr)?,
        alpha: shown_alpha(alloc, frame)?,
        chroma: frame.header.chroma,
        depth,
    })
}
