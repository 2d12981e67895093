//! The output planes of a picture, while its slices are written into them.

ghost use Rattle.std.specs.Prelude.{◌≡◌, ◌*◌, ◌≤◌, IfOk, IfSome};
ghost use Rattle.pw_planes.specs.declared.kinds.AlphaKind.TheVariants.{Absent};
ghost use Rattle.pw_planes.specs.declared.kinds.Interlace.TheVariants.{Progressive};
ghost use Rattle.pr_geom.specs.Layout.{IsLayoutOf, IsSlice};
ghost use Rattle.pr_head.specs.Header.{HasLayoutSize};
ghost use Rattle.pr_frame.specs.Coded.{IsCodedSlice};
ghost use Rattle.pr_frame.specs.inner.Output.{empty_plane, empty_alpha, empty_output, with_values, with_slice, HasAlpha, HasFieldSize, woven_alpha, woven_output};

use crate::coded::CodedSlice;
use crate::pictures::{plane_width, put_slice_part, woven};
use crate::placing::put_values;
use pr_geom::{Layout, Part, SlicePlace};
use pr_head::FrameHeader;
use pw_outside::NoMemory;
use pw_planes::{AlphaKind, Depth, Interlace, MAX_HEIGHT, Plane};
use std::alloc::Global;

/// The output planes of a picture whose slices are written one by one, and the least and the greatest quantisation
/// index of those so far.
#[derive(Drop)]
pub(crate) struct OutputPlanes {
    /// Luma.
    pub y: Plane,
    /// The first component of chroma.
    pub cb: Plane,
    /// The second component of chroma.
    pub cr: Plane,
    /// The alpha values, where the frame has alpha.
    pub alpha: Option<Plane>,
    /// The least quantisation index, and 255 before the first slice.
    pub least: u8,
    /// The greatest, and 0 before the first slice.
    pub greatest: u8,
}

/// The alpha plane of a picture before its first slice, if the frame has alpha.
fn empty_alpha(
    alloc: Global,
    header: &FrameHeader,
    layout: &Layout,
) -> Result<Option<Plane>, NoMemory>
    requires header { HasLayoutSize header.now }
    requires layout { IsLayoutOf layout.now header.now.width header.now.height layout.now.log2 header.now.interlace header.now.chroma }
    ensures { IfOk result (λ a. a ≡ empty_alpha header.now header.now.alpha) }
{
    if header.alpha == AlphaKind::Absent {
        return Ok(None);
    }
    let height = u32::from(layout.picture_height());
    Ok(Some(Plane::new(alloc, u32::from(header.width), height, 0)?))
}

/// The plane of a part before the first slice.
fn empty_plane(
    alloc: Global,
    header: &FrameHeader,
    layout: &Layout,
    part: Part,
) -> Result<Plane, NoMemory>
    requires header { HasLayoutSize header.now }
    requires layout { IsLayoutOf layout.now header.now.width header.now.height layout.now.log2 header.now.interlace header.now.chroma }
    ensures { IfOk result (λ p. p ≡ empty_plane header.now part) }
{
    let height = u32::from(layout.picture_height());
    Plane::new(alloc, plane_width(header, part), height, 0)
}

/// The output planes of a picture with this layout before its first slice, in a frame with this header.
pub(crate) fn empty_output(
    alloc: Global,
    header: &FrameHeader,
    layout: &Layout,
) -> Result<OutputPlanes, NoMemory>
    requires header { HasLayoutSize header.now }
    requires layout { IsLayoutOf layout.now header.now.width header.now.height layout.now.log2 header.now.interlace header.now.chroma }
    ensures { IfOk result (λ s. s ≡ empty_output header.now) }
{
    Ok(OutputPlanes {
        y: empty_plane(alloc, header, layout, Part::Y)?,
        cb: empty_plane(alloc, header, layout, Part::Cb)?,
        cr: empty_plane(alloc, header, layout, Part::Cr)?,
        alpha: empty_alpha(alloc, header, layout)?,
        least: 255,
        greatest: 0,
    })
}

/// Writes the alpha values of a slice into the alpha plane, if there is one.
fn put_slice_values(
    alpha: &mut Option<Plane>,
    header: &FrameHeader,
    layout: &Layout,
    place: &SlicePlace,
    slice: &CodedSlice,
)
    requires layout { layout.now.chroma ≡ header.now.chroma }
    requires place { IsSlice layout.now place.now }
    requires slice { IsCodedSlice header.now place.now slice.now }
    requires alpha { IfSome alpha.old (λ _. header.now.alpha ≡ Absent → ⊥) }
    ensures { alpha.new ≡ with_values header.now place.now slice.now alpha.old }
{
    match alpha {
        Some(plane) => put_values(plane, layout, place, slice.alpha.as_slice()),
        None => {}
    }
}

/// Writes the samples of a slice into the planes, each block at its position, and includes its index.
pub(crate) fn put_slice(
    output: &mut OutputPlanes,
    depth: Depth,
    header: &FrameHeader,
    layout: &Layout,
    place: &SlicePlace,
    slice: &CodedSlice,
)
    requires layout { layout.now.chroma ≡ header.now.chroma }
    requires place { IsSlice layout.now place.now }
    requires slice { IsCodedSlice header.now place.now slice.now }
    requires alpha { HasAlpha header.now output.old }
    ensures { output.new ≡ with_slice header.now depth place.now slice.now output.old }
{
    put_slice_part(&mut output.y, depth, header, layout, place, Part::Y, slice);
    put_slice_part(
        &mut output.cb,
        depth,
        header,
        layout,
        place,
        Part::Cb,
        slice,
    );
    put_slice_part(
        &mut output.cr,
        depth,
        header,
        layout,
        place,
        Part::Cr,
        slice,
    );
    put_slice_values(&mut output.alpha, header, layout, place, slice);
    output.least = output.least.min(slice.index);
    output.greatest = output.greatest.max(slice.index);
}

/// The alpha planes of the two fields of a frame, the earlier first, as one, if there are two.
fn woven_alpha(
    alloc: Global,
    interlace: Interlace,
    first: &Option<Plane>,
    second: &Option<Plane>,
) -> Result<Option<Plane>, NoMemory>
    requires sizes { IfSome first.now (λ a. IfSome second.now (λ b. (a.width ≡ b.width) × (a.height ≡ b.height) × (2 * a.height ≤ MAX_HEIGHT))) }
    requires fields { interlace ≡ Progressive → ⊥ }
    ensures { IfOk result (λ a. a ≡ woven_alpha interlace first.now second.now) }
{
    match first {
        Some(a) => match second {
            Some(b) => Ok(Some(woven(alloc, interlace, a, b)?)),
            None => Ok(None),
        },
        None => Ok(None),
    }
}

/// The output planes of the two fields of a frame with this header, the earlier first, as one.
pub(crate) fn woven_output(
    alloc: Global,
    header: &FrameHeader,
    first: &OutputPlanes,
    second: &OutputPlanes,
) -> Result<OutputPlanes, NoMemory>
    requires header { HasLayoutSize header.now }
    requires first { HasFieldSize header.now first.now }
    requires second { HasFieldSize header.now second.now }
    requires fields { header.now.interlace ≡ Progressive → ⊥ }
    ensures { IfOk result (λ s. s ≡ woven_output header.now.interlace first.now second.now) }
{
    let interlace = header.interlace;
    Ok(OutputPlanes {
        y: woven(alloc, interlace, &first.y, &second.y)?,
        cb: woven(alloc, interlace, &first.cb, &second.cb)?,
        cr: woven(alloc, interlace, &first.cr, &second.cr)?,
        alpha: woven_alpha(alloc, interlace, &first.alpha, &second.alpha)?,
        least: first.least.min(second.least),
        greatest: first.greatest.max(second.greatest),
    })
}
