//! The slices of a picture, read.

ghost use Rattle.std.specs.Prelude.{◌≡◌, ◌+◌, ◌<◌, ◌≤◌, ◌^◌, length, sum, IfOk, OnOk};
ghost use Rattle.std.specs.List.{All};
ghost use Rattle.pw_outside.specs.Ports.{CountsFault, Lowers, GoesOn};
ghost use Rattle.pw_outside.specs.Reading.{Gives, Told};
ghost use Rattle.pr_geom.specs.declared.places.TheConstants.{MAX_SLICES};
ghost use Rattle.pr_geom.specs.Layout.{IsLayoutOf, IsSlice, IsInside, slices_of};
ghost use Rattle.pr_geom.specs.Blocks.{blocks_of};
ghost use Rattle.pr_geom.specs.declared.places.Part.TheVariants.{Y, Cb, Cr};
ghost use Rattle.pr_head.specs.Faults.{told_fault, is_failed};
ghost use Rattle.pr_head.specs.Slice.{slice_at, IsSliceHeader};
ghost use Rattle.pr_frame.specs.Forms.{has_alpha, alpha_count, alpha_depth};
ghost use Rattle.pr_frame.specs.Coded.{IsCodedSlice, AreCodedSlices};
ghost use Rattle.pr_frame.specs.Reading.{components_at, coded_slice_at, coded_slices_at};

use crate::coded::{CodedSlice, CodedSlices};
use crate::parts::{has_alpha, read_alpha_part, read_part};
use crate::scratch::Scratch;
use pr_geom::{Layout, Part, SlicePlace};
use pr_head::{FrameFault, FrameHeader, SliceHeader, read_slice_header};
use pw_outside::ByteSource;
use pw_planes::AlphaKind;

/// Reads the header of the slice of the next `size` bytes.
fn slice_header<S: ByteSource>(
    source: &mut S,
    place: &mut u64,
    size: u16,
    alpha: AlphaKind,
) -> Result<SliceHeader, FrameFault>
    requires { place.old + size < 2 ^ 32 }
    ensures bytes { Told (S.left source.old) (λ bytes. size ≤ length bytes) → Gives told_fault (λ x. x) (S.left source.old) (S.left source.new) place.old place.new result (slice_at size (has_alpha alpha)) }
    ensures place { IfOk result (λ r. place.new ≡ place.old + r.header) }
    ensures slice { IfOk result (IsSliceHeader size (has_alpha alpha)) }
    ensures most { Lowers (S.most source.old) (S.most source.new) 0 }
    ensures becomes { GoesOn S.becomes source.old source.new }
    ensures cause { CountsFault (S.faults source.old) (S.faults source.new) (is_failed result) }
{
    let header = read_slice_header(source, *place as u32, size, has_alpha(alpha))?;
    *place += u64::from(header.header);
    Ok(header)
}

/// Reads the components of the slice at this place of the layout, whose header was read, with alpha values of this kind.
#[tactic(auto, using(pr_head::proofs::Bounds::lowers_then), unfolding(crate::specs::Reading::components_at, pw_outside::specs::Reading::bind))]
fn read_components<S: ByteSource>(
    source: &mut S,
    place: &mut u64,
    head: &SliceHeader,
    layout: &Layout,
    alpha: AlphaKind,
    slice: &SlicePlace,
    scratch: &mut Scratch,
) -> Result<CodedSlice, FrameFault>
    requires slice { IsSlice layout.now slice.now }
    requires inside { IsInside layout.now slice.now }
    requires room { place.old + head.now.y + head.now.cb + head.now.cr + head.now.alpha < 2 ^ 32 }
    ensures bytes { (h : FrameHeader) → h.interlace ≡ layout.now.interlace → h.chroma ≡ layout.now.chroma → h.alpha ≡ alpha → Gives told_fault (λ x. x) (S.left source.old) (S.left source.new) place.old place.new result (λ s. components_at h slice.now (head.now, s)) }
    ensures index { IfOk result (λ x. x.index ≡ head.now.index) }
    ensures y { IfOk result (λ x. length x.y ≡ length (blocks_of layout.now.chroma Y slice.now)) }
    ensures cb { IfOk result (λ x. length x.cb ≡ length (blocks_of layout.now.chroma Cb slice.now)) }
    ensures cr { IfOk result (λ x. length x.cr ≡ length (blocks_of layout.now.chroma Cr slice.now)) }
    ensures alpha { IfOk result (λ x. length x.alpha ≡ alpha_count alpha slice.now) }
    ensures values { IfOk result (λ x. All (λ value. value < 2 ^ alpha_depth alpha) x.alpha) }
    ensures place { OnOk result (place.new ≤ place.old + head.now.y + head.now.cb + head.now.cr + head.now.alpha) }
    ensures most { Lowers (S.most source.old) (S.most source.new) 0 }
    ensures becomes { GoesOn S.becomes source.old source.new }
    ensures cause { CountsFault (S.faults source.old) (S.faults source.new) (is_failed result) }
{
    let y = read_part(source, place, head.y, layout, slice, Part::Y, scratch)?;
    let cb = read_part(source, place, head.cb, layout, slice, Part::Cb, scratch)?;
    let cr = read_part(source, place, head.cr, layout, slice, Part::Cr, scratch)?;
    let alpha = read_alpha_part(scratch.alloc, source, place, head.alpha, alpha, slice)?;
    Ok(CodedSlice {
        index: head.index,
        y,
        cb,
        cr,
        alpha,
    })
}

/// Reads the slice at this place of the layout, from the next `size` bytes. The layout is that of a frame with this
/// header.
#[tactic(auto, using(pr_head::proofs::Bounds::lowers_then))]
pub(crate) fn read_slice<S: ByteSource>(
    source: &mut S,
    place: &mut u64,
    size: u16,
    header: &FrameHeader,
    layout: &Layout,
    slice: &SlicePlace,
    scratch: &mut Scratch,
) -> Result<CodedSlice, FrameFault>
    requires layout { IsLayoutOf layout.now header.now.width header.now.height layout.now.log2 header.now.interlace header.now.chroma }
    requires slice { IsSlice layout.now slice.now }
    requires inside { IsInside layout.now slice.now }
    requires room { place.old + size < 2 ^ 32 }
    ensures bytes { Told (S.left source.old) (λ bytes. size ≤ length bytes) → Gives told_fault (λ x. x) (S.left source.old) (S.left source.new) place.old place.new result (coded_slice_at header.now slice.now size) }
    ensures slice { IfOk result (IsCodedSlice header.now slice.now) }
    ensures place { OnOk result (place.new ≤ place.old + size) }
    ensures most { Lowers (S.most source.old) (S.most source.new) 0 }
    ensures becomes { GoesOn S.becomes source.old source.new }
    ensures cause { CountsFault (S.faults source.old) (S.faults source.new) (is_failed result) }
{
    let head = slice_header(source, place, size, header.alpha)?;
    read_components(source, place, &head, layout, header.alpha, slice, scratch)
}

/// Reads the slices of a picture with this layout, which have these sizes. The layout is that of a frame with this header.
#[tactic(auto, using(pr_head::proofs::Bounds::lowers_then))]
pub(crate) fn read_slices<S: ByteSource>(
    source: &mut S,
    place: &mut u64,
    sizes: &[u16],
    header: &FrameHeader,
    layout: &Layout,
    scratch: &mut Scratch,
) -> Result<CodedSlices, FrameFault>
    requires layout { IsLayoutOf layout.now header.now.width header.now.height layout.now.log2 header.now.interlace header.now.chroma }
    requires count { length sizes.now ≡ length (slices_of layout.now) }
    requires few { length sizes.now ≤ MAX_SLICES }
    requires room { place.old + sum sizes.now < 2 ^ 32 }
    ensures bytes { Told (S.left source.old) (λ bytes. sum sizes.now ≤ length bytes) → Gives told_fault (λ x. x) (S.left source.old) (S.left source.new) place.old place.new result (coded_slices_at header.now (slices_of layout.now) sizes.now) }
    ensures slices { IfOk result (AreCodedSlices header.now (slices_of layout.now)) }
    ensures place { OnOk result (place.new ≤ place.old + sum sizes.now) }
    ensures most { Lowers (S.most source.old) (S.most source.new) 0 }
    ensures becomes { GoesOn S.becomes source.old source.new }
    ensures cause { CountsFault (S.faults source.old) (S.faults source.new) (is_failed result) }
{
    let mut slices = Vec::new(scratch.alloc);
    for (number, size) in sizes.iter().enumerate() {
        let slice = layout.slice(number as u32);
        let coded = read_slice(source, place, *size, header, layout, &slice, scratch)?;
        slices.push(coded)?;
    }
    Ok(CodedSlices::from_vec(slices))
}
