//! Samples, shown while they are read: the blocks of one slice at a time.

ghost use Rattle.std.specs.Prelude.{◌≡◌, ◌+◌, ◌<◌, ◌≤◌, ◌^◌, length, sum, IfOk, IfErr, OnOk, IfSome, IsSome, Some};
ghost use Rattle.pw_outside.specs.Ports.{CountsFault, Lowers, GoesOn};
ghost use Rattle.pw_outside.specs.Reading.{Told};
ghost use Rattle.pw_planes.specs.declared.kinds.Interlace.TheVariants.{Progressive};
ghost use Rattle.pr_geom.specs.declared.places.TheConstants.{MAX_SLICES};
ghost use Rattle.pr_geom.specs.Slices.{pictures_of};
ghost use Rattle.pr_geom.specs.Layout.{IsLayoutOf, slices_of};
ghost use Rattle.pr_head.specs.declared.fault.FrameFault.TheVariants.{NoMemory};
ghost use Rattle.pr_head.specs.Faults.{told_fault, is_failed};
ghost use Rattle.pr_head.specs.Header.{HasLayoutSize};
ghost use Rattle.pr_frame.specs.Reading.{coded_slices_at, coded_picture_at, coded_pictures_at, frame_at, frame_fault};
ghost use Rattle.pr_frame.specs.Shown.{HasHeaderForm, IsShownBy};
ghost use Rattle.pr_frame.specs.inner.Output.{empty_output, HasFieldSize, woven_output, shown_with, AreSlicesOf, IsPictureOf, ArePicturesOf, IsFrameOf, Finds};

use crate::output::{OutputPlanes, empty_output, put_slice, woven_output};
use crate::read::{pass_to, picture_header, slice_sizes};
use crate::scratch::{Scratch, new_scratch};
use crate::slices::read_slice;
use pr_geom::Layout;
use pr_head::{FrameFault, FrameHeader, read_frame_header};
use pw_outside::ByteSource;
use pw_planes::{Depth, Interlace, Picture};
use std::alloc::Global;

/// The picture that a sample shows, with the frame's header and the range of its quantisation indices.
#[derive(Drop)]
pub struct Shown {
    /// The frame's header.
    pub header: FrameHeader,
    /// The least quantisation index of its slices, from 1 to 224.
    pub least_index: u8,
    /// The greatest, from 1 to 224.
    pub greatest_index: u8,
    /// The picture.
    pub picture: Picture,
}

/// The output planes before the first slice of a picture, in a frame with this header.
fn first_output(
    alloc: Global,
    header: &FrameHeader,
    layout: &Layout,
) -> Result<OutputPlanes, FrameFault>
    requires header { HasLayoutSize header.now }
    requires layout { IsLayoutOf layout.now header.now.width header.now.height layout.now.log2 header.now.interlace header.now.chroma }
    ensures value { IfOk result (λ s. s ≡ empty_output header.now) }
    ensures error { IfErr result (λ e. e ≡ NoMemory) }
{
    match empty_output(alloc, header, layout) {
        Ok(output) => Ok(output),
        Err(_) => Err(FrameFault::NoMemory),
    }
}

/// Reads the slices of a picture with this layout, which have these sizes, and writes each into the output planes.
/// The layout is that of a frame with this header.
#[tactic(auto, using(pr_head::proofs::Bounds::lowers_then))]
fn show_slices<S: ByteSource>(
    source: &mut S,
    place: &mut u64,
    sizes: &[u16],
    header: &FrameHeader,
    layout: &Layout,
    depth: Depth,
    scratch: &mut Scratch,
) -> Result<OutputPlanes, FrameFault>
    requires header { HasLayoutSize header.now }
    requires layout { IsLayoutOf layout.now header.now.width header.now.height layout.now.log2 header.now.interlace header.now.chroma }
    requires count { length sizes.now ≡ length (slices_of layout.now) }
    requires few { length sizes.now ≤ MAX_SLICES }
    requires room { place.old + sum sizes.now < 2 ^ 32 }
    ensures found { Finds (AreSlicesOf header.now depth (slices_of layout.now)) (Told (S.left source.old) (λ bytes. sum sizes.now ≤ length bytes)) (S.left source.old) (S.left source.new) place.old place.new result (coded_slices_at header.now (slices_of layout.now) sizes.now) }
    ensures place { OnOk result (place.new ≤ place.old + sum sizes.now) }
    ensures most { Lowers (S.most source.old) (S.most source.new) 0 }
    ensures becomes { GoesOn S.becomes source.old source.new }
    ensures cause { CountsFault (S.faults source.old) (S.faults source.new) (is_failed result) }
{
    let mut output = first_output(scratch.alloc, header, layout)?;
    for (number, size) in sizes.iter().enumerate() {
        let spot = layout.slice(number as u32);
        let slice = read_slice(source, place, *size, header, layout, &spot, scratch)?;
        put_slice(&mut output, depth, header, layout, &spot, &slice);
    }
    Ok(output)
}

/// Reads the picture that begins here, in a frame of `frame` bytes with this header, into output planes, and skips
/// what is left of it.
#[tactic(auto, using(pr_head::proofs::Bounds::lowers_then))]
fn show_picture<S: ByteSource>(
    source: &mut S,
    place: &mut u64,
    frame: u32,
    header: &FrameHeader,
    depth: Depth,
    scratch: &mut Scratch,
) -> Result<OutputPlanes, FrameFault>
    requires header { HasLayoutSize header.now }
    requires room { place.old ≤ frame }
    ensures found { Finds (IsPictureOf header.now depth) (Told (S.left source.old) (λ bytes. frame ≤ place.old + length bytes)) (S.left source.old) (S.left source.new) place.old place.new result (coded_picture_at frame header.now) }
    ensures place { OnOk result (place.new ≤ frame) }
    ensures most { Lowers (S.most source.old) (S.most source.new) 0 }
    ensures becomes { GoesOn S.becomes source.old source.new }
    ensures cause { CountsFault (S.faults source.old) (S.faults source.new) (is_failed result) }
{
    let at = *place;
    let (picture, layout) = picture_header(source, place, frame, header)?;
    let sizes = slice_sizes(scratch.alloc, source, place, &picture, layout.slices())?;
    let output = show_slices(source, place, &sizes, header, &layout, depth, scratch)?;
    pass_to(source, place, at + u64::from(picture.size))?;
    Ok(output)
}

/// The output planes of the two fields of a frame, the earlier first, as one.
fn whole_output(
    alloc: Global,
    header: &FrameHeader,
    first: &OutputPlanes,
    second: &OutputPlanes,
) -> Result<OutputPlanes, FrameFault>
    requires header { HasLayoutSize header.now }
    requires first { HasFieldSize header.now first.now }
    requires second { HasFieldSize header.now second.now }
    requires fields { header.now.interlace ≡ Progressive → ⊥ }
    ensures value { IfOk result (λ s. s ≡ woven_output header.now.interlace first.now second.now) }
    ensures error { IfErr result (λ e. e ≡ NoMemory) }
{
    match woven_output(alloc, header, first, second) {
        Ok(output) => Ok(output),
        Err(_) => Err(FrameFault::NoMemory),
    }
}

/// Reads the pictures of a frame of `frame` bytes with this header into output planes: one, or both fields.
#[tactic(auto, using(pr_head::proofs::Bounds::lowers_then))]
fn show_pictures<S: ByteSource>(
    source: &mut S,
    place: &mut u64,
    frame: u32,
    header: &FrameHeader,
    depth: Depth,
    scratch: &mut Scratch,
) -> Result<OutputPlanes, FrameFault>
    requires header { HasLayoutSize header.now }
    requires room { place.old ≤ frame }
    ensures found { Finds (ArePicturesOf header.now depth) (Told (S.left source.old) (λ bytes. frame ≤ place.old + length bytes)) (S.left source.old) (S.left source.new) place.old place.new result (coded_pictures_at (pictures_of header.now.interlace) frame header.now) }
    ensures most { Lowers (S.most source.old) (S.most source.new) 0 }
    ensures becomes { GoesOn S.becomes source.old source.new }
    ensures cause { CountsFault (S.faults source.old) (S.faults source.new) (is_failed result) }
{
    let first = show_picture(source, place, frame, header, depth, scratch)?;
    if header.interlace == Interlace::Progressive {
        return Ok(first);
    }
    let second = show_picture(source, place, frame, header, depth, scratch)?;
    whole_output(scratch.alloc, header, &first, &second)
}

/// What is reported of a frame with this header and these output planes.
fn shown_with(header: FrameHeader, depth: Depth, output: OutputPlanes) -> Shown
    ensures { result ≡ shown_with header depth output }
{
    Shown {
        least_index: output.least,
        greatest_index: output.greatest,
        picture: Picture {
            y: output.y,
            cb: output.cb,
            cr: output.cr,
            alpha: output.alpha,
            chroma: header.chroma,
            depth,
        },
        header,
    }
}

/// Reads the frame at the start of a sample of `size` bytes, and shows it.
#[tactic(auto, using(pr_head::proofs::Bounds::lowers_then))]
fn show_frame<S: ByteSource>(
    alloc: Global,
    source: &mut S,
    place: &mut u64,
    size: u32,
    depth: Depth,
) -> Result<Shown, FrameFault>
    requires place { place.old ≡ 0 }
    requires bytes { Told (S.left source.old) (λ bytes. size ≤ length bytes) }
    ensures found { Finds (IsFrameOf depth) (Told (S.left source.old) (λ bytes. size ≤ length bytes)) (S.left source.old) (S.left source.new) place.old place.new result (frame_at size) }
    ensures most { Lowers (S.most source.old) (S.most source.new) 0 }
    ensures becomes { GoesOn S.becomes source.old source.new }
    ensures cause { CountsFault (S.faults source.old) (S.faults source.new) (is_failed result) }
{
    let (header, taken, frame) = read_frame_header(source, size)?;
    *place = u64::from(taken);
    let mut scratch = new_scratch(alloc);
    let output = show_pictures(source, place, frame, &header, depth, &mut scratch)?;
    Ok(shown_with(header, depth, output))
}

/// Reads the picture that a sample of `size` bytes shows, with samples of this depth. The source holds the sample.
///
/// The errors are those of [`crate::read_frame`]: `Bad` with the first fault of the sample and its offset, counted
/// from the sample's first byte; `Failed` if a call of the source failed; and `NoMemory`.
pub fn read_shown<S: ByteSource>(
    alloc: Global,
    source: &mut S,
    size: u32,
    depth: Depth,
) -> Result<Shown, FrameFault>
    // If the source's bytes are visible, they are the sample.
    requires { Told (S.left source.old) (λ bytes. length bytes ≡ size) }
    // If the source's bytes are visible, the sample stands for a coded frame, and this is its header, picture and
    // indices.
    ensures shown { IfOk result (λ p. Told (S.left source.old) (λ sample. IsShownBy depth sample p)) }
    // If they are visible, a reported fault is the sample's first.
    ensures fault { IfErr result (λ e. Told (S.left source.old) (λ sample. IfSome (told_fault e) (λ fault. frame_fault sample ≡ Some fault))) }
    // Whether they are visible or opaque, the picture has the form that the header says.
    ensures form { IfOk result (λ p. HasHeaderForm p.header depth p.picture) }
    ensures told { IsSome (S.left source.old) → OnOk result (IsSome (S.left source.new)) }
    ensures most { Lowers (S.most source.old) (S.most source.new) 0 }
    ensures becomes { GoesOn S.becomes source.old source.new }
    // The error is `Failed` only if a call of the source failed, and each such call is reported.
    ensures cause { CountsFault (S.faults source.old) (S.faults source.new) (is_failed result) }
{
    let mut place = 0;
    show_frame(alloc, source, &mut place, size, depth)
}
