//! Frames, read.

ghost use Rattle.std.specs.Prelude.{◌≡◌, ◌+◌, ◌*◌, ◌<◌, ◌≤◌, ◌^◌, ◌==◌, List, ℕ, length, sum, take, drop, IfOk, IfErr, OnOk, IfSome, IsSome, None, Some, ◌-◌};
ghost use Rattle.std.specs.List.{All};
ghost use Rattle.pw_outside.specs.Ports.{CountsFault, Lowers, GoesOn};
ghost use Rattle.pw_outside.specs.Reading.{Gives, Told, bytes_of};
ghost use Rattle.pr_geom.specs.Slices.{pictures_of};
ghost use Rattle.pr_geom.specs.Layout.{IsLayoutOf};
ghost use Rattle.pr_head.specs.Faults.{told_fault, is_failed};
ghost use Rattle.pr_head.specs.Header.{HasLayoutSize, IsHeader, header_at};
ghost use Rattle.pr_head.specs.Picture.{IsPicture, picture_at, table_at, picture_size};
ghost use Rattle.pr_frame.specs.Coded.{IsCodedPicture, IsCodedFrame};
ghost use Rattle.pr_frame.specs.Reading.{coded_picture_at, coded_pictures_at, frame_at, frame_fault};
ghost use Rattle.pr_frame.specs.Stands.{FrameStands};

use crate::coded::{CodedFrame, CodedPicture, CodedPictures};
use crate::parts::pass;
use crate::scratch::{Scratch, new_scratch};
use crate::slices::read_slices;
use pr_geom::{Layout, pictures_of};
use pr_head::{
    FrameFault, FrameHeader, PictureHeader, read_frame_header, read_picture_header,
    read_slice_sizes,
};
use pw_outside::ByteSource;
use std::alloc::Global;

/// Reads the header of the picture that begins here, in a frame of `frame` bytes.
pub(crate) fn picture_header<S: ByteSource>(
    source: &mut S,
    place: &mut u64,
    frame: u32,
    header: &FrameHeader,
) -> Result<(PictureHeader, Layout), FrameFault>
    requires room { place.old ≤ frame }
    requires header { HasLayoutSize header.now }
    ensures bytes { Told (S.left source.old) (λ bytes. frame ≤ place.old + length bytes) → Gives told_fault (λ t. t.0) (S.left source.old) (S.left source.new) place.old place.new result (picture_at frame header.now) }
    ensures layout { IfOk result (λ t. IsLayoutOf t.1 header.now.width header.now.height t.0.log2 header.now.interlace header.now.chroma) }
    ensures picture { IfOk result (λ t. IsPicture t.0) }
    ensures within { IfOk result (λ t. place.old + t.0.size ≤ frame) }
    ensures place { IfOk result (λ t. place.new ≡ place.old + t.0.header) }
    ensures most { Lowers (S.most source.old) (S.most source.new) 0 }
    ensures becomes { GoesOn S.becomes source.old source.new }
    ensures cause { CountsFault (S.faults source.old) (S.faults source.new) (is_failed result) }
{
    let (picture, layout) = read_picture_header(source, *place as u32, frame, header)?;
    *place += u64::from(picture.header);
    Ok((picture, layout))
}

/// Reads the sizes of `slices` slices, after the picture's header.
pub(crate) fn slice_sizes<S: ByteSource>(
    alloc: Global,
    source: &mut S,
    place: &mut u64,
    picture: &PictureHeader,
    slices: u32,
) -> Result<Vec<u16>, FrameFault>
    requires header { picture.now.header ≤ place.old }
    requires room { place.old < 2 ^ 33 }
    requires at { place.old < 2 ^ 32 + picture.now.header }
    ensures bytes { Told (S.left source.old) (λ bytes. picture.now.size ≤ picture.now.header + length bytes) → Gives told_fault (λ v. v.items) (S.left source.old) (S.left source.new) place.old place.new result (table_at picture.now slices) }
    ensures count { IfOk result (λ v. length v.items ≡ slices) }
    ensures within { IfOk result (λ v. picture_size picture.now v.items ≤ picture.now.size) }
    ensures place { OnOk result (place.new ≡ place.old + 2 * slices) }
    ensures most { Lowers (S.most source.old) (S.most source.new) 0 }
    ensures becomes { GoesOn S.becomes source.old source.new }
    ensures cause { CountsFault (S.faults source.old) (S.faults source.new) (is_failed result) }
{
    let at = (*place - u64::from(picture.header)) as u32;
    let sizes = read_slice_sizes(alloc, source, at, picture, slices)?;
    *place += 2 * u64::from(slices);
    Ok(sizes)
}

/// Skips the bytes up to this offset.
pub(crate) fn pass_to<S: ByteSource>(
    source: &mut S,
    place: &mut u64,
    end: u64,
) -> Result<(), FrameFault>
    requires { place.old ≤ end }
    ensures told { IsSome (S.left source.old) → IsSome (S.left source.new) }
    ensures bytes { OnOk result (IsSome (S.left source.old) → bytes_of (S.left source.new) ≡ drop (end - place.old) (bytes_of (S.left source.old))) }
    ensures failed { IfErr result (λ e. told_fault e ≡ None) }
    ensures place { OnOk result (place.new ≡ end) }
    ensures most { Lowers (S.most source.old) (S.most source.new) 0 }
    ensures becomes { GoesOn S.becomes source.old source.new }
    ensures cause { CountsFault (S.faults source.old) (S.faults source.new) (is_failed result) }
{
    pass(source, end - *place)?;
    *place = end;
    Ok(())
}

/// Reads the picture that begins here, in a frame of `frame` bytes with this header, and skips what is left of it.
#[tactic(auto, using(pr_head::proofs::Bounds::lowers_then))]
fn read_picture<S: ByteSource>(
    source: &mut S,
    place: &mut u64,
    frame: u32,
    header: &FrameHeader,
    scratch: &mut Scratch,
) -> Result<CodedPicture, FrameFault>
    requires header { HasLayoutSize header.now }
    requires room { place.old ≤ frame }
    ensures bytes { Told (S.left source.old) (λ bytes. frame ≤ place.old + length bytes) → Gives told_fault (λ x. x) (S.left source.old) (S.left source.new) place.old place.new result (coded_picture_at frame header.now) }
    ensures picture { IfOk result (IsCodedPicture header.now) }
    ensures place { OnOk result (place.new ≤ frame) }
    ensures most { Lowers (S.most source.old) (S.most source.new) 0 }
    ensures becomes { GoesOn S.becomes source.old source.new }
    ensures cause { CountsFault (S.faults source.old) (S.faults source.new) (is_failed result) }
{
    let at = *place;
    let (picture, layout) = picture_header(source, place, frame, header)?;
    let sizes = slice_sizes(scratch.alloc, source, place, &picture, layout.slices())?;
    let slices = read_slices(source, place, &sizes, header, &layout, scratch)?;
    pass_to(source, place, at + u64::from(picture.size))?;
    Ok(CodedPicture {
        log2: picture.log2,
        slices,
    })
}

/// Reads `count` pictures in order, in a frame of `frame` bytes with this header.
#[tactic(auto, using(pr_head::proofs::Bounds::lowers_then))]
fn read_pictures<S: ByteSource>(
    source: &mut S,
    place: &mut u64,
    count: u8,
    frame: u32,
    header: &FrameHeader,
    scratch: &mut Scratch,
) -> Result<CodedPictures, FrameFault>
    requires header { HasLayoutSize header.now }
    requires room { place.old ≤ frame }
    ensures bytes { Told (S.left source.old) (λ bytes. frame ≤ place.old + length bytes) → Gives told_fault (λ x. x) (S.left source.old) (S.left source.new) place.old place.new result (coded_pictures_at count frame header.now) }
    ensures pictures { IfOk result (All (IsCodedPicture header.now)) }
    ensures count { IfOk result (λ x. length x ≡ count) }
    ensures most { Lowers (S.most source.old) (S.most source.new) 0 }
    ensures becomes { GoesOn S.becomes source.old source.new }
    ensures cause { CountsFault (S.faults source.old) (S.faults source.new) (is_failed result) }
{
    let mut pictures = Vec::new(scratch.alloc);
    for _ in 0..count {
        let picture = read_picture(source, place, frame, header, scratch)?;
        pictures.push(picture)?;
    }
    Ok(CodedPictures::from_vec(pictures))
}

/// Reads the frame at the start of a sample of `size` bytes.
#[tactic(auto, using(pr_head::proofs::Bounds::lowers_then))]
fn frame_from<S: ByteSource>(
    alloc: Global,
    source: &mut S,
    place: &mut u64,
    size: u32,
) -> Result<CodedFrame, FrameFault>
    requires place { place.old ≡ 0 }
    requires bytes { Told (S.left source.old) (λ bytes. size ≤ length bytes) }
    ensures bytes { Gives told_fault (λ x. x) (S.left source.old) (S.left source.new) place.old place.new result (frame_at size) }
    ensures coded { IfOk result IsCodedFrame }
    ensures most { Lowers (S.most source.old) (S.most source.new) 0 }
    ensures becomes { GoesOn S.becomes source.old source.new }
    ensures cause { CountsFault (S.faults source.old) (S.faults source.new) (is_failed result) }
{
    let (header, taken, frame) = read_frame_header(source, size)?;
    *place = u64::from(taken);
    let count = pictures_of(header.interlace);
    let mut scratch = new_scratch(alloc);
    let pictures = read_pictures(source, place, count, frame, &header, &mut scratch)?;
    Ok(CodedFrame { header, pictures })
}

/// Reads the coded frame for which a sample of `size` bytes stands. The source holds the sample.
///
/// The errors are `Bad` with the first fault of the sample and its offset, counted from the sample's first byte;
/// `Failed` if a call of the source failed; and `NoMemory`. For a source whose bytes are opaque, the result has the
/// counts of its header's layout.
pub fn read_frame<S: ByteSource>(
    alloc: Global,
    source: &mut S,
    size: u32,
) -> Result<CodedFrame, FrameFault>
    // If the source's bytes are visible, they are the sample.
    requires { Told (S.left source.old) (λ bytes. length bytes ≡ size) }
    // If the source's bytes are visible, the sample stands for the returned frame.
    ensures stands { IfOk result (λ f. Told (S.left source.old) (λ sample. FrameStands sample f)) }
    // If they are visible, a reported fault is the sample's first.
    ensures fault { IfErr result (λ e. Told (S.left source.old) (λ sample. IfSome (told_fault e) (λ fault. frame_fault sample ≡ Some fault))) }
    // What is returned is a coded frame.
    ensures coded { IfOk result IsCodedFrame }
    ensures told { IsSome (S.left source.old) → OnOk result (IsSome (S.left source.new)) }
    ensures most { Lowers (S.most source.old) (S.most source.new) 0 }
    ensures becomes { GoesOn S.becomes source.old source.new }
    // The error is `Failed` only if a call of the source failed, and each such call is reported.
    ensures cause { CountsFault (S.faults source.old) (S.faults source.new) (is_failed result) }
{
    let mut place = 0;
    frame_from(alloc, source, &mut place, size)
}
