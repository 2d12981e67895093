//! The header of a picture, and the table of its slices' sizes.

ghost use Rattle.std.specs.Prelude.{◌≡◌, ◌+◌, ◌*◌, ◌/◌, ◌%◌, ◌<◌, ◌≤◌, ◌^◌, length, sum, IfOk, OnOk, false};
ghost use Rattle.pw_outside.specs.Ports.{CountsFault, Lowers, GoesOn};
ghost use Rattle.pw_outside.specs.Reading.{Answers, Gives, GivesValue, Told};
ghost use Rattle.pr_geom.specs.Slices.{pictures_of};
ghost use Rattle.pr_geom.specs.Layout.{IsLayoutOf};
ghost use Rattle.pr_head.specs.Faults.{told_fault, is_failed, is_out_of_memory};
ghost use Rattle.pr_head.specs.Picture.{picture_of, picture_fault, picture_at, table_at, picture_size, IsPicture};
ghost use Rattle.pr_head.specs.Header.{HasLayoutSize};
ghost use Rattle.pr_head.specs.inner.Steps.{size_in, sizes_in, picture_in, table_in};

use crate::fault::{FrameFault, FrameKind, bad};
use crate::frame::FrameHeader;
use crate::pieces::{pass, u16_at, u32_at, whole};
use pr_geom::Layout;
use pw_outside::ByteSource;
use std::alloc::Global;

/// The header of a picture (SMPTE RDD 36, picture header).
#[derive(Clone, Copy, Debug, PartialEq, Eq)]
pub struct PictureHeader {
    /// The size of the header in bytes, from 8 to 31.
    pub header: u8,
    /// The size of the picture in bytes, with header, table and slices.
    pub size: u32,
    /// The binary logarithm of the desired width of a slice in macroblocks, from 0 to 3.
    pub log2: u8,
}

impl PictureHeader {
    fn of(bytes: &[u8; 8]) -> PictureHeader
        ensures value { result ≡ picture_of bytes.now }
        ensures header { result.header ≤ 31 }
        ensures log2 { result.log2 ≤ 3 }
    {
        PictureHeader {
            header: bytes[0] / 8,
            size: u32_at(bytes, 1),
            log2: bytes[7] / 16 % 4,
        }
    }
}

/// The layout of a picture, or the picture's first fault.
#[tactic(auto, unfolding(crate::specs::Picture::picture_fault, pw_outside::specs::Reading::bind))]
fn layout_of(
    picture: &PictureHeader,
    at: u32,
    frame: u32,
    header: &FrameHeader,
) -> Result<Layout, FrameFault>
    requires log2 { picture.now.log2 ≤ 3 }
    requires frame { HasLayoutSize header.now }
    ensures fault { Answers told_fault (λ _. tt) result (picture_fault frame header.now at picture.now) }
    ensures layout { IfOk result (λ layout. IsLayoutOf layout header.now.width header.now.height picture.now.log2 header.now.interlace header.now.chroma) }
    ensures least { OnOk result (8 ≤ picture.now.header) }
    ensures whole { OnOk result (picture.now.header ≤ picture.now.size) }
    ensures within { OnOk result (at + picture.now.size ≤ frame) }
    ensures cause { is_failed result ≡ false }
    ensures memory { is_out_of_memory result ≡ false }
{
    let place = u64::from(at);
    if picture.header < 8
        || picture.size < u32::from(picture.header)
        || u64::from(frame) < place + u64::from(picture.size)
    {
        return Err(bad(FrameKind::PictureHeader, place));
    }
    match Layout::new(
        header.width,
        header.height,
        picture.log2,
        header.interlace,
        header.chroma,
    ) {
        Ok(layout) => Ok(layout),
        Err(_) => Err(bad(FrameKind::TooManySlices, place)),
    }
}

#[tactic(auto, using(crate::proofs::Bounds::lowers_same, crate::proofs::Bounds::lowers_then), unfolding(crate::specs::inner::Steps::picture_in, pw_outside::specs::Reading::bind))]
fn picture_from<S: ByteSource>(
    source: &mut S,
    place: &mut u64,
    at: u32,
    frame: u32,
    header: &FrameHeader,
) -> Result<(PictureHeader, Layout), FrameFault>
    requires place { place.old ≡ at }
    requires header { HasLayoutSize header.now }
    ensures bytes { Gives told_fault (λ t. t.0) (S.left source.old) (S.left source.new) place.old place.new result (picture_in frame header.now) }
    ensures layout { IfOk result (λ t. IsLayoutOf t.1 header.now.width header.now.height t.0.log2 header.now.interlace header.now.chroma) }
    ensures picture { IfOk result (λ t. IsPicture t.0) }
    ensures within { IfOk result (λ t. at + t.0.size ≤ frame) }
    ensures most { Lowers (S.most source.old) (S.most source.new) 0 }
    ensures becomes { GoesOn S.becomes source.old source.new }
    ensures cause { CountsFault (S.faults source.old) (S.faults source.new) (is_failed result) }
    ensures memory { is_out_of_memory result ≡ false }
{
    let here = *place;
    if u64::from(frame) < here + 8 {
        return Err(bad(FrameKind::PictureHeader, here));
    }
    let mut bytes = [0u8; 8];
    whole(source, place, &mut bytes, FrameKind::PictureHeader, here)?;
    let picture = PictureHeader::of(&bytes);
    let layout = layout_of(&picture, at, frame, header)?;
    let spare = u16::from(picture.header) - 8;
    pass(source, place, spare, FrameKind::PictureHeader, here)?;
    Ok((picture, layout))
}

/// Reads the header of the picture at the offset `at` of a frame of `frame` bytes, with the bytes after its known
/// fields. Returns the header and the layout of the picture.
///
/// The errors are `Bad` with the first fault of the bytes, and `Failed` if a call of the source failed. For a
/// source whose bytes are opaque and which ends too early, the error is `Bad` with `PictureHeader`.
pub fn read_picture_header<S: ByteSource>(
    source: &mut S,
    at: u32,
    frame: u32,
    header: &FrameHeader,
) -> Result<(PictureHeader, Layout), FrameFault>
    // The frame's size has none of the faults.
    requires header { HasLayoutSize header.now }
    // If the source's bytes are visible and reach to the end of the frame, the result is what they stand for, or
    // their first fault.
    ensures bytes { Told (S.left source.old) (λ bytes. frame ≤ at + length bytes) → GivesValue told_fault (λ t. t.0) (S.left source.old) (S.left source.new) at result (picture_at frame header.now) }
    ensures layout { IfOk result (λ t. IsLayoutOf t.1 header.now.width header.now.height t.0.log2 header.now.interlace header.now.chroma) }
    // What is returned has none of the faults.
    ensures picture { IfOk result (λ t. IsPicture t.0) }
    ensures within { IfOk result (λ t. at + t.0.size ≤ frame) }
    ensures most { Lowers (S.most source.old) (S.most source.new) 0 }
    ensures becomes { GoesOn S.becomes source.old source.new }
    // The error is `Failed` only if a call of the source failed, and each such call is reported.
    ensures cause { CountsFault (S.faults source.old) (S.faults source.new) (is_failed result) }
    // No memory is taken.
    ensures memory { is_out_of_memory result ≡ false }
{
    let mut place = u64::from(at);
    picture_from(source, &mut place, at, frame, header)
}

/// The next size.
#[tactic(auto, unfolding(crate::specs::inner::Steps::size_in, pw_outside::specs::Reading::bind))]
fn size_of<S: ByteSource>(source: &mut S, place: &mut u64, at: u64) -> Result<u16, FrameFault>
    requires { place.old + 2 < 2 ^ 64 }
    ensures bytes { Gives told_fault (λ x. x) (S.left source.old) (S.left source.new) place.old place.new result (size_in at) }
    ensures place { place.new ≤ place.old + 2 }
    ensures most { Lowers (S.most source.old) (S.most source.new) 0 }
    ensures becomes { GoesOn S.becomes source.old source.new }
    ensures cause { CountsFault (S.faults source.old) (S.faults source.new) (is_failed result) }
    ensures memory { is_out_of_memory result ≡ false }
{
    let mut bytes = [0u8; 2];
    whole(source, place, &mut bytes, FrameKind::SliceTable, at)?;
    Ok(u16_at(&bytes, 0))
}

#[tactic(auto, using(pw_outside::proofs::Chains::with_front_nil, crate::proofs::Bounds::lowers_then, crate::proofs::Bounds::lowers_same))]
fn sizes_of<S: ByteSource>(
    alloc: Global,
    source: &mut S,
    place: &mut u64,
    at: u64,
    slices: u32,
) -> Result<Vec<u16>, FrameFault>
    requires { place.old < 2 ^ 63 }
    ensures bytes { Gives told_fault (λ v. v.items) (S.left source.old) (S.left source.new) place.old place.new result (sizes_in at slices) }
    ensures count { IfOk result (λ v. length v.items ≡ slices) }
    ensures most { Lowers (S.most source.old) (S.most source.new) 0 }
    ensures becomes { GoesOn S.becomes source.old source.new }
    ensures cause { CountsFault (S.faults source.old) (S.faults source.new) (is_failed result) }
{
    let mut sizes = Vec::new(alloc);
    for _ in 0..slices {
        let size = size_of(source, place, at)?;
        sizes.push(size)?;
    }
    Ok(sizes)
}

/// The sum of the sizes.
fn total(sizes: &[u16]) -> u64
    requires { length sizes.now < 2 ^ 32 }
    ensures value { result ≡ sum sizes.now }
    ensures small { result < 2 ^ 48 }
{
    let mut total = 0;
    for size in sizes {
        total += u64::from(*size);
    }
    total
}

#[tactic(auto, using(crate::proofs::Bounds::lowers_same), unfolding(crate::specs::inner::Steps::table_in, pw_outside::specs::Reading::bind))]
fn table_of<S: ByteSource>(
    alloc: Global,
    source: &mut S,
    place: &mut u64,
    picture: &PictureHeader,
    slices: u32,
) -> Result<Vec<u16>, FrameFault>
    requires { place.old < 2 ^ 33 }
    ensures bytes { Gives told_fault (λ v. v.items) (S.left source.old) (S.left source.new) place.old place.new result (table_in picture.now slices) }
    ensures count { IfOk result (λ v. length v.items ≡ slices) }
    ensures within { IfOk result (λ v. picture_size picture.now v.items ≤ picture.now.size) }
    ensures most { Lowers (S.most source.old) (S.most source.new) 0 }
    ensures becomes { GoesOn S.becomes source.old source.new }
    ensures cause { CountsFault (S.faults source.old) (S.faults source.new) (is_failed result) }
{
    let at = *place;
    let before = u64::from(picture.header) + 2 * u64::from(slices);
    if u64::from(picture.size) < before {
        return Err(bad(FrameKind::SliceTable, at));
    }
    let sizes = sizes_of(alloc, source, place, at, slices)?;
    if u64::from(picture.size) < before + total(&sizes) {
        return Err(bad(FrameKind::SliceTable, at));
    }
    Ok(sizes)
}

/// Reads the table of the sizes of all slices of the picture at the offset `at` of its frame. The source is after
/// the picture's header.
///
/// The errors are `Bad` with `SliceTable` at the offset after the header, `Failed` if a call of the source failed,
/// and `NoMemory`. For a source whose bytes are opaque and which ends too early, the error is `Bad` with the same
/// fault.
pub fn read_slice_sizes<S: ByteSource>(
    alloc: Global,
    source: &mut S,
    at: u32,
    picture: &PictureHeader,
    slices: u32,
) -> Result<Vec<u16>, FrameFault>
    // If the source's bytes are visible and include the picture's after the header, the result is the table, or its
    // fault.
    ensures bytes { Told (S.left source.old) (λ bytes. picture.now.size ≤ picture.now.header + length bytes) → GivesValue told_fault (λ v. v.items) (S.left source.old) (S.left source.new) (at + picture.now.header) result (table_at picture.now slices) }
    // What is returned has none of the faults.
    ensures count { IfOk result (λ v. length v.items ≡ slices) }
    ensures within { IfOk result (λ v. picture_size picture.now v.items ≤ picture.now.size) }
    ensures most { Lowers (S.most source.old) (S.most source.new) 0 }
    ensures becomes { GoesOn S.becomes source.old source.new }
    // The error is `Failed` only if a call of the source failed, and each such call is reported.
    ensures cause { CountsFault (S.faults source.old) (S.faults source.new) (is_failed result) }
{
    let mut place = u64::from(at) + u64::from(picture.header);
    table_of(alloc, source, &mut place, picture, slices)
}
