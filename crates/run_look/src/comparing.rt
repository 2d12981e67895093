//! Comparing a frame's sample and its picture with the frame's record.

ghost use Rattle.std.specs.Prelude.{◌≡◌, ◌↔◌, ◌++◌, ◌*◌, ◌/◌, ◌<◌, ◌≤◌, ℕ, List, length, map, take, drop, ◌+◌, IfOk, IfSome, IfNone, IsTrue, OnOk};
ghost use Rattle.std.specs.List.{All};
ghost use Rattle.pic_raw.specs.Raw.{IsPicture};
ghost use Rattle.pr_frame.specs.declared.coded.CodedPicture.{CodedPicture};
ghost use Rattle.pr_geom.specs.Layout.{IsLayoutOf};
ghost use Rattle.rate_table.specs.declared.table.TheConstants.{MAX_TABLE_SLICES};
ghost use Rattle.rate_table.specs.Table.{IsSliceTable};
ghost use Rattle.rate_build.specs.Tables.{fixed_bytes, entries_of};
ghost use Rattle.rate_cert.specs.Settings.{IsSettings, frame_slices};
ghost use Rattle.rate_cert.specs.Records.{IsGood};
ghost use Rattle.run_look.specs.Checking.{frames_in};
ghost use Rattle.run_look.specs.Agreeing.{weights_of, header_of, indices_of, indices_in, slices_in, HasPart, HasSize, IsAsSaid, IsPictureOf, pictures_head};

use crate::checking::frames_of;
use crate::coded::{is_coded, same_header};
use pr_frame::{CodedFrame, CodedPicture};
use pr_geom::Layout;
use pr_head::{FrameHeader, own_header};
use pr_quant::Weights;
use pw_outside::NoMemory;
use pw_planes::Picture;
use rate_build::{Coefficients, build_table, coefficients_of, fixed_size};
use rate_cert::{FrameProof, Settings, Verdict};
use rate_table::{Entry, SliceTable, indices_tell_choice, part_total};
use std::alloc::{AllocError, Global};

/// The weights of frames with these settings.
fn weights_for(settings: &Settings) -> Weights
    ensures { result ≡ weights_of settings.now }
{
    Weights {
        luma: settings.luma,
        chroma: settings.chroma_weights,
    }
}

/// The header of frames with these settings.
fn header_for(settings: &Settings) -> FrameHeader
    ensures { result ≡ header_of settings.now }
{
    own_header(
        settings.width,
        settings.height,
        settings.chroma,
        settings.interlace,
        settings.alpha,
        &weights_for(settings),
    )
}

/// `count` slices from index `from` on.
fn cut_slices(slices: &[SliceTable], from: usize, count: usize) -> &[SliceTable]
    requires { from + count ≤ length slices.now }
    ensures { result.now ≡ take count (drop from slices.now) }
{
    &slices[from..from + count]
}

/// `count` quantisation indices from index `from` on.
fn cut_choice(choice: &[u8], from: usize, count: usize) -> &[u8]
    requires { from + count ≤ length choice.now }
    ensures { result.now ≡ take count (drop from choice.now) }
{
    &choice[from..from + count]
}

/// The slices of frame k of a good record.
fn slices_for<'a>(settings: &Settings, group: &'a FrameProof, k: u32) -> &'a [SliceTable]
    requires settings { IsSettings settings.now }
    requires good { IsGood settings.now group.now }
    requires there { k < frames_in settings.now group.now }
    ensures value { result.now ≡ slices_in settings.now group.now k }
    ensures number { length result.now ≡ frame_slices settings.now }
    ensures each { All IsSliceTable result.now }
{
    let count = settings.frame_slices() as usize;
    cut_slices(group.table.slices.as_slice(), count * k as usize, count)
}

/// The part of the choice of frame k of a good record; none if no choice fits.
fn part_for<'a>(settings: &Settings, group: &'a FrameProof, k: u32) -> Option<&'a [u8]>
    requires settings { IsSettings settings.now }
    requires good { IsGood settings.now group.now }
    requires there { k < frames_in settings.now group.now }
    ensures some { IfSome result (λ part. HasPart settings.now group.now.said k part.now) }
    ensures number { IfSome result (λ part. length part.now ≡ frame_slices settings.now) }
    ensures none { IfNone result ((part : List ℕ) → HasPart settings.now group.now.said k part → ⊥) }
{
    let Verdict::Fits { choice, .. } = &group.verdict else {
        return None;
    };
    let count = settings.frame_slices() as usize;
    Some(cut_choice(choice, count * k as usize, count))
}

// ---- the sample

/// Whether each picture is cut into slices of width 2 ^ `log2`.
fn have_slicing(pictures: &[CodedPicture], log2: u8) -> bool
    ensures { IsTrue result ↔ All (λ (x : CodedPicture). x.log2 ≡ log2) pictures.now }
{
    for picture in pictures {
        if picture.log2 != log2 {
            return false;
        }
    }
    true
}

/// Appends the indices of a picture's slices.
fn put_indices(picture: &CodedPicture, found: &mut Vec<u8>) -> Result<(), AllocError>
    ensures { OnOk result (found.new.items ≡ found.old.items ++ indices_of picture.now) }
{
    for slice in picture.slices.as_slice() {
        found.push(slice.index)?;
    }
    Ok(())
}

/// The indices of a frame's slices, those of its first picture first.
fn indices_for(alloc: Global, frame: &CodedFrame) -> Result<Vec<u8>, AllocError>
    ensures { IfOk result (λ found. found.items ≡ indices_in frame.now) }
{
    let mut found = Vec::new(alloc);
    for picture in frame.pictures.as_slice() {
        put_indices(picture, &mut found)?;
    }
    Ok(found)
}

/// Whether a part of a choice has entries, and their sizes with a frame's share of the fixed bytes sum to `size`.
fn has_size(slices: &[SliceTable], part: &[u8], share: u32, size: u32) -> bool
    requires some { 1 ≤ length slices.now }
    requires few { length slices.now ≤ MAX_TABLE_SLICES }
    requires each { All IsSliceTable slices.now }
    ensures { IsTrue result ↔ HasSize slices.now part.now share size }
{
    indices_tell_choice();
    match part_total(slices, part) {
        Some((bytes, _)) => u64::from(size) == u64::from(share) + bytes,
        None => false,
    }
}

/// A frame's share of the fixed bytes of a good record.
fn share_of(settings: &Settings, group: &FrameProof) -> u32
    requires settings { IsSettings settings.now }
    requires good { IsGood settings.now group.now }
    requires some { 0 < frames_in settings.now group.now }
    ensures { result ≡ group.now.table.fixed / frames_in settings.now group.now }
{
    group.table.fixed / frames_of(settings, group)
}

/// Whether two lists of indices are equal.
fn same_indices(some: &[u8], others: &[u8]) -> bool
    ensures { IsTrue result ↔ (some.now ≡ others.now) }
{
    some == others
}

/// Whether the coded frame of a sample of `size` bytes is frame k of the settings and a good record.
///
/// The error says that memory ran out.
pub(crate) fn is_as_said(
    alloc: Global,
    settings: &Settings,
    group: &FrameProof,
    k: u32,
    size: u32,
    frame: &CodedFrame,
) -> Result<bool, AllocError>
    requires settings { IsSettings settings.now }
    requires good { IsGood settings.now group.now }
    requires there { k < frames_in settings.now group.now }
    ensures { IfOk result (λ b. IsTrue b ↔ IsAsSaid settings.now group.now k size frame.now) }
{
    let Some(part) = part_for(settings, group, k) else {
        return Ok(false);
    };
    if !same_header(&frame.header, &header_for(settings)) {
        return Ok(false);
    }
    if !have_slicing(frame.pictures.as_slice(), settings.log2) {
        return Ok(false);
    }
    let indices = indices_for(alloc, frame)?;
    if !same_indices(indices.as_slice(), part) {
        return Ok(false);
    }
    let share = share_of(settings, group);
    Ok(has_size(slices_for(settings, group, k), part, share, size))
}

// ---- the picture

/// Whether two entries are equal.
fn same_entry(some: &Entry, other: &Entry) -> bool
    ensures { IsTrue result ↔ (some.now ≡ other.now) }
{
    some.index == other.index && some.size == other.size && some.error == other.error
}

/// Whether two slices have equal entries.
fn same_entries(some: &[Entry], others: &[Entry]) -> bool
    ensures { IsTrue result ↔ (some.now ≡ others.now) }
{
    if some.len() != others.len() {
        return false;
    }
    for i in 0..some.len() {
        if !same_entry(&some[i], &others[i]) {
            return false;
        }
    }
    true
}

/// Whether two lists of slices have equal entries.
fn same_slices(some: &[SliceTable], others: &[SliceTable]) -> bool
    ensures { IsTrue result ↔ (some.now ≡ others.now) }
{
    if some.len() != others.len() {
        return false;
    }
    for i in 0..some.len() {
        if !same_entries(some[i].entries(), others[i].entries()) {
            return false;
        }
    }
    true
}

/// Whether the record's table of frame k is what these coefficients cost.
fn has_table(
    alloc: Global,
    settings: &Settings,
    group: &FrameProof,
    k: u32,
    coefficients: &Coefficients,
) -> Result<bool, NoMemory>
    requires settings { IsSettings settings.now }
    requires good { IsGood settings.now group.now }
    requires there { k < frames_in settings.now group.now }
    ensures { IfOk result (λ b. IsTrue b ↔ ((group.now.table.fixed ≡ frames_in settings.now group.now * fixed_bytes coefficients.now.layout)
        × (slices_in settings.now group.now k ≡ map (entries_of coefficients.now.layout.interlace coefficients.now.alpha (weights_of settings.now) settings.now.lo settings.now.hi) coefficients.now.slices))) }
{
    let fixed = u64::from(frames_of(settings, group)) * u64::from(fixed_size(&coefficients.layout));
    if u64::from(group.table.fixed) != fixed {
        return Ok(false);
    }
    let table = build_table(
        alloc,
        coefficients,
        &weights_for(settings),
        settings.lo,
        settings.hi,
        settings.budget,
    )?;
    Ok(same_slices(slices_for(settings, group, k), table.slices.as_slice()))
}

/// Whether this picture is frame k of a good record and of a coded frame, which is the frame of the settings and
/// the record.
///
/// The error says that memory ran out.
pub(crate) fn is_picture_of(
    alloc: Global,
    settings: &Settings,
    layout: &Layout,
    group: &FrameProof,
    k: u32,
    frame: &CodedFrame,
    picture: &Picture,
) -> Result<bool, NoMemory>
    requires settings { IsSettings settings.now }
    requires layout { IsLayoutOf layout.now settings.now.width settings.now.height settings.now.log2 settings.now.interlace settings.now.chroma }
    requires good { IsGood settings.now group.now }
    requires there { k < frames_in settings.now group.now }
    requires picture { IsPicture (pictures_head settings.now) picture.now }
    ensures { IfOk result (λ b. IsTrue b ↔ IsPictureOf layout.now settings.now group.now k frame.now picture.now) }
{
    let Some(part) = part_for(settings, group, k) else {
        return Ok(false);
    };
    let coefficients = coefficients_of(alloc, picture, layout, settings.alpha)?;
    if !has_table(alloc, settings, group, k, &coefficients)? {
        return Ok(false);
    }
    Ok(is_coded(frame, &coefficients, &header_for(settings), part))
}
