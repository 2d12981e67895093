//! From the samples of a picture to its coefficients.

ghost use Rattle.std.specs.Prelude.{◌≡◌, ◌++◌, ◌%◌, IfOk, IfSome, OnOk, Some};
ghost use Rattle.pr_dct.specs.Transform.{AreWithin};
ghost use Rattle.pr_geom.specs.Layout.{IsSlice};
ghost use Rattle.rate_build.specs.Measures.{IsCoefficientBlock, ArePart};
ghost use Rattle.rate_build.specs.Coefficients.{coefficients_at, part_coefficients, alpha_values, field_of_alpha, planes_of, field_planes, slice_coefficients, picture_coefficients, frame_coefficients, AreOfLayout, HasDepth, IsPictureOf};
ghost use Rattle.rate_build.specs.Laws.{HasAlpha};

use crate::slices::{CoefficientSlices, Coefficients, SliceCoefficients};
use pr_coeff::Block;
use pr_dct::forward;
use pr_frame::{AlphaValues, Blocks};
use pr_geom::{Layout, Part, SlicePlace};
use pw_outside::NoMemory;
use pw_planes::{AlphaKind, Depth, Interlace, Parity, Picture, Plane};
use std::alloc::{AllocError, Global};

/// The coefficients of a block, narrowed.
fn narrowed(block: &[i32; 64]) -> Block
    requires { AreWithin 16383 block.now }
    ensures { result ≡ block.now }
{
    let mut narrow = [0; 64];
    for place in 0..64 {
        narrow[place] = block[place] as i16;
    }
    narrow
}

/// The coefficients of the block of a plane with its corner at a position.
fn block_of(plane: &Plane, depth: Depth, corner: (u32, u32)) -> Block
    requires { HasDepth plane.now depth }
    ensures value { result ≡ coefficients_at plane.now depth corner }
    ensures block { IsCoefficientBlock result }
{
    let samples = plane.block(corner.0, corner.1, depth);
    narrowed(&forward(&samples))
}

/// The coefficients of the blocks of a part of a slice in its plane.
fn part_of(
    alloc: Global,
    plane: &Plane,
    depth: Depth,
    layout: &Layout,
    slice: &SlicePlace,
    part: Part,
) -> Result<Vec<Block>, AllocError>
    requires samples { HasDepth plane.now depth }
    requires slice { IsSlice layout.now slice.now }
    ensures value { IfOk result (λ v. v.items ≡ part_coefficients plane.now depth layout.now.chroma part slice.now) }
    ensures part { IfOk result (λ v. ArePart v.items) }
{
    let count = layout.blocks(slice, part);
    let mut blocks = Vec::with_capacity(alloc, usize::from(count))?;
    for k in 0..count {
        let corner = layout.block_place(slice, part, k);
        blocks.push(block_of(plane, depth, corner))?;
    }
    Ok(blocks)
}

/// The samples of a slice in an alpha plane: its 16 rows from the left.
fn values_of(alloc: Global, plane: &Plane, slice: &SlicePlace) -> Result<Vec<u16>, AllocError>
    ensures { IfOk result (λ v. v.items ≡ alpha_values (Some plane.now) slice.now) }
{
    let width = 16 * u32::from(slice.width);
    let column = 16 * u32::from(slice.column);
    let row = 16 * u32::from(slice.row);
    let mut values = Vec::with_capacity(alloc, 16 * width as usize)?;
    for k in 0..16 * width {
        values.push(plane.sample(column + k % width, row + k / width))?;
    }
    Ok(values)
}

/// The alpha values of a slice; none if there is no alpha plane.
fn alpha_of(
    alloc: Global,
    plane: &Option<Plane>,
    slice: &SlicePlace,
) -> Result<Vec<u16>, AllocError>
    ensures { IfOk result (λ v. v.items ≡ alpha_values plane.now slice.now) }
{
    match plane {
        Some(plane) => values_of(alloc, plane, slice),
        None => Ok(Vec::new(alloc)),
    }
}

/// The coefficients of a slice of a coded picture, and its alpha values.
fn slice_of(
    alloc: Global,
    picture: &Picture,
    layout: &Layout,
    slice: &SlicePlace,
) -> Result<SliceCoefficients, AllocError>
    requires luma { HasDepth picture.now.y picture.now.depth }
    requires chroma { HasDepth picture.now.cb picture.now.depth × HasDepth picture.now.cr picture.now.depth }
    requires slice { IsSlice layout.now slice.now }
    ensures { IfOk result (λ s. s ≡ slice_coefficients (planes_of picture.now) picture.now.depth layout.now.chroma slice.now) }
{
    let y = part_of(alloc, &picture.y, picture.depth, layout, slice, Part::Y)?;
    let cb = part_of(alloc, &picture.cb, picture.depth, layout, slice, Part::Cb)?;
    let cr = part_of(alloc, &picture.cr, picture.depth, layout, slice, Part::Cr)?;
    let alpha = alpha_of(alloc, &picture.alpha, slice)?;
    Ok(SliceCoefficients {
        y: Blocks::from_vec(y),
        cb: Blocks::from_vec(cb),
        cr: Blocks::from_vec(cr),
        alpha: AlphaValues::from_vec(alpha),
    })
}

/// Appends the coefficients of all slices of a coded picture.
fn add_slices(
    alloc: Global,
    picture: &Picture,
    layout: &Layout,
    slices: &mut Vec<SliceCoefficients>,
) -> Result<(), AllocError>
    requires luma { HasDepth picture.now.y picture.now.depth }
    requires chroma { HasDepth picture.now.cb picture.now.depth × HasDepth picture.now.cr picture.now.depth }
    ensures { OnOk result (slices.new.items ≡ slices.old.items ++ picture_coefficients layout.now picture.now.depth (planes_of picture.now)) }
{
    let count = layout.slices();
    slices.reserve(count as usize)?;
    for number in 0..count {
        let slice = layout.slice(number);
        slices.push(slice_of(alloc, picture, layout, &slice)?)?;
    }
    Ok(())
}

/// The same, with an error that says that memory ran out.
fn add_picture(
    alloc: Global,
    picture: &Picture,
    layout: &Layout,
    slices: &mut Vec<SliceCoefficients>,
) -> Result<(), NoMemory>
    requires luma { HasDepth picture.now.y picture.now.depth }
    requires chroma { HasDepth picture.now.cb picture.now.depth × HasDepth picture.now.cr picture.now.depth }
    ensures { OnOk result (slices.new.items ≡ slices.old.items ++ picture_coefficients layout.now picture.now.depth (planes_of picture.now)) }
{
    match add_slices(alloc, picture, layout, slices) {
        Ok(()) => Ok(()),
        Err(_) => Err(NoMemory),
    }
}

/// A field of an alpha plane, if there is one.
fn alpha_field(
    alloc: Global,
    plane: &Option<Plane>,
    parity: Parity,
) -> Result<Option<Plane>, NoMemory>
    requires { IfSome plane.now (λ a. a.height % 2 ≡ 0) }
    ensures { IfOk result (λ f. f ≡ field_of_alpha plane.now parity) }
{
    match plane {
        Some(plane) => Ok(Some(plane.field(alloc, parity)?)),
        None => Ok(None),
    }
}

/// A field of a picture, as a picture of half the height.
fn field_of(alloc: Global, picture: &Picture, parity: Parity) -> Result<Picture, NoMemory>
    requires luma { picture.now.y.height % 2 ≡ 0 }
    requires chroma { (picture.now.cb.height % 2 ≡ 0) × (picture.now.cr.height % 2 ≡ 0) }
    requires alpha { IfSome picture.now.alpha (λ a. a.height % 2 ≡ 0) }
    ensures planes { IfOk result (λ f. planes_of f ≡ field_planes (planes_of picture.now) parity) }
    ensures depth { IfOk result (λ f. f.depth ≡ picture.now.depth) }
{
    Ok(Picture {
        y: picture.y.field(alloc, parity)?,
        cb: picture.cb.field(alloc, parity)?,
        cr: picture.cr.field(alloc, parity)?,
        alpha: alpha_field(alloc, &picture.alpha, parity)?,
        chroma: picture.chroma,
        depth: picture.depth,
    })
}

/// Appends the coefficients of all slices of a field.
fn add_field(
    alloc: Global,
    picture: &Picture,
    parity: Parity,
    layout: &Layout,
    slices: &mut Vec<SliceCoefficients>,
) -> Result<(), NoMemory>
    requires picture { IsPictureOf layout.now picture.now }
    requires even { layout.now.height % 2 ≡ 0 }
    ensures { OnOk result (slices.new.items ≡ slices.old.items ++ picture_coefficients layout.now picture.now.depth (field_planes (planes_of picture.now) parity)) }
{
    let field = field_of(alloc, picture, parity)?;
    add_picture(alloc, &field, layout, slices)
}

/// The coefficients of all slices of a progressive picture.
fn whole_picture(
    alloc: Global,
    picture: &Picture,
    layout: &Layout,
) -> Result<Vec<SliceCoefficients>, NoMemory>
    requires picture { IsPictureOf layout.now picture.now }
    ensures { IfOk result (λ v. v.items ≡ picture_coefficients layout.now picture.now.depth (planes_of picture.now)) }
{
    let mut slices = Vec::new(alloc);
    add_picture(alloc, picture, layout, &mut slices)?;
    Ok(slices)
}

/// The coefficients of all slices of the two fields of a picture, the earlier field first.
fn both_fields(
    alloc: Global,
    picture: &Picture,
    layout: &Layout,
    first: Parity,
    second: Parity,
) -> Result<Vec<SliceCoefficients>, NoMemory>
    requires picture { IsPictureOf layout.now picture.now }
    requires even { layout.now.height % 2 ≡ 0 }
    ensures { IfOk result (λ v. v.items ≡ picture_coefficients layout.now picture.now.depth (field_planes (planes_of picture.now) first) ++ picture_coefficients layout.now picture.now.depth (field_planes (planes_of picture.now) second)) }
{
    let mut slices = Vec::new(alloc);
    add_field(alloc, picture, first, layout, &mut slices)?;
    add_field(alloc, picture, second, layout, &mut slices)?;
    Ok(slices)
}

/// The coefficients of all slices of the coded pictures of a picture, the earlier one first.
fn all_slices_of(
    alloc: Global,
    picture: &Picture,
    layout: &Layout,
) -> Result<Vec<SliceCoefficients>, NoMemory>
    requires picture { IsPictureOf layout.now picture.now }
    ensures { IfOk result (λ v. v.items ≡ frame_coefficients picture.now layout.now) }
{
    match layout.interlace {
        Interlace::Progressive => whole_picture(alloc, picture, layout),
        Interlace::TopFirst => both_fields(alloc, picture, layout, Parity::Top, Parity::Bottom),
        Interlace::BottomFirst => both_fields(alloc, picture, layout, Parity::Bottom, Parity::Top),
    }
}

fn whole_of(layout: &Layout, alpha: AlphaKind, slices: Vec<SliceCoefficients>) -> Coefficients
    requires { AreOfLayout (record { layout = layout.now; alpha = alpha; slices = slices.items }) }
    ensures layout { result.layout ≡ layout.now }
    ensures alpha { result.alpha ≡ alpha }
    ensures slices { result.slices ≡ slices.items }
{
    Coefficients {
        layout: *layout,
        alpha,
        slices: CoefficientSlices::from_vec(slices),
    }
}

/// The coefficients of a picture, which has the layout's size and chroma format and samples of its depth: those of
/// its coded pictures, the earlier field first if it is interlaced. The picture has an alpha plane if the kind of
/// alpha is one of 8 or 16 bits, with values of this many bits, and none if there is no alpha.
///
/// The error is that memory ran out.
pub fn coefficients_of(
    alloc: Global,
    picture: &Picture,
    layout: &Layout,
    alpha: AlphaKind,
) -> Result<Coefficients, NoMemory>
    requires picture { IsPictureOf layout.now picture.now }
    requires alpha { HasAlpha alpha picture.now.alpha }
    ensures layout { IfOk result (λ c. c.layout ≡ layout.now) }
    ensures alpha { IfOk result (λ c. c.alpha ≡ alpha) }
    ensures slices { IfOk result (λ c. c.slices ≡ frame_coefficients picture.now layout.now) }
{
    let slices = all_slices_of(alloc, picture, layout)?;
    Ok(whole_of(layout, alpha, slices))
}
