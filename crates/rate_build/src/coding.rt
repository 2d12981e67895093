//! From coefficients to a coded frame.

ghost use Rattle.std.specs.Prelude.{◌≡◌, ◌+◌, ◌*◌, ◌≤◌, length, IfOk};
ghost use Rattle.std.specs.List.{All};
ghost use Rattle.pr_geom.specs.Layout.{slices_of};
ghost use Rattle.pr_quant.specs.Matrices.{IsWeight};
ghost use Rattle.pr_frame.specs.Coded.{IsWritableBlock, IsWritableSlice, IsWritablePicture, IsWritableHeader, IsWritable};
ghost use Rattle.rate_build.specs.Measures.{quantised_part, ArePart};
ghost use Rattle.rate_build.specs.Coding.{coded_slice, coded_slices, coded_picture, coded_frame, weights_in, IsHeaderOf, IsIndex};
ghost use Rattle.rate_build.specs.Tables.{HasParts, AreWeights};

use crate::costs::quantise_block;
use crate::slices::{Coefficients, SliceCoefficients};
use pr_coeff::Block;
use pr_frame::{
    AlphaValues, Blocks, CodedFrame, CodedPicture, CodedPictures, CodedSlice, CodedSlices,
};
use pr_head::FrameHeader;
use pr_quant::multipliers_of;
use pw_outside::NoMemory;
use std::alloc::{AllocError, Global};

/// The blocks of a part, quantised at an index.
fn part_at(
    alloc: Global,
    blocks: &[Block],
    weights: &[u8; 64],
    index: u8,
) -> Result<Vec<Block>, AllocError>
    requires part { ArePart blocks.now }
    requires weights { All IsWeight weights.now }
    requires index { IsIndex index }
    ensures value { IfOk result (λ v. v.items ≡ quantised_part weights.now index blocks.now) }
    ensures small { IfOk result (λ v. All IsWritableBlock v.items) }
{
    let multipliers = multipliers_of(weights, index);
    let mut quantised = Vec::with_capacity(alloc, blocks.len())?;
    for block in blocks {
        let mut values = [0; 64];
        let _ = quantise_block(block, &multipliers, &mut values);
        quantised.push(values)?;
    }
    Ok(quantised)
}

/// A slice quantised at an index.
fn slice_at(
    alloc: Global,
    slice: &SliceCoefficients,
    header: &FrameHeader,
    index: u8,
) -> Result<CodedSlice, AllocError>
    requires parts { HasParts slice.now }
    requires header { IsWritableHeader header.now }
    requires index { IsIndex index }
    ensures value { IfOk result (λ s. s ≡ coded_slice (weights_in header.now) index slice.now) }
    ensures small { IfOk result IsWritableSlice }
{
    let y = part_at(alloc, slice.y.as_slice(), &header.luma, index)?;
    let cb = part_at(alloc, slice.cb.as_slice(), &header.chroma_weights, index)?;
    let cr = part_at(alloc, slice.cr.as_slice(), &header.chroma_weights, index)?;
    let alpha = Vec::from_slice(alloc, slice.alpha.as_slice())?;
    Ok(CodedSlice {
        index,
        y: Blocks::from_vec(y),
        cb: Blocks::from_vec(cb),
        cr: Blocks::from_vec(cr),
        alpha: AlphaValues::from_vec(alpha),
    })
}

/// Each slice quantised at its own index.
fn slices_at(
    alloc: Global,
    slices: &[SliceCoefficients],
    header: &FrameHeader,
    choice: &[u8],
) -> Result<Vec<CodedSlice>, AllocError>
    requires parts { All HasParts slices.now }
    requires header { IsWritableHeader header.now }
    requires number { length choice.now ≡ length slices.now }
    requires indices { All IsIndex choice.now }
    ensures value { IfOk result (λ v. v.items ≡ coded_slices (weights_in header.now) slices.now choice.now) }
    ensures small { IfOk result (λ v. All IsWritableSlice v.items) }
{
    let mut coded = Vec::with_capacity(alloc, slices.len())?;
    for i in 0..slices.len() {
        coded.push(slice_at(alloc, &slices[i], header, choice[i])?)?;
    }
    Ok(coded)
}

/// The coded picture of an index, each slice quantised at its own index.
fn picture_at(
    alloc: Global,
    coefficients: &Coefficients,
    header: &FrameHeader,
    choice: &[u8],
    picture: u8,
) -> Result<CodedPicture, AllocError>
    requires writable { IsWritableHeader header.now }
    requires number { length choice.now ≡ length coefficients.now.slices }
    requires indices { All IsIndex choice.now }
    requires inside { length (slices_of coefficients.now.layout) * picture + length (slices_of coefficients.now.layout) ≤ length coefficients.now.slices }
    ensures value { IfOk result (λ x. x ≡ coded_picture coefficients.now (coded_slices (weights_in header.now) coefficients.now.slices choice.now) picture) }
    ensures small { IfOk result IsWritablePicture }
{
    let count = coefficients.layout.slices() as usize;
    let from = count * usize::from(picture);
    let all = coefficients.slices.as_slice();
    let coded = slices_at(
        alloc,
        &all[from..from + count],
        header,
        &choice[from..from + count],
    )?;
    Ok(CodedPicture {
        log2: coefficients.layout.log2,
        slices: CodedSlices::from_vec(coded),
    })
}

/// The frame of these coefficients, each slice quantised at its own index.
fn frame_at(
    alloc: Global,
    coefficients: &Coefficients,
    header: &FrameHeader,
    choice: &[u8],
) -> Result<CodedFrame, AllocError>
    requires header { IsHeaderOf coefficients.now header.now }
    requires writable { IsWritableHeader header.now }
    requires number { length choice.now ≡ length coefficients.now.slices }
    requires indices { All IsIndex choice.now }
    ensures frame { IfOk result (λ f. f ≡ coded_frame coefficients.now header.now choice.now) }
    ensures writable { IfOk result IsWritable }
{
    let count = coefficients.layout.pictures();
    let mut pictures = Vec::with_capacity(alloc, usize::from(count))?;
    for number in 0..count {
        pictures.push(picture_at(alloc, coefficients, header, choice, number)?)?;
    }
    Ok(CodedFrame {
        header: *header,
        pictures: CodedPictures::from_vec(pictures),
    })
}

/// The frame of these coefficients with this header, each slice quantised at its own index, from 1 to 224, by the
/// weights of the header. The header has the size and the form of the coefficients; its other fields are such that
/// the frame can be written.
///
/// The error is that memory ran out.
pub fn coded(
    alloc: Global,
    coefficients: &Coefficients,
    header: &FrameHeader,
    choice: &[u8],
) -> Result<CodedFrame, NoMemory>
    requires header { IsHeaderOf coefficients.now header.now }
    requires writable { IsWritableHeader header.now }
    requires number { length choice.now ≡ length coefficients.now.slices }
    requires indices { All IsIndex choice.now }
    ensures frame { IfOk result (λ f. f ≡ coded_frame coefficients.now header.now choice.now) }
    ensures writable { IfOk result IsWritable }
{
    match frame_at(alloc, coefficients, header, choice) {
        Ok(frame) => Ok(frame),
        Err(_) => Err(NoMemory),
    }
}
