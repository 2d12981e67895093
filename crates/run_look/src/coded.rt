//! Whether a coded frame consists of coefficients quantised by a choice: block by block, without memory.

ghost use Rattle.std.specs.Prelude.{◌≡◌, ◌↔◌, ◌+◌, ◌*◌, ◌≤◌, ◌<◌, ℕ, length, IsTrue, get_or, nat_abs};
ghost use Rattle.std.specs.List.{All};
ghost use Rattle.pr_dct.specs.Transform.{AreWithin};
ghost use Rattle.pr_frame.specs.Coded.{IsWritableHeader};
ghost use Rattle.pr_geom.specs.Layout.{slices_of};
ghost use Rattle.pr_quant.specs.Matrices.{IsWeight};
ghost use Rattle.pr_quant.specs.Quantised.{quantised, greatest_coefficient};
ghost use Rattle.rate_build.specs.Measures.{quantised_block, quantised_part, IsFrameMultiplier, ArePart};
ghost use Rattle.rate_build.specs.Coding.{coded_slice, coded_slices, coded_picture, coded_frame, weights_in, IsIndex};
ghost use Rattle.rate_build.specs.Tables.{HasParts};
ghost use Rattle.run_look.specs.inner.Headers.{SameForm, SameCodes, SameWeights};

use pr_coeff::Block;
use pr_frame::{CodedFrame, CodedPicture, CodedSlice};
use pr_head::FrameHeader;
use pr_quant::{multipliers_of, quantise};
use rate_build::{Coefficients, SliceCoefficients};

/// A coefficient quantised.
fn quantise_value(value: i16, multiplier: u32) -> i16
    requires value { nat_abs value ≤ greatest_coefficient }
    requires multiplier { IsFrameMultiplier multiplier }
    ensures value { result ≡ quantised value multiplier }
    ensures within { nat_abs result ≤ 8191 }
{
    let value = i32::from(value);
    let size = quantise(value, multiplier);
    size as i16
}

/// A block quantised, each coefficient by the multiplier at its position.
fn quantise_block(block: &Block, multipliers: &[u32; 64]) -> Block
    requires block { AreWithin greatest_coefficient block.now }
    requires multipliers { (p : ℕ) → p < 64 → IsFrameMultiplier (get_or multipliers.now p 0) }
    ensures { result ≡ quantised_block multipliers.now block.now }
{
    let mut values = [0; 64];
    for place in 0..64 {
        values[place] = quantise_value(block[place], multipliers[place]);
    }
    values
}

/// Whether two blocks have the same values.
fn same_block(some: &Block, other: &Block) -> bool
    ensures { IsTrue result ↔ (some.now ≡ other.now) }
{
    some == other
}

/// Whether two headers have the same form.
fn same_form(some: &FrameHeader, other: &FrameHeader) -> bool
    ensures { IsTrue result ↔ SameForm some.now other.now }
{
    some.version == other.version
        && some.encoder == other.encoder
        && some.width == other.width
        && some.height == other.height
        && some.chroma == other.chroma
        && some.interlace == other.interlace
        && some.alpha == other.alpha
}

/// Whether two headers have the same codes.
fn same_codes(some: &FrameHeader, other: &FrameHeader) -> bool
    ensures { IsTrue result ↔ SameCodes some.now other.now }
{
    some.aspect == other.aspect
        && some.rate == other.rate
        && some.primaries == other.primaries
        && some.transfer == other.transfer
        && some.matrix == other.matrix
}

/// Whether two headers have the same weights.
fn same_weights(some: &FrameHeader, other: &FrameHeader) -> bool
    ensures { IsTrue result ↔ SameWeights some.now other.now }
{
    some.luma == other.luma && some.chroma_weights == other.chroma_weights
}

/// Whether two headers have the same fields.
pub(crate) fn same_header(some: &FrameHeader, other: &FrameHeader) -> bool
    ensures { IsTrue result ↔ (some.now ≡ other.now) }
{
    same_form(some, other) && same_codes(some, other) && same_weights(some, other)
}

/// Whether this is a block quantised, each coefficient by the multiplier at its position.
fn is_quantised(coded: &Block, block: &Block, multipliers: &[u32; 64]) -> bool
    requires block { AreWithin greatest_coefficient block.now }
    requires multipliers { (p : ℕ) → p < 64 → IsFrameMultiplier (get_or multipliers.now p 0) }
    ensures { IsTrue result ↔ (coded.now ≡ quantised_block multipliers.now block.now) }
{
    same_block(coded, &quantise_block(block, multipliers))
}

/// Whether these are the blocks of a part, quantised at an index.
fn is_part_at(coded: &[Block], blocks: &[Block], weights: &[u8; 64], index: u8) -> bool
    requires part { ArePart blocks.now }
    requires weights { All IsWeight weights.now }
    requires index { IsIndex index }
    ensures { IsTrue result ↔ (coded.now ≡ quantised_part weights.now index blocks.now) }
{
    if coded.len() != blocks.len() {
        return false;
    }
    let multipliers = multipliers_of(weights, index);
    for i in 0..blocks.len() {
        if !is_quantised(&coded[i], &blocks[i], &multipliers) {
            return false;
        }
    }
    true
}

/// Whether this is a slice quantised at an index.
fn is_slice_at(
    coded: &CodedSlice,
    slice: &SliceCoefficients,
    header: &FrameHeader,
    index: u8,
) -> bool
    requires parts { HasParts slice.now }
    requires header { IsWritableHeader header.now }
    requires index { IsIndex index }
    ensures { IsTrue result ↔ (coded.now ≡ coded_slice (weights_in header.now) index slice.now) }
{
    let chroma = &header.chroma_weights;
    coded.index == index
        && is_part_at(coded.y.as_slice(), slice.y.as_slice(), &header.luma, index)
        && is_part_at(coded.cb.as_slice(), slice.cb.as_slice(), chroma, index)
        && is_part_at(coded.cr.as_slice(), slice.cr.as_slice(), chroma, index)
        && coded.alpha.as_slice() == slice.alpha.as_slice()
}

/// Whether these are slices quantised each at its own index.
fn are_slices_at(
    coded: &[CodedSlice],
    slices: &[SliceCoefficients],
    header: &FrameHeader,
    choice: &[u8],
) -> bool
    requires parts { All HasParts slices.now }
    requires header { IsWritableHeader header.now }
    requires number { length choice.now ≡ length slices.now }
    requires indices { All IsIndex choice.now }
    ensures { IsTrue result ↔ (coded.now ≡ coded_slices (weights_in header.now) slices.now choice.now) }
{
    if coded.len() != slices.len() {
        return false;
    }
    for i in 0..slices.len() {
        if !is_slice_at(&coded[i], &slices[i], header, choice[i]) {
            return false;
        }
    }
    true
}

/// Whether this is the coded picture with this number, each slice quantised at its own index.
fn is_picture_at(
    coded: &CodedPicture,
    coefficients: &Coefficients,
    header: &FrameHeader,
    choice: &[u8],
    picture: u8,
) -> bool
    requires writable { IsWritableHeader header.now }
    requires number { length choice.now ≡ length coefficients.now.slices }
    requires indices { All IsIndex choice.now }
    requires inside { length (slices_of coefficients.now.layout) * picture + length (slices_of coefficients.now.layout) ≤ length coefficients.now.slices }
    ensures { IsTrue result ↔ (coded.now ≡ coded_picture coefficients.now (coded_slices (weights_in header.now) coefficients.now.slices choice.now) picture) }
{
    let count = coefficients.layout.slices() as usize;
    let from = count * usize::from(picture);
    let all = coefficients.slices.as_slice();
    coded.log2 == coefficients.layout.log2
        && are_slices_at(
            coded.slices.as_slice(),
            &all[from..from + count],
            header,
            &choice[from..from + count],
        )
}

/// Whether this frame has this header, and consists of the coefficients, each slice quantised at its own index.
pub(crate) fn is_coded(
    frame: &CodedFrame,
    coefficients: &Coefficients,
    header: &FrameHeader,
    choice: &[u8],
) -> bool
    requires writable { IsWritableHeader header.now }
    requires number { length choice.now ≡ length coefficients.now.slices }
    requires indices { All IsIndex choice.now }
    ensures { IsTrue result ↔ (frame.now ≡ coded_frame coefficients.now header.now choice.now) }
{
    if !same_header(&frame.header, header) {
        return false;
    }
    let pictures = frame.pictures.as_slice();
    let count = coefficients.layout.pictures();
    if pictures.len() != usize::from(count) {
        return false;
    }
    for number in 0..count {
        let picture = &pictures[usize::from(number)];
        if !is_picture_at(picture, coefficients, header, choice, number) {
            return false;
        }
    }
    true
}
