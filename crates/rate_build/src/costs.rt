//! The cost of a part of a slice at each quantisation index.

ghost use Rattle.std.specs.Prelude.{◌≡◌, ◌+◌, ◌-◌, ◌*◌, ◌^◌, ◌<◌, ◌≤◌, ℕ, length, slice_index, take, map, nat_abs};
ghost use Rattle.std.specs.List.{All, sum_by};
ghost use Rattle.pr_dct.specs.Transform.{AreWithin};
ghost use Rattle.pr_quant.specs.Quantised.{quantised, error_of, greatest_coefficient, greatest_multiplier};
ghost use Rattle.pr_quant.specs.Matrices.{IsWeight};
ghost use Rattle.pr_coeff.specs.Component.{component, places};
ghost use Rattle.pr_quant.specs.Errors.{multipliers, block_error, part_error};
ghost use Rattle.rate_build.specs.Measures.{quantised_block, quantised_part, all_measured, IsFrameMultiplier, IsCoefficientBlock, ArePart};

use crate::walk::{Measuring, measure_part};
use pr_coeff::{Block, Scan};
use pr_quant::{quantise, squared_error};

/// The cost of a part of a slice at an index.
#[derive(Clone, Copy, Debug, Default, PartialEq, Eq)]
pub struct Measure {
    /// The bytes of its component.
    pub bytes: u32,
    /// The sum of the squared errors of its coefficients.
    pub error: u64,
}

/// A coefficient quantised, and its squared error.
fn quantise_value(value: i16, multiplier: u32) -> (i16, u64)
    requires value { nat_abs value ≤ greatest_coefficient }
    requires multiplier { IsFrameMultiplier multiplier }
    ensures value { result.0 ≡ quantised value multiplier }
    ensures error { result.1 ≡ error_of value multiplier }
    ensures small { result.1 < 2 ^ 28 }
    ensures within { nat_abs result.0 ≤ 8191 }
{
    let value = i32::from(value);
    let size = quantise(value, multiplier);
    (size as i16, squared_error(value, size, multiplier))
}

/// Writes a block quantised, and returns the sum of its squared errors.
pub(crate) fn quantise_block(block: &Block, multipliers: &[u32; 64], quantised: &mut Block) -> u64
    requires block { AreWithin greatest_coefficient block.now }
    requires multipliers { (p : ℕ) → p < 64 → IsFrameMultiplier (slice_index multipliers.now p) }
    ensures value { quantised.new ≡ quantised_block multipliers.now block.now }
    ensures error { result ≡ block_error multipliers.now block.now }
    ensures small { result ≤ 64 * 2 ^ 28 }
{
    let mut error = 0;
    for place in 0..64 {
        let (value, square) = quantise_value(block[place], multipliers[place]);
        quantised[place] = value;
        error += square;
    }
    error
}

/// Writes the blocks of a part quantised, and returns the sum of their squared errors.
pub(crate) fn quantise_blocks(
    blocks: &[Block],
    multipliers: &[u32; 64],
    quantised: &mut [Block],
) -> u64
    requires few { length blocks.now ≤ 32 }
    requires room { length blocks.now ≤ length quantised.old }
    requires each { All IsCoefficientBlock blocks.now }
    requires multipliers { (p : ℕ) → p < 64 → IsFrameMultiplier (slice_index multipliers.now p) }
    ensures value { take (length blocks.now) quantised.new ≡ map (quantised_block multipliers.now) blocks.now }
    ensures error { result ≡ sum_by (block_error multipliers.now) blocks.now }
    ensures small { result ≤ length blocks.now * (64 * 2 ^ 28) }
{
    let mut error = 0;
    for i in 0..blocks.len() {
        error += quantise_block(&blocks[i], multipliers, &mut quantised[i]);
    }
    error
}

/// The cost of a part at each index from `lo` to `hi`: the measure of index `lo + i` is written at index `i` of the
/// slice. There are 1 to 32 blocks of coefficients of magnitude at most 16,383, and as many measures as
/// quantisation indices, which are from 1 to 224; the weights are from 2 to 63. No memory is taken.
pub fn measure_all(
    blocks: &[Block],
    weights: &[u8; 64],
    scan: Scan,
    lo: u8,
    hi: u8,
    measures: &mut [Measure],
)
    requires part { ArePart blocks.now }
    requires weights { All IsWeight weights.now }
    requires least { 1 ≤ lo }
    requires order { lo ≤ hi }
    requires most { hi ≤ 224 }
    requires room { length measures.old ≡ hi + 1 - lo }
    ensures { measures.new ≡ all_measured (places scan) weights.now blocks.now lo hi }
{
    let measuring = Measuring::new(lo, hi);
    measure_part(blocks, weights, scan, &measuring, measures);
}
