//! Blocks, from quantised values to samples.

ghost use Rattle.std.specs.Prelude.{◌≡◌, ◌^◌, ◌<◌, ◌≤◌, ℕ, IsTrue, get_or, pos, nat_abs, map};
ghost use Rattle.pr_dct.specs.Transform.{AreWithin};
ghost use Rattle.pr_quant.specs.Quantised.{scale_of, dequantised};
ghost use Rattle.pr_frame.specs.Shown.{products, samples_shown, shown_block};

use pr_coeff::Block;
use pr_dct::{flat_sample, inverse, sample_out};
use pr_quant::{dequantise, scale};
use pw_planes::Depth;

/// The products of the quantised values of a block, each with its weight and the scale of the index.
fn wide_products(weights: &[u8; 64], index: u8, block: &Block) -> [i32; 64]
    requires least { 1 ≤ index }
    requires most { index ≤ 224 }
    ensures value { result ≡ products weights.now index block.now }
    ensures within { AreWithin (2 ^ 19) result }
{
    let factor = scale(index);
    let mut products = [0; 64];
    for place in 0..64 {
        products[place] = dequantise(block[place], u32::from(weights[place]) * factor);
    }
    products
}

/// The result of `dequantise` for multipliers below 2^16, in 32 bits.
fn narrow_product(q: i16, m: u16) -> i32
    ensures value { result ≡ dequantised q m }
    ensures within { nat_abs result ≤ 2 ^ 19 }
{
    (i32::from(q) * i32::from(m)).clamp(-524_288, 524_287)
}

/// The products if no multiplier passes 16 bits, whatever the weights are: several are computed together.
fn narrow_products(weights: &[u8; 64], index: u8, block: &Block) -> [i32; 64]
    requires least { 1 ≤ index }
    requires small { scale_of index ≤ 257 }
    ensures value { result ≡ products weights.now index block.now }
    ensures within { AreWithin (2 ^ 19) result }
{
    let factor = scale(index) as u16;
    let mut products = [0; 64];
    for place in 0..64 {
        products[place] = narrow_product(block[place], u16::from(weights[place]) * factor);
    }
    products
}

/// The products of the quantised values of a block, each with its weight and the scale of the index.
fn products_of(weights: &[u8; 64], index: u8, block: &Block) -> [i32; 64]
    requires least { 1 ≤ index }
    requires most { index ≤ 224 }
    ensures value { result ≡ products weights.now index block.now }
    ensures within { AreWithin (2 ^ 19) result }
{
    if scale(index) <= 257 {
        narrow_products(weights, index, block)
    } else {
        wide_products(weights, index, block)
    }
}

/// Values of a block as samples of a depth.
fn samples_of(depth: Depth, values: &[i32; 64]) -> [u16; 64]
    ensures { result ≡ samples_shown depth values.now }
{
    let mut samples = [0; 64];
    for place in 0..64 {
        samples[place] = sample_out(depth, values[place]);
    }
    samples
}

/// Whether all values of a block but the first are 0. The loop has no early exit, so that several values are
/// compared together.
fn is_flat(block: &Block) -> bool
    ensures { IsTrue result → (p : ℕ) → p < 64 → 0 < p → get_or block.now p (pos 0) ≡ pos 0 }
{
    let mut any = 0;
    for place in 1..64 {
        any |= block[place].unsigned_abs();
    }
    any == 0
}

/// The samples of a block whose values are all 0 but the first.
fn flat_block(depth: Depth, weights: &[u8; 64], index: u8, block: &Block) -> [u16; 64]
    requires least { 1 ≤ index }
    requires most { index ≤ 224 }
    requires flat { (p : ℕ) → p < 64 → 0 < p → get_or block.now p (pos 0) ≡ pos 0 }
    ensures { result ≡ shown_block depth weights.now index block.now }
{
    let product = dequantise(block[0], u32::from(weights[0]) * scale(index));
    [sample_out(depth, flat_sample(product)); 64]
}

/// The samples of a block.
pub(crate) fn shown_block(depth: Depth, weights: &[u8; 64], index: u8, block: &Block) -> [u16; 64]
    requires least { 1 ≤ index }
    requires most { index ≤ 224 }
    ensures { result ≡ shown_block depth weights.now index block.now }
{
    if is_flat(block) {
        return flat_block(depth, weights, index, block);
    }
    samples_of(depth, &inverse(&products_of(weights, index, block)))
}
