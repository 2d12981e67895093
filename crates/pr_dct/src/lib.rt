//! The forward and the inverse transform between samples and coefficients, and the samples that are shown.
//!
//! Both transforms are sums over all 64 pairs of a row and a column, with one rounding per result. They are
//! computed by rows and then by columns, in exact sums; each row by halves, since the cosines of a row mirror each
//! other.
#![tactic(auto)]

ghost use Rattle.std.specs.Prelude.{◌≡◌, IsTrue, map, ◌+◌, ◌*◌, ◌^◌, ◌<◌, ◌≤◌, ℕ, ℤ, pos, ◌*ℤ◌, ◌+ℤ◌, get_or, nat_abs};
ghost use Rattle.pr_dct.specs.Transform.{total, AreWithin, rounded, coefficients, samples, flat};

mod by_rows;
mod halves;
mod shown;

use by_rows::{rows_of_coefficients, rows_of_samples};
use halves::plus_product;
pub use shown::sample_out;

/// A sum divided by 2^30 and rounded, halves up.
fn round(sum: i64) -> i32
    requires { nat_abs sum ≤ 2 ^ 60 }
    ensures { result ≡ rounded sum }
{
    ((sum + (1 << 29)) >> 30) as i32
}

/// The numbers of a block, widened.
fn widened(block: &[i32; 64]) -> [i64; 64]
    ensures { result ≡ block.now }
{
    let mut wide = [0; 64];
    for i in 0..64 {
        wide[i] = i64::from(block[i]);
    }
    wide
}

/// Each sum divided by 2^30 and rounded.
fn rounded_each(sums: &[i64; 64]) -> [i32; 64]
    requires { AreWithin (2 ^ 60) sums.now }
    ensures { result ≡ map rounded sums.now }
{
    let mut block = [0; 64];
    for i in 0..64 {
        block[i] = round(sums[i]);
    }
    block
}

/// The coefficients of a block of signed 12-bit samples, of magnitude at most 2,048. The coefficients are of
/// magnitude at most 16,383.
pub fn forward(block: &[i32; 64]) -> [i32; 64]
    requires { AreWithin 2048 block.now }
    ensures value { result ≡ coefficients block.now }
    ensures within { AreWithin 16383 result }
{
    let wide = widened(block);
    let rows = rows_of_coefficients(&wide);
    let sums = rows_of_coefficients(&rows);
    rounded_each(&sums)
}

/// Whether all but the first number of a block are zero.
fn is_flat(products: &[i32; 64]) -> bool
    ensures { IsTrue result → (p : ℕ) → p < 64 → 0 < p → get_or products.now p (pos 0) ≡ pos 0 }
{
    for p in 1..64 {
        if products[p] != 0 {
            return false;
        }
    }
    true
}

/// The sample of a block whose only nonzero product is the first: it is the same at every position.
pub fn flat_sample(product: i32) -> i32
    requires { nat_abs product ≤ 2 ^ 19 }
    ensures { result ≡ rounded (flat product) }
{
    round(plus_product(0, 11585, plus_product(0, 11585, i64::from(product))))
}

/// The samples of a block of products of magnitude at most 2^19, before they are clipped.
pub fn inverse(products: &[i32; 64]) -> [i32; 64]
    requires { AreWithin (2 ^ 19) products.now }
    ensures { result ≡ samples products.now }
{
    if is_flat(products) {
        return [flat_sample(products[0]); 64];
    }
    let wide = widened(products);
    let rows = rows_of_samples(&wide);
    let sums = rows_of_samples(&rows);
    rounded_each(&sums)
}
