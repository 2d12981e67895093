//! Blocks, and the orders in which their coefficients are coded.

ghost use Rattle.std.specs.Prelude.{◌≡◌, drop, length};
ghost use Rattle.pr_coeff.specs.Component.{places};

/// The coefficients of a block in raster order.
pub type Block = [i16; 64];

/// The order of a block's coefficients (SMPTE RDD 36, block scanning).
#[derive(Clone, Copy, Debug, PartialEq, Eq)]
pub enum Scan {
    /// Of progressive pictures.
    Progressive,
    /// Of interlaced pictures.
    Interlaced,
}

const PROGRESSIVE: [u8; 64] = [
    0, 1, 8, 9, 2, 3, 10, 11, 16, 17, 24, 25, 18, 19, 26, 27, 4, 5, 12, 20, 13, 6, 7, 14, 21, 28,
    29, 22, 15, 23, 30, 31, 32, 33, 40, 48, 41, 34, 35, 42, 49, 56, 57, 50, 43, 36, 37, 44, 51, 58,
    59, 52, 45, 38, 39, 46, 53, 60, 61, 54, 47, 55, 62, 63,
];

const INTERLACED: [u8; 64] = [
    0, 8, 1, 9, 16, 24, 17, 25, 2, 10, 3, 11, 18, 26, 19, 27, 32, 40, 33, 34, 41, 48, 56, 49, 42,
    35, 43, 50, 57, 58, 51, 59, 4, 12, 5, 6, 13, 20, 28, 21, 14, 7, 15, 22, 29, 36, 44, 37, 30, 23,
    31, 38, 45, 52, 60, 53, 46, 39, 47, 54, 61, 62, 55, 63,
];

impl Scan {
    /// The raster positions in scan order.
    pub fn places(self) -> &'static [u8; 64]
        ensures { result.now ≡ places self }
    {
        match self {
            Scan::Progressive => &PROGRESSIVE,
            Scan::Interlaced => &INTERLACED,
        }
    }

    /// The raster positions after the first in scan order.
    pub(crate) fn other_places(self) -> &'static [u8]
        ensures value { result.now ≡ drop 1 (places self) }
        ensures count { length result.now ≡ 63 }
    {
        &self.places()[1..]
    }
}
