//! Slices, their parts, and why a size has no layout.

/// The largest number of slices of one picture.
pub const MAX_SLICES: u32 = 65_535;

/// Why there is no layout, in the order in which the causes are checked.
#[derive(Clone, Copy, Debug, PartialEq, Eq)]
pub enum GeomFault {
    /// The width or the height is 0.
    SizeZero,
    /// The width or the height is above its limit.
    SizeLimit,
    /// An interlaced frame has an odd number of rows.
    OddInterlaced,
    /// A picture has more than [`MAX_SLICES`] slices.
    TooManySlices,
}

/// A part of a slice: luma or one of the two chroma components.
#[derive(Clone, Copy, Debug, PartialEq, Eq)]
pub enum Part {
    /// Luma.
    Y,
    /// The first chroma component.
    Cb,
    /// The second chroma component.
    Cr,
}

/// The position of a slice in its picture, in macroblocks.
#[derive(Clone, Copy, Debug, PartialEq, Eq)]
pub struct SlicePlace {
    /// The column of its first macroblock.
    pub column: u16,
    /// Its row.
    pub row: u16,
    /// The number of its macroblocks, from 1 to 8.
    pub width: u8,
}
