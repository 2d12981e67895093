//! Sizes and errors of slices.

/// The size and the error of one slice at one quantisation index.
#[derive(Clone, Copy, Debug, Default, PartialEq, Eq)]
pub struct Entry {
    /// The quantisation index, 1 to 224.
    pub index: u8,
    /// The coded size of the slice, in bytes.
    pub size: u16,
    /// The sum of the squared errors of the slice's coefficients, below 2^43.
    pub error: u64,
}

/// Total size and error of several slices.
#[derive(Clone, Copy, Debug, PartialEq, Eq)]
pub struct Pair {
    /// The total size, in bytes.
    pub size: u32,
    /// The total error.
    pub error: u64,
}
