//! A family of codewords.

/// A codebook (SMPTE RDD 36, entropy coding): Rice codes with `rice` low bits for the numbers whose other bits are
/// at most `last`, and exponential Golomb codes from `exp` bits on for all others. The ten codebooks in use are
/// those of the adaptation tables.
#[derive(Clone, Copy, Debug, PartialEq, Eq)]
pub struct Codebook {
    pub last: u8,
    pub rice: u8,
    pub exp: u8,
}
