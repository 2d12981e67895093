//! Options and parameters of a run of `encode`.

use pic_y4m::Head;
use pr_geom::Layout;
use pr_quant::{Matrix, Weights};

/// The options of `encode`.
#[derive(Clone, Copy, Debug, PartialEq, Eq)]
pub struct EncodeWords {
    /// Budget in bytes that each frame adds to its group, at least 1; a group's budget is below 2^31.
    pub budget: u32,
    /// The least quantisation index of a slice, at least 1.
    pub lo: u8,
    /// The greatest quantisation index of a slice, `lo` to 224.
    pub hi: u8,
    /// Binary logarithm of the desired slice width in macroblocks, 0 to 3.
    pub log2: u8,
    /// The weight matrix.
    pub matrix: Matrix,
    /// The format of raw planar pictures; `None` for Y4M.
    pub raw: Option<Head>,
    /// Number of frames that share a budget, 1 to 8.
    pub group: u8,
    /// The version of the proof format, 1 or 2.
    pub proof: u8,
}

/// The parameters that all frames of a run share.
#[derive(Clone, Copy, Debug, PartialEq, Eq)]
pub struct Job {
    /// The format of the pictures.
    pub head: Head,
    /// The layout of pictures, slices and blocks in a frame.
    pub layout: Layout,
    /// The weight matrices.
    pub weights: Weights,
    /// The least quantisation index of a slice.
    pub lo: u8,
    /// The greatest quantisation index of a slice.
    pub hi: u8,
    /// Budget in bytes that each frame adds to its group.
    pub budget: u32,
    /// Number of frames that share a budget.
    pub group: u8,
    /// Whether the pictures are raw planes; otherwise they are Y4M.
    pub raw: bool,
    /// The version of the proof format.
    pub format: u8,
}
