//! The coefficients of a frame, slice by slice.

use pr_frame::{AlphaValues, Blocks};
use pr_geom::Layout;
use pw_planes::AlphaKind;
use std::marker::Model;

/// The coefficients of the blocks of a slice, each of magnitude at most 16,383, and its alpha values. The layout
/// gives the number of blocks of each part and the number of alpha values.
#[derive(Drop)]
pub struct SliceCoefficients {
    /// Luma, 1 to 32 blocks.
    pub y: Blocks,
    /// The first part of chroma, 1 to 32 blocks.
    pub cb: Blocks,
    /// The second part of chroma, with as many blocks as the first.
    pub cr: Blocks,
    /// The alpha values, row by row; none if there is no alpha.
    pub alpha: AlphaValues,
}

/// The slices of a frame: those of the first coded picture, then those of the second.
#[derive(Drop)]
pub struct CoefficientSlices {
    slices: Vec<SliceCoefficients>,
}

impl Model for CoefficientSlices {
    ghost use Rattle.std.specs.Prelude.{List};
    ghost use Rattle.rate_build.specs.declared.slices.SliceCoefficients.{SliceCoefficients};

    ghost Value = { List SliceCoefficients };

    ghost view = { λ s. s.slices.items };
}

impl CoefficientSlices {
    ghost use Rattle.std.specs.Prelude.{◌≡◌};

    /// These slices.
    pub fn from_vec(slices: Vec<SliceCoefficients>) -> CoefficientSlices
        ensures { result ≡ slices.items }
    {
        CoefficientSlices { slices }
    }

    /// The slices, in order.
    pub fn as_slice(&self) -> &[SliceCoefficients]
        ensures { result.now ≡ self.now }
    {
        self.slices.as_slice()
    }

    /// The slices, in the vector that holds them.
    pub fn into_vec(self) -> Vec<SliceCoefficients>
        ensures { result.items ≡ self }
    {
        self.slices
    }
}

/// The coefficients of a frame: those of each block of each slice of its layout.
#[derive(Drop)]
pub struct Coefficients {
    /// How the frame is cut into pictures, slices and blocks.
    pub layout: Layout,
    /// The kind of alpha.
    pub alpha: AlphaKind,
    /// The slices of all its pictures, from 1 to `rate_table::MAX_TABLE_SLICES`.
    pub slices: CoefficientSlices,
}

impl Model for Coefficients {
    ghost use Rattle.rate_build.specs.Coefficients.{FrameCoefficients, AreOfLayout};

    ghost Value = { FrameCoefficients };

    ghost view = { λ c. record { layout = c.layout; alpha = c.alpha; slices = c.slices } };

    ghost invariant = { λ c. AreOfLayout (record { layout = c.layout; alpha = c.alpha; slices = c.slices }) };
}
