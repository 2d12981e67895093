//! The settings of a proof.

ghost use Rattle.std.specs.Prelude.{◌≡◌, ◌<◌, ◌≤◌};
ghost use Rattle.rate_table.specs.declared.table.TheConstants.{MAX_TABLE_SLICES};
ghost use Rattle.rate_cert.specs.Settings.{IsSettings, frame_slices};

use pr_geom::Layout;
use pw_planes::{AlphaKind, Chroma, Depth, Interlace};

/// The settings that all records of a proof share: the format of the pictures, their coding, and the budget.
#[derive(Clone, Copy, Debug, PartialEq, Eq)]
pub struct Settings {
    /// The source of the pictures: 0 for Y4M, 1 for raw pictures, 2 for the products of a movie.
    pub form: u8,
    /// The number of frames that share a budget, 1 to 8; 1 for products.
    pub group: u8,
    /// The width of the pictures in samples, 1 to 8,192.
    pub width: u16,
    /// The height of the pictures in samples, 1 to 4,320; even if they are interlaced.
    pub height: u16,
    /// The chroma sampling.
    pub chroma: Chroma,
    /// The bit depth.
    pub depth: Depth,
    /// The kind of alpha: absent, or its bit depth.
    pub alpha: AlphaKind,
    /// The interlace mode: progressive, or which field is first.
    pub interlace: Interlace,
    /// The binary logarithm of the desired width of a slice in macroblocks, 0 to 3.
    pub log2: u8,
    /// The least quantisation index that a slice may have, from 1.
    pub lo: u8,
    /// The greatest quantisation index that a slice may have, from `lo` to 224.
    pub hi: u8,
    /// The numerator of the frame rate, 1 to 1,000,000.
    pub num: u32,
    /// Its denominator, 1 to 4,000.
    pub den: u32,
    /// The weights of luma, each from 2 to 63.
    pub luma: [u8; 64],
    /// The weights of chroma, each from 2 to 63.
    pub chroma_weights: [u8; 64],
    /// The budget in bytes of each frame of a group, from 1; that of a whole group is below 2^31.
    pub budget: u32,
}

impl Settings {
    /// The number of slices of a frame, in all its pictures.
    #[tactic(auto, unfolding(pr_geom::specs::Faults::slice_count))]
    pub fn frame_slices(&self) -> u32
        requires { IsSettings self.now }
        ensures value { result ≡ frame_slices self.now }
        ensures some { 0 < result }
        ensures few { result ≤ MAX_TABLE_SLICES }
    {
        match Layout::new(
            self.width,
            self.height,
            self.log2,
            self.interlace,
            self.chroma,
        ) {
            Ok(layout) => u32::from(layout.pictures()) * layout.slices(),
            Err(_) => 0,
        }
    }
}
