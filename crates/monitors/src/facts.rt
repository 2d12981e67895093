//! The facts of a picture.

use pw_planes::Depth;

/// The facts of a picture that a monitor receives.
#[derive(Clone, Copy, Debug, PartialEq, Eq)]
pub struct PictureFacts {
    /// The index of its sample, from 0.
    pub number: u32,
    /// The size of its sample in bytes.
    pub bytes: u32,
    /// The minimum quantisation index of its slices, from 1 to 224.
    pub least_index: u8,
    /// The maximum quantisation index of its slices, from 1 to 224.
    pub greatest_index: u8,
    /// The minimum luma sample of the output.
    pub least_luma: u16,
    /// The maximum luma sample of the output.
    pub greatest_luma: u16,
    /// The bit depth of the output.
    pub depth: Depth,
}
