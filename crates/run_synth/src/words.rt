//! The operands of a run of `synth`.

/// The operands of `synth`.
#[derive(Clone, Copy, Debug, PartialEq, Eq)]
pub struct SynthWords {
    /// Width of the pictures in samples, 1 to 8192.
    pub width: u16,
    /// Height of the pictures in samples, 1 to 4320.
    pub height: u16,
    /// Number of pictures, 1 to 100.
    pub frames: u8,
    /// Initial state of the noise generator.
    pub seed: u32,
    /// Budget of a frame in bytes, 1 to 2^31 − 1.
    pub budget: u32,
}
