//! The format of sound.

/// Plain PCM sound, 16 bits a sample: the number of channels, and the frame rate.
#[derive(Clone, Copy, Debug, PartialEq, Eq)]
pub struct Format {
    /// 1 or 2.
    pub channels: u8,
    /// From 1 to 65,535.
    pub rate: u16,
}

/// The form of a WAV: its format and its number of frames.
#[derive(Clone, Copy, Debug, PartialEq, Eq)]
pub struct Pcm {
    /// 1 or 2.
    pub channels: u8,
    /// Frames per second, from 1 to 65,535.
    pub rate: u16,
    /// A frame has one sample per channel. All frames together have at most 4,294,967,250 bytes.
    pub frames: u32,
}

/// A chunk of a WAV that was read.
#[derive(Clone, Copy, Debug, PartialEq, Eq)]
pub enum Met {
    /// A format.
    Format(Format),
    /// A chunk that is skipped.
    Other,
    /// The header of the sound.
    Data(Pcm),
}
