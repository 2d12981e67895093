//! Rows of sample tables, and samples.

/// A run of samples with one duration.
#[derive(Clone, Copy, Debug, PartialEq, Eq)]
pub struct TimeRun {
    /// The number of samples.
    pub count: u32,
    /// The duration of each sample, in units of the time scale.
    pub duration: u32,
}

/// A run of chunks, which ends before the next run's first chunk.
#[derive(Clone, Copy, Debug, PartialEq, Eq)]
pub struct ChunkRun {
    /// The number of the first chunk, from 1.
    pub first: u32,
    /// The number of samples of each chunk.
    pub samples: u32,
    /// The number of the samples' description, from 1.
    pub description: u32,
}

/// A sample of a track.
#[derive(Clone, Copy, Debug, PartialEq, Eq)]
pub struct Sample {
    /// The offset of its first byte in the file.
    pub at: u64,
    /// Its size in bytes.
    pub size: u32,
    /// Its duration, in units of the time scale.
    pub duration: u32,
    /// The number of its description, from 1.
    pub description: u32,
}
