//! The outcome of a run of `synth`.

/// The outcome of a run.
#[derive(Clone, Copy, Debug, PartialEq, Eq)]
pub enum SynthEnd {
    /// The run is complete.
    Done,
    /// Memory ran out.
    NoMemory,
    /// The port that the run writes failed.
    WriteFault,
    /// No choice fits for frame `frame`; the smallest choice has `least` bytes.
    TooSmall { frame: u32, least: u64 },
    /// The table of frame `frame` has too many pairs in its Pareto frontiers.
    LayersFull { frame: u32 },
}
