//! Reads and writes the sample tables of a QuickTime track.
#![tactic(auto)]

mod chunk_tables;
mod fault;
mod finding;
mod judging;
mod laws;
mod rows;
mod runs;
mod sums;
mod tables;
mod window;
mod writer;

pub use chunk_tables::{Chunk, ChunkTables};
pub use fault::{MovieFault, MovieKind};
pub use laws::{samples_are_counted, written_samples_are_given, written_tables_are_read};
pub use runs::{ChunkRun, Sample, TimeRun};
pub use tables::{MAX_SAMPLES, SampleTables};
pub use writer::{Extent, TableWriter};
