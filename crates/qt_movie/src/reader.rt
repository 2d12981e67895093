//! Reads a movie.

ghost use Rattle.std.specs.Prelude.{◌≡◌, ◌≤◌, ◌<◌, ◌+◌, ◌^◌, length, IfOk};
ghost use Rattle.pw_outside.specs.Ports.{CountsFault};
ghost use Rattle.pw_outside.specs.Reading.{Answers, Told};
ghost use Rattle.qt_tables.specs.Faults.{told_fault, is_failed};
ghost use Rattle.qt_movie.specs.Movie.{taken_in};
ghost use Rattle.qt_movie.specs.Ranges.{TrackLies};

use crate::external::judge_data;
use crate::fields::{bad, u16_of};
use crate::moov::{judge_children, moov_of};
use crate::track::{VideoTrack, first_track_of};
use pw_outside::{ByteStore, Span};
use qt_tables::{MovieFault, MovieKind, Sample, SampleTables};
use std::alloc::Global;
use std::marker::Model;

/// The selected track of a file of `end` bytes: the first of ProRes pictures.
#[tactic(auto, unfolding(crate::specs::Movie::taken_in, pw_outside::specs::Reading::bind))]
fn taken_of<M: ByteStore>(alloc: Global, store: &mut M, end: u64) -> Result<VideoTrack, MovieFault>
    requires end { Told (M.bytes store.old) (λ file. end ≡ length file) }
    ensures value { Told (M.bytes store.old) (λ file. Answers told_fault (λ x. x) result (taken_in file)) }
    ensures lies { IfOk result (TrackLies 0 end) }
    ensures bytes { M.bytes store.new ≡ M.bytes store.old }
    ensures cause { CountsFault (M.faults store.old) (M.faults store.new) (is_failed result) }
{
    let moov = moov_of(store, end)?;
    judge_children(store, &moov)?;
    let track = match first_track_of(alloc, store, &moov)? {
        Some(track) => track,
        None => return Err(bad(MovieKind::NoProResTrack, moov.at)),
    };
    judge_data(alloc, store, &track.parts().minf, track.descriptions())?;
    Ok(track)
}

/// The selected track of a movie.
#[derive(Clone, Copy, Debug, PartialEq, Eq)]
pub struct Track {
    /// Its number among the tracks of the movie, from 1.
    pub number: u64,
    /// Units of time per second, at least 1.
    pub timescale: u32,
    /// The kind of its first description.
    pub kind: [u8; 4],
    /// The picture width by its first description.
    pub width: u16,
    /// The picture height by its first description.
    pub height: u16,
    /// The number of its samples, at most [`qt_tables::MAX_SAMPLES`].
    pub samples: u32,
}

/// A movie that was read: its selected track and sample tables.
#[derive(Drop)]
pub struct MovieReader {
    number: u64,
    kind: [u8; 4],
    width: u16,
    height: u16,
    tables: SampleTables,
}

impl Model for MovieReader {
    ghost use Rattle.qt_movie.specs.Movie.{Movie};

    ghost Value = { Movie };

    ghost view = { λ m. record { number = m.number; kind = m.kind; width = m.width; height = m.height; tables = m.tables } };
}

impl MovieReader {
    ghost use Rattle.std.specs.Prelude.{◌≡◌, ◌≤◌, ◌<◌, ◌^◌, length, slice_get, Some, IfOk, IfSome, false};
    ghost use Rattle.pw_outside.specs.Ports.{CountsFault};
    ghost use Rattle.pw_outside.specs.Reading.{Answers, Told};
    ghost use Rattle.qt_tables.specs.Faults.{told_fault, is_failed, is_out_of_memory};
    ghost use Rattle.qt_tables.specs.Samples.{samples};
    ghost use Rattle.qt_tables.specs.Tables.{AreTables};
    ghost use Rattle.qt_movie.specs.Movie.{movie_in, track_of, span_in};

    /// Reads a movie, except its samples.
    ///
    /// The parts are validated in this order: the top level, the children of the `moov`, the tracks, the data
    /// references, the sample tables. `MovieFault::Bad` is the first fault.
    #[tactic(auto, unfolding(crate::specs::Movie::movie_in, pw_outside::specs::Reading::bind))]
    pub fn start<M: ByteStore>(alloc: Global, store: &mut M) -> Result<MovieReader, MovieFault>
        ensures value { Told (M.bytes store.old) (λ file. Answers told_fault (λ x. x) result (movie_in file)) }
        ensures tables { IfOk result (λ m. AreTables m.tables) }
        ensures bytes { M.bytes store.new ≡ M.bytes store.old }
        ensures cause { CountsFault (M.faults store.old) (M.faults store.new) (is_failed result) }
    {
        let end = store.length()?;
        let track = taken_of(alloc, store, end)?;
        let tables = SampleTables::read(alloc, store, &track.parts().stbl, &track.parts().mdia)?;
        let first = *track.first();
        let at = track.parts().stsd.at;
        let width = u16_of(store, first.at + 32, at)?;
        let height = u16_of(store, first.at + 34, at)?;
        let kind = first.kind;
        Ok(MovieReader {
            number: track.number(),
            kind,
            width,
            height,
            tables,
        })
    }

    /// The selected track.
    pub fn track(&self) -> Track
        ensures { result ≡ track_of self.now }
    {
        let kind = self.kind;
        Track {
            number: self.number,
            timescale: self.tables.timescale(),
            kind,
            width: self.width,
            height: self.height,
            samples: self.tables.count(),
        }
    }

    /// Sample `i`, from 0. Its offset is below 2^63.
    pub fn sample(&self, i: u32) -> Sample
        requires { i < length self.now.tables.sizes }
        ensures value { slice_get (samples self.now.tables) i ≡ Some result }
        ensures near { result.at < 2 ^ 63 }
    {
        self.tables.sample(i)
    }

    /// The start and end offsets of sample `i`, from 0, in the file. `MovieFault::Bad` is `SampleOutside`, at the
    /// sample's offset, exactly if the sample passes the end of the file.
    #[tactic(auto, unfolding(crate::specs::Movie::span_in, pw_outside::specs::Reading::bind))]
    pub fn place<M: ByteStore>(&self, store: &mut M, i: u32) -> Result<(u64, u64), MovieFault>
        requires { i < length self.now.tables.sizes }
        ensures value { Told (M.bytes store.old) (λ file. IfSome (slice_get (samples self.now.tables) i) (λ s. Answers told_fault (λ x. x) result (span_in file s))) }
        ensures order { IfOk result (λ x. x.0 ≤ x.1) }
        ensures bytes { M.bytes store.new ≡ M.bytes store.old }
        ensures cause { CountsFault (M.faults store.old) (M.faults store.new) (is_failed result) }
        // Takes no memory.
        ensures memory { is_out_of_memory result ≡ false }
    {
        let length = store.length()?;
        let sample = self.sample(i);
        let end = sample.at + u64::from(sample.size);
        if length < end {
            return Err(bad(MovieKind::SampleOutside, sample.at));
        }
        Ok((sample.at, end))
    }

    /// The bytes of sample `i`, from 0, as a source. The errors are those of `place`, whose contract also says how
    /// an error leaves the store.
    pub fn span<'a, M: ByteStore>(
        &self,
        store: &'a mut M,
        i: u32,
    ) -> Result<Span<'a, M>, MovieFault>
        requires { i < length self.now.tables.sizes }
        ensures value { Told (M.bytes store.old) (λ file. IfSome (slice_get (samples self.now.tables) i) (λ s. Answers told_fault (λ span. (span.at, span.end)) result (span_in file s))) }
        ensures same_store { IfOk result (λ span. span.store.ghost_name ≡ store.entry.ghost_name) }
        ensures bytes { IfOk result (λ span. M.bytes span.store.now ≡ M.bytes store.old) }
        ensures faults { IfOk result (λ span. M.faults span.store.now ≡ M.faults store.old) }
        // Takes no memory.
        ensures memory { is_out_of_memory result ≡ false }
    {
        let (at, end) = self.place(store, i)?;
        Ok(Span::new(store, at, end))
    }
}
