//! Listing a movie.

ghost use Rattle.std.specs.Prelude.{◌≡◌, OnOk, OnErr, false};
ghost use Rattle.std.specs.Bool.{OnTrue};
ghost use Rattle.pw_outside.specs.Ports.{CountsFault};
ghost use Rattle.pw_outside.specs.Reading.{Told};
ghost use Rattle.pw_outside.specs.Writing.{sink_state, Puts, PutsFront, Extends};
ghost use Rattle.qt_movie.specs.Movie.{movie_in};
ghost use Rattle.run_look.specs.declared.end.LookEnd.TheVariants as ends;
ghost use Rattle.qt_tables.specs.Samples.{samples};
ghost use Rattle.run_look.specs.Ends.{is_done, is_read_fault, is_write_fault, AnswersUnlessOutside};
ghost use Rattle.run_look.specs.Listing.{sample_lines, list_text, is_stopped_by_sink, list_end, PrintsList, PrintsListFront};

use crate::end::LookEnd;
use crate::lines::{put_samples, put_track};
use pw_outside::{ByteSink, ByteStore, Failed, NoMemory, put_all};
use qt_movie::MovieReader;
use qt_tables::MovieFault;
use std::alloc::Global;

/// The number of lines that are written at once.
const LINES: u32 = 256;

/// Why writing stopped.
#[derive(Clone, Copy, Debug, PartialEq, Eq)]
pub(crate) enum Stop {
    Failed,
    NoMemory,
}

impl From<Failed> for Stop {
    ghost use Rattle.std.specs.Prelude.{◌≡◌};
    ghost use Rattle.run_look.specs.declared.listing.Stop.TheVariants as stops;

    ghost from_gives = { λ _ e. e ≡ stops.Failed };

    fn from(_: Failed) -> Stop {
        Stop::Failed
    }
}

impl From<NoMemory> for Stop {
    ghost use Rattle.std.specs.Prelude.{◌≡◌};
    ghost use Rattle.run_look.specs.declared.listing.Stop.TheVariants as stops;

    ghost from_gives = { λ _ e. e ≡ stops.NoMemory };

    fn from(_: NoMemory) -> Stop {
        Stop::NoMemory
    }
}

/// Writes the lines of all samples.
fn put_all_samples<K: ByteSink>(
    alloc: Global,
    reader: &MovieReader,
    sink: &mut K,
) -> Result<(), Stop>
    ensures ok { OnOk result (Puts (sink_state (K.held sink.old) (K.taken sink.old)) (sink_state (K.held sink.new) (K.taken sink.new)) (sample_lines 0 (samples reader.now.tables))) }
    ensures err { OnErr result (PutsFront (sink_state (K.held sink.old) (K.taken sink.old)) (sink_state (K.held sink.new) (K.taken sink.new)) (sample_lines 0 (samples reader.now.tables))) }
    ensures cause { CountsFault (K.faults sink.old) (K.faults sink.new) (is_stopped_by_sink result) }
{
    let mut lines = Vec::new(alloc);
    let count = reader.track().samples;
    let mut next = 0;
    while next < count {
        let end = count.min(next.saturating_add(LINES));
        lines.clear();
        put_samples(&mut lines, reader, next, end)?;
        put_all(sink, &lines)?;
        next = end;
    }
    Ok(())
}

/// Writes the lines of the track and its samples.
fn put_list<K: ByteSink>(alloc: Global, reader: &MovieReader, sink: &mut K) -> Result<(), Stop>
    ensures ok { OnOk result (Puts (sink_state (K.held sink.old) (K.taken sink.old)) (sink_state (K.held sink.new) (K.taken sink.new)) (list_text reader.now)) }
    ensures err { OnErr result (PutsFront (sink_state (K.held sink.old) (K.taken sink.old)) (sink_state (K.held sink.new) (K.taken sink.new)) (list_text reader.now)) }
    ensures cause { CountsFault (K.faults sink.old) (K.faults sink.new) (is_stopped_by_sink result) }
{
    let mut line = Vec::new(alloc);
    put_track(&mut line, reader)?;
    put_all(sink, &line)?;
    put_all_samples(alloc, reader, sink)
}

/// Writes all lines, and flushes them.
fn print<K: ByteSink>(alloc: Global, reader: &MovieReader, sink: &mut K) -> LookEnd
    ensures answer { AnswersUnlessOutside result ends.Done }
    ensures reads { is_read_fault result ≡ false }
    ensures text { OnTrue (is_done result) (Puts (sink_state (K.held sink.old) (K.taken sink.old)) (sink_state (K.held sink.new) (K.taken sink.new)) (list_text reader.now)) }
    ensures part { PutsFront (sink_state (K.held sink.old) (K.taken sink.old)) (sink_state (K.held sink.new) (K.taken sink.new)) (list_text reader.now) }
    ensures settled { OnTrue (is_done result) (K.settled sink.new ≡ K.taken sink.new) }
    ensures cause { CountsFault (K.faults sink.old) (K.faults sink.new) (is_write_fault result) }
{
    match put_list(alloc, reader, sink) {
        Ok(()) => match sink.flush() {
            Ok(()) => LookEnd::Done,
            Err(_) => LookEnd::WriteFault,
        },
        Err(Stop::Failed) => LookEnd::WriteFault,
        Err(Stop::NoMemory) => LookEnd::NoMemory,
    }
}

/// Reads a QuickTime movie, and writes a line for its first ProRes track and one for each of the track's samples.
/// Doesn't hold the text in memory.
#[tactic(auto, using(pw_outside::proofs::Puts::none_extends, pw_outside::proofs::Puts::front_extends))]
pub fn list_run<M: ByteStore, K: ByteSink>(alloc: Global, movie: &mut M, text: &mut K) -> LookEnd
    // If the movie's bytes are visible, they determine the result: BadMovie is their first fault, and comes exactly
    // if they are no movie with a ProRes track.
    ensures answer { Told (M.bytes movie.old) (λ file. AnswersUnlessOutside result (list_end (movie_in file))) }
    // After Done the whole text of the movie was appended.
    ensures text { Told (M.bytes movie.old) (λ file. OnTrue (is_done result)
        (PrintsList (movie_in file) (sink_state (K.held text.old) (K.taken text.old)) (sink_state (K.held text.new) (K.taken text.new)))) }
    // After any result a prefix of it was appended, or nothing if the file is no such movie.
    ensures part { Told (M.bytes movie.old) (λ file.
        PrintsListFront (movie_in file) (sink_state (K.held text.old) (K.taken text.old)) (sink_state (K.held text.new) (K.taken text.new))) }
    // Visible or opaque, the text extends what was held.
    ensures extends { Extends (sink_state (K.held text.old) (K.taken text.old)) (sink_state (K.held text.new) (K.taken text.new)) }
    ensures settled { OnTrue (is_done result) (K.settled text.new ≡ K.taken text.new) }
    ensures bytes { M.bytes movie.new ≡ M.bytes movie.old }
    // A port fault is returned only if that port's counter rose; every other result leaves both counters unchanged.
    ensures read { CountsFault (M.faults movie.old) (M.faults movie.new) (is_read_fault result) }
    ensures write { CountsFault (K.faults text.old) (K.faults text.new) (is_write_fault result) }
{
    let reader = match MovieReader::start(alloc, movie) {
        Ok(reader) => reader,
        Err(MovieFault::Bad { kind, place }) => return LookEnd::BadMovie { kind, place },
        Err(MovieFault::Failed) => return LookEnd::ReadFault,
        Err(MovieFault::NoMemory) => return LookEnd::NoMemory,
    };
    print(alloc, &reader, text)
}
