//! The run of `list`.

ghost use Rattle.std.specs.Prelude.{◌≡◌, None};
ghost use Rattle.std.specs.Bool.{OnTrue};
ghost use Rattle.pw_outside.specs.Ports.{CountsFault};
ghost use Rattle.pw_outside.specs.Reading.{Told};
ghost use Rattle.pw_outside.specs.Writing.{sink_state, Extends};
ghost use Rattle.qt_movie.specs.Movie.{movie_in};
ghost use Rattle.run_look.specs.Listing.{PrintsList, PrintsListFront};
ghost use Rattle.workshop.specs.Status.{is_done, is_read_fault, is_settled, is_write_fault, usage_of};
ghost use Rattle.workshop.specs.Listing.{status_of, AnswersList};

use crate::status::Status;
use pw_outside::{ByteSink, ByteStore};
use run_look::{LookEnd, list_run};
use std::alloc::Global;

/// The status of a run's outcome.
pub(crate) fn status_of(end: LookEnd) -> Status
    ensures { result ≡ status_of end }
{
    match end {
        LookEnd::Done => Status::Done,
        LookEnd::NoMemory => Status::NoMemory,
        LookEnd::ReadFault => Status::ReadFault,
        LookEnd::WriteFault => Status::WriteFault,
        LookEnd::BadPictures { kind, place } => Status::BadPictures { kind, place },
        LookEnd::BadMovie { kind, place } => Status::BadMovie { kind, place },
        LookEnd::BadFrame {
            sample,
            kind,
            place,
        } => Status::BadFrame {
            sample,
            kind,
            place,
        },
        LookEnd::BadProof { kind, place } => Status::BadProof { kind, place },
        LookEnd::Refused { frame, clause } => Status::Refused { frame, clause },
    }
}

/// Reads a movie, and prints its track and its samples.
pub(crate) fn list<M: ByteStore, K: ByteSink>(alloc: Global, movie: &mut M, text: &mut K) -> Status
    ensures answer { Told (M.bytes movie.old) (λ file. AnswersList (movie_in file) result) }
    ensures usage { usage_of result ≡ None }
    ensures text { Told (M.bytes movie.old) (λ file. OnTrue (is_done result)
        (PrintsList (movie_in file) (sink_state (K.held text.old) (K.taken text.old))
        (sink_state (K.held text.new) (K.taken text.new)))) }
    ensures part { Told (M.bytes movie.old) (λ file.
        PrintsListFront (movie_in file) (sink_state (K.held text.old) (K.taken text.old))
        (sink_state (K.held text.new) (K.taken text.new))) }
    ensures extends { Extends (sink_state (K.held text.old) (K.taken text.old))
        (sink_state (K.held text.new) (K.taken text.new)) }
    ensures settled { OnTrue (is_settled result) (K.settled text.new ≡ K.taken text.new) }
    ensures bytes { M.bytes movie.new ≡ M.bytes movie.old }
    ensures read { CountsFault (M.faults movie.old) (M.faults movie.new) (is_read_fault result) }
    ensures write { CountsFault (K.faults text.old) (K.faults text.new) (is_write_fault result) }
{
    status_of(list_run(alloc, movie, text))
}
