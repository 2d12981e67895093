//! The run of `decode`.

ghost use Rattle.std.specs.Prelude.{◌≡◌, None, [], map};
ghost use Rattle.std.specs.Bool.{OnTrue};
ghost use Rattle.pw_outside.specs.Ports.{CountsFault, Rose, CountsFaults};
ghost use Rattle.pw_outside.specs.Reading.{Told};
ghost use Rattle.pw_outside.specs.Writing.{sink_state, Extends};
ghost use Rattle.qt_movie.specs.Movie.{movie_in};
ghost use Rattle.run_decode.specs.Running.{world};
ghost use Rattle.run_decode.specs.Laws.{WritesFrontsOf};
ghost use Rattle.workshop.specs.Status.{is_done, is_read_fault, is_settled, is_write_fault, usage_of};
ghost use Rattle.workshop.specs.Decoding.{status_of, AnswersDecode, CompletesDecode};

use crate::status::Status;
use crate::words::DecodeWords;
use monitors::Monitor;
use pw_outside::{ByteSink, ByteStore};
use run_decode::{DecodeEnd, decode_run};
use std::alloc::Global;

/// The status of a run's outcome.
fn status_of(end: DecodeEnd) -> Status
    ensures { result ≡ status_of end }
{
    match end {
        DecodeEnd::Done => Status::Done,
        DecodeEnd::NoMemory => Status::NoMemory,
        DecodeEnd::ReadFault => Status::ReadFault,
        DecodeEnd::WriteFault => Status::WriteFault,
        DecodeEnd::BadMovie { kind, place } => Status::BadMovie { kind, place },
        DecodeEnd::BadFrame {
            sample,
            kind,
            place,
        } => Status::BadFrame {
            sample,
            kind,
            place,
        },
    }
}

/// Reads a movie, writes the decoded pictures of its samples, and prints their number and the monitors' reports.
pub(crate) fn decode<M: ByteStore, K: ByteSink>(
    alloc: Global,
    words: &DecodeWords,
    movie: &mut M,
    out: &mut K,
    text: &mut K,
    monitors: &mut Vec<Box<dyn Monitor>>,
) -> Status
    ensures answer { Told (M.bytes movie.old) (λ file. AnswersDecode words.now file (movie_in file) result
        (world K.held K.taken out.old text.old (map state monitors.old.items))
        (world K.held K.taken out.new text.new (map state monitors.new.items))) }
    ensures fronts { Told (M.bytes movie.old) (λ file.
        WritesFrontsOf words.now.form words.now.depth file (movie_in file)
        (world K.held K.taken out.old text.old (map state monitors.old.items))
        (world K.held K.taken out.new text.new (map state monitors.new.items))) }
    ensures complete { Told (M.bytes movie.old) (λ file. (Rose (M.faults movie.old) (M.faults movie.new) → ⊥)
        → (Rose (K.faults out.old) (K.faults out.new) → ⊥) → (Rose (K.faults text.old) (K.faults text.new) → ⊥)
        → CompletesDecode words.now file (movie_in file) result) }
    ensures usage { usage_of result ≡ None }
    ensures out_extends { Extends (sink_state (K.held out.old) (K.taken out.old))
        (sink_state (K.held out.new) (K.taken out.new)) }
    ensures text_extends { Extends (sink_state (K.held text.old) (K.taken text.old))
        (sink_state (K.held text.new) (K.taken text.new)) }
    ensures emptied { OnTrue (is_done result) (map state monitors.new.items ≡ []) }
    ensures settled { OnTrue (is_settled result)
        ((K.settled out.new ≡ K.taken out.new) × (K.settled text.new ≡ K.taken text.new)) }
    ensures bytes { M.bytes movie.new ≡ M.bytes movie.old }
    ensures read { CountsFault (M.faults movie.old) (M.faults movie.new) (is_read_fault result) }
    ensures write { CountsFaults (K.faults out.old) (K.faults out.new) (K.faults text.old) (K.faults text.new)
        (is_write_fault result) }
{
    status_of(decode_run(alloc, movie, words.depth, words.form, out, text, monitors))
}
