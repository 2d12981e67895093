//! The run of `rescue`.

ghost use Rattle.std.specs.Prelude.{◌≡◌, ℕ, List};
ghost use Rattle.std.specs.Bool.{OnTrue};
ghost use Rattle.pw_outside.specs.Ports.{CountsFault, Rose, CountsFaults};
ghost use Rattle.pw_outside.specs.Reading.{Told};
ghost use Rattle.pw_outside.specs.Writing.{sink_state, Puts, Extends};
ghost use Rattle.rescue_run.specs.Rescuing.{IsRate, world, Ran, is_done, is_read_fault, is_write_fault};
ghost use Rattle.rescue_run.specs.Laws.{WritesFronts, AnswersRescue, IsMovieOf};

use crate::end::RescueEnd;
use crate::finish::finish;
use crate::form::Rate;
use crate::gather::gather;
use crate::laws::{rescued_movie_is_read, rescuing_is_one, runs_write_fronts};
use pw_outside::{ByteSink, ByteStore};
use qt_tables::MovieKind;
use std::alloc::Global;

/// Gathers the frames, and writes the movie and the text.
fn rescue<M: ByteStore, K: ByteSink>(
    alloc: Global,
    movie: &mut M,
    rate: &Rate,
    out: &mut K,
    text: &mut K,
) -> RescueEnd
    requires rate { IsRate rate.now }
    ensures ran { Told (M.bytes movie.old) (λ file. Ran rate.now file result (world K.held K.taken out.old text.old) (world K.held K.taken out.new text.new)) }
    ensures out_extends { Extends (sink_state (K.held out.old) (K.taken out.old)) (sink_state (K.held out.new) (K.taken out.new)) }
    ensures text_extends { Extends (sink_state (K.held text.old) (K.taken text.old)) (sink_state (K.held text.new) (K.taken text.new)) }
    ensures settled { OnTrue (is_done result) ((K.settled out.new ≡ K.taken out.new) × (K.settled text.new ≡ K.taken text.new)) }
    ensures bytes { M.bytes movie.new ≡ M.bytes movie.old }
    ensures read { CountsFault (M.faults movie.old) (M.faults movie.new) (is_read_fault result) }
    ensures write { CountsFaults (K.faults out.old) (K.faults out.new) (K.faults text.old) (K.faults text.new) (is_write_fault result) }
{
    match gather(alloc, movie, rate, out) {
        Ok(Some(gathered)) => finish(alloc, gathered, out, text),
        Ok(None) => RescueEnd::BadMovie {
            kind: MovieKind::NoFrames,
            place: 0,
        },
        Err(end) => end,
    }
}

/// Searches a file whose tables are lost for ProRes frames, and writes a movie of those that have the form of the
/// first. Writes the movie to `out`, at a rate of `num` frames in `den` seconds, and to `text` a line for each
/// frame with its offset in the file, then the line `frames N`. Atoms aren't read.
///
/// If a frame lies at the current offset, and has the size, the sampling, the fields and the alpha of the first, it
/// is taken, and the search continues after it; otherwise the search continues one byte further. The file type is
/// written when the first frame is found, each frame when it is found, and the text after the movie.
pub fn rescue_run<M: ByteStore, K: ByteSink>(
    alloc: Global,
    movie: &mut M,
    num: u32,
    den: u32,
    out: &mut K,
    text: &mut K,
) -> RescueEnd
    requires rate { IsRate (record { num = num; den = den }) }
    // If the file's bytes are visible, they determine the result and everything that is written: Done comes with
    // the movie of the chain's frames and its text; BadMovie exactly if there is no frame, or more than 1,000,000;
    // a port fault or missing memory with a prefix.
    ensures ran { Told (M.bytes movie.old) (λ file. Ran (record { num = num; den = den }) file result
        (world K.held K.taken out.old text.old) (world K.held K.taken out.new text.new)) }
    // After any result both sinks hold prefixes of what rescuing writes.
    ensures fronts { Told (M.bytes movie.old) (λ file. WritesFronts (record { num = num; den = den }) file
        (world K.held K.taken out.old text.old) (world K.held K.taken out.new text.new)) }
    // If no port failed and memory lasted, the result is the outcome of rescuing.
    ensures complete { Told (M.bytes movie.old) (λ file.
        (Rose (M.faults movie.old) (M.faults movie.new) → ⊥) → (Rose (K.faults out.old) (K.faults out.new) → ⊥) → (Rose (K.faults text.old) (K.faults text.new) → ⊥)
        → AnswersRescue file result) }
    // After Done the bytes appended to `out` are read back as a movie with the chain's frames as its samples, byte
    // for byte.
    ensures read_again { Told (M.bytes movie.old) (λ file. OnTrue (is_done result)
        ((bytes : List ℕ) × Puts (sink_state (K.held out.old) (K.taken out.old)) (sink_state (K.held out.new) (K.taken out.new)) bytes × IsMovieOf file bytes)) }
    // After any result, visible or opaque, each sink extends what it held.
    ensures out_extends { Extends (sink_state (K.held out.old) (K.taken out.old)) (sink_state (K.held out.new) (K.taken out.new)) }
    ensures text_extends { Extends (sink_state (K.held text.old) (K.taken text.old)) (sink_state (K.held text.new) (K.taken text.new)) }
    // After Done all that was written is flushed.
    ensures settled { OnTrue (is_done result) ((K.settled out.new ≡ K.taken out.new) × (K.settled text.new ≡ K.taken text.new)) }
    ensures bytes { M.bytes movie.new ≡ M.bytes movie.old }
    // A port fault is returned only if that port's counter rose; every other result leaves the counters unchanged.
    ensures read { CountsFault (M.faults movie.old) (M.faults movie.new) (is_read_fault result) }
    ensures write { CountsFaults (K.faults out.old) (K.faults out.new) (K.faults text.old) (K.faults text.new) (is_write_fault result) }
{
    rescuing_is_one();
    runs_write_fronts();
    rescued_movie_is_read();
    rescue(alloc, movie, &Rate { num, den }, out, text)
}
