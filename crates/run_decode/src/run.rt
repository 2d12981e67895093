//! The run of `decode`.

ghost use Rattle.std.specs.Prelude.{◌≡◌, ◌≤◌, ℕ, [], false, IfOk, IfErr, length, map, List};
ghost use Rattle.std.specs.Bool.{OnTrue};
ghost use Rattle.pw_outside.specs.Ports.{CountsFault, Rose, last, CountsFaults};
ghost use Rattle.pw_outside.specs.Reading.{Told};
ghost use Rattle.pw_outside.specs.Writing.{SinkState, sink_state, Extends};
ghost use Rattle.qt_tables.specs.Samples.{samples};
ghost use Rattle.qt_tables.specs.Tables.{AreTables};
ghost use Rattle.qt_movie.specs.Movie.{movie_in};
ghost use Rattle.run_decode.specs.Running.{is_done, world, Ran, RanOn, is_read_fault, is_write_fault};
ghost use Rattle.run_decode.specs.inner.Steps.{scene, is_read_end, is_write_end, with_text, ShownAll};
ghost use Rattle.run_decode.specs.Laws.{WritesFrontsOf, CompletesDecode};

use crate::end::DecodeEnd;
use crate::finish::finish;
use crate::job::{Form, Job, job_of};
use crate::laws::{runs_complete, runs_write_fronts};
use crate::turn::take_turn;
use monitors::Monitor;
use pw_outside::{ByteSink, ByteStore};
use pw_planes::Depth;
use qt_movie::MovieReader;
use qt_tables::{MovieFault, samples_are_counted};
use std::alloc::Global;

/// Shows all samples: reads each, compares it, writes its picture and tells the monitors.
fn show_all<M: ByteStore, K: ByteSink, B: Monitor>(
    alloc: Global,
    job: &Job,
    reader: &MovieReader,
    movie: &mut M,
    out: &mut K,
    monitors: &mut Vec<B>,
) -> Result<(), DecodeEnd>
    requires { AreTables reader.now.tables }
    ensures refused { IfErr result (λ e. is_done e ≡ false) }
    ensures shown { Told (M.bytes movie.old) (λ file. (text : SinkState) → text.taken ≤ last →
        ShownAll job.now file (samples reader.now.tables) (length reader.now.tables.sizes) result
        (with_text text (scene K.held K.taken out.old (map B.state monitors.old.items))) (with_text text (scene K.held K.taken out.new (map B.state monitors.new.items)))) }
    ensures extends { Extends (sink_state (K.held out.old) (K.taken out.old)) (sink_state (K.held out.new) (K.taken out.new)) }
    ensures bytes { M.bytes movie.new ≡ M.bytes movie.old }
    ensures read { CountsFault (M.faults movie.old) (M.faults movie.new) (is_read_end result) }
    ensures write { CountsFault (K.faults out.old) (K.faults out.new) (is_write_end result) }
{
    samples_are_counted();
    let mut writer = None;
    for number in 0..reader.track().samples {
        take_turn(
            alloc,
            job,
            reader,
            number,
            &mut writer,
            movie,
            out,
            monitors,
        )?;
    }
    Ok(())
}

/// Shows all samples of a movie that was read, and ends the run.
fn run_job<M: ByteStore, K: ByteSink, B: Monitor>(
    alloc: Global,
    job: &Job,
    reader: &MovieReader,
    movie: &mut M,
    out: &mut K,
    text: &mut K,
    monitors: &mut Vec<B>,
) -> DecodeEnd
    requires { AreTables reader.now.tables }
    ensures ran { Told (M.bytes movie.old) (λ file. Ran job.now file (samples reader.now.tables) result
        (world K.held K.taken out.old text.old (map B.state monitors.old.items)) (world K.held K.taken out.new text.new (map B.state monitors.new.items))) }
    ensures out_extends { Extends (sink_state (K.held out.old) (K.taken out.old)) (sink_state (K.held out.new) (K.taken out.new)) }
    ensures text_extends { Extends (sink_state (K.held text.old) (K.taken text.old)) (sink_state (K.held text.new) (K.taken text.new)) }
    ensures emptied { OnTrue (is_done result) (map B.state monitors.new.items ≡ []) }
    ensures settled { OnTrue (is_done result) ((K.settled out.new ≡ K.taken out.new) × (K.settled text.new ≡ K.taken text.new)) }
    ensures bytes { M.bytes movie.new ≡ M.bytes movie.old }
    ensures read { CountsFault (M.faults movie.old) (M.faults movie.new) (is_read_fault result) }
    ensures write { CountsFaults (K.faults out.old) (K.faults out.new) (K.faults text.old) (K.faults text.new) (is_write_fault result) }
{
    match show_all(alloc, job, reader, movie, out, monitors) {
        Ok(()) => finish(alloc, reader.track().samples, out, text, monitors),
        Err(end) => end,
    }
}

/// Reads the movie's tables, and runs over its samples.
#[tactic(auto, using(pw_outside::proofs::Puts::none_extends))]
fn run_movie<M: ByteStore, K: ByteSink, B: Monitor>(
    alloc: Global,
    movie: &mut M,
    depth: Depth,
    form: Form,
    out: &mut K,
    text: &mut K,
    monitors: &mut Vec<B>,
) -> DecodeEnd
    ensures ran { Told (M.bytes movie.old) (λ file. RanOn form depth file (movie_in file) result
        (world K.held K.taken out.old text.old (map B.state monitors.old.items)) (world K.held K.taken out.new text.new (map B.state monitors.new.items))) }
    ensures out_extends { Extends (sink_state (K.held out.old) (K.taken out.old)) (sink_state (K.held out.new) (K.taken out.new)) }
    ensures text_extends { Extends (sink_state (K.held text.old) (K.taken text.old)) (sink_state (K.held text.new) (K.taken text.new)) }
    ensures emptied { OnTrue (is_done result) (map B.state monitors.new.items ≡ []) }
    ensures settled { OnTrue (is_done result) ((K.settled out.new ≡ K.taken out.new) × (K.settled text.new ≡ K.taken text.new)) }
    ensures bytes { M.bytes movie.new ≡ M.bytes movie.old }
    ensures read { CountsFault (M.faults movie.old) (M.faults movie.new) (is_read_fault result) }
    ensures write { CountsFaults (K.faults out.old) (K.faults out.new) (K.faults text.old) (K.faults text.new) (is_write_fault result) }
{
    let reader = match MovieReader::start(alloc, movie) {
        Ok(reader) => reader,
        Err(MovieFault::Bad { kind, place }) => return DecodeEnd::BadMovie { kind, place },
        Err(MovieFault::Failed) => return DecodeEnd::ReadFault,
        Err(MovieFault::NoMemory) => return DecodeEnd::NoMemory,
    };
    let job = job_of(&reader, depth, form);
    run_job(alloc, &job, &reader, movie, out, text, monitors)
}

/// Shows the first ProRes track of a QuickTime movie: writes the pictures of its samples to `out`, at bit depth
/// `depth` and in format `form`, tells each monitor of each picture, and writes the line `pictures N` and the
/// monitors' reports to `text`. A monitor leaves the list after its report was written whole. Holds one sample's
/// picture at a time.
///
/// For each sample, in order: its place in the file; its reading; its frame's fault; the comparison with the first
/// frame (`Differs` at byte 8 of the sample, if size, sampling, fields or alpha differ); the writing; the monitors
/// in their order.
pub fn decode_run<M: ByteStore, K: ByteSink, B: Monitor>(
    alloc: Global,
    movie: &mut M,
    depth: Depth,
    form: Form,
    out: &mut K,
    text: &mut K,
    monitors: &mut Vec<B>,
) -> DecodeEnd
    // If the movie's bytes are visible, they determine the result, the bytes written, and the pictures that the
    // monitors get.
    ensures ran { Told (M.bytes movie.old) (λ file. RanOn form depth file (movie_in file) result
        (world K.held K.taken out.old text.old (map B.state monitors.old.items)) (world K.held K.taken out.new text.new (map B.state monitors.new.items))) }
    // After any result both sinks hold prefixes of what decoding writes; of a file that is no such movie nothing is
    // written.
    ensures fronts { Told (M.bytes movie.old) (λ file. WritesFrontsOf form depth file (movie_in file)
        (world K.held K.taken out.old text.old (map B.state monitors.old.items)) (world K.held K.taken out.new text.new (map B.state monitors.new.items))) }
    // If no port failed and memory lasted, a movie whose samples all lie in the file and stand for frames like the
    // first is decoded.
    ensures complete { Told (M.bytes movie.old) (λ file.
        (Rose (M.faults movie.old) (M.faults movie.new) → ⊥) → (Rose (K.faults out.old) (K.faults out.new) → ⊥) → (Rose (K.faults text.old) (K.faults text.new) → ⊥)
        → CompletesDecode form depth file (movie_in file) result) }
    // After any result, visible or opaque, each sink extends what it held.
    ensures out_extends { Extends (sink_state (K.held out.old) (K.taken out.old)) (sink_state (K.held out.new) (K.taken out.new)) }
    ensures text_extends { Extends (sink_state (K.held text.old) (K.taken text.old)) (sink_state (K.held text.new) (K.taken text.new)) }
    // After Done no monitor is left, and all that was written is flushed.
    ensures emptied { OnTrue (is_done result) (map B.state monitors.new.items ≡ []) }
    ensures settled { OnTrue (is_done result) ((K.settled out.new ≡ K.taken out.new) × (K.settled text.new ≡ K.taken text.new)) }
    ensures bytes { M.bytes movie.new ≡ M.bytes movie.old }
    // A port fault is returned only if that port's counter rose; every other result leaves the counters unchanged.
    ensures read { CountsFault (M.faults movie.old) (M.faults movie.new) (is_read_fault result) }
    ensures write { CountsFaults (K.faults out.old) (K.faults out.new) (K.faults text.old) (K.faults text.new) (is_write_fault result) }
{
    runs_write_fronts();
    runs_complete();
    run_movie(alloc, movie, depth, form, out, text, monitors)
}
