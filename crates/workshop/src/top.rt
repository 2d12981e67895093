//! The top call.

ghost use Rattle.std.specs.Prelude.{◌≡◌, [], map};
ghost use Rattle.std.specs.Bool.{OnTrue};
ghost use Rattle.workshop.specs.Status.{is_done, usage_of};
ghost use Rattle.workshop.specs.Words.{said, usage_fault, tells_monitors};
ghost use Rattle.workshop.specs.World.{given, world, Unused, KeepsPorts};
ghost use Rattle.workshop.specs.Runs.{Runs};
ghost use Rattle.workshop.specs.Means.{Means};
ghost use Rattle.workshop.specs.Completes.{Completes};

use crate::checking::{check, check_all};
use crate::decode::decode;
use crate::encode::encode;
use crate::least::{check_least, curve, least};
use crate::listing::list;
use crate::plan::plan;
use crate::reproofing::reproof;
use crate::rescuing::rescue;
use crate::sounding::{add_sound, sound};
use crate::status::Status;
use crate::synthesis::synth;
use crate::words::{Task, settings_of};
use monitors::Monitor;
use pw_outside::{ByteSink, ByteSource, ByteStore};
use std::alloc::Global;

/// Runs the command that `words` name, over the given ports. `words` are the command-line words after the program's
/// name; `text` is standard output.
///
/// - `plan TABLE`: reads a table file from `proof`; writes its best choice, or that none fits, to `text`.
/// - `encode PICTURES MOVIE PROOF`: reads `pictures`; writes a movie to `out`, a proof that each group's choice is
///   best to `cert`, and a line for each frame to `text`.
/// - `list MOVIE`: reads `movie`; writes a line for its first track of ProRes and for each sample to `text`.
/// - `check PROOF`: reads `proof` and checks each record by itself; writes the number of records to `text`.
/// - `check PROOF PICTURES MOVIE`: the same, with each frame's picture from `pictures` and sample from `movie`.
/// - `reproof PROOF OUTPUT`: reads `proof`; rewrites it in format 2 to `cert`, and the number of records to `text`.
/// - `decode MOVIE OUT`: reads `movie`; writes the pictures of its first track of ProRes to `out`, reports each
///   picture to each monitor, and writes their number and the monitors' reports to `text`.
/// - `rescue FILE OUT`: finds frames of ProRes in `movie`; writes a movie of those like the first to `out`, and a
///   line for each to `text`.
/// - `addsound MOVIE WAV OUT`: reads `movie`, and a WAV from `pictures`; writes a movie of both to `out`, and the
///   numbers of frames to `text`.
/// - `sound MOVIE OUT`: reads `movie`; writes its first track of plain PCM sound as a WAV to `out`, and its length
///   and format to `text`.
/// - `least TABLE CERT`: reads a table file from `proof`; writes a certificate of its smallest choice of error at
///   most `--cap` to `cert`, and the choice, or that there is none, to `text`.
/// - `checkleast CERT`: reads such a certificate from `proof` and checks it; writes `yes` to `text`.
/// - `curve TABLE`: reads a table file from `proof`; writes each undominated pair of size and error to `text`.
/// - `synth W H FRAMES SEED BUDGET`: generates, encodes, decodes and checks pictures in memory; writes the results
///   to `text`.
#[tactic(auto, using(run_look::proofs::Texts::none_extends))]
pub fn workshop<S: ByteSource, M: ByteStore, K: ByteSink>(
    alloc: Global,
    words: &[String],
    pictures: &mut S,
    proof: &mut S,
    movie: &mut M,
    out: &mut K,
    cert: &mut K,
    text: &mut K,
    monitors: &mut Vec<Box<dyn Monitor>>,
) -> Status
    // The status is Usage if and only if the words aren't in the grammar, with their first error.
    ensures usage { usage_of result ≡ usage_fault (said words.now) }
    // A port that the run didn't use is unchanged, and so are the monitors if the command reports nothing to them.
    ensures unused { Unused (said words.now)
        (given pictures.old proof.old movie.old out.old cert.old text.old monitors.old)
        (given pictures.new proof.new movie.new out.new cert.new text.new monitors.new) result }
    // Sinks only grow; a port's fault is reported only if it failed; Done has read its streams and flushed its sinks.
    ensures io { KeepsPorts (said words.now)
        (world S.left S.faults M.bytes M.faults K.held K.taken K.settled K.faults
        pictures.old proof.old movie.old out.old cert.old text.old (map state monitors.old.items))
        (world S.left S.faults M.bytes M.faults K.held K.taken K.settled K.faults
        pictures.new proof.new movie.new out.new cert.new text.new (map state monitors.new.items))
        result }
    // If the bytes that are read are visible, they decide the status and every byte that is written.
    ensures runs { Runs (said words.now)
        (world S.left S.faults M.bytes M.faults K.held K.taken K.settled K.faults
        pictures.old proof.old movie.old out.old cert.old text.old (map state monitors.old.items))
        (world S.left S.faults M.bytes M.faults K.held K.taken K.settled K.faults
        pictures.new proof.new movie.new out.new cert.new text.new (map state monitors.new.items))
        result }
    // What was written means what the command promises: the headline of `encode` among them.
    ensures means { Means (said words.now)
        (world S.left S.faults M.bytes M.faults K.held K.taken K.settled K.faults
        pictures.old proof.old movie.old out.old cert.old text.old (map state monitors.old.items))
        (world S.left S.faults M.bytes M.faults K.held K.taken K.settled K.faults
        pictures.new proof.new movie.new out.new cert.new text.new (map state monitors.new.items))
        result }
    // If no port that the command uses failed, a valid input is Done, unless memory runs out.
    ensures complete { Completes (said words.now)
        (world S.left S.faults M.bytes M.faults K.held K.taken K.settled K.faults
        pictures.old proof.old movie.old out.old cert.old text.old (map state monitors.old.items))
        (world S.left S.faults M.bytes M.faults K.held K.taken K.settled K.faults
        pictures.new proof.new movie.new out.new cert.new text.new (map state monitors.new.items))
        result }
    // After Done of `decode` no monitor is left in the list.
    ensures emptied { OnTrue (tells_monitors (said words.now))
        (OnTrue (is_done result) (map state monitors.new.items ≡ [])) }
{
    let settings = match settings_of(words) {
        Ok(settings) => settings,
        Err(bad) => {
            return Status::Usage {
                kind: bad.kind,
                word: bad.word,
            };
        }
    };
    match settings.task {
        Task::Plan => plan(alloc, proof, text),
        Task::Encode(values) => encode(alloc, &values, pictures, out, cert, text),
        Task::List => list(alloc, movie, text),
        Task::Check => check(alloc, proof, text),
        Task::CheckAll => check_all(alloc, proof, pictures, movie, text),
        Task::Reproof => reproof(alloc, proof, cert, text),
        Task::Decode(values) => decode(alloc, &values, movie, out, text, monitors),
        Task::Rescue(rate) => rescue(alloc, rate, movie, out, text),
        Task::AddSound => add_sound(alloc, movie, pictures, out, text),
        Task::Sound => sound(alloc, movie, out, text),
        Task::Least(cap) => least(alloc, cap, proof, cert, text),
        Task::CheckLeast => check_least(alloc, proof, text),
        Task::Curve => curve(alloc, proof, text),
        Task::Synth(numbers) => synth(alloc, &numbers, text),
    }
}
