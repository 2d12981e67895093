//! The run of `synth`.

ghost use Rattle.std.specs.Prelude.{◌≡◌, false, IfOk, []};
ghost use Rattle.std.specs.Bool.{OnTrue, OnFalse};
ghost use Rattle.pw_outside.specs.Ports.{CountsFault, Rose};
ghost use Rattle.pw_outside.specs.Writing.{sink_state, Puts, PutsFront, Extends};
ghost use Rattle.run_synth.specs.Synthesis.{AreSynthWords, PrintsOn, RanOn, CompletesSynth, is_settled, is_write_fault};
ghost use Rattle.run_synth.specs.inner.Parts.{AreEncoded};

use crate::encoding::{Coded, Files, Said, encode, synthetic_in};
use crate::end::SynthEnd;
use crate::looking::{check, decode};
use crate::ports::Input;
use crate::words::SynthWords;
use pic_synth::{SyntheticSource, synthetic_is_meant};
use pw_outside::{ByteSink, NoMemory, put_all};
use run_round::{encoded_is_checked, encoded_is_decoded};
use std::alloc::Global;

/// Decodes and checks the encoded files, and appends what both print.
fn look(alloc: Global, words: &SynthWords, files: Files) -> Result<Said, NoMemory>
    requires words { AreSynthWords words.now }
    requires encoded { AreEncoded words.now files.movie.bytes.items files.proof.bytes.items files.text.bytes.items }
    ensures { IfOk result (λ said. PrintsOn words.now said.end said.text.bytes.items) }
{
    encoded_is_decoded();
    encoded_is_checked();
    synthetic_is_meant();
    let Files {
        mut movie,
        proof,
        mut text,
    } = files;
    decode(alloc, &mut movie, &mut text)?;
    let mut proof = Input::Held(proof.rewound());
    let mut pictures = Input::Synthetic(SyntheticSource::new(synthetic_in(words)));
    check(alloc, &mut proof, &mut pictures, &mut movie, &mut text)?;
    Ok(Said {
        end: SynthEnd::Done,
        text,
    })
}

/// Encodes the pictures, and decodes and checks the result. Returns the outcome and the text.
fn synthesis(alloc: Global, words: &SynthWords) -> Result<Said, NoMemory>
    requires { AreSynthWords words.now }
    ensures { IfOk result (λ said. PrintsOn words.now said.end said.text.bytes.items) }
{
    match encode(alloc, words) {
        Coded::Whole(files) => look(alloc, words, files),
        Coded::Cut(said) => Ok(said),
        Coded::NoMemory => Err(NoMemory),
    }
}

/// Flushes the text of a run with outcome `end`.
fn flush<K: ByteSink>(end: SynthEnd, text: &mut K) -> SynthEnd
    requires { is_write_fault end ≡ false }
    ensures end { OnFalse (is_write_fault result) (result ≡ end) }
    ensures puts { Puts (sink_state (K.held text.old) (K.taken text.old))
        (sink_state (K.held text.new) (K.taken text.new)) [] }
    ensures settled { OnFalse (is_write_fault result) (K.settled text.new ≡ K.taken text.new) }
    ensures write { CountsFault (K.faults text.old) (K.faults text.new) (is_write_fault result) }
{
    match text.flush() {
        Ok(()) => end,
        Err(_) => SynthEnd::WriteFault,
    }
}

/// Writes the text of a run with outcome `end`.
fn tell<K: ByteSink>(end: SynthEnd, printed: &[u8], text: &mut K) -> SynthEnd
    requires { is_write_fault end ≡ false }
    ensures whole { OnFalse (is_write_fault result)
        ((result ≡ end) × Puts (sink_state (K.held text.old) (K.taken text.old))
        (sink_state (K.held text.new) (K.taken text.new)) printed.now) }
    ensures front { OnTrue (is_write_fault result)
        (PutsFront (sink_state (K.held text.old) (K.taken text.old))
        (sink_state (K.held text.new) (K.taken text.new)) printed.now) }
    ensures settled { OnFalse (is_write_fault result) (K.settled text.new ≡ K.taken text.new) }
    ensures write { CountsFault (K.faults text.old) (K.faults text.new) (is_write_fault result) }
{
    match put_all(text, printed) {
        Ok(()) => flush(end, text),
        Err(_) => SynthEnd::WriteFault,
    }
}

/// Generates pictures, encodes them in memory, decodes the movie, and checks the proof with the movie and the
/// pictures. Writes to `text` what encoding prints, then the line `pictures N`, and then the line `records N yes`.
///
/// The pictures have 4:2:2 and 10 bits, are progressive, 25 a second: a staircase of levels that moves from frame
/// to frame, with three bits of noise. They are encoded as raw planes, with indices 1 to 64, slices of eight
/// macroblocks, the flat matrix, a group for each frame, and a proof in format 2. If encoding is refused, nothing
/// is decoded or checked, and its text is the whole text. The text is written after all else is done.
pub fn synth_run<K: ByteSink>(alloc: Global, words: &SynthWords, text: &mut K) -> SynthEnd
    requires words { AreSynthWords words.now }
    // The operands decide the outcome and the text. After Done: the text of encoding the pictures, the number of
    // decoded pictures and the number of good records. After TooSmall and LayersFull: the text of encoding alone.
    // After a write fault: a prefix of these.
    ensures ran { RanOn words.now result (sink_state (K.held text.old) (K.taken text.old))
        (sink_state (K.held text.new) (K.taken text.new)) }
    // If the text's port didn't fail, pictures that each have a fitting choice and Pareto frontiers without too
    // many pairs are encoded, decoded and checked, unless memory runs out.
    ensures complete { (Rose (K.faults text.old) (K.faults text.new) → ⊥) → CompletesSynth words.now result }
    // For every outcome the text extends what was held.
    ensures extends { Extends (sink_state (K.held text.old) (K.taken text.old))
        (sink_state (K.held text.new) (K.taken text.new)) }
    // After Done and TooSmall all that was written is flushed.
    ensures settled { OnTrue (is_settled result) (K.settled text.new ≡ K.taken text.new) }
    // A write fault is the outcome only if the port's fault count rose; every other outcome leaves the count
    // unchanged.
    ensures write { CountsFault (K.faults text.old) (K.faults text.new) (is_write_fault result) }
{
    match synthesis(alloc, words) {
        Ok(said) => tell(said.end, said.text.bytes(), text),
        Err(NoMemory) => SynthEnd::NoMemory,
    }
}
