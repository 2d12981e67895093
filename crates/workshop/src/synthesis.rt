//! The run of `synth`.

ghost use Rattle.std.specs.Prelude.{◌≡◌, None, false};
ghost use Rattle.std.specs.Bool.{OnTrue};
ghost use Rattle.pw_outside.specs.Ports.{CountsFault, Rose};
ghost use Rattle.pw_outside.specs.Writing.{sink_state, Extends};
ghost use Rattle.run_synth.specs.Synthesis.{AreSynthWords};
ghost use Rattle.workshop.specs.Status.{is_read_fault, is_settled, is_write_fault, usage_of};
ghost use Rattle.workshop.specs.Synthesis.{status_of, AnswersSynth, CompletesSynth};

use crate::status::Status;
use pw_outside::ByteSink;
use run_synth::{SynthEnd, SynthWords, synth_run};
use std::alloc::Global;

/// The status of a run's outcome.
fn status_of(end: SynthEnd) -> Status
    ensures { result ≡ status_of end }
{
    match end {
        SynthEnd::Done => Status::Done,
        SynthEnd::NoMemory => Status::NoMemory,
        SynthEnd::WriteFault => Status::WriteFault,
        SynthEnd::TooSmall { frame, least } => Status::TooSmall { frame, least },
        SynthEnd::LayersFull { frame } => Status::LayersFull { frame },
    }
}

/// Generates pictures, encodes, decodes and checks them in memory, and prints the results.
pub(crate) fn synth<K: ByteSink>(alloc: Global, words: &SynthWords, text: &mut K) -> Status
    requires { AreSynthWords words.now }
    ensures answer { AnswersSynth words.now result (sink_state (K.held text.old) (K.taken text.old))
        (sink_state (K.held text.new) (K.taken text.new)) }
    ensures complete { (Rose (K.faults text.old) (K.faults text.new) → ⊥) → CompletesSynth words.now result }
    ensures usage { usage_of result ≡ None }
    ensures extends { Extends (sink_state (K.held text.old) (K.taken text.old))
        (sink_state (K.held text.new) (K.taken text.new)) }
    ensures settled { OnTrue (is_settled result) (K.settled text.new ≡ K.taken text.new) }
    ensures read { is_read_fault result ≡ false }
    ensures write { CountsFault (K.faults text.old) (K.faults text.new) (is_write_fault result) }
{
    status_of(synth_run(alloc, words, text))
}
