//! The runs of `addsound` and `sound`.

ghost use Rattle.std.specs.Prelude.{◌≡◌, None};
ghost use Rattle.std.specs.Bool.{OnTrue};
ghost use Rattle.pw_outside.specs.Ports.{CountsFault, Rose, CountsFaults};
ghost use Rattle.pw_outside.specs.Reading.{Told};
ghost use Rattle.pw_outside.specs.Writing.{sink_state, Extends};
ghost use Rattle.pcm_track.specs.Adding.{added};
ghost use Rattle.pcm_track.specs.Sounding.{sounded};
ghost use Rattle.workshop.specs.Status.{is_read_fault, is_settled, is_write_fault, usage_of};
ghost use Rattle.workshop.specs.Sounding.{status_of, AnswersSound, WritesUntilDone, ReadsAgain, CompletesSound};

use crate::status::Status;
use pcm_track::{SoundEnd, add_run, sound_run};
use pw_outside::{ByteSink, ByteSource, ByteStore};
use sound_round::added_is_read_again;
use std::alloc::Global;

/// The status of a run's outcome.
fn status_of(end: SoundEnd) -> Status
    ensures { result ≡ status_of end }
{
    match end {
        SoundEnd::Done => Status::Done,
        SoundEnd::NoMemory => Status::NoMemory,
        SoundEnd::ReadFault => Status::ReadFault,
        SoundEnd::WriteFault => Status::WriteFault,
        SoundEnd::BadMovie { kind, place } => Status::BadMovie { kind, place },
        SoundEnd::BadSound { kind, place } => Status::BadSound { kind, place },
    }
}

/// Adds the sound of a WAV to the pictures of a movie, and prints the number of frames of each.
#[tactic(auto, using(crate::proofs::Sounded::answers_sound, crate::proofs::Sounded::writes_until))]
pub(crate) fn add_sound<M: ByteStore, S: ByteSource, K: ByteSink>(
    alloc: Global,
    movie: &mut M,
    wav: &mut S,
    out: &mut K,
    text: &mut K,
) -> Status
    ensures answer { Told (M.bytes movie.old) (λ file.
        Told (S.left wav.old) (λ bytes. AnswersSound (added file bytes).end result)) }
    ensures complete { Told (M.bytes movie.old) (λ file. Told (S.left wav.old) (λ bytes.
        (Rose (M.faults movie.old) (M.faults movie.new) → ⊥) → (Rose (S.faults wav.old) (S.faults wav.new) → ⊥)
        → (Rose (K.faults out.old) (K.faults out.new) → ⊥) → (Rose (K.faults text.old) (K.faults text.new) → ⊥)
        → CompletesSound (added file bytes).end result)) }
    ensures usage { usage_of result ≡ None }
    ensures out { Told (M.bytes movie.old) (λ file.
        Told (S.left wav.old) (λ bytes. WritesUntilDone result (added file bytes).out
        (sink_state (K.held out.old) (K.taken out.old)) (sink_state (K.held out.new) (K.taken out.new)))) }
    ensures text { Told (M.bytes movie.old) (λ file.
        Told (S.left wav.old) (λ bytes. WritesUntilDone result (added file bytes).text
        (sink_state (K.held text.old) (K.taken text.old)) (sink_state (K.held text.new) (K.taken text.new)))) }
    ensures again { Told (M.bytes movie.old) (λ file. Told (S.left wav.old) (λ bytes. ReadsAgain result file bytes
        (sink_state (K.held out.old) (K.taken out.old)) (sink_state (K.held out.new) (K.taken out.new)))) }
    ensures out_extends { Extends (sink_state (K.held out.old) (K.taken out.old))
        (sink_state (K.held out.new) (K.taken out.new)) }
    ensures text_extends { Extends (sink_state (K.held text.old) (K.taken text.old))
        (sink_state (K.held text.new) (K.taken text.new)) }
    ensures settled { OnTrue (is_settled result)
        ((K.settled out.new ≡ K.taken out.new) × (K.settled text.new ≡ K.taken text.new)) }
    ensures bytes { M.bytes movie.new ≡ M.bytes movie.old }
    ensures read { CountsFaults (M.faults movie.old) (M.faults movie.new) (S.faults wav.old) (S.faults wav.new)
        (is_read_fault result) }
    ensures write { CountsFaults (K.faults out.old) (K.faults out.new) (K.faults text.old) (K.faults text.new)
        (is_write_fault result) }
{
    added_is_read_again();
    status_of(add_run(alloc, movie, wav, out, text))
}

/// Extracts the sound of a movie as a WAV, and prints the number of frames of sound and their format.
#[tactic(auto, using(crate::proofs::Sounded::answers_sound, crate::proofs::Sounded::writes_until))]
pub(crate) fn sound<M: ByteStore, K: ByteSink>(
    alloc: Global,
    movie: &mut M,
    out: &mut K,
    text: &mut K,
) -> Status
    ensures answer { Told (M.bytes movie.old) (λ file. AnswersSound (sounded file).end result) }
    ensures complete { Told (M.bytes movie.old) (λ file. (Rose (M.faults movie.old) (M.faults movie.new) → ⊥)
        → (Rose (K.faults out.old) (K.faults out.new) → ⊥) → (Rose (K.faults text.old) (K.faults text.new) → ⊥)
        → CompletesSound (sounded file).end result) }
    ensures usage { usage_of result ≡ None }
    ensures out { Told (M.bytes movie.old) (λ file. WritesUntilDone result (sounded file).out
        (sink_state (K.held out.old) (K.taken out.old)) (sink_state (K.held out.new) (K.taken out.new))) }
    ensures text { Told (M.bytes movie.old) (λ file. WritesUntilDone result (sounded file).text
        (sink_state (K.held text.old) (K.taken text.old)) (sink_state (K.held text.new) (K.taken text.new))) }
    ensures out_extends { Extends (sink_state (K.held out.old) (K.taken out.old))
        (sink_state (K.held out.new) (K.taken out.new)) }
    ensures text_extends { Extends (sink_state (K.held text.old) (K.taken text.old))
        (sink_state (K.held text.new) (K.taken text.new)) }
    ensures settled { OnTrue (is_settled result)
        ((K.settled out.new ≡ K.taken out.new) × (K.settled text.new ≡ K.taken text.new)) }
    ensures bytes { M.bytes movie.new ≡ M.bytes movie.old }
    ensures read { CountsFault (M.faults movie.old) (M.faults movie.new) (is_read_fault result) }
    ensures write { CountsFaults (K.faults out.old) (K.faults out.new) (K.faults text.old) (K.faults text.new)
        (is_write_fault result) }
{
    status_of(sound_run(alloc, movie, out, text))
}
