//! The runs of `check`.

ghost use Rattle.std.specs.Prelude.{◌≡◌, None};
ghost use Rattle.std.specs.Bool.{OnTrue};
ghost use Rattle.std.specs.Io.KnownBytes.{IsAtEnd};
ghost use Rattle.pw_outside.specs.Ports.{CountsFault, Rose};
ghost use Rattle.pw_outside.specs.Reading.{Told};
ghost use Rattle.pw_outside.specs.Writing.{sink_state, Extends};
ghost use Rattle.run_look.specs.Checking.{ChecksAlone};
ghost use Rattle.run_look.specs.Agreeing.{Checks, CountsReads};
ghost use Rattle.workshop.specs.Status.{is_done, is_read_fault, is_settled, is_write_fault, usage_of};
ghost use Rattle.workshop.specs.Checking.{AnswersCheck, PrintsChecked, CompletesCheck};

use crate::listing::status_of;
use crate::status::Status;
use pw_outside::{ByteSink, ByteSource, ByteStore};
use run_look::{check_proof_run, check_run};
use std::alloc::Global;

/// Checks a proof by itself, and prints the number of its records.
#[tactic(auto, using(crate::proofs::Checked::answers_check, crate::proofs::Checked::prints_checked))]
pub(crate) fn check<S: ByteSource, K: ByteSink>(
    alloc: Global,
    proof: &mut S,
    text: &mut K,
) -> Status
    ensures answer { Told (S.left proof.old) (λ bytes. AnswersCheck (ChecksAlone bytes) result) }
    ensures complete { Told (S.left proof.old) (λ bytes. (Rose (S.faults proof.old) (S.faults proof.new) → ⊥)
        → (Rose (K.faults text.old) (K.faults text.new) → ⊥) → CompletesCheck result (ChecksAlone bytes)) }
    ensures usage { usage_of result ≡ None }
    ensures text { Told (S.left proof.old) (λ bytes.
        PrintsChecked (ChecksAlone bytes) result (sink_state (K.held text.old) (K.taken text.old))
        (sink_state (K.held text.new) (K.taken text.new))) }
    ensures extends { Extends (sink_state (K.held text.old) (K.taken text.old))
        (sink_state (K.held text.new) (K.taken text.new)) }
    ensures settled { OnTrue (is_settled result) (K.settled text.new ≡ K.taken text.new) }
    ensures end { OnTrue (is_done result) (IsAtEnd (S.left proof.new)) }
    ensures read { CountsFault (S.faults proof.old) (S.faults proof.new) (is_read_fault result) }
    ensures write { CountsFault (K.faults text.old) (K.faults text.new) (is_write_fault result) }
{
    status_of(check_proof_run(alloc, proof, text))
}

/// Checks a proof with its pictures and its movie, and prints the number of its records.
#[tactic(auto, using(crate::proofs::Checked::answers_check, crate::proofs::Checked::prints_checked))]
pub(crate) fn check_all<S: ByteSource, M: ByteStore, K: ByteSink>(
    alloc: Global,
    proof: &mut S,
    pictures: &mut S,
    movie: &mut M,
    text: &mut K,
) -> Status
    ensures answer { Told (S.left proof.old) (λ bytes.
        Told (M.bytes movie.old) (λ file. Told (S.left pictures.old) (λ shown.
        AnswersCheck (Checks bytes file shown) result))) }
    ensures complete { Told (S.left proof.old) (λ bytes.
        Told (M.bytes movie.old) (λ file. Told (S.left pictures.old) (λ shown.
        (Rose (S.faults proof.old) (S.faults proof.new) → ⊥) → (Rose (M.faults movie.old) (M.faults movie.new) → ⊥)
        → (Rose (S.faults pictures.old) (S.faults pictures.new) → ⊥)
        → (Rose (K.faults text.old) (K.faults text.new) → ⊥)
        → CompletesCheck result (Checks bytes file shown)))) }
    ensures usage { usage_of result ≡ None }
    ensures text { Told (S.left proof.old) (λ bytes.
        Told (M.bytes movie.old) (λ file. Told (S.left pictures.old) (λ shown.
        PrintsChecked (Checks bytes file shown) result (sink_state (K.held text.old) (K.taken text.old))
        (sink_state (K.held text.new) (K.taken text.new))))) }
    ensures extends { Extends (sink_state (K.held text.old) (K.taken text.old))
        (sink_state (K.held text.new) (K.taken text.new)) }
    ensures settled { OnTrue (is_settled result) (K.settled text.new ≡ K.taken text.new) }
    ensures end { OnTrue (is_done result) (IsAtEnd (S.left proof.new) × IsAtEnd (S.left pictures.new)) }
    ensures bytes { M.bytes movie.new ≡ M.bytes movie.old }
    ensures read { CountsReads (S.faults proof.old) (S.faults proof.new) (M.faults movie.old) (M.faults movie.new)
        (S.faults pictures.old) (S.faults pictures.new) (is_read_fault result) }
    ensures write { CountsFault (K.faults text.old) (K.faults text.new) (is_write_fault result) }
{
    status_of(check_run(alloc, proof, pictures, movie, text))
}
