//! The runs of `least`, `checkleast` and `curve`.

ghost use Rattle.std.specs.Prelude.{◌≡◌, None};
ghost use Rattle.std.specs.Bool.{OnTrue};
ghost use Rattle.std.specs.Io.KnownBytes.{IsAtEnd};
ghost use Rattle.pw_outside.specs.Ports.{CountsFault, Rose, CountsFaults};
ghost use Rattle.pw_outside.specs.Reading.{Told};
ghost use Rattle.pw_outside.specs.Writing.{sink_state, Extends};
ghost use Rattle.rate_table.specs.Reading.{tabled};
ghost use Rattle.rate_least.specs.Files.{certified};
ghost use Rattle.rate_least.specs.Ends.{PrintsLines};
ghost use Rattle.rate_least.specs.Runs.{AnswersCheck, AnswersCurve, SaysTrue, yes_text, PrintsText, IsCurveText};
ghost use Rattle.workshop.specs.Status.{is_done, is_read_fault, is_settled, is_write_fault, usage_of};
ghost use Rattle.workshop.specs.Least.{status_of, Ended, AnswersLeast, CompletesLeast, CompletesCheckLeast, CompletesCurve};

use crate::status::Status;
use pw_outside::{ByteSink, ByteSource};
use rate_least::{LeastEnd, checkleast_run, curve_run, least_run};
use std::alloc::Global;

/// The status of a run's outcome. The frame of a table or a certificate is 0.
fn status_of(end: LeastEnd) -> Status
    ensures { result ≡ status_of end }
{
    match end {
        LeastEnd::Done => Status::Done,
        LeastEnd::NoMemory => Status::NoMemory,
        LeastEnd::ReadFault => Status::ReadFault,
        LeastEnd::WriteFault => Status::WriteFault,
        LeastEnd::LayersFull => Status::LayersFull { frame: 0 },
        LeastEnd::BadProof { kind, place } => Status::BadProof { kind, place },
        LeastEnd::Refused { clause } => Status::Refused { frame: 0, clause },
    }
}

/// Finds the smallest choice of a table file under a cap on the error, writes its certificate, and prints it.
pub(crate) fn least<S: ByteSource, K: ByteSink>(
    alloc: Global,
    cap: u64,
    proof: &mut S,
    cert: &mut K,
    text: &mut K,
) -> Status
    ensures answer { Told (S.left proof.old) (λ bytes. AnswersLeast cap (tabled bytes) result
        (sink_state (K.held cert.old) (K.taken cert.old)) (sink_state (K.held cert.new) (K.taken cert.new))
        (sink_state (K.held text.old) (K.taken text.old)) (sink_state (K.held text.new) (K.taken text.new))) }
    ensures complete { Told (S.left proof.old) (λ bytes. (Rose (S.faults proof.old) (S.faults proof.new) → ⊥)
        → (Rose (K.faults cert.old) (K.faults cert.new) → ⊥) → (Rose (K.faults text.old) (K.faults text.new) → ⊥)
        → CompletesLeast cap (tabled bytes) result) }
    ensures usage { usage_of result ≡ None }
    ensures cert_extends { Extends (sink_state (K.held cert.old) (K.taken cert.old))
        (sink_state (K.held cert.new) (K.taken cert.new)) }
    ensures text_extends { Extends (sink_state (K.held text.old) (K.taken text.old))
        (sink_state (K.held text.new) (K.taken text.new)) }
    ensures settled { OnTrue (is_settled result)
        ((K.settled cert.new ≡ K.taken cert.new) × (K.settled text.new ≡ K.taken text.new)) }
    ensures end { OnTrue (is_done result) (IsAtEnd (S.left proof.new)) }
    ensures read { CountsFault (S.faults proof.old) (S.faults proof.new) (is_read_fault result) }
    ensures write { CountsFaults (K.faults cert.old) (K.faults cert.new) (K.faults text.old) (K.faults text.new)
        (is_write_fault result) }
{
    status_of(least_run(alloc, proof, cap, cert, text))
}

/// Checks a certificate, and prints `yes`.
pub(crate) fn check_least<S: ByteSource, K: ByteSink>(
    alloc: Global,
    proof: &mut S,
    text: &mut K,
) -> Status
    ensures answer { Told (S.left proof.old) (λ bytes. Ended result (λ end. AnswersCheck (certified bytes) end)) }
    ensures sound { Told (S.left proof.old) (λ bytes. OnTrue (is_done result) (SaysTrue (certified bytes))) }
    ensures complete { Told (S.left proof.old) (λ bytes. (Rose (S.faults proof.old) (S.faults proof.new) → ⊥)
        → (Rose (K.faults text.old) (K.faults text.new) → ⊥) → CompletesCheckLeast (certified bytes) result) }
    ensures usage { usage_of result ≡ None }
    ensures text { Ended result (λ end.
        PrintsLines end yes_text (sink_state (K.held text.old) (K.taken text.old))
        (sink_state (K.held text.new) (K.taken text.new))) }
    ensures extends { Extends (sink_state (K.held text.old) (K.taken text.old))
        (sink_state (K.held text.new) (K.taken text.new)) }
    ensures settled { OnTrue (is_settled result) (K.settled text.new ≡ K.taken text.new) }
    ensures end { OnTrue (is_done result) (IsAtEnd (S.left proof.new)) }
    ensures read { CountsFault (S.faults proof.old) (S.faults proof.new) (is_read_fault result) }
    ensures write { CountsFault (K.faults text.old) (K.faults text.new) (is_write_fault result) }
{
    status_of(checkleast_run(alloc, proof, text))
}

/// Prints all undominated pairs of size and error of a table file.
pub(crate) fn curve<S: ByteSource, K: ByteSink>(
    alloc: Global,
    proof: &mut S,
    text: &mut K,
) -> Status
    ensures answer { Told (S.left proof.old) (λ bytes. Ended result (λ end. AnswersCurve (tabled bytes) end)) }
    ensures complete { Told (S.left proof.old) (λ bytes. (Rose (S.faults proof.old) (S.faults proof.new) → ⊥)
        → (Rose (K.faults text.old) (K.faults text.new) → ⊥) → CompletesCurve (tabled bytes) result) }
    ensures usage { usage_of result ≡ None }
    ensures text { Told (S.left proof.old) (λ bytes.
        Ended result (λ end. PrintsText end (IsCurveText (tabled bytes))
        (sink_state (K.held text.old) (K.taken text.old)) (sink_state (K.held text.new) (K.taken text.new)))) }
    ensures extends { Extends (sink_state (K.held text.old) (K.taken text.old))
        (sink_state (K.held text.new) (K.taken text.new)) }
    ensures settled { OnTrue (is_settled result) (K.settled text.new ≡ K.taken text.new) }
    ensures end { OnTrue (is_done result) (IsAtEnd (S.left proof.new)) }
    ensures read { CountsFault (S.faults proof.old) (S.faults proof.new) (is_read_fault result) }
    ensures write { CountsFault (K.faults text.old) (K.faults text.new) (is_write_fault result) }
{
    status_of(curve_run(alloc, proof, text))
}
