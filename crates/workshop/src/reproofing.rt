//! The run of `reproof`.

ghost use Rattle.std.specs.Prelude.{◌≡◌, None};
ghost use Rattle.std.specs.Bool.{OnTrue};
ghost use Rattle.std.specs.Io.KnownBytes.{IsAtEnd};
ghost use Rattle.pw_outside.specs.Ports.{CountsFault, CountsFaults};
ghost use Rattle.pw_outside.specs.Reading.{Told};
ghost use Rattle.pw_outside.specs.Writing.{sink_state, Puts, Extends};
ghost use Rattle.run_look.specs.Reproofing.{reproofed, SaysTheSame, IsProofIn};
ghost use Rattle.workshop.specs.Status.{is_done, is_read_fault, is_settled, is_write_fault, usage_of};
ghost use Rattle.workshop.specs.Reproofing.{AnswersReproof, WritesUntil};

use crate::listing::status_of;
use crate::status::Status;
use pw_outside::{ByteSink, ByteSource};
use run_look::reproof_run;
use std::alloc::Global;

/// Rewrites a proof in format 2, and prints the number of its records.
#[tactic(auto, using(crate::proofs::Reproofed::answers_reproof, crate::proofs::Reproofed::writes_until))]
pub(crate) fn reproof<S: ByteSource, K: ByteSink>(
    alloc: Global,
    proof: &mut S,
    cert: &mut K,
    text: &mut K,
) -> Status
    ensures answer { Told (S.left proof.old) (λ bytes. AnswersReproof bytes result) }
    ensures usage { usage_of result ≡ None }
    ensures cert { Told (S.left proof.old) (λ bytes. WritesUntil result (reproofed bytes).cert
        (sink_state (K.held cert.old) (K.taken cert.old)) (sink_state (K.held cert.new) (K.taken cert.new))) }
    ensures text { Told (S.left proof.old) (λ bytes. WritesUntil result (reproofed bytes).text
        (sink_state (K.held text.old) (K.taken text.old)) (sink_state (K.held text.new) (K.taken text.new))) }
    ensures same { Told (S.left proof.old) (λ bytes.
        OnTrue (is_done result) (SaysTheSame bytes (reproofed bytes).cert)) }
    ensures unchanged { Told (S.left proof.old) (λ bytes. OnTrue (is_done result) (IsProofIn 2 bytes
        → Puts (sink_state (K.held cert.old) (K.taken cert.old))
        (sink_state (K.held cert.new) (K.taken cert.new)) bytes)) }
    ensures cert_extends { Extends (sink_state (K.held cert.old) (K.taken cert.old))
        (sink_state (K.held cert.new) (K.taken cert.new)) }
    ensures text_extends { Extends (sink_state (K.held text.old) (K.taken text.old))
        (sink_state (K.held text.new) (K.taken text.new)) }
    ensures settled { OnTrue (is_settled result)
        ((K.settled cert.new ≡ K.taken cert.new) × (K.settled text.new ≡ K.taken text.new)) }
    ensures end { OnTrue (is_done result) (IsAtEnd (S.left proof.new)) }
    ensures read { CountsFault (S.faults proof.old) (S.faults proof.new) (is_read_fault result) }
    ensures write { CountsFaults (K.faults cert.old) (K.faults cert.new) (K.faults text.old) (K.faults text.new)
        (is_write_fault result) }
{
    status_of(reproof_run(alloc, proof, cert, text))
}
