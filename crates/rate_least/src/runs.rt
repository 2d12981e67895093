//! The runs over table files and certificates.

ghost use Rattle.std.specs.Prelude.{◌≡◌, false};
ghost use Rattle.std.specs.Bool.{OnTrue};
ghost use Rattle.std.specs.Io.KnownBytes.{IsAtEnd};
ghost use Rattle.pw_outside.specs.Ports.{CountsFault};
ghost use Rattle.pw_outside.specs.Reading.{Told};
ghost use Rattle.pw_outside.specs.Writing.{sink_state, Extends};
ghost use Rattle.rate_table.specs.Reading.{tabled};
ghost use Rattle.rate_least.specs.declared.end.LeastEnd.TheVariants as ends;
ghost use Rattle.rate_least.specs.Files.{certified};
ghost use Rattle.rate_least.specs.Ends.{is_done, is_read_fault, is_write_fault, AnswersUnlessOutside, IsPrintersEnd, PrintsLines};
ghost use Rattle.rate_least.specs.Runs.{AnswersCheck, SaysTrue, yes_text, AnswersCurve, IsCurveText, PrintsText};

use crate::check::check_least;
use crate::end::LeastEnd;
use crate::points::curve;
use crate::reading::read_least;
use crate::texts::lines_of_curve;
use pw_outside::{ByteSink, ByteSource, put_all};
use rate_table::read_file;
use std::alloc::Global;

/// Writes the lines and flushes them.
pub(crate) fn print<K: ByteSink>(sink: &mut K, lines: &[u8]) -> LeastEnd
    ensures answer { AnswersUnlessOutside result ends.Done }
    ensures reads { is_read_fault result ≡ false }
    ensures end { IsPrintersEnd result }
    ensures text { PrintsLines result lines.now (sink_state (K.held sink.old) (K.taken sink.old))
        (sink_state (K.held sink.new) (K.taken sink.new)) }
    ensures settled { OnTrue (is_done result) (K.settled sink.new ≡ K.taken sink.new) }
    ensures cause { CountsFault (K.faults sink.old) (K.faults sink.new) (is_write_fault result) }
{
    match put_all(sink, lines) {
        Ok(()) => match sink.flush() {
            Ok(()) => LeastEnd::Done,
            Err(_) => LeastEnd::WriteFault,
        },
        Err(_) => LeastEnd::WriteFault,
    }
}

/// Reads a certificate to its end, and checks it.
pub fn checkleast_run<S: ByteSource, K: ByteSink>(
    alloc: Global,
    proof: &mut S,
    text: &mut K,
) -> LeastEnd
    // If the certificate's bytes are visible, they determine the outcome: BadProof with their first error, and
    // Refused with the first clause that fails.
    ensures answer { Told (S.left proof.old) (λ bytes. AnswersCheck (certified bytes) result) }
    // After Done, what the certificate says is true: no choice that meets the cap has less size, or none meets it.
    ensures sound { Told (S.left proof.old) (λ bytes. OnTrue (is_done result) (SaysTrue (certified bytes))) }
    // After Done, the line was appended whole; after WriteFault, a prefix of it; otherwise nothing.
    ensures text { PrintsLines result yes_text (sink_state (K.held text.old) (K.taken text.old))
        (sink_state (K.held text.new) (K.taken text.new)) }
    ensures extends { Extends (sink_state (K.held text.old) (K.taken text.old))
        (sink_state (K.held text.new) (K.taken text.new)) }
    ensures settled { OnTrue (is_done result) (K.settled text.new ≡ K.taken text.new) }
    ensures end { OnTrue (is_done result) (IsAtEnd (S.left proof.new)) }
    // A port's fault is the outcome only if that port's count rose; any other outcome leaves both counts unchanged.
    ensures read { CountsFault (S.faults proof.old) (S.faults proof.new) (is_read_fault result) }
    ensures write { CountsFault (K.faults text.old) (K.faults text.new) (is_write_fault result) }
{
    let certificate = match read_least(alloc, proof) {
        Ok(certificate) => certificate,
        Err(fault) => return LeastEnd::from(fault),
    };
    match check_least(&certificate.table, certificate.cap, &certificate.outcome) {
        Ok(()) => print(text, b"yes\n"),
        Err(clause) => LeastEnd::Refused {
            clause: clause.number,
        },
    }
}

/// Reads a table file to its end, and prints the Pareto frontier of its choices.
pub fn curve_run<S: ByteSource, K: ByteSink>(alloc: Global, proof: &mut S, text: &mut K) -> LeastEnd
    // If the file's bytes are visible, they determine the outcome: BadProof with their first error, and LayersFull
    // exactly if the frontiers of the first slices have more than 2^25 points together.
    ensures answer { Told (S.left proof.old) (λ bytes. AnswersCurve (tabled bytes) result) }
    // After Done, the lines of the Pareto frontier were appended whole; after WriteFault, a prefix of them;
    // otherwise nothing.
    ensures text { Told (S.left proof.old) (λ bytes. PrintsText result (IsCurveText (tabled bytes))
        (sink_state (K.held text.old) (K.taken text.old)) (sink_state (K.held text.new) (K.taken text.new))) }
    ensures extends { Extends (sink_state (K.held text.old) (K.taken text.old))
        (sink_state (K.held text.new) (K.taken text.new)) }
    ensures settled { OnTrue (is_done result) (K.settled text.new ≡ K.taken text.new) }
    ensures end { OnTrue (is_done result) (IsAtEnd (S.left proof.new)) }
    // A port's fault is the outcome only if that port's count rose; any other outcome leaves both counts unchanged.
    ensures read { CountsFault (S.faults proof.old) (S.faults proof.new) (is_read_fault result) }
    ensures write { CountsFault (K.faults text.old) (K.faults text.new) (is_write_fault result) }
{
    let table = match read_file(alloc, proof) {
        Ok(table) => table,
        Err(fault) => return LeastEnd::from(fault),
    };
    let points = match curve(alloc, &table) {
        Ok(points) => points,
        Err(fault) => return LeastEnd::from(fault),
    };
    match lines_of_curve(alloc, &points) {
        Ok(lines) => print(text, &lines),
        Err(_) => LeastEnd::NoMemory,
    }
}
