//! The run that finds the smallest choice under a cap.

ghost use Rattle.std.specs.Prelude.{◌≡◌, ◌++◌, OnOk, OnErr, IfOk, is_err};
ghost use Rattle.std.specs.Bool.{OnTrue};
ghost use Rattle.std.specs.Io.KnownBytes.{IsAtEnd};
ghost use Rattle.pw_outside.specs.Ports.{CountsFault, CountsFaults};
ghost use Rattle.pw_outside.specs.Reading.{Told};
ghost use Rattle.pw_outside.specs.Writing.{sink_state, Puts, PutsFront, Extends};
ghost use Rattle.rate_table.specs.Reading.{tabled};
ghost use Rattle.rate_least.specs.Records.{said_by};
ghost use Rattle.rate_least.specs.Files.{cert_bytes, CanBeSaid};
ghost use Rattle.rate_least.specs.Ends.{is_done, is_read_fault, is_write_fault};
ghost use Rattle.rate_least.specs.Leasting.{spaced, least_text, AnswersLeast, IsCertificateOf, WritesLeast};

use crate::end::LeastEnd;
use crate::outcome::LeastOutcome;
use crate::runs::print;
use crate::search::smallest;
use crate::writing::write_least;
use pw_outside::{ByteSink, ByteSource, Failed, NoMemory};
use pw_text::{put_decimal, put_words};
use rate_table::{FrameTable, read_file};
use std::alloc::Global;

/// Appends the indices, each after a space.
fn put_indices(text: &mut Vec<u8>, choice: &[u8]) -> Result<(), NoMemory>
    ensures { OnOk result (text.new.items ≡ text.old.items ++ spaced choice.now) }
{
    for index in choice {
        put_words(text, " ")?;
        put_decimal(text, u64::from(*index))?;
    }
    Ok(())
}

/// The lines of an outcome.
fn lines_of(alloc: Global, outcome: &LeastOutcome) -> Result<Vec<u8>, NoMemory>
    ensures { IfOk result (λ text. text.items ≡ least_text (said_by outcome.now)) }
{
    let mut text = Vec::new(alloc);
    match outcome {
        LeastOutcome::Fits {
            choice,
            size,
            error,
            layers: _layers,
            multiplier: _multiplier,
        } => {
            put_words(&mut text, "choice")?;
            put_indices(&mut text, choice.as_slice())?;
            put_words(&mut text, "\nsize ")?;
            put_decimal(&mut text, *size)?;
            put_words(&mut text, "\nerror ")?;
            put_decimal(&mut text, *error)?;
            put_words(&mut text, "\n")?;
        }
        LeastOutcome::None { least_error } => {
            put_words(&mut text, "none least-error ")?;
            put_decimal(&mut text, *least_error)?;
            put_words(&mut text, "\n")?;
        }
    }
    Ok(text)
}

/// Writes a certificate and flushes it.
fn certify<K: ByteSink>(
    table: &FrameTable,
    cap: u64,
    outcome: &LeastOutcome,
    cert: &mut K,
) -> Result<(), Failed>
    requires { CanBeSaid table.now (said_by outcome.now) }
    ensures all { OnOk result (Puts (sink_state (K.held cert.old) (K.taken cert.old))
        (sink_state (K.held cert.new) (K.taken cert.new)) (cert_bytes
        (record { table = table.now; cap = cap; said = said_by outcome.now }))) }
    ensures front { OnErr result (PutsFront (sink_state (K.held cert.old) (K.taken cert.old))
        (sink_state (K.held cert.new) (K.taken cert.new)) (cert_bytes
        (record { table = table.now; cap = cap; said = said_by outcome.now }))) }
    ensures settled { OnOk result (K.settled cert.new ≡ K.taken cert.new) }
    ensures cause { CountsFault (K.faults cert.old) (K.faults cert.new) (is_err result) }
{
    write_least(table, cap, outcome, cert)?;
    cert.flush()
}

/// Reads a table file to its end, finds the smallest choice of error at most `cap`, and writes its certificate to
/// `cert` and its lines to `text`.
pub fn least_run<S: ByteSource, K: ByteSink>(
    alloc: Global,
    proof: &mut S,
    cap: u64,
    cert: &mut K,
    text: &mut K,
) -> LeastEnd
    // If the file's bytes are visible, they determine the outcome: BadProof with their first error; LayersFull if
    // the frontiers held under the smallest choice's size have more than 2^25 pairs, and only if those held under
    // the size of the multiplier's choice do.
    ensures answer { Told (S.left proof.old) (λ bytes. AnswersLeast cap (tabled bytes) result) }
    // After Done, the certificate of the smallest choice, or of none, and its lines were appended whole; after
    // WriteFault, a prefix of each; otherwise nothing.
    ensures written { Told (S.left proof.old) (λ bytes. WritesLeast result (IsCertificateOf cap (tabled bytes))
        (sink_state (K.held cert.old) (K.taken cert.old)) (sink_state (K.held cert.new) (K.taken cert.new))
        (sink_state (K.held text.old) (K.taken text.old)) (sink_state (K.held text.new) (K.taken text.new))) }
    // Whether the file's bytes are visible or opaque, both outputs are only appended to.
    ensures cert_extends { Extends (sink_state (K.held cert.old) (K.taken cert.old))
        (sink_state (K.held cert.new) (K.taken cert.new)) }
    ensures text_extends { Extends (sink_state (K.held text.old) (K.taken text.old))
        (sink_state (K.held text.new) (K.taken text.new)) }
    ensures settled { OnTrue (is_done result) ((K.settled cert.new ≡ K.taken cert.new)
        × (K.settled text.new ≡ K.taken text.new)) }
    ensures end { OnTrue (is_done result) (IsAtEnd (S.left proof.new)) }
    // A port's fault is the outcome only if that port's count rose; any other outcome leaves the counts unchanged.
    ensures read { CountsFault (S.faults proof.old) (S.faults proof.new) (is_read_fault result) }
    ensures write { CountsFaults (K.faults cert.old) (K.faults cert.new) (K.faults text.old) (K.faults text.new)
        (is_write_fault result) }
{
    let table = match read_file(alloc, proof) {
        Ok(table) => table,
        Err(fault) => return LeastEnd::from(fault),
    };
    let outcome = match smallest(alloc, &table, cap) {
        Ok(outcome) => outcome,
        Err(fault) => return LeastEnd::from(fault),
    };
    let Ok(lines) = lines_of(alloc, &outcome) else {
        return LeastEnd::NoMemory;
    };
    match certify(&table, cap, &outcome, cert) {
        Ok(()) => print(text, &lines),
        Err(_) => LeastEnd::WriteFault,
    }
}
