//! The run of `plan`.

ghost use Rattle.std.specs.Prelude.{◌≡◌, ◌++◌, ◌⊎◌, OnOk, IfOk, None};
ghost use Rattle.std.specs.Bool.{OnTrue, OnFalse};
ghost use Rattle.std.specs.Io.KnownBytes.{IsAtEnd};
ghost use Rattle.pw_outside.specs.Ports.{CountsFault};
ghost use Rattle.pw_outside.specs.Reading.{Told};
ghost use Rattle.rate_table.specs.Reading.{tabled};
ghost use Rattle.workshop.specs.Status.{is_done, is_read_fault, is_settled, is_write_fault, has_written, usage_of};
ghost use Rattle.workshop.specs.Plan.{spaced, outcome_text, AnswersPlan, PrintsPlan, PrintsPart};
ghost use Rattle.pw_outside.specs.Writing.{sink_state, Puts, PutsFront, Extends};

use crate::status::Status;
use pw_outside::{ByteSink, ByteSource, NoMemory, put};
use pw_text::{put_decimal, put_words};
use rate_layers::{BestFault, Outcome, best};
use rate_table::{TableFault, read_file};
use std::alloc::Global;

/// Appends the indices, each after a space.
fn put_indices(text: &mut Vec<u8>, choice: &[u8]) -> Result<(), NoMemory>
    ensures { OnOk result (text.new.items ≡ text.old.items ++ spaced choice.now) }
{
    for index in choice {
        put_words(text, " ")?;
        put_decimal(text, u64::from(*index))?;
    }
    Ok(())
}

/// The lines of a search's outcome.
fn text_of(alloc: Global, outcome: Outcome) -> Result<Vec<u8>, NoMemory>
    ensures { IfOk result (λ text. text.items ≡ outcome_text outcome) }
{
    let mut text = Vec::new(alloc);
    match outcome {
        Outcome::Fits {
            choice,
            size,
            error,
            layers: _layers,
            multiplier: _multiplier,
        } => {
            put_words(&mut text, "choice")?;
            put_indices(&mut text, &choice)?;
            put_words(&mut text, "\nsize ")?;
            put_decimal(&mut text, size)?;
            put_words(&mut text, "\nerror ")?;
            put_decimal(&mut text, error)?;
            put_words(&mut text, "\n")?;
        }
        Outcome::None { least } => {
            put_words(&mut text, "none least ")?;
            put_decimal(&mut text, least)?;
            put_words(&mut text, "\n")?;
        }
    }
    Ok(text)
}

/// Writes all lines, and flushes.
fn print<K: ByteSink>(sink: &mut K, lines: &[u8]) -> Status
    ensures kinds { (result ≡ Status.Done) ⊎ (result ≡ Status.WriteFault) }
    ensures text { OnTrue (is_done result)
        (Puts (sink_state (K.held sink.old) (K.taken sink.old))
        (sink_state (K.held sink.new) (K.taken sink.new)) lines.now) }
    ensures part { PutsFront (sink_state (K.held sink.old) (K.taken sink.old))
        (sink_state (K.held sink.new) (K.taken sink.new)) lines.now }
    ensures settled { OnTrue (is_settled result) (K.settled sink.new ≡ K.taken sink.new) }
    ensures cause { CountsFault (K.faults sink.old) (K.faults sink.new) (is_write_fault result) }
{
    match put(sink, lines) {
        Ok(()) => match sink.flush() {
            Ok(()) => Status::Done,
            Err(_) => Status::WriteFault,
        },
        Err(_) => Status::WriteFault,
    }
}

/// Reads a table file to its end, and prints its best choice.
#[tactic(auto, using(run_look::proofs::Texts::none_extends, run_look::proofs::Texts::front_extends))]
pub(crate) fn plan<S: ByteSource, K: ByteSink>(alloc: Global, proof: &mut S, text: &mut K) -> Status
    ensures answer { Told (S.left proof.old) (λ bytes. AnswersPlan (tabled bytes) result) }
    ensures usage { usage_of result ≡ None }
    ensures text { Told (S.left proof.old) (λ bytes. OnTrue (is_done result)
        (PrintsPlan (tabled bytes) (sink_state (K.held text.old) (K.taken text.old))
        (sink_state (K.held text.new) (K.taken text.new)))) }
    ensures part { Told (S.left proof.old) (λ bytes. OnTrue (is_write_fault result)
        (PrintsPart (tabled bytes) (sink_state (K.held text.old) (K.taken text.old))
        (sink_state (K.held text.new) (K.taken text.new)))) }
    ensures unwritten { OnFalse (has_written result) (text.new ≡ text.old) }
    ensures extends { Extends (sink_state (K.held text.old) (K.taken text.old))
        (sink_state (K.held text.new) (K.taken text.new)) }
    ensures end { OnTrue (is_done result) (IsAtEnd (S.left proof.new)) }
    ensures settled { OnTrue (is_settled result) (K.settled text.new ≡ K.taken text.new) }
    ensures read { CountsFault (S.faults proof.old) (S.faults proof.new) (is_read_fault result) }
    ensures write { CountsFault (K.faults text.old) (K.faults text.new) (is_write_fault result) }
{
    let table = match read_file(alloc, proof) {
        Ok(table) => table,
        Err(TableFault::Bad { kind, place }) => return Status::BadProof { kind, place },
        Err(TableFault::Failed) => return Status::ReadFault,
        Err(TableFault::NoMemory) => return Status::NoMemory,
    };
    let outcome = match best(alloc, &table) {
        Ok(outcome) => outcome,
        Err(BestFault::LayersFull) => return Status::LayersFull { frame: 0 },
        Err(BestFault::NoMemory) => return Status::NoMemory,
    };
    match text_of(alloc, outcome) {
        Ok(lines) => print(text, &lines),
        Err(_) => Status::NoMemory,
    }
}
