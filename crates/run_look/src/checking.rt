//! Checking a proof.

ghost use Rattle.std.specs.Prelude.{◌≡◌, ◌+◌, ◌*◌, ◌≤◌, ◌++◌, ℕ, IsSome, OnOk, OnErr, IfOk, IfErr, IfSome, IfNone, Ok, false, codes};
ghost use Rattle.std.specs.Bool.{OnTrue};
ghost use Rattle.std.specs.Fmt.{decimal};
ghost use Rattle.std.specs.Io.KnownBytes.{IsAtEnd};
ghost use Rattle.pw_outside.specs.Ports.{CountsFault, Rose};
ghost use Rattle.pw_outside.specs.Reading.{Told, rest_of};
ghost use Rattle.pw_outside.specs.Writing.{sink_state, Extends};
ghost use Rattle.rate_cert.specs.Settings.{IsSettings};
ghost use Rattle.rate_cert.specs.Records.{IsGood};
ghost use Rattle.rate_cert.specs.Files.{no_records, most_records, after, MayStand};
ghost use Rattle.run_look.specs.declared.end.LookEnd.TheVariants as ends;
ghost use Rattle.run_look.specs.Ends.{is_done, is_read_fault, is_write_fault, is_stopped_by_source, AnswersEnd, AnswersUnlessOutside, IsReadersEnd, PrintsLine};
ghost use Rattle.run_look.specs.Checking.{frames_in, RecordsAlone, ChecksAlone, PrintsCheck, Counts, NextGood, CompletesCheck};

use crate::end::LookEnd;
use pw_outside::{ByteSink, ByteSource, NoMemory, put_all};
use pw_text::{put_decimal, put_words};
use rate_cert::{FrameProof, ProofReader, Settings};
use rate_check::check_record;
use std::alloc::Global;

/// The number of frames of a good record, 1 to 8.
pub(crate) fn frames_of(settings: &Settings, group: &FrameProof) -> u32
    requires settings { IsSettings settings.now }
    requires good { IsGood settings.now group.now }
    ensures value { result ≡ frames_in settings.now group.now }
    ensures few { result ≤ 8 }
{
    group.table.slices.as_slice().len() as u32 / settings.frame_slices()
}

/// Reads the next record, with `frames` frames before it, and validates it; `None` after the end of the proof.
///
/// The error is how checking ends there.
pub(crate) fn next_good<S: ByteSource>(
    alloc: Global,
    reader: &mut ProofReader,
    proof: &mut S,
    frames: u32,
) -> Result<Option<FrameProof>, LookEnd>
    requires settings { IsSettings reader.old.settings }
    requires going { reader.old.ended ≡ false }
    ensures told { IsSome (S.left proof.old) → OnOk result (IsSome (S.left proof.new)) }
    ensures answer { IsSome (S.left proof.old) → NextGood reader.old.format reader.old.settings reader.old.progress frames
        (rest_of reader.old.place (S.left proof.old)) result (rest_of reader.new.place (S.left proof.new)) }
    ensures good { IfOk result (λ p. IfSome p (λ p. IsGood reader.old.settings p × MayStand reader.old.progress)) }
    ensures end { IfErr result IsReadersEnd }
    // After the last record the proof was read to its end.
    ensures whole { IfOk result (λ p. IfNone p (IsAtEnd (S.left proof.new))) }
    ensures after { IfOk result (λ p. (reader.new.settings ≡ reader.old.settings) × (reader.new.format ≡ reader.old.format)
        × (reader.new.progress ≡ after reader.old.settings reader.old.progress p)) }
    ensures ended { IfOk result (λ p. IfSome p (λ _. reader.new.ended ≡ false)) }
    ensures read { CountsFault (S.faults proof.old) (S.faults proof.new) (is_stopped_by_source result) }
{
    let Some(group) = reader.next(alloc, proof)? else {
        return Ok(None);
    };
    match check_record(&reader.settings(), &group) {
        Ok(()) => Ok(Some(group)),
        Err(clause) => Err(LookEnd::Refused {
            frame: frames,
            clause: clause.number,
        }),
    }
}

/// Checks all records by themselves. Returns the number of records.
///
/// The error is how checking ends.
fn check_records<S: ByteSource>(
    alloc: Global,
    reader: &mut ProofReader,
    proof: &mut S,
) -> Result<u32, LookEnd>
    requires settings { IsSettings reader.old.settings }
    requires fresh { reader.old.progress ≡ no_records }
    requires going { reader.old.ended ≡ false }
    ensures answer { IsSome (S.left proof.old) → Counts (RecordsAlone reader.old.format reader.old.settings (rest_of reader.old.place (S.left proof.old))) result }
    ensures few { IfOk result (λ n. n ≤ most_records) }
    ensures end { IfErr result IsReadersEnd }
    ensures whole { OnOk result (IsAtEnd (S.left proof.new)) }
    ensures read { CountsFault (S.faults proof.old) (S.faults proof.new) (is_stopped_by_source result) }
{
    let settings = reader.settings();
    let mut records: u32 = 0;
    let mut frames: u32 = 0;
    while let Some(group) = next_good(alloc, reader, proof, frames)? {
        records += 1;
        frames += frames_of(&settings, &group);
    }
    Ok(records)
}

/// Reads a proof to its end, and checks all its records by themselves. Returns the number of records.
fn check_alone<S: ByteSource>(alloc: Global, proof: &mut S) -> Result<u32, LookEnd>
    ensures answer { Told (S.left proof.old) (λ bytes. Counts (ChecksAlone bytes) result) }
    ensures few { IfOk result (λ n. n ≤ most_records) }
    ensures end { IfErr result IsReadersEnd }
    ensures whole { OnOk result (IsAtEnd (S.left proof.new)) }
    ensures read { CountsFault (S.faults proof.old) (S.faults proof.new) (is_stopped_by_source result) }
{
    let mut reader = ProofReader::start(proof)?;
    check_records(alloc, &mut reader, proof)
}

/// Appends the number of records, and the words after it.
fn put_records(text: &mut Vec<u8>, records: u32, behind: &str) -> Result<(), NoMemory>
    ensures { OnOk result (text.new.items ≡ text.old.items ++ (codes "records " ++ decimal records ++ behind.now)) }
{
    put_words(text, "records ")?;
    put_decimal(text, u64::from(records))?;
    put_words(text, behind)
}

/// Writes the line with the number of records and the words after it, and flushes it.
pub(crate) fn print_records<K: ByteSink>(
    alloc: Global,
    records: u32,
    behind: &str,
    text: &mut K,
) -> LookEnd
    ensures answer { AnswersUnlessOutside result ends.Done }
    ensures reads { is_read_fault result ≡ false }
    ensures text { PrintsLine result (codes "records " ++ decimal records ++ behind.now) (sink_state (K.held text.old) (K.taken text.old)) (sink_state (K.held text.new) (K.taken text.new)) }
    ensures settled { OnTrue (is_done result) (K.settled text.new ≡ K.taken text.new) }
    ensures write { CountsFault (K.faults text.old) (K.faults text.new) (is_write_fault result) }
{
    let mut line = Vec::new(alloc);
    if put_records(&mut line, records, behind).is_err() {
        return LookEnd::NoMemory;
    }
    if put_all(text, &line).is_err() {
        return LookEnd::WriteFault;
    }
    match text.flush() {
        Ok(()) => LookEnd::Done,
        Err(_) => LookEnd::WriteFault,
    }
}

/// Checks a proof by itself: its records, in order, by the clauses that need no pictures and no movie.
#[tactic(auto, using(pw_outside::proofs::Puts::none_extends, crate::proofs::Texts::printed_extends, crate::proofs::Once::completes))]
pub fn check_proof_run<S: ByteSource, K: ByteSink>(
    alloc: Global,
    proof: &mut S,
    text: &mut K,
) -> LookEnd
    // If the proof's bytes are visible, they determine the result: BadProof comes with their first fault, Refused
    // with the first clause that fails at the first frame of its record, whichever comes first.
    ensures answer { Told (S.left proof.old) (λ bytes. AnswersEnd result (λ end. (records : ℕ) × ChecksAlone bytes end records)) }
    // After Done the whole line with the number of records was appended; after a fault of writing a prefix of it,
    // and after any other result nothing.
    ensures text { Told (S.left proof.old) (λ bytes.
        PrintsCheck result (ChecksAlone bytes ends.Done) (sink_state (K.held text.old) (K.taken text.old)) (sink_state (K.held text.new) (K.taken text.new))) }
    // If no port failed and memory lasted, a proof without a fault whose records are good is done.
    ensures complete { Told (S.left proof.old) (λ bytes. (records : ℕ) → ChecksAlone bytes ends.Done records
        → (Rose (S.faults proof.old) (S.faults proof.new) → ⊥) → (Rose (K.faults text.old) (K.faults text.new) → ⊥) → CompletesCheck result) }
    // Visible or opaque, the text extends what was held.
    ensures extends { Extends (sink_state (K.held text.old) (K.taken text.old)) (sink_state (K.held text.new) (K.taken text.new)) }
    ensures settled { OnTrue (is_done result) (K.settled text.new ≡ K.taken text.new) }
    // After Done the proof was read to its end, visible or opaque.
    ensures end { OnTrue (is_done result) (IsAtEnd (S.left proof.new)) }
    // A port fault is returned only if that port's counter rose; every other result leaves both counters unchanged.
    ensures read { CountsFault (S.faults proof.old) (S.faults proof.new) (is_read_fault result) }
    ensures write { CountsFault (K.faults text.old) (K.faults text.new) (is_write_fault result) }
{
    match check_alone(alloc, proof) {
        Ok(records) => print_records(alloc, records, " yes\n", text),
        Err(end) => end,
    }
}
