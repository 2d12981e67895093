//! Rewriting a proof in format 2.

ghost use Rattle.std.specs.Prelude.{◌≡◌, ◌↔◌, ◌≤◌, suc, IsSome, IsTrue, OnOk, OnErr, is_err, IfOk, IfErr, IfSome, IfNone, Ok, false};
ghost use Rattle.std.specs.Bool.{OnTrue};
ghost use Rattle.std.specs.Io.KnownBytes.{IsAtEnd};
ghost use Rattle.std.specs.List.{flat_map};
ghost use Rattle.pw_outside.specs.Ports.{CountsFault, GoesOn, CountsFaults};
ghost use Rattle.pw_outside.specs.Reading.{Told, rest_of};
ghost use Rattle.pw_outside.specs.Writing.{sink_state, Puts, PutsFront, Extends};
ghost use Rattle.rate_cert.specs.Settings.{IsSettings};
ghost use Rattle.rate_cert.specs.Files.{no_records, most_records, after, IsWritten, MayStand, record_bytes, end_bytes};
ghost use Rattle.rate_cert.specs.Laws.{AreWritten};
ghost use Rattle.run_look.specs.declared.end.LookEnd.TheVariants as ends;
ghost use Rattle.run_look.specs.Ends.{is_done, is_read_fault, is_write_fault, is_stopped_by_source, AnswersUnlessOutside, IsReadersEnd};
ghost use Rattle.run_look.specs.Reproofing.{keeps_order, KeepsOrder, NextInOrder, rewritten_at, reproofed, reproof_text, end_of, EndsAs, PutsUntil, SaysTheSame, IsProofIn};

use crate::checking::print_records;
use crate::end::LookEnd;
use crate::through::Through;
use pw_outside::{ByteSink, ByteSource, Failed};
use rate_cert::{FrameProof, ProofReader, ProofWriter, Verdict};
use rate_check::are_in_order;
use std::alloc::Global;

/// Whether sizes rise and errors fall in each layer (clause 6).
fn keeps_order(group: &FrameProof) -> bool
    ensures value { result ≡ keeps_order group.now.said }
    ensures clause { IsTrue result ↔ KeepsOrder group.now.said }
{
    match &group.verdict {
        Verdict::Fits { layers, .. } => are_in_order(layers),
        Verdict::None { .. } => true,
    }
}

/// Reads the next record, with `records` records before it; `None` after the end of the proof. A record that
/// is returned can be written in format 2.
///
/// The error is how rewriting ends there.
fn next_in_order<S: ByteSource>(
    alloc: Global,
    reader: &mut ProofReader,
    proof: &mut S,
    records: u32,
) -> Result<Option<FrameProof>, LookEnd>
    requires settings { IsSettings reader.old.settings }
    requires going { reader.old.ended ≡ false }
    requires records { records ≡ reader.old.progress.count }
    requires few { records ≤ most_records }
    ensures told { IsSome (S.left proof.old) → OnOk result (IsSome (S.left proof.new)) }
    ensures answer { IsSome (S.left proof.old) → NextInOrder reader.old.format reader.old.settings reader.old.progress
        (rest_of reader.old.place (S.left proof.old)) result (rest_of reader.new.place (S.left proof.new)) }
    ensures written { IfOk result (λ p. IfSome p (λ p. MayStand reader.old.progress × IsWritten 2 p)) }
    ensures end { IfErr result IsReadersEnd }
    // After the last record the proof was read to its end.
    ensures whole { IfOk result (λ p. IfNone p (IsAtEnd (S.left proof.new))) }
    ensures after { IfOk result (λ p. (reader.new.settings ≡ reader.old.settings) × (reader.new.format ≡ reader.old.format)
        × (reader.new.progress ≡ after reader.old.settings reader.old.progress p)) }
    ensures ended { IfOk result (λ p. IfSome p (λ _. reader.new.ended ≡ false)) }
    ensures becomes { GoesOn S.becomes proof.old proof.new }
    ensures read { CountsFault (S.faults proof.old) (S.faults proof.new) (is_stopped_by_source result) }
{
    let Some(group) = reader.next(alloc, proof)? else {
        return Ok(None);
    };
    if keeps_order(&group) {
        Ok(Some(group))
    } else {
        let frame = records * u32::from(reader.settings().group);
        Err(LookEnd::Refused { frame, clause: 6 })
    }
}

/// Reads all records, and writes each in format 2. Returns the number of records.
///
/// The error is how rewriting ends.
fn rewrite_records<S: ByteSource, K: ByteSink>(
    alloc: Global,
    reader: &mut ProofReader,
    proof: &mut S,
    writer: &mut ProofWriter,
    cert: &mut K,
) -> Result<u32, LookEnd>
    requires settings { IsSettings reader.old.settings }
    requires fresh { reader.old.progress ≡ no_records }
    requires going { reader.old.ended ≡ false }
    requires writer { writer.old ≡ record { settings = reader.old.settings; format = 2; progress = no_records } }
    ensures answer { IsSome (S.left proof.old) → EndsAs result (rewritten_at (suc most_records) reader.old.format reader.old.settings no_records (rest_of reader.old.place (S.left proof.old))) }
    ensures cert { IsSome (S.left proof.old) → PutsUntil (end_of result)
        (flat_map (record_bytes 2) (rewritten_at (suc most_records) reader.old.format reader.old.settings no_records (rest_of reader.old.place (S.left proof.old))).records)
        (sink_state (K.held cert.old) (K.taken cert.old)) (sink_state (K.held cert.new) (K.taken cert.new)) }
    ensures written { IsSome (S.left proof.old) → OnOk result (AreWritten 2 reader.old.settings no_records
        (rewritten_at (suc most_records) reader.old.format reader.old.settings no_records (rest_of reader.old.place (S.left proof.old))).records) }
    ensures extends { Extends (sink_state (K.held cert.old) (K.taken cert.old)) (sink_state (K.held cert.new) (K.taken cert.new)) }
    ensures few { IfOk result (λ n. (n ≤ most_records) × (writer.new.progress.count ≡ n)) }
    ensures not_done { IfErr result (λ end. is_done end ≡ false) }
    ensures whole { OnOk result (IsAtEnd (S.left proof.new)) }
    ensures becomes { GoesOn S.becomes proof.old proof.new }
    ensures read { CountsFault (S.faults proof.old) (S.faults proof.new) (is_stopped_by_source result) }
    ensures write { CountsFault (K.faults cert.old) (K.faults cert.new) (is_write_fault (end_of result)) }
{
    let mut records: u32 = 0;
    while let Some(group) = next_in_order(alloc, reader, proof, records)? {
        match writer.put(cert, &group) {
            Ok(()) => records += 1,
            Err(_) => return Err(LookEnd::WriteFault),
        }
    }
    Ok(records)
}

/// Writes the end, and flushes all that was written.
fn close<K: ByteSink>(writer: ProofWriter, cert: &mut K) -> Result<(), Failed>
    ensures ok { OnOk result (Puts (sink_state (K.held cert.old) (K.taken cert.old)) (sink_state (K.held cert.new) (K.taken cert.new)) (end_bytes writer.progress.count)) }
    ensures err { OnErr result (PutsFront (sink_state (K.held cert.old) (K.taken cert.old)) (sink_state (K.held cert.new) (K.taken cert.new)) (end_bytes writer.progress.count)) }
    ensures settled { OnOk result (K.settled cert.new ≡ K.taken cert.new) }
    ensures cause { CountsFault (K.faults cert.old) (K.faults cert.new) (is_err result) }
{
    writer.end(cert)?;
    cert.flush()
}

/// Reads a proof to its end, and writes it in format 2. Returns the number of records.
///
/// The error is how rewriting ends.
fn rewrite<S: ByteSource, K: ByteSink>(
    alloc: Global,
    proof: &mut S,
    cert: &mut K,
) -> Result<u32, LookEnd>
    ensures answer { Told (S.left proof.old) (λ bytes. AnswersUnlessOutside (end_of result) (reproofed bytes).end) }
    ensures count { Told (S.left proof.old) (λ bytes. IfOk result (λ n. (reproofed bytes).text ≡ reproof_text n)) }
    ensures cert { Told (S.left proof.old) (λ bytes. PutsUntil (end_of result) (reproofed bytes).cert
        (sink_state (K.held cert.old) (K.taken cert.old)) (sink_state (K.held cert.new) (K.taken cert.new))) }
    ensures same { Told (S.left proof.old) (λ bytes. OnOk result (SaysTheSame bytes (reproofed bytes).cert)) }
    ensures extends { Extends (sink_state (K.held cert.old) (K.taken cert.old)) (sink_state (K.held cert.new) (K.taken cert.new)) }
    ensures not_done { IfErr result (λ end. is_done end ≡ false) }
    ensures whole { OnOk result (IsAtEnd (S.left proof.new)) }
    ensures becomes { GoesOn S.becomes proof.old proof.new }
    ensures settled { OnOk result (K.settled cert.new ≡ K.taken cert.new) }
    ensures read { CountsFault (S.faults proof.old) (S.faults proof.new) (is_stopped_by_source result) }
    ensures write { CountsFault (K.faults cert.old) (K.faults cert.new) (is_write_fault (end_of result)) }
{
    let mut reader = ProofReader::start(proof)?;
    let settings = reader.settings();
    let Ok(mut writer) = ProofWriter::begin(cert, &settings, 2) else {
        return Err(LookEnd::WriteFault);
    };
    let records = rewrite_records(alloc, &mut reader, proof, &mut writer, cert)?;
    match close(writer, cert) {
        Ok(()) => Ok(records),
        Err(_) => Err(LookEnd::WriteFault),
    }
}

/// Rewrites a proof of either format in format 2.
#[tactic(auto, using(pw_outside::proofs::Puts::none_extends, crate::proofs::Texts::printed_extends))]
pub fn reproof_run<S: ByteSource, K: ByteSink>(
    alloc: Global,
    proof: &mut S,
    cert: &mut K,
    text: &mut K,
) -> LookEnd
    // If the proof's bytes are visible, they determine the result: BadProof comes with their first fault, Refused
    // with clause 6 at the first frame of the first record that fails it, whichever comes first.
    ensures answer { Told (S.left proof.old) (λ bytes. AnswersUnlessOutside result (reproofed bytes).end) }
    // They determine the bytes written, too: after Done the proof in format 2 and the line with the number of
    // records; after a fault of the input the records before it; if a port failed or memory ran out, a prefix of
    // these bytes.
    ensures cert { Told (S.left proof.old) (λ bytes. PutsUntil result (reproofed bytes).cert
        (sink_state (K.held cert.old) (K.taken cert.old)) (sink_state (K.held cert.new) (K.taken cert.new))) }
    ensures text { Told (S.left proof.old) (λ bytes. PutsUntil result (reproofed bytes).text
        (sink_state (K.held text.old) (K.taken text.old)) (sink_state (K.held text.new) (K.taken text.new))) }
    // After Done the written proof has the settings and the records of the input.
    ensures same { Told (S.left proof.old) (λ bytes. OnTrue (is_done result) (SaysTheSame bytes (reproofed bytes).cert)) }
    // A proof of format 2 is rewritten byte for byte: after Done the written bytes are the input.
    ensures unchanged { Told (S.left proof.old) (λ bytes. OnTrue (is_done result) (IsProofIn 2 bytes
        → Puts (sink_state (K.held cert.old) (K.taken cert.old)) (sink_state (K.held cert.new) (K.taken cert.new)) bytes)) }
    // Visible or opaque, both outputs extend what was held.
    ensures cert_extends { Extends (sink_state (K.held cert.old) (K.taken cert.old)) (sink_state (K.held cert.new) (K.taken cert.new)) }
    ensures text_extends { Extends (sink_state (K.held text.old) (K.taken text.old)) (sink_state (K.held text.new) (K.taken text.new)) }
    ensures settled { OnTrue (is_done result) ((K.settled cert.new ≡ K.taken cert.new) × (K.settled text.new ≡ K.taken text.new)) }
    // After Done the proof was read to its end, visible or opaque.
    ensures end { OnTrue (is_done result) (IsAtEnd (S.left proof.new)) }
    // A port fault is returned only if that port's counter rose; every other result leaves the counters unchanged.
    ensures read { CountsFault (S.faults proof.old) (S.faults proof.new) (is_read_fault result) }
    ensures write { CountsFaults (K.faults cert.old) (K.faults cert.new) (K.faults text.old) (K.faults text.new) (is_write_fault result) }
{
    let mut through = Through::new(proof);
    match rewrite(alloc, &mut through, cert) {
        Ok(records) => print_records(alloc, records, "\n", text),
        Err(end) => end,
    }
}
