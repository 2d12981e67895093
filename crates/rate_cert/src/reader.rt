//! Reads proof files.

ghost use Rattle.std.specs.Prelude.{◌≡◌, ◌+◌, ◌<◌, ◌≤◌, ◌^◌, None, IfOk, IfSome, IfNone, OnOk, OnErr, true, false};
ghost use Rattle.std.specs.Io.KnownBytes.{IsAtEnd};
ghost use Rattle.pw_outside.specs.Ports.{CountsFault, GoesOn};
ghost use Rattle.pw_outside.specs.Reading.{Gives};
ghost use Rattle.rate_table.specs.Reading.{told_fault, is_failed, is_out_of_memory};
ghost use Rattle.rate_cert.specs.Settings.{IsSettings};
ghost use Rattle.rate_cert.specs.Head.{head_at};
ghost use Rattle.rate_cert.specs.Files.{IsFormat, IsWritten, MayStand, no_records, after, most_records, mark_at, end_at, next_at, place_of};

use crate::field::SHORT;
use crate::head::{format_of, settings_of};
use crate::progress::{END, MAX_RECORDS, RECORD, goes_on};
use crate::proof::FrameProof;
use crate::record::record_of;
use crate::settings::Settings;
use pw_outside::{ByteSource, fill};
use rate_table::{ProofKind, TableFault, bad, read_u8, read_u32};
use std::alloc::Global;
use std::marker::Model;

/// Reads the next mark, after `count` records; the result is whether it is a record's. `more` says whether a record
/// may follow.
#[tactic(auto, unfolding(crate::specs::Files::mark_at, pw_outside::specs::Reading::bind))]
fn mark_of<S: ByteSource>(
    source: &mut S,
    place: &mut u64,
    count: u32,
    more: bool,
) -> Result<bool, TableFault>
    requires { place.old + 1 < 2 ^ 64 }
    ensures bytes { Gives told_fault (λ x. x) (S.left source.old) (S.left source.new) place.old place.new result
        (mark_at (record { count = count; more = more })) }
    ensures stands { IfOk result (λ b. b ≡ true → MayStand (record { count = count; more = more })) }
    ensures place { place.new ≤ place.old + 1 }
    ensures becomes { GoesOn S.becomes source.old source.new }
    ensures cause { CountsFault (S.faults source.old) (S.faults source.new) (is_failed result) }
    ensures memory { is_out_of_memory result ≡ false }
{
    let at = *place;
    let mark = read_u8(source, place, SHORT)?;
    if mark != RECORD && mark != END {
        return Err(bad(ProofKind::ProofShape, at));
    }
    if mark == RECORD && (!more || MAX_RECORDS <= count) {
        return Err(bad(ProofKind::ProofShape, at));
    }
    Ok(mark == RECORD)
}

/// Reads the end after its mark, after `count` records.
#[tactic(auto, unfolding(crate::specs::Files::end_at, pw_outside::specs::Reading::bind))]
fn end_of<S: ByteSource>(source: &mut S, place: &mut u64, count: u32) -> Result<(), TableFault>
    requires { place.old + 4 < 2 ^ 64 }
    ensures bytes { Gives told_fault (λ _. None) (S.left source.old) (S.left source.new) place.old place.new result
        (end_at count) }
    ensures end { OnOk result (IsAtEnd (S.left source.new)) }
    ensures place { place.new ≤ place.old + 4 }
    ensures becomes { GoesOn S.becomes source.old source.new }
    ensures cause { CountsFault (S.faults source.old) (S.faults source.new) (is_failed result) }
    ensures memory { is_out_of_memory result ≡ false }
{
    let at = *place;
    let number = read_u32(source, place, SHORT)?;
    if number != count {
        return Err(bad(ProofKind::ProofShape, at));
    }
    let mut byte = [0u8; 1];
    let behind = fill(source, &mut byte)?;
    if 0 < behind {
        return Err(bad(ProofKind::ProofTrailing, *place));
    }
    Ok(())
}

/// A proof file that is being read. It holds its offset in the file, but no record.
#[derive(Drop)]
pub struct ProofReader {
    settings: Settings,
    format: u8,
    count: u32,
    more: bool,
    ended: bool,
    place: u64,
}

impl Model for ProofReader {
    ghost use Rattle.std.specs.Prelude.{◌+◌, ◌*◌, ◌^◌, ◌≤◌, if◌then◌else◌};
    ghost use Rattle.rate_cert.specs.Settings.{IsSettings};
    ghost use Rattle.rate_cert.specs.Files.{Reading, IsFormat, most_records};

    ghost Value = { Reading };

    ghost view = { λ r. record { settings = r.settings; format = r.format; progress = record { count = r.count; more = r.more }; ended = r.ended; place = r.place } };

    ghost invariant = { λ r. IsSettings r.settings × IsFormat r.format × (r.count ≤ most_records) × (r.place ≤ 157 + r.count * 2 ^ 30 + (if r.ended then 5 else 0)) };
}

impl ProofReader {
    /// Reads the head of a proof, in format 1 or 2.
    ///
    /// The errors are `Bad` with the first error of the bytes, and `Failed` if a call of the source failed.
    #[tactic(auto, unfolding(crate::specs::Head::head_at, pw_outside::specs::Reading::bind))]
    pub fn start<S: ByteSource>(source: &mut S) -> Result<ProofReader, TableFault>
        // If the source's bytes are visible, the result is the format and the settings that they begin with, or
        // their first error.
        ensures bytes { Gives told_fault (λ r. (r.format, r.settings)) (S.left source.old) (S.left source.new) 0
            (place_of result) result head_at }
        ensures settings { IfOk result (λ r. IsSettings r.settings) }
        ensures format { IfOk result (λ r. IsFormat r.format) }
        ensures fresh { IfOk result (λ r. (r.progress ≡ no_records) × (r.ended ≡ false)) }
        ensures becomes { GoesOn S.becomes source.old source.new }
        // The error is `Failed` exactly if a call of the source failed.
        ensures cause { CountsFault (S.faults source.old) (S.faults source.new) (is_failed result) }
        // Takes no memory.
        ensures memory { is_out_of_memory result ≡ false }
    {
        let mut place = 0;
        let format = format_of(source, &mut place)?;
        let settings = settings_of(source, &mut place)?;
        Ok(ProofReader {
            settings,
            format,
            count: 0,
            more: true,
            ended: false,
            place,
        })
    }

    /// The settings of the proof.
    pub fn settings(&self) -> Settings
        ensures value { result ≡ self.now.settings }
        ensures settings { IsSettings result }
    {
        self.settings
    }

    /// The format of the proof, 1 or 2.
    pub fn format(&self) -> u8
        ensures value { result ≡ self.now.format }
        ensures format { IsFormat result }
    {
        self.format
    }

    /// Reads the next record; `None` at the end of the proof, which is the end of the file. It isn't called after
    /// that.
    ///
    /// The errors are `Bad` with the first error of the bytes, `Failed` if a call of the source failed, and
    /// `NoMemory`. They leave the reader unchanged.
    #[tactic(auto, unfolding(crate::specs::Files::next_at, crate::specs::Files::some_at, pw_outside::specs::Reading::bind))]
    pub fn next<S: ByteSource>(
        &mut self,
        alloc: Global,
        source: &mut S,
    ) -> Result<Option<FrameProof>, TableFault>
        requires { self.old.ended ≡ false }
        // If the source's bytes are visible, the result is the next record, or the end, or the first error.
        ensures bytes { Gives told_fault (λ p. p) (S.left source.old) (S.left source.new) self.old.place self.new.place
            result (next_at self.old.format self.old.progress) }
        // A record that was read can be written at the same position.
        ensures written { IfOk result (λ p. IfSome p (λ p. MayStand self.old.progress × IsWritten self.old.format p)) }
        // The end is the end of the input.
        ensures end { IfOk result (λ p. IfNone p (IsAtEnd (S.left source.new))) }
        ensures after { IfOk result (λ p. (self.new.settings ≡ self.old.settings) × (self.new.format ≡ self.old.format)
            × (self.new.progress ≡ after self.old.settings self.old.progress p)) }
        ensures ended { IfOk result (λ p. IfSome p (λ _. self.new.ended ≡ false)) }
        ensures kept { OnErr result (self.new ≡ self.old) }
        ensures becomes { GoesOn S.becomes source.old source.new }
        // The error is `Failed` exactly if a call of the source failed.
        ensures cause { CountsFault (S.faults source.old) (S.faults source.new) (is_failed result) }
    {
        let mut place = self.place;
        if mark_of(source, &mut place, self.count, self.more)? {
            let record = record_of(alloc, source, &mut place, self.format)?;
            self.more = goes_on(&self.settings, &record);
            self.count += 1;
            self.place = place;
            return Ok(Some(record));
        }
        end_of(source, &mut place, self.count)?;
        self.place = place;
        self.ended = true;
        Ok(None)
    }
}
