//! A WAV from a source.

ghost use Rattle.std.specs.Prelude.{◌≡◌, ◌+◌, ◌<◌, ◌≤◌, ◌^◌, OnOk, OnErr};
ghost use Rattle.pw_outside.specs.Ports.{CountsFault};
ghost use Rattle.pw_outside.specs.Reading.{Gives};
ghost use Rattle.pw_outside.specs.Writing.{sink_state};
ghost use Rattle.pcm_track.specs.Faults.{told_copy, is_source_failed, is_sink_failed};
ghost use Rattle.pcm_track.specs.Wav.{passed_over};
ghost use Rattle.pcm_track.specs.Writing.{Copied, CopiedFront};

use crate::fault::{CopyFault, SoundFault, SoundKind, bad};
use crate::form::Pcm;
use crate::wav::read_form;
use pw_outside::{ByteSink, ByteSource, Failed, fill, put_all};
use std::marker::Model;

/// The size of a piece that is copied.
const PIECE: u64 = 4096;

impl From<Failed> for CopyFault {
    ghost use Rattle.std.specs.Prelude.{◌≡◌};
    ghost use Rattle.pcm_track.specs.declared.fault.CopyFault.TheVariants as copies;

    ghost from_gives = { λ a e. e ≡ copies.Sink a };

    fn from(failed: Failed) -> CopyFault {
        CopyFault::Sink(failed)
    }
}

/// Copies at most `PIECE` bytes.
#[tactic(auto, unfolding(crate::specs::Wav::passed_over, pw_outside::specs::Reading::bind), using(crate::proofs::Pieces::front_none))]
fn copy_piece<S: ByteSource, K: ByteSink>(
    source: &mut S,
    place: &mut u64,
    sink: &mut K,
    count: u64,
) -> Result<(), CopyFault>
    requires few { count ≤ PIECE }
    requires room { place.old + count < 2 ^ 64 }
    ensures bytes { Gives told_copy (λ x. tt) (S.left source.old) (S.left source.new) place.old place.new result (passed_over count) }
    ensures place { place.new ≤ place.old + count }
    ensures ok { OnOk result (Copied (S.left source.old) count (sink_state (K.held sink.old) (K.taken sink.old)) (sink_state (K.held sink.new) (K.taken sink.new))) }
    ensures err { OnErr result (CopiedFront (S.left source.old) count (sink_state (K.held sink.old) (K.taken sink.old)) (sink_state (K.held sink.new) (K.taken sink.new))) }
    ensures settled { K.settled sink.old ≤ K.settled sink.new }
    ensures read { CountsFault (S.faults source.old) (S.faults source.new) (is_source_failed result) }
    ensures write { CountsFault (K.faults sink.old) (K.faults sink.new) (is_sink_failed result) }
{
    let mut piece = [0u8; PIECE as usize];
    let piece = &mut piece[..count as usize];
    let given = match fill(source, piece) {
        Ok(given) => given as u64,
        Err(_) => return Err(CopyFault::Sound(SoundFault::Failed)),
    };
    *place += given;
    if given < count {
        return Err(CopyFault::Sound(bad(SoundKind::Truncated, *place)));
    }
    put_all(sink, piece)?;
    Ok(())
}

/// Copies `count` bytes.
fn copy_bytes<S: ByteSource, K: ByteSink>(
    source: &mut S,
    place: &mut u64,
    sink: &mut K,
    count: u64,
) -> Result<(), CopyFault>
    requires room { place.old + count < 2 ^ 64 }
    ensures bytes { Gives told_copy (λ x. tt) (S.left source.old) (S.left source.new) place.old place.new result (passed_over count) }
    ensures place { place.new ≤ place.old + count }
    ensures ok { OnOk result (Copied (S.left source.old) count (sink_state (K.held sink.old) (K.taken sink.old)) (sink_state (K.held sink.new) (K.taken sink.new))) }
    ensures err { OnErr result (CopiedFront (S.left source.old) count (sink_state (K.held sink.old) (K.taken sink.old)) (sink_state (K.held sink.new) (K.taken sink.new))) }
    ensures settled { K.settled sink.old ≤ K.settled sink.new }
    ensures read { CountsFault (S.faults source.old) (S.faults source.new) (is_source_failed result) }
    ensures write { CountsFault (K.faults sink.old) (K.faults sink.new) (is_sink_failed result) }
{
    let mut left = count;
    while 0 < left {
        let piece = left.min(PIECE);
        copy_piece(source, place, sink, piece)?;
        left -= piece;
    }
    Ok(())
}

/// A WAV that was read up to its sound. The sound is then copied piece by piece.
#[derive(Drop)]
pub struct WavReader {
    form: Pcm,
    left: u32,
    place: u64,
}

impl Model for WavReader {
    ghost use Rattle.std.specs.Prelude.{◌≤◌, ◌+◌, ◌^◌};
    ghost use Rattle.pcm_track.specs.Wav.{Reader, IsPcm, sound_size};

    ghost Value = { Reader };

    ghost view = { λ r. record { form = r.form; left = r.left; place = r.place } };

    ghost invariant = { λ r. IsPcm r.form × (r.left ≤ r.form.frames) × (r.place + sound_size r.form.channels r.left ≤ 2 ^ 44) };
}

impl WavReader {
    ghost use Rattle.std.specs.Prelude.{◌≡◌, ◌+◌, ◌≤◌, OnOk, OnErr, IfOk};
    ghost use Rattle.pw_outside.specs.Ports.{CountsFault};
    ghost use Rattle.pw_outside.specs.Reading.{GivesValue, Gives};
    ghost use Rattle.pw_outside.specs.Writing.{sink_state};
    ghost use Rattle.pcm_track.specs.Faults.{told_fault, is_failed, told_copy, is_source_failed, is_sink_failed};
    ghost use Rattle.pcm_track.specs.Wav.{form_at, passed_over, sound_size, IsPcm, place_of};
    ghost use Rattle.pcm_track.specs.Writing.{Copied, CopiedFront};

    /// Reads a WAV up to its sound. Takes no memory.
    ///
    /// `SoundFault::Bad` is the first fault in file order: `Magic` at 0 or 8, `Form` at a chunk's offset,
    /// `Truncated` at the end of an input that ends before the sound.
    pub fn start<S: ByteSource>(source: &mut S) -> Result<WavReader, SoundFault>
        ensures bytes { Gives told_fault (λ r. r.form) (S.left source.old) (S.left source.new) 0 (place_of result) result form_at }
        ensures form { IfOk result (λ r. IsPcm r.form) }
        ensures whole { IfOk result (λ r. r.left ≡ r.form.frames) }
        // The error is `Failed` exactly if a call of the source failed.
        ensures cause { CountsFault (S.faults source.old) (S.faults source.new) (is_failed result) }
    {
        let mut place = 0;
        let form = read_form(source, &mut place)?;
        Ok(WavReader {
            form,
            left: form.frames,
            place,
        })
    }

    /// The format of the sound.
    pub fn form(&self) -> Pcm
        ensures { result ≡ self.now.form }
    {
        self.form
    }

    /// Copies the next `frames` frames of the sound to a sink. Takes no memory.
    ///
    /// If bytes of them are missing, the error is `Truncated` at the end of the input; otherwise it says which port
    /// failed. After an error the sink holds a prefix of the frames.
    pub fn copy<S: ByteSource, K: ByteSink>(
        &mut self,
        source: &mut S,
        sink: &mut K,
        frames: u32,
    ) -> Result<(), CopyFault>
        requires { frames ≤ self.old.left }
        ensures bytes { Gives told_copy (λ x. tt) (S.left source.old) (S.left source.new) self.old.place self.new.place result (passed_over (sound_size self.old.form.channels frames)) }
        ensures ok { OnOk result (Copied (S.left source.old) (sound_size self.old.form.channels frames) (sink_state (K.held sink.old) (K.taken sink.old)) (sink_state (K.held sink.new) (K.taken sink.new))) }
        ensures err { OnErr result (CopiedFront (S.left source.old) (sound_size self.old.form.channels frames) (sink_state (K.held sink.old) (K.taken sink.old)) (sink_state (K.held sink.new) (K.taken sink.new))) }
        ensures form { self.new.form ≡ self.old.form }
        ensures left { OnOk result (self.new.left + frames ≡ self.old.left) }
        ensures settled { K.settled sink.old ≤ K.settled sink.new }
        // The error says that a port failed exactly if a call of that port failed.
        ensures read { CountsFault (S.faults source.old) (S.faults source.new) (is_source_failed result) }
        ensures write { CountsFault (K.faults sink.old) (K.faults sink.new) (is_sink_failed result) }
    {
        let size = 2 * u64::from(self.form.channels) * u64::from(frames);
        let mut place = self.place;
        let copied = copy_bytes(source, &mut place, sink, size);
        self.place = place;
        self.left -= frames;
        copied
    }
}
