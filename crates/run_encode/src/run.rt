//! The run of `encode`.

ghost use Rattle.std.specs.Prelude.{◌≡◌, ◌⊎◌, ℕ, IsSome, IfSome, IfNone, true, false};
ghost use Rattle.std.specs.Bool.{OnTrue};
ghost use Rattle.std.specs.Io.KnownBytes.{IsAtEnd};
ghost use Rattle.pw_outside.specs.Ports.{CountsFault};
ghost use Rattle.pw_outside.specs.Reading.{Told};
ghost use Rattle.pic_raw.specs.Any.{IsReader, head_of, frames_of, pictures_of};
ghost use Rattle.pic_y4m.specs.HeadLine.{IsHead};
ghost use Rattle.run_encode.specs.declared.end.EncodeEnd.TheVariants as ends;
ghost use Rattle.run_encode.specs.Groups.{AreWords, IsJob, IsJobOf, has_layout};
ghost use Rattle.run_encode.specs.Outputs.{outputs, CountsAllFaults, ExtendsAll};
ghost use Rattle.run_encode.specs.Encoding.{is_done, is_read_fault, is_write_fault, is_settled, StopsFirst, RanOn};
ghost use Rattle.run_encode.specs.Headline.{HasHeadline};
ghost use Rattle.run_encode.specs.inner.Steps.{left_by, RanSo};

use crate::end::EncodeEnd;
use crate::finish::{close, finish};
use crate::groups::encode_groups;
use crate::job::{EncodeWords, Job};
use crate::laws::{cut_has_headline, encoded_has_headline, encoding_goes_on};
use crate::reading::end_of;
use crate::settings::settings_for;
use pic_raw::{AnyReader, left_have_form};
use pic_y4m::{Head, PictureKind};
use pr_geom::Layout;
use pr_quant::Weights;
use pr_quant::laws::named_weights_are_in_range;
use pw_outside::{ByteSink, ByteSource};
use qt_movie::MovieWriter;
use rate_cert::ProofWriter;
use rate_table::MAX_TABLE_SLICES;
use std::alloc::Global;

/// The parameters that all frames share; `None` if the pictures have no layout.
fn job_of(words: &EncodeWords, head: &Head) -> Option<Job>
    requires words { AreWords words.now }
    requires head { IsHead head.now }
    ensures some { IfSome result (λ j.
        IsJob j × IsJobOf words.now head.now j × (has_layout words.now head.now ≡ true)) }
    ensures none { IfNone result (has_layout words.now head.now ≡ false) }
{
    let layout = match Layout::new(
        head.width,
        head.height,
        words.log2,
        head.interlace,
        head.chroma,
    ) {
        Ok(layout) => layout,
        Err(_) => return None,
    };
    named_weights_are_in_range();
    let slices = u32::from(layout.pictures()) * layout.slices();
    if u32::from(words.group) * slices > MAX_TABLE_SLICES {
        return None;
    }
    Some(Job {
        head: *head,
        layout,
        weights: Weights::named(words.matrix),
        lo: words.lo,
        hi: words.hi,
        budget: words.budget,
        group: words.group,
        raw: words.raw.is_some(),
        format: words.proof,
    })
}

/// The first frame of the group for which no choice fits, and the size of its smallest choice, if that is the
/// outcome.
fn small_of(end: EncodeEnd) -> Option<(u32, u64)>
    ensures some { IfSome result (λ small. end ≡ ends.TooSmall small.0 small.1) }
    ensures none { IfNone result ((frame : ℕ) (least : ℕ) → end ≡ ends.TooSmall frame least → ⊥) }
{
    match end {
        EncodeEnd::TooSmall { frame, least } => Some((frame, least)),
        EncodeEnd::Done => None,
        EncodeEnd::NoMemory => None,
        EncodeEnd::ReadFault => None,
        EncodeEnd::WriteFault => None,
        EncodeEnd::BadPictures { .. } => None,
        EncodeEnd::LayersFull { .. } => None,
    }
}

/// Encodes the pictures after the head.
fn encode_pictures<S: ByteSource, K: ByteSink>(
    alloc: Global,
    job: &Job,
    reader: &mut AnyReader,
    pictures: &mut S,
    out: &mut K,
    cert: &mut K,
    text: &mut K,
) -> EncodeEnd
    requires job { IsJob job.now }
    requires head { head_of reader.old ≡ job.now.head }
    requires reader { IsReader reader.old }
    requires fresh { frames_of reader.old ≡ 0 }
    ensures ran { IsSome (S.left pictures.old) → RanSo job.now (left_by reader.old (S.left pictures.old)) result
        (outputs K.held K.taken out.old cert.old text.old) (outputs K.held K.taken out.new cert.new text.new) }
    ensures extends { ExtendsAll (outputs K.held K.taken out.old cert.old text.old)
        (outputs K.held K.taken out.new cert.new text.new) }
    ensures settled { OnTrue (is_settled result)
        ((K.settled out.new ≡ K.taken out.new) × (K.settled cert.new ≡ K.taken cert.new)
        × (K.settled text.new ≡ K.taken text.new)) }
    ensures end { OnTrue (is_done result) (IsAtEnd (S.left pictures.new)) }
    ensures read { CountsFault (S.faults pictures.old) (S.faults pictures.new) (is_read_fault result) }
    ensures write { CountsAllFaults K.faults out.old cert.old text.old out.new cert.new text.new
        (is_write_fault result) }
{
    let mut movie = match MovieWriter::begin(alloc, out, &job.head) {
        Ok(movie) => movie,
        Err(_) => return EncodeEnd::WriteFault,
    };
    let mut proof = match ProofWriter::begin(cert, &settings_for(job), job.format) {
        Ok(proof) => proof,
        Err(_) => return EncodeEnd::WriteFault,
    };
    match encode_groups(
        alloc, job, reader, pictures, &mut movie, &mut proof, out, cert, text,
    ) {
        Ok(()) => finish(alloc, job, movie, proof, out, cert, text),
        Err(end) => match small_of(end) {
            Some((frame, least)) => close(proof, frame, least, out, cert, text),
            None => end,
        },
    }
}

/// Reads pictures group by group. Writes a movie of their frames to `out`, a proof of the chosen indices to `cert`,
/// and to `text` a line for each frame and a last line with their number.
///
/// All memory of a group is allocated before its first byte is written.
pub fn encode_run<S: ByteSource, K: ByteSink>(
    alloc: Global,
    words: &EncodeWords,
    pictures: &mut S,
    out: &mut K,
    cert: &mut K,
    text: &mut K,
) -> EncodeEnd
    requires words { AreWords words.now }
    // If the pictures' bytes are visible, they decide the outcome and all that is written. After a write fault each
    // sink has a prefix of the result of encoding; after every other refusal the sinks hold whole groups or
    // nothing.
    ensures ran { Told (S.left pictures.old) (λ bytes.
        StopsFirst result (outputs K.held K.taken out.old cert.old text.old)
        (outputs K.held K.taken out.new cert.new text.new)
        ⊎ RanOn words.now (pictures_of words.now.raw bytes) result (outputs K.held K.taken out.old cert.old text.old)
        (outputs K.held K.taken out.new cert.new text.new)) }
    // What was appended has the headline: each group has at most its budget's bytes; each sample stands for its
    // picture's coefficients quantised at the chosen indices; no choice that fits has less error; the printed
    // records are good; if no choice fits, the last record says so.
    ensures headline { Told (S.left pictures.old) (λ bytes.
        HasHeadline words.now (pictures_of words.now.raw bytes) result
        (outputs K.held K.taken out.old cert.old text.old) (outputs K.held K.taken out.new cert.new text.new)) }
    // For every outcome, and whether the pictures' bytes are visible or opaque, each sink extends what it held.
    ensures extends { ExtendsAll (outputs K.held K.taken out.old cert.old text.old)
        (outputs K.held K.taken out.new cert.new text.new) }
    // After Done and TooSmall all that was written is flushed.
    ensures settled { OnTrue (is_settled result)
        ((K.settled out.new ≡ K.taken out.new) × (K.settled cert.new ≡ K.taken cert.new)
        × (K.settled text.new ≡ K.taken text.new)) }
    // Done says that the input was read to its end.
    ensures end { OnTrue (is_done result) (IsAtEnd (S.left pictures.new)) }
    // A port's fault is the outcome only if that port's fault count rose; every other outcome leaves the counts
    // unchanged.
    ensures read { CountsFault (S.faults pictures.old) (S.faults pictures.new) (is_read_fault result) }
    ensures write { CountsAllFaults K.faults out.old cert.old text.old out.new cert.new text.new
        (is_write_fault result) }
{
    encoded_has_headline();
    cut_has_headline();
    encoding_goes_on();
    left_have_form();
    let mut reader = match AnyReader::start(pictures, words.raw) {
        Ok(reader) => reader,
        Err(fault) => return end_of(fault),
    };
    match job_of(words, &reader.head()) {
        Some(job) => encode_pictures(alloc, &job, &mut reader, pictures, out, cert, text),
        None => EncodeEnd::BadPictures {
            kind: PictureKind::TooManySlices,
            place: 0,
        },
    }
}
