//! One iteration of the loop over groups: reads a group, codes it by its best choice, and writes it.

ghost use Rattle.std.specs.Prelude.{◌≡◌, ◌≤◌, IsSome, length, false};
ghost use Rattle.std.specs.Bool.{OnTrue};
ghost use Rattle.std.specs.Io.KnownBytes.{IsAtEnd};
ghost use Rattle.pw_outside.specs.Ports.{CountsFault};
ghost use Rattle.pic_raw.specs.Any.{IsReader, head_of, frames_of};
ghost use Rattle.run_encode.specs.Groups.{IsJob};
ghost use Rattle.run_encode.specs.Outputs.{outputs, CountsAllFaults, ExtendsAll};
ghost use Rattle.run_encode.specs.inner.Turns.{is_done_turn, is_read_turn, is_write_turn, is_last, goes_on, Moves};
ghost use Rattle.run_encode.specs.inner.Steps.{IsOpen, left_by, counts_of, TurnIs};

use crate::coding::encode_frames;
use crate::end::EncodeEnd;
use crate::job::Job;
use crate::reading::read_group;
use pic_raw::AnyReader;
use pw_outside::{ByteSink, ByteSource};
use qt_movie::MovieWriter;
use rate_cert::ProofWriter;
use std::alloc::Global;

/// The outcome of an iteration.
#[derive(Clone, Copy, Debug, PartialEq, Eq)]
pub enum Turn {
    /// A whole group was written.
    Whole,
    /// The last group was written, which has fewer pictures.
    Last,
    /// There was no picture left.
    End,
    /// The run ends with this outcome.
    Ended(EncodeEnd),
}

/// Reads a group, chooses its indices, and writes its frames, its record and its lines.
pub(crate) fn encode_next_group<S: ByteSource, K: ByteSink>(
    alloc: Global,
    job: &Job,
    reader: &mut AnyReader,
    pictures: &mut S,
    movie: &mut MovieWriter,
    proof: &mut ProofWriter,
    out: &mut K,
    cert: &mut K,
    text: &mut K,
) -> Turn
    requires job { IsJob job.now }
    requires head { head_of reader.old ≡ job.now.head }
    requires reader { IsReader reader.old }
    requires number { length movie.old.sizes ≡ frames_of reader.old }
    requires open { IsOpen job.now proof.old }
    requires records { proof.old.progress.count ≤ frames_of reader.old }
    ensures told { OnTrue (goes_on result) (IsSome (S.left pictures.old) → IsSome (S.left pictures.new)) }
    ensures turn { IsSome (S.left pictures.old)
        → TurnIs job.now (frames_of reader.old) (frames_of reader.new) (left_by reader.old (S.left pictures.old))
        (left_by reader.new (S.left pictures.new))
        (counts_of movie.old proof.old) (counts_of movie.new proof.new) result
        (outputs K.held K.taken out.old cert.old text.old) (outputs K.held K.taken out.new cert.new text.new) }
    ensures extends { ExtendsAll (outputs K.held K.taken out.old cert.old text.old)
        (outputs K.held K.taken out.new cert.new text.new) }
    ensures moves { OnTrue (goes_on result)
        (Moves reader.old reader.new (counts_of movie.new proof.new) (length movie.new.sizes)) }
    ensures reader { IsReader reader.new }
    ensures open { OnTrue (goes_on result) (IsOpen job.now proof.new) }
    ensures head { movie.new.head ≡ movie.old.head }
    ensures end { OnTrue (is_last result) (IsAtEnd (S.left pictures.new)) }
    ensures kinds { is_done_turn result ≡ false }
    ensures read { CountsFault (S.faults pictures.old) (S.faults pictures.new) (is_read_turn result) }
    ensures write { CountsAllFaults K.faults out.old cert.old text.old out.new cert.new text.new
        (is_write_turn result) }
{
    let number = movie.frames();
    let frames = match read_group(alloc, job, reader, pictures) {
        Ok(frames) => frames,
        Err(end) => return Turn::Ended(end),
    };
    if frames.is_empty() {
        return Turn::End;
    }
    match encode_frames(alloc, job, number, &frames, movie, proof, out, cert, text) {
        Ok(()) => {
            if frames.len() < usize::from(job.group) {
                Turn::Last
            } else {
                Turn::Whole
            }
        }
        Err(end) => Turn::Ended(end),
    }
}
