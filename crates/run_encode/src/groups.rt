//! The loop over groups.

ghost use Rattle.std.specs.Prelude.{◌≡◌, [], IsSome, OnOk, false};
ghost use Rattle.std.specs.Io.KnownBytes.{IsAtEnd};
ghost use Rattle.pw_outside.specs.Ports.{CountsFault};
ghost use Rattle.pic_raw.specs.Any.{IsReader, head_of, frames_of};
ghost use Rattle.run_encode.specs.Groups.{IsJob};
ghost use Rattle.run_encode.specs.Outputs.{outputs, CountsAllFaults, ExtendsAll};
ghost use Rattle.run_encode.specs.inner.Turns.{is_done_end, is_read_end, is_write_end};
ghost use Rattle.run_encode.specs.inner.Steps.{IsOpen, left_by, counts_of, GroupsEnd};

use crate::end::EncodeEnd;
use crate::job::Job;
use crate::turn::{Turn, encode_next_group};
use pic_raw::AnyReader;
use pw_outside::{ByteSink, ByteSource};
use qt_movie::MovieWriter;
use rate_cert::ProofWriter;
use std::alloc::Global;

/// Reads, codes and writes all groups. The error is the run's outcome.
pub(crate) fn encode_groups<S: ByteSource, K: ByteSink>(
    alloc: Global,
    job: &Job,
    reader: &mut AnyReader,
    pictures: &mut S,
    movie: &mut MovieWriter,
    proof: &mut ProofWriter,
    out: &mut K,
    cert: &mut K,
    text: &mut K,
) -> Result<(), EncodeEnd>
    requires job { IsJob job.now }
    requires head { head_of reader.old ≡ job.now.head }
    requires reader { IsReader reader.old }
    requires fresh { frames_of reader.old ≡ 0 }
    requires movie { movie.old.sizes ≡ [] }
    requires open { IsOpen job.now proof.old }
    requires proof { proof.old.progress.count ≡ 0 }
    ensures ended { IsSome (S.left pictures.old)
        → GroupsEnd job.now (left_by reader.old (S.left pictures.old)) (counts_of movie.new proof.new) result
        (outputs K.held K.taken out.old cert.old text.old) (outputs K.held K.taken out.new cert.new text.new) }
    ensures extends { ExtendsAll (outputs K.held K.taken out.old cert.old text.old)
        (outputs K.held K.taken out.new cert.new text.new) }
    ensures head { movie.new.head ≡ movie.old.head }
    ensures end { OnOk result (IsAtEnd (S.left pictures.new)) }
    ensures kinds { is_done_end result ≡ false }
    ensures read { CountsFault (S.faults pictures.old) (S.faults pictures.new) (is_read_end result) }
    ensures write { CountsAllFaults K.faults out.old cert.old text.old out.new cert.new text.new
        (is_write_end result) }
{
    'groups: loop {
        match encode_next_group(alloc, job, reader, pictures, movie, proof, out, cert, text) {
            Turn::Whole => {}
            Turn::Last => return Ok(()),
            Turn::End => return Ok(()),
            Turn::Ended(end) => return Err(end),
        }
    }
}
