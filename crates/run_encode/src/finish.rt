//! What is written after all groups.

ghost use Rattle.std.specs.Prelude.{◌≡◌, [], length, OnOk, OnErr, is_err};
ghost use Rattle.std.specs.Bool.{OnTrue};
ghost use Rattle.rate_cert.specs.Files.{end_bytes};
ghost use Rattle.run_encode.specs.Outputs.{outputs, nothing, PutsAll, PutsFronts, CountsAllFaults};
ghost use Rattle.run_encode.specs.Encoding.{is_settled, is_write_fault};
ghost use Rattle.run_encode.specs.inner.Steps.{counts_of, Finishes, Closes};

use crate::end::EncodeEnd;
use crate::job::Job;
use crate::lines::last_line;
use pic_y4m::WriteEnd;
use pw_outside::{ByteSink, Failed, put_all};
use qt_movie::MovieWriter;
use rate_cert::ProofWriter;
use std::alloc::Global;

/// Flushes the three sinks.
fn settle<K: ByteSink>(out: &mut K, cert: &mut K, text: &mut K) -> Result<(), Failed>
    ensures same { PutsAll (outputs K.held K.taken out.old cert.old text.old)
        (outputs K.held K.taken out.new cert.new text.new) nothing }
    ensures settled { OnOk result ((K.settled out.new ≡ K.taken out.new) × (K.settled cert.new ≡ K.taken cert.new)
        × (K.settled text.new ≡ K.taken text.new)) }
    ensures cause { CountsAllFaults K.faults out.old cert.old text.old out.new cert.new text.new (is_err result) }
{
    out.flush()?;
    cert.flush()?;
    text.flush()
}

/// Writes the proof's end and `line`, and flushes the three sinks.
fn end_files<K: ByteSink>(
    proof: ProofWriter,
    line: &[u8],
    out: &mut K,
    cert: &mut K,
    text: &mut K,
) -> Result<(), Failed>
    ensures ok { OnOk result (PutsAll (outputs K.held K.taken out.old cert.old text.old)
        (outputs K.held K.taken out.new cert.new text.new)
        (record { movie = []; proof = end_bytes proof.progress.count; text = line.now })) }
    ensures err { OnErr result (PutsFronts (outputs K.held K.taken out.old cert.old text.old)
        (outputs K.held K.taken out.new cert.new text.new)
        (record { movie = []; proof = end_bytes proof.progress.count; text = line.now })) }
    ensures settled { OnOk result ((K.settled out.new ≡ K.taken out.new) × (K.settled cert.new ≡ K.taken cert.new)
        × (K.settled text.new ≡ K.taken text.new)) }
    ensures cause { CountsAllFaults K.faults out.old cert.old text.old out.new cert.new text.new (is_err result) }
{
    proof.end(cert)?;
    put_all(text, line)?;
    settle(out, cert, text)
}

/// Writes the movie atom, the proof's end and the last line, and flushes the three sinks. All memory is allocated
/// before the first byte is written.
pub(crate) fn finish<K: ByteSink>(
    alloc: Global,
    job: &Job,
    movie: MovieWriter,
    proof: ProofWriter,
    out: &mut K,
    cert: &mut K,
    text: &mut K,
) -> EncodeEnd
    requires head { movie.head ≡ job.now.head }
    ensures ends { Finishes job.now (counts_of movie proof) result
        (outputs K.held K.taken out.old cert.old text.old) (outputs K.held K.taken out.new cert.new text.new) }
    ensures settled { OnTrue (is_settled result)
        ((K.settled out.new ≡ K.taken out.new) × (K.settled cert.new ≡ K.taken cert.new)
        × (K.settled text.new ≡ K.taken text.new)) }
    ensures write { CountsAllFaults K.faults out.old cert.old text.old out.new cert.new text.new
        (is_write_fault result) }
{
    let line = match last_line(alloc, movie.frames()) {
        Ok(line) => line,
        Err(_) => return EncodeEnd::NoMemory,
    };
    match movie.finish(alloc, out) {
        Ok(()) => {}
        Err(WriteEnd::NoMemory) => return EncodeEnd::NoMemory,
        Err(WriteEnd::Failed) => return EncodeEnd::WriteFault,
    }
    match end_files(proof, &line, out, cert, text) {
        Ok(()) => EncodeEnd::Done,
        Err(_) => EncodeEnd::WriteFault,
    }
}

/// Writes the end of a proof whose last record says that no choice fits, and flushes the three sinks.
pub(crate) fn close<K: ByteSink>(
    proof: ProofWriter,
    frame: u32,
    least: u64,
    out: &mut K,
    cert: &mut K,
    text: &mut K,
) -> EncodeEnd
    ensures ends { Closes proof.progress.count frame least result
        (outputs K.held K.taken out.old cert.old text.old) (outputs K.held K.taken out.new cert.new text.new) }
    ensures settled { OnTrue (is_settled result)
        ((K.settled out.new ≡ K.taken out.new) × (K.settled cert.new ≡ K.taken cert.new)
        × (K.settled text.new ≡ K.taken text.new)) }
    ensures write { CountsAllFaults K.faults out.old cert.old text.old out.new cert.new text.new
        (is_write_fault result) }
{
    match end_files(proof, &[], out, cert, text) {
        Ok(()) => EncodeEnd::TooSmall { frame, least },
        Err(_) => EncodeEnd::WriteFault,
    }
}
