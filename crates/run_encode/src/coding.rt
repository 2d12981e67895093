//! Coding the frames of a group by the best choice, and writing them.

ghost use Rattle.std.specs.Prelude.{◌≡◌, ◌+◌, ◌≤◌, ◌<◌, ◌++◌, length, map, false, IsTrue, OnOk, OnErr, is_err};
ghost use Rattle.std.specs.List.{All};
ghost use Rattle.pw_outside.specs.Ports.{CountsFault};
ghost use Rattle.pw_outside.specs.Writing.{Puts, PutsFront};
ghost use Rattle.pr_frame.specs.Written.{coded_bytes};
ghost use Rattle.qt_tables.specs.declared.tables.TheConstants.{MAX_SAMPLES};
ghost use Rattle.rate_table.specs.Records.{IsGoodFit};
ghost use Rattle.rate_table.specs.Table.{least_bytes};
ghost use Rattle.rate_cert.specs.Files.{record_bytes, IsPrintable, most_records};
ghost use Rattle.rate_cert.specs.Records.{none};
ghost use Rattle.rate_layers.specs.Best.{TellsBest, TellsLayers, PassesByBest};
ghost use Rattle.run_encode.specs.Groups.{IsJob, IsFrameOf, table_of_group, coded_group};
ghost use Rattle.run_encode.specs.Outputs.{state_of, outputs, PutsAll, PutsFronts, CountsAllFaults};
ghost use Rattle.run_encode.specs.inner.Steps.{IsOpen, counts_of};
ghost use Rattle.run_encode.specs.inner.Turns.{is_done_end, is_write_end};
ghost use Rattle.run_encode.specs.inner.Over.{FramesEnd, HasFitting, fit_lists};

use crate::end::EncodeEnd;
use crate::fit::Fit;
use crate::frames::write_frames;
use crate::job::Job;
use crate::lines::lines_for;
use crate::tables::table_for;
use pw_outside::{ByteSink, Failed, put_all};
use qt_movie::MovieWriter;
use rate_build::Coefficients;
use rate_cert::{FrameProof, ProofWriter, Verdict};
use rate_layers::{BestFault, Outcome, best};
use rate_table::FrameTable;
use std::alloc::Global;

/// Writes the frames of a choice, its record and its lines.
fn write_group<K: ByteSink>(
    job: &Job,
    frames: &[Coefficients],
    table: FrameTable,
    fit: Fit,
    lines: &[u8],
    movie: &mut MovieWriter,
    proof: &mut ProofWriter,
    out: &mut K,
    cert: &mut K,
    text: &mut K,
) -> Result<(), Failed>
    requires job { IsJob job.now }
    requires frames { All (IsFrameOf job.now) frames.now }
    requires table { table ≡ table_of_group job.now frames.now }
    requires choice { HasFitting table fit.choice }
    requires printable { IsPrintable job.now.format table fit }
    requires few { length movie.old.sizes + length frames.now ≤ MAX_SAMPLES }
    requires spare { length frames.now ≤ movie.old.spare }
    requires open { IsOpen job.now proof.old }
    requires room { proof.old.progress.count < most_records }
    ensures ok { OnOk result (PutsAll (outputs K.held K.taken out.old cert.old text.old)
        (outputs K.held K.taken out.new cert.new text.new) (fit_lists job.now frames.now fit lines.now)) }
    ensures err { OnErr result (PutsFronts (outputs K.held K.taken out.old cert.old text.old)
        (outputs K.held K.taken out.new cert.new text.new) (fit_lists job.now frames.now fit lines.now)) }
    ensures sizes { OnOk result (movie.new.sizes ≡ movie.old.sizes ++ map length
        (map coded_bytes (coded_group job.now frames.now fit.choice))) }
    ensures records { OnOk result (proof.new.progress.count ≡ proof.old.progress.count + 1) }
    ensures open { OnOk result (length frames.now ≡ job.now.group → IsOpen job.now proof.new) }
    ensures head { movie.new.head ≡ movie.old.head }
    ensures cause { CountsAllFaults K.faults out.old cert.old text.old out.new cert.new text.new (is_err result) }
{
    write_frames(job, frames, &table, &fit.choice, movie, out)?;
    let record = fit.into_proof(table);
    proof.put(cert, &record)?;
    put_all(text, lines)
}

/// Allocates the rest of the memory, then writes the frames of a fitting choice, its record and its lines.
fn write_fit<K: ByteSink>(
    alloc: Global,
    job: &Job,
    number: u32,
    frames: &[Coefficients],
    table: FrameTable,
    fit: Fit,
    movie: &mut MovieWriter,
    proof: &mut ProofWriter,
    out: &mut K,
    cert: &mut K,
    text: &mut K,
) -> Result<(), EncodeEnd>
    requires job { IsJob job.now }
    requires frames { All (IsFrameOf job.now) frames.now }
    requires table { table ≡ table_of_group job.now frames.now }
    requires best { TellsBest table fit }
    requires layers { TellsLayers table fit }
    requires fit { IsGoodFit table fit }
    requires narrow { PassesByBest table → ⊥ }
    requires group { length frames.now ≤ job.now.group }
    requires number { number ≡ length movie.old.sizes }
    requires few { length movie.old.sizes + length frames.now ≤ MAX_SAMPLES }
    requires open { IsOpen job.now proof.old }
    requires room { proof.old.progress.count < most_records }
    ensures ends { FramesEnd job.now number frames.now (counts_of movie.old proof.old)
        (counts_of movie.new proof.new) result
        (outputs K.held K.taken out.old cert.old text.old) (outputs K.held K.taken out.new cert.new text.new) }
    ensures open { OnOk result (length frames.now ≡ job.now.group → IsOpen job.now proof.new) }
    ensures head { movie.new.head ≡ movie.old.head }
    ensures kinds { is_done_end result ≡ false }
    ensures write { CountsAllFaults K.faults out.old cert.old text.old out.new cert.new text.new
        (is_write_end result) }
{
    let lines = match lines_for(alloc, job, number, frames, &table, &fit.choice) {
        Ok(lines) => lines,
        Err(_) => return Err(EncodeEnd::NoMemory),
    };
    match movie.reserve(frames.len() as u32) {
        Ok(()) => {}
        Err(_) => return Err(EncodeEnd::NoMemory),
    }
    match write_group(
        job, frames, table, fit, &lines, movie, proof, out, cert, text,
    ) {
        Ok(()) => Ok(()),
        Err(_) => Err(EncodeEnd::WriteFault),
    }
}

/// Writes a record that says that no choice fits.
fn write_none<K: ByteSink>(
    table: FrameTable,
    least: u64,
    proof: &mut ProofWriter,
    cert: &mut K,
) -> Result<(), Failed>
    requires more { IsTrue proof.old.progress.more }
    requires room { proof.old.progress.count < most_records }
    ensures ok { OnOk result (Puts (state_of K.held K.taken cert.old) (state_of K.held K.taken cert.new)
        (record_bytes proof.old.format (record { table = table; said = none least }))) }
    ensures err { OnErr result (PutsFront (state_of K.held K.taken cert.old) (state_of K.held K.taken cert.new)
        (record_bytes proof.old.format (record { table = table; said = none least }))) }
    ensures records { OnOk result (proof.new.progress.count ≡ proof.old.progress.count + 1) }
    ensures cause { CountsFault (K.faults cert.old) (K.faults cert.new) (is_err result) }
{
    let record = FrameProof {
        table,
        verdict: Verdict::None { least },
    };
    proof.put(cert, &record)
}

/// Chooses the indices of `frames`, and writes the frames, the record and the lines; or, if no choice fits, a
/// record that says so. All memory is allocated before the first byte is written.
pub(crate) fn encode_frames<K: ByteSink>(
    alloc: Global,
    job: &Job,
    number: u32,
    frames: &[Coefficients],
    movie: &mut MovieWriter,
    proof: &mut ProofWriter,
    out: &mut K,
    cert: &mut K,
    text: &mut K,
) -> Result<(), EncodeEnd>
    requires job { IsJob job.now }
    requires frames { All (IsFrameOf job.now) frames.now }
    requires some { 1 ≤ length frames.now }
    requires group { length frames.now ≤ job.now.group }
    requires number { number ≡ length movie.old.sizes }
    requires few { length movie.old.sizes + length frames.now ≤ MAX_SAMPLES }
    requires open { IsOpen job.now proof.old }
    requires room { proof.old.progress.count < most_records }
    ensures ends { FramesEnd job.now number frames.now (counts_of movie.old proof.old)
        (counts_of movie.new proof.new) result
        (outputs K.held K.taken out.old cert.old text.old) (outputs K.held K.taken out.new cert.new text.new) }
    ensures open { OnOk result (length frames.now ≡ job.now.group → IsOpen job.now proof.new) }
    ensures head { movie.new.head ≡ movie.old.head }
    ensures kinds { is_done_end result ≡ false }
    ensures write { CountsAllFaults K.faults out.old cert.old text.old out.new cert.new text.new
        (is_write_end result) }
{
    let table = match table_for(alloc, job, frames) {
        Ok(table) => table,
        Err(_) => return Err(EncodeEnd::NoMemory),
    };
    match best(alloc, &table) {
        Ok(
            Outcome::Fits {
                choice,
                size,
                error,
                layers,
                multiplier,
            },
        ) => {
            let fit = Fit {
                choice,
                size: size as u32,
                error,
                multiplier,
                layers,
            };
            write_fit(
                alloc, job, number, frames, table, fit, movie, proof, out, cert, text,
            )
        }
        Ok(Outcome::None { least }) => {
            match write_none(table, least, proof, cert) {
                Ok(()) => Err(EncodeEnd::TooSmall {
                    frame: number,
                    least,
                }),
                Err(_) => Err(EncodeEnd::WriteFault),
            }
        }
        Err(BestFault::LayersFull) => Err(EncodeEnd::LayersFull { frame: number }),
        Err(BestFault::NoMemory) => Err(EncodeEnd::NoMemory),
    }
}
