//! Frames written straight from their coefficients.

ghost use Rattle.std.specs.Prelude.{◌≡◌, ◌+◌, ◌*◌, ◌<◌, ◌≤◌, ◌^◌, length, take, map, sum, OnOk, OnErr, is_err};
ghost use Rattle.std.specs.Int.{w16, to_be_bytes};
ghost use Rattle.std.specs.List.{All, AllZip, flat_map};
ghost use Rattle.pw_outside.specs.Ports.{CountsFault};
ghost use Rattle.pw_outside.specs.Writing.{sink_state, Puts, PutsFront};
ghost use Rattle.rate_table.specs.declared.table.TheConstants.{MAX_TABLE_SLICES};
ghost use Rattle.pr_geom.specs.declared.places.TheConstants.{MAX_SLICES};
ghost use Rattle.pr_geom.specs.Layout.{slices_of};
ghost use Rattle.pr_geom.specs.Slices.{pictures_of};
ghost use Rattle.pr_quant.specs.Matrices.{IsWeight};
ghost use Rattle.pr_head.specs.Laws.{sizes_bytes};
ghost use Rattle.pr_frame.specs.Coded.{IsWritableHeader};
ghost use Rattle.pr_frame.specs.Ready.{IsReadyPart, IsReadyAlpha};
ghost use Rattle.pr_frame.specs.Written.{slice_bytes, picture_bytes, picture_length, coded_bytes};
ghost use Rattle.rate_build.specs.Measures.{quantised_part, ArePart};
ghost use Rattle.rate_build.specs.Coding.{coded_slice, coded_slices, coded_picture, coded_frame, weights_in, IsHeaderOf, IsIndex};
ghost use Rattle.rate_build.specs.Tables.{HasParts};
ghost use Rattle.rate_build.specs.Chosen.{AreTablesOf, IsPart, AreChosen, Reaches, size_in, sizes_in};

use crate::costs::quantise_blocks;
use crate::slices::{Coefficients, SliceCoefficients};
use crate::tables::fixed_size;
use pr_coeff::Block;
use pr_frame::write_slice;
use pr_head::{FrameHeader, write_frame_header, write_picture_header};
use pr_quant::multipliers_of;
use pw_outside::{ByteSink, Failed, put};
use rate_table::{FrameTable, SliceTable};

/// The greatest number of blocks of a part of a slice.
const MOST_BLOCKS: usize = 32;

// ---- sizes

/// The size of a slice at this index. Its table has all indices from its first one on, and this one is among them.
fn size_at(table: &SliceTable, index: u8) -> u16
    requires { Reaches table.now index }
    ensures value { result ≡ size_in table.now index }
    ensures short { result ≤ 65535 }
{
    let entries = table.entries();
    entries[usize::from(index - entries[0].index)].size
}

/// The sum of the sizes of slices at these indices.
fn sizes_together(tables: &[SliceTable], choice: &[u8]) -> u64
    requires few { length tables.now ≤ MAX_TABLE_SLICES }
    requires each { AllZip Reaches tables.now choice.now }
    ensures value { result ≡ sum (sizes_in tables.now choice.now) }
    ensures short { result ≤ 65535 * length tables.now }
{
    let mut size = 0;
    for i in 0..tables.len() {
        size += u64::from(size_at(&tables[i], choice[i]));
    }
    size
}

/// Writes the size of a slice at this index.
fn write_size<K: ByteSink>(table: &SliceTable, index: u8, sink: &mut K) -> Result<(), Failed>
    requires { Reaches table.now index }
    ensures ok { OnOk result (Puts (sink_state (K.held sink.old) (K.taken sink.old)) (sink_state (K.held sink.new) (K.taken sink.new)) (to_be_bytes w16 (size_in table.now index))) }
    ensures err { OnErr result (PutsFront (sink_state (K.held sink.old) (K.taken sink.old)) (sink_state (K.held sink.new) (K.taken sink.new)) (to_be_bytes w16 (size_in table.now index))) }
    ensures settled { K.settled sink.old ≤ K.settled sink.new }
    ensures cause { CountsFault (K.faults sink.old) (K.faults sink.new) (is_err result) }
{
    let bytes = size_at(table, index).to_be_bytes();
    match put(sink, &bytes) {
        Ok(()) => Ok(()),
        Err(_) => Err(Failed),
    }
}

/// Writes the sizes of slices at these indices, in order.
fn write_sizes<K: ByteSink>(
    tables: &[SliceTable],
    choice: &[u8],
    sink: &mut K,
) -> Result<(), Failed>
    requires each { AllZip Reaches tables.now choice.now }
    ensures ok { OnOk result (Puts (sink_state (K.held sink.old) (K.taken sink.old)) (sink_state (K.held sink.new) (K.taken sink.new)) (sizes_bytes (sizes_in tables.now choice.now))) }
    ensures err { OnErr result (PutsFront (sink_state (K.held sink.old) (K.taken sink.old)) (sink_state (K.held sink.new) (K.taken sink.new)) (sizes_bytes (sizes_in tables.now choice.now))) }
    ensures settled { K.settled sink.old ≤ K.settled sink.new }
    ensures cause { CountsFault (K.faults sink.old) (K.faults sink.new) (is_err result) }
{
    for i in 0..tables.len() {
        write_size(&tables[i], choice[i], sink)?;
    }
    Ok(())
}

// ---- slices

/// Quantises the blocks of a part at an index, into the first blocks of the buffer.
fn quantise_part(
    blocks: &[Block],
    weights: &[u8; 64],
    index: u8,
    quantised: &mut [Block; MOST_BLOCKS],
)
    requires part { ArePart blocks.now }
    requires weights { All IsWeight weights.now }
    requires index { IsIndex index }
    ensures value { take (length blocks.now) quantised.new ≡ quantised_part weights.now index blocks.now }
    ensures ready { IsReadyPart (quantised_part weights.now index blocks.now) }
{
    let multipliers = multipliers_of(weights, index);
    let _ = quantise_blocks(blocks, &multipliers, quantised);
}

/// Writes a slice, quantised at an index.
fn write_one<K: ByteSink>(
    slice: &SliceCoefficients,
    header: &FrameHeader,
    index: u8,
    sink: &mut K,
) -> Result<(), Failed>
    requires parts { HasParts slice.now }
    requires alpha { IsReadyAlpha header.now.alpha slice.now.alpha }
    requires header { IsWritableHeader header.now }
    requires index { IsIndex index }
    ensures ok { OnOk result (Puts (sink_state (K.held sink.old) (K.taken sink.old)) (sink_state (K.held sink.new) (K.taken sink.new)) (slice_bytes header.now.interlace header.now.alpha (coded_slice (weights_in header.now) index slice.now))) }
    ensures err { OnErr result (PutsFront (sink_state (K.held sink.old) (K.taken sink.old)) (sink_state (K.held sink.new) (K.taken sink.new)) (slice_bytes header.now.interlace header.now.alpha (coded_slice (weights_in header.now) index slice.now))) }
    ensures settled { K.settled sink.old ≤ K.settled sink.new }
    ensures cause { CountsFault (K.faults sink.old) (K.faults sink.new) (is_err result) }
{
    let mut y = [[0; 64]; MOST_BLOCKS];
    let mut cb = [[0; 64]; MOST_BLOCKS];
    let mut cr = [[0; 64]; MOST_BLOCKS];
    let luma = slice.y.as_slice();
    let first = slice.cb.as_slice();
    let second = slice.cr.as_slice();
    quantise_part(luma, &header.luma, index, &mut y);
    quantise_part(first, &header.chroma_weights, index, &mut cb);
    quantise_part(second, &header.chroma_weights, index, &mut cr);
    write_slice(
        header.interlace,
        header.alpha,
        index,
        &y[..luma.len()],
        &cb[..first.len()],
        &cr[..second.len()],
        slice.alpha.as_slice(),
        sink,
    )
}

/// Writes slices in order, each quantised at its own index.
fn write_all<K: ByteSink>(
    slices: &[SliceCoefficients],
    header: &FrameHeader,
    choice: &[u8],
    sink: &mut K,
) -> Result<(), Failed>
    requires parts { All HasParts slices.now }
    requires alpha { All (λ s. IsReadyAlpha header.now.alpha s.alpha) slices.now }
    requires header { IsWritableHeader header.now }
    requires number { length choice.now ≡ length slices.now }
    requires indices { All IsIndex choice.now }
    ensures ok { OnOk result (Puts (sink_state (K.held sink.old) (K.taken sink.old)) (sink_state (K.held sink.new) (K.taken sink.new)) (flat_map (slice_bytes header.now.interlace header.now.alpha) (coded_slices (weights_in header.now) slices.now choice.now))) }
    ensures err { OnErr result (PutsFront (sink_state (K.held sink.old) (K.taken sink.old)) (sink_state (K.held sink.new) (K.taken sink.new)) (flat_map (slice_bytes header.now.interlace header.now.alpha) (coded_slices (weights_in header.now) slices.now choice.now))) }
    ensures settled { K.settled sink.old ≤ K.settled sink.new }
    ensures cause { CountsFault (K.faults sink.old) (K.faults sink.new) (is_err result) }
{
    for i in 0..slices.len() {
        write_one(&slices[i], header, choice[i], sink)?;
    }
    Ok(())
}

// ---- pictures and frames

/// Writes a picture of these slices, each quantised at its own index.
fn write_picture<K: ByteSink>(
    slices: &[SliceCoefficients],
    tables: &[SliceTable],
    choice: &[u8],
    header: &FrameHeader,
    log2: u8,
    sink: &mut K,
) -> Result<(), Failed>
    requires few { length slices.now ≤ MAX_SLICES }
    requires log2 { log2 ≤ 3 }
    requires parts { All HasParts slices.now }
    requires alpha { All (λ s. IsReadyAlpha header.now.alpha s.alpha) slices.now }
    requires header { IsWritableHeader header.now }
    requires chosen { AreChosen header.now.interlace header.now.alpha (weights_in header.now) slices.now tables.now choice.now }
    requires indices { All IsIndex choice.now }
    requires short { picture_length header.now.interlace header.now.alpha (record { log2 = log2; slices = coded_slices (weights_in header.now) slices.now choice.now }) < 2 ^ 32 }
    ensures ok { OnOk result (Puts (sink_state (K.held sink.old) (K.taken sink.old)) (sink_state (K.held sink.new) (K.taken sink.new)) (picture_bytes header.now.interlace header.now.alpha (record { log2 = log2; slices = coded_slices (weights_in header.now) slices.now choice.now }))) }
    ensures err { OnErr result (PutsFront (sink_state (K.held sink.old) (K.taken sink.old)) (sink_state (K.held sink.new) (K.taken sink.new)) (picture_bytes header.now.interlace header.now.alpha (record { log2 = log2; slices = coded_slices (weights_in header.now) slices.now choice.now }))) }
    ensures settled { K.settled sink.old ≤ K.settled sink.new }
    ensures cause { CountsFault (K.faults sink.old) (K.faults sink.new) (is_err result) }
{
    let size = 8 + 2 * slices.len() as u64 + sizes_together(tables, choice);
    write_picture_header(sink, size as u32, slices.len() as u32, log2)?;
    write_sizes(tables, choice, sink)?;
    write_all(slices, header, choice, sink)
}

/// Writes the picture of an index, each slice quantised at its own index.
fn write_number<K: ByteSink>(
    coefficients: &Coefficients,
    header: &FrameHeader,
    tables: &[SliceTable],
    choice: &[u8],
    number: u8,
    sink: &mut K,
) -> Result<(), Failed>
    requires header { IsHeaderOf coefficients.now header.now }
    requires writable { IsWritableHeader header.now }
    requires tables { AreTablesOf coefficients.now (weights_in header.now) tables.now }
    requires choice { IsPart tables.now choice.now }
    requires number { number < pictures_of coefficients.now.layout.interlace }
    requires inside { length (slices_of coefficients.now.layout) * number + length (slices_of coefficients.now.layout) ≤ length coefficients.now.slices }
    requires tables_number { length tables.now ≡ length coefficients.now.slices }
    requires choice_number { length choice.now ≡ length coefficients.now.slices }
    ensures ok { OnOk result (Puts (sink_state (K.held sink.old) (K.taken sink.old)) (sink_state (K.held sink.new) (K.taken sink.new)) (picture_bytes header.now.interlace header.now.alpha (coded_picture coefficients.now (coded_slices (weights_in header.now) coefficients.now.slices choice.now) number))) }
    ensures err { OnErr result (PutsFront (sink_state (K.held sink.old) (K.taken sink.old)) (sink_state (K.held sink.new) (K.taken sink.new)) (picture_bytes header.now.interlace header.now.alpha (coded_picture coefficients.now (coded_slices (weights_in header.now) coefficients.now.slices choice.now) number))) }
    ensures settled { K.settled sink.old ≤ K.settled sink.new }
    ensures cause { CountsFault (K.faults sink.old) (K.faults sink.new) (is_err result) }
{
    let count = coefficients.layout.slices() as usize;
    let from = count * usize::from(number);
    let all = coefficients.slices.as_slice();
    write_picture(
        &all[from..from + count],
        &tables[from..from + count],
        &choice[from..from + count],
        header,
        coefficients.layout.log2,
        sink,
    )
}

/// Writes the pictures of a frame in order, each slice quantised at its own index.
fn write_pictures<K: ByteSink>(
    coefficients: &Coefficients,
    header: &FrameHeader,
    tables: &[SliceTable],
    choice: &[u8],
    sink: &mut K,
) -> Result<(), Failed>
    requires header { IsHeaderOf coefficients.now header.now }
    requires writable { IsWritableHeader header.now }
    requires tables { AreTablesOf coefficients.now (weights_in header.now) tables.now }
    requires choice { IsPart tables.now choice.now }
    ensures ok { OnOk result (Puts (sink_state (K.held sink.old) (K.taken sink.old)) (sink_state (K.held sink.new) (K.taken sink.new)) (flat_map (picture_bytes header.now.interlace header.now.alpha) (coded_frame coefficients.now header.now choice.now).pictures)) }
    ensures err { OnErr result (PutsFront (sink_state (K.held sink.old) (K.taken sink.old)) (sink_state (K.held sink.new) (K.taken sink.new)) (flat_map (picture_bytes header.now.interlace header.now.alpha) (coded_frame coefficients.now header.now choice.now).pictures)) }
    ensures settled { K.settled sink.old ≤ K.settled sink.new }
    ensures cause { CountsFault (K.faults sink.old) (K.faults sink.new) (is_err result) }
{
    for number in 0..coefficients.layout.pictures() {
        write_number(coefficients, header, tables, choice, number, sink)?;
    }
    Ok(())
}

/// Writes the frame of these coefficients, each slice quantised at its own index, as [`crate::coded`] and
/// [`pr_frame::write_frame`] do, straight from the coefficients and without memory. `slices` has the tables of the
/// frame's slices, as [`crate::build_table`] makes them with the weights of the header, and `choice` an index of
/// each table, so that the sum of the chosen sizes is below 2^31. The header has the size and the form of the
/// coefficients; its other fields are such that the frame can be written.
///
/// `Failed` if a call of the sink failed; the sink then has taken a prefix of the frame's bytes.
pub fn write_part<K: ByteSink>(
    coefficients: &Coefficients,
    header: &FrameHeader,
    slices: &[SliceTable],
    choice: &[u8],
    sink: &mut K,
) -> Result<(), Failed>
    requires header { IsHeaderOf coefficients.now header.now }
    requires writable { IsWritableHeader header.now }
    requires tables { AreTablesOf coefficients.now (weights_in header.now) slices.now }
    requires choice { IsPart slices.now choice.now }
    // The sink took the bytes of the frame, and no others.
    ensures ok { OnOk result (Puts (sink_state (K.held sink.old) (K.taken sink.old)) (sink_state (K.held sink.new) (K.taken sink.new)) (coded_bytes (coded_frame coefficients.now header.now choice.now))) }
    // If a call failed, it took a prefix of them.
    ensures err { OnErr result (PutsFront (sink_state (K.held sink.old) (K.taken sink.old)) (sink_state (K.held sink.new) (K.taken sink.new)) (coded_bytes (coded_frame coefficients.now header.now choice.now))) }
    ensures settled { K.settled sink.old ≤ K.settled sink.new }
    // The call fails only if a call of the sink failed, and each such call is reported.
    ensures cause { CountsFault (K.faults sink.old) (K.faults sink.new) (is_err result) }
{
    let size = u64::from(fixed_size(&coefficients.layout)) + sizes_together(slices, choice);
    write_frame_header(sink, header, size as u32)?;
    write_pictures(coefficients, header, slices, choice, sink)
}

/// Writes the frame of these coefficients, each slice quantised at its own index, straight from the coefficients
/// and without memory: [`write_part`] with the slices of a table of this frame alone.
///
/// `Failed` if a call of the sink failed; the sink then has taken a prefix of the frame's bytes.
pub fn write_chosen<K: ByteSink>(
    coefficients: &Coefficients,
    header: &FrameHeader,
    table: &FrameTable,
    choice: &[u8],
    sink: &mut K,
) -> Result<(), Failed>
    requires header { IsHeaderOf coefficients.now header.now }
    requires writable { IsWritableHeader header.now }
    requires tables { AreTablesOf coefficients.now (weights_in header.now) table.now.slices }
    requires choice { IsPart table.now.slices choice.now }
    ensures ok { OnOk result (Puts (sink_state (K.held sink.old) (K.taken sink.old)) (sink_state (K.held sink.new) (K.taken sink.new)) (coded_bytes (coded_frame coefficients.now header.now choice.now))) }
    ensures err { OnErr result (PutsFront (sink_state (K.held sink.old) (K.taken sink.old)) (sink_state (K.held sink.new) (K.taken sink.new)) (coded_bytes (coded_frame coefficients.now header.now choice.now))) }
    ensures settled { K.settled sink.old ≤ K.settled sink.new }
    ensures cause { CountsFault (K.faults sink.old) (K.faults sink.new) (is_err result) }
{
    write_part(coefficients, header, table.slices.as_slice(), choice, sink)
}
