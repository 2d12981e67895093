//! Frames, written.

ghost use Rattle.std.specs.Prelude.{◌≡◌, ◌+◌, ◌<◌, ◌≤◌, ◌^◌, length, map, sum, OnOk, OnErr, is_err};
ghost use Rattle.std.specs.Int.{w16, to_be_bytes};
ghost use Rattle.std.specs.List.{All, flat_map};
ghost use Rattle.pw_outside.specs.Ports.{CountsFault};
ghost use Rattle.pw_outside.specs.Writing.{sink_state, Puts, PutsFront};
ghost use Rattle.pr_head.specs.Laws.{sizes_bytes};
ghost use Rattle.pr_frame.specs.Coded.{CanBeWritten};
ghost use Rattle.pr_frame.specs.Ready.{IsReadyPart, IsReadyAlpha, IsReady, IsReadyPicture};
ghost use Rattle.pr_frame.specs.Written.{component_bytes, alpha_bytes, slice_header_of, slice_bytes, slice_length, slice_lengths, picture_bytes, picture_length, coded_bytes};

use crate::coded::{CodedFrame, CodedPicture, CodedSlice};
use crate::parts::{has_alpha, scan_of};
use crate::size::{
    alpha_part_size, frame_length, least_header, part_size, picture_size, slice_size,
};
use pr_alpha::write_alpha;
use pr_coeff::{Block, write_component};
use pr_head::{SliceHeader, write_frame_header, write_picture_header, write_slice_header};
use pw_outside::{ByteSink, Failed, put};
use pw_planes::{AlphaKind, Interlace};

/// Writes a component.
fn write_part<K: ByteSink>(blocks: &[Block], mode: Interlace, sink: &mut K) -> Result<(), Failed>
    requires { IsReadyPart blocks.now }
    ensures ok { OnOk result (Puts (sink_state (K.held sink.old) (K.taken sink.old)) (sink_state (K.held sink.new) (K.taken sink.new)) (component_bytes mode blocks.now)) }
    ensures err { OnErr result (PutsFront (sink_state (K.held sink.old) (K.taken sink.old)) (sink_state (K.held sink.new) (K.taken sink.new)) (component_bytes mode blocks.now)) }
    ensures settled { K.settled sink.old ≤ K.settled sink.new }
    ensures cause { CountsFault (K.faults sink.old) (K.faults sink.new) (is_err result) }
{
    write_component(blocks, scan_of(mode), sink)
}

/// Writes alpha values; none if the frame has no alpha.
fn write_values<K: ByteSink>(values: &[u16], alpha: AlphaKind, sink: &mut K) -> Result<(), Failed>
    requires { IsReadyAlpha alpha values.now }
    ensures ok { OnOk result (Puts (sink_state (K.held sink.old) (K.taken sink.old)) (sink_state (K.held sink.new) (K.taken sink.new)) (alpha_bytes alpha values.now)) }
    ensures err { OnErr result (PutsFront (sink_state (K.held sink.old) (K.taken sink.old)) (sink_state (K.held sink.new) (K.taken sink.new)) (alpha_bytes alpha values.now)) }
    ensures settled { K.settled sink.old ≤ K.settled sink.new }
    ensures cause { CountsFault (K.faults sink.old) (K.faults sink.new) (is_err result) }
{
    match alpha {
        AlphaKind::Absent => Ok(()),
        AlphaKind::Eight => write_alpha(values, 8, sink),
        AlphaKind::Sixteen => write_alpha(values, 16, sink),
    }
}

/// The header of a slice, with the sizes of its components.
fn header_of(
    mode: Interlace,
    alpha: AlphaKind,
    index: u8,
    y: &[Block],
    cb: &[Block],
    cr: &[Block],
    values: &[u16],
) -> SliceHeader
    requires y { IsReadyPart y.now }
    requires cb { IsReadyPart cb.now }
    requires cr { IsReadyPart cr.now }
    requires values { IsReadyAlpha alpha values.now }
    ensures { result ≡ slice_header_of mode alpha (record { index = index; y = y.now; cb = cb.now; cr = cr.now; alpha = values.now }) }
{
    SliceHeader {
        header: least_header(alpha),
        index,
        y: part_size(y, mode),
        cb: part_size(cb, mode),
        cr: part_size(cr, mode),
        alpha: alpha_part_size(values, alpha),
    }
}

/// Writes one slice of a frame of this interlace mode and this kind of alpha: its header, and the data of its
/// components and of its alpha values. The index is from 1 to 224. Each component has 1 to 32 blocks of values of
/// magnitude at most 8,191. There are no alpha values if the frame has no alpha, and else 1 to 2,048 of 8 or 16
/// bits. It takes no memory.
///
/// `Failed` if a call of the sink failed; the sink then has taken a prefix of the slice's bytes.
pub fn write_slice<K: ByteSink>(
    mode: Interlace,
    alpha: AlphaKind,
    index: u8,
    y: &[Block],
    cb: &[Block],
    cr: &[Block],
    values: &[u16],
    sink: &mut K,
) -> Result<(), Failed>
    requires y { IsReadyPart y.now }
    requires cb { IsReadyPart cb.now }
    requires cr { IsReadyPart cr.now }
    requires values { IsReadyAlpha alpha values.now }
    // The sink took the bytes of the slice, and no others.
    ensures ok { OnOk result (Puts (sink_state (K.held sink.old) (K.taken sink.old)) (sink_state (K.held sink.new) (K.taken sink.new)) (slice_bytes mode alpha (record { index = index; y = y.now; cb = cb.now; cr = cr.now; alpha = values.now }))) }
    // If a call failed, it took a prefix of them.
    ensures err { OnErr result (PutsFront (sink_state (K.held sink.old) (K.taken sink.old)) (sink_state (K.held sink.new) (K.taken sink.new)) (slice_bytes mode alpha (record { index = index; y = y.now; cb = cb.now; cr = cr.now; alpha = values.now }))) }
    ensures settled { K.settled sink.old ≤ K.settled sink.new }
    // The call fails only if a call of the sink failed, and each such call is reported.
    ensures cause { CountsFault (K.faults sink.old) (K.faults sink.new) (is_err result) }
{
    let header = header_of(mode, alpha, index, y, cb, cr, values);
    write_slice_header(sink, &header, has_alpha(alpha))?;
    write_part(y, mode, sink)?;
    write_part(cb, mode, sink)?;
    write_part(cr, mode, sink)?;
    write_values(values, alpha, sink)
}

/// Writes a coded slice.
fn write_coded<K: ByteSink>(
    slice: &CodedSlice,
    mode: Interlace,
    alpha: AlphaKind,
    sink: &mut K,
) -> Result<(), Failed>
    requires { IsReady alpha slice.now }
    ensures ok { OnOk result (Puts (sink_state (K.held sink.old) (K.taken sink.old)) (sink_state (K.held sink.new) (K.taken sink.new)) (slice_bytes mode alpha slice.now)) }
    ensures err { OnErr result (PutsFront (sink_state (K.held sink.old) (K.taken sink.old)) (sink_state (K.held sink.new) (K.taken sink.new)) (slice_bytes mode alpha slice.now)) }
    ensures settled { K.settled sink.old ≤ K.settled sink.new }
    ensures cause { CountsFault (K.faults sink.old) (K.faults sink.new) (is_err result) }
{
    let y = slice.y.as_slice();
    let cb = slice.cb.as_slice();
    let cr = slice.cr.as_slice();
    let values = slice.alpha.as_slice();
    write_slice(mode, alpha, slice.index, y, cb, cr, values, sink)
}

/// Writes slices in order.
fn write_slices<K: ByteSink>(
    slices: &[CodedSlice],
    mode: Interlace,
    alpha: AlphaKind,
    sink: &mut K,
) -> Result<(), Failed>
    requires { All (IsReady alpha) slices.now }
    ensures ok { OnOk result (Puts (sink_state (K.held sink.old) (K.taken sink.old)) (sink_state (K.held sink.new) (K.taken sink.new)) (flat_map (slice_bytes mode alpha) slices.now)) }
    ensures err { OnErr result (PutsFront (sink_state (K.held sink.old) (K.taken sink.old)) (sink_state (K.held sink.new) (K.taken sink.new)) (flat_map (slice_bytes mode alpha) slices.now)) }
    ensures settled { K.settled sink.old ≤ K.settled sink.new }
    ensures cause { CountsFault (K.faults sink.old) (K.faults sink.new) (is_err result) }
{
    for slice in slices {
        write_coded(slice, mode, alpha, sink)?;
    }
    Ok(())
}

/// Writes the size of a slice.
fn write_size<K: ByteSink>(
    slice: &CodedSlice,
    mode: Interlace,
    alpha: AlphaKind,
    sink: &mut K,
) -> Result<(), Failed>
    requires { IsReady alpha slice.now }
    ensures ok { OnOk result (Puts (sink_state (K.held sink.old) (K.taken sink.old)) (sink_state (K.held sink.new) (K.taken sink.new)) (to_be_bytes w16 (slice_length mode alpha slice.now))) }
    ensures err { OnErr result (PutsFront (sink_state (K.held sink.old) (K.taken sink.old)) (sink_state (K.held sink.new) (K.taken sink.new)) (to_be_bytes w16 (slice_length mode alpha slice.now))) }
    ensures settled { K.settled sink.old ≤ K.settled sink.new }
    ensures cause { CountsFault (K.faults sink.old) (K.faults sink.new) (is_err result) }
{
    let bytes = slice_size(slice, mode, alpha).to_be_bytes();
    match put(sink, &bytes) {
        Ok(()) => Ok(()),
        Err(_) => Err(Failed),
    }
}

/// Writes the sizes of slices in order.
fn write_table<K: ByteSink>(
    slices: &[CodedSlice],
    mode: Interlace,
    alpha: AlphaKind,
    sink: &mut K,
) -> Result<(), Failed>
    requires { All (IsReady alpha) slices.now }
    ensures ok { OnOk result (Puts (sink_state (K.held sink.old) (K.taken sink.old)) (sink_state (K.held sink.new) (K.taken sink.new)) (sizes_bytes (map (slice_length mode alpha) slices.now))) }
    ensures err { OnErr result (PutsFront (sink_state (K.held sink.old) (K.taken sink.old)) (sink_state (K.held sink.new) (K.taken sink.new)) (sizes_bytes (map (slice_length mode alpha) slices.now))) }
    ensures settled { K.settled sink.old ≤ K.settled sink.new }
    ensures cause { CountsFault (K.faults sink.old) (K.faults sink.new) (is_err result) }
{
    for slice in slices {
        write_size(slice, mode, alpha, sink)?;
    }
    Ok(())
}

/// Writes a picture, of fewer than 2^32 bytes.
fn write_picture<K: ByteSink>(
    picture: &CodedPicture,
    mode: Interlace,
    alpha: AlphaKind,
    sink: &mut K,
) -> Result<(), Failed>
    requires ready { IsReadyPicture alpha picture.now }
    requires short { picture_length mode alpha picture.now < 2 ^ 32 }
    ensures ok { OnOk result (Puts (sink_state (K.held sink.old) (K.taken sink.old)) (sink_state (K.held sink.new) (K.taken sink.new)) (picture_bytes mode alpha picture.now)) }
    ensures err { OnErr result (PutsFront (sink_state (K.held sink.old) (K.taken sink.old)) (sink_state (K.held sink.new) (K.taken sink.new)) (picture_bytes mode alpha picture.now)) }
    ensures settled { K.settled sink.old ≤ K.settled sink.new }
    ensures cause { CountsFault (K.faults sink.old) (K.faults sink.new) (is_err result) }
{
    let size = picture_size(picture, mode, alpha) as u32;
    let slices = picture.slices.as_slice();
    write_picture_header(sink, size, slices.len() as u32, picture.log2)?;
    write_table(slices, mode, alpha, sink)?;
    write_slices(slices, mode, alpha, sink)
}

/// Writes pictures in order.
fn write_pictures<K: ByteSink>(
    pictures: &[CodedPicture],
    mode: Interlace,
    alpha: AlphaKind,
    sink: &mut K,
) -> Result<(), Failed>
    requires ready { All (IsReadyPicture alpha) pictures.now }
    requires short { sum (map (picture_length mode alpha) pictures.now) < 2 ^ 32 }
    ensures ok { OnOk result (Puts (sink_state (K.held sink.old) (K.taken sink.old)) (sink_state (K.held sink.new) (K.taken sink.new)) (flat_map (picture_bytes mode alpha) pictures.now)) }
    ensures err { OnErr result (PutsFront (sink_state (K.held sink.old) (K.taken sink.old)) (sink_state (K.held sink.new) (K.taken sink.new)) (flat_map (picture_bytes mode alpha) pictures.now)) }
    ensures settled { K.settled sink.old ≤ K.settled sink.new }
    ensures cause { CountsFault (K.faults sink.old) (K.faults sink.new) (is_err result) }
{
    for picture in pictures {
        write_picture(picture, mode, alpha, sink)?;
    }
    Ok(())
}

/// Writes a frame: its header, and its pictures in order. It takes no memory.
///
/// `Failed` if a call of the sink failed; the sink then has taken a prefix of the frame's bytes.
pub fn write_frame<K: ByteSink>(frame: &CodedFrame, sink: &mut K) -> Result<(), Failed>
    requires { CanBeWritten frame.now }
    // The sink took the bytes of the frame, and no others.
    ensures ok { OnOk result (Puts (sink_state (K.held sink.old) (K.taken sink.old)) (sink_state (K.held sink.new) (K.taken sink.new)) (coded_bytes frame.now)) }
    // If a call failed, it took a prefix of them.
    ensures err { OnErr result (PutsFront (sink_state (K.held sink.old) (K.taken sink.old)) (sink_state (K.held sink.new) (K.taken sink.new)) (coded_bytes frame.now)) }
    ensures settled { K.settled sink.old ≤ K.settled sink.new }
    // The call fails only if a call of the sink failed, and each such call is reported.
    ensures cause { CountsFault (K.faults sink.old) (K.faults sink.new) (is_err result) }
{
    let size = frame_length(frame) as u32;
    write_frame_header(sink, &frame.header, size)?;
    write_pictures(
        frame.pictures.as_slice(),
        frame.header.interlace,
        frame.header.alpha,
        sink,
    )
}
