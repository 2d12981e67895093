//! The headers of frames, pictures and slices, written.

ghost use Rattle.std.specs.Prelude.{◌≡◌, ◌+◌, ◌*◌, ◌<◌, ◌≤◌, ◌++◌, length, OnOk, OnErr, is_err};
ghost use Rattle.pw_outside.specs.Ports.{CountsFault};
ghost use Rattle.pw_outside.specs.Writing.{sink_state, Puts, PutsPart};
ghost use Rattle.pr_geom.specs.declared.places.TheConstants.{MAX_SLICES};
ghost use Rattle.pr_head.specs.Header.{chroma_code, interlace_code, alpha_code, frame_header_bytes};
ghost use Rattle.pr_head.specs.Picture.{picture_header_bytes};
ghost use Rattle.pr_head.specs.Slice.{least_slice_header, slice_header_bytes};

use crate::frame::FrameHeader;
use crate::slice::SliceHeader;
use arrayvec::ArrayVec;
use pw_fields::{be16, be32};
use pw_outside::{ByteSink, Failed, put_all};
use pw_planes::{AlphaKind, Chroma, Interlace};

/// The longest header.
const MOST: usize = 156;

/// Appends `piece` to the bytes.
fn append(bytes: &mut ArrayVec<u8, MOST>, piece: &[u8])
    requires { length bytes.old.items + length piece.now ≤ MOST }
    ensures { bytes.new.items ≡ bytes.old.items ++ piece.now }
{
    bytes.try_extend_from_slice(piece).unwrap();
}

fn chroma_bits(chroma: Chroma) -> u8
    ensures { result ≡ chroma_code chroma }
{
    match chroma {
        Chroma::C422 => 2,
        Chroma::C444 => 3,
    }
}

fn interlace_bits(interlace: Interlace) -> u8
    ensures { result ≡ interlace_code interlace }
{
    match interlace {
        Interlace::Progressive => 0,
        Interlace::TopFirst => 1,
        Interlace::BottomFirst => 2,
    }
}

fn alpha_bits(alpha: AlphaKind) -> u8
    ensures { result ≡ alpha_code alpha }
{
    match alpha {
        AlphaKind::Absent => 0,
        AlphaKind::Eight => 1,
        AlphaKind::Sixteen => 2,
    }
}

/// The byte of the chroma format and the interlace mode.
fn forms(header: &FrameHeader) -> u8
    ensures { result ≡ chroma_code header.now.chroma * 64 + interlace_code header.now.interlace * 4 }
{
    chroma_bits(header.chroma) * 64 + interlace_bits(header.interlace) * 4
}

/// The bytes of the header of a frame of this size.
#[tactic(auto, unfolding(crate::specs::Header::frame_header_bytes))]
fn frame_bytes(header: &FrameHeader, size: u32) -> ArrayVec<u8, MOST>
    requires aspect { header.now.aspect < 16 }
    requires rate { header.now.rate < 16 }
    ensures { result.items ≡ frame_header_bytes header.now size }
{
    let mut bytes = ArrayVec::new();
    append(&mut bytes, &be32(size));
    append(&mut bytes, &be32(0x6963_7066));
    append(&mut bytes, &be16(148));
    append(&mut bytes, &[0, header.version]);
    append(&mut bytes, &header.encoder);
    append(&mut bytes, &be16(header.width));
    append(&mut bytes, &be16(header.height));
    let form = [
        forms(header),
        header.aspect * 16 + header.rate,
        header.primaries,
        header.transfer,
        header.matrix,
        alpha_bits(header.alpha),
        0,
        3,
    ];
    append(&mut bytes, &form);
    append(&mut bytes, &header.luma);
    append(&mut bytes, &header.chroma_weights);
    bytes
}

/// Writes the header of a frame of `size` bytes, 156 bytes from the frame's first on: both matrices are loaded, and
/// reserved bits are 0. The codes of aspect ratio and frame rate are below 16.
///
/// `Failed` if a call of the sink failed; the sink then has taken a prefix of the bytes.
pub fn write_frame_header<K: ByteSink>(
    sink: &mut K,
    header: &FrameHeader,
    size: u32,
) -> Result<(), Failed>
    requires aspect { header.now.aspect < 16 }
    requires rate { header.now.rate < 16 }
    ensures ok { OnOk result (Puts (sink_state (K.held sink.old) (K.taken sink.old)) (sink_state (K.held sink.new) (K.taken sink.new)) (frame_header_bytes header.now size)) }
    ensures err { OnErr result (PutsPart (sink_state (K.held sink.old) (K.taken sink.old)) (sink_state (K.held sink.new) (K.taken sink.new)) (frame_header_bytes header.now size)) }
    ensures settled { K.settled sink.old ≤ K.settled sink.new }
    ensures cause { CountsFault (K.faults sink.old) (K.faults sink.new) (is_err result) }
{
    let bytes = frame_bytes(header, size);
    put_all(sink, &bytes)
}

/// The bytes of the header of a picture.
#[tactic(auto, unfolding(crate::specs::Picture::picture_header_bytes))]
fn picture_bytes(size: u32, slices: u32, log2: u8) -> ArrayVec<u8, MOST>
    requires slices { slices ≤ MAX_SLICES }
    requires log2 { log2 ≤ 3 }
    ensures { result.items ≡ picture_header_bytes size slices log2 }
{
    let mut bytes = ArrayVec::new();
    append(&mut bytes, &[64]);
    append(&mut bytes, &be32(size));
    append(&mut bytes, &be16(slices as u16));
    append(&mut bytes, &[log2 * 16]);
    bytes
}

/// Writes the header of a picture of `size` bytes with `slices` slices, at most `MAX_SLICES`; 8 bytes. `log2` is the
/// binary logarithm of a slice's desired width in macroblocks, at most 3.
///
/// `Failed` if a call of the sink failed; the sink then has taken a prefix of the bytes.
pub fn write_picture_header<K: ByteSink>(
    sink: &mut K,
    size: u32,
    slices: u32,
    log2: u8,
) -> Result<(), Failed>
    requires slices { slices ≤ MAX_SLICES }
    requires log2 { log2 ≤ 3 }
    ensures ok { OnOk result (Puts (sink_state (K.held sink.old) (K.taken sink.old)) (sink_state (K.held sink.new) (K.taken sink.new)) (picture_header_bytes size slices log2)) }
    ensures err { OnErr result (PutsPart (sink_state (K.held sink.old) (K.taken sink.old)) (sink_state (K.held sink.new) (K.taken sink.new)) (picture_header_bytes size slices log2)) }
    ensures settled { K.settled sink.old ≤ K.settled sink.new }
    ensures cause { CountsFault (K.faults sink.old) (K.faults sink.new) (is_err result) }
{
    let bytes = picture_bytes(size, slices, log2);
    put_all(sink, &bytes)
}

/// The bytes of the header of a slice.
#[tactic(auto, unfolding(crate::specs::Slice::slice_header_bytes))]
fn slice_bytes(slice: &SliceHeader, alpha: bool) -> ArrayVec<u8, MOST>
    requires { slice.now.header ≡ least_slice_header alpha }
    ensures { result.items ≡ slice_header_bytes slice.now alpha }
{
    let mut bytes = ArrayVec::new();
    append(&mut bytes, &[slice.header * 8, slice.index]);
    append(&mut bytes, &be16(slice.y));
    append(&mut bytes, &be16(slice.cb));
    if alpha {
        append(&mut bytes, &be16(slice.cr));
    }
    bytes
}

/// Writes the header of a slice, whose own size is 6 bytes, or 8 with alpha. The index is from 1 to 224.
///
/// `Failed` if a call of the sink failed; the sink then has taken a prefix of the bytes.
pub fn write_slice_header<K: ByteSink>(
    sink: &mut K,
    slice: &SliceHeader,
    alpha: bool,
) -> Result<(), Failed>
    requires { slice.now.header ≡ least_slice_header alpha }
    ensures ok { OnOk result (Puts (sink_state (K.held sink.old) (K.taken sink.old)) (sink_state (K.held sink.new) (K.taken sink.new)) (slice_header_bytes slice.now alpha)) }
    ensures err { OnErr result (PutsPart (sink_state (K.held sink.old) (K.taken sink.old)) (sink_state (K.held sink.new) (K.taken sink.new)) (slice_header_bytes slice.now alpha)) }
    ensures settled { K.settled sink.old ≤ K.settled sink.new }
    ensures cause { CountsFault (K.faults sink.old) (K.faults sink.new) (is_err result) }
{
    let bytes = slice_bytes(slice, alpha);
    put_all(sink, &bytes)
}
