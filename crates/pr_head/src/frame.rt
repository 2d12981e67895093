//! The header of a frame.

ghost use Rattle.std.specs.Prelude.{◌≡◌, ◌+◌, ◌<◌, ◌≤◌, ◌^◌, length, IfOk, replicate, false};
ghost use Rattle.pw_outside.specs.Ports.{CountsFault, Lowers, GoesOn};
ghost use Rattle.pw_outside.specs.Reading.{Gives, GivesValue, Told};
ghost use Rattle.pr_head.specs.Faults.{told_fault, is_failed, is_out_of_memory};
ghost use Rattle.pr_head.specs.Header.{matrices_size, header_at, IsHeader, HasSizes, HasForm};
ghost use Rattle.pr_head.specs.inner.Steps.{matrix_in, start_in, matrices_in, header_in};

use crate::fault::{FrameFault, FrameKind, bad};
use crate::pieces::{pass, whole};
use crate::start::Start;
use pw_outside::ByteSource;
use pw_planes::{AlphaKind, Chroma, Interlace};

/// The header of a frame (SMPTE RDD 36, frame header).
#[derive(Clone, Copy, Debug, PartialEq, Eq)]
pub struct FrameHeader {
    /// The version of the bit stream, 0 or 1.
    pub version: u8,
    /// The identifier of the encoder.
    pub encoder: [u8; 4],
    /// The width in samples, from 1 to 8,192.
    pub width: u16,
    /// The height in samples, from 1 to 4,320, even where the frame is interlaced.
    pub height: u16,
    /// How chroma is sampled.
    pub chroma: Chroma,
    /// How the frame is made of pictures.
    pub interlace: Interlace,
    /// The code of the aspect ratio, below 16.
    pub aspect: u8,
    /// The code of the frame rate, below 16.
    pub rate: u8,
    /// The code of the colour primaries.
    pub primaries: u8,
    /// The code of the transfer characteristic.
    pub transfer: u8,
    /// The code of the matrix coefficients.
    pub matrix: u8,
    /// The kind of alpha.
    pub alpha: AlphaKind,
    /// The weights of luma in use, in raster order.
    pub luma: [u8; 64],
    /// The weights of chroma in use, in raster order.
    pub chroma_weights: [u8; 64],
}

/// The next matrix if it is loaded, and `other` else.
#[tactic(auto, using(crate::proofs::Bounds::lowers_same), unfolding(crate::specs::inner::Steps::matrix_in))]
fn matrix_of<S: ByteSource>(
    source: &mut S,
    place: &mut u64,
    loaded: bool,
    other: [u8; 64],
) -> Result<[u8; 64], FrameFault>
    requires { place.old + 64 < 2 ^ 64 }
    ensures bytes { Gives told_fault (λ x. x) (S.left source.old) (S.left source.new) place.old place.new result (matrix_in loaded other) }
    ensures place { place.new ≤ place.old + 64 }
    ensures most { Lowers (S.most source.old) (S.most source.new) 0 }
    ensures becomes { GoesOn S.becomes source.old source.new }
    ensures cause { CountsFault (S.faults source.old) (S.faults source.new) (is_failed result) }
    ensures memory { is_out_of_memory result ≡ false }
{
    let mut matrix = other;
    if loaded {
        whole(source, place, &mut matrix, FrameKind::FrameSize, 0)?;
    }
    Ok(matrix)
}

/// The fields of the first 28 bytes of a sample of `size` bytes.
#[tactic(auto, using(crate::proofs::Bounds::lowers_same), unfolding(crate::specs::inner::Steps::start_in, pw_outside::specs::Reading::bind))]
fn start_of<S: ByteSource>(source: &mut S, place: &mut u64, size: u32) -> Result<Start, FrameFault>
    requires { place.old ≡ 0 }
    ensures bytes { Gives told_fault (λ x. x) (S.left source.old) (S.left source.new) place.old place.new result (start_in size) }
    ensures sizes { IfOk result (HasSizes size) }
    ensures form { IfOk result HasForm }
    ensures place { place.new ≤ 28 }
    ensures most { Lowers (S.most source.old) (S.most source.new) 0 }
    ensures becomes { GoesOn S.becomes source.old source.new }
    ensures cause { CountsFault (S.faults source.old) (S.faults source.new) (is_failed result) }
    ensures memory { is_out_of_memory result ≡ false }
{
    if size < 28 {
        return Err(bad(FrameKind::FrameShort, 0));
    }
    let mut bytes = [0u8; 28];
    whole(source, place, &mut bytes, FrameKind::FrameShort, 0)?;
    let start = Start::of(&bytes);
    start.judge_sizes(size)?;
    start.judge_form()?;
    Ok(start)
}

/// The luma and chroma matrices in use. The bytes after them, up to the header's end, are skipped.
#[tactic(auto, using(crate::proofs::Bounds::lowers_then), unfolding(crate::specs::inner::Steps::matrices_in, pw_outside::specs::Reading::bind))]
fn matrices_of<S: ByteSource>(
    source: &mut S,
    place: &mut u64,
    start: &Start,
) -> Result<([u8; 64], [u8; 64]), FrameFault>
    requires room { place.old ≤ 28 }
    requires header { 20 + matrices_size start.now ≤ start.now.header }
    ensures bytes { Gives told_fault (λ t. t) (S.left source.old) (S.left source.new) place.old place.new result (matrices_in start.now) }
    ensures most { Lowers (S.most source.old) (S.most source.new) 0 }
    ensures becomes { GoesOn S.becomes source.old source.new }
    ensures cause { CountsFault (S.faults source.old) (S.faults source.new) (is_failed result) }
    ensures memory { is_out_of_memory result ≡ false }
{
    let luma = matrix_of(source, place, start.loads_luma(), [4; 64])?;
    let chroma_weights = matrix_of(source, place, start.loads_chroma(), luma)?;
    let spare = start.header - (20 + start.matrices());
    pass(source, place, spare, FrameKind::FrameSize, 0)?;
    Ok((luma, chroma_weights))
}

#[tactic(auto, using(crate::proofs::Bounds::lowers_then), unfolding(crate::specs::inner::Steps::header_in, pw_outside::specs::Reading::bind))]
fn header_of<S: ByteSource>(
    source: &mut S,
    place: &mut u64,
    size: u32,
) -> Result<(FrameHeader, u32, u32), FrameFault>
    requires { place.old ≡ 0 }
    ensures bytes { Gives told_fault (λ t. record { header = t.0; taken = t.1; size = t.2 }) (S.left source.old) (S.left source.new) place.old place.new result (header_in size) }
    ensures header { IfOk result (λ t. IsHeader t.0) }
    ensures taken { IfOk result (λ t. (28 ≤ t.1) × (t.1 ≤ t.2)) }
    ensures size { IfOk result (λ t. t.2 ≤ size) }
    ensures most { Lowers (S.most source.old) (S.most source.new) 0 }
    ensures becomes { GoesOn S.becomes source.old source.new }
    ensures cause { CountsFault (S.faults source.old) (S.faults source.new) (is_failed result) }
    ensures memory { is_out_of_memory result ≡ false }
{
    let start = start_of(source, place, size)?;
    let (luma, chroma_weights) = matrices_of(source, place, &start)?;
    let taken = 8 + u32::from(start.header);
    Ok((start.header(luma, chroma_weights), taken, start.size))
}

/// Reads the header of the frame at the start of a sample of `size` bytes, with the bytes after its known fields.
/// Returns the header, the number of bytes that it took from the sample, and the size of the frame in bytes.
///
/// The errors are `Bad` with the first fault of the bytes, and `Failed` if a call of the source failed. For a
/// source whose bytes are opaque and which ends too early, the error is `Bad` with `FrameShort` or `FrameSize`.
pub fn read_frame_header<S: ByteSource>(
    source: &mut S,
    size: u32,
) -> Result<(FrameHeader, u32, u32), FrameFault>
    // If the source's bytes are visible, it has the whole sample.
    requires { Told (S.left source.old) (λ bytes. size ≤ length bytes) }
    // If the source's bytes are visible, the result is what they stand for, or their first fault.
    ensures bytes { GivesValue told_fault (λ t. record { header = t.0; taken = t.1; size = t.2 }) (S.left source.old) (S.left source.new) 0 result (λ s. header_at size s.bytes) }
    // What is returned has none of the faults.
    ensures header { IfOk result (λ t. IsHeader t.0) }
    ensures taken { IfOk result (λ t. (28 ≤ t.1) × (t.1 ≤ t.2)) }
    ensures size { IfOk result (λ t. t.2 ≤ size) }
    ensures most { Lowers (S.most source.old) (S.most source.new) 0 }
    ensures becomes { GoesOn S.becomes source.old source.new }
    // The error is `Failed` only if a call of the source failed, and each such call is reported.
    ensures cause { CountsFault (S.faults source.old) (S.faults source.new) (is_failed result) }
    // No memory is taken.
    ensures memory { is_out_of_memory result ≡ false }
{
    let mut place = 0;
    header_of(source, &mut place, size)
}
