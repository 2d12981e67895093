//! Reads samples from bytes.

ghost use Rattle.std.specs.Prelude.{◌≡◌, ◌+◌, ◌*◌, ◌≤◌, ◌<◌, ◌^◌, nat_le, false, IfOk, IfSome, OnOk, length, position};
ghost use Rattle.std.specs.Io.KnownBytes.{IsAtEnd};
ghost use Rattle.std.specs.List.{All};
ghost use Rattle.std.specs.Option.{IfNone, option_map};
ghost use Rattle.pw_outside.specs.Ports.{CountsFault, GoesOn};
ghost use Rattle.pw_outside.specs.Reading.{Answers, Gives};
ghost use Rattle.pw_planes.specs.Samples.{sample_bits};
ghost use Rattle.pic_y4m.specs.declared.samples.SampleSize.TheVariants.{Byte, Pair};
ghost use Rattle.pic_y4m.specs.Faults.{told_fault, is_failed, is_out_of_memory};
ghost use Rattle.pic_y4m.specs.Samples.{size_of, sample_bytes, samples_in, samples_at, some_samples_at, in_range, is_past};

use crate::fault::{PictureFault, PictureKind, bad};
use pw_outside::{ByteSource, fill};
use pw_planes::Depth;
use std::alloc::{AllocError, Global};

/// The size of a sample in bytes.
#[derive(Clone, Copy, Debug, PartialEq, Eq)]
pub enum SampleSize {
    /// One byte.
    Byte,
    /// Two bytes, little-endian.
    Pair,
}

impl SampleSize {
    ghost use Rattle.std.specs.Prelude.{◌≡◌, ◌≤◌};
    ghost use Rattle.pic_y4m.specs.Samples.{sample_bytes};

    /// The number of bytes.
    pub fn bytes(self) -> usize
        ensures value { result ≡ sample_bytes self }
        ensures some { 1 ≤ result }
        ensures few { result ≤ 2 }
    {
        match self {
            SampleSize::Byte => 1,
            SampleSize::Pair => 2,
        }
    }
}

/// The size of a sample of this depth in Y4M.
pub(crate) fn size_of(depth: Depth) -> SampleSize
    ensures { result ≡ size_of depth }
{
    match depth {
        Depth::D8 => SampleSize::Byte,
        Depth::D10 | Depth::D12 => SampleSize::Pair,
    }
}

/// One-byte samples.
fn byte_samples(alloc: Global, count: usize, bytes: &[u8]) -> Result<Vec<u16>, AllocError>
    requires { count ≤ length bytes.now }
    ensures { IfOk result (λ v. v.items ≡ samples_in Byte count bytes.now) }
{
    let mut samples = Vec::from_elem(alloc, 0, count)?;
    for k in 0..count {
        samples[k] = u16::from(bytes[k]);
    }
    Ok(samples)
}

/// Two-byte little-endian samples.
fn pair_samples(alloc: Global, count: usize, bytes: &[u8]) -> Result<Vec<u16>, AllocError>
    requires { 2 * count ≤ length bytes.now }
    ensures { IfOk result (λ v. v.items ≡ samples_in Pair count bytes.now) }
{
    let mut samples = Vec::from_elem(alloc, 0, count)?;
    for k in 0..count {
        samples[k] = u16::from(bytes[2 * k]) + 256 * u16::from(bytes[2 * k + 1]);
    }
    Ok(samples)
}

/// The first `count` samples of these bytes.
#[tactic(auto, unfolding(crate::specs::Samples::samples_in))]
fn samples_in(
    alloc: Global,
    size: SampleSize,
    count: usize,
    bytes: &[u8],
) -> Result<Vec<u16>, AllocError>
    requires { count * sample_bytes size ≤ length bytes.now }
    ensures { IfOk result (λ v. v.items ≡ samples_in size count bytes.now) }
{
    match size {
        SampleSize::Byte => byte_samples(alloc, count, bytes),
        SampleSize::Pair => pair_samples(alloc, count, bytes),
    }
}

/// Reads the next `count` samples; `None` at the end of the input. All bytes are read before they are decoded.
///
/// The errors are `Bad` with Truncated at the end of the input, which `place` doesn't reach then, `Failed` if a
/// call of the source failed, and `NoMemory`.
#[tactic(auto, using(crate::proofs::Planes::samples_length), unfolding(crate::specs::Samples::samples_at, crate::specs::Samples::some_samples_at, pw_outside::specs::Reading::bind))]
pub fn next_samples<S: ByteSource>(
    alloc: Global,
    source: &mut S,
    place: &mut u64,
    size: SampleSize,
    count: usize,
) -> Result<Option<Vec<u16>>, PictureFault>
    requires some { 1 ≤ count }
    requires few { count ≤ 35389440 }
    requires room { place.old < 2 ^ 62 }
    // If the source's bytes are visible, the result is the next samples, the end, or the fault.
    ensures bytes { Gives told_fault (λ v. option_map (λ w. w.items) v) (S.left source.old) (S.left source.new) place.old place.new result (some_samples_at size count) }
    ensures len { IfOk result (λ samples. IfSome samples (λ v. length v.items ≡ count)) }
    ensures place { place.new ≤ place.old + 2 * count }
    ensures same { IfOk result (λ samples. IfNone samples (place.new ≡ place.old)) }
    ensures end { IfOk result (λ samples. IfNone samples (IsAtEnd (S.left source.new))) }
    ensures becomes { GoesOn S.becomes source.old source.new }
    // The error is `Failed` exactly if a call of the source failed.
    ensures cause { CountsFault (S.faults source.old) (S.faults source.new) (is_failed result) }
{
    let len = count * size.bytes();
    let mut bytes = Vec::from_elem(alloc, 0u8, len)?;
    let got = fill(source, &mut bytes)?;
    if got == 0 {
        return Ok(None);
    }
    if got < len {
        return Err(bad(PictureKind::Truncated, *place + got as u64));
    }
    *place += len as u64;
    Ok(Some(samples_in(alloc, size, count, &bytes)?))
}

/// Reads the next samples. The errors are those of [`next_samples`].
pub fn read_samples<S: ByteSource>(
    alloc: Global,
    source: &mut S,
    place: &mut u64,
    size: SampleSize,
    count: usize,
) -> Result<Vec<u16>, PictureFault>
    requires some { 1 ≤ count }
    requires few { count ≤ 35389440 }
    requires room { place.old < 2 ^ 62 }
    // If the source's bytes are visible, the result is the next samples, or the fault.
    ensures bytes { Gives told_fault (λ v. v.items) (S.left source.old) (S.left source.new) place.old place.new result (samples_at size count) }
    ensures len { IfOk result (λ v. length v.items ≡ count) }
    ensures place { place.new ≤ place.old + 2 * count }
    ensures becomes { GoesOn S.becomes source.old source.new }
    // The error is `Failed` exactly if a call of the source failed.
    ensures cause { CountsFault (S.faults source.old) (S.faults source.new) (is_failed result) }
{
    match next_samples(alloc, source, place, size, count) {
        Ok(Some(samples)) => Ok(samples),
        Ok(None) => Err(bad(PictureKind::Truncated, *place)),
        Err(fault) => Err(fault),
    }
}

/// The index of the first sample that isn't below a limit.
fn past_of(samples: &[u16], limit: u32) -> Option<usize>
    ensures value { result ≡ position (λ s. nat_le limit s) samples.now }
    ensures inside { IfSome result (λ k. k < length samples.now) }
{
    samples.iter().position(|s| u32::from(*s) >= limit)
}

/// 2 to the bit depth: one more than the largest sample.
pub fn limit_of(depth: Depth) -> u32
    ensures { result ≡ 2 ^ sample_bits depth }
{
    match depth {
        Depth::D8 => 256,
        Depth::D10 => 1024,
        Depth::D12 => 4096,
    }
}

/// Refuses samples that aren't below a limit. The plane begins at offset `place`.
///
/// The error is `Bad` with SampleRange and the offset of the first such sample.
pub fn check_range(
    size: SampleSize,
    limit: u32,
    samples: &[u16],
    place: u64,
) -> Result<(), PictureFault>
    requires few { length samples.now ≤ 2 ^ 26 }
    requires room { place < 2 ^ 62 }
    ensures answer { Answers told_fault (λ x. x) result (in_range size limit samples.now place) }
    ensures below { OnOk result (All (λ s. s < limit) samples.now) }
    ensures pure { is_failed result ≡ false }
    // Takes no memory.
    ensures memory { is_out_of_memory result ≡ false }
{
    match past_of(samples, limit) {
        None => Ok(()),
        Some(k) => Err(bad(PictureKind::SampleRange, place + (k * size.bytes()) as u64)),
    }
}
