//! The header of a slice.

ghost use Rattle.std.specs.Prelude.{◌≡◌, ◌+◌, ◌<◌, ◌≤◌, ◌^◌, length, IfOk, OnOk, if◌then◌else◌, false};
ghost use Rattle.pw_outside.specs.Ports.{CountsFault, Lowers, GoesOn};
ghost use Rattle.pw_outside.specs.Reading.{Answers, Gives, GivesValue, Told};
ghost use Rattle.pr_head.specs.Bytes.{number16};
ghost use Rattle.pr_head.specs.Faults.{told_fault, is_failed, is_out_of_memory};
ghost use Rattle.pr_head.specs.Slice.{least_slice_header, slice_size, with_last, slice_fault, slice_at, IsSliceHeader};
ghost use Rattle.pr_head.specs.inner.Steps.{stated_in, cr_in, slice_in};

use crate::fault::{FrameFault, FrameKind, bad};
use crate::pieces::{pass, u16_at, whole};
use pw_outside::ByteSource;

/// The header of a slice (SMPTE RDD 36, slice header), with the sizes of all components.
#[derive(Clone, Copy, Debug, PartialEq, Eq)]
pub struct SliceHeader {
    /// The size of the header in bytes, from 6 (8 with alpha) to 31.
    pub header: u8,
    /// The quantisation index, from 1 to 224.
    pub index: u8,
    /// The size of luma in bytes.
    pub y: u16,
    /// The size of Cb in bytes.
    pub cb: u16,
    /// The size of Cr in bytes.
    pub cr: u16,
    /// The size of alpha in bytes, 0 where there is none.
    pub alpha: u16,
}

/// The number of bytes of the fields.
fn least(alpha: bool) -> u8
    ensures { result ≡ least_slice_header alpha }
{
    if alpha { 8 } else { 6 }
}

impl SliceHeader {
    /// The stated fields, with 0 for the size of the last component.
    fn stated(bytes: &[u8; 6], cr: &[u8; 2]) -> SliceHeader
        ensures value { result ≡ stated_in bytes.now cr.now }
        ensures header { result.header ≤ 31 }
        ensures cr { result.cr ≡ number16 cr.now 0 }
        ensures alpha { result.alpha ≡ 0 }
    {
        SliceHeader {
            header: bytes[0] / 8,
            index: bytes[1],
            y: u16_at(bytes, 2),
            cb: u16_at(bytes, 4),
            cr: u16_at(cr, 0),
            alpha: 0,
        }
    }

    /// The number of bytes of the header and the components.
    fn size(&self) -> u32
        ensures { result ≡ slice_size self.now }
    {
        u32::from(self.header)
            + u32::from(self.y)
            + u32::from(self.cb)
            + u32::from(self.cr)
            + u32::from(self.alpha)
    }

    /// The first fault of a slice of `size` bytes at the offset `at`.
    #[tactic(auto, unfolding(crate::specs::Slice::slice_fault, pw_outside::specs::Reading::bind))]
    fn judge(&self, at: u32, size: u16, alpha: bool) -> Result<(), FrameFault>
        ensures fault { Answers told_fault (λ x. x) result (slice_fault size alpha at self.now) }
        ensures least { OnOk result (least_slice_header alpha ≤ self.now.header) }
        ensures index_from { OnOk result (1 ≤ self.now.index) }
        ensures index_to { OnOk result (self.now.index ≤ 224) }
        ensures within { OnOk result (slice_size self.now ≤ size) }
        ensures cause { is_failed result ≡ false }
        ensures memory { is_out_of_memory result ≡ false }
    {
        let place = u64::from(at);
        if self.header < least(alpha) || size < u16::from(self.header) {
            return Err(bad(FrameKind::SliceHeader, place));
        }
        if self.index == 0 || 224 < self.index {
            return Err(bad(FrameKind::QuantIndex, place + 1));
        }
        if u32::from(size) < self.size() {
            return Err(bad(FrameKind::ComponentSize, place + 2));
        }
        Ok(())
    }

    /// The header whose last component has the rest of a slice of `size` bytes.
    fn with_last(self, size: u16, alpha: bool) -> SliceHeader
        requires within { slice_size self ≤ size }
        requires none { self.alpha ≡ 0 }
        requires cr { (if alpha then 0 else self.cr) ≡ 0 }
        ensures value { result ≡ with_last size alpha self }
        ensures whole { slice_size result ≡ size }
    {
        let rest = size - self.size() as u16;
        if alpha {
            SliceHeader {
                alpha: rest,
                ..self
            }
        } else {
            SliceHeader { cr: rest, ..self }
        }
    }
}

/// The two bytes of the size of Cr if it is stated, and zeros else.
#[tactic(auto, using(crate::proofs::Bounds::lowers_same), unfolding(crate::specs::inner::Steps::cr_in, crate::specs::Bytes::number16))]
fn cr_of<S: ByteSource>(
    source: &mut S,
    place: &mut u64,
    at: u64,
    stated: bool,
) -> Result<[u8; 2], FrameFault>
    requires { place.old + 2 < 2 ^ 64 }
    ensures bytes { Gives told_fault (λ x. x) (S.left source.old) (S.left source.new) place.old place.new result (cr_in at stated) }
    ensures none { IfOk result (λ bytes. (if stated then 0 else number16 bytes 0) ≡ 0) }
    ensures place { place.new ≤ place.old + 2 }
    ensures most { Lowers (S.most source.old) (S.most source.new) 0 }
    ensures becomes { GoesOn S.becomes source.old source.new }
    ensures cause { CountsFault (S.faults source.old) (S.faults source.new) (is_failed result) }
    ensures memory { is_out_of_memory result ≡ false }
{
    let mut bytes = [0u8; 2];
    if stated {
        whole(source, place, &mut bytes, FrameKind::SliceHeader, at)?;
    }
    Ok(bytes)
}

#[tactic(auto, using(crate::proofs::Bounds::lowers_then, crate::proofs::Bounds::lowers_same), unfolding(crate::specs::inner::Steps::slice_in, pw_outside::specs::Reading::bind))]
fn slice_of<S: ByteSource>(
    source: &mut S,
    place: &mut u64,
    at: u32,
    size: u16,
    alpha: bool,
) -> Result<SliceHeader, FrameFault>
    requires { place.old ≡ at }
    ensures bytes { Gives told_fault (λ x. x) (S.left source.old) (S.left source.new) place.old place.new result (slice_in size alpha) }
    ensures slice { IfOk result (IsSliceHeader size alpha) }
    ensures most { Lowers (S.most source.old) (S.most source.new) 0 }
    ensures becomes { GoesOn S.becomes source.old source.new }
    ensures cause { CountsFault (S.faults source.old) (S.faults source.new) (is_failed result) }
    ensures memory { is_out_of_memory result ≡ false }
{
    let here = *place;
    if size < u16::from(least(alpha)) {
        return Err(bad(FrameKind::SliceHeader, here));
    }
    let mut bytes = [0u8; 6];
    whole(source, place, &mut bytes, FrameKind::SliceHeader, here)?;
    let cr = cr_of(source, place, here, alpha)?;
    let stated = SliceHeader::stated(&bytes, &cr);
    stated.judge(at, size, alpha)?;
    let spare = u16::from(stated.header - least(alpha));
    pass(source, place, spare, FrameKind::SliceHeader, here)?;
    Ok(stated.with_last(size, alpha))
}

/// Reads the header of the slice of `size` bytes at the offset `at` of its frame, with the bytes after its known
/// fields; `alpha` says whether the frame has alpha.
///
/// The errors are `Bad` with the first fault of the bytes, and `Failed` if a call of the source failed. For a
/// source whose bytes are opaque and which ends too early, the error is `Bad` with `SliceHeader`.
pub fn read_slice_header<S: ByteSource>(
    source: &mut S,
    at: u32,
    size: u16,
    alpha: bool,
) -> Result<SliceHeader, FrameFault>
    // If the source's bytes are visible and include the whole slice, the result is what they stand for, or their
    // first fault.
    ensures bytes { Told (S.left source.old) (λ bytes. size ≤ length bytes) → GivesValue told_fault (λ x. x) (S.left source.old) (S.left source.new) at result (slice_at size alpha) }
    // What is returned has none of the faults.
    ensures slice { IfOk result (IsSliceHeader size alpha) }
    ensures most { Lowers (S.most source.old) (S.most source.new) 0 }
    ensures becomes { GoesOn S.becomes source.old source.new }
    // The error is `Failed` only if a call of the source failed, and each such call is reported.
    ensures cause { CountsFault (S.faults source.old) (S.faults source.new) (is_failed result) }
    // No memory is taken.
    ensures memory { is_out_of_memory result ≡ false }
{
    let mut place = u64::from(at);
    slice_of(source, &mut place, at, size, alpha)
}
