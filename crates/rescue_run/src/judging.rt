//! Whether a frame of the form of the first lies at an offset.

ghost use Rattle.std.specs.Prelude.{◌≡◌, ◌↔◌, ◌+◌, ◌<◌, ◌≤◌, ◌^◌, Some, IfOk, IfErr, IfSome, IsTrue, length};
ghost use Rattle.std.specs.Bool.{OnTrue, OnFalse};
ghost use Rattle.pw_outside.specs.Ports.{CountsFault};
ghost use Rattle.pw_outside.specs.Reading.{Told};
ghost use Rattle.qt_atoms.specs.Atoms.{bytes_in};
ghost use Rattle.pr_head.specs.Faults.{told_fault, is_failed};
ghost use Rattle.pr_frame.specs.Reading.{frame_fault};
ghost use Rattle.rescue_run.specs.Chain.{HasMark, size_at, form_of};
ghost use Rattle.rescue_run.specs.inner.Steps.{IsForm, StandsAs, IsFirstForm, IsJudged, IsReadersEnd, is_read_end};

use crate::end::RescueEnd;
use crate::form::FrameForm;
use pr_frame::{frame_has_no_fault, one_frame, read_frame};
use pr_head::{FrameFault, FrameHeader};
use pw_outside::{ByteStore, Span};
use std::alloc::Global;

/// The greatest size of a frame: its data atom has to fit 32 bits.
const MAX_SIZE: u32 = 4_294_967_286;

/// The properties that a frame shares with the others of its movie.
fn form_of(header: &FrameHeader) -> FrameForm
    ensures { result ≡ form_of header.now }
{
    FrameForm {
        width: header.width,
        height: header.height,
        chroma: header.chroma,
        interlace: header.interlace,
        alpha: header.alpha,
    }
}

/// The form of the frame in a part of a file.
fn form_at<M: ByteStore>(
    alloc: Global,
    movie: &mut M,
    place: u64,
    size: u32,
) -> Result<FrameForm, FrameFault>
    requires near { place + size < 2 ^ 64 }
    requires inside { Told (M.bytes movie.old) (λ file. place + size ≤ length file) }
    ensures stands { IfOk result (λ form. Told (M.bytes movie.old) (λ file. StandsAs (bytes_in size file place) form)) }
    ensures fault { IfErr result (λ e. Told (M.bytes movie.old) (λ file. IfSome (told_fault e) (λ fault. frame_fault (bytes_in size file place) ≡ Some fault))) }
    ensures form { IfOk result IsForm }
    ensures bytes { M.bytes movie.new ≡ M.bytes movie.old }
    ensures cause { CountsFault (M.faults movie.old) (M.faults movie.new) (is_failed result) }
{
    let mut span = Span::new(movie, place, place + u64::from(size));
    let frame = read_frame(alloc, &mut span, size)?;
    Ok(form_of(&frame.header))
}

/// Whether a form is that of the first frame; before the first frame, any form is.
fn is_first(first: &Option<FrameForm>, form: &FrameForm) -> bool
    ensures yes { OnTrue result (IsFirstForm first.now form.now) }
    ensures no { OnFalse result (IsFirstForm first.now form.now → ⊥) }
{
    match first {
        Some(first) => first == form,
        None => true,
    }
}

/// The form of the frame of `size` bytes at offset `place`, if it is that of the first; none if no frame lies
/// there.
pub(crate) fn judge<M: ByteStore>(
    alloc: Global,
    movie: &mut M,
    place: u64,
    size: u32,
    total: u64,
    first: &Option<FrameForm>,
) -> Result<Option<FrameForm>, RescueEnd>
    requires place { place ≤ total }
    requires whole { Told (M.bytes movie.old) (λ file. total ≡ length file) }
    requires mark { Told (M.bytes movie.old) (λ file. HasMark file place) }
    requires size { Told (M.bytes movie.old) (λ file. size ≡ size_at file place) }
    ensures judged { Told (M.bytes movie.old) (λ file. IfOk result (IsJudged file place first.now)) }
    ensures form { IfOk result (λ r. IfSome r IsForm) }
    ensures fits { IfOk result (λ r. IfSome r (λ _. (28 ≤ size) × (size ≤ 4294967286) × (place + size ≤ total))) }
    ensures end { IfErr result IsReadersEnd }
    ensures bytes { M.bytes movie.new ≡ M.bytes movie.old }
    ensures cause { CountsFault (M.faults movie.old) (M.faults movie.new) (is_read_end result) }
{
    one_frame();
    frame_has_no_fault();
    if size < 28 || size > MAX_SIZE || total - place < u64::from(size) {
        return Ok(None);
    }
    match form_at(alloc, movie, place, size) {
        Ok(form) => {
            if is_first(first, &form) {
                Ok(Some(form))
            } else {
                Ok(None)
            }
        }
        Err(FrameFault::Bad { .. }) => Ok(None),
        Err(FrameFault::Failed) => Err(RescueEnd::ReadFault),
        Err(FrameFault::NoMemory) => Err(RescueEnd::NoMemory),
    }
}
