//! The gathered frames.

ghost use Rattle.std.specs.Prelude.{◌≡◌, ◌+◌, ◌-◌, ◌++◌, ◌<◌, ◌≤◌, ◌^◌, ℕ, List, [], ◌∷◌, false, length, is_err, IfErr, IfOk, OnOk, OnErr};
ghost use Rattle.pw_outside.specs.Ports.{CountsFault};
ghost use Rattle.pw_outside.specs.Reading.{Told};
ghost use Rattle.pw_outside.specs.Writing.{sink_state, Puts, PutsFront, Extends};
ghost use Rattle.qt_atoms.specs.Atoms.{bytes_in};
ghost use Rattle.qt_tables.specs.declared.tables.TheConstants.{MAX_SAMPLES};
ghost use Rattle.qt_movie.specs.MovieBytes.{ftyp_bytes, frame_bytes};
ghost use Rattle.rescue_run.specs.Rescuing.{IsRate, is_done};
ghost use Rattle.rescue_run.specs.inner.Windows.{IsPart, Shows};
ghost use Rattle.rescue_run.specs.inner.Steps.{IsForm, IsKept, AreKept, IsPortsEnd, IsCopyEnd, IsWritersEnd, TakingIs, extents_in, form_in, first_or, is_read_end, is_write_end};

use crate::end::RescueEnd;
use crate::form::{FrameForm, Rate, head_of};
use crate::window::{Window, reach};
use pw_outside::{ByteSink, ByteStore, Failed, put_all};
use qt_movie::MovieWriter;
use qt_tables::{Extent, MAX_SAMPLES, MovieKind};
use std::alloc::Global;

/// The gathered frames: their form, their extents in the file, and the movie's writer.
#[derive(Drop)]
pub(crate) struct Gathering {
    pub(crate) form: FrameForm,
    pub(crate) writer: MovieWriter,
    pub(crate) extents: Vec<Extent>,
}

/// Writes the bytes of a window from offset `place` on, up to `end` at most. Returns the offset after the last one
/// written.
fn put_shown<K: ByteSink>(window: &Window, place: u64, end: u64, out: &mut K) -> Result<u64, Failed>
    requires held { window.now.held ≤ length window.now.piece.items }
    requires near { window.now.from + window.now.held < 2 ^ 64 }
    requires from { window.now.from ≤ place }
    requires there { place < window.now.from + window.now.held }
    requires end { place < end }
    ensures stop { IfOk result (λ stop. (place < stop) × (stop ≤ end)) }
    ensures ok { (file : List ℕ) → IsPart file window.now → IfOk result (λ stop. Puts (sink_state (K.held out.old) (K.taken out.old)) (sink_state (K.held out.new) (K.taken out.new)) (bytes_in (stop - place) file place)) }
    ensures err { (file : List ℕ) → IsPart file window.now → OnErr result (PutsFront (sink_state (K.held out.old) (K.taken out.old)) (sink_state (K.held out.new) (K.taken out.new)) (bytes_in (end - place) file place)) }
    ensures extends { Extends (sink_state (K.held out.old) (K.taken out.old)) (sink_state (K.held out.new) (K.taken out.new)) }
    ensures cause { CountsFault (K.faults out.old) (K.faults out.new) (is_err result) }
{
    let stop = (window.from + window.held as u64).min(end);
    let at = (place - window.from) as usize;
    let last = (stop - window.from) as usize;
    put_all(out, &window.piece[at..last])?;
    Ok(stop)
}

/// Writes `size` bytes of a file from offset `place` on.
fn copy_bytes<M: ByteStore, K: ByteSink>(
    window: &mut Window,
    movie: &mut M,
    place: u64,
    size: u32,
    total: u64,
    out: &mut K,
) -> Result<(), RescueEnd>
    requires shows { Shows (M.bytes movie.old) total window.old }
    requires inside { place + size ≤ total }
    requires whole { Told (M.bytes movie.old) (λ file. total ≡ length file) }
    ensures shows { OnOk result (Shows (M.bytes movie.old) total window.new) }
    ensures ok { Told (M.bytes movie.old) (λ file. OnOk result (Puts (sink_state (K.held out.old) (K.taken out.old)) (sink_state (K.held out.new) (K.taken out.new)) (bytes_in size file place))) }
    ensures err { Told (M.bytes movie.old) (λ file. OnErr result (PutsFront (sink_state (K.held out.old) (K.taken out.old)) (sink_state (K.held out.new) (K.taken out.new)) (bytes_in size file place))) }
    ensures end { IfErr result IsCopyEnd }
    ensures told_end { Told (M.bytes movie.old) (λ file. IfErr result IsPortsEnd) }
    ensures extends { Extends (sink_state (K.held out.old) (K.taken out.old)) (sink_state (K.held out.new) (K.taken out.new)) }
    ensures bytes { M.bytes movie.new ≡ M.bytes movie.old }
    ensures read { CountsFault (M.faults movie.old) (M.faults movie.new) (is_read_end result) }
    ensures write { CountsFault (K.faults out.old) (K.faults out.new) (is_write_end result) }
{
    let end = place + u64::from(size);
    let mut next = place;
    while next < end {
        match reach(window, movie, next, 1, total) {
            Ok(()) => {}
            Err(_) => return Err(RescueEnd::ReadFault),
        }
        if window.from + window.held as u64 <= next {
            return Err(RescueEnd::BadMovie {
                kind: MovieKind::SampleOutside,
                place,
            });
        }
        match put_shown(window, next, end, out) {
            Ok(stop) => next = stop,
            Err(_) => return Err(RescueEnd::WriteFault),
        }
    }
    Ok(())
}

/// Gathers a frame, and writes it after those gathered before: the header of its data atom, and its bytes.
fn add<M: ByteStore, K: ByteSink>(
    movie: &mut M,
    window: &mut Window,
    total: u64,
    found: &Extent,
    gathering: &mut Gathering,
    out: &mut K,
) -> Result<(), RescueEnd>
    requires shows { Shows (M.bytes movie.old) total window.old }
    requires inside { found.now.at + found.now.size ≤ total }
    requires small { found.now.size ≤ 4294967286 }
    requires few { length gathering.old.writer.sizes < MAX_SAMPLES }
    requires whole { Told (M.bytes movie.old) (λ file. total ≡ length file) }
    ensures shows { OnOk result (Shows (M.bytes movie.old) total window.new) }
    ensures form { gathering.new.form ≡ gathering.old.form }
    ensures head { gathering.new.writer.head ≡ gathering.old.writer.head }
    ensures sizes { OnOk result (gathering.new.writer.sizes ≡ gathering.old.writer.sizes ++ found.now.size ∷ []) }
    ensures extents { OnOk result (gathering.new.extents.items ≡ gathering.old.extents.items ++ found.now ∷ []) }
    ensures ok { Told (M.bytes movie.old) (λ file. OnOk result (Puts (sink_state (K.held out.old) (K.taken out.old)) (sink_state (K.held out.new) (K.taken out.new)) (frame_bytes (bytes_in found.now.size file found.now.at)))) }
    ensures err { Told (M.bytes movie.old) (λ file. OnErr result (PutsFront (sink_state (K.held out.old) (K.taken out.old)) (sink_state (K.held out.new) (K.taken out.new)) (frame_bytes (bytes_in found.now.size file found.now.at)))) }
    ensures end { IfErr result IsCopyEnd }
    ensures told_end { Told (M.bytes movie.old) (λ file. IfErr result IsPortsEnd) }
    ensures extends { Extends (sink_state (K.held out.old) (K.taken out.old)) (sink_state (K.held out.new) (K.taken out.new)) }
    ensures bytes { M.bytes movie.new ≡ M.bytes movie.old }
    ensures read { CountsFault (M.faults movie.old) (M.faults movie.new) (is_read_end result) }
    ensures write { CountsFault (K.faults out.old) (K.faults out.new) (is_write_end result) }
{
    match gathering.writer.reserve(1) {
        Ok(()) => {}
        Err(_) => return Err(RescueEnd::NoMemory),
    }
    match gathering.extents.push(*found) {
        Ok(()) => {}
        Err(_) => return Err(RescueEnd::NoMemory),
    }
    match gathering.writer.frame_head(out, found.size) {
        Ok(()) => {}
        Err(_) => return Err(RescueEnd::WriteFault),
    }
    copy_bytes(window, movie, found.at, found.size, total, out)
}

/// Begins a movie whose frames have this form: writes the file type.
fn open<K: ByteSink>(
    alloc: Global,
    rate: &Rate,
    form: &FrameForm,
    out: &mut K,
) -> Result<Gathering, RescueEnd>
    requires rate { IsRate rate.now }
    requires form { IsForm form.now }
    ensures kept { IfOk result (IsKept rate.now) }
    ensures form { IfOk result (λ g. g.form ≡ form.now) }
    ensures extents { IfOk result (λ g. g.extents.items ≡ []) }
    ensures ok { OnOk result (Puts (sink_state (K.held out.old) (K.taken out.old)) (sink_state (K.held out.new) (K.taken out.new)) ftyp_bytes) }
    ensures err { OnErr result (PutsFront (sink_state (K.held out.old) (K.taken out.old)) (sink_state (K.held out.new) (K.taken out.new)) ftyp_bytes) }
    ensures end { IfErr result IsWritersEnd }
    ensures write { CountsFault (K.faults out.old) (K.faults out.new) (is_write_end result) }
{
    match MovieWriter::begin(alloc, out, &head_of(rate, form)) {
        Ok(writer) => Ok(Gathering {
            form: *form,
            writer,
            extents: Vec::new(alloc),
        }),
        Err(_) => Err(RescueEnd::WriteFault),
    }
}

/// Takes the first frame: begins a movie of its form, gathers it and writes it.
fn take_first<M: ByteStore, K: ByteSink>(
    alloc: Global,
    movie: &mut M,
    window: &mut Window,
    total: u64,
    rate: &Rate,
    found: &Extent,
    form: &FrameForm,
    out: &mut K,
) -> Result<Gathering, RescueEnd>
    requires rate { IsRate rate.now }
    requires form { IsForm form.now }
    requires shows { Shows (M.bytes movie.old) total window.old }
    requires inside { found.now.at + found.now.size ≤ total }
    requires small { found.now.size ≤ 4294967286 }
    requires whole { Told (M.bytes movie.old) (λ file. total ≡ length file) }
    ensures shows { OnOk result (Shows (M.bytes movie.old) total window.new) }
    ensures kept { IfOk result (IsKept rate.now) }
    ensures form { IfOk result (λ g. g.form ≡ form.now) }
    ensures extents { IfOk result (λ g. g.extents.items ≡ found.now ∷ []) }
    ensures ok { Told (M.bytes movie.old) (λ file. OnOk result (Puts (sink_state (K.held out.old) (K.taken out.old)) (sink_state (K.held out.new) (K.taken out.new)) (ftyp_bytes ++ frame_bytes (bytes_in found.now.size file found.now.at)))) }
    ensures err { Told (M.bytes movie.old) (λ file. OnErr result (PutsFront (sink_state (K.held out.old) (K.taken out.old)) (sink_state (K.held out.new) (K.taken out.new)) (ftyp_bytes ++ frame_bytes (bytes_in found.now.size file found.now.at)))) }
    ensures end { IfErr result IsCopyEnd }
    ensures told_end { Told (M.bytes movie.old) (λ file. IfErr result IsPortsEnd) }
    ensures extends { Extends (sink_state (K.held out.old) (K.taken out.old)) (sink_state (K.held out.new) (K.taken out.new)) }
    ensures bytes { M.bytes movie.new ≡ M.bytes movie.old }
    ensures read { CountsFault (M.faults movie.old) (M.faults movie.new) (is_read_end result) }
    ensures write { CountsFault (K.faults out.old) (K.faults out.new) (is_write_end result) }
{
    let mut gathered = open(alloc, rate, form, out)?;
    match add(movie, window, total, found, &mut gathered, out) {
        Ok(()) => Ok(gathered),
        Err(end) => Err(end),
    }
}

/// Takes a frame that was found, of this form: gathers it and writes it. The first one opens the movie.
pub(crate) fn take_frame<M: ByteStore, K: ByteSink>(
    alloc: Global,
    movie: &mut M,
    window: &mut Window,
    total: u64,
    rate: &Rate,
    found: &Extent,
    form: &FrameForm,
    gathering: &mut Option<Gathering>,
    out: &mut K,
) -> Result<(), RescueEnd>
    requires rate { IsRate rate.now }
    requires form { IsForm form.now }
    requires kept { AreKept rate.now gathering.old }
    requires shows { Shows (M.bytes movie.old) total window.old }
    requires inside { found.now.at + found.now.size ≤ total }
    requires small { found.now.size ≤ 4294967286 }
    requires whole { Told (M.bytes movie.old) (λ file. total ≡ length file) }
    ensures shows { OnOk result (Shows (M.bytes movie.old) total window.new) }
    ensures kept { OnOk result (AreKept rate.now gathering.new) }
    ensures form { OnOk result (form_in gathering.new ≡ first_or (form_in gathering.old) form.now) }
    ensures extents { OnOk result (extents_in gathering.new ≡ extents_in gathering.old ++ found.now ∷ []) }
    ensures taking { Told (M.bytes movie.old) (λ file. TakingIs (bytes_in found.now.size file found.now.at) found.now.at (extents_in gathering.old) result
        (sink_state (K.held out.old) (K.taken out.old)) (sink_state (K.held out.new) (K.taken out.new))) }
    ensures not_done { IfErr result (λ e. is_done e ≡ false) }
    ensures extends { Extends (sink_state (K.held out.old) (K.taken out.old)) (sink_state (K.held out.new) (K.taken out.new)) }
    ensures bytes { M.bytes movie.new ≡ M.bytes movie.old }
    ensures read { CountsFault (M.faults movie.old) (M.faults movie.new) (is_read_end result) }
    ensures write { CountsFault (K.faults out.old) (K.faults out.new) (is_write_end result) }
{
    match gathering {
        Some(gathered) => {
            if gathered.writer.frames() >= MAX_SAMPLES {
                return Err(RescueEnd::BadMovie {
                    kind: MovieKind::TooManySamples,
                    place: found.at,
                });
            }
            add(movie, window, total, found, gathered, out)
        }
        None => {
            *gathering = Some(take_first(alloc, movie, window, total, rate, found, form, out)?);
            Ok(())
        }
    }
}
