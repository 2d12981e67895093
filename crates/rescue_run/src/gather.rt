//! Gathering all frames of a file.

ghost use Rattle.std.specs.Prelude.{◌≡◌, ◌+◌, ◌<◌, ◌≤◌, false, length, IfErr, IfOk, OnOk};
ghost use Rattle.pw_outside.specs.Ports.{CountsFault};
ghost use Rattle.pw_outside.specs.Reading.{Told};
ghost use Rattle.pw_outside.specs.Writing.{SinkState, sink_state, Extends};
ghost use Rattle.rescue_run.specs.Chain.{HasMark};
ghost use Rattle.rescue_run.specs.Rescuing.{IsRate, is_done};
ghost use Rattle.rescue_run.specs.inner.Windows.{Shows};
ghost use Rattle.rescue_run.specs.inner.Steps.{AreKept, GatheredUpTo, GoesFrom, GathersAll, form_in, is_read_end, is_write_end};

use crate::end::RescueEnd;
use crate::form::{FrameForm, Rate};
use crate::gathering::{Gathering, take_frame};
use crate::judging::judge;
use crate::search::next_mark;
use crate::window::{Window, new_window, size_in};
use pw_outside::{ByteSink, ByteStore};
use qt_tables::Extent;
use std::alloc::Global;

/// The form of the gathered frames.
fn form_in(gathering: &Option<Gathering>) -> Option<FrameForm>
    ensures { result ≡ form_in gathering.now }
{
    match gathering {
        Some(gathered) => Some(gathered.form),
        None => None,
    }
}

/// One iteration at an offset with the frame mark: takes its frame, if it holds one of the form of the first.
/// Returns the offset at which the search continues.
fn turn<M: ByteStore, K: ByteSink>(
    alloc: Global,
    movie: &mut M,
    window: &mut Window,
    total: u64,
    rate: &Rate,
    place: u64,
    gathering: &mut Option<Gathering>,
    out: &mut K,
) -> Result<u64, RescueEnd>
    requires rate { IsRate rate.now }
    requires kept { AreKept rate.now gathering.old }
    requires shows { Shows (M.bytes movie.old) total window.old }
    requires from { window.old.from ≤ place }
    requires there { place + 8 ≤ window.old.from + window.old.held }
    requires whole { Told (M.bytes movie.old) (λ file. total ≡ length file) }
    requires mark { Told (M.bytes movie.old) (λ file. HasMark file place) }
    ensures shows { OnOk result (Shows (M.bytes movie.old) total window.new) }
    ensures kept { OnOk result (AreKept rate.now gathering.new) }
    ensures on { IfOk result (λ next. (place < next) × (next ≤ total)) }
    ensures goes { Told (M.bytes movie.old) (λ file. (start : SinkState) → GatheredUpTo file place gathering.old start (sink_state (K.held out.old) (K.taken out.old))
        → GoesFrom file result gathering.new start (sink_state (K.held out.new) (K.taken out.new))) }
    ensures not_done { IfErr result (λ e. is_done e ≡ false) }
    ensures extends { Extends (sink_state (K.held out.old) (K.taken out.old)) (sink_state (K.held out.new) (K.taken out.new)) }
    ensures bytes { M.bytes movie.new ≡ M.bytes movie.old }
    ensures read { CountsFault (M.faults movie.old) (M.faults movie.new) (is_read_end result) }
    ensures write { CountsFault (K.faults out.old) (K.faults out.new) (is_write_end result) }
{
    let size = size_in(window, place);
    let first = form_in(gathering);
    match judge(alloc, movie, place, size, total, &first)? {
        Some(form) => {
            let found = Extent { at: place, size };
            take_frame(
                alloc, movie, window, total, rate, &found, &form, gathering, out,
            )?;
            Ok(place + u64::from(size))
        }
        None => Ok(place + 1),
    }
}

/// Searches for the next frame mark, and does one iteration there. Returns the offset at which the search
/// continues.
fn step<M: ByteStore, K: ByteSink>(
    alloc: Global,
    movie: &mut M,
    window: &mut Window,
    total: u64,
    rate: &Rate,
    place: u64,
    gathering: &mut Option<Gathering>,
    out: &mut K,
) -> Result<u64, RescueEnd>
    requires rate { IsRate rate.now }
    requires kept { AreKept rate.now gathering.old }
    requires shows { Shows (M.bytes movie.old) total window.old }
    requires place { place < total }
    requires whole { Told (M.bytes movie.old) (λ file. total ≡ length file) }
    ensures shows { OnOk result (Shows (M.bytes movie.old) total window.new) }
    ensures kept { OnOk result (AreKept rate.now gathering.new) }
    ensures on { IfOk result (λ next. (place < next) × (next ≤ total)) }
    ensures goes { Told (M.bytes movie.old) (λ file. (start : SinkState) → GatheredUpTo file place gathering.old start (sink_state (K.held out.old) (K.taken out.old))
        → GoesFrom file result gathering.new start (sink_state (K.held out.new) (K.taken out.new))) }
    ensures not_done { IfErr result (λ e. is_done e ≡ false) }
    ensures extends { Extends (sink_state (K.held out.old) (K.taken out.old)) (sink_state (K.held out.new) (K.taken out.new)) }
    ensures bytes { M.bytes movie.new ≡ M.bytes movie.old }
    ensures read { CountsFault (M.faults movie.old) (M.faults movie.new) (is_read_end result) }
    ensures write { CountsFault (K.faults out.old) (K.faults out.new) (is_write_end result) }
{
    match next_mark(window, movie, place, total) {
        Ok(Some(found)) => turn(alloc, movie, window, total, rate, found, gathering, out),
        Ok(None) => Ok(total),
        Err(_) => Err(RescueEnd::ReadFault),
    }
}

/// Gathers all frames of a file, and writes each; `total` is the file's size.
fn gather_all<M: ByteStore, K: ByteSink>(
    alloc: Global,
    movie: &mut M,
    total: u64,
    rate: &Rate,
    out: &mut K,
) -> Result<Option<Gathering>, RescueEnd>
    requires rate { IsRate rate.now }
    requires whole { Told (M.bytes movie.old) (λ file. total ≡ length file) }
    ensures kept { IfOk result (AreKept rate.now) }
    ensures gathers { Told (M.bytes movie.old) (λ file. GathersAll file result (sink_state (K.held out.old) (K.taken out.old)) (sink_state (K.held out.new) (K.taken out.new))) }
    ensures not_done { IfErr result (λ e. is_done e ≡ false) }
    ensures extends { Extends (sink_state (K.held out.old) (K.taken out.old)) (sink_state (K.held out.new) (K.taken out.new)) }
    ensures bytes { M.bytes movie.new ≡ M.bytes movie.old }
    ensures read { CountsFault (M.faults movie.old) (M.faults movie.new) (is_read_end result) }
    ensures write { CountsFault (K.faults out.old) (K.faults out.new) (is_write_end result) }
{
    let mut window = match new_window(alloc) {
        Ok(window) => window,
        Err(_) => return Err(RescueEnd::NoMemory),
    };
    let mut gathering = None;
    let mut place = 0;
    while place < total {
        place = step(
            alloc,
            movie,
            &mut window,
            total,
            rate,
            place,
            &mut gathering,
            out,
        )?;
    }
    Ok(gathering)
}

/// Gathers all frames of a file, and writes each.
pub(crate) fn gather<M: ByteStore, K: ByteSink>(
    alloc: Global,
    movie: &mut M,
    rate: &Rate,
    out: &mut K,
) -> Result<Option<Gathering>, RescueEnd>
    requires rate { IsRate rate.now }
    ensures kept { IfOk result (AreKept rate.now) }
    ensures gathers { Told (M.bytes movie.old) (λ file. GathersAll file result (sink_state (K.held out.old) (K.taken out.old)) (sink_state (K.held out.new) (K.taken out.new))) }
    ensures not_done { IfErr result (λ e. is_done e ≡ false) }
    ensures extends { Extends (sink_state (K.held out.old) (K.taken out.old)) (sink_state (K.held out.new) (K.taken out.new)) }
    ensures bytes { M.bytes movie.new ≡ M.bytes movie.old }
    ensures read { CountsFault (M.faults movie.old) (M.faults movie.new) (is_read_end result) }
    ensures write { CountsFault (K.faults out.old) (K.faults out.new) (is_write_end result) }
{
    match movie.length() {
        Ok(total) => gather_all(alloc, movie, total, rate, out),
        Err(_) => Err(RescueEnd::ReadFault),
    }
}
