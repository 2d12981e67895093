//! The end of a run: the movie atom, the text, the flushes.

ghost use Rattle.std.specs.Prelude.{◌≡◌, ◌+◌, ◌-◌, ◌<◌, ◌≤◌, ◌++◌, [], OnOk, OnErr, IfOk, is_err, length, take, drop, Some, slice_get};
ghost use Rattle.std.specs.Bool.{OnTrue};
ghost use Rattle.std.specs.Fmt.{decimal};
ghost use Rattle.pw_outside.specs.Ports.{CountsFault, CountsFaults};
ghost use Rattle.pw_outside.specs.Writing.{sink_state, Puts, PutsFront, Extends};
ghost use Rattle.pic_y4m.specs.Writing.{Writes, write_failed};
ghost use Rattle.qt_movie.specs.MovieBytes.{moov_bytes, extents};
ghost use Rattle.rescue_run.specs.Rescuing.{frame_line, frame_lines, count_line, rescue_text, world, is_done, is_write_fault};
ghost use Rattle.rescue_run.specs.inner.Steps.{FinishIs, TextIs};

use crate::end::RescueEnd;
use crate::gathering::Gathering;
use pic_y4m::WriteEnd;
use pw_outside::{ByteSink, Failed, NoMemory, put_all};
use pw_text::{put_decimal, put_words};
use qt_tables::Extent;
use std::alloc::Global;

/// The number of lines that are written at once.
const LINES: usize = 256;

/// Appends words and a number.
fn put_pair(text: &mut Vec<u8>, words: &str, number: u64) -> Result<(), NoMemory>
    ensures { OnOk result (text.new.items ≡ text.old.items ++ (words.now ++ decimal number)) }
{
    put_words(text, words)?;
    put_decimal(text, number)
}

/// Appends the line of a frame.
fn put_frame(text: &mut Vec<u8>, number: u64, extent: &Extent) -> Result<(), NoMemory>
    ensures { OnOk result (text.new.items ≡ text.old.items ++ frame_line number extent.now) }
{
    put_pair(text, "frame ", number)?;
    put_pair(text, " at ", extent.at)?;
    put_pair(text, " size ", u64::from(extent.size))?;
    put_words(text, "\n")
}

/// The extent of the frame with this number.
fn extent_at(extents: &[Extent], number: usize) -> Extent
    requires { number < length extents.now }
    ensures { slice_get extents.now number ≡ Some result }
{
    extents[number]
}

/// The lines of the frames from number `from` up to `end`, which is left out.
fn lines_of(alloc: Global, extents: &[Extent], from: usize, end: usize) -> Result<Vec<u8>, NoMemory>
    requires order { from ≤ end }
    requires there { end ≤ length extents.now }
    ensures { IfOk result (λ lines. lines.items ≡ frame_lines from (take (end - from) (drop from extents.now))) }
{
    let mut text = Vec::new(alloc);
    for number in from..end {
        put_frame(&mut text, number as u64, &extent_at(extents, number))?;
    }
    Ok(text)
}

/// Writes the lines of the frames from number `from` up to `end`, which is left out.
fn put_some<K: ByteSink>(
    alloc: Global,
    extents: &[Extent],
    from: usize,
    end: usize,
    text: &mut K,
) -> Result<(), WriteEnd>
    requires order { from ≤ end }
    requires there { end ≤ length extents.now }
    ensures bytes { TextIs result (frame_lines from (take (end - from) (drop from extents.now))) (sink_state (K.held text.old) (K.taken text.old)) (sink_state (K.held text.new) (K.taken text.new)) }
    ensures cause { CountsFault (K.faults text.old) (K.faults text.new) (write_failed result) }
{
    match lines_of(alloc, extents, from, end) {
        Ok(lines) => match put_all(text, &lines) {
            Ok(()) => Ok(()),
            Err(_) => Err(WriteEnd::Failed),
        },
        Err(_) => Err(WriteEnd::NoMemory),
    }
}

/// Writes the lines of all frames.
fn put_frames<K: ByteSink>(alloc: Global, extents: &[Extent], text: &mut K) -> Result<(), WriteEnd>
    ensures bytes { TextIs result (frame_lines 0 extents.now) (sink_state (K.held text.old) (K.taken text.old)) (sink_state (K.held text.new) (K.taken text.new)) }
    ensures cause { CountsFault (K.faults text.old) (K.faults text.new) (write_failed result) }
{
    let mut next = 0;
    while next < extents.len() {
        let end = extents.len().min(next.saturating_add(LINES));
        put_some(alloc, extents, next, end, text)?;
        next = end;
    }
    Ok(())
}

/// The line with the number of frames.
fn count_text(alloc: Global, count: u64) -> Result<Vec<u8>, NoMemory>
    ensures { IfOk result (λ line. line.items ≡ count_line count) }
{
    let mut line = Vec::new(alloc);
    put_pair(&mut line, "frames ", count)?;
    put_words(&mut line, "\n")?;
    Ok(line)
}

/// Writes that line.
fn put_count<K: ByteSink>(alloc: Global, count: u64, text: &mut K) -> Result<(), WriteEnd>
    ensures bytes { TextIs result (count_line count) (sink_state (K.held text.old) (K.taken text.old)) (sink_state (K.held text.new) (K.taken text.new)) }
    ensures cause { CountsFault (K.faults text.old) (K.faults text.new) (write_failed result) }
{
    match count_text(alloc, count) {
        Ok(line) => match put_all(text, &line) {
            Ok(()) => Ok(()),
            Err(_) => Err(WriteEnd::Failed),
        },
        Err(_) => Err(WriteEnd::NoMemory),
    }
}

/// Writes the text.
fn put_text<K: ByteSink>(alloc: Global, extents: &[Extent], text: &mut K) -> Result<(), WriteEnd>
    ensures bytes { TextIs result (rescue_text extents.now) (sink_state (K.held text.old) (K.taken text.old)) (sink_state (K.held text.new) (K.taken text.new)) }
    ensures cause { CountsFault (K.faults text.old) (K.faults text.new) (write_failed result) }
{
    put_frames(alloc, extents, text)?;
    put_count(alloc, extents.len() as u64, text)
}

/// Flushes both sinks.
#[tactic(auto, using(pw_outside::proofs::Puts::puts_flushed))]
fn settle<K: ByteSink>(out: &mut K, text: &mut K) -> Result<(), Failed>
    ensures out { Puts (sink_state (K.held out.old) (K.taken out.old)) (sink_state (K.held out.new) (K.taken out.new)) [] }
    ensures text { Puts (sink_state (K.held text.old) (K.taken text.old)) (sink_state (K.held text.new) (K.taken text.new)) [] }
    ensures settled { OnOk result ((K.settled out.new ≡ K.taken out.new) × (K.settled text.new ≡ K.taken text.new)) }
    ensures cause { CountsFaults (K.faults out.old) (K.faults out.new) (K.faults text.old) (K.faults text.new) (is_err result) }
{
    out.flush()?;
    text.flush()
}

/// Writes the text, and flushes both sinks.
fn print<K: ByteSink>(alloc: Global, extents: &[Extent], out: &mut K, text: &mut K) -> RescueEnd
    ensures finish { FinishIs result [] (rescue_text extents.now) (world K.held K.taken out.old text.old) (world K.held K.taken out.new text.new) }
    ensures settled { OnTrue (is_done result) ((K.settled out.new ≡ K.taken out.new) × (K.settled text.new ≡ K.taken text.new)) }
    ensures cause { CountsFaults (K.faults out.old) (K.faults out.new) (K.faults text.old) (K.faults text.new) (is_write_fault result) }
{
    match put_text(alloc, extents, text) {
        Ok(()) => match settle(out, text) {
            Ok(()) => RescueEnd::Done,
            Err(_) => RescueEnd::WriteFault,
        },
        Err(WriteEnd::Failed) => RescueEnd::WriteFault,
        Err(WriteEnd::NoMemory) => RescueEnd::NoMemory,
    }
}

/// Writes the movie atom and the text, and flushes both sinks.
pub(crate) fn finish<K: ByteSink>(
    alloc: Global,
    gathered: Gathering,
    out: &mut K,
    text: &mut K,
) -> RescueEnd
    ensures finish { FinishIs result (moov_bytes gathered.writer.head (extents gathered.writer.sizes)) (rescue_text gathered.extents.items) (world K.held K.taken out.old text.old) (world K.held K.taken out.new text.new) }
    ensures settled { OnTrue (is_done result) ((K.settled out.new ≡ K.taken out.new) × (K.settled text.new ≡ K.taken text.new)) }
    ensures cause { CountsFaults (K.faults out.old) (K.faults out.new) (K.faults text.old) (K.faults text.new) (is_write_fault result) }
{
    match gathered.writer.finish(alloc, out) {
        Ok(()) => print(alloc, &gathered.extents, out, text),
        Err(WriteEnd::Failed) => RescueEnd::WriteFault,
        Err(WriteEnd::NoMemory) => RescueEnd::NoMemory,
    }
}
