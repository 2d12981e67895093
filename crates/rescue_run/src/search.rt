//! The next frame mark: the letters `icpf`, 4 bytes into a frame.

ghost use Rattle.std.specs.Prelude.{◌≡◌, ◌+◌, ◌<◌, ◌≤◌, ℕ, List, length, is_err, IfOk, IfSome, OnOk};
ghost use Rattle.pw_outside.specs.Ports.{CountsFault};
ghost use Rattle.pw_outside.specs.Reading.{Told};
ghost use Rattle.rescue_run.specs.inner.Windows.{IsPart, Shows, IsFirstMark, MarkIn, FindsMark};

use crate::window::{Window, reach};
use memchr::memmem;
use pw_outside::{ByteStore, Failed};

/// The first offset of a piece 4 bytes before the letters `icpf`.
fn first_mark(piece: &[u8]) -> Option<usize>
    ensures mark { IsFirstMark piece.now result }
    ensures room { IfSome result (λ found. found + 8 ≤ length piece.now) }
{
    if piece.len() < 8 {
        return None;
    }
    memmem::find(&piece[4..], b"icpf")
}

/// The first frame mark at offset `from` or later, within a window.
fn mark_in(window: &Window, from: u64) -> Option<u64>
    requires held { window.now.held ≤ length window.now.piece.items }
    requires from { window.now.from ≤ from }
    requires near { from < 18446744073709551608 }
    requires end { window.now.from + window.now.held < 18446744073709551616 }
    ensures mark { (file : List ℕ) → IsPart file window.now → MarkIn file from (window.now.from + window.now.held) result }
    ensures there { IfSome result (λ found. (from ≤ found) × (found + 8 ≤ window.now.from + window.now.held)) }
{
    let end = window.from + window.held as u64;
    if end < from + 8 {
        return None;
    }
    let at = (from - window.from) as usize;
    match first_mark(&window.piece[at..window.held]) {
        Some(found) => Some(from + found as u64),
        None => None,
    }
}

/// The first frame mark at offset `from` or later of a file; `total` is the file's size.
pub(crate) fn next_mark<M: ByteStore>(
    window: &mut Window,
    movie: &mut M,
    from: u64,
    total: u64,
) -> Result<Option<u64>, Failed>
    requires shows { Shows (M.bytes movie.old) total window.old }
    requires from { from ≤ total }
    requires whole { Told (M.bytes movie.old) (λ file. total ≡ length file) }
    ensures shows { OnOk result (Shows (M.bytes movie.old) total window.new) }
    ensures finds { Told (M.bytes movie.old) (λ file. IfOk result (FindsMark file from)) }
    ensures there { IfOk result (λ r. IfSome r (λ found. (from ≤ found) × (found + 8 ≤ total) × (window.new.from ≤ found) × (found + 8 ≤ window.new.from + window.new.held))) }
    ensures bytes { M.bytes movie.new ≡ M.bytes movie.old }
    ensures cause { CountsFault (M.faults movie.old) (M.faults movie.new) (is_err result) }
{
    let mut place = from;
    while total - place >= 8 {
        reach(window, movie, place, 8, total)?;
        if let Some(found) = mark_in(window, place) {
            return Ok(Some(found));
        }
        let end = window.from + window.held as u64;
        if end < place + 8 {
            return Ok(None);
        }
        place = end - 7;
    }
    Ok(None)
}
