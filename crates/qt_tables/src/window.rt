//! Buffered reading of a table's bytes.

ghost use Rattle.std.specs.Prelude.{◌≡◌, ◌+◌, ◌-◌, ◌^◌, ◌<◌, ◌≤◌, min, length, take, drop, Ok, IfOk, OnOk};
ghost use Rattle.std.specs.Int.{w32, w64, from_be_bytes};
ghost use Rattle.pw_outside.specs.Ports.{CountsFault};
ghost use Rattle.pw_outside.specs.Reading.{Answers, Told};
ghost use Rattle.qt_atoms.specs.Atoms.{number_in};
ghost use Rattle.qt_tables.specs.Faults.{told_fault, is_failed};
ghost use Rattle.qt_tables.specs.inner.Window.{Shows};

use crate::fault::{MovieFault, MovieKind, bad};
use pw_outside::{ByteStore, fill_at};

/// A read buffer over a table: `piece` holds `held` bytes of the store from offset `from` on, none past `end`.
#[derive(Drop)]
pub(crate) struct Window {
    pub(crate) piece: [u8; 4096],
    pub(crate) from: u64,
    pub(crate) held: usize,
    pub(crate) end: u64,
}

impl Window {
    /// An empty window over a table that ends at `end`.
    pub(crate) fn new(end: u64) -> Window
        ensures held { result.held ≡ 0 }
        ensures end { result.end ≡ end }
    {
        Window {
            piece: [0; 4096],
            from: 0,
            held: 0,
            end,
        }
    }
}

/// Refills the window from an offset of its table.
fn move_to<M: ByteStore>(window: &mut Window, store: &mut M, place: u64) -> Result<(), MovieFault>
    requires place { place ≤ window.old.end }
    requires inside { Told (M.bytes store.old) (λ file. window.old.end ≤ length file) }
    ensures end { window.new.end ≡ window.old.end }
    ensures from { OnOk result (window.new.from ≡ place) }
    ensures shows { OnOk result (Shows (M.bytes store.old) window.new) }
    ensures held { Told (M.bytes store.old) (λ file. OnOk result (window.new.held ≡ min (window.old.end - place) 4096)) }
    ensures value { Told (M.bytes store.old) (λ file. Answers told_fault (λ x. x) result (Ok tt)) }
    ensures bytes { M.bytes store.new ≡ M.bytes store.old }
    ensures cause { CountsFault (M.faults store.old) (M.faults store.new) (is_failed result) }
{
    let count = (window.end - place).min(4096) as usize;
    window.held = fill_at(store, place, &mut window.piece[..count])?;
    window.from = place;
    Ok(())
}

/// The position in the window's piece of the row at an offset of the table.
fn row_at<M: ByteStore>(
    window: &mut Window,
    store: &mut M,
    place: u64,
    count: usize,
) -> Result<usize, MovieFault>
    requires count { count ≤ 8 }
    requires shows { Shows (M.bytes store.old) window.old }
    requires place { place + count ≤ window.old.end }
    requires inside { Told (M.bytes store.old) (λ file. window.old.end ≤ length file) }
    ensures end { window.new.end ≡ window.old.end }
    ensures shows { OnOk result (Shows (M.bytes store.old) window.new) }
    ensures room { IfOk result (λ at. at + count ≤ 4096) }
    ensures value { Told (M.bytes store.old) (λ file. Answers told_fault (λ at. take count (drop at window.new.piece)) result (Ok (take count (drop place file)))) }
    ensures bytes { M.bytes store.new ≡ M.bytes store.old }
    ensures cause { CountsFault (M.faults store.old) (M.faults store.new) (is_failed result) }
{
    if window.from <= place && place - window.from + count as u64 <= window.held as u64 {
        return Ok((place - window.from) as usize);
    }
    move_to(window, store, place)?;
    if window.held < count {
        return Err(bad(MovieKind::TableShape, place));
    }
    Ok(0)
}

/// The 32-bit number at a position of a piece.
fn u32_of(piece: &[u8], at: usize) -> u32
    requires { at + 4 ≤ length piece.now }
    ensures { result ≡ from_be_bytes w32 (take 4 (drop at piece.now)) }
{
    u32::from_be_bytes([piece[at], piece[at + 1], piece[at + 2], piece[at + 3]])
}

/// The 64-bit number at a position of a piece.
fn u64_of(piece: &[u8], at: usize) -> u64
    requires { at + 8 ≤ length piece.now }
    ensures { result ≡ from_be_bytes w64 (take 8 (drop at piece.now)) }
{
    u64::from_be_bytes([
        piece[at],
        piece[at + 1],
        piece[at + 2],
        piece[at + 3],
        piece[at + 4],
        piece[at + 5],
        piece[at + 6],
        piece[at + 7],
    ])
}

/// The 32-bit number at an offset of a table, which has it.
pub(crate) fn u32_at<M: ByteStore>(
    window: &mut Window,
    store: &mut M,
    place: u64,
) -> Result<u32, MovieFault>
    requires shows { Shows (M.bytes store.old) window.old }
    requires place { place + 4 ≤ window.old.end }
    requires inside { Told (M.bytes store.old) (λ file. window.old.end ≤ length file) }
    ensures end { window.new.end ≡ window.old.end }
    ensures shows { OnOk result (Shows (M.bytes store.old) window.new) }
    ensures value { Told (M.bytes store.old) (λ file. Answers told_fault (λ n. n) result (Ok (number_in w32 file place))) }
    ensures bytes { M.bytes store.new ≡ M.bytes store.old }
    ensures cause { CountsFault (M.faults store.old) (M.faults store.new) (is_failed result) }
{
    let at = row_at(window, store, place, 4)?;
    Ok(u32_of(&window.piece, at))
}

/// The 64-bit number at an offset of a table, which has it.
pub(crate) fn u64_at<M: ByteStore>(
    window: &mut Window,
    store: &mut M,
    place: u64,
) -> Result<u64, MovieFault>
    requires shows { Shows (M.bytes store.old) window.old }
    requires place { place + 8 ≤ window.old.end }
    requires inside { Told (M.bytes store.old) (λ file. window.old.end ≤ length file) }
    ensures end { window.new.end ≡ window.old.end }
    ensures shows { OnOk result (Shows (M.bytes store.old) window.new) }
    ensures value { Told (M.bytes store.old) (λ file. Answers told_fault (λ n. n) result (Ok (number_in w64 file place))) }
    ensures bytes { M.bytes store.new ≡ M.bytes store.old }
    ensures cause { CountsFault (M.faults store.old) (M.faults store.new) (is_failed result) }
{
    let at = row_at(window, store, place, 8)?;
    Ok(u64_of(&window.piece, at))
}
