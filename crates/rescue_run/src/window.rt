//! A window of a file in memory.

ghost use Rattle.std.specs.Prelude.{◌≡◌, ◌+◌, ◌-◌, ◌<◌, ◌≤◌, ◌^◌, ℕ, List, min, length, take, drop, is_err, IfOk, OnOk};
ghost use Rattle.std.specs.Int.{w32, from_be_bytes};
ghost use Rattle.pw_outside.specs.Ports.{CountsFault};
ghost use Rattle.pw_outside.specs.Reading.{Told};
ghost use Rattle.rescue_run.specs.Chain.{size_at};
ghost use Rattle.rescue_run.specs.inner.Windows.{IsPart, Shows};

use pw_outside::{ByteStore, Failed, NoMemory, fill_at};
use std::alloc::Global;

/// The number of bytes of a file that are read at once.
const ROOM: usize = 262_144;

/// `held` bytes of a file from offset `from` on, at the head of the piece.
#[derive(Drop)]
pub(crate) struct Window {
    pub(crate) piece: Vec<u8>,
    pub(crate) from: u64,
    pub(crate) held: usize,
}

/// A window with no bytes yet.
pub(crate) fn new_window(alloc: Global) -> Result<Window, NoMemory>
    ensures room { IfOk result (λ w. 8 ≤ length w.piece.items) }
    ensures from { IfOk result (λ w. w.from ≡ 0) }
    ensures held { IfOk result (λ w. w.held ≡ 0) }
{
    let mut piece = Vec::new(alloc);
    match piece.resize(ROOM, 0) {
        Ok(()) => Ok(Window {
            piece,
            from: 0,
            held: 0,
        }),
        Err(_) => Err(NoMemory),
    }
}

/// Fills the first `count` bytes of a piece with the bytes of a file from offset `place` on. Returns the number of
/// bytes read.
fn fill_front<M: ByteStore>(
    piece: &mut [u8],
    movie: &mut M,
    place: u64,
    count: usize,
) -> Result<usize, Failed>
    requires count { count ≤ length piece.old }
    requires near { place + count < 2 ^ 64 }
    ensures few { IfOk result (λ n. n ≤ count) }
    ensures same { IfOk result (λ n. Told (M.bytes movie.old) (λ file. take n piece.new ≡ take n (drop place file))) }
    ensures all { IfOk result (λ n. Told (M.bytes movie.old) (λ file. n ≡ min count (length file - place))) }
    ensures bytes { M.bytes movie.new ≡ M.bytes movie.old }
    ensures cause { CountsFault (M.faults movie.old) (M.faults movie.new) (is_err result) }
{
    fill_at(movie, place, &mut piece[..count])
}

/// Moves a window to offset `place`; `total` is the file's size.
fn move_to<M: ByteStore>(
    window: &mut Window,
    movie: &mut M,
    place: u64,
    total: u64,
) -> Result<(), Failed>
    requires room { 8 ≤ length window.old.piece.items }
    requires place { place ≤ total }
    requires whole { Told (M.bytes movie.old) (λ file. total ≡ length file) }
    ensures shows { OnOk result (Shows (M.bytes movie.old) total window.new) }
    ensures from { OnOk result (window.new.from ≡ place) }
    ensures held { Told (M.bytes movie.old) (λ file. OnOk result (window.new.held ≡ min (total - place) (length window.new.piece.items))) }
    ensures bytes { M.bytes movie.new ≡ M.bytes movie.old }
    ensures cause { CountsFault (M.faults movie.old) (M.faults movie.new) (is_err result) }
{
    let count = (total - place).min(window.piece.len() as u64) as usize;
    window.held = fill_front(&mut window.piece, movie, place, count)?;
    window.from = place;
    Ok(())
}

/// Moves a window to offset `place`, unless it already holds `want` bytes from there on; `total` is the file's
/// size.
pub(crate) fn reach<M: ByteStore>(
    window: &mut Window,
    movie: &mut M,
    place: u64,
    want: u64,
    total: u64,
) -> Result<(), Failed>
    requires shows { Shows (M.bytes movie.old) total window.old }
    requires want { want ≤ 8 }
    requires place { place + want ≤ total }
    requires whole { Told (M.bytes movie.old) (λ file. total ≡ length file) }
    ensures shows { OnOk result (Shows (M.bytes movie.old) total window.new) }
    ensures from { OnOk result (window.new.from ≤ place) }
    ensures there { Told (M.bytes movie.old) (λ file. OnOk result (place + want ≤ window.new.from + window.new.held)) }
    ensures bytes { M.bytes movie.new ≡ M.bytes movie.old }
    ensures cause { CountsFault (M.faults movie.old) (M.faults movie.new) (is_err result) }
{
    let end = window.from + window.held as u64;
    if window.from <= place && place + want <= end {
        return Ok(());
    }
    move_to(window, movie, place, total)
}

/// The big-endian number in four bytes of a piece.
fn number_of(piece: &[u8], at: usize) -> u32
    requires { at + 4 ≤ length piece.now }
    ensures { result ≡ from_be_bytes w32 (take 4 (drop at piece.now)) }
{
    u32::from_be_bytes([piece[at], piece[at + 1], piece[at + 2], piece[at + 3]])
}

/// The size of the frame at offset `place`, within a window.
pub(crate) fn size_in(window: &Window, place: u64) -> u32
    requires held { window.now.held ≤ length window.now.piece.items }
    requires from { window.now.from ≤ place }
    requires there { place + 4 ≤ window.now.from + window.now.held }
    ensures { (file : List ℕ) → IsPart file window.now → result ≡ size_at file place }
{
    number_of(&window.piece, (place - window.from) as usize)
}
