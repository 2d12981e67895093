//! Errors, and numbers read from a store.

ghost use Rattle.std.specs.Prelude.{◌≡◌, ◌≤◌, ◌<◌, ◌+◌, ◌^◌, length, Ok, false, IfErr, IfSome};
ghost use Rattle.std.specs.Int.{w16, w32};
ghost use Rattle.pw_outside.specs.Ports.{CountsFault};
ghost use Rattle.pw_outside.specs.Reading.{Answers, Told};
ghost use Rattle.qt_atoms.specs.Atoms.{bytes_in, number_in};
ghost use Rattle.qt_tables.specs.declared.fault.MovieFault.TheVariants as faults;
ghost use Rattle.qt_tables.specs.declared.fault.MovieKind.TheVariants.{TableShape};
ghost use Rattle.qt_tables.specs.Faults.{told_fault, is_failed, is_out_of_memory};

use pw_outside::{ByteStore, fill_at};
use qt_tables::{MovieFault, MovieKind};

pub(crate) fn bad(kind: MovieKind, place: u64) -> MovieFault
    ensures { result ≡ faults.Bad kind place }
{
    MovieFault::Bad { kind, place }
}

/// Reads `N` bytes at an offset that the store has. An opaque store may have fewer: `TableShape` at `table`.
pub fn bytes_of<M: ByteStore, const N: usize>(
    store: &mut M,
    place: u64,
    table: u64,
) -> Result<[u8; N], MovieFault>
    requires inside { Told (M.bytes store.old) (λ file. place + N ≤ length file) }
    requires room { place + N < 2 ^ 64 }
    ensures value { Told (M.bytes store.old) (λ file. Answers told_fault (λ x. x) result (Ok (bytes_in N file place))) }
    // The only fault is a short table, whether the bytes are visible or opaque.
    ensures short { IfErr result (λ e. IfSome (told_fault e) (λ fault. fault ≡ record { kind = TableShape; place = table })) }
    ensures bytes { M.bytes store.new ≡ M.bytes store.old }
    ensures cause { CountsFault (M.faults store.old) (M.faults store.new) (is_failed result) }
    // Takes no memory.
    ensures memory { is_out_of_memory result ≡ false }
{
    let mut piece = [0u8; N];
    let count = fill_at(store, place, &mut piece)?;
    if count < N {
        return Err(bad(MovieKind::TableShape, table));
    }
    Ok(piece)
}

/// The 16-bit number at an offset, as `bytes_of`.
pub fn u16_of<M: ByteStore>(store: &mut M, place: u64, table: u64) -> Result<u16, MovieFault>
    requires inside { Told (M.bytes store.old) (λ file. place + 2 ≤ length file) }
    requires room { place + 2 < 2 ^ 64 }
    ensures value { Told (M.bytes store.old) (λ file. Answers told_fault (λ x. x) result (Ok (number_in w16 file place))) }
    // The only fault is a short table, whether the bytes are visible or opaque.
    ensures short { IfErr result (λ e. IfSome (told_fault e) (λ fault. fault ≡ record { kind = TableShape; place = table })) }
    ensures bytes { M.bytes store.new ≡ M.bytes store.old }
    ensures cause { CountsFault (M.faults store.old) (M.faults store.new) (is_failed result) }
    // Takes no memory.
    ensures memory { is_out_of_memory result ≡ false }
{
    let piece = bytes_of::<M, 2>(store, place, table)?;
    Ok(u16::from_be_bytes(piece))
}

/// The 32-bit number at an offset, as `bytes_of`.
pub fn u32_of<M: ByteStore>(store: &mut M, place: u64, table: u64) -> Result<u32, MovieFault>
    requires inside { Told (M.bytes store.old) (λ file. place + 4 ≤ length file) }
    requires room { place + 4 < 2 ^ 64 }
    ensures value { Told (M.bytes store.old) (λ file. Answers told_fault (λ x. x) result (Ok (number_in w32 file place))) }
    // The only fault is a short table, whether the bytes are visible or opaque.
    ensures short { IfErr result (λ e. IfSome (told_fault e) (λ fault. fault ≡ record { kind = TableShape; place = table })) }
    ensures bytes { M.bytes store.new ≡ M.bytes store.old }
    ensures cause { CountsFault (M.faults store.old) (M.faults store.new) (is_failed result) }
    // Takes no memory.
    ensures memory { is_out_of_memory result ≡ false }
{
    let piece = bytes_of::<M, 4>(store, place, table)?;
    Ok(u32::from_be_bytes(piece))
}
