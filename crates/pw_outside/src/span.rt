//! A part of a store as a source.

ghost use Rattle.std.specs.Prelude.{◌≡◌};

use crate::ports::{ByteSource, ByteStore, Failed};

/// The bytes of a store from an offset up to an end, or up to the store's own end where that comes first, as a
/// source. It borrows the store, and its faults are the store's.
#[derive(Drop)]
pub struct Span<'a, M> {
    store: &'a mut M,
    at: u64,
    end: u64,
}

impl<'a, M: ByteStore> Span<'a, M> {
    /// The bytes from offset `at` up to `end`; none where `end ≤ at`.
    pub fn new(store: &'a mut M, at: u64, end: u64) -> Span<'a, M>
        ensures same_store { result.store.ghost_name ≡ store.entry.ghost_name }
        ensures untouched { result.store.now ≡ store.old }
        ensures at { result.at ≡ at }
        ensures end { result.end ≡ end }
    {
        Span { store, at, end }
    }
}

impl<M: ByteStore> ByteSource for Span<'_, M> {
    ghost use Rattle.std.specs.Prelude.{◌≡◌, ◌+◌, ◌-◌, Some, is_err};
    ghost use Rattle.std.specs.Io.{ReadsAtMost};
    ghost use Rattle.std.specs.Io.KnownBytes.{ReadConsumes};
    ghost use Rattle.pw_outside.specs.Ports.{CountsFault, Lowers, count_of, GoesOn};
    ghost use Rattle.pw_outside.specs.Span.{part, part-bound, Passes, Passes-same};

    ghost left = { λ s. part s.at s.end (M.bytes s.store.now) };

    ghost most = { λ s. Some (s.end - s.at) };

    ghost faults = { λ s. M.faults s.store.now };

    ghost becomes = { λ a b. Passes (M.bytes a.store.now) (M.bytes b.store.now) a.store.ghost_name b.store.ghost_name a.end b.end a.at b.at };

    ghost becomes_same = { λ a. Passes-same (M.bytes a.store.now) a.store.ghost_name a.end a.at };

    ghost bound = { λ s. part-bound s.at s.end (M.bytes s.store.now) };

    ghost faults_end = { λ s. M.faults_end s.store.now };

    fn read(&mut self, piece: &mut [u8]) -> Result<usize, Failed>
        ensures count { ReadsAtMost result piece.new }
        ensures bytes { ReadConsumes (part self.old.at self.old.end (M.bytes self.old.store.now)) (part self.new.at self.new.end (M.bytes self.new.store.now)) result piece.new }
        ensures most { Lowers (Some (self.old.end - self.old.at)) (Some (self.new.end - self.new.at)) (count_of result) }
        ensures cause { CountsFault (M.faults self.old.store.now) (M.faults self.new.store.now) (is_err result) }
        ensures becomes { GoesOn (λ a b. Passes (M.bytes a.store.now) (M.bytes b.store.now) a.store.ghost_name b.store.ghost_name a.end b.end a.at b.at) self.old self.new }
        // The store is the same and unchanged, and the span has moved past the bytes that it gave.
        ensures same_store { self.new.store.ghost_name ≡ self.old.store.ghost_name }
        ensures store { M.bytes self.new.store.now ≡ M.bytes self.old.store.now }
        ensures at { self.new.at ≡ self.old.at + count_of result }
        ensures end { self.new.end ≡ self.old.end }
    {
        let room = self.end.saturating_sub(self.at).min(piece.len() as u64) as usize;
        let count = self.store.read_at(self.at, &mut piece[..room])?;
        self.at += count as u64;
        Ok(count)
    }
}
