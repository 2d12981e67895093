//! A part of a source as a source of its own.

ghost use Rattle.std.specs.Prelude.{◌≡◌, ◌≤◌, [], IfOk, OnOk, IsSome, drop, is_err};
ghost use Rattle.pw_outside.specs.Ports.{CountsFault, Lowers, GoesOn};
ghost use Rattle.pw_outside.specs.Reading.{bytes_of};
ghost use Rattle.pw_bits.specs.Window.{first_bytes};

use pw_outside::{ByteSource, Failed};

/// The next bytes of a source, a given number or fewer where the source ends, as a source of their own. It borrows
/// the source and reads from it.
#[derive(Drop)]
pub struct Window<'a, S> {
    source: &'a mut S,
    left: u64,
}

impl<'a, S: ByteSource> Window<'a, S> {
    /// The next `n` bytes of the source.
    pub fn new(source: &'a mut S, n: u64) -> Window<'a, S>
        ensures same_source { result.source.ghost_name ≡ source.entry.ghost_name }
        ensures untouched { result.source.now ≡ source.old }
        ensures length { result.left ≡ n }
    {
        Window { source, left: n }
    }

    /// Skips the rest of the window.
    pub fn skip(&mut self) -> Result<(), Failed>
        ensures none { OnOk result (IsSome (S.left self.old.source.now) → bytes_of (first_bytes self.new.left (S.left self.new.source.now)) ≡ []) }
        ensures told { IsSome (S.left self.old.source.now) → IsSome (S.left self.new.source.now) }
        ensures most { self.new.left ≤ self.old.left }
        ensures cause { CountsFault (S.faults self.old.source.now) (S.faults self.new.source.now) (is_err result) }
        // The source is the same, and has moved past the window.
        ensures same_source { self.new.source.ghost_name ≡ self.old.source.ghost_name }
        ensures source { OnOk result (IsSome (S.left self.old.source.now) → bytes_of (S.left self.new.source.now) ≡ drop self.old.left (bytes_of (S.left self.old.source.now))) }
        ensures source_most { Lowers (S.most self.old.source.now) (S.most self.new.source.now) 0 }
        ensures source_becomes { GoesOn S.becomes self.old.source.now self.new.source.now }
    {
        let mut piece = [0; 256];
        while self.left > 0 {
            if self.read(&mut piece)? == 0 {
                return Ok(());
            }
        }
        Ok(())
    }
}

impl<S: ByteSource> ByteSource for Window<'_, S> {
    ghost use Rattle.std.specs.Prelude.{◌≡◌, ◌+◌, Some, IfOk, is_err, length, take};
    ghost use Rattle.std.specs.Io.{ReadsAtMost};
    ghost use Rattle.std.specs.Io.KnownBytes.{ReadConsumes};
    ghost use Rattle.pw_outside.specs.Ports.{CountsFault, Lowers, count_of, GoesOn};
    ghost use Rattle.pw_bits.specs.Window.{first_bytes, window-bound, Moves, Moves-same};

    ghost left = { λ w. first_bytes w.left (S.left w.source.now) };

    ghost most = { λ w. Some w.left };

    ghost faults = { λ w. S.faults w.source.now };

    ghost becomes = { λ a b. Moves S.becomes (S.most a.source.now) (S.most b.source.now) (S.left a.source.now) (S.left b.source.now) a.source.now b.source.now a.source.ghost_name b.source.ghost_name a.left b.left };

    ghost becomes_same = { λ a. Moves-same S.becomes (S.most a.source.now) (S.left a.source.now) a.source.now a.source.ghost_name a.left };

    ghost bound = { λ w. window-bound w.left (S.left w.source.now) };

    ghost faults_end = { λ w. S.faults_end w.source.now };

    fn read(&mut self, piece: &mut [u8]) -> Result<usize, Failed>
        ensures count { ReadsAtMost result piece.new }
        ensures bytes { ReadConsumes (first_bytes self.old.left (S.left self.old.source.now)) (first_bytes self.new.left (S.left self.new.source.now)) result piece.new }
        ensures most { Lowers (Some self.old.left) (Some self.new.left) (count_of result) }
        ensures cause { CountsFault (S.faults self.old.source.now) (S.faults self.new.source.now) (is_err result) }
        ensures becomes { GoesOn (λ a b. Moves S.becomes (S.most a.source.now) (S.most b.source.now) (S.left a.source.now) (S.left b.source.now) a.source.now b.source.now a.source.ghost_name b.source.ghost_name a.left b.left) self.old self.new }
        // The source is the same, and has lost exactly what the window gave.
        ensures same_source { self.new.source.ghost_name ≡ self.old.source.ghost_name }
        ensures source { ReadConsumes (S.left self.old.source.now) (S.left self.new.source.now) result (take self.old.left piece.new) }
        ensures source_most { Lowers (S.most self.old.source.now) (S.most self.new.source.now) (count_of result) }
        ensures source_becomes { GoesOn S.becomes self.old.source.now self.new.source.now }
        ensures length { self.new.left + count_of result ≡ self.old.left }
    {
        let room = self.left.min(piece.len() as u64) as usize;
        let count = self.source.read(&mut piece[..room])?;
        self.left -= count as u64;
        Ok(count)
    }
}
