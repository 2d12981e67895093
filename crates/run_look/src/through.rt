//! A source that is read through another one.

ghost use Rattle.std.specs.Prelude.{◌≡◌};

use pw_outside::{ByteSource, Failed};

/// A source that borrows another one and returns the other's bytes. Its contract says that each byte that it
/// returned is below 256, since it came in a slice of `u8`; a source's visible bytes have no such bound.
#[derive(Drop)]
pub(crate) struct Through<'a, S> {
    source: &'a mut S,
}

impl<'a, S: ByteSource> Through<'a, S> {
    /// The whole source.
    pub(crate) fn new(source: &'a mut S) -> Through<'a, S>
        ensures same_source { result.source.ghost_name ≡ source.entry.ghost_name }
        ensures untouched { result.source.now ≡ source.old }
    {
        Through { source }
    }
}

impl<S: ByteSource> ByteSource for Through<'_, S> {
    ghost use Rattle.std.specs.Prelude.{◌≡◌, is_err};
    ghost use Rattle.std.specs.Io.{ReadsAtMost};
    ghost use Rattle.std.specs.Io.KnownBytes.{ReadConsumes};
    ghost use Rattle.pw_outside.specs.Ports.{CountsFault, Lowers, count_of, GoesOn};
    ghost use Rattle.run_look.specs.inner.Through.{GaveBytes, GaveBytes-same};

    ghost left = { λ s. S.left s.source.now };

    ghost most = { λ s. S.most s.source.now };

    ghost faults = { λ s. S.faults s.source.now };

    ghost becomes = { λ a b. GaveBytes (S.left a.source.now) (S.left b.source.now) a.source.ghost_name b.source.ghost_name };

    ghost becomes_same = { λ a. GaveBytes-same (S.left a.source.now) a.source.ghost_name };

    ghost bound = { λ s. S.bound s.source.now };

    ghost faults_end = { λ s. S.faults_end s.source.now };

    fn read(&mut self, piece: &mut [u8]) -> Result<usize, Failed>
        ensures count { ReadsAtMost result piece.new }
        ensures bytes { ReadConsumes (S.left self.old.source.now) (S.left self.new.source.now) result piece.new }
        ensures most { Lowers (S.most self.old.source.now) (S.most self.new.source.now) (count_of result) }
        ensures cause { CountsFault (S.faults self.old.source.now) (S.faults self.new.source.now) (is_err result) }
        ensures becomes { GoesOn (λ a b. GaveBytes (S.left a.source.now) (S.left b.source.now) a.source.ghost_name b.source.ghost_name) self.old self.new }
    {
        self.source.read(piece)
    }
}
