//! Numbers that look random, the same ones in each run.

ghost use Rattle.std.specs.Prelude.{◌<◌, ◌≤◌};

#[derive(Drop)]
pub(crate) struct Numbers {
    state: u64,
}

impl Numbers {
    ghost use Rattle.std.specs.Prelude.{◌<◌, ◌≤◌};

    pub(crate) fn new() -> Numbers {
        Numbers { state: 1 }
    }

    /// The next number, below a limit.
    pub(crate) fn below(&mut self, limit: u64) -> u64
        requires { 1 ≤ limit }
        ensures { result < limit }
    {
        self.state = self
            .state
            .wrapping_mul(6_364_136_223_846_793_005)
            .wrapping_add(1_442_695_040_888_963_407);
        (self.state >> 33) % limit
    }

    /// A place in a list of so many.
    pub(crate) fn place(&mut self, count: usize) -> usize
        requires { 1 ≤ count }
        ensures { result < count }
    {
        self.below(count as u64) as usize
    }

    /// A number beside this one, or the least or the greatest.
    pub(crate) fn beside(&mut self, number: u64) -> u64 {
        match self.below(8) {
            0 => 0,
            1 => u64::MAX,
            2 => number.saturating_add(2),
            3 => number.saturating_sub(2),
            4 | 5 => number.saturating_add(1),
            _ => number.saturating_sub(1),
        }
    }
}
