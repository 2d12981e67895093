//! A bit set.

use std::alloc::{AllocError, Global};
use std::marker::Model;

/// A fixed number of marks, each set or not.
#[derive(Drop)]
pub struct Marks {
    words: Vec<u64>,
    count: usize,
}

impl Model for Marks {
    ghost use Rattle.std.specs.Prelude.{Bool, List, ◌*◌, ◌≤◌, length};

    ghost Value = { List Bool };

    ghost use Rattle.rate_layers.specs.inner.Bits.{marks_in};

    ghost view = { λ m. marks_in m.words.items m.count };

    ghost invariant = { λ m. m.count ≤ length m.words.items * 64 };
}

impl Marks {
    ghost use Rattle.std.specs.Prelude.{◌≡◌, ◌<◌, IfOk, false, true, length, replicate, slice_index_or, slice_set};

    /// `count` marks, none of them set. Takes an eighth of a byte for each, rounded up to 8 bytes.
    pub fn new(alloc: Global, count: usize) -> Result<Marks, AllocError>
        ensures { IfOk result (λ m. m ≡ replicate count false) }
    {
        let words = vec![in alloc; 0u64; count.div_ceil(64)]?;
        Ok(Marks { words, count })
    }

    /// Whether mark `number` is set; marks are numbered from 0.
    pub fn get(&self, number: usize) -> bool
        requires { number < length self.now }
        ensures { result ≡ slice_index_or self.now number false }
    {
        self.words[number / 64] >> (number % 64) & 1 == 1
    }

    /// Sets mark `number`; marks are numbered from 0.
    pub fn set(&mut self, number: usize)
        requires { number < length self.old }
        ensures { self.new ≡ slice_set self.old number true }
    {
        self.words[number / 64] |= 1 << (number % 64);
    }
}
