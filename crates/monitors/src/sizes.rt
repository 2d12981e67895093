//! Reports the sizes of the samples.

ghost use Rattle.std.specs.Prelude.{◌≡◌, IfOk};
ghost use Rattle.monitors.specs.Sizes.{bytes_text, bytes_line};

use crate::facts::PictureFacts;
use crate::monitor::{Monitor, append};
use pw_outside::NoMemory;
use pw_text::{put_decimal, put_words};
use std::alloc::Global;

/// The line of a sum and a maximum.
#[tactic(auto, unfolding(crate::specs::Sizes::bytes_line))]
fn bytes_line(alloc: Global, total: u64, greatest: u32) -> Result<Vec<u8>, NoMemory>
    ensures { IfOk result (λ line. line.items ≡ bytes_line total greatest) }
{
    let mut line = Vec::new(alloc);
    put_words(&mut line, "bytes ")?;
    put_decimal(&mut line, total)?;
    put_words(&mut line, " ")?;
    put_decimal(&mut line, u64::from(greatest))?;
    put_words(&mut line, "\n")?;
    Ok(line)
}

/// Reports the sum and the maximum of the samples' sizes, 0 without pictures: `bytes T G`. The sum saturates at
/// 2^64 − 1.
#[derive(Drop)]
pub struct BytesMonitor {
    total: u64,
    greatest: u32,
}

impl BytesMonitor {
    /// A monitor without pictures.
    #[tactic(auto, using(crate::proofs::Sums::no_bytes))]
    pub fn new() -> BytesMonitor
        ensures { ⟦<BytesMonitor as Monitor>⟧.state result ≡ bytes_text }
    {
        BytesMonitor {
            total: 0,
            greatest: 0,
        }
    }
}

impl Monitor for BytesMonitor {
    ghost use Rattle.monitors.specs.Sizes.{bytes_state};

    ghost state = { λ m. bytes_state m.total m.greatest };

    #[tactic(auto, using(crate::proofs::Sums::next_bytes))]
    fn picture(&mut self, facts: &PictureFacts) -> Result<(), NoMemory> {
        self.total = self.total.saturating_add(u64::from(facts.bytes));
        self.greatest = self.greatest.max(facts.bytes);
        Ok(())
    }

    #[tactic(auto, using(crate::proofs::Sums::bytes_reported, crate::proofs::Fronts::none_added))]
    fn report(&self, text: &mut Vec<u8>) -> Result<(), NoMemory> {
        let line = bytes_line(*text.allocator(), self.total, self.greatest)?;
        append(text, &line)
    }
}
