//! Reports the minimum and the maximum luma.

ghost use Rattle.std.specs.Prelude.{◌≡◌};
ghost use Rattle.monitors.specs.Extremes.{levels_text};

use crate::extremes::{Extremes, extremes_line, joined};
use crate::facts::PictureFacts;
use crate::monitor::{Monitor, append};
use pw_outside::NoMemory;

/// Reports the minimum and the maximum luma of all pictures: `levels L G`, or `levels none` without pictures.
#[derive(Drop)]
pub struct LevelMonitor {
    seen: Option<Extremes>,
}

impl LevelMonitor {
    /// A monitor without pictures.
    pub fn new() -> LevelMonitor
        ensures { ⟦<LevelMonitor as Monitor>⟧.state result ≡ levels_text }
    {
        LevelMonitor { seen: None }
    }
}

impl Monitor for LevelMonitor {
    ghost use Rattle.monitors.specs.Extremes.{levels_state};

    ghost state = { λ m. levels_state m.seen };

    #[tactic(auto, using(crate::proofs::Joined::next_extremes))]
    fn picture(&mut self, facts: &PictureFacts) -> Result<(), NoMemory> {
        let more = Extremes {
            least: facts.least_luma,
            greatest: facts.greatest_luma,
        };
        self.seen = Some(joined(self.seen, more));
        Ok(())
    }

    #[tactic(auto, using(crate::proofs::Joined::extremes_reported, crate::proofs::Fronts::none_added))]
    fn report(&self, text: &mut Vec<u8>) -> Result<(), NoMemory> {
        let line = extremes_line(*text.allocator(), "levels", self.seen)?;
        append(text, &line)
    }
}
