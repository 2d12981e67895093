//! Reports the minimum and the maximum quantisation index.

ghost use Rattle.std.specs.Prelude.{◌≡◌};
ghost use Rattle.monitors.specs.Extremes.{indices_text};

use crate::extremes::{Extremes, extremes_line, joined};
use crate::facts::PictureFacts;
use crate::monitor::{Monitor, append};
use pw_outside::NoMemory;

/// Reports the minimum and the maximum quantisation index of all pictures: `indices L G`, or `indices none` without
/// pictures.
#[derive(Drop)]
pub struct IndexMonitor {
    seen: Option<Extremes>,
}

impl IndexMonitor {
    /// A monitor without pictures.
    pub fn new() -> IndexMonitor
        ensures { ⟦<IndexMonitor as Monitor>⟧.state result ≡ indices_text }
    {
        IndexMonitor { seen: None }
    }
}

impl Monitor for IndexMonitor {
    ghost use Rattle.monitors.specs.Extremes.{indices_state};

    ghost state = { λ m. indices_state m.seen };

    #[tactic(auto, using(crate::proofs::Joined::next_extremes))]
    fn picture(&mut self, facts: &PictureFacts) -> Result<(), NoMemory> {
        let more = Extremes {
            least: u16::from(facts.least_index),
            greatest: u16::from(facts.greatest_index),
        };
        self.seen = Some(joined(self.seen, more));
        Ok(())
    }

    #[tactic(auto, using(crate::proofs::Joined::extremes_reported, crate::proofs::Fronts::none_added))]
    fn report(&self, text: &mut Vec<u8>) -> Result<(), NoMemory> {
        let line = extremes_line(*text.allocator(), "indices", self.seen)?;
        append(text, &line)
    }
}
