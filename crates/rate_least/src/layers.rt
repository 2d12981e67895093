//! Checks of the layers by themselves.

ghost use Rattle.std.specs.Prelude.{◌≡◌, ◌<◌, ◌≤◌, ◌↔◌, IsTrue, [], ◌∷◌, map};
ghost use Rattle.std.specs.List.{All};
ghost use Rattle.rate_least.specs.Pairs.{RisesAndFalls};

use crate::outcome::WidePair;

/// Whether a layer is the empty pair alone.
pub fn is_empty_pair(layer: &[WidePair]) -> bool
    ensures { IsTrue result ↔ (layer.now ≡ record { size = 0; error = 0 } ∷ []) }
{
    layer.len() == 1 && layer[0].size == 0 && layer[0].error == 0
}

/// Whether sizes rise and errors fall.
pub fn rises_and_falls(layer: &[WidePair]) -> bool
    ensures { IsTrue result ↔ RisesAndFalls layer.now }
{
    for k in 1..layer.len() {
        let before = layer[k - 1];
        if layer[k].size <= before.size || before.error <= layer[k].error {
            return false;
        }
    }
    true
}

/// Whether sizes rise and errors fall in each layer.
pub fn are_in_order(layers: &[Vec<WidePair>]) -> bool
    ensures { IsTrue result ↔ All RisesAndFalls (map (λ l. l.items) layers.now) }
{
    for layer in layers {
        if !rises_and_falls(layer) {
            return false;
        }
    }
    true
}

/// Whether no pair has less size than `size`.
pub fn none_is_below(layer: &[WidePair], size: u64) -> bool
    ensures { IsTrue result ↔ All (λ p. size ≤ p.size) layer.now }
{
    for pair in layer {
        if pair.size < size {
            return false;
        }
    }
    true
}
