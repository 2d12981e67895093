//! The position of a pair among pairs of rising sizes.

ghost use Rattle.std.specs.Prelude.{◌≡◌, ◌<◌, ◌↔◌, IsTrue, IfSome, IfNone};
ghost use Rattle.std.specs.List.{Contains};
ghost use Rattle.rate_least.specs.declared.outcome.WidePair.{WidePair};
ghost use Rattle.rate_least.specs.Layers.{Rises};
ghost use Rattle.rate_least.specs.inner.Live.{StandsAt};

use crate::outcome::WidePair;

/// Whether a pair has this size and this error.
fn is_pair(q: WidePair, size: u128, error: u128) -> bool
    ensures { IsTrue result ↔ (q ≡ record { size = size; error = error }) }
{
    u128::from(q.size) == size && u128::from(q.error) == error
}

/// The position of the pair with this size and this error, if it is there.
pub fn place_of(pairs: &[WidePair], size: u128, error: u128) -> Option<usize>
    requires { Rises pairs.now }
    ensures some { IfSome result (StandsAt pairs.now (record { size = size; error = error })) }
    ensures none { IfNone result (Contains pairs.now (record { size = size; error = error }) → ⊥) }
{
    let at = pairs.partition_point(|q| u128::from(q.size) < size);
    if at < pairs.len() && is_pair(pairs[at], size, error) {
        Some(at)
    } else {
        None
    }
}
