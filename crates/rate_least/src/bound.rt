//! The bound that prunes the pairs of a layer.

ghost use Rattle.std.specs.Prelude.{◌≡◌, ◌<◌, ◌^◌};
ghost use Rattle.rate_least.specs.inner.Covering.{weight};
ghost use Rattle.rate_least.specs.Records.{IsNarrow};

use crate::outcome::WidePair;

/// The bound with some slices still to come: a pair can meet the cap if its error plus `errors` is at most `cap`,
/// and is not pruned if its Lagrangian cost plus `floor` is at most `most`.
#[derive(Clone, Copy)]
pub struct Bound {
    pub errors: u64,
    pub cap: u64,
    pub floor: u128,
    pub most: u128,
    pub multiplier: u64,
}

/// The Lagrangian cost of a pair: its error plus `multiplier` times its size.
pub fn weight_of(pair: &WidePair, multiplier: u64) -> u128
    requires { IsNarrow pair.now }
    ensures value { result ≡ weight multiplier pair.now }
    ensures small { result < 2 ^ 99 }
{
    u128::from(pair.error) + u128::from(multiplier) * u128::from(pair.size)
}
