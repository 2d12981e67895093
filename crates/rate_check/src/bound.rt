//! The bound that prunes the pairs of a layer.

ghost use Rattle.std.specs.Prelude.{◌≡◌, ◌<◌, ◌^◌};
ghost use Rattle.rate_check.specs.inner.Covering.{weight};

use rate_table::Pair;

/// The bound with some slices still to come: a pair can fit if its size plus `taken` is at most `budget`, and is
/// not pruned if its Lagrangian cost plus `floor` is at most `most`.
#[derive(Clone, Copy)]
pub struct Bound {
    pub taken: u64,
    pub budget: u64,
    pub floor: u128,
    pub most: u128,
    pub multiplier: u64,
}

/// The Lagrangian cost of a pair: its error plus `multiplier` times its size.
pub fn weight_of(pair: &Pair, multiplier: u64) -> u128
    ensures value { result ≡ weight multiplier pair.now }
    ensures small { result < 2 ^ 97 }
{
    u128::from(pair.error) + u128::from(multiplier) * u128::from(pair.size)
}
