//! Errors of the search.

ghost use Rattle.std.specs.Prelude.{◌≡◌};

use std::alloc::{AllocError, AllocFailed};
use thiserror::Error;

/// Why no best choice is returned.
#[derive(Clone, Copy, Debug, PartialEq, Eq, Error)]
pub enum BestFault {
    /// The finished Pareto frontiers have more than 2^25 pairs.
    #[error("LayersFull")]
    LayersFull,
    /// Memory ran out.
    #[error("NoMemory")]
    NoMemory,
}

impl From<AllocError> for BestFault {
    ghost use Rattle.std.specs.Prelude.{◌≡◌};
    ghost use Rattle.rate_layers.specs.declared.fault.BestFault.TheVariants.{NoMemory};

    ghost from_gives = { λ _ e. e ≡ NoMemory };

    fn from(_: AllocError) -> BestFault {
        BestFault::NoMemory
    }
}

impl<T: Drop> From<AllocFailed<T>> for BestFault {
    ghost use Rattle.std.specs.Prelude.{◌≡◌};
    ghost use Rattle.rate_layers.specs.declared.fault.BestFault.TheVariants.{NoMemory};

    ghost from_gives = { λ _ e. e ≡ NoMemory };

    fn from(_: AllocFailed<T>) -> BestFault {
        BestFault::NoMemory
    }
}
