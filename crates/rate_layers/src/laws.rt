//! Laws of the definitions, independent of any program.

ghost use Rattle.rate_layers.specs.Laws.{FullExists, FullIsOne, FullIsMerged, BestOfFull, NoneOfFull, FullIsNarrow, FullIsGood, KeptExist, KeptAreOne, KeptIsMerged, BestOfKept, NoneOfKept, KeptAreNarrow, KeptAreFewer, KeptIsFilter, KeptIsGood, MultiplierExists, MultiplierIsOne, PicksFall};

/// There is a full frontier after each number of slices.
pub fn full_exists()
    ensures { FullExists }
{}

/// The full frontier is unique.
pub fn full_is_one()
    ensures { FullIsOne }
{}

/// Merging a full frontier with the next slice makes the next full frontier.
pub fn full_is_merged()
    ensures { FullIsMerged }
{}

/// The last pair of the last full frontier is that of the best choice.
pub fn best_of_full()
    ensures { BestOfFull }
{}

/// If the last full frontier is empty, no choice fits.
pub fn none_of_full()
    ensures { NoneOfFull }
{}

/// A full frontier has at most one pair more than the budget has bytes.
pub fn full_is_narrow()
    ensures { FullIsNarrow }
{}

/// The record of the best choice with all full frontiers is good.
pub fn full_is_good()
    ensures { FullIsGood }
{}

/// There are kept frontiers, for each multiplier and error.
pub fn kept_exist()
    ensures { KeptExist }
{}

/// The kept frontiers are unique.
pub fn kept_are_one()
    ensures { KeptAreOne }
{}

/// Merging a kept frontier with the next slice under the bound makes the next kept frontier.
pub fn kept_is_merged()
    ensures { KeptIsMerged }
{}

/// The last pair of the last kept frontier is that of the best choice.
pub fn best_of_kept()
    ensures { BestOfKept }
{}

/// If each pair of the last kept frontier has more error than that of the bound, so has each fitting choice.
pub fn none_of_kept()
    ensures { NoneOfKept }
{}

/// The kept frontiers have at most one pair more than the budget has bytes, for each frontier.
pub fn kept_are_narrow()
    ensures { KeptAreNarrow }
{}

/// A smaller error keeps no more pairs.
pub fn kept_are_fewer()
    ensures { KeptAreFewer }
{}

/// The pairs that a smaller error keeps are those within its own bound, of the pairs that a greater one keeps.
pub fn kept_is_filter()
    ensures { KeptIsFilter }
{}

/// The record of the best choice with the frontiers kept by its own error is good.
pub fn kept_is_good()
    ensures { KeptIsGood }
{}

/// If a choice fits, the multiplier exists and is at most 2^43.
pub fn multiplier_exists()
    ensures { MultiplierExists }
{}

/// The multiplier is unique.
pub fn multiplier_is_one()
    ensures { MultiplierIsOne }
{}

/// The size of the Lagrangian minimisers never rises with the multiplier.
pub fn picks_fall()
    ensures { PicksFall }
{}
