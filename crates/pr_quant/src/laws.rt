//! Laws of quantised values.

ghost use Rattle.pr_quant.specs.Quantised.{QuantisedIsNearest, OneIsNearest, QuantisedIsSmall, ErrorIsSmall};
ghost use Rattle.pr_quant.specs.Errors.{SliceErrorIsSmall};
ghost use Rattle.pr_quant.specs.Turns.{TurnsGiveLevels, TurnsTellZeros, ProductsAreQuotients, ErrorsAreRests};
ghost use Rattle.pr_quant.specs.Matrices.{NamedWeightsAreInRange};

/// Every coefficient has a nearest value, at every multiplier above 0.
pub fn quantised_is_nearest()
    ensures { QuantisedIsNearest }
{}

/// At most one value is nearest.
pub fn one_is_nearest()
    ensures { OneIsNearest }
{}

/// The magnitude of a quantised value is at most 8,191 at multipliers from 2 on, and at most 4,096
/// from 4 on.
pub fn quantised_is_small()
    ensures { QuantisedIsSmall }
{}

/// The squared error of a coefficient is below 2^28.
pub fn error_is_small()
    ensures { ErrorIsSmall }
{}

/// The squared errors of all coefficients of a slice, which has at most 96 blocks, add up to less than
/// 2^43, whatever its matrices and its index are.
pub fn slice_error_is_small()
    ensures { SliceErrorIsSmall }
{}

/// The weights of each named matrix are from 2 to 63.
pub fn named_weights_are_in_range()
    ensures { NamedWeightsAreInRange }
{}

/// The magnitude of a value follows from the coefficient's quotient by the weight alone; it is zero exactly where
/// that quotient is below the scale.
pub fn turns_give_levels()
    ensures levels { TurnsGiveLevels }
    ensures zeros { TurnsTellZeros }
{}

/// A product with a reciprocal is the quotient of a number below 2^15.
pub fn products_are_quotients()
    ensures { ProductsAreQuotients }
{}

/// A coefficient's squared error is its square without the gain.
pub fn errors_are_rests()
    ensures { ErrorsAreRests }
{}
