//! Laws of the definitions, independent of any program.

ghost use Rattle.rate_least.specs.Laws.{GoodIsTrue, CertificateIsReadAgain, CurveIsOne};

/// What a good certificate says is true.
pub fn good_is_true()
    ensures { GoodIsTrue }
{}

/// A certificate that is written is read as that certificate.
pub fn certificate_is_read_again()
    ensures { CertificateIsReadAgain }
{}

/// The Pareto frontier of some slices is unique.
pub fn curve_is_one()
    ensures { CurveIsOne }
{}
