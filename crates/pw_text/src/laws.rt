//! Laws over the definitions alone. The functions do nothing; their contracts are the laws.

ghost use Rattle.pw_text.specs.Decimal.{DecimalIsSpelling, SpellingIsDecimal};

/// A number that was put is read again: its digits are a decimal number of its value, and no other bytes without a
/// leading zero are.
pub fn decimals_are_read_again()
    ensures again { DecimalIsSpelling }
    ensures one { SpellingIsDecimal }
{}
