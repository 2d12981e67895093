//! Decimal numbers, words and numbered lines of printed text.
#![tactic(auto)]

ghost use Rattle.std.specs.Prelude.{◌≡◌, ◌++◌, OnOk, OnErr, IfOk};
ghost use Rattle.std.specs.Fmt.{decimal};
ghost use Rattle.std.specs.Str.Parse.{digits_value};
ghost use Rattle.pw_text.specs.Decimal.{IsDecimal, IsSpelling};

mod laws;

pub use laws::decimals_are_read_again;
use pw_outside::NoMemory;

/// The bytes are not a decimal number below 2^64.
#[derive(Clone, Copy, Debug, PartialEq, Eq)]
pub struct Bad;

/// Appends `words` to `text`. After `NoMemory` the text is unchanged.
pub fn put_words(text: &mut Vec<u8>, words: &str) -> Result<(), NoMemory>
    ensures ok { OnOk result (text.new.items ≡ text.old.items ++ words.now) }
    ensures err { OnErr result (text.new.items ≡ text.old.items) }
{
    match text.extend_from_slice(words.as_bytes()) {
        Ok(()) => Ok(()),
        Err(_) => Err(NoMemory),
    }
}

/// Appends the decimal spelling of `number`, without leading zeros. After `NoMemory` the text is unchanged.
#[tactic(auto, using(crate::proofs::Spelling::decimal_spelled))]
pub fn put_decimal(text: &mut Vec<u8>, value: u64) -> Result<(), NoMemory>
    ensures ok { OnOk result (text.new.items ≡ text.old.items ++ decimal value) }
    ensures spelling { IsSpelling value (decimal value) }
    ensures err { OnErr result (text.new.items ≡ text.old.items) }
{
    match value.to_string(*text.allocator()) {
        Ok(digits) => put_words(text, digits.as_str()),
        Err(_) => Err(NoMemory),
    }
}

/// The number that the digits spell: one digit or more, leading zeros allowed. `Bad` exactly where `bytes` is
/// empty, holds a byte that is no digit, or spells a number past 2^64 − 1.
#[tactic(auto, using(crate::proofs::Digits::after_ge))]
pub fn read_decimal(bytes: &[u8]) -> Result<u64, Bad>
    ensures ok { IfOk result (λ n. IsDecimal bytes.now × (n ≡ digits_value 10 bytes.now)) }
    ensures bad { OnErr result (IsDecimal bytes.now → ⊥) }
{
    let mut value: u64 = 0;
    for byte in bytes {
        if !byte.is_ascii_digit() {
            return Err(Bad);
        }
        let digit = u64::from(*byte - b'0');
        value = match value.checked_mul(10) {
            Some(tens) => match tens.checked_add(digit) {
                Some(next) => next,
                None => return Err(Bad),
            },
            None => return Err(Bad),
        };
    }
    if bytes.is_empty() {
        Err(Bad)
    } else {
        Ok(value)
    }
}
