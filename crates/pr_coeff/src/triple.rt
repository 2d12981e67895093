//! Reading a run, a level and a sign.

ghost use Rattle.std.specs.Prelude.{◌≡◌, ◌<◌, ◌≤◌, ◌^◌, ℕ, false, Ok, IfOk, IfErr, IfSome, IsSome, nat_abs};
ghost use Rattle.pw_outside.specs.Ports.{CountsFault, Lowers, GoesOn};
ghost use Rattle.pw_bits.specs.Reading.{unread};
ghost use Rattle.pr_coeff.specs.Reading.{signed, level_at, triple_at};
ghost use Rattle.pr_coeff.specs.Calls.{IsFault, IsFaultThere, is_failed, TripleOrEnd};

use crate::books::{book_of_level, book_of_run};
use crate::read::{CoeffFault, get_sign, get_word, get_word_or_end};
use pw_bits::BitReader;
use pw_outside::ByteSource;

/// A run of zeros, and the magnitude, minus 1, and the sign of the coefficient after it.
#[derive(Clone, Copy)]
pub struct RunLevel {
    /// The run of zeros.
    pub run: u32,
    /// The magnitude, minus 1.
    pub level: u32,
    /// Whether the coefficient is negative.
    pub negative: bool,
}

/// The coefficient of a level below 32,767 and a sign.
pub fn signed_level(level: u32, negative: bool) -> i16
    requires { level < 32767 }
    ensures value { result ≡ signed negative level }
    ensures small { nat_abs result ≤ 32767 }
{
    let magnitude = (level + 1) as i16;
    if negative { -magnitude } else { magnitude }
}

/// Reads a level and a sign, after a magnitude.
fn get_level<S: ByteSource>(
    reader: &mut BitReader,
    source: &mut S,
    magnitude: u32,
) -> Result<(u32, bool), CoeffFault>
    ensures value { IfOk result (λ r. IsSome (S.left source.old) → (run : ℕ) → level_at run magnitude (unread reader.old (S.left source.old)) ≡ Ok (record { run = run; level = r.0; negative = r.1; rest = unread reader.new (S.left source.new) })) }
    ensures small { IfOk result (λ r. r.0 < 32767) }
    ensures fault { IfErr result (λ e. IsSome (S.left source.old) → (run : ℕ) → IsFault e (level_at run magnitude (unread reader.old (S.left source.old)))) }
    ensures told { IsSome (S.left source.old) → IsSome (S.left source.new) }
    ensures most { Lowers (S.most source.old) (S.most source.new) 0 }
    ensures becomes { GoesOn S.becomes source.old source.new }
    ensures cause { CountsFault (S.faults source.old) (S.faults source.new) (is_failed result) }
{
    match get_word(reader, source, book_of_level(magnitude)) {
        Ok(level) => {
            if level >= 32767 {
                return Err(CoeffFault::LevelRange);
            }
            match get_sign(reader, source) {
                Ok(negative) => Ok((level, negative)),
                Err(fault) => Err(fault),
            }
        }
        Err(fault) => Err(fault),
    }
}

/// Reads a run, a level and a sign with `room` positions left, after a run and a magnitude, unless the data has
/// ended.
pub(crate) fn get_triple<S: ByteSource>(
    reader: &mut BitReader,
    source: &mut S,
    room: u32,
    run: u32,
    magnitude: u32,
) -> Result<Option<RunLevel>, CoeffFault>
    requires { IsSome (S.most source.old) }
    ensures value { IfOk result (λ o. IsSome (S.left source.old) → TripleOrEnd (unread reader.old (S.left source.old)) (unread reader.new (S.left source.new)) (triple_at room run magnitude (unread reader.old (S.left source.old))) o) }
    ensures inside { IfOk result (λ o. IfSome o (λ t. (t.run < room) × (t.level < 32767))) }
    ensures fault { IfErr result (λ e. IsSome (S.left source.old) → IsFaultThere e (unread reader.old (S.left source.old)) (triple_at room run magnitude (unread reader.old (S.left source.old)))) }
    ensures told { IsSome (S.left source.old) → IsSome (S.left source.new) }
    ensures most { Lowers (S.most source.old) (S.most source.new) 0 }
    ensures becomes { GoesOn S.becomes source.old source.new }
    ensures cause { CountsFault (S.faults source.old) (S.faults source.new) (is_failed result) }
{
    match get_word_or_end(reader, source, book_of_run(run)) {
        Ok(None) => Ok(None),
        Ok(Some(run)) => {
            if run >= room {
                return Err(CoeffFault::RunPast);
            }
            match get_level(reader, source, magnitude) {
                Ok((level, negative)) => Ok(Some(RunLevel {
                    run,
                    level,
                    negative,
                })),
                Err(fault) => Err(fault),
            }
        }
        Err(fault) => Err(fault),
    }
}
