//! Minima and maxima of numbers of pictures.

ghost use Rattle.std.specs.Prelude.{◌≡◌, IfOk};
ghost use Rattle.std.specs.Option.{option_map};
ghost use Rattle.monitors.specs.Extremes.{joined, extremes_line};

use pw_outside::NoMemory;
use pw_text::{put_decimal, put_words};
use std::alloc::Global;

/// A minimum and a maximum.
#[derive(Clone, Copy)]
pub(crate) struct Extremes {
    pub(crate) least: u16,
    pub(crate) greatest: u16,
}

/// The extremes so far, combined with others.
pub(crate) fn joined(seen: Option<Extremes>, more: Extremes) -> Extremes
    ensures { result ≡ joined seen more }
{
    match seen {
        Some(seen) => Extremes {
            least: seen.least.min(more.least),
            greatest: seen.greatest.max(more.greatest),
        },
        None => more,
    }
}

/// A line with these words and the extremes, or `none`.
#[tactic(auto, unfolding(crate::specs::Extremes::extremes_line))]
pub(crate) fn extremes_line(
    alloc: Global,
    words: &str,
    seen: Option<Extremes>,
) -> Result<Vec<u8>, NoMemory>
    ensures { IfOk result (λ line. line.items ≡ extremes_line words.now (option_map (λ e. e.least) seen) (option_map (λ e. e.greatest) seen)) }
{
    let mut line = Vec::new(alloc);
    put_words(&mut line, words)?;
    match seen {
        Some(seen) => {
            put_words(&mut line, " ")?;
            put_decimal(&mut line, u64::from(seen.least))?;
            put_words(&mut line, " ")?;
            put_decimal(&mut line, u64::from(seen.greatest))?;
            put_words(&mut line, "\n")?;
        }
        None => put_words(&mut line, " none\n")?,
    }
    Ok(line)
}
