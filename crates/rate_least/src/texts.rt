//! The lines of a Pareto frontier.

ghost use Rattle.std.specs.Prelude.{◌≡◌, ◌++◌, OnOk, IfOk};
ghost use Rattle.std.specs.List.{flat_map};
ghost use Rattle.rate_least.specs.Runs.{point_line, curve_text};

use crate::outcome::WidePair;
use pw_outside::NoMemory;
use pw_text::{put_decimal, put_words};
use std::alloc::Global;

/// Appends the line of a pair.
fn put_point(text: &mut Vec<u8>, point: WidePair) -> Result<(), NoMemory>
    ensures { OnOk result (text.new.items ≡ text.old.items ++ point_line point) }
{
    put_words(text, "point ")?;
    put_decimal(text, point.size)?;
    put_words(text, " ")?;
    put_decimal(text, point.error)?;
    put_words(text, "\n")
}

/// Appends a line for each pair.
fn put_points(text: &mut Vec<u8>, points: &[WidePair]) -> Result<(), NoMemory>
    ensures { OnOk result (text.new.items ≡ text.old.items ++ flat_map point_line points.now) }
{
    for point in points {
        put_point(text, *point)?;
    }
    Ok(())
}

/// A line for each pair, and one with their number.
pub(crate) fn lines_of_curve(alloc: Global, points: &[WidePair]) -> Result<Vec<u8>, NoMemory>
    ensures { IfOk result (λ text. text.items ≡ curve_text points.now) }
{
    let mut text = Vec::new(alloc);
    put_points(&mut text, points)?;
    put_words(&mut text, "points ")?;
    put_decimal(&mut text, points.len() as u64)?;
    put_words(&mut text, "\n")?;
    Ok(text)
}
