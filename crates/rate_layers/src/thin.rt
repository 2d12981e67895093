//! Removes dominated entries of a slice before a merge.

ghost use Rattle.std.specs.Prelude.{◌≤◌, IsTrue, OnOk};
ghost use Rattle.std.specs.List.{All, Contains};
ghost use Rattle.rate_table.specs.declared.entry.Entry.{Entry};
ghost use Rattle.rate_table.specs.Table.{IsEntry};
ghost use Rattle.rate_layers.specs.inner.Merge.{Thinned};

use rate_table::Entry;
use std::alloc::AllocError;

/// Whether one of these entries dominates `x`: it has no more size and no more error.
fn is_beaten(few: &[Entry], x: Entry) -> bool
    ensures { IsTrue result → (y : Entry) × Contains few.now y × (y.size ≤ x.size) × (y.error ≤ x.error) }
{
    for y in few {
        if y.size <= x.size && y.error <= x.error {
            return true;
        }
    }
    false
}

/// Writes these entries from the last to the first, without those that a later one dominates. After two such passes
/// no entry dominates another.
pub fn thin(few: &mut Vec<Entry>, entries: &[Entry]) -> Result<(), AllocError>
    requires entries { All IsEntry entries.now }
    ensures ok { OnOk result (Thinned entries.now few.new.items) }
    ensures entries { OnOk result (All IsEntry few.new.items) }
{
    few.clear();
    for k in 0..entries.len() {
        let x = entries[entries.len() - 1 - k];
        if !is_beaten(few, x) {
            few.push(x)?;
        }
    }
    Ok(())
}
