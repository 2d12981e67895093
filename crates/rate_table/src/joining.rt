//! The table of several frames under one budget.

ghost use Rattle.std.specs.Prelude.{◌≡◌, IfOk};
ghost use Rattle.rate_table.specs.Table.{IsTable, group_table};

use crate::table::{FrameTable, Slices};
use pw_outside::NoMemory;
use std::alloc::Global;

/// Joins the tables of several frames: budgets and fixed bytes are added, slices are concatenated. There is at
/// least one table, and the sums are within the limits of a table.
///
/// The error says that memory ran out.
pub fn join(alloc: Global, tables: Vec<FrameTable>) -> Result<FrameTable, NoMemory>
    requires { IsTable (group_table tables.items) }
    ensures { IfOk result (λ t. t ≡ group_table tables.items) }
{
    let mut budget = 0;
    let mut fixed = 0;
    let mut slices = Vec::new(alloc);
    for table in tables {
        budget += table.budget;
        fixed += table.fixed;
        if slices.append(&mut table.slices.into_vec()).is_err() {
            return Err(NoMemory);
        }
    }
    Ok(FrameTable {
        budget,
        fixed,
        slices: Slices::from_vec(slices),
    })
}
