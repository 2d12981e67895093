//! The Pareto frontier of a table's choices.

ghost use Rattle.std.specs.Prelude.{◌≡◌, IfOk, IfErr, IsErr};
ghost use Rattle.rate_layers.specs.declared.fault.BestFault.TheVariants.{LayersFull};
ghost use Rattle.rate_least.specs.Curve.{IsCurve, CurvesPass};

use crate::bound::Bound;
use crate::merge::merge_all;
use crate::outcome::WidePair;
use rate_layers::BestFault;
use rate_table::FrameTable;
use std::alloc::Global;
use std::mem;

/// The largest number of points of the frontiers of the first slices, over all numbers of them.
const MOST: usize = 1 << 25;

/// A bound that prunes no pair of a table.
const EVERY: Bound = Bound {
    errors: 0,
    cap: u64::MAX,
    floor: 0,
    most: 1 << 64,
    multiplier: 0,
};

/// The Pareto frontier of a table's choices, by rising size. The budget and the fixed bytes don't matter. During
/// the search the call holds the points of the first slices and two vectors for those of one slice more, of 16
/// bytes a pair.
///
/// The errors are `LayersFull` if the frontiers of the first slices, over all numbers of them, have more than 2^25
/// points together, and `NoMemory`.
pub fn curve(alloc: Global, table: &FrameTable) -> Result<Vec<WidePair>, BestFault>
    ensures points { IfOk result (λ v. IsCurve table.now.slices v.items) }
    // `LayersFull` is returned exactly if the frontiers of the first slices have more than 2^25 points together
    // (unless memory runs out first).
    ensures full_only { IfErr result (λ e. e ≡ LayersFull → CurvesPass table.now.slices) }
    ensures full_always { CurvesPass table.now.slices → IsErr result }
{
    let slices = table.slices.as_slice();
    let mut points = Vec::new(alloc);
    points.push(WidePair { size: 0, error: 0 })?;
    let mut count: usize = 1;
    let mut next = Vec::new(alloc);
    let mut spare = Vec::new(alloc);
    for k in 0..slices.len() {
        merge_all(&mut next, &mut spare, &EVERY, &points, slices[k].entries())?;
        if MOST - count < next.len() {
            return Err(BestFault::LayersFull);
        }
        count += next.len();
        mem::swap(&mut points, &mut next);
    }
    Ok(points)
}
