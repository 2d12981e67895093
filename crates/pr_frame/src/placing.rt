//! Blocks, written into planes.

ghost use Rattle.std.specs.Prelude.{◌≡◌, ◌≤◌, ◌+◌, ◌-◌, ◌*◌, length, map};
ghost use Rattle.pr_geom.specs.Blocks.{blocks_of};
ghost use Rattle.pr_geom.specs.Layout.{IsSlice};
ghost use Rattle.pr_geom.specs.declared.places.Part.TheVariants.{Y};
ghost use Rattle.pr_frame.specs.Shown.{placed, shown_block, value_block};
ghost use Rattle.pr_frame.specs.inner.Placing.{with_placed, IsInSlice};

use crate::products::shown_block;
use pr_coeff::Block;
use pr_geom::{Layout, Part, SlicePlace};
use pw_planes::{Depth, Plane};

/// Writes the samples of the blocks of a part of a slice into the plane of the part.
pub(crate) fn put_part(
    plane: &mut Plane,
    depth: Depth,
    weights: &[u8; 64],
    index: u8,
    layout: &Layout,
    slice: &SlicePlace,
    part: Part,
    blocks: &[Block],
)
    requires slice { IsSlice layout.now slice.now }
    requires least { 1 ≤ index }
    requires most { index ≤ 224 }
    requires count { length blocks.now ≡ length (blocks_of layout.now.chroma part slice.now) }
    ensures { plane.new ≡ with_placed plane.old (placed (blocks_of layout.now.chroma part slice.now) (map (shown_block depth weights.now index) blocks.now)) }
{
    for k in 0..layout.blocks(slice, part) {
        let (x, y) = layout.block_place(slice, part, k);
        let samples = shown_block(depth, weights, index, &blocks[usize::from(k)]);
        plane.put_block(x, y, &samples);
    }
}

/// The index, in the alpha values of a slice, of the first value of the block with this corner.
fn value_place(slice: &SlicePlace, x: u32, y: u32) -> usize
    requires { IsInSlice slice.now x y }
    ensures value { result ≡ 16 * slice.now.width * (y - 16 * slice.now.row) + (x - 16 * slice.now.column) }
    ensures room { result + 7 * (16 * slice.now.width) + 8 ≤ 256 * slice.now.width }
{
    let width = 16 * usize::from(slice.width);
    let row = (y - 16 * u32::from(slice.row)) as usize;
    let column = (x - 16 * u32::from(slice.column)) as usize;
    width * row + column
}

/// The alpha values of a slice in the block with this corner.
fn value_block(slice: &SlicePlace, values: &[u16], x: u32, y: u32) -> [u16; 64]
    requires narrow { slice.now.width ≤ 8 }
    requires count { length values.now ≡ 256 * slice.now.width }
    requires place { IsInSlice slice.now x y }
    ensures { result ≡ value_block slice.now values.now (x, y) }
{
    let width = 16 * usize::from(slice.width);
    let at = value_place(slice, x, y);
    let mut block = [0; 64];
    for row in 0..8 {
        let place = at + row * width;
        block[8 * row..8 * row + 8].copy_from_slice(&values[place..place + 8]);
    }
    block
}

/// Writes the alpha values of a slice into the plane of alpha.
pub(crate) fn put_values(plane: &mut Plane, layout: &Layout, slice: &SlicePlace, values: &[u16])
    requires slice { IsSlice layout.now slice.now }
    requires count { length values.now ≡ 256 * slice.now.width }
    ensures { plane.new ≡ with_placed plane.old (placed (blocks_of layout.now.chroma Y slice.now) (map (value_block slice.now values.now) (blocks_of layout.now.chroma Y slice.now))) }
{
    for k in 0..layout.blocks(slice, Part::Y) {
        let (x, y) = layout.block_place(slice, Part::Y, k);
        plane.put_block(x, y, &value_block(slice, values, x, y));
    }
}
