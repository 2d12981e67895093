//! Settings and tables, each made of its bytes.

ghost use Rattle.std.specs.Prelude.{◌≤◌, IfSome};
ghost use Rattle.rate_cert.specs.Settings.{IsSettings};

use crate::numbers::Numbers;
use pw_outside::MemSource;
use rate_cert::{ProofReader, Settings};
use rate_table::{Entry, FrameTable, read_table};
use std::alloc::Global;

/// What a table and the settings of its proof are made of. A group has so many frames of so many slices, whose entries have
/// the indices from 1 to `hi`.
#[derive(Drop)]
pub(crate) struct Plan {
    group: u8,
    columns: u8,
    hi: u8,
    frame_budget: u8,
    budget: u64,
    fixed: u64,
    slices: Vec<Vec<Entry>>,
}

impl Plan {
    /// How many slices a frame has.
    pub(crate) fn frame_slices(&self) -> usize {
        usize::from(self.columns)
    }
}

fn put(bytes: &mut Vec<u8>, more: &[u8]) -> Option<()> {
    bytes.extend_from_slice(more).ok()
}

/// Entries of so many indices: small sizes, and errors that are mostly less where the size is greater.
fn entries(alloc: Global, numbers: &mut Numbers, hi: u8) -> Option<Vec<Entry>> {
    let mut entries = Vec::new(alloc);
    for index in 1..=hi {
        let size = numbers.below(12) as u16;
        let error = (20 - u64::from(size)) * numbers.below(4);
        entries.push(Entry { index, size, error }).ok()?;
    }
    Some(entries)
}

/// The plan of two or three slices with up to four entries, in one to three frames.
pub(crate) fn plan_of(alloc: Global, numbers: &mut Numbers) -> Option<Plan> {
    let (group, columns): (u8, u8) = match numbers.below(4) {
        0 => (1, 2),
        1 => (1, 3),
        2 => (2, 1),
        _ => (3, 1),
    };
    let hi = numbers.below(4) as u8 + 1;
    let mut slices = Vec::new(alloc);
    for _ in 0..group * columns {
        slices.push(entries(alloc, numbers, hi)?).ok()?;
    }
    let frame_budget = (numbers.below(9) as u8 + 4) * columns;
    Some(Plan {
        group,
        columns,
        hi,
        frame_budget,
        budget: u64::from(frame_budget) * u64::from(group),
        fixed: numbers.below(4),
        slices,
    })
}

/// The settings: frames of one row of macroblocks, one macroblock a slice.
pub(crate) fn settings_of(alloc: Global, plan: &Plan) -> Option<Settings>
    ensures { IfSome result IsSettings }
{
    let mut bytes = Vec::new(alloc);
    put(&mut bytes, b"PWPF\x01")?;
    put(&mut bytes, &[plan.group.wrapping_sub(1).wrapping_mul(2)])?;
    put(&mut bytes, &[0, plan.columns.wrapping_mul(16), 0, 16])?;
    put(&mut bytes, &[2, 10, 0, 0, 0, 1, plan.hi])?;
    put(&mut bytes, &[0, 0, 0, 25, 0, 0, 0, 1])?;
    put(&mut bytes, &[4; 128])?;
    put(&mut bytes, &[0, 0, 0, plan.frame_budget])?;
    let mut source = MemSource::new(bytes, 4096, Vec::new(alloc));
    let reader = ProofReader::start(&mut source).ok()?;
    Some(reader.settings())
}

fn put_slice(bytes: &mut Vec<u8>, slice: &[Entry]) -> Option<()> {
    put(bytes, &[u8::try_from(slice.len()).ok()?])?;
    for entry in slice {
        put(bytes, &[entry.index])?;
        put(bytes, &entry.size.to_be_bytes())?;
        put(bytes, &entry.error.to_be_bytes())?;
    }
    Some(())
}

/// The table, if it is one.
pub(crate) fn table_of(alloc: Global, plan: &Plan) -> Option<FrameTable> {
    let mut bytes = Vec::new(alloc);
    put(&mut bytes, b"PWTB\x01")?;
    put(&mut bytes, &u32::try_from(plan.budget).ok()?.to_be_bytes())?;
    put(&mut bytes, &u32::try_from(plan.fixed).ok()?.to_be_bytes())?;
    put(
        &mut bytes,
        &u32::try_from(plan.slices.len()).ok()?.to_be_bytes(),
    )?;
    for slice in &plan.slices {
        put_slice(&mut bytes, slice)?;
    }
    let mut source = MemSource::new(bytes, 4096, Vec::new(alloc));
    read_table(alloc, &mut source).ok()
}

/// Changes one number of an entry, or leaves it out.
fn change_slice(numbers: &mut Numbers, slice: &mut Vec<Entry>) {
    if slice.is_empty() {
        return;
    }
    let i = numbers.place(slice.len());
    match numbers.below(4) {
        0 => slice[i].index = slice[i].index.wrapping_add(1),
        1 => slice[i].size = u16::try_from(numbers.beside(u64::from(slice[i].size))).unwrap_or(
            u16::MAX,
        ),
        2 => slice[i].error = numbers.beside(slice[i].error),
        _ => {
            slice.remove(i);
        }
    }
}

/// Changes one thing of the table.
pub(crate) fn change_plan(numbers: &mut Numbers, plan: &mut Plan) {
    if plan.slices.is_empty() {
        return;
    }
    let k = numbers.place(plan.slices.len());
    match numbers.below(8) {
        0 => plan.budget = numbers.beside(plan.budget),
        1 => plan.fixed = numbers.beside(plan.fixed),
        2 => {
            plan.slices.remove(k);
        }
        _ => change_slice(numbers, &mut plan.slices[k]),
    }
}
