//! Tables of slices and of frames.

use crate::entry::Entry;
use arrayvec::ArrayVec;
use std::marker::Model;

/// The largest number of slices of a table: two pictures of 65,535 slices each.
pub const MAX_TABLE_SLICES: u32 = 131_070;

/// The largest length in bytes of a table in a file: [`MAX_TABLE_SLICES`] slices with 224 entries each.
pub const MAX_TABLE_BYTES: u64 = 323_087_562;

/// The entries of one slice, 1 to 224 of them, by rising index.
#[derive(Drop)]
pub struct SliceTable {
    entries: ArrayVec<Entry, 224>,
}

impl Model for SliceTable {
    ghost use Rattle.std.specs.Prelude.{List};
    ghost use Rattle.rate_table.specs.declared.entry.Entry.{Entry};

    ghost Value = { List Entry };

    ghost use Rattle.rate_table.specs.Table.{IsSliceTable};

    ghost view = { λ t. t.entries.items };

    ghost invariant = { λ t. IsSliceTable t.entries.items };
}

impl SliceTable {
    ghost use Rattle.std.specs.Prelude.{◌≡◌, ◌<◌, ◌≤◌, [], ◌∷◌, ◌++◌, length};
    ghost use Rattle.rate_table.specs.Table.{IsEntry, IsSliceTable};
    ghost use Rattle.rate_table.specs.Body.{last_index};

    /// A slice with this one entry. Its index is from 1 to 224 and its error below 2^43.
    pub fn one(entry: Entry) -> SliceTable
        requires { IsEntry entry }
        ensures { result ≡ entry ∷ [] }
    {
        let mut entries = ArrayVec::new();
        entries.push(entry);
        SliceTable { entries }
    }

    /// Appends an entry within the limits. Its index is greater than the last one's.
    pub fn add(&mut self, entry: Entry)
        requires entry { IsEntry entry }
        requires above { last_index self.old < entry.index }
        ensures { self.new ≡ self.old ++ entry ∷ [] }
    {
        self.entries.push(entry);
    }

    pub(crate) fn of(entries: ArrayVec<Entry, 224>) -> SliceTable
        requires { IsSliceTable entries.items }
        ensures { result ≡ entries.items }
    {
        SliceTable { entries }
    }

    /// The entries, by rising index.
    pub fn entries(&self) -> &[Entry]
        ensures entries { result.now ≡ self.now }
        ensures slice { IsSliceTable self.now }
        ensures few { length self.now ≤ 224 }
    {
        self.entries.as_slice()
    }
}

/// The slices of a table, in the order of the frame.
#[derive(Drop)]
pub struct Slices {
    slices: Vec<SliceTable>,
}

impl Model for Slices {
    ghost use Rattle.std.specs.Prelude.{List};
    ghost use Rattle.std.specs.List.{All};
    ghost use Rattle.rate_table.specs.declared.entry.Entry.{Entry};

    ghost Value = { List (List Entry) };

    ghost use Rattle.rate_table.specs.Table.{IsSliceTable};

    ghost view = { λ s. s.slices.items };

    ghost invariant = { λ s. All IsSliceTable s.slices.items };
}

impl Slices {
    ghost use Rattle.std.specs.Prelude.{◌≡◌};
    ghost use Rattle.std.specs.List.{All};
    ghost use Rattle.rate_table.specs.Table.{IsSliceTable};

    /// Wraps these slices.
    pub fn from_vec(slices: Vec<SliceTable>) -> Slices
        requires { All IsSliceTable slices.items }
        ensures { result ≡ slices.items }
    {
        Slices { slices }
    }

    /// Unwraps the slices.
    pub fn into_vec(self) -> Vec<SliceTable>
        ensures slices { result.items ≡ self }
        ensures each { All IsSliceTable self }
    {
        self.slices
    }

    /// The slices, in order.
    pub fn as_slice(&self) -> &[SliceTable]
        ensures slices { result.now ≡ self.now }
        ensures each { All IsSliceTable self.now }
    {
        self.slices.as_slice()
    }
}

/// The rate-distortion table of a frame: the budget, the fixed bytes, and the slices.
#[derive(Drop)]
pub struct FrameTable {
    /// The bytes that the frame may take, 1 to 2^31 - 1.
    pub budget: u32,
    /// The bytes that every choice takes besides its slices, below 2^31.
    pub fixed: u32,
    /// The slices, 1 to [`MAX_TABLE_SLICES`].
    pub slices: Slices,
}

impl Model for FrameTable {
    ghost use Rattle.rate_table.specs.Table.{Table, IsTable};

    ghost Value = { Table };

    ghost view = { λ t. record { budget = t.budget; fixed = t.fixed; slices = t.slices } };

    ghost invariant = { λ t. IsTable (record { budget = t.budget; fixed = t.fixed; slices = t.slices }) };
}
