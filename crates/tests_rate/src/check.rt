//! Records in which one thing is changed, and the clause that each fails first.

ghost use Rattle.std.specs.Prelude.{◌≡◌, ◌*◌, ◌<◌, ◌≤◌, ◌^◌, length};
ghost use Rattle.std.specs.List.{All};
ghost use Rattle.pr_quant.specs.Matrices.{IsWeight};
ghost use Rattle.rate_table.specs.Table.{IsTable, group_table};
ghost use Rattle.rate_cert.specs.Settings.{IsSettings};

use pw_planes::{AlphaKind, Chroma, Depth, Interlace};
use rate_cert::{FrameProof, Settings, Verdict};
use rate_check::check_record;
use rate_table::{Entry, FrameTable, Pair, SliceTable, Slices, join};
use std::alloc::Global;
use std::process::Abort;

fn pair(size: u32, error: u64) -> Pair {
    Pair { size, error }
}

fn weights() -> [u8; 64]
    ensures each { All IsWeight result }
    ensures count { length result ≡ 64 }
{
    [4; 64]
}

// frames of two macroblocks beside each other, of one slice each
pub(crate) fn settings(group: u8, hi: u8, budget: u32) -> Settings
    requires group_from { 1 ≤ group }
    requires group_to { group ≤ 8 }
    requires hi_from { 1 ≤ hi }
    requires hi_to { hi ≤ 224 }
    requires some { 1 ≤ budget }
    requires small { group * budget < 2 ^ 31 }
    ensures { IsSettings result }
{
    let luma = weights();
    let chroma_weights = weights();
    Settings {
        form: 0,
        group,
        width: 32,
        height: 16,
        chroma: Chroma::C422,
        depth: Depth::D10,
        alpha: AlphaKind::Absent,
        interlace: Interlace::Progressive,
        log2: 0,
        lo: 1,
        hi,
        num: 25,
        den: 1,
        luma,
        chroma_weights,
        budget,
    }
}

fn slice(first: (u16, u64), second: (u16, u64)) -> SliceTable
    requires first { first.1 < 100 }
    requires second { second.1 < 100 }
{
    let mut slice = SliceTable::one(Entry {
        index: 1,
        size: first.0,
        error: first.1,
    });
    slice.add(Entry {
        index: 2,
        size: second.0,
        error: second.1,
    });
    slice
}

// nothing fixed, the slices {1: 10/0, 2: 4/10} and {1: 9/0, 2: 5/6} (size/error)
fn table(rt: &impl Abort, alloc: Global, budget: u32) -> FrameTable
    requires some { 1 ≤ budget }
    requires small { budget < 2 ^ 31 }
    ensures budget { result.budget ≡ budget }
    ensures fixed { result.fixed ≡ 0 }
    ensures slices { length result.slices ≡ 2 }
{
    let slices = [slice((10, 0), (4, 10)), slice((9, 0), (5, 6))];
    let slices = Vec::from_array(alloc, slices).expect(rt, "memory");
    FrameTable {
        budget,
        fixed: 0,
        slices: Slices::from_vec(slices),
    }
}

// the first clause that fails, or 0
pub(crate) fn clause(settings: &Settings, proof: &FrameProof) -> u8
    requires { IsSettings settings.now }
{
    match check_record(settings, proof) {
        Ok(()) => 0,
        Err(clause) => clause.number,
    }
}

// of what is printed of the table with the budget 13, that the choice has 13 bytes
fn clause_of_fit(
    rt: &impl Abort,
    alloc: Global,
    choice: [u8; 2],
    (error, multiplier): (u64, u64),
    layers: [&[Pair]; 3],
) -> u8 {
    let [first, middle, last] = layers;
    let first = Vec::from_slice(alloc, first).expect(rt, "memory");
    let middle = Vec::from_slice(alloc, middle).expect(rt, "memory");
    let last = Vec::from_slice(alloc, last).expect(rt, "memory");
    let proof = FrameProof {
        table: table(rt, alloc, 13),
        verdict: Verdict::Fits {
            choice: Vec::from_array(alloc, choice).expect(rt, "memory"),
            size: 13,
            error,
            multiplier,
            layers: Vec::from_array(alloc, [first, middle, last]).expect(rt, "memory"),
        },
    };
    clause(&settings(1, 2, 13), &proof)
}

// the record of the best choice, with a multiplier
const FIRST: [Pair; 1] = [Pair { size: 0, error: 0 }];

const MIDDLE: [Pair; 1] = [Pair { size: 4, error: 10 }];

const LAST: [Pair; 2] = [
    Pair { size: 9, error: 16 },
    Pair {
        size: 13,
        error: 10,
    },
];

const MOST: u64 = u64::MAX;

#[test]
fn says_which_clause_fails(rt: HostRuntime) {
    let cases: [([u8; 2], (u64, u64), [&[Pair]; 3], u8); 14] = [
        ([2, 1], (10, 2), [&FIRST, &MIDDLE, &LAST], 0),
        ([2, 1], (10, 0), [&FIRST, &MIDDLE, &LAST], 0),
        ([2, 1], (10, MOST), [&FIRST, &MIDDLE, &LAST], 0),
        (
            [2, 1],
            (10, 2),
            [&FIRST, &[pair(4, 10), pair(u32::MAX, 0)], &LAST],
            0,
        ),
        ([2, 3], (10, 2), [&FIRST, &MIDDLE, &LAST], 3),
        ([1, 1], (10, 2), [&FIRST, &MIDDLE, &LAST], 4),
        ([2, 1], (MOST, 2), [&FIRST, &MIDDLE, &LAST], 4),
        ([2, 1], (10, 2), [&[], &MIDDLE, &LAST], 5),
        (
            [2, 1],
            (10, 2),
            [&FIRST, &MIDDLE, &[pair(13, 10), pair(9, 16)]],
            6,
        ),
        (
            [2, 1],
            (10, 2),
            [&FIRST, &MIDDLE, &[pair(5, 9), pair(9, 16), pair(13, 10)]],
            6,
        ),
        ([2, 1], (10, 2), [&FIRST, &MIDDLE, &[pair(9, 16)]], 7),
        ([2, 1], (10, 2), [&FIRST, &MIDDLE, &[pair(13, 10)]], 7),
        ([2, 1], (10, 2), [&FIRST, &[], &LAST], 7),
        ([2, 1], (10, 2), [&FIRST, &MIDDLE, &[pair(5, 9)]], 8),
    ];
    for (choice, numbers, layers, wanted) in cases {
        let found = clause_of_fit(&rt, rt.alloc(), choice, numbers, layers);
        assert_eq!(rt; found, wanted, "{choice:?} {numbers:?}");
    }
}

#[test]
fn says_whether_none_fits(rt: HostRuntime) {
    // a table's budget, that of a frame, what is printed, and the clause
    let cases = [(8, 8, 9, 0), (8, 8, 10, 2), (9, 9, 9, 2), (8, 7, 9, 1)];
    for (budget, of_frame, least, wanted) in cases {
        let proof = FrameProof {
            table: table(&rt, rt.alloc(), budget),
            verdict: Verdict::None { least },
        };
        let found = clause(&settings(1, 2, of_frame), &proof);
        assert_eq!(rt; found, wanted, "{budget} {of_frame} {least}");
    }
}

fn frames(rt: &impl Abort, alloc: Global) -> Vec<FrameTable>
    ensures { IsTable (group_table result.items) }
{
    let tables = [table(rt, alloc, 4), table(rt, alloc, 4)];
    Vec::from_array(alloc, tables).expect(rt, "memory")
}

#[test]
fn takes_the_tables_of_groups(rt: HostRuntime) {
    let tables = frames(&rt, rt.alloc());
    let proof = FrameProof {
        table: join(rt.alloc(), tables).expect(&rt, "memory"),
        verdict: Verdict::None { least: 18 },
    };
    // the frames of a group, the budget of each, and the clause
    let cases = [(2, 4, 0), (8, 4, 0), (1, 4, 1), (2, 8, 1)];
    for (group, budget, wanted) in cases {
        let found = clause(&settings(group, 2, budget), &proof);
        assert_eq!(rt; found, wanted, "{group} {budget}");
    }
}
