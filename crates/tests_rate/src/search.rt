//! The best choice and its Pareto frontiers, over tables that were worked out by hand or whose choices are all tried.

use pw_outside::MemSource;
use rate_layers::{BestFault, Outcome, best};
use rate_table::{FrameTable, Pair, SmallOutcome, best_small, read_file};
use std::alloc::{AllocError, Global};
use std::process::Abort;

/// The table with this budget, these fixed bytes and these slices.
fn table_of(
    rt: &impl Abort,
    alloc: Global,
    (budget, fixed): (u32, u32),
    slices: &[&[(u8, u16, u64)]],
) -> FrameTable {
    let bytes = bytes_of(alloc, (budget, fixed), slices).expect(rt, "memory");
    read(rt, alloc, bytes)
}

fn read(rt: &impl Abort, alloc: Global, bytes: Vec<u8>) -> FrameTable {
    let mut source = MemSource::new(bytes, 4096, Vec::new(alloc));
    read_file(alloc, &mut source).expect(rt, "a table")
}

fn put_head(
    alloc: Global,
    (budget, fixed): (u32, u32),
    slices: u32,
) -> Result<Vec<u8>, AllocError> {
    let mut bytes = Vec::from_slice(alloc, b"PWTB\x01")?;
    bytes.extend_from_slice(&budget.to_be_bytes())?;
    bytes.extend_from_slice(&fixed.to_be_bytes())?;
    bytes.extend_from_slice(&slices.to_be_bytes())?;
    Ok(bytes)
}

fn put_entry(bytes: &mut Vec<u8>, (index, size, error): (u8, u16, u64)) -> Result<(), AllocError> {
    bytes.push(index)?;
    bytes.extend_from_slice(&size.to_be_bytes())?;
    bytes.extend_from_slice(&error.to_be_bytes())?;
    Ok(())
}

fn bytes_of(
    alloc: Global,
    head: (u32, u32),
    slices: &[&[(u8, u16, u64)]],
) -> Result<Vec<u8>, AllocError> {
    let mut bytes = put_head(alloc, head, u32::try_from(slices.len()).unwrap_or(0))?;
    for slice in slices {
        bytes.push(u8::try_from(slice.len()).unwrap_or(0))?;
        for entry in *slice {
            put_entry(&mut bytes, *entry)?;
        }
    }
    Ok(bytes)
}

const LARGE: [(u8, u16, u64); 2] = [(1, 10, 0), (2, 4, 10)];

const SMALL: [(u8, u16, u64); 2] = [(1, 9, 0), (2, 5, 6)];

const EVEN: [(u8, u16, u64); 2] = [(1, 3, 2), (2, 2, 3)];

/// The best choice of a table is this one, with this size and error.
fn has_best(rt: &impl Abort, table: &FrameTable, alloc: Global, want: (&[u8], u64, u64)) {
    match best(alloc, table) {
        Ok(
            Outcome::Fits {
                choice,
                size,
                error,
                ..
            },
        ) => {
            assert_eq!(rt; (choice.as_slice(), size, error), want);
        }
        _ => assert!(rt; false, "a choice fits"),
    }
}

/// No choice fits, and `want` is the least size.
fn has_none(rt: &impl Abort, table: &FrameTable, alloc: Global, want: u64) {
    assert!(rt; matches!(best(alloc, table), Ok(Outcome::None { least }) if least == want));
}

#[test]
fn gives_the_best_choice_with_its_layers(rt: HostRuntime) {
    let table = table_of(&rt, rt.alloc(), (13, 0), &[&LARGE, &SMALL]);
    match best(rt.alloc(), &table) {
        Ok(
            Outcome::Fits {
                choice,
                size,
                error,
                layers,
                multiplier,
            },
        ) => {
            assert_eq!(rt;
                (choice.as_slice(), size, error),
                ([2, 1].as_slice(), 13, 10)
            );
            assert_eq!(rt; (multiplier, layers.len()), (2, 3));
            assert_eq!(rt;
                layers[0].as_slice(),
                [Pair { size: 0, error: 0 }].as_slice()
            );
            assert_eq!(rt;
                layers[1].as_slice(),
                [Pair { size: 4, error: 10 }].as_slice()
            );
            let last = [
                Pair { size: 9, error: 16 },
                Pair {
                    size: 13,
                    error: 10,
                },
            ];
            assert_eq!(rt; layers[2].as_slice(), last.as_slice());
        }
        _ => assert!(rt; false, "a choice fits"),
    }
}

#[test]
fn fills_the_budget_or_gives_the_least(rt: HostRuntime) {
    let slices = [LARGE.as_slice(), SMALL.as_slice()];
    let table = table_of(&rt, rt.alloc(), (15, 0), &slices);
    has_best(&rt, &table, rt.alloc(), (&[1, 2], 15, 6));
    let table = table_of(&rt, rt.alloc(), (8, 0), &slices);
    has_none(&rt, &table, rt.alloc(), 9);
    let table = table_of(&rt, rt.alloc(), (120, 20), &[&[(7, 100, 12)]]);
    has_best(&rt, &table, rt.alloc(), (&[7], 100, 12));
    let table = table_of(&rt, rt.alloc(), (119, 20), &[&[(7, 100, 12)]]);
    has_none(&rt, &table, rt.alloc(), 120);
}

#[test]
fn takes_the_first_of_equal_pairs_and_the_smaller_of_equal_errors(rt: HostRuntime) {
    let table = table_of(&rt, rt.alloc(), (5, 0), &[&EVEN, &EVEN]);
    has_best(&rt, &table, rt.alloc(), (&[1, 2], 5, 5));
    let table = table_of(&rt, rt.alloc(), (10, 0), &[&[(1, 4, 5), (2, 3, 5)]]);
    has_best(&rt, &table, rt.alloc(), (&[2], 3, 5));
    let table = table_of(
        &rt,
        rt.alloc(),
        (30, 0),
        &[[(1, 2, 1), (2, 1, 2)].as_slice(); 20],
    );
    let want = [1, 1, 1, 1, 1, 1, 1, 1, 1, 1, 2, 2, 2, 2, 2, 2, 2, 2, 2, 2];
    has_best(&rt, &table, rt.alloc(), (&want, 30, 30));
}

// the greatest error of an entry
const MOST: u64 = 8_796_093_022_207;

#[test]
fn answers_tables_of_others(rt: HostRuntime) {
    let alloc = rt.alloc();
    let limits: [&[(u8, u16, u64)]; 2] = [&[(1, 0, MOST), (224, 0, 0)], &[(224, 0, MOST)]];
    let all = 2_147_483_647;
    let table = table_of(&rt, alloc, (all, all), &limits);
    has_best(&rt, &table, alloc, (&[224, 224], 0, MOST));
    let table = table_of(&rt, alloc, (1, all), &limits);
    has_none(&rt, &table, alloc, 2_147_483_647);
    let large: [&[(u8, u16, u64)]; 2] = [
        &[(1, 65_535, 0), (2, 65_534, 1)],
        &[(1, 65_535, MOST), (2, 65_534, MOST)],
    ];
    let table = table_of(&rt, alloc, (131_070, 0), &large);
    has_best(&rt, &table, alloc, (&[1, 2], 131_069, MOST));
    let table = table_of(&rt, alloc, (131_068, 0), &large);
    has_best(&rt, &table, alloc, (&[2, 2], 131_068, 8_796_093_022_208));
    let ties: [&[(u8, u16, u64)]; 2] = [&[(3, 1, 1)], &[(2, 1, 0), (3, 1, 1), (4, 0, 0)]];
    let table = table_of(&rt, alloc, (168, 166), &ties);
    has_best(&rt, &table, alloc, (&[3, 4], 1, 1));
    let table = table_of(&rt, alloc, (166, 166), &ties);
    has_none(&rt, &table, alloc, 167);
}

/// A number below `end`, from a state that it changes.
fn below(state: &mut u64, end: u8) -> u8 {
    *state = state
        .wrapping_mul(6_364_136_223_846_793_005)
        .wrapping_add(1_442_695_040_888_963_407);
    ((*state >> 33) % u64::from(end.max(1))) as u8
}

/// A table of five slices with one to three entries, of sizes and errors below seven.
fn small_table(alloc: Global, state: &mut u64) -> Result<Vec<u8>, AllocError> {
    let budget = u32::from(below(state, 26)).saturating_add(1);
    let mut bytes = put_head(alloc, (budget, u32::from(below(state, 5))), 5)?;
    for _ in 0..5 {
        let count = below(state, 3).saturating_add(1);
        bytes.push(count)?;
        for index in 0..count {
            let size = u16::from(below(state, 7));
            let error = u64::from(below(state, 7));
            put_entry(&mut bytes, (index.saturating_add(1), size, error))?;
        }
    }
    Ok(bytes)
}

#[test]
fn finds_what_trying_all_choices_finds(rt: HostRuntime) {
    let mut state = 7;
    for _ in 0..120 {
        let bytes = small_table(rt.alloc(), &mut state).expect(&rt, "memory");
        let table = read(&rt, rt.alloc(), bytes);
        let tried = best_small(rt.alloc(), &table).expect(&rt, "few choices");
        match &tried {
            SmallOutcome::Fits {
                choice,
                size,
                error,
            } => has_best(&rt, &table, rt.alloc(), (choice, *size, *error)),
            SmallOutcome::None { least } => has_none(&rt, &table, rt.alloc(), *least),
        }
    }
}

/// `slices` slices {1: 1/0, 2: 0/1}, and a budget of `slices` less one byte.
fn table_at_the_limit(alloc: Global, slices: u16) -> Result<Vec<u8>, AllocError> {
    let slices = u32::from(slices);
    let mut bytes = put_head(alloc, (slices.saturating_sub(1), 0), slices)?;
    for _ in 0..slices {
        bytes.push(2)?;
        put_entry(&mut bytes, (1, 1, 0))?;
        put_entry(&mut bytes, (2, 0, 1))?;
    }
    Ok(bytes)
}

// 33,550,335 pairs, of which there may be 33,554,432
#[test]
fn finds_the_best_of_as_many_pairs_as_there_may_be(rt: HostRuntime) {
    let bytes = table_at_the_limit(rt.alloc(), 8190).expect(&rt, "memory");
    let table = read(&rt, rt.alloc(), bytes);
    let mut want = Vec::new(rt.alloc());
    for _ in 0..8189 {
        want.push(1).expect(&rt, "memory");
    }
    want.push(2).expect(&rt, "memory");
    has_best(&rt, &table, rt.alloc(), (&want, 8189, 1));
}

// 33,558,527 pairs
#[test]
fn refuses_more_pairs(rt: HostRuntime) {
    let bytes = table_at_the_limit(rt.alloc(), 8191).expect(&rt, "memory");
    let table = read(&rt, rt.alloc(), bytes);
    assert!(rt; matches!(best(rt.alloc(), &table), Err(BestFault::LayersFull)));
}
