use pw_outside::MemSource;
use rate_layers::{BestFault, fitting_multiplier, kept_layers, pick_sums};
use rate_table::{FrameTable, Pair, SliceTable, least_costs, read_file};
use std::alloc::{AllocError, Global};
use std::process::Abort;

// budget 13, nothing fixed, the slices {1: 10/0, 2: 4/10} and {1: 9/0, 2: 5/6} (size/error)
const TABLE: [u8; 63] = *b"PWTB\x01\0\0\0\x0d\0\0\0\0\0\0\0\x02\
    \x02\x01\0\x0a\0\0\0\0\0\0\0\0\x02\0\x04\0\0\0\0\0\0\0\x0a\
    \x02\x01\0\x09\0\0\0\0\0\0\0\0\x02\0\x05\0\0\0\0\0\0\0\x06";

fn table_of(rt: &impl Abort, alloc: Global, bytes: &[u8]) -> FrameTable {
    let bytes = Vec::from_slice(alloc, bytes).expect(rt, "memory");
    let mut source = MemSource::new(bytes, 4096, Vec::new(alloc));
    read_file(alloc, &mut source).expect(rt, "a table")
}

#[test]
fn keeps_the_layers_of_two_slices(rt: HostRuntime) {
    let table = table_of(&rt, rt.alloc(), &TABLE);
    assert_eq!(rt; fitting_multiplier(&table), Some(2));
    assert_eq!(rt; pick_sums(&table, 2), (9, 16));
    assert_eq!(rt; pick_sums(&table, 1), (19, 0));
    // 2 · 4 + 10, where the other entry costs 20, and 2 · 5 + 6, where it costs 18
    assert_eq!(rt; least_costs(&table, 2), 34);
    // The optimum's own error, that of the pick, and no bound at all keep the same pairs.
    for (multiplier, error) in [(2, 10), (2, 16), (0, u64::MAX)] {
        let layers = kept_layers(rt.alloc(), &table, multiplier, error).expect(&rt, "layers");
        assert_eq!(rt; layers.len(), 3);
        assert_eq!(rt;
            layers[0].as_slice(),
            [Pair { size: 0, error: 0 }].as_slice()
        );
        assert_eq!(rt;
            layers[1].as_slice(),
            [Pair { size: 4, error: 10 }].as_slice()
        );
        assert_eq!(rt;
            layers[2].as_slice(),
            [
                Pair { size: 9, error: 16 },
                Pair {
                    size: 13,
                    error: 10
                }
            ]
            .as_slice()
        );
    }
    // No choice that fits has less error than 10; what an error of 9 keeps has more.
    let layers = kept_layers(rt.alloc(), &table, 2, 9).expect(&rt, "layers");
    assert_eq!(rt; layers.len(), 3);
    assert_eq!(rt;
        layers[2].as_slice(),
        [Pair { size: 9, error: 16 }].as_slice()
    );
    let layers = kept_layers(rt.alloc(), &table, 2, 7).expect(&rt, "layers");
    assert_eq!(rt; layers.len(), 3);
    assert!(rt; layers[2].is_empty());
}

/// Size and error of all choices of these slices.
fn all_sums(alloc: Global, slices: &[SliceTable]) -> Result<Vec<(u64, u64)>, AllocError> {
    let mut sums: Vec<(u64, u64)> = Vec::new(alloc);
    sums.push((0, 0))?;
    for slice in slices {
        let mut more = Vec::new(alloc);
        for (size, error) in &sums {
            for x in slice.entries() {
                more.push((
                    size.saturating_add(u64::from(x.size)),
                    error.saturating_add(x.error),
                ))?;
            }
        }
        sums = more;
    }
    Ok(sums)
}

/// The least size of these slices together, and their least cost.
fn least_of(slices: &[SliceTable], multiplier: u64) -> (u64, u64) {
    let mut least = (0u64, 0u64);
    for slice in slices {
        let mut size = u64::MAX;
        let mut cost = u64::MAX;
        for x in slice.entries() {
            size = size.min(u64::from(x.size));
            cost = cost.min(
                x.error
                    .saturating_add(multiplier.saturating_mul(u64::from(x.size))),
            );
        }
        least = (least.0.saturating_add(size), least.1.saturating_add(cost));
    }
    least
}

/// The least error of the pairs with this size, if there are any.
fn error_at(sums: &[(u64, u64)], size: u64) -> Option<u64> {
    let mut least = None;
    for (s, e) in sums {
        if *s == size {
            least = match least {
                None => Some(*e),
                Some(other) => Some((*e).min(other)),
            };
        }
    }
    least
}

/// The kept layer after some slices, by trying all their choices: size by size the pairs of less error than all
/// before, of those that can still fit, and of these the ones within the bound.
fn layer_by_trying(
    alloc: Global,
    table: &FrameTable,
    done: usize,
    multiplier: u64,
    error: u64,
) -> Result<Vec<Pair>, AllocError> {
    let slices = table.slices.as_slice();
    let sums = all_sums(alloc, slices.get(..done).unwrap_or(&[]))?;
    let (least, rest) = least_of(slices.get(done..).unwrap_or(&[]), multiplier);
    let budget = u64::from(table.budget);
    let fixed = u64::from(table.fixed);
    let mut layer = Vec::new(alloc);
    let mut lowest = u64::MAX;
    for size in 0..100u32 {
        let bytes = fixed.saturating_add(u64::from(size));
        match error_at(&sums, u64::from(size)) {
            Some(e) if e < lowest && bytes.saturating_add(least) <= budget => {
                lowest = e;
                let cost = e
                    .saturating_add(rest)
                    .saturating_add(multiplier.saturating_mul(bytes));
                if cost <= error.saturating_add(multiplier.saturating_mul(budget)) {
                    layer.push(Pair { size, error: e })?;
                }
            }
            _ => {}
        }
    }
    Ok(layer)
}

/// A number below `end`, from a state that it changes.
fn below(state: &mut u64, end: u8) -> u8 {
    *state = state
        .wrapping_mul(6_364_136_223_846_793_005)
        .wrapping_add(1_442_695_040_888_963_407);
    ((*state >> 33) % u64::from(end.max(1))) as u8
}

/// A table of four slices with one to three entries, of sizes and errors below five.
fn small_table(alloc: Global, state: &mut u64) -> Result<Vec<u8>, AllocError> {
    let mut bytes = Vec::new(alloc);
    bytes.extend_from_slice(b"PWTB\x01\0\0\0")?;
    bytes.push(below(state, 14).saturating_add(1))?;
    bytes.extend_from_slice(&[0, 0, 0, below(state, 3), 0, 0, 0, 4])?;
    for _ in 0..4 {
        let count = below(state, 3).saturating_add(1);
        bytes.push(count)?;
        for index in 0..count {
            bytes.extend_from_slice(&[
                index.saturating_add(1),
                0,
                below(state, 5),
                0,
                0,
                0,
                0,
                0,
                0,
                0,
            ])?;
            bytes.push(below(state, 5))?;
        }
    }
    Ok(bytes)
}

#[test]
fn keeps_what_trying_all_choices_keeps(rt: HostRuntime) {
    let mut state = 1;
    for _ in 0..40 {
        let bytes = small_table(rt.alloc(), &mut state).expect(&rt, "memory");
        let table = table_of(&rt, rt.alloc(), &bytes);
        for (multiplier, error) in [(0, 100), (0, 4), (1, 2), (1, 5), (2, 3), (3, 0)] {
            let layers = kept_layers(rt.alloc(), &table, multiplier, error).expect(&rt, "layers");
            assert_eq!(rt; layers.len(), 5);
            for (done, layer) in layers.iter().enumerate() {
                let tried = layer_by_trying(rt.alloc(), &table, done, multiplier, error);
                assert_eq!(rt; *layer, tried.expect(&rt, "memory"));
            }
        }
        // None below the multiplier has picks that fit.
        if let Some(multiplier) = fitting_multiplier(&table) {
            let room = u64::from(table.budget).saturating_sub(u64::from(table.fixed));
            assert!(rt; pick_sums(&table, multiplier).0 <= room);
            for lower in 0..multiplier.min(10) {
                assert!(rt; room < pick_sums(&table, lower).0);
            }
        }
    }
}

/// A table of slices {1: 1/0, 2: 0/1}, one more than its budget.
fn table_at_the_limit(alloc: Global, slices: u16) -> Result<Vec<u8>, AllocError> {
    let mut bytes = Vec::new(alloc);
    bytes.extend_from_slice(b"PWTB\x01\0\0")?;
    bytes.extend_from_slice(&slices.saturating_sub(1).to_be_bytes())?;
    bytes.extend_from_slice(&[0, 0, 0, 0, 0, 0])?;
    bytes.extend_from_slice(&slices.to_be_bytes())?;
    for _ in 0..slices {
        bytes.extend_from_slice(b"\x02\x01\0\x01\0\0\0\0\0\0\0\0\x02\0\0\0\0\0\0\0\0\0\x01")?;
    }
    Ok(bytes)
}

// 33,550,335 pairs in 8,191 layers, and 33,558,527 in one layer more, where 2^25 is 33,554,432
#[test]
fn counts_finished_pairs(rt: HostRuntime) {
    let bytes = table_at_the_limit(rt.alloc(), 8190).expect(&rt, "memory");
    let table = table_of(&rt, rt.alloc(), &bytes);
    let layers = kept_layers(rt.alloc(), &table, 1, 1).expect(&rt, "layers");
    let mut pairs: usize = 0;
    for layer in &layers {
        pairs = pairs.saturating_add(layer.len());
    }
    assert_eq!(rt; (layers.len(), pairs), (8191, 33_550_335));
    drop(layers);
    let bytes = table_at_the_limit(rt.alloc(), 8191).expect(&rt, "memory");
    let table = table_of(&rt, rt.alloc(), &bytes);
    assert!(rt;
        matches!(
            kept_layers(rt.alloc(), &table, 1, 1),
            Err(BestFault::LayersFull)
        )
    );
}
