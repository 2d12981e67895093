//! Components as an independent implementation reads them. What stands behind a component counts for nothing.

ghost use Rattle.std.specs.Prelude.{◌≤◌, ◌<◌};

use pr_coeff::{Block, CoeffFault, Scan};
use pr_pieces::{ShortWords, read_component_in};
use std::process::Abort;
use std::test::Fail;

/// A coefficient that isn't 0: its block, its place and its value.
type Coefficient = (usize, usize, i16);

/// The blocks with these coefficients.
fn blocks_of(coefficients: &[Coefficient]) -> [Block; 32] {
    let mut blocks = [[0; 64]; 32];
    for (number, place, value) in coefficients {
        if let Some(block) = blocks.get_mut(*number) {
            if let Some(coefficient) = block.get_mut(*place) {
                *coefficient = *value;
            }
        }
    }
    blocks
}

/// Reads a component with ones behind it, and compares the blocks or the fault.
fn check(
    rt: &impl Abort,
    words: &ShortWords,
    scan: Scan,
    count: usize,
    bytes: &[u8],
    wanted: Result<&[Coefficient], CoeffFault>,
) -> Result<(), Fail> {
    let mut padded = [0xff; 24];
    if count == 0 || count > 32 || bytes.len() > 16 {
        return Err(Fail::from("no component of a test"));
    }
    for place in 0..bytes.len() {
        padded[place] = bytes[place];
    }
    let mut blocks = [[7; 64]; 32];
    let read = read_component_in(&padded, bytes.len(), scan, &mut blocks[..count], words);
    match wanted {
        Err(fault) => assert_eq!(rt; read, Err(fault)),
        Ok(coefficients) => {
            assert_eq!(rt; read, Ok(()));
            let wanted = blocks_of(coefficients);
            for number in 0..count {
                assert!(rt; blocks[number] == wanted[number]);
            }
        }
    }
    Ok(())
}

#[test]
fn components(rt: HostRuntime) -> Result<(), Fail> {
    let words = ShortWords::new();
    let p = Scan::Progressive;
    let firsts = [
        (1, 0, 3),
        (2, 0, 3),
        (3, 0, 2),
        (4, 0, 1),
        (5, 0, 1),
        (6, 0, 1),
        (7, 0, 1),
    ];
    check(&rt, &words, p, 8, &[0x83, 0xa1, 0x25, 0x80], Ok(&firsts))?;
    let turned = [(1, 0, -1), (2, 0, -1), (3, 0, -2)];
    check(&rt, &words, p, 4, &[0x82, 0x64], Ok(&turned))?;
    let last = [(3, 63, -1)];
    check(&rt, &words, p, 4, &[0x82, 0x30, 0x1f, 0x98], Ok(&last))?;
    check(&rt, &words, p, 2, &[0x82, 0, 0x81, 0], Ok(&[(1, 32, 1)]))?;
    // Both orders of places, long words and the largest magnitude.
    let long = [
        0, 0x10, 0x01, 0xd0, 0, 0x40, 0x01, 0x80, 0xfa, 0, 0x03, 0xff, 0xf4,
    ];
    let large = [(0, 0, -32767), (0, 63, -32767)];
    check(&rt, &words, p, 2, &long, Ok(&large))?;
    check(&rt, &words, Scan::Interlaced, 2, &long, Ok(&large))?;
    let short = [0x8e, 0x8b, 0x8d, 0xca, 0x80];
    let other = [(0, 0, -2), (0, 9, -1), (0, 19, 1), (1, 0, -1), (1, 10, -1)];
    check(&rt, &words, Scan::Interlaced, 2, &short, Ok(&other))?;
    // The data ends where only zeros are left.
    check(&rt, &words, p, 4, &[0x82, 0x30, 0, 0, 0], Ok(&[]))
}

#[test]
fn faults(rt: HostRuntime) -> Result<(), Fail> {
    let words = ShortWords::new();
    let p = Scan::Progressive;
    let past = Err(CoeffFault::RunPast);
    let word = Err(CoeffFault::Codeword);
    let range = Err(CoeffFault::LevelRange);
    check(&rt, &words, p, 4, &[0x82, 0x30, 0x1f, 0xb8], past)?;
    check(&rt, &words, p, 1, &[0x80, 0x08, 0x18], past)?;
    check(&rt, &words, p, 1, &[], word)?;
    check(&rt, &words, p, 2, &[0x82, 0, 0x81], word)?;
    check(&rt, &words, p, 1, &[0x80, 0x1f], word)?;
    check(&rt, &words, p, 1, &[0x82, 0, 0x03, 0xff, 0xf9, 0x54], range)
}
