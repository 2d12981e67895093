//! Components as an independent implementation writes and reads them.

ghost use Rattle.std.specs.Prelude.{◌≤◌, ◌<◌, length};
ghost use Rattle.pr_coeff.specs.Component.{AreBlocks};

use pr_coeff::{Block, CoeffFault, Scan, component_length, read_component, write_component};
use pw_outside::{Failed, MemSink, MemSource};
use std::alloc::Global;
use std::process::Abort;
use std::test::Fail;

/// A coefficient that isn't 0: its block, its place and its value.
type Coefficient = (usize, usize, i16);

/// The blocks with these coefficients.
fn blocks_of(coefficients: &[Coefficient]) -> [Block; 32] {
    let mut blocks = [[0; 64]; 32];
    for (number, place, value) in coefficients {
        if let Some(block) = blocks.get_mut(*number) {
            if let Some(coefficient) = block.get_mut(*place) {
                *coefficient = *value;
            }
        }
    }
    blocks
}

/// Reads blocks, and compares them.
fn check_read(
    rt: &impl Abort,
    alloc: Global,
    scan: Scan,
    count: usize,
    bytes: &[u8],
    coefficients: &[Coefficient],
) -> Result<(), Fail>
    requires { (0 < count) × (count ≤ 32) }
{
    let mut blocks = [[7; 64]; 32];
    let mut source = MemSource::new(bytes.to_vec(alloc)?, 3, Vec::new(alloc));
    assert_eq!(rt;
        read_component(&mut source, scan, &mut blocks[..count]),
        Ok(())
    );
    let wanted = blocks_of(coefficients);
    for number in 0..count {
        assert!(rt; blocks[number] == wanted[number]);
    }
    Ok(())
}

/// Reads blocks, compares them, and writes and measures them.
fn check(
    rt: &impl Abort,
    alloc: Global,
    scan: Scan,
    count: usize,
    bytes: &[u8],
    coefficients: &[Coefficient],
) -> Result<(), Fail>
    requires { (0 < count) × (count ≤ 32) }
{
    check_read(rt, alloc, scan, count, bytes, coefficients)?;
    let mut blocks = [[0; 64]; 32];
    let mut source = MemSource::new(bytes.to_vec(alloc)?, 1, Vec::new(alloc));
    let read = &mut blocks[..count];
    match read_component(&mut source, scan, read) {
        Ok(()) => check_written(rt, alloc, scan, read, bytes),
        Err(_) => Err(Fail::from("refused")),
    }
}

/// Writes and measures blocks.
fn check_written(
    rt: &impl Abort,
    alloc: Global,
    scan: Scan,
    blocks: &[Block],
    bytes: &[u8],
) -> Result<(), Fail>
    requires count { (0 < length blocks.now) × (length blocks.now ≤ 32) }
    requires small { AreBlocks blocks.now }
{
    let mut sink = MemSink::new(alloc, 256, 5, Vec::new(alloc))?;
    write_component(blocks, scan, &mut sink)?;
    assert_eq!(rt; sink.bytes(), bytes);
    assert_eq!(rt; component_length(blocks, scan) as usize, bytes.len());
    Ok(())
}

/// Reads what stands for no blocks.
fn check_fault(
    rt: &impl Abort,
    alloc: Global,
    scan: Scan,
    count: usize,
    bytes: &[u8],
    fault: CoeffFault,
) -> Result<(), Fail>
    requires { (0 < count) × (count ≤ 32) }
{
    let mut blocks = [[0; 64]; 32];
    let mut source = MemSource::new(bytes.to_vec(alloc)?, 2, Vec::new(alloc));
    assert_eq!(rt;
        read_component(&mut source, scan, &mut blocks[..count]),
        Err(fault)
    );
    Ok(())
}

#[test]
fn short_components(rt: HostRuntime) -> Result<(), Fail> {
    let alloc = rt.alloc();
    check(
        &rt,
        alloc,
        Scan::Progressive,
        8,
        &[0x83, 0xa1, 0x25, 0x80],
        &[
            (1, 0, 3),
            (2, 0, 3),
            (3, 0, 2),
            (4, 0, 1),
            (5, 0, 1),
            (6, 0, 1),
            (7, 0, 1),
        ],
    )?;
    check(
        &rt,
        alloc,
        Scan::Progressive,
        4,
        &[0x82, 0x64],
        &[(1, 0, -1), (2, 0, -1), (3, 0, -2)],
    )?;
    check(
        &rt,
        alloc,
        Scan::Progressive,
        4,
        &[0x82, 0x30, 0x1f, 0x98],
        &[(3, 63, -1)],
    )?;
    check(
        &rt,
        alloc,
        Scan::Progressive,
        2,
        &[0x82, 0x00, 0x81, 0x00],
        &[(1, 32, 1)],
    )?;
    Ok(())
}

#[test]
fn written_components(rt: HostRuntime) -> Result<(), Fail> {
    let alloc = rt.alloc();
    check(&rt, alloc, Scan::Progressive, 1, &[0x80], &[])?;
    check(
        &rt,
        alloc,
        Scan::Progressive,
        2,
        &[
            0x00, 0x10, 0x01, 0xd0, 0x00, 0x40, 0x01, 0x80, 0xfa, 0x00, 0x03, 0xff, 0xf4,
        ],
        &[(0, 0, -32767), (0, 63, -32767)],
    )?;
    check(
        &rt,
        alloc,
        Scan::Interlaced,
        2,
        &[
            0x00, 0x10, 0x01, 0xd0, 0x00, 0x40, 0x01, 0x80, 0xfa, 0x00, 0x03, 0xff, 0xf4,
        ],
        &[(0, 0, -32767), (0, 63, -32767)],
    )?;
    check(
        &rt,
        alloc,
        Scan::Progressive,
        12,
        &[0x82, 0x3f, 0xf0, 0x05, 0xe9, 0x80],
        &[(11, 63, -1)],
    )?;
    check(
        &rt,
        alloc,
        Scan::Progressive,
        24,
        &[0x82, 0x3f, 0xff, 0xff, 0x00, 0x2f, 0x46],
        &[(23, 63, -1)],
    )?;
    check(
        &rt,
        alloc,
        Scan::Progressive,
        4,
        &[
            0x00, 0x10, 0x01, 0xd0, 0x00, 0x20, 0x00, 0x40, 0x00, 0x20, 0x00, 0x38,
        ],
        &[
            (0, 0, -32767),
            (1, 0, 32767),
            (2, 0, -32767),
            (3, 0, -32767),
        ],
    )?;
    check(
        &rt,
        alloc,
        Scan::Progressive,
        2,
        &[0x4c, 0xf0],
        &[(0, 0, 22), (1, 0, 18)],
    )?;
    check(
        &rt,
        alloc,
        Scan::Interlaced,
        4,
        &[
            0x02, 0xd6, 0x40, 0xc1, 0x40, 0x89, 0xc0, 0xea, 0x81, 0xcd, 0x85, 0x80,
        ],
        &[
            (0, 0, -1437),
            (0, 27, 1),
            (1, 0, -1820),
            (2, 0, -1548),
            (3, 0, -1083),
            (3, 27, -5),
        ],
    )?;
    check(
        &rt,
        alloc,
        Scan::Interlaced,
        4,
        &[0x62, 0x57, 0x93, 0x08, 0x20, 0x98, 0xc0],
        &[
            (0, 0, 33),
            (0, 49, -2),
            (1, 0, 26),
            (2, 0, 23),
            (3, 0, 29),
            (3, 16, 2),
        ],
    )?;
    check(
        &rt,
        alloc,
        Scan::Interlaced,
        4,
        &[
            0x09, 0x90, 0x65, 0x02, 0x75, 0x08, 0x90, 0x7f, 0x82, 0xa1, 0x80,
        ],
        &[
            (0, 0, 290),
            (1, 0, 243),
            (2, 0, 554),
            (2, 32, -1),
            (3, 0, 489),
            (3, 39, -2),
        ],
    )?;
    check(
        &rt,
        alloc,
        Scan::Interlaced,
        2,
        &[0x8e, 0x8b, 0x8d, 0xca, 0x80],
        &[(0, 0, -2), (0, 9, -1), (0, 19, 1), (1, 0, -1), (1, 10, -1)],
    )?;
    check(
        &rt,
        alloc,
        Scan::Interlaced,
        2,
        &[0x02, 0xae, 0x40, 0xf7, 0x10, 0x24, 0x00, 0xd7, 0x20],
        &[(0, 0, -1357), (0, 46, -1), (1, 0, -867), (1, 8, 19)],
    )?;
    Ok(())
}

#[test]
fn zeros_behind_components(rt: HostRuntime) -> Result<(), Fail> {
    let alloc = rt.alloc();
    check_read(
        &rt,
        alloc,
        Scan::Progressive,
        4,
        &[0x82, 0x30, 0x00, 0x00, 0x00],
        &[],
    )?;
    check_read(
        &rt,
        alloc,
        Scan::Progressive,
        1,
        &[0x80, 0x1f, 0xe0, 0x00, 0x00, 0x00],
        &[(0, 63, -1)],
    )?;
    check_read(
        &rt,
        alloc,
        Scan::Progressive,
        6,
        &[0x82, 0x3c, 0x02, 0xf5, 0x80, 0x00, 0x00, 0x00],
        &[(5, 63, -1)],
    )?;
    check_read(
        &rt,
        alloc,
        Scan::Interlaced,
        6,
        &[0x82, 0x3c, 0x02, 0xf5, 0x80, 0x00, 0x00, 0x00],
        &[(5, 63, -1)],
    )?;
    check_read(
        &rt,
        alloc,
        Scan::Interlaced,
        11,
        &[0x82, 0x3f, 0xe0, 0x0a, 0xd7, 0x00, 0x00, 0x00],
        &[(10, 63, -1)],
    )?;
    check_read(
        &rt,
        alloc,
        Scan::Progressive,
        2,
        &[0x82, 0x03, 0x71, 0xe6],
        &[(0, 26, 1), (1, 22, -2)],
    )?;
    check_read(
        &rt,
        alloc,
        Scan::Progressive,
        1,
        &[0x82, 0x10, 0x55],
        &[(0, 1, 9), (0, 9, -7)],
    )?;
    check_read(
        &rt,
        alloc,
        Scan::Progressive,
        2,
        &[0x82, 0x01, 0xd4, 0x3d, 0x60],
        &[(1, 23, 1), (1, 61, -2)],
    )?;
    Ok(())
}

#[test]
fn faults(rt: HostRuntime) -> Result<(), Fail> {
    let alloc = rt.alloc();
    check_fault(
        &rt,
        alloc,
        Scan::Progressive,
        4,
        &[0x82, 0x30, 0x1f, 0xb8],
        CoeffFault::RunPast,
    )?;
    check_fault(
        &rt,
        alloc,
        Scan::Progressive,
        2,
        &[0x82, 0x00, 0x81],
        CoeffFault::Codeword,
    )?;
    check_fault(&rt, alloc, Scan::Progressive, 1, &[], CoeffFault::Codeword)?;
    check_fault(
        &rt,
        alloc,
        Scan::Progressive,
        1,
        &[0x80, 0x1f],
        CoeffFault::Codeword,
    )?;
    check_fault(
        &rt,
        alloc,
        Scan::Progressive,
        1,
        &[0x80, 0x1f, 0xe0, 0x00, 0x00, 0x00, 0x01],
        CoeffFault::Codeword,
    )?;
    check_fault(
        &rt,
        alloc,
        Scan::Interlaced,
        1,
        &[0xb0, 0xb9],
        CoeffFault::Codeword,
    )?;
    check_fault(
        &rt,
        alloc,
        Scan::Interlaced,
        4,
        &[0x76, 0xc3],
        CoeffFault::Codeword,
    )?;
    check_fault(
        &rt,
        alloc,
        Scan::Progressive,
        1,
        &[0x83, 0x00, 0xf4, 0x00, 0x02, 0x71, 0x02],
        CoeffFault::RunPast,
    )?;
    check_fault(
        &rt,
        alloc,
        Scan::Progressive,
        1,
        &[0x80, 0x08, 0x18],
        CoeffFault::RunPast,
    )?;
    check_fault(
        &rt,
        alloc,
        Scan::Interlaced,
        1,
        &[0x05, 0x58, 0x61, 0xa0, 0x0d, 0xb4],
        CoeffFault::RunPast,
    )?;
    check_fault(
        &rt,
        alloc,
        Scan::Interlaced,
        2,
        &[0x02, 0x0d, 0x41, 0xf3, 0x00, 0xe6, 0x60],
        CoeffFault::RunPast,
    )?;
    check_fault(
        &rt,
        alloc,
        Scan::Progressive,
        1,
        &[0x82, 0x00, 0x03, 0xff, 0xf9, 0x54],
        CoeffFault::LevelRange,
    )?;
    check_fault(
        &rt,
        alloc,
        Scan::Progressive,
        2,
        &[0xa6, 0xc8, 0x52, 0x00, 0x00, 0xff, 0xfd],
        CoeffFault::LevelRange,
    )?;
    Ok(())
}

#[test]
fn a_port_fails(rt: HostRuntime) -> Result<(), Fail> {
    let alloc = rt.alloc();
    let mut blocks = [[0; 64]; 4];
    let bytes = [0x82, 0x30, 0x1f, 0x98].to_vec(alloc)?;
    let mut source = MemSource::new(bytes, 1, [2].to_vec(alloc)?);
    assert_eq!(rt;
        read_component(&mut source, Scan::Progressive, &mut blocks),
        Err(CoeffFault::Failed)
    );
    let second = [0x82, 0x30, 0x1f, 0x98].to_vec(alloc)?;
    let mut whole = MemSource::new(second, 1, Vec::new(alloc));
    match read_component(&mut whole, Scan::Progressive, &mut blocks) {
        Ok(()) => {
            let mut sink = MemSink::new(alloc, 8, 8, [1].to_vec(alloc)?)?;
            assert_eq!(rt;
                write_component(&blocks, Scan::Progressive, &mut sink),
                Err(Failed)
            );
            assert_eq!(rt; sink.bytes(), [0x82].as_slice());
            Ok(())
        }
        Err(_) => Err(Fail::from("refused")),
    }
}
