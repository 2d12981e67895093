//! Alpha values as an independent implementation writes and reads them.

ghost use Rattle.std.specs.Prelude.{◌≡◌, ◌<◌, ◌≤◌, ◌^◌, true, IsTrue, length};
ghost use Rattle.pr_alpha.specs.Alpha.{is_width, AreBelow};

use pr_alpha::{AlphaFault, alpha_length, read_alpha, write_alpha};
use pw_outside::{Failed, MemSink, MemSource};
use std::alloc::Global;
use std::process::Abort;
use std::test::Fail;

/// Values, how many of these count, and their bytes, of which so many count.
type Case = (u8, [u16; 3], usize, [u8; 7], usize);

const WRITTEN: [Case; 13] = [
    (8, [0, 0, 0], 1, [0x04, 0, 0, 0, 0, 0, 0], 1),
    (8, [255, 254, 255], 3, [0x80, 0x43, 0x04, 0, 0, 0, 0], 3),
    (8, [0, 8, 0], 3, [0x05, 0xd7, 0xc0, 0, 0, 0, 0], 3),
    (8, [0, 9, 0], 3, [0x06, 0x13, 0xfb, 0xc0, 0, 0, 0], 4),
    (8, [128, 255, 128], 3, [0xc0, 0xef, 0xfc, 0x0c, 0, 0, 0], 4),
    (8, [255, 127, 255], 3, [0x80, 0x70, 0x1c, 0x04, 0, 0, 0], 4),
    (16, [0, 0, 0], 1, [0x00, 0x80, 0, 0, 0, 0, 0], 2),
    (16, [65534, 0, 0], 1, [0x01, 0x80, 0, 0, 0, 0, 0], 2),
    (16, [65535, 0, 0], 2, [0x80, 0x00, 0x40, 0x20, 0, 0, 0], 4),
    (16, [63, 127, 63], 3, [0x7e, 0xbf, 0x5f, 0xe0, 0, 0, 0], 4),
    (
        16,
        [0, 65, 0],
        3,
        [0x00, 0xc0, 0x10, 0x7f, 0xfb, 0xf8, 0],
        6,
    ),
    (
        16,
        [0, 32768, 0],
        3,
        [0x00, 0xe0, 0x00, 0x38, 0x00, 0x08, 0],
        6,
    ),
    (
        16,
        [29917, 29917, 29960],
        3,
        [0xba, 0x6f, 0x05, 0x52, 0, 0, 0],
        4,
    ),
];

/// A value, how often it stands there, and its bytes, of which so many count.
type Row = (u8, u16, usize, [u8; 5], usize);

const ROWS: [Row; 11] = [
    (8, 5, 15, [0x53, 0x80, 0, 0, 0], 2),
    (8, 255, 16, [0x80, 0x3c, 0, 0, 0], 2),
    (8, 255, 17, [0x80, 0x00, 0x08, 0x00, 0], 4),
    (8, 255, 256, [0x80, 0x00, 0x7f, 0x80, 0], 4),
    (8, 5, 2048, [0x50, 0x3f, 0xf8, 0, 0], 3),
    (8, 255, 2048, [0x80, 0x03, 0xff, 0x80, 0], 4),
    (16, 65535, 1, [0x80, 0x00, 0x40, 0, 0], 3),
    (16, 5, 16, [0x0a, 0x78, 0, 0, 0], 2),
    (16, 5, 17, [0x0a, 0x00, 0x10, 0, 0], 3),
    (16, 65535, 256, [0x80, 0x00, 0x00, 0x7f, 0x80], 5),
    (16, 65535, 2048, [0x80, 0x00, 0x03, 0xff, 0x80], 5),
];

/// Other spellings of values than the one that is written, data of no bytes, and data behind the last value.
const READ: [Case; 10] = [
    (8, [255, 255, 255], 3, [0, 0, 0, 0, 0, 0, 0], 0),
    (8, [0, 0, 0], 1, [0x00, 0, 0, 0, 0, 0, 0], 1),
    (8, [254, 0, 0], 1, [0xff, 0x80, 0x07, 0x80, 0, 0, 0], 4),
    (8, [254, 255, 0], 2, [0xff, 0x80, 0x00, 0x00, 0, 0, 0], 4),
    (8, [254, 254, 0], 2, [0xff, 0x80, 0x00, 0x80, 0, 0, 0], 4),
    (8, [32, 32, 32], 3, [0x90, 0x88, 0xf2, 0, 0, 0, 0], 3),
    (16, [65535, 65535, 65535], 2, [0, 0, 0, 0, 0, 0, 0], 0),
    (16, [64067, 0, 0], 1, [0xfd, 0x22, 0x40, 0x15, 0, 0, 0], 4),
    (
        16,
        [65534, 65534, 0],
        2,
        [0xff, 0xff, 0x80, 0x00, 0x80, 0, 0],
        5,
    ),
    (16, [65532, 0, 0], 1, [0x05, 0x00, 0x00, 0xff, 0, 0, 0], 5),
];

/// How many values are read from bytes, of which so many count, and the fault.
const FAULTS: [(u8, usize, [u8; 4], usize, AlphaFault); 14] = [
    (8, 256, [0x80, 0x00, 0, 0], 2, AlphaFault::AlphaShort),
    (8, 256, [0x80, 0x00, 0x80, 0x00], 4, AlphaFault::AlphaPast),
    (8, 1, [0x80, 0, 0, 0], 1, AlphaFault::AlphaShort),
    (8, 2, [0x0c, 0, 0, 0], 1, AlphaFault::AlphaShort),
    (8, 2048, [0x00, 0, 0, 0], 1, AlphaFault::AlphaShort),
    (8, 2, [0x08, 0x80, 0, 0], 2, AlphaFault::AlphaPast),
    (8, 5, [0x80, 0x14, 0, 0], 2, AlphaFault::AlphaPast),
    (8, 3, [0xe5, 0x0c, 0, 0], 2, AlphaFault::AlphaPast),
    (16, 1, [0xff, 0, 0, 0], 1, AlphaFault::AlphaShort),
    (16, 16, [0x7f, 0, 0, 0], 1, AlphaFault::AlphaShort),
    (16, 2, [0x80, 0, 0, 0], 1, AlphaFault::AlphaShort),
    (16, 2, [0x01, 0x10, 0, 0], 2, AlphaFault::AlphaPast),
    (16, 5, [0x0d, 0x30, 0, 0], 2, AlphaFault::AlphaPast),
    (16, 16, [0x01, 0x00, 0x10, 0], 3, AlphaFault::AlphaPast),
];

/// Whether values can be written.
fn fits(bits: u8, values: &[u16]) -> bool
    ensures { result ≡ true → IsTrue (is_width bits) × (0 < length values.now) × (length values.now ≤ 2 ^ 11) × AreBelow bits values.now }
{
    if bits == 16 {
        return !values.is_empty() && values.len() <= 2048;
    }
    if bits != 8 || values.is_empty() || values.len() > 2048 {
        return false;
    }
    for value in values {
        if *value > 255 {
            return false;
        }
    }
    true
}

/// Reads values, and compares them.
fn check_read(
    rt: &impl Abort,
    alloc: Global,
    bits: u8,
    values: &[u16],
    bytes: &[u8],
) -> Result<(), Fail> {
    if !fits(bits, values) {
        return Err(Fail::from("values that aren't written"));
    }
    let mut read = [7; 2048];
    let mut source = MemSource::new(bytes.to_vec(alloc)?, 3, Vec::new(alloc));
    assert_eq!(rt;
        read_alpha(&mut source, bits, &mut read[..values.len()]),
        Ok(())
    );
    assert_eq!(rt; &read[..values.len()], values);
    Ok(())
}

/// Writes, measures and reads values.
fn check(
    rt: &impl Abort,
    alloc: Global,
    bits: u8,
    values: &[u16],
    bytes: &[u8],
) -> Result<(), Fail> {
    if !fits(bits, values) {
        return Err(Fail::from("values that aren't written"));
    }
    let mut sink = MemSink::new(alloc, 256, 2, Vec::new(alloc))?;
    write_alpha(values, bits, &mut sink)?;
    assert_eq!(rt; sink.bytes(), bytes);
    assert_eq!(rt; u64::from(alpha_length(values, bits)), bytes.len() as u64);
    check_read(rt, alloc, bits, values, bytes)
}

#[test]
fn values_are_written_and_read(rt: HostRuntime) -> Result<(), Fail> {
    for (bits, values, count, bytes, size) in WRITTEN {
        check(
            &rt,
            rt.alloc(),
            bits,
            &values[..count.min(3)],
            &bytes[..size.min(7)],
        )?;
    }
    Ok(())
}

#[test]
fn equal_values_are_written_and_read(rt: HostRuntime) -> Result<(), Fail> {
    for (bits, value, count, bytes, size) in ROWS {
        let values = [value; 2048];
        check(
            &rt,
            rt.alloc(),
            bits,
            &values[..count.min(2048)],
            &bytes[..size.min(5)],
        )?;
    }
    Ok(())
}

#[test]
fn changing_values_are_written_and_read(rt: HostRuntime) -> Result<(), Fail> {
    let mut values = [0; 256];
    for (place, value) in values.iter_mut().enumerate() {
        *value = if place % 2 == 0 { 0 } else { 255 };
    }
    let mut bytes = [0; 192];
    for (place, byte) in bytes.iter_mut().enumerate() {
        *byte = [0x04, 0x30, 0x43][place % 3];
    }
    check(&rt, rt.alloc(), 8, &values, &bytes)
}

#[test]
fn every_spelling_is_read(rt: HostRuntime) -> Result<(), Fail> {
    for (bits, values, count, bytes, size) in READ {
        check_read(
            &rt,
            rt.alloc(),
            bits,
            &values[..count.min(3)],
            &bytes[..size.min(7)],
        )?;
    }
    Ok(())
}

#[test]
fn bits_have_a_first_fault(rt: HostRuntime) -> Result<(), Fail> {
    let alloc = rt.alloc();
    for (bits, count, bytes, size, fault) in FAULTS {
        let mut values = [7; 2048];
        if (bits == 8 || bits == 16) && 0 < count {
            let mut source = MemSource::new(
                bytes[..size.min(4)].to_vec(alloc)?,
                1,
                Vec::new(alloc),
            );
            assert_eq!(&rt;
                read_alpha(&mut source, bits, &mut values[..count.min(2048)]),
                Err(fault)
            );
        }
    }
    Ok(())
}

#[test]
fn a_port_fails(rt: HostRuntime) -> Result<(), Fail> {
    let alloc = rt.alloc();
    let mut values = [0; 2];
    let bytes = [0x80, 0x41].to_vec(alloc)?;
    let mut source = MemSource::new(bytes, 1, [1].to_vec(alloc)?);
    assert_eq!(rt;
        read_alpha(&mut source, 8, &mut values),
        Err(AlphaFault::Failed)
    );
    let mut sink = MemSink::new(alloc, 8, 1, [2].to_vec(alloc)?)?;
    assert_eq!(rt; write_alpha(&[65535, 0], 16, &mut sink), Err(Failed));
    assert_eq!(rt; sink.bytes(), [0x80, 0x00].as_slice());
    Ok(())
}
