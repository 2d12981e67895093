//! Bits written to and read from memory.

ghost use Rattle.std.specs.Prelude.{◌≤◌};

use pw_bits::{
    BitFault, BitReader, BitWriter, Cursor, Window, ZeroRun, behind_last_one, bit_at, finish,
    front_at, put_bits,
};
use pw_outside::{ByteSource, CountSink, Failed, MemSink, MemSource};
use std::test::Fail;

fn source(rt: &HostRuntime, bytes: &[u8], step: usize, fails: &[u64]) -> Result<MemSource, Fail>
    requires { 1 ≤ step }
{
    Ok(MemSource::new(bytes.to_vec(rt.alloc())?, step, fails.to_vec(rt.alloc())?))
}

#[test]
fn bits_become_bytes(rt: HostRuntime) -> Result<(), Fail> {
    let mut sink = MemSink::new(rt.alloc(), 8, 3, Vec::new(rt.alloc()))?;
    let mut writer = BitWriter::new();
    writer.bits(&mut sink, 1, 1)?;
    writer.bits(&mut sink, 0b001_1111, 7)?;
    writer.bits(&mut sink, 0xa_bcde, 20)?;
    assert_eq!(rt; writer.pending(), 4);
    assert_eq!(rt; sink.bytes(), [0x9f, 0xab, 0xcd].as_slice());
    writer.bits(&mut sink, 0xffff_fffe, 32)?;
    writer.pad(&mut sink)?;
    writer.pad(&mut sink)?;
    assert_eq!(rt; writer.pending(), 0);
    assert_eq!(rt;
        sink.bytes(),
        [0x9f, 0xab, 0xcd, 0xef, 0xff, 0xff, 0xff, 0xe0].as_slice()
    );
    Ok(())
}

#[test]
fn bytes_are_counted(rt: HostRuntime) -> Result<(), Fail> {
    let mut sink = CountSink::new();
    let mut writer = BitWriter::new();
    writer.bits(&mut sink, 77, 31)?;
    assert_eq!(rt; sink.taken(), 3);
    writer.pad(&mut sink)?;
    assert_eq!(rt; sink.taken(), 4);
    Ok(())
}

#[test]
fn a_failed_writer_is_spoiled(rt: HostRuntime) -> Result<(), Fail> {
    let mut sink = MemSink::new(rt.alloc(), 8, 1, [1].to_vec(rt.alloc())?)?;
    let mut writer = BitWriter::new();
    assert!(rt; !writer.spoiled());
    assert_eq!(rt; writer.bits(&mut sink, 0x0102, 16), Err(Failed));
    assert!(rt; writer.spoiled());
    assert_eq!(rt; sink.bytes(), [1].as_slice());
    Ok(())
}

#[test]
fn bits_are_read(rt: HostRuntime) -> Result<(), Fail> {
    let mut bytes = source(&rt, &[0x9f, 0x05, 0x00, 0x40], 2, &[])?;
    let mut reader = BitReader::new();
    assert_eq!(rt; reader.bit(&mut bytes), Ok(true));
    assert_eq!(rt; reader.zeros(&mut bytes, 2), Ok(ZeroRun::One(2)));
    assert_eq!(rt; reader.bits(&mut bytes, 4), Ok(15));
    assert_eq!(rt; reader.zeros(&mut bytes, 3), Ok(ZeroRun::Many));
    assert_eq!(rt; reader.rest_is_zero(&mut bytes), Ok(false));
    assert_eq!(rt; reader.bits(&mut bytes, 11), Ok(0b01_0000_0000_0));
    assert_eq!(rt; reader.zeros(&mut bytes, 0), Ok(ZeroRun::One(0)));
    assert_eq!(rt; reader.zeros(&mut bytes, 6), Ok(ZeroRun::End(6)));
    assert_eq!(rt; reader.rest_is_zero(&mut bytes), Ok(true));
    assert_eq!(rt; reader.bits(&mut bytes, 0), Ok(0));
    assert_eq!(rt; reader.bits(&mut bytes, 1), Err(BitFault::End));
    Ok(())
}

#[test]
fn a_fault_ends_the_reading(rt: HostRuntime) -> Result<(), Fail> {
    let mut bytes = source(&rt, &[0, 0, 0], 1, &[1, 2, 3])?;
    let mut reader = BitReader::new();
    assert_eq!(rt; reader.bits(&mut bytes, 12), Err(BitFault::Failed));
    assert_eq!(rt; reader.zeros(&mut bytes, 99), Err(Failed));
    assert_eq!(rt; reader.rest_is_zero(&mut bytes), Err(Failed));
    Ok(())
}

#[test]
fn a_window_ends_before_its_source(rt: HostRuntime) -> Result<(), Fail> {
    let mut bytes = source(&rt, &[1, 2, 3, 4], 9, &[])?;
    let mut piece = [0; 9];
    let mut window = Window::new(&mut bytes, 3);
    let mut reader = BitReader::new();
    assert_eq!(rt; reader.bits(&mut window, 9), Ok(2));
    assert_eq!(rt; window.read(&mut piece), Ok(1));
    assert_eq!(rt; window.read(&mut piece), Ok(0));
    let mut second = Window::new(&mut bytes, 0);
    second.skip()?;
    assert_eq!(rt; bytes.read(&mut piece), Ok(1));
    assert_eq!(rt; piece[0], 4);
    Ok(())
}

#[test]
fn bits_stand_at_places(rt: HostRuntime) {
    let mut out = [0xff; 16];
    let cursor = put_bits(&mut out, Cursor::start(), 0x9fabc, 20);
    let cursor = put_bits(&mut out, cursor, 0b110, 3);
    assert_eq!(rt; finish(&mut out, cursor), 3);
    assert!(rt; out[..3] == [0x9f, 0xab, 0xcc]);
    assert_eq!(rt; front_at(&out, 4) >> 44, 0xfabcc);
    assert!(rt; bit_at(&out, 3) && !bit_at(&out, 1));
    assert_eq!(rt; behind_last_one(&out, 3), 22);
    assert_eq!(rt; behind_last_one(&out, 0), 0);
}
