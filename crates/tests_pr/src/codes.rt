//! Words as an independent implementation writes and reads them.

ghost use Rattle.std.specs.Prelude.{IsTrue};
ghost use Rattle.pr_codes.specs.Words.{is_book};

use pr_codes::{CodeFault, Codebook, code_length, get_code, put_code};
use pw_bits::{BitReader, BitWriter};
use pw_outside::{MemSink, MemSource};
use std::alloc::Global;
use std::process::Abort;
use std::test::Fail;

/// The books, by number.
fn book(number: u8) -> Codebook
    ensures { IsTrue (is_book result) }
{
    match number {
        0 => Codebook {
            last: 0,
            rice: 5,
            exp: 6,
        },
        1 => Codebook {
            last: 0,
            rice: 0,
            exp: 1,
        },
        2 => Codebook {
            last: 0,
            rice: 1,
            exp: 2,
        },
        3 => Codebook {
            last: 1,
            rice: 2,
            exp: 3,
        },
        4 => Codebook {
            last: 0,
            rice: 3,
            exp: 4,
        },
        5 => Codebook {
            last: 2,
            rice: 0,
            exp: 1,
        },
        6 => Codebook {
            last: 1,
            rice: 0,
            exp: 1,
        },
        7 => Codebook {
            last: 1,
            rice: 1,
            exp: 2,
        },
        8 => Codebook {
            last: 0,
            rice: 2,
            exp: 3,
        },
        _ => Codebook {
            last: 2,
            rice: 0,
            exp: 2,
        },
    }
}

/// Writes a word, compares its length and its bits, and reads it.
fn check(
    rt: &impl Abort,
    alloc: Global,
    number: u8,
    value: u32,
    length: u32,
    bytes: &[u8],
) -> Result<(), Fail> {
    if value > 1 << 20 {
        return Err(Fail::from("a number past the limit"));
    }
    let mut sink = MemSink::new(alloc, 8, 8, Vec::new(alloc))?;
    let mut writer = BitWriter::new();
    put_code(&mut writer, &mut sink, book(number), value)?;
    writer.pad(&mut sink)?;
    assert_eq!(rt; sink.bytes(), bytes);
    assert_eq!(rt; code_length(book(number), value), length);
    check_read(rt, alloc, number, 0, bytes, Ok(value))
}

/// Passes over some bits and reads a word.
fn check_read(
    rt: &impl Abort,
    alloc: Global,
    number: u8,
    skip: u8,
    bytes: &[u8],
    answer: Result<u32, CodeFault>,
) -> Result<(), Fail> {
    if skip > 8 {
        return Err(Fail::from("too many bits"));
    }
    let mut source = MemSource::new(bytes.to_vec(alloc)?, 1, Vec::new(alloc));
    let mut reader = BitReader::new();
    let _ = reader.bits(&mut source, skip);
    assert_eq!(rt; get_code(&mut reader, &mut source, book(number)), answer);
    Ok(())
}

#[test]
fn short_words(rt: HostRuntime) -> Result<(), Fail> {
    let alloc = rt.alloc();
    check(&rt, alloc, 0, 31, 6, &[0b1111_1100])?;
    check(&rt, alloc, 0, 32, 8, &[0b0100_0000])?;
    check(&rt, alloc, 1, 0, 1, &[0b1000_0000])?;
    check(&rt, alloc, 2, 3, 4, &[0b0101_0000])?;
    check(&rt, alloc, 3, 7, 4, &[0b0111_0000])?;
    check(&rt, alloc, 3, 8, 6, &[0b0010_0000])?;
    check(&rt, alloc, 4, 4, 4, &[0b1100_0000])?;
    check(&rt, alloc, 5, 29, 11, &[0b0000_0011, 0b1000_0000])?;
    check(&rt, alloc, 6, 1, 2, &[0b0100_0000])?;
    check(&rt, alloc, 7, 33, 11, &[0b0000_0100, 0b0010_0000])?;
    check(&rt, alloc, 8, 1, 3, &[0b1010_0000])?;
    check(&rt, alloc, 9, 2, 3, &[0b0010_0000])?;
    Ok(())
}

#[test]
fn long_words(rt: HostRuntime) -> Result<(), Fail> {
    let alloc = rt.alloc();
    check(&rt, alloc, 0, 1048544, 36, &[0, 1, 0, 0, 0])?;
    check(&rt, alloc, 1, 1048575, 41, &[0, 0, 8, 0, 0, 0])?;
    check(&rt, alloc, 3, 1048576, 40, &[0, 0, 16, 0, 0])?;
    check(&rt, alloc, 5, 524289, 41, &[0, 0, 4, 0, 0, 0])?;
    Ok(())
}

#[test]
fn words_behind_bits(rt: HostRuntime) -> Result<(), Fail> {
    let alloc = rt.alloc();
    check_read(&rt, alloc, 2, 7, &[0xfe, 0xff], Ok(5))?;
    check_read(&rt, alloc, 5, 2, &[0x00, 0x07, 0x4f], Ok(936))?;
    check_read(&rt, alloc, 7, 2, &[0x00, 0x09, 0x9f], Ok(1231))?;
    check_read(&rt, alloc, 9, 6, &[0xfc, 0xff], Ok(2))?;
    Ok(())
}

#[test]
fn words_that_are_none(rt: HostRuntime) -> Result<(), Fail> {
    let alloc = rt.alloc();
    let large = Err(CodeFault::TooLarge);
    check_read(&rt, alloc, 0, 3, &[0xf1], Err(CodeFault::End))?;
    check_read(&rt, alloc, 4, 0, &[0x00, 0x00, 0x40, 0x00, 0x27], large)?;
    check_read(&rt, alloc, 1, 6, &[0x00, 0x00, 0x5f], Err(CodeFault::End))?;
    check_read(&rt, alloc, 6, 2, &[0, 0, 0, 0, 0x12, 0xa9], large)?;
    check_read(&rt, alloc, 3, 2, &[0x40, 0x1c], Err(CodeFault::End))?;
    check_read(&rt, alloc, 9, 2, &[0xc0, 0, 0, 0, 0x80], large)?;
    Ok(())
}
