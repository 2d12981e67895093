//! Components: a scan, a number of blocks and the bytes in hexadecimal. Each is read from memory by tables and from a source, and the
//! blocks or the fault are printed; after `put` they are written again, and their bytes are printed.

ghost use Rattle.std.specs.Prelude.{◌≤◌, ◌<◌, ◌+◌, length};
ghost use Rattle.pr_coeff.specs.Component.{AreBlocks};

use gate_words::{bytes_of, put_bytes};
use pr_coeff::{Block, CoeffFault, Scan, read_component, write_component};
use pr_pieces::{ShortWords, read_component_in};
use pw_outside::{MemSink, MemSource, NoMemory};
use pw_text::{put_decimal, put_words, read_decimal};
use std::alloc::Global;
use std::io;

/// Appends the values of a block that aren't 0, each after its place.
fn put_block(text: &mut Vec<u8>, block: &Block) -> Result<(), NoMemory> {
    let mut separator = "";
    for place in 0..64 {
        let value = block[place];
        if value != 0 {
            put_words(text, separator)?;
            put_decimal(text, place as u64)?;
            put_words(text, if value < 0 { "=-" } else { "=" })?;
            put_decimal(text, u64::from(value.unsigned_abs()))?;
            separator = ",";
        }
    }
    if separator == "" {
        put_words(text, "-")?;
    }
    Ok(())
}

/// Appends blocks.
fn put_blocks(text: &mut Vec<u8>, blocks: &[Block]) -> Result<(), NoMemory> {
    let mut separator = "";
    for block in blocks {
        put_words(text, separator)?;
        put_block(text, block)?;
        separator = "/";
    }
    Ok(())
}

/// Appends the bytes of blocks.
fn put_written(
    alloc: Global,
    text: &mut Vec<u8>,
    scan: Scan,
    blocks: &[Block],
) -> Result<(), NoMemory>
    requires count { (0 < length blocks.now) × (length blocks.now ≤ 32) }
    requires small { AreBlocks blocks.now }
{
    let Ok(mut sink) = MemSink::new(alloc, 16384, 1000, Vec::new(alloc)) else {
        return Err(NoMemory);
    };
    if write_component(blocks, scan, &mut sink).is_err() {
        return put_words(text, "unwritten");
    }
    put_bytes(text, sink.bytes())
}

/// The name of a fault.
fn name_of(fault: CoeffFault) -> &'static str {
    match fault {
        CoeffFault::Codeword => "Codeword",
        CoeffFault::RunPast => "RunPast",
        CoeffFault::LevelRange => "LevelRange",
        CoeffFault::Failed => "Failed",
    }
}

/// Whether reading from a source gives this answer and, where there are some, these blocks.
fn is_same(
    alloc: Global,
    bytes: Vec<u8>,
    scan: Scan,
    answer: Result<(), CoeffFault>,
    wanted: &[Block],
) -> bool
    requires { (0 < length wanted.now) × (length wanted.now ≤ 32) }
{
    let mut blocks = [[7; 64]; 32];
    let blocks = &mut blocks[..wanted.len()];
    let mut source = MemSource::new(bytes, 3, Vec::new(alloc));
    let same = read_component(&mut source, scan, blocks) == answer;
    same && (answer.is_err() || *blocks == *wanted)
}

/// One component: how it is read, and whether it is written again.
#[derive(Drop)]
struct Case<'a> {
    again: bool,
    scan: Scan,
    count: usize,
    digits: &'a [u8],
}

/// The line of a component.
fn line_of(alloc: Global, words: &ShortWords, case: &Case<'_>) -> Result<Vec<u8>, NoMemory> {
    let mut line = Vec::new(alloc);
    let (Ok(bytes), Ok(mut padded)) = (bytes_of(alloc, case.digits), bytes_of(alloc, case.digits))
    else {
        put_words(&mut line, "no hexadecimal")?;
        return Ok(line);
    };
    // The bytes after a component count for nothing.
    if padded.extend_from_slice(&[0xa5; 8]).is_err() {
        return Err(NoMemory);
    }
    let size = bytes.len();
    if case.count == 0 || case.count > 32 || size > 16384 || padded.len() < size + 8 {
        put_words(&mut line, "no component")?;
        return Ok(line);
    }
    let mut blocks = [[7; 64]; 32];
    let blocks = &mut blocks[..case.count];
    let answer = read_component_in(&padded, size, case.scan, blocks, words);
    match answer {
        Ok(()) if case.again => {
            put_blocks(&mut line, blocks)?;
            put_words(&mut line, " ")?;
            put_written(alloc, &mut line, case.scan, blocks)?;
        }
        Ok(()) => {
            put_words(&mut line, "ok ")?;
            put_blocks(&mut line, blocks)?;
        }
        Err(fault) => put_words(&mut line, name_of(fault))?,
    }
    if !is_same(alloc, bytes, case.scan, answer, blocks) {
        put_words(&mut line, ", and otherwise from a source")?;
    }
    Ok(line)
}

/// The case of a line.
fn case_of(line: &str) -> Option<Case<'_>> {
    let (form, rest) = line.split_once(' ')?;
    let (scan, rest) = rest.split_once(' ')?;
    let (count, digits) = rest.split_once(' ')?;
    let count = read_decimal(count.as_bytes()).ok()?;
    Some(Case {
        again: form == "put",
        scan: if scan == "i" {
            Scan::Interlaced
        } else {
            Scan::Progressive
        },
        count: usize::from(u8::try_from(count).ok()?),
        digits: digits.as_bytes(),
    })
}

/// Prints the answer to a case.
pub(crate) fn print(rt: &HostRuntime, words: &ShortWords, line: &str) -> io::Result<()> {
    let Some(case) = case_of(line) else {
        return println!(rt; "no case");
    };
    match line_of(rt.alloc(), words, &case) {
        Ok(text) => println!(rt; "{}", String::from_utf8_lossy(rt.alloc(), &text)?),
        Err(_) => println!(rt; "no memory"),
    }
}
