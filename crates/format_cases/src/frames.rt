//! Frames in memory, in hexadecimal: of each its size, its form, its indices, a hash of all that it stands for and hashes of the
//! picture that it shows at each depth, or its first fault.

ghost use Rattle.pr_frame.specs.Coded.{IsCodedFrame};

use gate_words::{HASH_OF_NONE, bytes_of, hash_of, hash_on, put_bytes};
use pr_coeff::Block;
use pr_frame::{CodedFrame, CodedSlice, Shown, read_frame, read_shown, show};
use pr_head::{FrameFault, FrameHeader};
use pw_outside::{MemSource, NoMemory};
use pw_planes::{AlphaKind, Chroma, Depth, Interlace, Picture};
use pw_text::{put_decimal, put_words};
use std::io;

/// Appends words and a number.
fn put_pair(text: &mut Vec<u8>, words: &str, number: u64) -> Result<(), NoMemory> {
    put_words(text, words)?;
    put_decimal(text, number)
}

/// Appends weights: one for all, or all 64.
fn put_weights(text: &mut Vec<u8>, weights: &[u8; 64]) -> Result<(), NoMemory> {
    let first = weights[0];
    if weights.iter().all(|weight| *weight == first) {
        put_decimal(text, u64::from(first))?;
        return put_words(text, "*64");
    }
    put_bytes(text, weights)
}

/// Appends size and form.
fn put_form(text: &mut Vec<u8>, header: &FrameHeader) -> Result<(), NoMemory> {
    put_decimal(text, u64::from(header.width))?;
    put_pair(text, "x", u64::from(header.height))?;
    put_words(text, chroma_name(header.chroma))?;
    put_words(text, mode_name(header.interlace))?;
    put_pair(text, " alpha ", alpha_bits(header.alpha))
}

fn chroma_name(chroma: Chroma) -> &'static str {
    match chroma {
        Chroma::C422 => " 422 ",
        Chroma::C444 => " 444 ",
    }
}

fn mode_name(interlace: Interlace) -> &'static str {
    match interlace {
        Interlace::Progressive => "p",
        Interlace::TopFirst => "t",
        Interlace::BottomFirst => "b",
    }
}

fn alpha_bits(alpha: AlphaKind) -> u64 {
    match alpha {
        AlphaKind::Absent => 0,
        AlphaKind::Eight => 8,
        AlphaKind::Sixteen => 16,
    }
}

/// Appends the line of the header's version, encoder, size and form.
fn put_shape(text: &mut Vec<u8>, header: &FrameHeader) -> Result<(), NoMemory> {
    put_pair(text, "version ", u64::from(header.version))?;
    put_words(text, " encoder ")?;
    put_bytes(text, &header.encoder)?;
    put_pair(text, " width ", u64::from(header.width))?;
    put_pair(text, " height ", u64::from(header.height))?;
    put_words(text, " chroma")?;
    put_words(text, chroma_name(header.chroma))?;
    put_words(text, "interlace ")?;
    put_words(text, mode_name(header.interlace))
}

/// Appends the line of the header.
fn put_header(text: &mut Vec<u8>, header: &FrameHeader) -> Result<(), NoMemory> {
    put_shape(text, header)?;
    put_pair(text, " aspect ", u64::from(header.aspect))?;
    put_pair(text, " rate ", u64::from(header.rate))?;
    put_pair(text, " primaries ", u64::from(header.primaries))?;
    put_pair(text, " transfer ", u64::from(header.transfer))?;
    put_pair(text, " matrix ", u64::from(header.matrix))?;
    put_pair(text, " alpha ", alpha_bits(header.alpha))?;
    put_words(text, " luma ")?;
    put_weights(text, &header.luma)?;
    put_words(text, " chromaweights ")?;
    put_weights(text, &header.chroma_weights)?;
    put_words(text, "\n")
}

/// Appends the values of a block that aren't 0, each behind its place.
fn put_block(text: &mut Vec<u8>, block: &Block) -> Result<(), NoMemory> {
    let mut separator = "";
    for place in 0..64 {
        let value = block[place];
        if value != 0 {
            put_words(text, separator)?;
            put_decimal(text, place as u64)?;
            put_words(text, if value < 0 { "=-" } else { "=" })?;
            put_decimal(text, u64::from(value.unsigned_abs()))?;
            separator = ",";
        }
    }
    if separator == "" {
        put_words(text, "-")?;
    }
    Ok(())
}

/// Appends the line of a component.
fn put_blocks(text: &mut Vec<u8>, name: &str, blocks: &[Block]) -> Result<(), NoMemory> {
    put_words(text, name)?;
    let mut separator = " ";
    for block in blocks {
        put_words(text, separator)?;
        put_block(text, block)?;
        separator = "/";
    }
    put_words(text, "\n")
}

/// Appends a value, and how often it stands in a row where that is more than once.
fn put_run(text: &mut Vec<u8>, value: u16, count: u64) -> Result<(), NoMemory> {
    put_decimal(text, u64::from(value))?;
    if 1 < count {
        put_pair(text, "*", count)?;
    }
    Ok(())
}

/// Appends the line of the alpha values, in rows of equal values.
fn put_values(text: &mut Vec<u8>, values: &[u16]) -> Result<(), NoMemory> {
    put_words(text, "A ")?;
    let mut last = 0;
    let mut count: u64 = 0;
    for value in values {
        if 0 < count && *value != last {
            put_run(text, last, count)?;
            put_words(text, ",")?;
            count = 0;
        }
        last = *value;
        count = count.saturating_add(1);
    }
    put_run(text, last, count)?;
    put_words(text, "\n")
}

/// Appends the lines of a slice.
fn put_slice(text: &mut Vec<u8>, slice: &CodedSlice) -> Result<(), NoMemory> {
    put_pair(text, "slice index ", u64::from(slice.index))?;
    put_words(text, "\n")?;
    put_blocks(text, "Y", slice.y.as_slice())?;
    put_blocks(text, "Cb", slice.cb.as_slice())?;
    put_blocks(text, "Cr", slice.cr.as_slice())?;
    let values = slice.alpha.as_slice();
    if values.is_empty() {
        return Ok(());
    }
    put_values(text, values)
}

/// Appends all that a frame stands for.
fn put_frame(text: &mut Vec<u8>, frame: &CodedFrame) -> Result<(), NoMemory> {
    put_header(text, &frame.header)?;
    for picture in frame.pictures.as_slice() {
        put_pair(text, "picture log2 ", u64::from(picture.log2))?;
        put_pair(text, " slices ", picture.slices.as_slice().len() as u64)?;
        put_words(text, "\n")?;
        for slice in picture.slices.as_slice() {
            put_slice(text, slice)?;
        }
    }
    Ok(())
}

/// Appends the indices of all slices.
fn put_indices(text: &mut Vec<u8>, frame: &CodedFrame) -> Result<(), NoMemory> {
    let mut separator = " indices ";
    for picture in frame.pictures.as_slice() {
        for slice in picture.slices.as_slice() {
            put_words(text, separator)?;
            put_decimal(text, u64::from(slice.index))?;
            separator = ",";
        }
    }
    Ok(())
}

/// Appends a hash in hexadecimal.
fn put_hash(text: &mut Vec<u8>, hash: u64) -> Result<(), NoMemory> {
    put_bytes(text, &hash.to_be_bytes())
}

/// The hash, gone on with samples of two bytes each, the low one first.
fn hash_with(hash: u64, samples: &[u16]) -> u64 {
    let mut hash = hash;
    for sample in samples {
        hash = hash_on(hash, &sample.to_le_bytes());
    }
    hash
}

/// The hash of a picture's planes.
fn picture_hash(picture: &Picture) -> u64 {
    let mut hash = hash_with(HASH_OF_NONE, picture.y.samples());
    hash = hash_with(hash, picture.cb.samples());
    hash = hash_with(hash, picture.cr.samples());
    match &picture.alpha {
        Some(alpha) => hash_with(hash, alpha.samples()),
        None => hash,
    }
}

/// Appends what is printed of a frame.
fn put_answer(text: &mut Vec<u8>, whole: &[u8], frame: &CodedFrame) -> Result<(), NoMemory> {
    put_words(text, "ok ")?;
    put_form(text, &frame.header)?;
    put_indices(text, frame)?;
    put_words(text, " dump ")?;
    put_hash(text, hash_of(whole))
}

/// Appends the hashes of the pictures that a frame shows at 8 and at 10 bits.
fn put_pictures(rt: &HostRuntime, text: &mut Vec<u8>, frame: &CodedFrame) -> Result<(), NoMemory>
    requires { IsCodedFrame frame.now }
{
    put_words(text, " shown ")?;
    put_hash(text, picture_hash(&show(rt.alloc(), frame, Depth::D8)?))?;
    put_words(text, " ")?;
    put_hash(text, picture_hash(&show(rt.alloc(), frame, Depth::D10)?))
}

/// Appends the hash of the picture that was read at once, at 12 bits.
fn put_shown(text: &mut Vec<u8>, shown: &Shown) -> Result<(), NoMemory> {
    put_words(text, " ")?;
    put_hash(text, picture_hash(&shown.picture))
}

/// Whether what was told of a sample that was shown at once is what its frame has.
fn is_told(frame: &CodedFrame, shown: &Shown) -> bool {
    let mut least = 255;
    let mut greatest = 0;
    for picture in frame.pictures.as_slice() {
        for slice in picture.slices.as_slice() {
            least = slice.index.min(least);
            greatest = slice.index.max(greatest);
        }
    }
    least == shown.least_index
        && greatest == shown.greatest_index
        && frame.header.width == shown.header.width
        && frame.header.height == shown.header.height
}

/// What is printed of a frame that was read, and of its sample that was shown at once.
fn text_of(rt: &HostRuntime, frame: &CodedFrame, shown: &Shown) -> Result<Vec<u8>, NoMemory>
    requires { IsCodedFrame frame.now }
{
    let mut whole = Vec::new(rt.alloc());
    let mut line = Vec::new(rt.alloc());
    put_frame(&mut whole, frame)?;
    put_answer(&mut line, &whole, frame)?;
    put_pictures(rt, &mut line, frame)?;
    put_shown(&mut line, shown)?;
    if !is_told(frame, shown) {
        put_words(&mut line, " told otherwise")?;
    }
    Ok(line)
}

/// The line of a sample, of which a copy is shown at once.
fn line_of(
    rt: &HostRuntime,
    sample: Vec<u8>,
    copy: Vec<u8>,
) -> io::Result<Result<Vec<u8>, FrameFault>> {
    let alloc = rt.alloc();
    let size = match u32::try_from(sample.len()) {
        Ok(size) if copy.len() == sample.len() => size,
        _ => return Ok(Err(FrameFault::NoMemory)),
    };
    let mut source = MemSource::new(sample, 7, Vec::new(alloc));
    let frame = match read_frame(alloc, &mut source, size) {
        Ok(frame) => frame,
        Err(fault) => return Ok(Err(fault)),
    };
    let mut source = MemSource::new(copy, 5, Vec::new(alloc));
    let shown = match read_shown(alloc, &mut source, size, Depth::D12) {
        Ok(shown) => shown,
        Err(fault) => return Ok(Err(fault)),
    };
    match text_of(rt, &frame, &shown) {
        Ok(line) => Ok(Ok(line)),
        Err(_) => Ok(Err(FrameFault::NoMemory)),
    }
}

fn print_answer(rt: &HostRuntime, answer: Result<Vec<u8>, FrameFault>) -> io::Result<()> {
    match answer {
        Ok(line) => println!(rt; "{}", String::from_utf8_lossy(rt.alloc(), &line)?),
        Err(FrameFault::Bad { kind, place }) => println!(rt; "fault {kind:?} {place}"),
        Err(FrameFault::Failed) => println!(rt; "failed"),
        Err(FrameFault::NoMemory) => println!(rt; "no memory"),
    }
}

/// Prints the answer to a case.
pub(crate) fn print(rt: &HostRuntime, line: &str) -> io::Result<()> {
    let sample = bytes_of(rt.alloc(), line.as_bytes())?;
    let copy = sample.to_vec(rt.alloc())?;
    let answer = line_of(rt, sample, copy)?;
    print_answer(rt, answer)
}
