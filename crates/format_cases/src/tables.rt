//! Tables of pictures in memory: a picture's width, height, chroma format, depth, bits of alpha and interlace mode, the least and the
//! greatest index, the logarithm of the slices' size, the matrices and the samples in hexadecimal, two bytes each. Of each the fixed bytes
//! are printed, and the entries of every slice.

ghost use Rattle.std.specs.Prelude.{◌≡◌, ◌<◌, ◌≤◌, ◌^◌, IfSome};
ghost use Rattle.std.specs.List.{All};
ghost use Rattle.pw_planes.specs.Samples.{sample_bits};
ghost use Rattle.rate_build.specs.Coefficients.{HasDepth};
ghost use Rattle.rate_build.specs.Laws.{HasAlpha};

use gate_words::bytes_of;
use pr_geom::Layout;
use pr_quant::laws::named_weights_are_in_range;
use pr_quant::{Matrix, Weights};
use pw_planes::{AlphaKind, Chroma, Depth, Interlace, Picture, Plane};
use pw_text::read_decimal;
use rate_build::{build_table, coefficients_of};
use rate_table::FrameTable;
use std::alloc::Global;
use std::io;

/// A number of a line.
fn number(word: &str) -> Option<u16> {
    let value = read_decimal(word.as_bytes()).ok()?;
    u16::try_from(value).ok()
}

fn small(word: &str) -> Option<u8> {
    u8::try_from(number(word)?).ok()
}

fn limit(depth: Depth) -> u32
    ensures { result ≡ 2 ^ sample_bits depth }
{
    match depth {
        Depth::D8 => 256,
        Depth::D10 => 1024,
        Depth::D12 => 4096,
    }
}

/// A plane of samples of two bytes each, the low byte first; each is below a limit.
fn plane(alloc: Global, bytes: &[u8], size: (u16, u16), limit: u32) -> Option<Plane>
    ensures { IfSome result (λ p. All (λ sample. sample < limit) p.samples) }
{
    let (width, height) = (u32::from(size.0), u32::from(size.1));
    if width == 0 || 64 < width || height == 0 || 64 < height {
        return None;
    }
    let mut samples = Vec::new(alloc);
    for i in 0..bytes.len() / 2 {
        let sample = u16::from(bytes[2 * i]) + 256 * u16::from(bytes[2 * i + 1]);
        if u32::from(sample) >= limit {
            return None;
        }
        samples.push(sample).ok()?;
    }
    if samples.len() == (height * width) as usize {
        Some(Plane::from_samples(width, height, samples))
    } else {
        None
    }
}

/// The columns of a chroma plane in a picture of `width` columns.
fn chroma_columns(chroma: Chroma, width: u16) -> u16
    requires { width ≤ 64 }
    ensures { result ≤ 64 }
{
    match chroma {
        Chroma::C422 => width.div_ceil(2),
        Chroma::C444 => width,
    }
}

/// A plane of alpha, where there is one.
fn alpha_plane(
    alloc: Global,
    bytes: &[u8],
    size: (u16, u16),
    alpha: AlphaKind,
) -> Option<Option<Plane>>
    ensures { IfSome result (HasAlpha alpha) }
{
    match alpha {
        AlphaKind::Absent => Some(None),
        AlphaKind::Eight => Some(Some(plane(alloc, bytes, size, 256)?)),
        AlphaKind::Sixteen => Some(Some(plane(alloc, bytes, size, 65536)?)),
    }
}

/// A picture of `size`, columns and rows, from its planes one after another.
fn picture(
    alloc: Global,
    bytes: &[u8],
    size: (u16, u16),
    chroma: Chroma,
    depth: Depth,
    alpha: AlphaKind,
) -> Option<Picture>
    ensures depth { IfSome result (λ p. (p.depth ≡ depth) × HasDepth p.y depth × HasDepth p.cb depth × HasDepth p.cr depth) }
    ensures form { IfSome result (λ p. (p.chroma ≡ chroma) × HasAlpha alpha p.alpha) }
{
    let (width, height) = size;
    if 64 < width || 64 < height {
        return None;
    }
    let columns = chroma_columns(chroma, width);
    let limit = limit(depth);
    let luma = 2 * usize::from(width * height);
    let second = luma + 2 * usize::from(columns * height);
    let third = second + 2 * usize::from(columns * height);
    let y = plane(alloc, bytes.get(..luma)?, size, limit)?;
    let cb = plane(alloc, bytes.get(luma..second)?, (columns, height), limit)?;
    let cr = plane(alloc, bytes.get(second..third)?, (columns, height), limit)?;
    let alpha = alpha_plane(alloc, bytes.get(third..)?, size, alpha)?;
    Some(Picture {
        y,
        cb,
        cr,
        alpha,
        chroma,
        depth,
    })
}

/// The table of a picture.
fn table_of(
    alloc: Global,
    picture: &Picture,
    layout: &Layout,
    alpha: AlphaKind,
    matrix: Matrix,
    range: (u8, u8),
) -> Option<FrameTable>
    requires form { (picture.now.chroma ≡ layout.now.chroma) × HasAlpha alpha picture.now.alpha }
    requires depth { HasDepth picture.now.y picture.now.depth × HasDepth picture.now.cb picture.now.depth × HasDepth picture.now.cr picture.now.depth }
{
    let (lo, hi) = range;
    if lo == 0 || hi < lo || 224 < hi {
        return None;
    }
    if !picture.has_size(u32::from(layout.width), u32::from(layout.height)) {
        return None;
    }
    let coefficients = coefficients_of(alloc, picture, layout, alpha).ok()?;
    named_weights_are_in_range();
    let weights = Weights::named(matrix);
    build_table(alloc, &coefficients, &weights, lo, hi, 1000).ok()
}

fn chroma_of(word: &str) -> Option<Chroma> {
    match word {
        "422" => Some(Chroma::C422),
        "444" => Some(Chroma::C444),
        _ => None,
    }
}

fn interlace_of(word: &str) -> Option<Interlace> {
    match word {
        "p" => Some(Interlace::Progressive),
        "t" => Some(Interlace::TopFirst),
        "b" => Some(Interlace::BottomFirst),
        _ => None,
    }
}

fn depth_of(word: &str) -> Option<Depth> {
    match word {
        "8" => Some(Depth::D8),
        "10" => Some(Depth::D10),
        "12" => Some(Depth::D12),
        _ => None,
    }
}

fn alpha_of(word: &str) -> Option<AlphaKind> {
    match word {
        "0" => Some(AlphaKind::Absent),
        "8" => Some(AlphaKind::Eight),
        "16" => Some(AlphaKind::Sixteen),
        _ => None,
    }
}

fn matrix_of(word: &str) -> Option<Matrix> {
    match word {
        "flat" => Some(Matrix::Flat),
        "steep" => Some(Matrix::Steep),
        _ => None,
    }
}

/// The table that a line asks for.
fn asked(alloc: Global, words: &[&str]) -> Option<FrameTable> {
    if words.len() != 11 {
        return None;
    }
    let size = (number(words[0])?, number(words[1])?);
    let chroma = chroma_of(words[2])?;
    let depth = depth_of(words[3])?;
    let alpha = alpha_of(words[4])?;
    let interlace = interlace_of(words[5])?;
    let range = (small(words[6])?, small(words[7])?);
    let log2 = small(words[8])?;
    let matrix = matrix_of(words[9])?;
    if 3 < log2 {
        return None;
    }
    let Ok(layout) = Layout::new(size.0, size.1, log2, interlace, chroma) else {
        return None;
    };
    let bytes = bytes_of(alloc, words[10].as_bytes()).ok()?;
    let picture = picture(alloc, &bytes, size, chroma, depth, alpha)?;
    table_of(alloc, &picture, &layout, alpha, matrix, range)
}

/// Prints the fixed bytes and the entries.
fn print_table(rt: &HostRuntime, table: &FrameTable) -> io::Result<()> {
    print!(rt; "{}", table.fixed)?;
    let mut separator = " ";
    for slice in table.slices.as_slice() {
        for entry in slice.entries() {
            print!(rt; "{separator}{}/{}", entry.size, entry.error)?;
            separator = ",";
        }
        separator = ";";
    }
    println!(rt; "")
}

/// Prints the answer to a case.
pub(crate) fn print(rt: &HostRuntime, line: &str) -> io::Result<()> {
    let mut words = Vec::new(rt.alloc());
    for word in line.split(' ') {
        words.push(word)?;
    }
    match asked(rt.alloc(), &words) {
        Some(table) => print_table(rt, &table),
        None => println!(rt; "no table"),
    }
}
