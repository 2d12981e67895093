//! The parts of a slice, read.

ghost use Rattle.std.specs.Prelude.{◌≡◌, ◌+◌, ◌*◌, ◌<◌, ◌≤◌, ◌^◌, length, IfOk, IfErr, OnOk, IsSome, IsTrue, Ok, None, take, drop, is_err, false};
ghost use Rattle.std.specs.List.{All};
ghost use Rattle.pw_outside.specs.Ports.{CountsFault, Lowers, GoesOn};
ghost use Rattle.pw_outside.specs.Reading.{Gives, Fails, bytes_of, rest_of};
ghost use Rattle.pr_geom.specs.Layout.{IsSlice};
ghost use Rattle.pr_geom.specs.Blocks.{blocks_of};
ghost use Rattle.pr_alpha.specs.Alpha.{is_width, AreBelow};
ghost use Rattle.pw_bits.specs.Bits.{bits};
ghost use Rattle.pr_coeff.specs.Component.{Stands, places};
ghost use Rattle.pr_coeff.specs.Reading.{component_at};
ghost use Rattle.pr_head.specs.Faults.{told_fault, is_failed};
ghost use Rattle.pr_frame.specs.Forms.{scan_of, has_alpha, alpha_count, alpha_depth};
ghost use Rattle.pr_frame.specs.Reading.{blocks_at, IsFaultOf, IsHeldFault, values_at, alpha_at, IsAlphaFaultOf};

use crate::coded::{AlphaValues, Blocks};
use crate::scratch::Scratch;
use pr_alpha::{AlphaFault, read_alpha};
use pr_coeff::{Block, CoeffFault, Scan};
use pr_geom::{Layout, Part, SlicePlace};
use pr_head::{FrameFault, FrameHeader, FrameKind};
use pr_pieces::{ShortWords, read_component_in};
use pw_bits::Window;
use pw_outside::{ByteSource, Failed, fill};
use pw_planes::{AlphaKind, Interlace};
use std::alloc::Global;

/// The order of the coefficients of a block in frames of this mode (SMPTE RDD 36, scanned coefficients).
pub fn scan_of(interlace: Interlace) -> Scan
    ensures { places result ≡ scan_of interlace }
{
    match interlace {
        Interlace::Progressive => Scan::Progressive,
        Interlace::TopFirst | Interlace::BottomFirst => Scan::Interlaced,
    }
}

/// Whether slices have alpha.
pub(crate) fn has_alpha(alpha: AlphaKind) -> bool
    ensures { result ≡ has_alpha alpha }
{
    match alpha {
        AlphaKind::Absent => false,
        AlphaKind::Eight | AlphaKind::Sixteen => true,
    }
}

/// Why the component at an offset was not read.
fn fault_of(fault: CoeffFault, place: u64) -> FrameFault
    ensures bad { IsFaultOf fault place result }
{
    let kind = match fault {
        CoeffFault::Codeword => FrameKind::Codeword,
        CoeffFault::RunPast => FrameKind::RunPast,
        CoeffFault::LevelRange => FrameKind::LevelRange,
        CoeffFault::Failed => return FrameFault::Failed,
    };
    FrameFault::Bad { kind, place }
}

/// Skips the next `count` bytes, or fewer if the source ends.
pub(crate) fn pass<S: ByteSource>(source: &mut S, count: u64) -> Result<(), Failed>
    ensures told { IsSome (S.left source.old) → IsSome (S.left source.new) }
    ensures bytes { OnOk result (IsSome (S.left source.old) → bytes_of (S.left source.new) ≡ drop count (bytes_of (S.left source.old))) }
    ensures most { Lowers (S.most source.old) (S.most source.new) 0 }
    ensures becomes { GoesOn S.becomes source.old source.new }
    ensures cause { CountsFault (S.faults source.old) (S.faults source.new) (is_err result) }
{
    let mut window = Window::new(source, count);
    window.skip()
}

/// Fills the piece with the next bytes and returns how many were read: fewer if the source ends.
fn next_bytes<S: ByteSource>(source: &mut S, piece: &mut [u8]) -> Result<usize, FrameFault>
    ensures count { IfOk result (λ n. n ≤ length piece.new) }
    ensures bytes { IsSome (S.left source.old) → IfOk result (λ n. take n piece.new ≡ take (length piece.old) (bytes_of (S.left source.old))) }
    ensures told { IsSome (S.left source.old) → OnOk result (IsSome (S.left source.new)) }
    ensures rest { IsSome (S.left source.old) → OnOk result (bytes_of (S.left source.new) ≡ drop (length piece.old) (bytes_of (S.left source.old))) }
    ensures failed { IfErr result (λ e. told_fault e ≡ None) }
    ensures most { Lowers (S.most source.old) (S.most source.new) 0 }
    ensures becomes { GoesOn S.becomes source.old source.new }
    ensures cause { CountsFault (S.faults source.old) (S.faults source.new) (is_failed result) }
{
    Ok(fill(source, piece)?)
}

/// Reads the component of these first bytes of a piece, with eight bytes after them. The component is at the offset
/// `at`.
fn read_held(
    piece: &[u8],
    count: usize,
    at: u64,
    scan: Scan,
    blocks: &mut [Block],
    words: &ShortWords,
) -> Result<(), FrameFault>
    requires count { (0 < length blocks.old) × (length blocks.old ≤ 32) }
    requires held { count + 8 ≤ length piece.now }
    requires short { count ≤ 65535 }
    ensures stands { OnOk result (Stands (bits (take count piece.now)) blocks.new (places scan)) }
    ensures fault { IfErr result (IsHeldFault at (component_at (length blocks.old) (places scan) (bits (take count piece.now)))) }
    ensures no_source { is_failed result ≡ false }
{
    match read_component_in(piece, count, scan, blocks, words) {
        Ok(()) => Ok(()),
        Err(fault) => Err(fault_of(fault, at)),
    }
}

/// Reads the component of the next `size` bytes, at the offset `at`.
fn component<S: ByteSource>(
    source: &mut S,
    at: u64,
    size: u16,
    scan: Scan,
    blocks: &mut [Block],
    scratch: &mut Scratch,
) -> Result<(), FrameFault>
    requires count { (0 < length blocks.old) × (length blocks.old ≤ 32) }
    ensures told { IsSome (S.left source.old) → OnOk result (IsSome (S.left source.new)) }
    ensures value { IsSome (S.left source.old) → OnOk result (blocks_at (places scan) (length blocks.old) size (rest_of at (S.left source.old)) ≡ Ok (blocks.new, rest_of (at + size) (S.left source.new))) }
    ensures fault { IsSome (S.left source.old) → IfErr result (λ e. Fails told_fault e (blocks_at (places scan) (length blocks.old) size (rest_of at (S.left source.old)))) }
    ensures most { Lowers (S.most source.old) (S.most source.new) 0 }
    ensures becomes { GoesOn S.becomes source.old source.new }
    ensures cause { CountsFault (S.faults source.old) (S.faults source.new) (is_failed result) }
{
    let count = next_bytes(source, &mut scratch.piece[..usize::from(size)])?;
    read_held(&scratch.piece, count, at, scan, blocks, &scratch.words)
}

/// Reads the blocks of a part of a slice from the next `size` bytes. `slice` is its place in the layout, which is
/// that of a frame with this header.
pub(crate) fn read_part<S: ByteSource>(
    source: &mut S,
    place: &mut u64,
    size: u16,
    layout: &Layout,
    slice: &SlicePlace,
    part: Part,
    scratch: &mut Scratch,
) -> Result<Blocks, FrameFault>
    requires slice { IsSlice layout.now slice.now }
    requires room { place.old + size < 2 ^ 64 }
    ensures bytes { Gives told_fault (λ b. b) (S.left source.old) (S.left source.new) place.old place.new result (blocks_at (scan_of layout.now.interlace) (length (blocks_of layout.now.chroma part slice.now)) size) }
    ensures count { IfOk result (λ b. length b ≡ length (blocks_of layout.now.chroma part slice.now)) }
    ensures place { OnOk result (place.new ≡ place.old + size) }
    ensures most { Lowers (S.most source.old) (S.most source.new) 0 }
    ensures becomes { GoesOn S.becomes source.old source.new }
    ensures cause { CountsFault (S.faults source.old) (S.faults source.new) (is_failed result) }
{
    let count = layout.blocks(slice, part);
    let mut blocks = Vec::from_elem(scratch.alloc, [0; 64], usize::from(count))?;
    component(
        source,
        *place,
        size,
        scan_of(layout.interlace),
        &mut blocks,
        scratch,
    )?;
    *place += u64::from(size);
    Ok(Blocks::from_vec(blocks))
}

/// Why the alpha values at an offset were not read.
fn alpha_fault_of(fault: AlphaFault, place: u64) -> FrameFault
    ensures bad { IsAlphaFaultOf fault place result }
{
    let kind = match fault {
        AlphaFault::AlphaShort => FrameKind::AlphaShort,
        AlphaFault::AlphaPast => FrameKind::AlphaPast,
        AlphaFault::Failed => return FrameFault::Failed,
    };
    FrameFault::Bad { kind, place }
}

/// Reads the alpha values of the window, at the offset `at`, and skips what is left of the window.
fn read_alpha_window<S: ByteSource>(
    window: &mut Window<'_, S>,
    at: u64,
    bits: u8,
    values: &mut [u16],
) -> Result<(), FrameFault>
    requires width { IsTrue (is_width bits) }
    requires count { (0 < length values.old) × (length values.old ≤ 2 ^ 11) }
    ensures value { IsSome (S.left window.old.source.now) → OnOk result (values_at bits (length values.old) window.old.left (rest_of at (S.left window.old.source.now)) ≡ Ok (values.new, rest_of (at + window.old.left) (S.left window.new.source.now))) }
    ensures fault { IsSome (S.left window.old.source.now) → IfErr result (λ e. Fails told_fault e (values_at bits (length values.old) window.old.left (rest_of at (S.left window.old.source.now)))) }
    ensures below { OnOk result (AreBelow bits values.new) }
    ensures told { IsSome (S.left window.old.source.now) → IsSome (S.left window.new.source.now) }
    // The port of the window is the same.
    ensures same_source { window.new.source.ghost_name ≡ window.old.source.ghost_name }
    ensures most { Lowers (S.most window.old.source.now) (S.most window.new.source.now) 0 }
    ensures becomes { GoesOn S.becomes window.old.source.now window.new.source.now }
    ensures cause { CountsFault (S.faults window.old.source.now) (S.faults window.new.source.now) (is_failed result) }
{
    match read_alpha(window, bits, values) {
        Ok(()) => Ok(window.skip()?),
        Err(fault) => Err(alpha_fault_of(fault, at)),
    }
}

/// Reads the alpha values of the next `size` bytes, at the offset `at`.
fn alpha_values<S: ByteSource>(
    source: &mut S,
    at: u64,
    size: u16,
    bits: u8,
    values: &mut [u16],
) -> Result<(), FrameFault>
    requires width { IsTrue (is_width bits) }
    requires count { (0 < length values.old) × (length values.old ≤ 2 ^ 11) }
    ensures told { IsSome (S.left source.old) → OnOk result (IsSome (S.left source.new)) }
    ensures value { IsSome (S.left source.old) → OnOk result (values_at bits (length values.old) size (rest_of at (S.left source.old)) ≡ Ok (values.new, rest_of (at + size) (S.left source.new))) }
    ensures fault { IsSome (S.left source.old) → IfErr result (λ e. Fails told_fault e (values_at bits (length values.old) size (rest_of at (S.left source.old)))) }
    ensures below { OnOk result (AreBelow bits values.new) }
    ensures most { Lowers (S.most source.old) (S.most source.new) 0 }
    ensures becomes { GoesOn S.becomes source.old source.new }
    ensures cause { CountsFault (S.faults source.old) (S.faults source.new) (is_failed result) }
{
    let mut window = Window::new(source, u64::from(size));
    read_alpha_window(&mut window, at, bits, values)
}

/// Reads the alpha values of a slice, of 8 or 16 bits, from the next `size` bytes.
fn read_values<S: ByteSource>(
    alloc: Global,
    source: &mut S,
    place: &mut u64,
    size: u16,
    bits: u8,
    slice: &SlicePlace,
) -> Result<AlphaValues, FrameFault>
    requires width { IsTrue (is_width bits) }
    requires some { 0 < slice.now.width }
    requires narrow { slice.now.width ≤ 8 }
    requires room { place.old + size < 2 ^ 64 }
    ensures bytes { Gives told_fault (λ l. l) (S.left source.old) (S.left source.new) place.old place.new result (values_at bits (256 * slice.now.width) size) }
    ensures count { IfOk result (λ l. length l ≡ 256 * slice.now.width) }
    ensures values { IfOk result (All (λ value. value < 2 ^ bits)) }
    ensures place { OnOk result (place.new ≡ place.old + size) }
    ensures most { Lowers (S.most source.old) (S.most source.new) 0 }
    ensures becomes { GoesOn S.becomes source.old source.new }
    ensures cause { CountsFault (S.faults source.old) (S.faults source.new) (is_failed result) }
{
    let count = 256 * usize::from(slice.width);
    let mut values = Vec::from_elem(alloc, 0u16, count)?;
    alpha_values(source, *place, size, bits, &mut values)?;
    *place += u64::from(size);
    Ok(AlphaValues::from_vec(values))
}

/// Reads the alpha values of a slice from the next `size` bytes, in a frame of this kind of alpha; none if the
/// frame has no alpha.
pub(crate) fn read_alpha_part<S: ByteSource>(
    alloc: Global,
    source: &mut S,
    place: &mut u64,
    size: u16,
    alpha: AlphaKind,
    slice: &SlicePlace,
) -> Result<AlphaValues, FrameFault>
    requires some { 0 < slice.now.width }
    requires narrow { slice.now.width ≤ 8 }
    requires room { place.old + size < 2 ^ 64 }
    ensures bytes { Gives told_fault (λ l. l) (S.left source.old) (S.left source.new) place.old place.new result (alpha_at alpha (alpha_count alpha slice.now) size) }
    ensures count { IfOk result (λ l. length l ≡ alpha_count alpha slice.now) }
    ensures values { IfOk result (All (λ value. value < 2 ^ alpha_depth alpha)) }
    ensures place { OnOk result (place.new ≤ place.old + size) }
    ensures most { Lowers (S.most source.old) (S.most source.new) 0 }
    ensures becomes { GoesOn S.becomes source.old source.new }
    ensures cause { CountsFault (S.faults source.old) (S.faults source.new) (is_failed result) }
{
    match alpha {
        AlphaKind::Absent => Ok(AlphaValues::from_vec(Vec::new(alloc))),
        AlphaKind::Eight => read_values(alloc, source, place, size, 8, slice),
        AlphaKind::Sixteen => read_values(alloc, source, place, size, 16, slice),
    }
}
