//! Tables that were worked out outside of this crate.

ghost use Rattle.std.specs.Prelude.{◌≡◌, ◌<◌, ◌^◌};
ghost use Rattle.pw_planes.specs.Samples.{sample_bits};
ghost use Rattle.std.specs.List.{All};
ghost use Rattle.pr_geom.specs.Layout.{IsLayoutOf};
ghost use Rattle.pr_dct.specs.Transform.{AreWithin};
ghost use Rattle.pr_quant.specs.Quantised.{greatest_coefficient};
ghost use Rattle.pr_coeff.specs.Component.{AllSmall, AreBlocks};
ghost use Rattle.pr_frame.specs.Coded.{IsWritableHeader};
ghost use Rattle.rate_build.specs.Chosen.{AreTablesOf};
ghost use Rattle.rate_build.specs.Coding.{IsHeaderOf, IsIndex, weights_in};
ghost use Rattle.rate_build.specs.Coefficients.{HasDepth};
ghost use Rattle.rate_build.specs.Laws.{HasAlpha};
ghost use Rattle.rate_build.specs.Measures.{ArePart};

use pr_coeff::{Block, Scan, component_length};
use pr_frame::{frame_length, write_frame};
use pr_geom::Layout;
use pr_head::{FrameHeader, own_header};
use pr_quant::laws::named_weights_are_in_range;
use pr_quant::{Matrix, Weights, multipliers_of, quantise, squared_error};
use pw_outside::MemSink;
use pw_planes::{AlphaKind, Chroma, Depth, Interlace, Picture, Plane};
use rate_build::*;
use rate_table::{Entry, FrameTable, total};
use std::alloc::Global;
use std::process::Abort;

/// The form of a picture and of its table.
#[derive(Clone, Copy)]
struct Form {
    chroma: Chroma,
    interlace: Interlace,
    depth: Depth,
    alpha: AlphaKind,
    log2: u8,
    matrix: Matrix,
}

/// The form of progressive pictures in 4:2:2 without alpha.
fn plain(depth: Depth, log2: u8, matrix: Matrix) -> Form {
    Form {
        chroma: Chroma::C422,
        interlace: Interlace::Progressive,
        depth,
        alpha: AlphaKind::Absent,
        log2,
        matrix,
    }
}

fn limit(depth: Depth) -> u32
    ensures { result ≡ 2 ^ sample_bits depth }
{
    match depth {
        Depth::D8 => 256,
        Depth::D10 => 1024,
        Depth::D12 => 4096,
    }
}

/// A plane of samples of two bytes each, the low byte first; each is below a limit.
fn plane(rt: &impl Abort, alloc: Global, bytes: &[u8], size: (u32, u32), limit: u32) -> Plane
    ensures { All (λ sample. sample < limit) result.samples }
{
    let (width, height) = size;
    assert!(rt; 1 <= width && width <= 64 && 1 <= height && height <= 64);
    let mut samples = Vec::new(alloc);
    for i in 0..bytes.len() / 2 {
        let sample = u16::from(bytes[2 * i]) + 256 * u16::from(bytes[2 * i + 1]);
        assert!(rt; u32::from(sample) < limit);
        samples.push(sample).expect(rt, "memory");
    }
    assert!(rt; samples.len() == (height * width) as usize);
    Plane::from_samples(width, height, samples)
}

/// A plane of alpha, where there is one.
fn alpha_plane(
    rt: &impl Abort,
    alloc: Global,
    bytes: &[u8],
    size: (u32, u32),
    alpha: AlphaKind,
) -> Option<Plane>
    ensures { HasAlpha alpha result }
{
    match alpha {
        AlphaKind::Absent => None,
        AlphaKind::Eight => Some(plane(rt, alloc, bytes, size, 256)),
        AlphaKind::Sixteen => Some(plane(rt, alloc, bytes, size, 65536)),
    }
}

/// A picture of so many columns and rows, plane behind plane.
fn picture(rt: &impl Abort, alloc: Global, bytes: &[u8], size: (u32, u32), form: &Form) -> Picture
    ensures depth { (result.depth ≡ form.now.depth) × HasDepth result.y result.depth × HasDepth result.cb result.depth × HasDepth result.cr result.depth }
    ensures form { (result.chroma ≡ form.now.chroma) × HasAlpha form.now.alpha result.alpha }
{
    let (width, height) = size;
    let depth = form.depth;
    let limit = limit(depth);
    assert!(rt; width <= 64 && height <= 64);
    let columns = form.chroma.plane_width(width);
    assert!(rt; columns <= 64);
    let luma = 2 * (width * height) as usize;
    let chroma = 2 * (columns * height) as usize;
    let behind = luma + 2 * chroma;
    let y = bytes.get(..luma).unwrap_or(&[]);
    let cb = bytes.get(luma..luma + chroma).unwrap_or(&[]);
    let cr = bytes.get(luma + chroma..behind).unwrap_or(&[]);
    let alpha = bytes.get(behind..).unwrap_or(&[]);
    Picture {
        y: plane(rt, alloc, y, size, limit),
        cb: plane(rt, alloc, cb, (columns, height), limit),
        cr: plane(rt, alloc, cr, (columns, height), limit),
        alpha: alpha_plane(rt, alloc, alpha, size, form.alpha),
        chroma: form.chroma,
        depth,
    }
}

/// The coefficients of a picture.
fn coefficients(
    rt: &impl Abort,
    alloc: Global,
    picture: &Picture,
    size: (u16, u16),
    form: &Form,
) -> Coefficients
    requires form { (picture.now.chroma ≡ form.now.chroma) × HasAlpha form.now.alpha picture.now.alpha }
    requires depth { HasDepth picture.now.y picture.now.depth × HasDepth picture.now.cb picture.now.depth × HasDepth picture.now.cr picture.now.depth }
    ensures alpha { result.alpha ≡ form.now.alpha }
    ensures layout { IsLayoutOf result.layout size.0 size.1 form.now.log2 form.now.interlace form.now.chroma }
{
    let (width, height) = size;
    assert!(rt; form.log2 <= 3);
    assert!(rt; picture.has_size(u32::from(width), u32::from(height)));
    match Layout::new(width, height, form.log2, form.interlace, form.chroma) {
        Ok(layout) => coefficients_of(alloc, picture, &layout, form.alpha).expect(rt, "memory"),
        Err(_) => rt.abort(),
    }
}

/// The table of a picture, with a budget of 1,000 bytes.
fn table(
    rt: &impl Abort,
    alloc: Global,
    bytes: &[u8],
    (width, height): (u16, u16),
    form: &Form,
    (lo, hi): (u8, u8),
) -> FrameTable {
    let size = (u32::from(width), u32::from(height));
    let picture = picture(rt, alloc, bytes, size, form);
    let coefficients = coefficients(rt, alloc, &picture, (width, height), form);
    assert!(rt; 1 <= lo && lo <= hi && hi <= 224);
    named_weights_are_in_range();
    let weights = Weights::named(form.matrix);
    build_table(alloc, &coefficients, &weights, lo, hi, 1000).expect(rt, "memory")
}

/// A slice has these sizes and errors, from index `lo` on.
fn has_entries(rt: &impl Abort, table: &FrameTable, slice: usize, lo: u8, want: &[(u16, u64)]) {
    assert!(rt; slice < table.slices.as_slice().len());
    let entries = table.slices.as_slice()[slice].entries();
    assert_eq!(rt; entries.len(), want.len());
    let mut index = lo;
    for (entry, (size, error)) in entries.iter().zip(want) {
        assert_eq!(rt;
            *entry,
            Entry {
                index,
                size: *size,
                error: *error
            }
        );
        assert!(rt; index < 255);
        index += 1;
    }
}

#[test]
fn builds_the_table_of_a_grey_picture(rt: HostRuntime) {
    let mut bytes = [0; 1024];
    for i in 0..512 {
        bytes[2 * i + 1] = 2;
    }
    let form = plain(Depth::D10, 3, Matrix::Flat);
    let table = table(&rt, rt.alloc(), &bytes, (16, 16), &form, (1, 3));
    assert_eq!(rt; (table.budget, table.fixed), (1000, 166));
    assert_eq!(rt; table.slices.as_slice().len(), 1);
    has_entries(&rt, &table, 0, 1, &[(12, 0), (12, 0), (12, 0)]);
}

#[test]
fn builds_the_table_of_9_by_2(rt: HostRuntime) {
    let bytes = b"\xe5\x00\xe5\x00\xe5\x00\xe5\x00\x1a\x00\x1a\x00\x1a\x00\x1a\x00\xe5\x00\xe5\x00\
        \xe5\x00\xe5\x00\xe5\x00\x1a\x00\x1a\x00\x1a\x00\x1a\x00\xe5\x00\xac\x00\xac\x00\
        \xac\x00\xac\x00\x53\x00\xac\x00\xac\x00\xac\x00\xac\x00\x53\x00\x5e\x00\x5e\x00\
        \x5e\x00\x5e\x00\xa1\x00\x5e\x00\x5e\x00\x5e\x00\x5e\x00\xa1\x00";
    let size = (9, 2);
    let form = plain(Depth::D8, 2, Matrix::Steep);
    let table = table(&rt, rt.alloc(), bytes, size, &form, (1, 1));
    assert_eq!(rt; table.fixed, 166);
    assert_eq!(rt; table.slices.as_slice().len(), 1);
    has_entries(&rt, &table, 0, 1, &[(81, 144)]);
}

#[test]
fn builds_the_table_of_1_by_2(rt: HostRuntime) {
    let bytes = b"\x3f\x01\x55\x01\x64\x01\x3d\x01\x4e\x01\x7a\x01";
    let size = (1, 2);
    let form = plain(Depth::D10, 1, Matrix::Flat);
    let table = table(&rt, rt.alloc(), bytes, size, &form, (1, 4));
    assert_eq!(rt; table.fixed, 166);
    assert_eq!(rt; table.slices.as_slice().len(), 1);
    has_entries(
        &rt,
        &table,
        0,
        1,
        &[(68, 28), (62, 156), (59, 332), (56, 940)],
    );
}

#[test]
fn builds_the_table_of_4_by_4(rt: HostRuntime) {
    let bytes = b"\x38\x01\x38\x01\x38\x01\x38\x01\x38\x01\x38\x01\x38\x01\x38\x01\x38\x01\x38\x01\
        \x38\x01\x38\x01\x38\x01\x38\x01\x38\x01\x38\x01\x0e\x03\x0e\x03\x0e\x03\x0e\x03\
        \x0e\x03\x0e\x03\x0e\x03\x0e\x03\x1d\x00\x1d\x00\x1d\x00\x1d\x00\x1d\x00\x1d\x00\
        \x1d\x00\x1d\x00";
    let size = (4, 4);
    let form = plain(Depth::D10, 3, Matrix::Steep);
    let table = table(&rt, rt.alloc(), bytes, size, &form, (200, 215));
    assert_eq!(rt; table.fixed, 166);
    assert_eq!(rt; table.slices.as_slice().len(), 1);
    has_entries(
        &rt,
        &table,
        0,
        200,
        &[
            (12, 925826),
            (12, 749250),
            (12, 713986),
            (12, 820034),
            (12, 1067394),
            (12, 1456066),
            (12, 1986050),
            (12, 2657346),
            (12, 3469954),
            (12, 4423874),
            (12, 5161602),
            (12, 4805250),
            (12, 4324994),
            (12, 3954306),
            (12, 3693186),
            (12, 3541634),
        ],
    );
}

#[test]
fn builds_the_table_of_20_by_1(rt: HostRuntime) {
    let bytes = b"\x29\x08\xba\x08\x4b\x09\xdc\x09\x6d\x0a\xfe\x0a\x8f\x0b\x20\x0c\xb1\x0c\x42\x0d\
        \xd3\x0d\x64\x0e\xf5\x0e\x86\x0f\xff\x0f\xff\x0f\xff\x0f\xff\x0f\xff\x0f\xff\x0f\
        \xce\x08\x64\x08\xfa\x07\x90\x07\x26\x07\xbc\x06\x52\x06\xe8\x05\x7e\x05\x14\x05\
        \x1e\x09\x9d\x08\x1c\x08\x9b\x07\x1a\x07\x99\x06\x18\x06\x97\x05\x16\x05\x95\x04";
    let size = (20, 1);
    let form = plain(Depth::D12, 0, Matrix::Flat);
    let table = table(&rt, rt.alloc(), bytes, size, &form, (2, 2));
    assert_eq!(rt; table.fixed, 168);
    assert_eq!(rt; table.slices.as_slice().len(), 2);
    has_entries(&rt, &table, 0, 2, &[(77, 324)]);
    has_entries(&rt, &table, 1, 2, &[(51, 184)]);
}

#[test]
fn builds_the_table_of_1_by_9(rt: HostRuntime) {
    let bytes = b"\x41\x06\xff\x07\x41\x06\xff\x07\x41\x06\xff\x07\x41\x06\xff\x07\x41\x06\xfb\x07\
        \xff\x07\xfb\x07\xff\x07\xfb\x07\xff\x07\xfb\x07\xff\x07\xfb\x07\x71\x07\xff\x07\
        \x71\x07\xff\x07\x71\x07\xff\x07\x71\x07\xff\x07\x71\x07";
    let size = (1, 9);
    let form = plain(Depth::D12, 1, Matrix::Steep);
    let table = table(&rt, rt.alloc(), bytes, size, &form, (126, 132));
    assert_eq!(rt; table.fixed, 166);
    assert_eq!(rt; table.slices.as_slice().len(), 1);
    has_entries(
        &rt,
        &table,
        0,
        126,
        &[
            (19, 1677608),
            (17, 1686844),
            (17, 1696448),
            (16, 1644512),
            (16, 1657152),
            (16, 1596128),
            (16, 1504448),
        ],
    );
}

#[test]
fn builds_the_table_of_2_by_1(rt: HostRuntime) {
    let bytes = b"\xec\x01\xe9\x01\x06\x09\x71\x08";
    let size = (2, 1);
    let form = plain(Depth::D12, 0, Matrix::Flat);
    let table = table(&rt, rt.alloc(), bytes, size, &form, (1, 7));
    assert_eq!(rt; table.fixed, 166);
    assert_eq!(rt; table.slices.as_slice().len(), 1);
    has_entries(
        &rt,
        &table,
        0,
        1,
        &[
            (21, 22),
            (15, 166),
            (13, 214),
            (13, 390),
            (13, 486),
            (13, 838),
            (13, 662),
        ],
    );
}

/// The indices are from 1 to 224.
fn assert_indices(rt: &impl Abort, choice: &[u8])
    ensures { All IsIndex choice.now }
{
    for index in choice {
        assert!(rt; 1 <= *index && *index <= 224);
    }
}

/// The frame of a picture, each slice quantised at its own index.
fn frame(
    rt: &impl Abort,
    alloc: Global,
    bytes: &[u8],
    (width, height): (u16, u16),
    form: &Form,
    choice: &[u8],
) -> (u64, MemSink) {
    let size = (u32::from(width), u32::from(height));
    let picture = picture(rt, alloc, bytes, size, form);
    let coefficients = coefficients(rt, alloc, &picture, (width, height), form);
    named_weights_are_in_range();
    let weights = Weights::named(form.matrix);
    let header = own_header(
        width,
        height,
        form.chroma,
        form.interlace,
        form.alpha,
        &weights,
    );
    assert!(rt; choice.len() == coefficients.slices.as_slice().len());
    assert_indices(rt, choice);
    let frame = coded(alloc, &coefficients, &header, choice).expect(rt, "memory");
    let length = frame_length(&frame);
    assert!(rt; length < 1000);
    let mut sink = MemSink::new(alloc, 1000, 4096, Vec::new(alloc)).expect(rt, "memory");
    assert!(rt; write_frame(&frame, &mut sink).is_ok());
    (length, sink)
}

#[test]
fn writes_the_frame_of_a_grey_picture(rt: HostRuntime) {
    let mut bytes = [0; 1024];
    for i in 0..512 {
        bytes[2 * i + 1] = 2;
    }
    let form = plain(Depth::D10, 3, Matrix::Flat);
    let (length, sink) = frame(&rt, rt.alloc(), &bytes, (16, 16), &form, &[1]);
    assert_eq!(rt; length, 178);
    let mut want = [4; 178];
    want[..28].copy_from_slice(
        b"\0\0\0\xb2icpf\0\x94\0\0pwk0\0\x10\0\x10\x80\0\x02\x02\x02\0\0\x03",
    );
    want[156..].copy_from_slice(
        b"\x40\0\0\0\x16\0\x01\x30\0\x0c\x30\x01\0\x02\0\x02\x82\x30\x82\0\x82\0",
    );
    assert_eq!(rt; sink.bytes(), want.as_slice());
}

#[test]
fn codes_each_slice_at_its_own_index(rt: HostRuntime) {
    let bytes = b"\x29\x08\xba\x08\x4b\x09\xdc\x09\x6d\x0a\xfe\x0a\x8f\x0b\x20\x0c\xb1\x0c\x42\x0d\
        \xd3\x0d\x64\x0e\xf5\x0e\x86\x0f\xff\x0f\xff\x0f\xff\x0f\xff\x0f\xff\x0f\xff\x0f\
        \xce\x08\x64\x08\xfa\x07\x90\x07\x26\x07\xbc\x06\x52\x06\xe8\x05\x7e\x05\x14\x05\
        \x1e\x09\x9d\x08\x1c\x08\x9b\x07\x1a\x07\x99\x06\x18\x06\x97\x05\x16\x05\x95\x04";
    let form = plain(Depth::D12, 0, Matrix::Flat);
    let (length, sink) = frame(&rt, rt.alloc(), bytes, (20, 1), &form, &[2, 2]);
    assert_eq!(rt; length, 168 + 77 + 51);
    assert_eq!(rt; sink.bytes().len(), 168 + 77 + 51);
}

#[test]
fn codes_the_bottom_field_first(rt: HostRuntime) {
    let bytes = b"\xa3\x01\xa7\x03\x3c\x01\x8d\x03\x7d\x01\x4f\x01";
    let form = Form {
        chroma: Chroma::C444,
        interlace: Interlace::BottomFirst,
        depth: Depth::D10,
        alpha: AlphaKind::Absent,
        log2: 3,
        matrix: Matrix::Flat,
    };
    let table = table(&rt, rt.alloc(), bytes, (1, 2), &form, (120, 122));
    assert_eq!(rt; table.fixed, 176);
    assert_eq!(rt; table.slices.as_slice().len(), 2);
    has_entries(
        &rt,
        &table,
        0,
        120,
        &[(12, 271880), (12, 140744), (12, 214920)],
    );
    has_entries(
        &rt,
        &table,
        1,
        120,
        &[(12, 106496), (12, 129920), (12, 189952)],
    );
    let (length, sink) = frame(&rt, rt.alloc(), bytes, (1, 2), &form, &[120, 122]);
    assert_eq!(rt; length, 176 + 12 + 12);
    assert_eq!(rt; sink.bytes().len(), 176 + 12 + 12);
}

/// The table of coefficients from one index to another, with the weights of a header.
fn table_for(
    rt: &impl Abort,
    alloc: Global,
    coefficients: &Coefficients,
    header: &FrameHeader,
    range: (u8, u8),
) -> FrameTable
    requires { IsWritableHeader header.now }
    ensures { AreTablesOf coefficients.now (weights_in header.now) result.slices }
{
    let (lo, hi) = range;
    assert!(rt; 1 <= lo && lo <= hi && hi <= 224);
    let weights = Weights {
        luma: header.luma,
        chroma: header.chroma_weights,
    };
    build_table(alloc, coefficients, &weights, lo, hi, 1000).expect(rt, "memory")
}

/// The frame that is written straight from the coefficients has these bytes.
fn assert_chosen(
    rt: &impl Abort,
    alloc: Global,
    coefficients: &Coefficients,
    header: &FrameHeader,
    table: &FrameTable,
    choice: &[u8],
    want: &[u8],
)
    requires header { IsHeaderOf coefficients.now header.now }
    requires writable { IsWritableHeader header.now }
    requires tables { AreTablesOf coefficients.now (weights_in header.now) table.now.slices }
{
    let (size, _) = total(table, choice).expect(rt, "a choice");
    assert!(rt; size < 1 << 31);
    let mut sink = MemSink::new(alloc, 1000, 4096, Vec::new(alloc)).expect(rt, "memory");
    assert!(rt; write_chosen(coefficients, header, table, choice, &mut sink).is_ok());
    assert_eq!(rt; sink.bytes(), want);
}

/// A sink whose fourth call fails has taken a front of these bytes, and the call fails.
fn assert_refused(
    rt: &impl Abort,
    alloc: Global,
    coefficients: &Coefficients,
    header: &FrameHeader,
    table: &FrameTable,
    choice: &[u8],
    want: &[u8],
)
    requires header { IsHeaderOf coefficients.now header.now }
    requires writable { IsWritableHeader header.now }
    requires tables { AreTablesOf coefficients.now (weights_in header.now) table.now.slices }
{
    let (size, _) = total(table, choice).expect(rt, "a choice");
    assert!(rt; size < 1 << 31);
    let fails = vec![in alloc; 3].expect(rt, "memory");
    let mut sink = MemSink::new(alloc, 1000, 4096, fails).expect(rt, "memory");
    assert!(rt; write_chosen(coefficients, header, table, choice, &mut sink).is_err());
    let taken = sink.bytes();
    assert!(rt; 156 < taken.len() && taken.len() < want.len());
    assert_eq!(rt; taken, &want[..taken.len()]);
}

/// The frame that is written straight from the coefficients is the one that is coded first.
fn assert_straight(
    rt: &impl Abort,
    alloc: Global,
    bytes: &[u8],
    (width, height): (u16, u16),
    form: &Form,
    range: (u8, u8),
    choice: &[u8],
) {
    let size = (u32::from(width), u32::from(height));
    let (_, want) = frame(rt, alloc, bytes, (width, height), form, choice);
    let picture = picture(rt, alloc, bytes, size, form);
    let coefficients = coefficients(rt, alloc, &picture, (width, height), form);
    named_weights_are_in_range();
    let weights = Weights::named(form.matrix);
    let header = own_header(
        width,
        height,
        form.chroma,
        form.interlace,
        form.alpha,
        &weights,
    );
    let table = table_for(rt, alloc, &coefficients, &header, range);
    assert_eq!(rt; table.fixed, fixed_size(&coefficients.layout));
    assert_chosen(
        rt,
        alloc,
        &coefficients,
        &header,
        &table,
        choice,
        want.bytes(),
    );
    assert_refused(
        rt,
        alloc,
        &coefficients,
        &header,
        &table,
        choice,
        want.bytes(),
    );
}

#[test]
fn writes_a_chosen_frame_straight(rt: HostRuntime) {
    let bytes = b"\x29\x08\xba\x08\x4b\x09\xdc\x09\x6d\x0a\xfe\x0a\x8f\x0b\x20\x0c\xb1\x0c\x42\x0d\
        \xd3\x0d\x64\x0e\xf5\x0e\x86\x0f\xff\x0f\xff\x0f\xff\x0f\xff\x0f\xff\x0f\xff\x0f\
        \xce\x08\x64\x08\xfa\x07\x90\x07\x26\x07\xbc\x06\x52\x06\xe8\x05\x7e\x05\x14\x05\
        \x1e\x09\x9d\x08\x1c\x08\x9b\x07\x1a\x07\x99\x06\x18\x06\x97\x05\x16\x05\x95\x04";
    let form = plain(Depth::D12, 0, Matrix::Flat);
    assert_straight(&rt, rt.alloc(), bytes, (20, 1), &form, (2, 4), &[2, 4]);
}

#[test]
fn writes_fields_with_alpha_straight(rt: HostRuntime) {
    let bytes = b"\x8a\x02\x8a\x02\x9d\x0b\x9b\x0b\x59\x04\x5c\x04\x85\x00\x84\x00";
    let form = Form {
        chroma: Chroma::C422,
        interlace: Interlace::BottomFirst,
        depth: Depth::D12,
        alpha: AlphaKind::Eight,
        log2: 3,
        matrix: Matrix::Steep,
    };
    let table = table(&rt, rt.alloc(), bytes, (1, 2), &form, (7, 8));
    assert_eq!(rt; table.fixed, 176);
    assert_eq!(rt; table.slices.as_slice().len(), 2);
    has_entries(&rt, &table, 0, 7, &[(21, 832), (19, 1152)]);
    has_entries(&rt, &table, 1, 7, &[(21, 736), (19, 1280)]);
    assert_straight(&rt, rt.alloc(), bytes, (1, 2), &form, (7, 8), &[8, 7]);
}

/// A picture of 16 columns and 32 rows in 4:2:2: luma is 400 in even rows and 600 in odd rows, and chroma is 512.
fn striped() -> [u8; 2048] {
    let mut bytes = [0; 2048];
    for i in 0..512 {
        let (low, high) = if i / 16 % 2 == 0 {
            (0x90, 1)
        } else {
            (0x58, 2)
        };
        bytes[2 * i] = low;
        bytes[2 * i + 1] = high;
        bytes[1024 + 2 * i + 1] = 2;
    }
    bytes
}

/// The frame of the stripes at index 1: the field of odd rows, and then that of even rows.
fn assert_fields(rt: &impl Abort, written: &[u8]) {
    let odd = b"\x40\0\0\0\x17\0\x01\x30\0\x0d\x30\x01\0\x03\0\x02\x05\xa0\x8c\x82\0\x82\0";
    let even = b"\x40\0\0\0\x17\0\x01\x30\0\x0d\x30\x01\0\x03\0\x02\x07\x1f\x8c\x82\0\x82\0";
    assert!(rt; written.len() == 202);
    assert_eq!(rt; written[20], 0x88);
    assert_eq!(rt; &written[156..179], odd.as_slice());
    assert_eq!(rt; &written[179..], even.as_slice());
}

#[test]
fn writes_the_field_of_odd_rows_first(rt: HostRuntime) {
    let bytes = striped();
    let form = Form {
        chroma: Chroma::C422,
        interlace: Interlace::BottomFirst,
        depth: Depth::D10,
        alpha: AlphaKind::Absent,
        log2: 3,
        matrix: Matrix::Flat,
    };
    let (length, sink) = frame(&rt, rt.alloc(), &bytes, (16, 32), &form, &[1, 1]);
    assert_eq!(rt; length, 202);
    assert_fields(&rt, sink.bytes());
    assert_straight(&rt, rt.alloc(), &bytes, (16, 32), &form, (1, 1), &[1, 1]);
    let (length, _) = frame(&rt, rt.alloc(), &bytes, (16, 32), &form, &[8, 8]);
    assert_eq!(rt; length, 200);
    assert_straight(&rt, rt.alloc(), &bytes, (16, 32), &form, (1, 31), &[8, 8]);
}

/// The coefficients of the block are in range.
fn assert_block(rt: &impl Abort, block: &Block)
    ensures { AreWithin greatest_coefficient block.now }
{
    for place in 0..64 {
        let value = block[place];
        assert!(rt; -16383 <= value && value <= 16383);
    }
}

/// The blocks are those of a part.
fn assert_part(rt: &impl Abort, blocks: &[Block])
    ensures { ArePart blocks.now }
{
    assert!(rt; 1 <= blocks.len() && blocks.len() <= 32);
    for block in blocks {
        assert_block(rt, block);
    }
}

/// A block of numbers that follow from a first one, of so many bits fewer than 14.
fn scattered(first: u32, fewer: u32) -> Block
    requires { fewer < 14 }
{
    let mut number = first;
    let mut block = [0; 64];
    for place in 0..64 {
        number = number.wrapping_mul(1_664_525).wrapping_add(1_013_904_223);
        block[place] = ((number >> 18) as i16 - 8192) >> fewer;
    }
    block
}

/// The values of the block are of magnitude at most 32,767.
fn assert_small(rt: &impl Abort, block: &Block)
    ensures { AllSmall block.now }
{
    for place in 0..64 {
        let value = block[place];
        assert!(rt; -32767 <= value);
    }
}

/// The values of the blocks are of magnitude at most 32,767.
fn assert_all_small(rt: &impl Abort, blocks: &[Block])
    ensures { AreBlocks blocks.now }
{
    for block in blocks {
        assert_small(rt, block);
    }
}

/// A block quantised value by value, and the sum of the squared errors.
fn quantised_plainly(rt: &impl Abort, block: &Block, multipliers: &[u32; 64]) -> (Block, u64) {
    let mut coded = [0; 64];
    let mut error: u64 = 0;
    for place in 0..64 {
        let (value, multiplier) = (i32::from(block[place]), multipliers[place]);
        assert!(rt; -16383 <= value && value <= 16383);
        assert!(rt; 4 <= multiplier && multiplier <= 130_560);
        let level = quantise(value, multiplier);
        coded[place] = level as i16;
        error = error.wrapping_add(squared_error(value, level, multiplier));
    }
    (coded, error)
}

/// The plain program: the blocks quantised at one index, written, and measured.
fn measured_plainly(
    rt: &impl Abort,
    blocks: &[Block],
    weights: &[u8; 64],
    scan: Scan,
    index: u8,
) -> Measure {
    assert!(rt; 1 <= index && index <= 224);
    assert!(rt; 1 <= blocks.len() && blocks.len() <= 32);
    let multipliers = multipliers_of(weights, index);
    let mut coded = [[0; 64]; 32];
    let mut error: u64 = 0;
    for i in 0..blocks.len() {
        let (block, lost) = quantised_plainly(rt, &blocks[i], &multipliers);
        coded[i] = block;
        error = error.wrapping_add(lost);
    }
    let coded = &coded[..blocks.len()];
    assert_all_small(rt, coded);
    Measure {
        bytes: component_length(coded, scan),
        error,
    }
}

/// One pass over the blocks measures what the plain program does index by index.
fn assert_measures(
    rt: &impl Abort,
    blocks: &[Block],
    matrix: Matrix,
    scan: Scan,
    (lo, hi): (u8, u8),
) {
    assert!(rt; 1 <= lo && lo <= hi && hi <= 224);
    assert_part(rt, blocks);
    named_weights_are_in_range();
    let weights = Weights::named(matrix);
    let count = usize::from(hi - lo) + 1;
    let mut all = [Measure::default(); 224];
    measure_all(blocks, &weights.luma, scan, lo, hi, &mut all[..count]);
    for i in 0..count {
        let plain = measured_plainly(rt, blocks, &weights.luma, scan, lo + i as u8);
        assert_eq!(rt; all[i], plain, "at {i}");
    }
}

#[test]
fn measures_in_one_walk(rt: HostRuntime) {
    let blocks = [
        [0; 64],
        scattered(1, 0),
        scattered(2, 9),
        [16383; 64],
        [-16383; 64],
        scattered(3, 12),
    ];
    assert_measures(&rt, &blocks, Matrix::Steep, Scan::Progressive, (1, 224));
    assert_measures(&rt, &blocks[2..3], Matrix::Flat, Scan::Interlaced, (1, 31));
    assert_measures(
        &rt,
        &blocks[..1],
        Matrix::Flat,
        Scan::Interlaced,
        (129, 129),
    );
}
