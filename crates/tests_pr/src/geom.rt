//! Worked layouts.

use Chroma::{C422, C444};
use Interlace::{BottomFirst, Progressive, TopFirst};
use pr_geom::*;
use pw_planes::{Chroma, Interlace};
use std::process::Abort;
use std::test::Fail;

#[test]
fn sizes_have_layouts(rt: HostRuntime) {
    for (width, height, log2, interlace, want) in [
        (0, 0, 3, Progressive, Err(GeomFault::SizeZero)),
        (8193, 0, 0, TopFirst, Err(GeomFault::SizeZero)),
        (0, 4321, 3, Progressive, Err(GeomFault::SizeZero)),
        (16, 4321, 0, TopFirst, Err(GeomFault::SizeLimit)),
        (8193, 17, 3, TopFirst, Err(GeomFault::SizeLimit)),
        (16, 17, 0, TopFirst, Err(GeomFault::OddInterlaced)),
        (8192, 4319, 0, BottomFirst, Err(GeomFault::OddInterlaced)),
        (8192, 4319, 0, Progressive, Err(GeomFault::TooManySlices)),
        (8192, 4320, 1, Progressive, Err(GeomFault::TooManySlices)),
        (8192, 4320, 2, Progressive, Ok((1, 4320, 34_560))),
        (8192, 4064, 0, BottomFirst, Ok((2, 2032, 65_024))),
        (16, 17, 0, Progressive, Ok((1, 17, 2))),
        (17, 34, 3, TopFirst, Ok((2, 17, 2))),
        (720, 486, 2, TopFirst, Ok((2, 243, 192))),
    ] {
        let found = match Layout::new(width, height, log2.min(3), interlace, C422) {
            Ok(layout) => Ok((layout.pictures(), layout.picture_height(), layout.slices())),
            Err(fault) => Err(fault),
        };
        assert_eq!(rt; found, want, "{width} by {height}");
    }
}

#[test]
fn rows_are_cut(rt: HostRuntime) -> Result<(), Fail> {
    let rows: [(u16, &[u8]); 4] = [
        (1920, &[8; 15]),
        (720, &[8, 8, 8, 8, 8, 4, 1]),
        (320, &[8, 8, 4]),
        (16, &[1]),
    ];
    for (width, widths) in rows {
        let layout = Layout::new(width, 16, 3, Progressive, C422)?;
        assert_eq!(rt; layout.slices() as usize, widths.len());
        for number in 0..layout.slices() {
            assert_eq!(rt;
                Some(layout.slice(number).width),
                widths.get(number as usize).copied()
            );
        }
    }
    Ok(())
}

/// A block of a slice: the frame's width and height, its slicing, mode and chroma, the slice's number and place, the part,
/// its number of blocks, the block's number and its corner.
type Case = (
    (u16, u16),
    u8,
    Interlace,
    Chroma,
    u32,
    (u16, u16, u8),
    Part,
    u8,
    u8,
    (u32, u32),
);

fn check(rt: &impl Abort, case: Case) -> Result<(), GeomFault> {
    let ((width, height), log2, interlace, chroma, number, place, part, count, k, corner) = case;
    let layout = Layout::new(width, height, log2.min(3), interlace, chroma)?;
    assert!(rt; number < layout.slices());
    let slice = layout.slice(number);
    assert_eq!(rt; (slice.column, slice.row, slice.width), place);
    assert_eq!(rt; layout.blocks(&slice, part), count);
    assert!(rt; k < layout.blocks(&slice, part));
    assert_eq!(rt; layout.block_place(&slice, part, k), corner);
    Ok(())
}

#[test]
fn blocks_have_places(rt: HostRuntime) -> Result<(), Fail> {
    let cases: [Case; 6] = [
        (
            (17, 16),
            0,
            Progressive,
            C422,
            1,
            (1, 0, 1),
            Part::Cb,
            2,
            1,
            (8, 8),
        ),
        (
            (256, 16),
            3,
            Progressive,
            C422,
            0,
            (0, 0, 8),
            Part::Y,
            32,
            26,
            (96, 8),
        ),
        (
            (273, 18),
            2,
            TopFirst,
            C444,
            4,
            (16, 0, 2),
            Part::Cb,
            8,
            5,
            (272, 8),
        ),
        (
            (273, 18),
            2,
            TopFirst,
            C444,
            0,
            (0, 0, 4),
            Part::Cr,
            16,
            2,
            (8, 0),
        ),
        (
            (720, 486),
            2,
            TopFirst,
            C422,
            116,
            (32, 9, 4),
            Part::Y,
            16,
            15,
            (568, 152),
        ),
        (
            (8192, 4320),
            3,
            Progressive,
            C422,
            17_279,
            (504, 269, 8),
            Part::Y,
            32,
            28,
            (8176, 4304),
        ),
    ];
    for case in cases {
        check(&rt, case)?;
    }
    Ok(())
}
