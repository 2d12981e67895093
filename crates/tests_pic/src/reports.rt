//! What the four monitors report.

use monitors::*;
use pw_planes::Depth;
use std::test::Fail;

/// The one picture of a movie of grey.
const GREY: PictureFacts = PictureFacts {
    number: 0,
    bytes: 178,
    least_index: 1,
    greatest_index: 1,
    least_luma: 512,
    greatest_luma: 512,
    depth: Depth::D10,
};

const fn of_luma(least_luma: u16, greatest_luma: u16) -> PictureFacts {
    PictureFacts {
        least_luma,
        greatest_luma,
        ..GREY
    }
}

const fn of_indices(least_index: u8, greatest_index: u8) -> PictureFacts {
    PictureFacts {
        least_index,
        greatest_index,
        ..GREY
    }
}

const fn of_bytes(bytes: u32) -> PictureFacts {
    PictureFacts { bytes, ..GREY }
}

const fn at_depth(number: u32, depth: Depth, greatest_luma: u16) -> PictureFacts {
    PictureFacts {
        number,
        greatest_luma,
        depth,
        ..GREY
    }
}

/// What a monitor reports behind a line after these pictures.
fn reported<M: Monitor>(
    rt: &HostRuntime,
    mut monitor: M,
    pictures: &[PictureFacts],
) -> Result<Vec<u8>, Fail> {
    let mut text = Vec::from_slice(rt.alloc(), b"pictures\n")?;
    for facts in pictures {
        monitor.picture(facts)?;
    }
    monitor.report(&mut text)?;
    Ok(text)
}

#[test]
fn levels_are_the_least_and_the_greatest_luma(rt: HostRuntime) -> Result<(), Fail> {
    let cases: [(&[PictureFacts], &str); 4] = [
        (&[], "pictures\nlevels none\n"),
        (&[GREY], "pictures\nlevels 512 512\n"),
        (
            &[of_luma(64, 940), of_luma(4, 500)],
            "pictures\nlevels 4 940\n",
        ),
        (
            &[of_luma(4, 500), of_luma(64, 940)],
            "pictures\nlevels 4 940\n",
        ),
    ];
    for (pictures, want) in cases {
        let text = reported(&rt, LevelMonitor::new(), pictures)?;
        assert!(rt; text.as_slice() == want.as_bytes(), "{want}");
    }
    Ok(())
}

#[test]
fn indices_are_the_least_and_the_greatest(rt: HostRuntime) -> Result<(), Fail> {
    let cases: [(&[PictureFacts], &str); 3] = [
        (&[], "pictures\nindices none\n"),
        (&[GREY], "pictures\nindices 1 1\n"),
        (
            &[of_indices(3, 9), of_indices(5, 224), of_indices(4, 4)],
            "pictures\nindices 3 224\n",
        ),
    ];
    for (pictures, want) in cases {
        let text = reported(&rt, IndexMonitor::new(), pictures)?;
        assert!(rt; text.as_slice() == want.as_bytes(), "{want}");
    }
    Ok(())
}

#[test]
fn bytes_are_the_sum_and_the_greatest(rt: HostRuntime) -> Result<(), Fail> {
    let cases: [(&[PictureFacts], &str); 4] = [
        (&[], "pictures\nbytes 0 0\n"),
        (&[GREY], "pictures\nbytes 178 178\n"),
        (&[GREY, GREY], "pictures\nbytes 356 178\n"),
        (
            &[of_bytes(4_294_967_295), GREY],
            "pictures\nbytes 4294967473 4294967295\n",
        ),
    ];
    for (pictures, want) in cases {
        let text = reported(&rt, BytesMonitor::new(), pictures)?;
        assert!(rt; text.as_slice() == want.as_bytes(), "{want}");
    }
    Ok(())
}

#[test]
fn black_pictures_are_told_by_runs(rt: HostRuntime) -> Result<(), Fail> {
    let runs = [
        at_depth(0, Depth::D10, 64),
        at_depth(1, Depth::D10, 0),
        at_depth(2, Depth::D10, 65),
        at_depth(3, Depth::D10, 64),
    ];
    let cases: [(&[PictureFacts], &str); 6] = [
        (&[], "pictures\nblack none\n"),
        (&[GREY], "pictures\nblack none\n"),
        (&[at_depth(0, Depth::D8, 17)], "pictures\nblack none\n"),
        (&[at_depth(7, Depth::D8, 16)], "pictures\nblack 7 1\n"),
        (
            &[at_depth(0, Depth::D12, 257), at_depth(1, Depth::D12, 256)],
            "pictures\nblack 1 1\n",
        ),
        (&runs, "pictures\nblack 0 2\nblack 3 1\n"),
    ];
    for (pictures, want) in cases {
        let text = reported(&rt, BlackMonitor::new(rt.alloc()), pictures)?;
        assert!(rt; text.as_slice() == want.as_bytes(), "{want}");
    }
    Ok(())
}
