//! Worked places of planes.

use pw_planes::*;
use std::test::Fail;

#[test]
fn edges_are_repeated(rt: HostRuntime) -> Result<(), Fail> {
    let mut plane = Plane::new(rt.alloc(), 3, 2, 512)?;
    plane.set(2, 1, 600);
    for (x, y, want) in [
        (0, 0, 512),
        (2, 0, 512),
        (2, 1, 600),
        (3, 1, 600),
        (2, 9, 600),
        (4_000_000_000, 4_000_000_000, 600),
        (1, 7, 512),
    ] {
        assert_eq!(rt; plane.sample(x, y), want, "at {x}, {y}");
    }
    let block = plane.block(1, 0, Depth::D10);
    for (place, want) in [
        (0, 0),
        (1, 0),
        (7, 0),
        (8, 0),
        (9, 352),
        (15, 352),
        (56, 0),
        (57, 352),
        (63, 352),
    ] {
        assert_eq!(rt; block.get(place).copied(), Some(want), "at {place}");
    }
    Ok(())
}

#[test]
fn blocks_are_put_inside(rt: HostRuntime) -> Result<(), Fail> {
    let mut plane = Plane::new(rt.alloc(), 4, 3, 99)?;
    let mut block = [0; 64];
    for k in 0..64 {
        block[k] = k as u16;
    }
    plane.put_block(2, 1, &block);
    plane.put_block(4, 0, &block);
    plane.put_block(0, 4_000_000_000, &block);
    for (x, y, want) in [
        (0, 0, 99),
        (2, 0, 99),
        (1, 1, 99),
        (2, 1, 0),
        (3, 1, 1),
        (2, 2, 8),
        (3, 2, 9),
        (1, 2, 99),
    ] {
        assert_eq!(rt; plane.sample(x, y), want, "at {x}, {y}");
    }
    Ok(())
}

#[test]
fn fields_are_woven(rt: HostRuntime) -> Result<(), Fail> {
    let mut frame = Plane::new(rt.alloc(), 2, 4, 400)?;
    frame.set(0, 1, 600);
    frame.set(1, 3, 601);
    let top = frame.field(rt.alloc(), Parity::Top)?;
    let bottom = frame.field(rt.alloc(), Parity::Bottom)?;
    let woven = Plane::weave(rt.alloc(), &top, &bottom)?;
    assert_eq!(rt; (top.width(), top.height()), (2, 2));
    assert_eq!(rt; (woven.width(), woven.height()), (2, 4));
    for (x, y, want) in [(0, 0, 600), (1, 0, 400), (0, 1, 400), (1, 1, 601)] {
        assert_eq!(rt; top.sample(x, y), 400, "at {x}, {y}");
        assert_eq!(rt; bottom.sample(x, y), want, "at {x}, {y}");
        assert_eq!(rt; woven.sample(x, 2 * y + 1), want, "at {x}, {y}");
    }
    Ok(())
}

#[test]
fn kinds_have_numbers(rt: HostRuntime) {
    for (chroma, width, want) in [
        (Chroma::C422, 17, 9),
        (Chroma::C422, 16, 8),
        (Chroma::C422, 1, 1),
        (Chroma::C444, 17, 17),
    ] {
        assert_eq!(rt; chroma.plane_width(width), want, "of {width}");
    }
    for (depth, want) in [(Depth::D8, 8), (Depth::D10, 10), (Depth::D12, 12)] {
        assert_eq!(rt; depth.bits(), want);
    }
}
