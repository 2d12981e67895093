//! Values that were worked out outside of this crate.

use pr_quant::*;

#[test]
fn scales_every_index(rt: HostRuntime) {
    // The first and the last index, the first factor, and the step from one to the next.
    for (first, last, factor, step) in [(1, 128, 1, 1), (129, 224, 132, 4)] {
        let mut want = factor;
        for index in first..=last {
            assert!(rt; 1 <= index && index <= 224);
            assert_eq!(rt; scale(index), want, "at {index}");
            want = (want + step).min(1000);
        }
    }
}

#[test]
fn quantises_with_its_error(rt: HostRuntime) {
    let cases = [
        (2, 4, 0, 4),
        (-6, 4, -1, 4),
        (7, 4, 2, 1),
        (1207, 2, 603, 1),
        (16383, 2, 8191, 1),
        (-16383, 1, -16383, 0),
        (16383, 4, 4096, 1),
        (16383, 130_560, 0, 268_402_689),
        (-16383, 32_766, 0, 268_402_689),
        (-16383, 32_765, -1, 268_369_924),
        (-16207, 129, -126, 2209),
        (8945, 3578, 2, 3_200_521),
        (-10297, 109, -94, 2601),
        (10230, 16_380, 1, 37_822_500),
    ];
    for (c, m, want, square) in cases {
        assert!(rt; -16383 <= c && c <= 16383 && 1 <= m && m <= 130_560);
        let q = quantise(c, m);
        assert_eq!(rt; q, want, "of {c} at {m}");
        assert_eq!(rt; squared_error(c, q, m), square, "of {c} at {m}");
    }
}

#[test]
fn dequantises(rt: HostRuntime) {
    let cases = [
        (0, 1, 0),
        (-5, 1, -5),
        (-1983, 4, -7932),
        (276, 1890, 521_640),
        (5, 104_858, 524_287),
        (-5, 104_858, -524_288),
        (-29_306, 125_592, -524_288),
        (8191, 65, 524_287),
        (-32_767, 2, -65_534),
        (32_767, 12, 393_204),
    ];
    for (q, m, want) in cases {
        assert!(rt; m <= 130_560);
        assert_eq!(rt; dequantise(q, m), want, "of {q} at {m}");
    }
}

#[test]
fn names_matrices(rt: HostRuntime) {
    let flat = Weights::named(Matrix::Flat);
    let steep = Weights::named(Matrix::Steep);
    for (row, column, want) in [(0, 0, 4), (0, 7, 11), (7, 0, 11), (2, 3, 9), (7, 7, 18)] {
        assert!(rt; row < 8 && column < 8);
        let place = 8 * row + column;
        assert_eq!(rt; flat.luma[place], 4, "at {place}");
        assert_eq!(rt; flat.chroma[place], 4, "at {place}");
        assert_eq!(rt; steep.luma[place], want, "at {place}");
        assert_eq!(rt; steep.chroma[place], want, "at {place}");
    }
}
