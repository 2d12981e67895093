//! The bytes of small pictures, as a plain program over the same rule gives them.

use pic_synth::*;
use pw_outside::{ByteSource, fill};
use std::test::Fail;

/// The samples of two pictures of 3 by 2 whose noise begins with 7: of each frame Y, Cb and Cr.
const SAMPLES: [u16; 28] = [
    257, 263, 260, 263, 256, 262, 450, 448, 448, 455, 455, 452, 451, 452, 292, 294, 294, 291, 291,
    294, 466, 467, 464, 469, 470, 466, 465, 471,
];

#[test]
fn two_small_pictures(rt: HostRuntime) -> Result<(), Fail> {
    let mut source = SyntheticSource::new(Synthetic {
        width: 3,
        height: 2,
        frames: 2,
        seed: 7,
    });
    for sample in SAMPLES {
        let mut pair = [0u8; 2];
        assert_eq!(rt; fill(&mut source, &mut pair), Ok(2), "{sample}");
        assert_eq!(rt; u16::from_le_bytes(pair), sample, "{sample}");
    }
    let mut pair = [0u8; 2];
    assert_eq!(rt; source.read(&mut pair), Ok(0));
    Ok(())
}
