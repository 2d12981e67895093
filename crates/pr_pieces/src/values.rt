//! The coefficients of a component in memory after the DC coefficients.

ghost use Rattle.std.specs.Prelude.{◌≡◌, ◌+◌, ◌*◌, ◌<◌, ◌≤◌, List, ◌++◌, Ok, OnOk, IfErr, ℤ, pos, length, replicate};
ghost use Rattle.pw_bits.specs.Places.{ahead, LastOne};
ghost use Rattle.pr_coeff.specs.Component.{places, listed, AreBlocks};
ghost use Rattle.pr_coeff.specs.Reading.{values_at};
ghost use Rattle.pr_pieces.specs.inner.Finding.{Finds};

use crate::blocks::put_value;
use crate::shorts::ShortWords;
use crate::step::step_in;
use pr_coeff::{Block, CoeffFault, Scan, signed_level};

/// The bit offsets of a component: `end` is its end, `first` the offset after the DC coefficients, and `last` the
/// offset after the last 1.
#[derive(Clone, Copy)]
pub(crate) struct Stretch {
    pub(crate) first: usize,
    pub(crate) last: usize,
    pub(crate) end: usize,
}

/// Reads the coefficients at the other positions, which are 0 before.
pub(crate) fn values_in(
    words: &ShortWords,
    padded: &[u8],
    stretch: Stretch,
    scan: Scan,
    parts: u32,
    blocks: &mut [Block],
) -> Result<(), CoeffFault>
    requires inside { stretch.first ≤ stretch.end }
    requires behind { stretch.end + 64 ≤ 8 * length padded.now }
    requires last { LastOne padded.now stretch.end stretch.last }
    requires count { (0 < length blocks.old) × (length blocks.old ≤ 32) }
    requires parts { (65536 ≤ length blocks.old * parts) × (length blocks.old * parts < 65536 + length blocks.old) }
    requires blocks { AreBlocks blocks.old }
    ensures blocks { OnOk result (AreBlocks blocks.new) }
    ensures value { OnOk result ((ds : List ℤ) → length ds ≡ length blocks.new → listed (places scan) blocks.old ≡ ds ++ replicate (63 * length blocks.new) (pos 0) → (vs : List ℤ) × (listed (places scan) blocks.new ≡ ds ++ vs) × (values_at (63 * length blocks.new + 1) (63 * length blocks.new) 4 2 (ahead padded.now stretch.end stretch.first) ≡ Ok vs)) }
    ensures fault { IfErr result (λ e. Finds e (values_at (63 * length blocks.new + 1) (63 * length blocks.new) 4 2 (ahead padded.now stretch.end stretch.first))) }
{
    let count = blocks.len() as u32;
    let mut at = stretch.first;
    let mut room = 63 * count;
    let mut run_class = 2;
    let mut level_class = 1;
    while at < stretch.last {
        match step_in(words, padded, stretch.end, at, room, run_class, level_class) {
            Ok(step) => {
                room -= step.run + 1;
                let value = signed_level(step.level, step.negative);
                put_value(blocks, scan, parts, 64 * count - room - 1, value);
                run_class = step.run_class;
                level_class = step.level_class;
                at = step.next;
            }
            Err(fault) => return Err(fault),
        }
    }
    Ok(())
}
