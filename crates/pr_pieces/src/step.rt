//! A run, a level and a sign at a bit offset in memory, by tables if both codewords are short.

ghost use Rattle.std.specs.Prelude.{◌≡◌, ◌+◌, ◌*◌, ◌<◌, ◌≤◌, length, Ok, IfOk, IfErr, IfSome};
ghost use Rattle.pw_bits.specs.Places.{ahead};
ghost use Rattle.pr_coeff.specs.Reading.{triple_at};
ghost use Rattle.pr_coeff.specs.Lengths.{run_class, run_in, level_class, level_in};
ghost use Rattle.pr_pieces.specs.inner.Finding.{Finds};

use crate::shorts::ShortWords;
use crate::triple::triple_in;
use pr_coeff::{CoeffFault, class_of_level, class_of_run, level_of, run_of};
use pw_bits::front_at;

/// A run, a level and a sign, their classes, the context of the next ones, and the bit offset after them.
#[derive(Clone, Copy)]
pub(crate) struct Step {
    pub(crate) run: u32,
    pub(crate) level: u32,
    pub(crate) negative: bool,
    pub(crate) run_class: u8,
    pub(crate) level_class: u8,
    pub(crate) next: usize,
}

/// A run and a level of short codewords and a sign at a bit offset, with `room` positions of the scan left, after a
/// run and a magnitude of these classes. `None` means nothing: other codewords may be there.
fn short_in(
    words: &ShortWords,
    padded: &[u8],
    end: usize,
    at: usize,
    room: u32,
    run_before: u8,
    level_before: u8,
) -> Option<Step>
    requires inside { at ≤ end }
    requires behind { end + 64 ≤ 8 * length padded.now }
    requires classes { (run_before < 6) × (level_before < 6) }
    ensures value { IfSome result (λ s. triple_at room (run_in run_before) (level_in level_before) (ahead padded.now end at) ≡ Ok (record { run = s.run; level = s.level; negative = s.negative; rest = ahead padded.now end s.next })) }
    ensures place { IfSome result (λ s. (at < s.next) × (s.next ≤ end)) }
    ensures inside { IfSome result (λ s. (s.run < room) × (s.level < 32767)) }
    ensures classes { IfSome result (λ s. (s.run_class ≡ run_class s.run) × (s.level_class ≡ level_class (s.level + 1))) }
{
    let front = front_at(padded, at);
    let run = words.run(run_before, (front >> 56) as u8);
    let second = front << run.size;
    let level = words.level(level_before, (second >> 56) as u8);
    let used = usize::from(run.size) + usize::from(level.size) + 1;
    if run.size == 0 || level.size == 0 || u32::from(run.number) >= room || used > end - at {
        return None;
    }
    Some(Step {
        run: u32::from(run.number),
        level: u32::from(level.number),
        negative: (second << level.size) >> 63 == 1,
        run_class: run.class,
        level_class: level.class,
        next: at + used,
    })
}

/// The same for codewords of any length.
fn long_in(
    padded: &[u8],
    end: usize,
    at: usize,
    room: u32,
    run_before: u8,
    level_before: u8,
) -> Result<Step, CoeffFault>
    requires inside { at ≤ end }
    requires behind { end + 64 ≤ 8 * length padded.now }
    ensures value { IfOk result (λ s. triple_at room (run_in run_before) (level_in level_before) (ahead padded.now end at) ≡ Ok (record { run = s.run; level = s.level; negative = s.negative; rest = ahead padded.now end s.next })) }
    ensures place { IfOk result (λ s. (at < s.next) × (s.next ≤ end)) }
    ensures inside { IfOk result (λ s. (s.run < room) × (s.level < 32767)) }
    ensures classes { IfOk result (λ s. (s.run_class ≡ run_class s.run) × (s.level_class ≡ level_class (s.level + 1))) }
    ensures fault { IfErr result (λ e. Finds e (triple_at room (run_in run_before) (level_in level_before) (ahead padded.now end at))) }
{
    match triple_in(
        padded,
        end,
        at,
        room,
        run_of(run_before),
        level_of(level_before),
    ) {
        Ok((triple, next)) => Ok(Step {
            run: triple.run,
            level: triple.level,
            negative: triple.negative,
            run_class: class_of_run(triple.run),
            level_class: class_of_level(triple.level + 1),
            next,
        }),
        Err(fault) => Err(fault),
    }
}

/// The run, the level and the sign at a bit offset, with `room` positions of the scan left, after a run and a
/// magnitude of these classes.
pub(crate) fn step_in(
    words: &ShortWords,
    padded: &[u8],
    end: usize,
    at: usize,
    room: u32,
    run_before: u8,
    level_before: u8,
) -> Result<Step, CoeffFault>
    requires inside { at ≤ end }
    requires behind { end + 64 ≤ 8 * length padded.now }
    requires classes { (run_before < 6) × (level_before < 6) }
    ensures value { IfOk result (λ s. triple_at room (run_in run_before) (level_in level_before) (ahead padded.now end at) ≡ Ok (record { run = s.run; level = s.level; negative = s.negative; rest = ahead padded.now end s.next })) }
    ensures place { IfOk result (λ s. (at < s.next) × (s.next ≤ end)) }
    ensures inside { IfOk result (λ s. (s.run < room) × (s.level < 32767)) }
    ensures classes { IfOk result (λ s. (s.run_class ≡ run_class s.run) × (s.level_class ≡ level_class (s.level + 1))) }
    ensures fault { IfErr result (λ e. Finds e (triple_at room (run_in run_before) (level_in level_before) (ahead padded.now end at))) }
{
    match short_in(words, padded, end, at, room, run_before, level_before) {
        Some(step) => Ok(step),
        None => long_in(padded, end, at, room, run_before, level_before),
    }
}
