//! Tables of short codewords.

ghost use Rattle.std.specs.Prelude.{◌<◌};
ghost use Rattle.pr_pieces.specs.Shorts.{IsShortRun, IsShortLevel, AreRuns, AreLevels};

use crate::short::ShortWord;
use crate::word::word_in;
use pr_coeff::{book_of_level, book_of_run, class_of_level, class_of_run, level_of, run_of};

/// The entry where no codeword is short.
const NONE: ShortWord = ShortWord {
    size: 0,
    number: 0,
    class: 0,
};

/// The short codeword of a run at the start of eight bits, after a run of a class.
fn short_run(class: u8, front: u8) -> ShortWord
    requires { class < 6 }
    ensures { IsShortRun class front result }
{
    let bytes = [front, 0, 0, 0, 0, 0, 0, 0, 0];
    match word_in(&bytes, 8, 0, book_of_run(run_of(class))) {
        Ok((number, size)) if number < 256 => ShortWord {
            size: size as u8,
            number: number as u8,
            class: class_of_run(number),
        },
        _ => NONE,
    }
}

/// The short codeword of a level at the start of eight bits, after a magnitude of a class.
fn short_level(class: u8, front: u8) -> ShortWord
    requires { class < 6 }
    ensures { IsShortLevel class front result }
{
    let bytes = [front, 0, 0, 0, 0, 0, 0, 0, 0];
    match word_in(&bytes, 8, 0, book_of_level(level_of(class))) {
        Ok((number, size)) if number < 256 => ShortWord {
            size: size as u8,
            number: number as u8,
            class: class_of_level(number + 1),
        },
        _ => NONE,
    }
}

/// The short codewords of runs.
fn short_runs() -> [ShortWord; 1536]
    ensures { AreRuns result }
{
    let mut table = [NONE; 1536];
    for index in 0..1536 {
        table[index] = short_run((index / 256) as u8, (index % 256) as u8);
    }
    table
}

/// The short codewords of levels.
fn short_levels() -> [ShortWord; 1536]
    ensures { AreLevels result }
{
    let mut table = [NONE; 1536];
    for index in 0..1536 {
        table[index] = short_level((index / 256) as u8, (index % 256) as u8);
    }
    table
}

/// The codewords of at most eight bits of runs and levels, by the class of their context and by the next eight
/// bits. They are made once for many components.
#[derive(Drop)]
pub struct ShortWords {
    runs: [ShortWord; 1536],
    levels: [ShortWord; 1536],
    ghost are_runs: { AreRuns runs },
    ghost are_levels: { AreLevels levels },
}

impl ShortWords {
    /// The tables, which are always the same.
    pub fn new() -> ShortWords {
        ShortWords {
            runs: short_runs(),
            levels: short_levels(),
        }
    }

    /// The short codeword of a run at the start of eight bits.
    pub(crate) fn run(&self, class: u8, front: u8) -> ShortWord
        requires { class < 6 }
        ensures { IsShortRun class front result }
    {
        self.runs[usize::from(class) * 256 + usize::from(front)]
    }

    /// The short codeword of a level at the start of eight bits.
    pub(crate) fn level(&self, class: u8, front: u8) -> ShortWord
        requires { class < 6 }
        ensures { IsShortLevel class front result }
    {
        self.levels[usize::from(class) * 256 + usize::from(front)]
    }
}
