//! Reports the runs of black pictures.

ghost use Rattle.std.specs.Prelude.{◌≡◌, ◌++◌, [], OnOk, OnErr, IfOk, ◌<◌, length};
ghost use Rattle.std.specs.Bool.{OnTrue, OnFalse};
ghost use Rattle.std.specs.List.{flat_map};
ghost use Rattle.monitors.specs.Black.{is_black, black_limit, grown, run_line, runs_on, black_lines, black_text};

use crate::facts::PictureFacts;
use crate::monitor::{Monitor, append};
use pw_outside::NoMemory;
use pw_planes::Depth;
use pw_text::{put_decimal, put_words};
use std::alloc::Global;

/// A run of consecutive black pictures.
#[derive(Clone, Copy)]
pub(crate) struct Run {
    /// The number of its first picture.
    pub(crate) first: u32,
    /// Its length; saturates at 2^64 − 1.
    pub(crate) count: u64,
}

/// The maximum luma of a black picture.
fn black_limit(depth: Depth) -> u16
    ensures { result ≡ black_limit depth }
{
    match depth {
        Depth::D8 => 16,
        Depth::D10 => 64,
        Depth::D12 => 256,
    }
}

/// Whether a picture is black.
fn is_black(facts: &PictureFacts) -> bool
    ensures { result ≡ is_black facts.now }
{
    facts.greatest_luma <= black_limit(facts.depth)
}

/// The run with this picture appended.
fn grown(run: Option<Run>, facts: &PictureFacts) -> Run
    ensures { result ≡ grown run facts.now }
{
    match run {
        Some(run) => Run {
            first: run.first,
            count: run.count.saturating_add(1),
        },
        None => Run {
            first: facts.number,
            count: 1,
        },
    }
}

/// Appends the open run, if there is one, to the finished runs. After `NoMemory` these are unchanged.
#[tactic(auto, using(crate::proofs::Runs::one_over))]
fn close(over: &mut Vec<Run>, going: Option<Run>) -> Result<(), NoMemory>
    ensures ok { OnOk result (over.new.items ≡ over.old.items ++ runs_on going []) }
    ensures err { OnErr result (over.new.items ≡ over.old.items) }
{
    match going {
        Some(run) => match over.push(run) {
            Ok(()) => Ok(()),
            Err(_) => Err(NoMemory),
        },
        None => Ok(()),
    }
}

/// Appends the line of a run.
fn put_run(text: &mut Vec<u8>, run: &Run) -> Result<(), NoMemory>
    ensures { OnOk result (text.new.items ≡ text.old.items ++ run_line run.now) }
{
    put_words(text, "black ")?;
    put_decimal(text, u64::from(run.first))?;
    put_words(text, " ")?;
    put_decimal(text, run.count)?;
    put_words(text, "\n")
}

/// Appends the lines of runs.
fn put_runs(text: &mut Vec<u8>, runs: &[Run]) -> Result<(), NoMemory>
    ensures { OnOk result (text.new.items ≡ text.old.items ++ flat_map run_line runs.now) }
{
    for run in runs {
        put_run(text, run)?;
    }
    Ok(())
}

/// Appends the lines of the finished runs and of the open run.
#[tactic(auto, using(crate::proofs::Runs::lines_of_one_more, crate::proofs::Runs::lines_of_no_more))]
fn put_all_runs(text: &mut Vec<u8>, over: &[Run], going: Option<Run>) -> Result<(), NoMemory>
    ensures { OnOk result (text.new.items ≡ text.old.items ++ flat_map run_line (over.now ++ runs_on going [])) }
{
    put_runs(text, over)?;
    match going {
        Some(run) => put_run(text, &run),
        None => Ok(()),
    }
}

/// Whether there are any runs.
fn has_runs(over: &[Run], going: Option<Run>) -> bool
    ensures some { OnTrue result (0 < length (over.now ++ runs_on going [])) }
    ensures none { OnFalse result (length (over.now ++ runs_on going []) ≡ 0) }
{
    match going {
        Some(_) => true,
        None => !over.is_empty(),
    }
}

/// The lines of the finished runs and of the open run, or the line for no runs.
#[tactic(auto, using(crate::proofs::Runs::lines_of_none, crate::proofs::Runs::lines_of_some))]
fn black_lines(alloc: Global, over: &[Run], going: Option<Run>) -> Result<Vec<u8>, NoMemory>
    ensures { IfOk result (λ text. text.items ≡ black_lines (over.now ++ runs_on going [])) }
{
    let mut text = Vec::new(alloc);
    if has_runs(over, going) {
        put_all_runs(&mut text, over, going)?;
        Ok(text)
    } else {
        put_words(&mut text, "black none\n")?;
        Ok(text)
    }
}

/// Reports the runs of black pictures, `black F C` for each with the number of its first picture and its length, or
/// `black none`. A picture is black if its maximum luma is at most 2^(b − 4), with b bits per sample.
#[derive(Drop)]
pub struct BlackMonitor {
    over: Vec<Run>,
    going: Option<Run>,
}

impl BlackMonitor {
    /// A monitor without pictures. Takes no memory.
    pub fn new(alloc: Global) -> BlackMonitor
        ensures { ⟦<BlackMonitor as Monitor>⟧.state result ≡ black_text }
    {
        BlackMonitor {
            over: Vec::new(alloc),
            going: None,
        }
    }
}

impl Monitor for BlackMonitor {
    ghost use Rattle.monitors.specs.Black.{black_state};

    ghost state = { λ m. black_state m.over.items m.going };

    #[tactic(auto, using(crate::proofs::Runs::black_goes_on, crate::proofs::Runs::black_ends))]
    fn picture(&mut self, facts: &PictureFacts) -> Result<(), NoMemory> {
        if is_black(facts) {
            self.going = Some(grown(self.going, facts));
            return Ok(());
        }
        close(&mut self.over, self.going)?;
        self.going = None;
        Ok(())
    }

    #[tactic(auto, using(crate::proofs::Fronts::none_added))]
    fn report(&self, text: &mut Vec<u8>) -> Result<(), NoMemory> {
        let lines = black_lines(*text.allocator(), &self.over, self.going)?;
        append(text, &lines)
    }
}
