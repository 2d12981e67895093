//! A program for the gate alone. It makes some two thousand small tables, and of each the record of its best choice, which is
//! to be good, and its choice the one that a trial of all choices finds; then it changes one thing of the record, and compares
//! the clause that the checker names with that of a plain program, and each yes with a trial of all choices.
#![tactic(auto)]

mod numbers;
mod plain;
mod records;
mod tables;

ghost use Rattle.rate_cert.specs.Settings.{IsSettings};

use numbers::Numbers;
use rate_cert::{FrameProof, Settings};
use rate_check::check_record;
use records::{change_verdict, verdict_of};
use std::alloc::Global;
use std::io;
use tables::{Plan, change_plan, plan_of, settings_of, table_of};

/// So many tables are made.
const TABLES: usize = 2000;

/// What is said of each table is changed so many times, each time in one thing.
const CHANGES: usize = 4;

/// What was found: how many records failed each clause first, none of them at 0; and how many answers were wrong.
#[derive(Drop)]
struct Found {
    clauses: [u64; 9],
    wrong: u64,
}

const NONE_FOUND: Found = Found {
    clauses: [0; 9],
    wrong: 0,
};

/// Checks a record, and counts it.
fn count(alloc: Global, found: &mut Found, settings: &Settings, slices: usize, proof: &FrameProof)
    requires { IsSettings settings.now }
{
    let clause = match check_record(settings, proof) {
        Ok(()) => 0,
        Err(clause) => clause.number,
    };
    let is_right = clause == plain::failing(settings, slices, proof)
        && (clause != 0 || plain::is_true(alloc, proof));
    if !is_right {
        found.wrong = found.wrong.saturating_add(1);
    }
    let at = usize::from(clause.min(8));
    found.clauses[at] = found.clauses[at].saturating_add(1);
}

/// The record of the best choice of a plan's table.
fn record_of(alloc: Global, plan: &Plan) -> Option<FrameProof> {
    let table = table_of(alloc, plan)?;
    let verdict = verdict_of(alloc, &table)?;
    Some(FrameProof { table, verdict })
}

/// Checks records of a plan in which one thing is changed.
fn count_changed(
    alloc: Global,
    numbers: &mut Numbers,
    plan: &mut Plan,
    settings: &Settings,
    found: &mut Found,
) -> Option<()>
    requires { IsSettings settings.now }
{
    let slices = plan.frame_slices();
    for _ in 0..CHANGES {
        let mut proof = record_of(alloc, plan)?;
        change_verdict(numbers, &mut proof.verdict);
        count(alloc, found, settings, slices, &proof);
    }
    let mut proof = record_of(alloc, plan)?;
    change_plan(numbers, plan);
    // It may be no table any more.
    if let Some(table) = table_of(alloc, plan) {
        proof.table = table;
        count(alloc, found, settings, slices, &proof);
    }
    Some(())
}

/// Checks the records of a new plan, the good one and those that are changed.
fn count_plan(
    alloc: Global,
    numbers: &mut Numbers,
    good: &mut Found,
    changed: &mut Found,
) -> Option<()> {
    let mut plan = plan_of(alloc, numbers)?;
    let settings = settings_of(alloc, &plan)?;
    let proof = record_of(alloc, &plan)?;
    if !plain::is_best(alloc, &proof) {
        good.wrong = good.wrong.saturating_add(1);
    }
    count(alloc, good, &settings, plan.frame_slices(), &proof);
    count_changed(alloc, numbers, &mut plan, &settings, changed)
}

/// Whether there were good records and some that failed each clause first.
fn are_all_met(found: &Found) -> bool {
    for count in found.clauses {
        if count == 0 {
            return false;
        }
    }
    true
}

fn main(rt: HostRuntime) -> io::Result<()> {
    let mut numbers = Numbers::new();
    let mut good = NONE_FOUND;
    let mut changed = NONE_FOUND;
    for _ in 0..TABLES {
        if count_plan(rt.alloc(), &mut numbers, &mut good, &mut changed).is_none() {
            println!(&rt; "a table was not made")?;
        }
    }
    let (records, wrong) = (good.clauses[0], good.wrong);
    println!(&rt; "best choices: {records} records good, {wrong} answers wrong")?;
    let (all_met, wrong) = (are_all_met(&changed), changed.wrong);
    println!(&rt; "changed: good ones and each clause met {all_met}, {wrong} answers wrong")?;
    Ok(())
}
