//! Calls of the tables in runs of a given size and order, for their times, and calls at random beside
//! plain lists. A line of the input names a run, as `memory store quiet 16 1000`: table, call, order, how
//! many entries the table holds, how many calls; or `memory random 7 1000`: table, seed, how many calls.
//! A line of the output has the run and what its answers add up to, or how many differ from the lists'.
//! With the argument `times` it has the nanoseconds a call instead.
#![tactic(auto)]

mod harts;
mod image;
mod kept_list;
mod kept_runs;
mod memory_list;
mod memory_runs;
mod merge_list;
mod merge_runs;
mod merging;
mod reporting;
mod tag_list;
mod tag_runs;
mod tag_steps;

use speed_runs::{Run, Told, picoseconds};
use std::alloc::{AllocError, Global};
use std::{env, io};

/// What the calls of a run answered.
fn answers(rt: &HostRuntime, run: &Run) -> io::Result<Told> {
    match run.table {
        "memory" => memory_runs::answers(rt, run),
        "merge" => merge_runs::answers(rt, run),
        "tags" => tag_runs::answers(rt, run),
        "kept" => kept_runs::answers(rt, run),
        "harts" => harts::answers(rt, run),
        _ => Err(io::ErrorKind::InvalidInput.into()),
    }
}

/// How many answers at random differ from those of a plain list.
fn differences(alloc: Global, run: &Run) -> Result<u64, AllocError> {
    match run.table {
        "memory" => memory_list::differences(alloc, run.seed, run.calls),
        "merge" => merge_list::differences(alloc, run.seed, run.calls),
        "tags" => tag_list::differences(alloc, run.seed, run.calls),
        "kept" => kept_list::differences(alloc, run.seed, run.calls),
        _ => Ok(u64::MAX),
    }
}

/// Does a run, and writes its line.
fn tell(rt: &HostRuntime, text: &str, timed: bool) -> io::Result<()> {
    let run = Run::named(text);
    if run.call == "random" {
        let count = differences(rt.alloc(), &run)?;
        return println!(rt; "{text}: {count} differences");
    }
    let told = answers(rt, &run)?;
    if timed {
        println!(rt; "{text}: {} picoseconds", picoseconds(told.took, run.calls))
    } else {
        println!(rt; "{text}: {}", told.sum)
    }
}

fn main(rt: HostRuntime) -> io::Result<()> {
    let timed = env::args(&rt)?.any(|word| word.as_str() == "times");
    for text in rt.lines(rt.alloc()) {
        let text = text?;
        tell(&rt, text.as_str(), timed)?;
    }
    Ok(())
}
