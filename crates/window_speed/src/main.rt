//! Calls of the tables and rules that judge the window of a hart, in runs of a given size and order, for their
//! times. A line of the input names a run, as `stores pass quiet 16 1000`: table, call, order, how many
//! entries the table holds, how many calls. A line of the output has the run and what its answers add up to.
//! With the argument `times` it has the nanoseconds a call instead.
#![tactic(auto)]

mod accesses;
mod dependency_runs;
mod drain_runs;
mod insns;
mod line_parts;
mod overlap_runs;
mod pairing_runs;
mod retiring;
mod source_runs;
mod store_runs;

use speed_runs::{Run, Told, picoseconds};
use std::{env, io};

/// What the calls of a run answered.
fn answers(rt: &HostRuntime, run: &Run) -> io::Result<Told> {
    match run.table {
        "dependencies" => dependency_runs::answers(rt, run),
        "stores" => store_runs::answers(rt, run),
        "sources" => source_runs::answers(rt, run),
        "pairing" => pairing_runs::answers(rt, run),
        "drains" => drain_runs::answers(rt, run),
        "overlaps" => overlap_runs::answers(rt, run),
        _ => Err(io::ErrorKind::InvalidInput.into()),
    }
}

/// Does a run, and writes its line.
fn tell(rt: &HostRuntime, text: &str, timed: bool) -> io::Result<()> {
    let run = Run::named(text);
    let told = answers(rt, &run)?;
    if timed {
        println!(rt; "{text}: {} picoseconds", picoseconds(told.took, run.calls))
    } else {
        println!(rt; "{text}: {}", told.sum)
    }
}

fn main(rt: HostRuntime) -> io::Result<()> {
    let timed = env::args(&rt)?.any(|word| word.as_str() == "times");
    for text in rt.lines(rt.alloc()) {
        let text = text?;
        tell(&rt, text.as_str(), timed)?;
    }
    Ok(())
}
