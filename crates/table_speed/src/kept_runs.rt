//! Runs over kept operations.

ghost use Rattle.std.specs.Prelude.{◌<◌, ◌≤◌, ◌+◌, ◌^◌};

use kept_ops::{Kept, KeptOp};
use rvwmo_model::OpKind;
use speed_runs::{Order, Run, Told, read, shuffled};
use std::alloc::{AllocError, Global};
use std::io;
use std::time::Instant;
use tandem_base::{Bytes8, Extent, OpName, Position, Took};

/// What is done to the table in a run.
#[derive(Clone, Copy, Debug)]
enum Step {
    /// An operation of a place is kept.
    Keep(u32),
    /// Those up to a place go.
    Prune(u32),
    /// How many are kept.
    Count,
}

/// What stands in the table before a run, and what the run does.
#[derive(Drop)]
struct Plan {
    before: Vec<Step>,
    steps: Vec<Step>,
}

/// The places that stay behind all others in the worst order.
const HIGH: u32 = 1 << 31;

/// What the calls of a run answered.
pub(crate) fn answers(rt: &HostRuntime, run: &Run) -> io::Result<Told> {
    let mut kept = Kept::new(rt.alloc(), run.entries)?;
    if run.call == "reserve" {
        return read(rt, &Instant::now(rt)?, kept.count() as u64);
    }
    let Plan { before, steps } = planned(rt.alloc(), run)?;
    let Some(mut op) = operation() else {
        return Err(io::ErrorKind::InvalidInput.into());
    };
    walk(&mut kept, &mut op, &before);
    let start = Instant::now(rt)?;
    let sum = walk(&mut kept, &mut op, &steps);
    read(rt, &start, sum)
}

/// A load of eight bytes.
pub(crate) fn operation() -> Option<KeptOp> {
    Some(KeptOp {
        name: OpName {
            hart: 0,
            tag: 1,
            part: 0,
        },
        place: place(0),
        kind: OpKind::Load,
        extent: Extent::new(0x8000_1000, 8)?,
        mask: 0xff,
        put: Bytes8::new(&[0; 8])?,
        atomic: false,
        sources: [None; 8],
        lead: None,
    })
}

/// The place of a message.
fn place(message: u32) -> Position {
    Position {
        message,
        insert: message,
    }
}

/// Does the steps, and adds up what they answer.
fn walk(kept: &mut Kept, op: &mut KeptOp, steps: &[Step]) -> u64 {
    let mut sum: u64 = 0;
    for step in steps {
        match step {
            Step::Keep(message) => {
                op.place = place(*message);
                sum = sum.wrapping_add(if kept.keep(op) == Took::Yes { 1 } else { 0 });
            }
            Step::Prune(message) => kept.prune(Some(place(*message))),
            Step::Count => sum = sum.wrapping_add(kept.count() as u64),
        }
    }
    sum
}

/// The steps of a run.
fn planned(alloc: Global, run: &Run) -> Result<Plan, AllocError> {
    match (run.call, run.order) {
        ("count", _) => counts(alloc, run),
        (_, Order::Quiet) => keeps(alloc, run, 1),
        (_, Order::Random) => keeps(alloc, run, run.entries),
        (_, Order::Worst) => falling(alloc, run),
    }
}

/// Operations, each of which drops an earlier one. Each block of so many places comes in any order.
fn keeps(alloc: Global, run: &Run, block: u32) -> Result<Plan, AllocError>
    requires { 0 < block }
{
    let mut before = Vec::new(alloc);
    let mut steps = Vec::new(alloc);
    let mut number: u32 = 0;
    let messages = shuffled(alloc, block, run.entries.saturating_add(run.calls))?;
    for message in &messages {
        let keep = Step::Keep((*message % u64::from(HIGH)) as u32);
        if number < run.entries {
            before.push(keep)?;
        } else {
            steps.push(Step::Prune(number - run.entries))?;
            steps.push(keep)?;
        }
        number = number.wrapping_add(1);
    }
    Ok(Plan { before, steps })
}

/// Operations before all others, which came from the last to the first, each dropped at once.
fn falling(alloc: Global, run: &Run) -> Result<Plan, AllocError> {
    let mut before = Vec::new(alloc);
    for k in 1..run.entries {
        before.push(Step::Keep(u32::MAX - k))?;
    }
    let mut steps = Vec::new(alloc);
    for k in 0..run.calls {
        steps.push(Step::Keep(k % HIGH))?;
        steps.push(Step::Prune(k % HIGH))?;
    }
    Ok(Plan { before, steps })
}

/// How many there are, again and again.
fn counts(alloc: Global, run: &Run) -> Result<Plan, AllocError> {
    let mut before = Vec::new(alloc);
    for k in 0..run.entries {
        before.push(Step::Keep(k))?;
    }
    let mut steps = Vec::new(alloc);
    for _ in 0..run.calls {
        steps.push(Step::Count)?;
    }
    Ok(Plan { before, steps })
}
