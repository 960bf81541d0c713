//! What runs do to the window of a hart.

ghost use Rattle.std.specs.Prelude.{◌<◌, ◌≤◌, ◌+◌, ◌^◌};

use speed_runs::{Order, Random, Run, shuffled};
use std::alloc::{AllocError, Global};

/// A message or a question.
#[derive(Clone, Copy, Debug)]
pub enum Step {
    /// A Read of a tag, at an address, with its capture.
    Read(u64, u64),
    /// An early Bypass of a tag.
    Early(u64),
    /// The early Bypass of a tag is looked up.
    Look(u64),
    /// A Retire of a tag.
    Retire(u64),
    /// A Squash of a tag and those above it.
    Squash(u64),
    /// What counts for a load of a tag, and the Read that counts for its first byte.
    Count(u64),
    /// The oldest place, how many reports there are, and the lowest early Bypass.
    Ask,
}

/// What stands in the window before a run, and what the run does.
#[derive(Drop)]
pub struct Plan {
    pub before: Vec<Step>,
    pub steps: Vec<Step>,
}

/// The address of the load whose bytes count.
pub const LOAD: u64 = 0x8000_1000;

/// The tags that stay above all others in the worst order.
const HIGH: u64 = 1 << 40;

/// The steps of a run.
pub(crate) fn planned(alloc: Global, run: &Run) -> Result<Plan, AllocError> {
    match (run.call, run.order) {
        ("read", _) => reads(alloc, run),
        ("early", Order::Worst) => middle_bypasses(alloc, run),
        ("early", _) => bypasses(alloc, run),
        ("counting", _) => counts(alloc, run),
        ("squash", _) => squashes(alloc, run),
        _ => questions(alloc, run),
    }
}

/// A Read of a tag, at one of the doublewords of a line.
fn read_of(tag: u64) -> Step {
    Step::Read(tag, LOAD + tag % 8 * 8)
}

/// The tags of the reports of a run, of which each is dropped by a Retire when `entries` came after it. In
/// the worst order half of them stay, and each of the others comes to stand in the middle.
fn tags_of(alloc: Global, run: &Run, count: u32) -> Result<Vec<u64>, AllocError> {
    match run.order {
        Order::Quiet => shuffled(alloc, 1, count),
        Order::Random => shuffled(alloc, run.entries, count),
        Order::Worst => beneath(alloc, run.entries / 2, count),
    }
}

/// Tags that rise, behind so many that are above them.
fn beneath(alloc: Global, high: u32, count: u32) -> Result<Vec<u64>, AllocError> {
    let mut tags = Vec::with_capacity(alloc, count as usize)?;
    for k in 0..count {
        tags.push(if k < high {
            HIGH + u64::from(k)
        } else {
            u64::from(k - high)
        })?;
    }
    Ok(tags)
}

/// Reads, each with the Retire of an earlier one.
fn reads(alloc: Global, run: &Run) -> Result<Plan, AllocError> {
    let mut before = Vec::new(alloc);
    let mut steps = Vec::new(alloc);
    let mut number: u32 = 0;
    let tags = tags_of(alloc, run, run.entries.saturating_add(run.calls))?;
    for tag in &tags {
        if number < run.entries {
            before.push(read_of(*tag))?;
        } else {
            steps.push(Step::Retire(u64::from(number - run.entries)))?;
            steps.push(read_of(*tag))?;
        }
        number = number.wrapping_add(1);
    }
    Ok(Plan { before, steps })
}

/// Early Bypasses, each with the Retire of an earlier one, which is looked up before.
fn bypasses(alloc: Global, run: &Run) -> Result<Plan, AllocError> {
    let mut before = Vec::new(alloc);
    let mut steps = Vec::new(alloc);
    let mut number: u32 = 0;
    let tags = tags_of(alloc, run, run.entries.saturating_add(run.calls))?;
    for tag in &tags {
        if number < run.entries {
            before.push(Step::Early(*tag))?;
        } else {
            let retired = u64::from(number - run.entries);
            steps.push(Step::Look(retired))?;
            steps.push(Step::Retire(retired))?;
            steps.push(Step::Early(*tag))?;
        }
        number = number.wrapping_add(1);
    }
    Ok(Plan { before, steps })
}

/// Early Bypasses that come to stand in the middle, each retired at once.
fn middle_bypasses(alloc: Global, run: &Run) -> Result<Plan, AllocError> {
    let mut before = Vec::new(alloc);
    let tags = tags_of(alloc, run, run.entries - 1)?;
    for tag in &tags {
        before.push(Step::Early(*tag))?;
    }
    let mut steps = Vec::new(alloc);
    for k in 0..run.calls {
        let tag = HIGH / 2 + u64::from(k);
        steps.push(Step::Early(tag))?;
        steps.push(Step::Look(tag))?;
        steps.push(Step::Retire(tag))?;
    }
    Ok(Plan { before, steps })
}

/// What counts for a load: the first one's, any one's, or that of a load with many Reads, of which only the
/// oldest has its bytes.
fn counts(alloc: Global, run: &Run) -> Result<Plan, AllocError> {
    let mut before = Vec::new(alloc);
    for k in 0..run.entries {
        before.push(match run.order {
            Order::Quiet | Order::Random => Step::Read(u64::from(k), LOAD),
            Order::Worst => Step::Read(0, LOAD + u64::from(k.min(1)) * 8),
        })?;
    }
    let mut random = Random::new(11);
    let mut steps = Vec::new(alloc);
    for _ in 0..run.calls {
        steps.push(Step::Count(match run.order {
            Order::Quiet | Order::Worst => 0,
            Order::Random => random.below(u64::from(run.entries)),
        }))?;
    }
    Ok(Plan { before, steps })
}

/// Reads that fill the window, and a Squash of all of them whenever it is full.
fn squashes(alloc: Global, run: &Run) -> Result<Plan, AllocError> {
    let mut steps = Vec::new(alloc);
    let mut number: u32 = 0;
    let tags = tags_of(alloc, run, run.calls)?;
    for tag in &tags {
        steps.push(read_of(*tag))?;
        number = number.wrapping_add(1);
        if number % run.entries == 0 {
            steps.push(Step::Squash(0))?;
        }
    }
    Ok(Plan {
        before: Vec::new(alloc),
        steps,
    })
}

/// Questions about Reads and early Bypasses, of each as many.
fn questions(alloc: Global, run: &Run) -> Result<Plan, AllocError> {
    let mut before = Vec::new(alloc);
    let tags = tags_of(alloc, run, run.entries)?;
    for tag in &tags {
        before.push(if tag % 2 == 0 {
            Step::Early(*tag)
        } else {
            read_of(*tag)
        })?;
    }
    let mut steps = Vec::new(alloc);
    for _ in 0..run.calls {
        steps.push(Step::Ask)?;
    }
    Ok(Plan { before, steps })
}
