//! Runs over a merge buffer.

ghost use Rattle.std.specs.Prelude.{◌<◌, ◌≤◌, ◌+◌, ◌^◌};

use crate::merging::Numbered;
use merge_buffer::Drain;
use msg_frames::{LineWrite, Piece};
use speed_runs::{Order, Random, Run, Told, read};
use std::alloc::{AllocError, Global};
use std::io;
use std::time::Instant;
use tandem_base::Bytes8;

/// A message of a run: an Insert of eight bytes, or a Write.
#[derive(Clone, Copy, Debug)]
enum Step {
    Insert(u64),
    Write(LineWrite),
}

/// What the calls of a run answered: Inserts, each with its share of a Write.
pub(crate) fn answers(rt: &HostRuntime, run: &Run) -> io::Result<Told> {
    let mut buffer = Numbered::new(rt.alloc(), run.entries.saturating_add(8))?;
    if run.call == "reserve" {
        return read(rt, &Instant::now(rt)?, buffer.count() as u64);
    }
    let steps = match run.order {
        Order::Quiet => quiet(rt.alloc(), run, &mut buffer)?,
        Order::Random => scattered(rt.alloc(), run)?,
        Order::Worst => deep(rt.alloc(), run, &mut buffer)?,
    };
    let start = Instant::now(rt)?;
    let sum = walk(&mut buffer, &steps);
    read(rt, &start, sum)
}

/// Eight bytes.
fn bytes() -> Option<Bytes8> {
    Bytes8::new(&[1, 2, 3, 4, 5, 6, 7, 8])
}

/// The Write of a line in which these doublewords wait.
fn written(line: u64, doublewords: u8) -> LineWrite {
    let mut bytes = [0; 64];
    let mut mask = 0;
    for k in 0..64u8 {
        if doublewords >> (k / 8) & 1 == 1 {
            bytes[k as usize] = k % 8 + 1;
            mask |= 1 << k;
        }
    }
    LineWrite { line, mask, bytes }
}

/// Does the steps, and adds up what was drained.
fn walk(buffer: &mut Numbered, steps: &[Step]) -> u64 {
    let Some(bytes) = bytes() else {
        return 0;
    };
    let mut sum: u64 = 0;
    let mut tag: u64 = 0;
    for step in steps {
        match step {
            Step::Insert(addr) => {
                tag = tag.wrapping_add(1);
                buffer.insert(tag, &Piece { addr: *addr, bytes });
            }
            Step::Write(write) => sum = sum.wrapping_add(drained(buffer, write)),
        }
    }
    sum
}

/// A Write, and the tags of what it drained, added up.
fn drained(buffer: &mut Numbered, write: &LineWrite) -> u64 {
    match buffer.write(write) {
        Some(Drain::Parts(count)) => tags(buffer, count),
        _ => 0,
    }
}

/// The tags of the parts, added up.
fn tags(buffer: &Numbered, count: u32) -> u64 {
    let mut sum: u64 = 0;
    for k in 0..count {
        if let Some(part) = buffer.part(k) {
            sum = sum.wrapping_add(part.tag);
        }
    }
    sum
}

/// Inserts a doubleword of a line.
fn put(buffer: &mut Numbered, line: u64, doubleword: u64) {
    if let Some(bytes) = bytes() {
        let addr = line.wrapping_add(doubleword.wrapping_mul(8));
        buffer.insert(0, &Piece { addr, bytes });
    }
}

/// Lines that are filled one after the other and written in that order, with so many full lines behind.
fn quiet(alloc: Global, run: &Run, buffer: &mut Numbered) -> Result<Vec<Step>, AllocError> {
    let each = run.entries.clamp(1, 8);
    let lines = (run.entries / each).max(1);
    let around = lines.saturating_add(1).max(1);
    for k in 0..run.entries {
        put(buffer, run.order.line(k / each), u64::from(k % each));
    }
    let mut steps = Vec::new(alloc);
    for k in 0..run.calls {
        let number = lines.wrapping_add(k / each) % around;
        steps.push(Step::Insert(run.order.line(number) + u64::from(k % each) * 8))?;
        if k % each == each - 1 {
            let doublewords = ((1u16 << each) - 1) as u8;
            steps.push(Step::Write(written(run.order.line(k / each % around), doublewords)))?;
        }
    }
    Ok(steps)
}

/// Any line's doublewords, each line written once a doubleword comes again.
fn scattered(alloc: Global, run: &Run) -> Result<Vec<Step>, AllocError> {
    let lines = (run.entries / 4).max(1);
    let mut waiting = Vec::from_elem(alloc, 0u8, lines as usize)?;
    let mut random = Random::new(11);
    let mut steps = Vec::new(alloc);
    for _ in 0..run.calls {
        let number = random.below(u64::from(lines)) as u32;
        let doubleword = random.below(8) as u32;
        let line = run.order.line(number);
        let there = waiting.get(number as usize).copied().unwrap_or(0);
        if there >> doubleword & 1 == 1 {
            steps.push(Step::Write(written(line, there)))?;
        }
        let left = if there >> doubleword & 1 == 1 {
            0
        } else {
            there
        };
        if let Some(held) = waiting.get_mut(number as usize) {
            *held = left | 1 << doubleword;
        }
        steps.push(Step::Insert(line + u64::from(doubleword) * 8))?;
    }
    Ok(steps)
}

/// Deep lines with one Insert each, written and filled again.
fn deep(alloc: Global, run: &Run, buffer: &mut Numbered) -> Result<Vec<Step>, AllocError> {
    for k in 0..run.entries {
        put(buffer, run.order.line(k), 0);
    }
    let mut random = Random::new(11);
    let mut steps = Vec::new(alloc);
    for _ in 0..run.calls {
        let line = run.order.line(random.below(u64::from(run.entries)) as u32);
        steps.push(Step::Write(written(line, 1)))?;
        steps.push(Step::Insert(line))?;
    }
    Ok(steps)
}
