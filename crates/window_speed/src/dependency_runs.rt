//! Runs over the marks of registers.

ghost use Rattle.std.specs.Prelude.{◌<◌};

use crate::accesses::{name, place};
use crate::insns::{Known, atomic, branch, exchange, load, store, sum};
use dep_tracker::Deps;
use dependency_rules::{
    first_by_address, first_by_address_between, first_by_control, first_by_data,
};
use rvwmo_model::OpKind;
use speed_runs::{Order, Random, Run, Told, read};
use std::alloc::{AllocError, Global};
use std::io;
use std::time::Instant;
use tandem_base::{Mark, OpName};

/// An instruction that retires, with the latest of its operations.
#[derive(Clone, Copy, Debug)]
struct Step {
    known: Known,
    start: Option<Mark>,
}

/// What the calls of a run answered.
pub(crate) fn answers(rt: &HostRuntime, run: &Run) -> io::Result<Told> {
    let program = program(rt.alloc(), run)?;
    let mut deps = Deps::new();
    walk(&mut deps, &program, run.entries);
    let start = Instant::now(rt)?;
    let sum = if run.call == "asked" {
        ask(&deps, &program, run.calls)
    } else {
        walk(&mut deps, &program, run.calls)
    };
    read(rt, &start, sum)
}

/// The instructions of a run, over and over as many as it has entries.
fn program(alloc: Global, run: &Run) -> Result<Vec<Step>, AllocError> {
    let mut random = Random::new(7);
    let mut steps = Vec::with_capacity(alloc, run.entries as usize)?;
    for k in 0..run.entries {
        let kind = match run.order {
            Order::Quiet => u64::from(k % 4),
            Order::Random => random.below(6),
            Order::Worst => u64::from(4 + k % 2),
        };
        steps.push(instruction(kind, k))?;
    }
    Ok(steps)
}

/// Instruction `k`, of a kind.
fn instruction(kind: u64, k: u32) -> Step {
    let rd = (k % 31) as u8 + 1;
    let rs1 = (k % 29) as u8;
    let rs2 = (k % 23) as u8;
    let mark = Some(Mark {
        name: name(u64::from(k)),
        place: place(k),
    });
    match kind {
        0 => Step {
            known: load(rd, rs1),
            start: mark,
        },
        1 => Step {
            known: sum(rd, rs1, rs2),
            start: None,
        },
        2 => Step {
            known: store(rs1, rs2),
            start: None,
        },
        3 => Step {
            known: branch(rs1, rs2),
            start: None,
        },
        4 => Step {
            known: exchange(rd, rs1),
            start: None,
        },
        _ => Step {
            known: atomic(rd, rs1, rs2),
            start: mark,
        },
    }
}

/// So many instructions retire. The answer has the message of the last mark of a branch.
fn walk(deps: &mut Deps, program: &[Step], calls: u32) -> u64 {
    let mut at: usize = 0;
    for _ in 0..calls {
        match program.get(at) {
            None => {}
            Some(step) => deps.retire(step.known.insn(), step.start),
        }
        at = if at.wrapping_add(1) < program.len() {
            at.wrapping_add(1)
        } else {
            0
        };
    }
    message(deps.control()).wrapping_add(message(deps.past_address()))
}

/// The message of a mark.
fn message(mark: Option<Mark>) -> u64 {
    match mark {
        None => 0,
        Some(mark) => u64::from(mark.place.message),
    }
}

/// So many instructions are asked for the operations that they depend on and that came after theirs.
fn ask(deps: &Deps, program: &[Step], calls: u32) -> u64 {
    let mut sum: u64 = 0;
    let mut at: usize = 0;
    for _ in 0..calls {
        match program.get(at) {
            None => {}
            Some(step) => sum = sum.wrapping_add(asked(deps, step)),
        }
        at = if at.wrapping_add(1) < program.len() {
            at.wrapping_add(1)
        } else {
            0
        };
    }
    sum
}

/// How many of the rules of dependencies an instruction breaks with an operation at place 3.
fn asked(deps: &Deps, step: &Step) -> u64 {
    let here = place(3);
    let insn = step.known.insn();
    one(first_by_address(deps, insn, here))
        + one(first_by_data(deps, insn, here))
        + one(first_by_control(deps, OpKind::Store, here))
        + one(first_by_address_between(deps, OpKind::Store, here))
}

/// 1 where there is an operation.
fn one(first: Option<OpName>) -> u64
    ensures { result < 2 }
{
    if first.is_some() { 1 } else { 0 }
}
