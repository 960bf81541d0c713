//! Traces that grow: for each law some that show what it says, and some that show what would be without
//! the premise that carries it. The answers come from the text of the memory model.
mod growing;
mod kinds;
mod mending;
mod parts;
mod places;
mod reserved;
mod sources;
mod windows;

use super::judging::judged;
use super::table::{GrownRow, Step, Tables, lists_of, wanted};
use growing::is_step;
use kinds::is_well_kinded;
use std::alloc::Global;
use std::process::Abort;
use std::test::Fail;

/// The case that a step starts from.
fn from_of(step: Step, case: u8) -> u8 {
    match step {
        Step::Start => case,
        Step::Early(from) => from,
        Step::EarlyBelow(from) => from,
        Step::Insn(from) => from,
        Step::InsnBetween(from) => from,
        Step::Stores(from) => from,
        Step::StoresBelow(from) => from,
    }
}

fn each<R: Abort>(
    rt: &R,
    alloc: Global,
    cases: &[GrownRow],
    tables: &Tables<'_>,
) -> Result<(), Fail> {
    for case in cases {
        let (number, granule, step, want) = *case;
        let before = lists_of(alloc, tables, from_of(step, number), granule)?;
        let after = lists_of(alloc, tables, number, granule)?;
        assert!(rt; is_well_kinded(&after), "case {}", number);
        assert!(rt; is_step(alloc, &before, &after, step)?, "case {}", number);
        let answer = judged(alloc, 0, &after)?;
        assert_eq!(rt; answer, wanted(want), "case {}", number);
    }
    Ok(())
}

#[test]
fn sources_change_only_with_a_broken_pair(rt: HostRuntime) -> Result<(), Fail> {
    let tables = Tables {
        insns: &sources::INSNS,
        ops: &sources::OPS,
        early: &sources::EARLY,
    };
    each(&rt, rt.alloc(), &sources::CASES, &tables)
}

#[test]
fn offences_stay(rt: HostRuntime) -> Result<(), Fail> {
    let tables = Tables {
        insns: &mending::INSNS,
        ops: &mending::OPS,
        early: &mending::EARLY,
    };
    each(&rt, rt.alloc(), &mending::CASES, &tables)
}

#[test]
fn growths_break_what_is_theirs(rt: HostRuntime) -> Result<(), Fail> {
    let tables = Tables {
        insns: &places::INSNS,
        ops: &places::OPS,
        early: &places::EARLY,
    };
    each(&rt, rt.alloc(), &places::CASES, &tables)
}

#[test]
fn what_comes_is_preceded(rt: HostRuntime) -> Result<(), Fail> {
    let tables = Tables {
        insns: &windows::INSNS,
        ops: &windows::OPS,
        early: &windows::EARLY,
    };
    each(&rt, rt.alloc(), &windows::CASES, &tables)
}

#[test]
fn reservations_cover_their_block(rt: HostRuntime) -> Result<(), Fail> {
    let tables = Tables {
        insns: &reserved::INSNS,
        ops: &reserved::OPS,
        early: &reserved::EARLY,
    };
    each(&rt, rt.alloc(), &reserved::CASES, &tables)
}
