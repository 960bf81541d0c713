//! Traces whose answers come from the text of the model and from an independent reading.
mod blocks;
mod carrying;
mod choices;
mod dependencies;
mod finer;
mod initial;
mod near;
pub mod pairs;
pub mod rows;
mod rules;
mod shapes;

use super::judging::{Filled, judged, judged_over};
use super::table::{CaseRow, Lists, Tables, X, lists_of, wanted};
use elf_image::Image;
use rvwmo_model::{InitialBytes, Judged};
use std::alloc::Global;
use std::process::Abort;
use std::test::Fail;

fn each_over<R: Abort, I: InitialBytes>(
    rt: &R,
    alloc: Global,
    image: &I,
    cases: &[CaseRow],
    tables: &Tables<'_>,
) -> Result<(), Fail> {
    for case in cases {
        let (number, granule, want) = *case;
        let lists = lists_of(alloc, tables, number, granule)?;
        let answer = judged_over(alloc, image, &lists)?;
        assert_eq!(rt; answer, wanted(want), "case {}", number);
    }
    Ok(())
}

fn each<R: Abort>(
    rt: &R,
    alloc: Global,
    cases: &[CaseRow],
    tables: &Tables<'_>,
) -> Result<(), Fail> {
    each_over(rt, alloc, &Filled { byte: 0 }, cases, tables)
}

#[test]
fn judges_nothing(rt: HostRuntime) -> Result<(), Fail> {
    let alloc = rt.alloc();
    let nothing = Lists {
        insns: Vec::new(alloc),
        all: Vec::new(alloc),
        count: 0,
        granule: 0,
    };
    assert_eq!(rt; judged(alloc, 7, &nothing)?, Judged::Legal);
    Ok(())
}

// Rows, pairs, rules and shapes.
#[test]
fn judges_tables(rt: HostRuntime) -> Result<(), Fail> {
    let alloc = rt.alloc();
    let tables = Tables {
        insns: &rows::INSNS,
        ops: &rows::OPS,
        early: &rows::EARLY,
    };
    each(&rt, alloc, &rows::CASES, &tables)?;
    let tables = Tables {
        insns: &pairs::INSNS,
        ops: &pairs::OPS,
        early: &pairs::EARLY,
    };
    each(&rt, alloc, &pairs::CASES, &tables)?;
    let tables = Tables {
        insns: &rules::INSNS,
        ops: &rules::OPS,
        early: &rules::EARLY,
    };
    each(&rt, alloc, &rules::CASES, &tables)?;
    let tables = Tables {
        insns: &shapes::INSNS,
        ops: &shapes::OPS,
        early: &shapes::EARLY,
    };
    each(&rt, alloc, &shapes::CASES, &tables)
}

#[test]
fn judges_choices(rt: HostRuntime) -> Result<(), Fail> {
    let alloc = rt.alloc();
    let tables = Tables {
        insns: &choices::INSNS,
        ops: &choices::OPS,
        early: &choices::EARLY,
    };
    each(&rt, alloc, &choices::CASES, &tables)?;
    let tables = Tables {
        insns: &dependencies::INSNS,
        ops: &dependencies::OPS,
        early: &dependencies::EARLY,
    };
    each(&rt, alloc, &dependencies::CASES, &tables)
}

#[test]
fn tells_near_readings_apart(rt: HostRuntime) -> Result<(), Fail> {
    let alloc = rt.alloc();
    let tables = Tables {
        insns: &near::INSNS,
        ops: &near::OPS,
        early: &near::EARLY,
    };
    each(&rt, alloc, &near::CASES, &tables)?;
    let tables = Tables {
        insns: &carrying::INSNS,
        ops: &carrying::OPS,
        early: &carrying::EARLY,
    };
    each(&rt, alloc, &carrying::CASES, &tables)?;
    let tables = Tables {
        insns: &finer::INSNS,
        ops: &finer::OPS,
        early: &finer::EARLY,
    };
    each(&rt, alloc, &finer::CASES, &tables)
}

#[test]
fn loads_take_initial_values(rt: HostRuntime) -> Result<(), Fail> {
    let alloc = rt.alloc();
    let tables = Tables {
        insns: &initial::INSNS,
        ops: &initial::OPS,
        early: &initial::EARLY,
    };
    each_over(&rt, alloc, &Filled { byte: 7 }, &initial::SEVENS, &tables)?;
    let image = Image::flat(alloc, b"abcdefgh", X, &[]).map_err(|_| "no image")?;
    each_over(&rt, alloc, &image, &initial::LOADED, &tables)
}

#[test]
fn judges_blocks(rt: HostRuntime) -> Result<(), Fail> {
    let alloc = rt.alloc();
    for (number, case) in blocks::CASES.iter().enumerate() {
        let answer = judged(alloc, 0, &blocks::lists_of(alloc, case)?)?;
        assert_eq!(rt; answer, blocks::expected(case), "case {number}");
    }
    Ok(())
}
