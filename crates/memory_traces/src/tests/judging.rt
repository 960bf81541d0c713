//! What `plain_judge` and `plain_last` answer to the traces of the tables.
ghost use Rattle.std.specs.Prelude.{◌≡◌, ◌++◌, IfOk};
ghost use Rattle.rvwmo_model.specs.InForm.{InForm};

use super::table::Lists;
use crate::forms::is_in_form;
use rvwmo_model::{
    InitialBytes, InsnList, Judged, Last, Op, OpList, Retired, Trace, plain_judge, plain_last,
};
use std::alloc::Global;
use std::test::Fail;

/// Memory that is all one byte at first.
#[derive(Drop)]
pub struct Filled {
    pub byte: u8,
}

impl InitialBytes for Filled {
    ghost use Rattle.std.specs.Prelude.{◌≡◌};

    ghost initial_of = { λ filled x. filled.byte };

    fn initial(&self, _addr: u64) -> u8 {
        self.byte
    }
}

fn insn_list(alloc: Global, insns: &[Retired]) -> Result<InsnList, Fail>
    ensures { IfOk result (λ list. list ≡ insns.now) }
{
    let mut list = InsnList::new(alloc);
    for w in insns {
        list.push(*w)?;
    }
    Ok(list)
}

fn op_list(alloc: Global, ops: &[Op]) -> Result<OpList, Fail>
    ensures { IfOk result (λ list. list ≡ ops.now) }
{
    let mut list = OpList::new(alloc);
    for o in ops {
        list.push(*o)?;
    }
    Ok(list)
}

/// The trace of these lists, where it is in form. In `all` stand its operations, and then its early
/// stores.
fn formed(
    alloc: Global,
    granule: u8,
    insns: &[Retired],
    ops: &[Op],
    early: &[Op],
    all: &[Op],
) -> Result<Trace, Fail>
    requires { all.now ≡ ops.now ++ early.now }
    ensures { IfOk result InForm }
{
    if !is_in_form(granule, insns, ops, early, all) {
        return Err(Fail::from("a trace that isn't in form"));
    }
    Ok(Trace {
        insns: insn_list(alloc, insns)?,
        ops: op_list(alloc, ops)?,
        early: op_list(alloc, early)?,
        granule,
    })
}

fn trace_of(alloc: Global, lists: &Lists) -> Result<Trace, Fail>
    ensures { IfOk result InForm }
{
    let (ops, early) = lists.all.split_at(lists.count.min(lists.all.len()));
    formed(alloc, lists.granule, &lists.insns, ops, early, &lists.all)
}

/// What is answered to the trace of these lists over that memory.
pub fn judged_over<I: InitialBytes>(
    alloc: Global,
    image: &I,
    lists: &Lists,
) -> Result<Judged, Fail> {
    let trace = trace_of(alloc, lists)?;
    Ok(plain_judge(alloc, image, &trace)?)
}

/// What is answered to the trace of these lists, over memory that is all that byte at first.
pub fn judged(alloc: Global, byte: u8, lists: &Lists) -> Result<Judged, Fail> {
    judged_over(alloc, &Filled { byte }, lists)
}

/// What is answered to that trace at its newest step, over memory that is 0 at first.
pub fn newest(alloc: Global, lists: &Lists, hart: u8, tag: Option<u64>) -> Result<Last, Fail> {
    let trace = trace_of(alloc, lists)?;
    Ok(plain_last(alloc, &Filled { byte: 0 }, &trace, hart, tag)?)
}
