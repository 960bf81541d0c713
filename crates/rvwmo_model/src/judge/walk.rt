//! A walk through the instructions of a hart that finds what depends on one of them.

ghost use Rattle.std.specs.Prelude.{◌≡◌, ◌++◌, List, [], not, true, IfOk};
ghost use Rattle.std.specs.Bool.{Decides};
ghost use Rattle.std.specs.List.{filter, list_any};
ghost use Rattle.rv_decode.specs.Registers;
ghost use Rattle.rv_decode.specs.declared.registers.Register.{Register};
ghost use Rattle.rvwmo_model.specs.Walk;

use crate::instructions::Retired;
use rv_decode::Insn;
use rv_decode::registers::{
    Register, address_source, carries, control_sources, data_source, is_address, is_control,
    is_data, named_csr, named_rd, sets,
};
use std::alloc::{AllocError, Global};

/// The use of a register in which a dependency is looked for.
#[derive(Clone, Copy)]
pub enum Use {
    Address,
    Data,
    Control,
}

/// Which instruction is looked for: one of this hart, with a tag from `from` to `to`, that depends on
/// the one under the tag `start` by a register in this use.
#[derive(Clone, Copy)]
pub struct Search {
    pub hart: u8,
    pub start: u64,
    pub from: u64,
    pub to: u64,
    pub by: Use,
}

fn uses(by: Use, insn: &Insn, r: Register) -> bool
    ensures { result ≡ Walk.use_of by insn.now r }
{
    match by {
        Use::Address => is_address(insn, r),
        Use::Data => is_data(insn, r),
        Use::Control => is_control(insn, r),
    }
}

/// Whether an instruction has a register in that use.
fn has_use(by: Use, insn: &Insn) -> bool
    ensures { Decides result ((r : Register) × (Walk.use_of by insn.now r ≡ true)) }
{
    match by {
        Use::Address => address_source(insn).is_some(),
        Use::Data => data_source(insn).is_some(),
        Use::Control => {
            let (first, second) = control_sources(insn);
            first.is_some() || second.is_some()
        }
    }
}

fn carries_some(insn: &Insn, marks: &[Register], to: Register) -> bool
    ensures { result ≡ list_any (λ p. Registers.carries insn.now p to) marks.now }
{
    for p in marks {
        if carries(insn, *p, to) {
            return true;
        }
    }
    false
}

fn fresh(
    w: &Retired,
    starts: bool,
    marks: &[Register],
    target: Option<Register>,
) -> Option<Register>
    ensures { result ≡ Walk.fresh w.now starts marks.now target }
{
    match target {
        None => None,
        Some(r) => {
            if sets(&w.insn, w.stored, r) && (starts || carries_some(&w.insn, marks, r)) {
                Some(r)
            } else {
                None
            }
        }
    }
}

fn keep_unset(marks: &mut Vec<Register>, w: &Retired)
    ensures { marks.new.items ≡ filter (λ r. not (Registers.sets w.now.insn w.now.stored r)) marks.old.items }
{
    marks.retain(|r| !sets(&w.insn, w.stored, *r));
}

fn push_some(marks: &mut Vec<Register>, r: Option<Register>) -> Result<(), AllocError>
    ensures { IfOk result (λ _. marks.new.items ≡ marks.old.items ++ Walk.list_of r) }
{
    match r {
        None => Ok(()),
        Some(register) => {
            marks.push(register)?;
            Ok(())
        }
    }
}

#[tactic(auto, using(crate::proofs::Marks::mark_nothing))]
fn mark(marks: &mut Vec<Register>, w: &Retired, starts: bool) -> Result<(), AllocError>
    ensures { IfOk result (λ _. marks.new.items ≡ Walk.mark w.now starts marks.old.items) }
{
    if marks.is_empty() && !starts {
        return Ok(());
    }
    let rd = fresh(w, starts, marks.as_slice(), named_rd(&w.insn));
    let csr = fresh(w, starts, marks.as_slice(), named_csr(&w.insn));
    keep_unset(marks, w);
    push_some(marks, rd)?;
    push_some(marks, csr)?;
    Ok(())
}

fn uses_some(by: Use, insn: &Insn, marks: &[Register]) -> bool
    ensures { result ≡ list_any (λ r. Walk.use_of by insn.now r) marks.now }
{
    for r in marks {
        if uses(by, insn, *r) {
            return true;
        }
    }
    false
}

fn is_found(search: Search, marks: &[Register], w: &Retired) -> bool
    ensures { result ≡ Walk.is_found search marks.now w.now }
{
    search.from <= w.tag && w.tag <= search.to && uses_some(search.by, &w.insn, marks)
}

/// Whether an instruction is asked about: it has a tag that is, and a register in that use.
fn asks(search: Search, w: &Retired) -> bool
    ensures { Decides result (Walk.Asks search w.now) }
{
    search.from <= w.tag && w.tag <= search.to && has_use(search.by, &w.insn)
}

/// Whether some instruction of the hart is asked about. It is a quick look before the walk.
fn asks_some(search: Search, insns: &[Retired]) -> bool
    ensures { Decides result (Walk.AsksSome search insns.now) }
{
    for w in insns {
        if w.hart == search.hart && asks(search, w) {
            return true;
        }
    }
    false
}

/// Whether there is such an instruction.
pub fn finds(alloc: Global, search: Search, insns: &[Retired]) -> Result<bool, AllocError>
    ensures { IfOk result (λ found. found ≡ Walk.finds search insns.now) }
{
    if !asks_some(search, insns) {
        return Ok(false);
    }
    walk_finds(alloc, search, insns)
}

fn walk_finds(alloc: Global, search: Search, insns: &[Retired]) -> Result<bool, AllocError>
    ensures { IfOk result (λ found. found ≡ Walk.finds search insns.now) }
{
    let mut marks: Vec<Register> = Vec::new(alloc);
    for w in insns {
        if w.hart == search.hart {
            if is_found(search, marks.as_slice(), w) {
                return Ok(true);
            }
            mark(&mut marks, w, w.tag == search.start)?;
        }
    }
    Ok(false)
}

fn add_user(tags: &mut Vec<u64>, by: Use, w: &Retired, marks: &[Register]) -> Result<(), AllocError>
    ensures { IfOk result (λ _. tags.new.items
        ≡ tags.old.items ++ Walk.tag_if (list_any (λ r. Walk.use_of by w.now.insn r) marks.now) w.now.tag) }
{
    if uses_some(by, &w.insn, marks) {
        tags.push(w.tag)?;
    }
    Ok(())
}

/// Goes on by one instruction: notes its tag where it uses what is marked, and marks what it sets.
fn step_by(
    tags: &mut Vec<u64>,
    marks: &mut Vec<Register>,
    by: Use,
    w: &Retired,
    starts: bool,
) -> Result<(), AllocError>
    ensures tags { IfOk result (λ _. tags.new.items
        ≡ tags.old.items ++ Walk.tag_if (list_any (λ r. Walk.use_of by w.now.insn r) marks.old.items) w.now.tag) }
    ensures marks { IfOk result (λ _. marks.new.items ≡ Walk.mark w.now starts marks.old.items) }
{
    add_user(tags, by, w, marks.as_slice())?;
    mark(marks, w, starts)
}

/// The tags of the instructions of a hart that depend, by a register in that use, on the one under the
/// tag `start`.
pub fn tags_on(
    alloc: Global,
    by: Use,
    hart: u8,
    start: u64,
    insns: &[Retired],
) -> Result<Vec<u64>, AllocError>
    ensures { IfOk result (λ tags. tags.items ≡ Walk.tags_on by hart start [] insns.now) }
{
    let mut tags = Vec::new(alloc);
    let mut marks: Vec<Register> = Vec::new(alloc);
    for w in insns {
        if w.hart == hart {
            step_by(&mut tags, &mut marks, by, w, w.tag == start)?;
        }
    }
    Ok(tags)
}
