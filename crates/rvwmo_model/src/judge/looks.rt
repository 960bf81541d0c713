//! Quick looks: whether some pair of a rule is broken. From where an operation loads is found once, and
//! not for each pair that it is in.

ghost use Rattle.std.specs.Prelude.{◌≡◌, ◌==◌, false, IfOk};
ghost use Rattle.std.specs.List.{list_any};
ghost use Rattle.rvwmo_model.specs.Looks;
ghost use Rattle.rvwmo_model.specs.Rules.{R3, R12};

use super::dependents::{some_address, some_address_between, some_control, some_data};
use super::kinds::is_amo_or_sc;
use super::rules::depends_by_both;
use super::sources::{insn_of, is_operation, source};
use crate::operations::Op;
use crate::preserved::Rule;
use crate::traces::Trace;
use std::alloc::{AllocError, Global};

/// Whether `b` comes after `a` in program order, and before it in global order.
pub fn is_against(a: &Op, b: &Op) -> bool
    ensures { result ≡ Looks.is_against a.now b.now }
{
    b.name.hart == a.name.hart && a.name.tag < b.name.tag && b.precedes(a)
}

fn has_tag(tags: &[u64], tag: u64) -> bool
    ensures { result ≡ list_any (λ k. k == tag) tags.now }
{
    for k in tags {
        if *k == tag {
            return true;
        }
    }
    false
}

fn add_tag(tags: &mut Vec<u64>, tag: u64) -> Result<(), AllocError>
    ensures { IfOk result (λ _. tags.new.items ≡ Looks.with_tag tag tags.old.items) }
{
    if !has_tag(tags.as_slice(), tag) {
        tags.push(tag)?;
    }
    Ok(())
}

fn add_source(tags: &mut Vec<u64>, t: &Trace, b: &Op, source: &Option<Op>) -> Result<(), AllocError>
    ensures { IfOk result (λ _. tags.new.items ≡ Looks.with_source t.now b.now source.now tags.old.items) }
{
    match source {
        None => Ok(()),
        Some(s) => {
            if s.name.hart == b.name.hart && is_operation(t.ops.items(), s) {
                add_tag(tags, s.name.tag)?;
            }
            Ok(())
        }
    }
}

fn add_byte(tags: &mut Vec<u64>, t: &Trace, b: &Op, x: u64) -> Result<(), AllocError>
    ensures { IfOk result (λ _. tags.new.items ≡ Looks.with_byte t.now b.now x tags.old.items) }
{
    if b.reads(x) {
        add_source(tags, t, b, &source(t, b, x))?;
    }
    Ok(())
}

/// The tags of the instructions of its own hart from which an operation loads.
#[tactic(auto, unfolding(crate::specs::Looks::tags_from))]
fn tags_read(alloc: Global, t: &Trace, b: &Op) -> Result<Vec<u64>, AllocError>
    ensures { IfOk result (λ tags. tags.items ≡ Looks.tags_read t.now b.now) }
{
    let mut tags = Vec::new(alloc);
    for j in 0..b.extent.len {
        add_byte(&mut tags, t, b, b.extent.addr + u64::from(j))?;
    }
    Ok(tags)
}

// ---- a load from an AMO or SC

fn is_atomic_against(t: &Trace, b: &Op, tags: &[u64], a: &Op) -> bool
    ensures { result ≡ Looks.atomic_against t.now b.now tags.now a.now }
{
    is_against(a, b) && has_tag(tags, a.name.tag) && is_amo_or_sc(insn_of(t, a))
}

fn first_atomic(t: &Trace, ops: &[Op], b: &Op, tags: &[u64]) -> bool
    ensures { result ≡ list_any (Looks.atomic_against t.now b.now tags.now) ops.now }
{
    for a in ops {
        if is_atomic_against(t, b, tags, a) {
            return true;
        }
    }
    false
}

fn some_atomic(alloc: Global, t: &Trace, ops: &[Op]) -> Result<bool, AllocError>
    ensures { IfOk result (λ some. some
        ≡ list_any (λ b. list_any (Looks.atomic_against t.now b (Looks.tags_read t.now b)) t.now.ops) ops.now) }
{
    for b in ops {
        let tags = tags_read(alloc, t, b)?;
        if first_atomic(t, t.ops.items(), b, tags.as_slice()) {
            return Ok(true);
        }
    }
    Ok(false)
}

// ---- a load from a store that depends on the first

fn depends_between_at(
    alloc: Global,
    t: &Trace,
    a: &Op,
    b: &Op,
    tag: u64,
) -> Result<bool, AllocError>
    ensures { IfOk result (λ found. found ≡ Looks.depends_between_at t.now a.now b.now tag) }
{
    if a.name.tag < tag && tag < b.name.tag {
        depends_by_both(alloc, t, a, tag)
    } else {
        Ok(false)
    }
}

fn some_depends_between(
    alloc: Global,
    t: &Trace,
    a: &Op,
    b: &Op,
    tags: &[u64],
) -> Result<bool, AllocError>
    ensures { IfOk result (λ some. some ≡ list_any (Looks.depends_between_at t.now a.now b.now) tags.now) }
{
    for tag in tags {
        if depends_between_at(alloc, t, a, b, *tag)? {
            return Ok(true);
        }
    }
    Ok(false)
}

fn is_dependent_against(
    alloc: Global,
    t: &Trace,
    b: &Op,
    tags: &[u64],
    a: &Op,
) -> Result<bool, AllocError>
    ensures { IfOk result (λ found. found ≡ Looks.dependent_against t.now b.now tags.now a.now) }
{
    if is_against(a, b) {
        some_depends_between(alloc, t, a, b, tags)
    } else {
        Ok(false)
    }
}

fn first_dependent(
    alloc: Global,
    t: &Trace,
    ops: &[Op],
    b: &Op,
    tags: &[u64],
) -> Result<bool, AllocError>
    ensures { IfOk result (λ some. some ≡ list_any (Looks.dependent_against t.now b.now tags.now) ops.now) }
{
    for a in ops {
        if is_dependent_against(alloc, t, b, tags, a)? {
            return Ok(true);
        }
    }
    Ok(false)
}

fn some_dependent(alloc: Global, t: &Trace, ops: &[Op]) -> Result<bool, AllocError>
    ensures { IfOk result (λ some. some
        ≡ list_any (λ b. list_any (Looks.dependent_against t.now b (Looks.tags_read t.now b)) t.now.ops) ops.now) }
{
    for b in ops {
        let tags = tags_read(alloc, t, b)?;
        if first_dependent(alloc, t, t.ops.items(), b, tags.as_slice())? {
            return Ok(true);
        }
    }
    Ok(false)
}

// ---- the rules

#[tactic(auto, using(crate::proofs::Looked::some_atomic_is))]
fn some_reads_atomic(alloc: Global, t: &Trace) -> Result<bool, AllocError>
    ensures { IfOk result (λ some. some ≡ Looks.some_broken R3 t.now) }
{
    some_atomic(alloc, t, t.ops.items())
}

#[tactic(auto, using(crate::proofs::Looked::some_dependent_is))]
fn some_reads_dependent(alloc: Global, t: &Trace) -> Result<bool, AllocError>
    ensures { IfOk result (λ some. some ≡ Looks.some_broken R12 t.now) }
{
    some_dependent(alloc, t, t.ops.items())
}

/// Whether some pair of the rule may be broken; where this answers no, none is.
pub fn may_be_broken(alloc: Global, rule: Rule, t: &Trace) -> Result<bool, AllocError>
    ensures { IfOk result (λ some. some ≡ false → Looks.some_broken rule t.now ≡ false) }
{
    match rule {
        Rule::R3 => some_reads_atomic(alloc, t),
        Rule::R9 => some_address(alloc, t),
        Rule::R10 => some_data(alloc, t),
        Rule::R11 => some_control(alloc, t),
        Rule::R12 => some_reads_dependent(alloc, t),
        Rule::R13 => some_address_between(alloc, t),
        _ => Ok(true),
    }
}
