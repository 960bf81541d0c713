//! The thirteen rules of preserved program order, each as a test of two operations of one hart.

ghost use Rattle.std.specs.Prelude.{◌≡◌, ◌<◌, ◌&&◌, ◌||◌, IfOk};
ghost use Rattle.std.specs.List.{list_any};
ghost use Rattle.rvwmo_model.specs.Order;
ghost use Rattle.rvwmo_model.specs.Sources;
ghost use Rattle.rvwmo_model.specs.declared.judge.walk.Use.TheVariants.{Address, Data};
ghost use Rattle.rvwmo_model.specs.Tests;

use super::kinds::{
    fence_orders, found_lr, found_sc, has_rcsc, is_amo_or_sc, is_annotated, is_lr, is_sc,
};
use super::sources::{insn_of, is_operation, origin, same_origin, source};
use super::walk::{Search, Use, finds};
use crate::instructions::Retired;
use crate::operations::Op;
use crate::preserved::Rule;
use crate::traces::Trace;
use std::alloc::{AllocError, Global};

fn is_between(a: &Op, b: &Op, hart: u8, tag: u64) -> bool
    ensures { result ≡ Tests.is_between a.now b.now hart tag }
{
    hart == a.name.hart && a.name.tag < tag && tag < b.name.tag
}

#[tactic(auto, unfolding(crate::specs::Search::some_at))]
fn overlap(a: &Op, b: &Op) -> bool
    ensures { result ≡ Tests.overlap a.now b.now }
{
    let mut found = false;
    for j in 0..a.extent.len {
        let x = a.extent.addr + u64::from(j);
        found = found || a.has_byte(x) && b.writes(x);
    }
    found
}

fn some_store_between(ops: &[Op], a: &Op, b: &Op, x: u64) -> bool
    ensures { result ≡ list_any (Tests.store_between a.now b.now x) ops.now }
{
    for o in ops {
        if is_between(a, b, o.name.hart, o.name.tag) && o.writes(x) {
            return true;
        }
    }
    false
}

fn read_apart_at(t: &Trace, a: &Op, b: &Op, x: u64) -> bool
    ensures { result ≡ Tests.read_apart_at t.now a.now b.now x }
{
    a.reads(x)
        && b.reads(x)
        && !some_store_between(t.ops.items(), a, b, x)
        && !same_origin(origin(t, a, x), origin(t, b, x))
}

#[tactic(auto, unfolding(crate::specs::Search::some_at))]
fn read_apart(t: &Trace, a: &Op, b: &Op) -> bool
    ensures { result ≡ Tests.read_apart t.now a.now b.now }
{
    let mut found = false;
    for j in 0..a.extent.len {
        let x = a.extent.addr + u64::from(j);
        found = found || read_apart_at(t, a, b, x);
    }
    found
}

/// Whether the source is an operation of the instruction of a hart under a tag.
fn is_store_of(t: &Trace, hart: u8, tag: u64, source: &Option<Op>) -> bool
    ensures { result ≡ Tests.is_store_of t.now hart tag source.now }
{
    match source {
        None => false,
        Some(s) => s.name.hart == hart && s.name.tag == tag && is_operation(t.ops.items(), s),
    }
}

#[tactic(auto, unfolding(crate::specs::Search::some_at))]
fn reads_from(t: &Trace, b: &Op, hart: u8, tag: u64) -> bool
    ensures { result ≡ Tests.reads_from t.now b.now hart tag }
{
    let mut found = false;
    for j in 0..b.extent.len {
        let x = b.extent.addr + u64::from(j);
        found = found || b.reads(x) && is_store_of(t, hart, tag, &source(t, b, x));
    }
    found
}

fn reads_atomic(t: &Trace, a: &Op, b: &Op) -> bool
    ensures { result ≡ Tests.reads_atomic t.now a.now b.now }
{
    is_amo_or_sc(insn_of(t, a)) && reads_from(t, b, a.name.hart, a.name.tag)
}

fn fenced(insns: &[Retired], a: &Op, b: &Op) -> bool
    ensures { result ≡ list_any (Tests.fence_at a.now b.now) insns.now }
{
    for w in insns {
        if is_between(a, b, w.hart, w.tag) && fence_orders(&w.insn, a.kind, b.kind) {
            return true;
        }
    }
    false
}

fn some_parts_pair(insns: &[Retired], a: &Op, b: &Op) -> bool
    ensures { result ≡ list_any (Tests.parts_pair a.now b.now) insns.now }
{
    for w in insns {
        if is_between(a, b, w.hart, w.tag) && (is_lr(&w.insn) || is_sc(&w.insn)) {
            return true;
        }
    }
    false
}

/// Whether `a` is of an LR and `b` of the SC that it is paired with.
pub fn is_pair_of(t: &Trace, a: &Op, b: &Op) -> bool
    ensures { result ≡ Tests.is_pair_of t.now a.now b.now }
{
    found_lr(insn_of(t, a)) && found_sc(insn_of(t, b)) && !some_parts_pair(t.insns.items(), a, b)
}

fn depends_at(alloc: Global, by: Use, t: &Trace, a: &Op, tag: u64) -> Result<bool, AllocError>
    ensures { IfOk result (λ found. found ≡ Tests.depends_at by t.now a.now tag) }
{
    let search = Search {
        hart: a.name.hart,
        start: a.name.tag,
        from: tag,
        to: tag,
        by,
    };
    finds(alloc, search, t.insns.items())
}

fn depends_between(alloc: Global, by: Use, t: &Trace, a: &Op, b: &Op) -> Result<bool, AllocError>
    requires { a.now.name.tag < b.now.name.tag }
    ensures { IfOk result (λ found. found ≡ Tests.depends_between by t.now a.now b.now) }
{
    let (first, last) = (a.name.tag, b.name.tag);
    let search = Search {
        hart: a.name.hart,
        start: first,
        from: first + 1,
        to: last - 1,
        by,
    };
    finds(alloc, search, t.insns.items())
}

fn stores_after(alloc: Global, by: Use, t: &Trace, a: &Op, b: &Op) -> Result<bool, AllocError>
    requires { a.now.name.tag < b.now.name.tag }
    ensures { IfOk result (λ found. found ≡ (Order.op_stores b.now && Tests.depends_between by t.now a.now b.now)) }
{
    if b.kind.stores() {
        depends_between(alloc, by, t, a, b)
    } else {
        Ok(false)
    }
}

/// Whether the instruction under a tag has an address or data dependency on that of `a`.
pub fn depends_by_both(alloc: Global, t: &Trace, a: &Op, tag: u64) -> Result<bool, AllocError>
    ensures { IfOk result (λ found. found
        ≡ (Tests.depends_at Address t.now a.now tag || Tests.depends_at Data t.now a.now tag)) }
{
    if depends_at(alloc, Use::Address, t, a, tag)? {
        return Ok(true);
    }
    depends_at(alloc, Use::Data, t, a, tag)
}

fn is_dependent(
    alloc: Global,
    t: &Trace,
    a: &Op,
    b: &Op,
    m: &Option<Op>,
) -> Result<bool, AllocError>
    ensures { IfOk result (λ found. found ≡ Tests.is_dependent t.now a.now b.now m.now) }
{
    match m {
        None => Ok(false),
        Some(s) => {
            if is_between(a, b, s.name.hart, s.name.tag) && is_operation(t.ops.items(), s) {
                depends_by_both(alloc, t, a, s.name.tag)
            } else {
                Ok(false)
            }
        }
    }
}

fn reads_dependent_at(alloc: Global, t: &Trace, a: &Op, b: &Op, x: u64) -> Result<bool, AllocError>
    ensures { IfOk result (λ found. found
        ≡ (Order.reads x b.now && Tests.is_dependent t.now a.now b.now (Sources.source t.now b.now x))) }
{
    if b.reads(x) {
        is_dependent(alloc, t, a, b, &source(t, b, x))
    } else {
        Ok(false)
    }
}

#[tactic(auto, unfolding(crate::specs::Search::some_at))]
fn reads_dependent(alloc: Global, t: &Trace, a: &Op, b: &Op) -> Result<bool, AllocError>
    ensures { IfOk result (λ found. found ≡ Tests.reads_dependent t.now a.now b.now) }
{
    let mut found = false;
    for j in 0..b.extent.len {
        let x = b.extent.addr + u64::from(j);
        let here = reads_dependent_at(alloc, t, a, b, x)?;
        found = found || here;
    }
    Ok(found)
}

fn orders(alloc: Global, rule: Rule, t: &Trace, a: &Op, b: &Op) -> Result<bool, AllocError>
    requires { a.now.name.tag < b.now.name.tag }
    ensures { IfOk result (λ found. found ≡ Tests.orders rule t.now a.now b.now) }
{
    match rule {
        Rule::R1 => Ok(overlap(a, b)),
        Rule::R2 => Ok(read_apart(t, a, b)),
        Rule::R3 => Ok(reads_atomic(t, a, b)),
        Rule::R4 => Ok(fenced(t.insns.items(), a, b)),
        Rule::R5 => Ok(is_annotated(a.acquire)),
        Rule::R6 => Ok(is_annotated(b.release)),
        Rule::R7 => Ok(has_rcsc(a) && has_rcsc(b)),
        Rule::R8 => Ok(is_pair_of(t, a, b)),
        Rule::R9 => depends_at(alloc, Use::Address, t, a, b.name.tag),
        Rule::R10 => depends_at(alloc, Use::Data, t, a, b.name.tag),
        Rule::R11 => stores_after(alloc, Use::Control, t, a, b),
        Rule::R12 => reads_dependent(alloc, t, a, b),
        Rule::R13 => stores_after(alloc, Use::Address, t, a, b),
    }
}

/// Whether the rule puts `a` before `b`, and `b` comes before `a` in global order.
pub fn is_broken(alloc: Global, rule: Rule, t: &Trace, a: &Op, b: &Op) -> Result<bool, AllocError>
    ensures { IfOk result (λ found. found ≡ Tests.is_broken rule t.now a.now b.now) }
{
    if b.name.hart == a.name.hart && a.name.tag < b.name.tag && b.precedes(a) {
        orders(alloc, rule, t, a, b)
    } else {
        Ok(false)
    }
}
