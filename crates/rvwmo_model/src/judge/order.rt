//! The offence of order: which broken pair is answered.

ghost use Rattle.std.specs.Prelude.{◌≡◌, IfOk, None};
ghost use Rattle.std.specs.List.{filter, list_any};
ghost use Rattle.rvwmo_model.specs.Answer;
ghost use Rattle.rvwmo_model.specs.Sources;
ghost use Rattle.rvwmo_model.specs.Tests;

use super::looks::may_be_broken;
use super::naming::least;
use super::rules::is_broken;
use super::sources::keep_later;
use crate::answers::Judged;
use crate::operations::Op;
use crate::preserved::Rule;
use crate::traces::Trace;
use std::alloc::{AllocError, Global};

fn some_first(alloc: Global, rule: Rule, t: &Trace, ops: &[Op], b: &Op) -> Result<bool, AllocError>
    ensures { IfOk result (λ found. found ≡ list_any (λ a. Tests.is_broken rule t.now a b.now) ops.now) }
{
    for a in ops {
        if is_broken(alloc, rule, t, a, b)? {
            return Ok(true);
        }
    }
    Ok(false)
}

#[tactic(auto, unfolding(crate::specs::Answer::has_first))]
fn has_first(alloc: Global, rule: Rule, t: &Trace, b: &Op) -> Result<bool, AllocError>
    ensures { IfOk result (λ found. found ≡ Answer.has_first rule t.now b.now) }
{
    some_first(alloc, rule, t, t.ops.items(), b)
}

fn latest_first(
    alloc: Global,
    rule: Rule,
    t: &Trace,
    ops: &[Op],
    b: &Op,
) -> Result<Option<Op>, AllocError>
    ensures { IfOk result (λ first. first
        ≡ Sources.latest_from None (filter (λ a. Tests.is_broken rule t.now a b.now) ops.now)) }
{
    let mut best = None;
    for a in ops {
        if is_broken(alloc, rule, t, a, b)? {
            keep_later(&mut best, a);
        }
    }
    Ok(best)
}

fn least_second(alloc: Global, rule: Rule, t: &Trace, ops: &[Op]) -> Result<Option<Op>, AllocError>
    ensures { IfOk result (λ second. second ≡ Answer.least_of (Answer.has_first rule t.now) ops.now) }
{
    let mut best = None;
    for b in ops {
        if has_first(alloc, rule, t, b)? {
            best = least(best, b);
        }
    }
    Ok(best)
}

fn broken_second(alloc: Global, rule: Rule, t: &Trace) -> Result<Option<Op>, AllocError>
    ensures { IfOk result (λ second. second ≡ Answer.broken_second rule t.now) }
{
    least_second(alloc, rule, t, t.ops.items())
}

fn broken_first(alloc: Global, rule: Rule, t: &Trace, b: &Op) -> Result<Option<Op>, AllocError>
    ensures { IfOk result (λ first. first ≡ Answer.broken_first rule t.now b.now) }
{
    latest_first(alloc, rule, t, t.ops.items(), b)
}

fn order_pair(rule: Rule, b: &Op, first: Option<Op>) -> Option<Judged>
    ensures { result ≡ Answer.order_pair rule b.now first }
{
    match first {
        None => None,
        Some(a) => Some(Judged::Order {
            rule: rule.number(),
            first: a.name,
            second: b.name,
        }),
    }
}

#[tactic(auto, using(crate::proofs::Looked::no_offence))]
fn order_of(alloc: Global, rule: Rule, t: &Trace) -> Result<Option<Judged>, AllocError>
    ensures { IfOk result (λ answer. answer ≡ Answer.order_of rule t.now (Answer.broken_second rule t.now)) }
{
    if may_be_broken(alloc, rule, t)? {
        order_found(alloc, rule, t)
    } else {
        Ok(None)
    }
}

fn order_found(alloc: Global, rule: Rule, t: &Trace) -> Result<Option<Judged>, AllocError>
    ensures { IfOk result (λ answer. answer ≡ Answer.order_of rule t.now (Answer.broken_second rule t.now)) }
{
    match broken_second(alloc, rule, t)? {
        None => Ok(None),
        Some(b) => {
            let first = broken_first(alloc, rule, t, &b)?;
            Ok(order_pair(rule, &b, first))
        }
    }
}

fn order_from(alloc: Global, t: &Trace, rules: &[Rule]) -> Result<Option<Judged>, AllocError>
    ensures { IfOk result (λ answer. answer ≡ Answer.order_from t.now rules.now) }
{
    for rule in rules {
        let answer = order_of(alloc, *rule, t)?;
        if answer.is_some() {
            return Ok(answer);
        }
    }
    Ok(None)
}

/// The offence of order, where there is one.
pub fn order_answer(alloc: Global, t: &Trace) -> Result<Option<Judged>, AllocError>
    ensures { IfOk result (λ answer. answer ≡ Answer.order_answer t.now) }
{
    let rules = [
        Rule::R1,
        Rule::R2,
        Rule::R3,
        Rule::R4,
        Rule::R5,
        Rule::R6,
        Rule::R7,
        Rule::R8,
        Rule::R9,
        Rule::R10,
        Rule::R11,
        Rule::R12,
        Rule::R13,
    ];
    order_from(alloc, t, &rules)
}
