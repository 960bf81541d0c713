//! What is answered to a trace: the first of its offences, with the choices that are stated.

ghost use Rattle.std.specs.Prelude.{◌≡◌, ◌&&◌, IfOk, is_some, None};
ghost use Rattle.std.specs.List.{filter, list_any};
ghost use Rattle.tandem_base.specs.FirstFault.{◌or_else◌};
ghost use Rattle.rvwmo_model.specs.Answer;
ghost use Rattle.rvwmo_model.specs.Report;
ghost use Rattle.rvwmo_model.specs.Search;
ghost use Rattle.rvwmo_model.specs.Sources;
ghost use Rattle.rvwmo_model.specs.Tests;

use super::atomic::{
    blamed, block_byte, is_pair_torn, is_unpaired, latest_intruder, or_address, torn_byte,
};
use super::naming::least;
use super::order::order_answer;
use super::sources::{key_of, source};
use crate::answers::Judged;
use crate::initial::InitialBytes;
use crate::operations::Op;
use crate::traces::Trace;
use std::alloc::{AllocError, Global};

// ---- pair

fn least_unpaired(t: &Trace, ops: &[Op]) -> Option<Op>
    ensures { result ≡ Answer.least_of (Tests.is_unpaired t.now) ops.now }
{
    let mut best = None;
    for w in ops {
        if is_unpaired(t, w) {
            best = least(best, w);
        }
    }
    best
}

/// The offence of pair, where there is one.
pub fn pair_answer(t: &Trace) -> Option<Judged>
    ensures { result ≡ Answer.pair_answer t.now }
{
    match least_unpaired(t, t.ops.items()) {
        None => None,
        Some(w) => Some(Judged::Pair(w.name)),
    }
}

// ---- value

fn byte_from<I: InitialBytes>(image: &I, source: &Option<Op>, x: u64) -> u8
    ensures { result ≡ Sources.byte_from (I.initial_of image.now) source.now x }
{
    match source {
        None => image.initial(x),
        Some(s) => s.put_at(x),
    }
}

/// Whether a byte of a load isn't its source's.
pub fn is_wrong<I: InitialBytes>(image: &I, t: &Trace, i: &Op, x: u64) -> bool
    ensures { result ≡ Tests.is_wrong (I.initial_of image.now) t.now i.now x }
{
    i.reads(x) && i.got_at(x) != byte_from(image, &source(t, i, x), x)
}

/// The lowest wrong byte of a load.
#[tactic(auto, unfolding(crate::specs::Search::first_at))]
pub fn wrong_byte<I: InitialBytes>(image: &I, t: &Trace, i: &Op) -> Option<u64>
    ensures { result ≡ Tests.wrong_byte (I.initial_of image.now) t.now i.now }
{
    let mut found = None;
    for j in 0..i.extent.len {
        let x = i.extent.addr + u64::from(j);
        found = or_address(found, is_wrong(image, t, i, x), x);
    }
    found
}

fn least_wrong<I: InitialBytes>(image: &I, t: &Trace, ops: &[Op]) -> Option<Op>
    ensures { result ≡ Answer.least_of (λ i. is_some (Tests.wrong_byte (I.initial_of image.now) t.now i)) ops.now }
{
    let mut best = None;
    for i in ops {
        if wrong_byte(image, t, i).is_some() {
            best = least(best, i);
        }
    }
    best
}

/// The offence of a load at a byte.
pub fn value_at<I: InitialBytes>(image: &I, t: &Trace, i: &Op, byte: Option<u64>) -> Option<Judged>
    ensures { result ≡ Answer.value_at (I.initial_of image.now) t.now i.now byte }
{
    match byte {
        None => None,
        Some(x) => Some(Judged::Value {
            name: i.name,
            at: x,
            want: byte_from(image, &source(t, i, x), x),
            got: i.got_at(x),
        }),
    }
}

/// The offence of value, where there is one.
pub fn value_answer<I: InitialBytes>(image: &I, t: &Trace) -> Option<Judged>
    ensures { result ≡ Answer.value_answer (I.initial_of image.now) t.now }
{
    match least_wrong(image, t, t.ops.items()) {
        None => None,
        Some(i) => value_at(image, t, &i, wrong_byte(image, t, &i)),
    }
}

// ---- atomicity

fn least_lr(t: &Trace, ops: &[Op], w: &Op) -> Option<Op>
    ensures { result ≡ Answer.least_of (λ r. Tests.is_pair_torn t.now r w.now) ops.now }
{
    let mut best = None;
    for r in ops {
        if is_pair_torn(t, r, w) {
            best = least(best, r);
        }
    }
    best
}

fn some_lr(t: &Trace, ops: &[Op], w: &Op) -> bool
    ensures { result ≡ list_any (λ r. Tests.is_pair_torn t.now r w.now) ops.now }
{
    for r in ops {
        if is_pair_torn(t, r, w) {
            return true;
        }
    }
    false
}

/// Whether an SC is in a pair that isn't atomic.
#[tactic(auto, unfolding(crate::specs::Answer::has_torn))]
pub fn has_torn(t: &Trace, w: &Op) -> bool
    ensures { result ≡ Answer.has_torn t.now w.now }
{
    some_lr(t, t.ops.items(), w)
}

fn least_sc(t: &Trace, ops: &[Op]) -> Option<Op>
    ensures { result ≡ Answer.least_of (Answer.has_torn t.now) ops.now }
{
    let mut best = None;
    for w in ops {
        if has_torn(t, w) {
            best = least(best, w);
        }
    }
    best
}

fn torn_sc(t: &Trace) -> Option<Op>
    ensures { result ≡ Answer.least_of (Answer.has_torn t.now) t.now.ops }
{
    least_sc(t, t.ops.items())
}

fn torn_at(w: &Op, x: u64, store: Option<Op>) -> Option<Judged>
    ensures { result ≡ Answer.torn_at w.now x store }
{
    match store {
        None => None,
        Some(s) => Some(Judged::Atomicity {
            name: w.name,
            at: x,
            store: key_of(&s),
        }),
    }
}

fn block_at(w: &Op, s: &Op, byte: Option<u64>) -> Option<Judged>
    ensures { result ≡ Answer.block_at w.now s.now byte }
{
    match byte {
        None => None,
        Some(x) => Some(Judged::Atomicity {
            name: w.name,
            at: x,
            store: key_of(s),
        }),
    }
}

fn block_of(t: &Trace, r: &Op, w: &Op) -> Option<Judged>
    ensures { result ≡ Answer.block_of t.now r.now w.now
        (Tests.latest_everywhere (Tests.intrudes_block t.now r.now w.now) t.now) }
{
    match latest_intruder(t, r, w) {
        None => None,
        Some(s) => block_at(w, &s, block_byte(t, r, &s)),
    }
}

fn torn_of(t: &Trace, r: &Op, w: &Op) -> Option<Judged>
    ensures { result ≡ Answer.torn_of t.now r.now w.now (Tests.torn_byte t.now r.now w.now) }
{
    match torn_byte(t, r, w) {
        None => block_of(t, r, w),
        Some(x) => torn_at(w, x, blamed(t, w, x, source(t, r, x))),
    }
}

fn pair_torn(t: &Trace, w: &Op) -> Option<Judged>
    ensures { result ≡ Answer.pair_torn t.now w.now
        (Answer.least_of (λ r. Tests.is_pair_torn t.now r w.now) t.now.ops) }
{
    match least_lr(t, t.ops.items(), w) {
        None => None,
        Some(r) => torn_of(t, &r, w),
    }
}

/// The offence of atomicity of an SC, where there is one.
pub fn atomicity_of(t: &Trace, sc: Option<Op>) -> Option<Judged>
    ensures { result ≡ Answer.atomicity_of t.now sc }
{
    match sc {
        None => None,
        Some(w) => pair_torn(t, &w),
    }
}

fn atomicity_answer(t: &Trace) -> Option<Judged>
    ensures { result ≡ Answer.atomicity_answer t.now }
{
    atomicity_of(t, torn_sc(t))
}

// ---- the answer

fn legal_unless(answer: Option<Judged>) -> Judged
    ensures { result ≡ Answer.legal_unless answer }
{
    match answer {
        None => Judged::Legal,
        Some(j) => j,
    }
}

fn order_or_atomicity(alloc: Global, t: &Trace) -> Result<Option<Judged>, AllocError>
    ensures { IfOk result (λ answer. answer ≡ (Answer.order_answer t.now or_else Answer.atomicity_answer t.now)) }
{
    match order_answer(alloc, t)? {
        None => Ok(atomicity_answer(t)),
        Some(j) => Ok(Some(j)),
    }
}

fn value_or_later<I: InitialBytes>(
    alloc: Global,
    image: &I,
    t: &Trace,
) -> Result<Option<Judged>, AllocError>
    ensures { IfOk result (λ answer. answer
        ≡ (Answer.value_answer (I.initial_of image.now) t.now
        or_else (Answer.order_answer t.now or_else Answer.atomicity_answer t.now))) }
{
    match value_answer(image, t) {
        None => order_or_atomicity(alloc, t),
        Some(j) => Ok(Some(j)),
    }
}

/// The answer to a trace.
pub fn answer<I: InitialBytes>(alloc: Global, image: &I, t: &Trace) -> Result<Judged, AllocError>
    ensures { IfOk result (λ answer. answer ≡ Answer.answer (I.initial_of image.now) t.now) }
{
    match pair_answer(t) {
        None => {
            let later = value_or_later(alloc, image, t)?;
            Ok(legal_unless(later))
        }
        Some(j) => Ok(j),
    }
}
