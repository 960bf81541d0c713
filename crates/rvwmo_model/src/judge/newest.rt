//! What is answered at the newest step of a trace: of the instruction that retires its values and its
//! pair with an LR, and of the whole trace its order.

ghost use Rattle.std.specs.Prelude.{◌≡◌, IfOk, None};
ghost use Rattle.std.specs.List.{filter};
ghost use Rattle.tandem_base.specs.FirstFault.{◌or_else◌};
ghost use Rattle.rvwmo_model.specs.Answer;
ghost use Rattle.rvwmo_model.specs.LastAnswer;

use super::answers::{atomicity_of, has_torn, is_wrong, value_at, wrong_byte};
use super::naming::least;
use super::order::order_answer;
use crate::answers::{Judged, Last};
use crate::initial::InitialBytes;
use crate::operations::Op;
use crate::traces::Trace;
use std::alloc::{AllocError, Global};

fn is_retiring(hart: u8, tag: Option<u64>, o: &Op) -> bool
    ensures { result ≡ LastAnswer.is_retiring hart tag o.now }
{
    match tag {
        None => false,
        Some(tag) => o.name.hart == hart && o.name.tag == tag,
    }
}

fn newest_of(offence: Option<Judged>) -> Option<Last>
    ensures { result ≡ LastAnswer.newest_of offence }
{
    match offence {
        None => None,
        Some(Judged::Legal) => None,
        Some(Judged::Pair(_name)) => None,
        Some(
            Judged::Value {
                name: _name,
                at,
                want,
                got,
            },
        ) => Some(Last::Value { at, want, got }),
        Some(
            Judged::Order {
                rule,
                first,
                second,
            },
        ) => Some(Last::Order {
            rule,
            first,
            second,
        }),
        Some(
            Judged::Atomicity {
                name: _name,
                at,
                store,
            },
        ) => Some(Last::Atomicity { at, store }),
    }
}

// ---- value

fn lower_of(best: Option<u64>, byte: Option<u64>) -> Option<u64>
    ensures { result ≡ LastAnswer.lower_of best byte }
{
    match (best, byte) {
        (None, y) => y,
        (Some(x), None) => Some(x),
        (Some(x), Some(y)) => if y < x { Some(y) } else { Some(x) },
    }
}

fn lowest_wrong<I: InitialBytes>(
    image: &I,
    t: &Trace,
    hart: u8,
    tag: Option<u64>,
    ops: &[Op],
) -> Option<u64>
    ensures { result ≡ LastAnswer.lowest_wrong (I.initial_of image.now) t.now None
        (filter (LastAnswer.is_retiring hart tag) ops.now) }
{
    let mut best = None;
    for i in ops {
        if is_retiring(hart, tag, i) {
            best = lower_of(best, wrong_byte(image, t, i));
        }
    }
    best
}

fn retires_wrong<I: InitialBytes>(
    image: &I,
    t: &Trace,
    hart: u8,
    tag: Option<u64>,
    x: u64,
    i: &Op,
) -> bool
    ensures { result ≡ LastAnswer.retires_wrong (I.initial_of image.now) t.now hart tag x i.now }
{
    is_retiring(hart, tag, i) && is_wrong(image, t, i, x)
}

fn least_wrong_at<I: InitialBytes>(
    image: &I,
    t: &Trace,
    hart: u8,
    tag: Option<u64>,
    x: u64,
    ops: &[Op],
) -> Option<Op>
    ensures { result
        ≡ Answer.least_of (LastAnswer.retires_wrong (I.initial_of image.now) t.now hart tag x) ops.now }
{
    let mut best = None;
    for i in ops {
        if retires_wrong(image, t, hart, tag, x, i) {
            best = least(best, i);
        }
    }
    best
}

fn value_here<I: InitialBytes>(image: &I, t: &Trace, x: u64, load: Option<Op>) -> Option<Last>
    ensures { result ≡ LastAnswer.value_here (I.initial_of image.now) t.now x load }
{
    match load {
        None => None,
        Some(i) => newest_of(value_at(image, t, &i, Some(x))),
    }
}

fn last_value<I: InitialBytes>(image: &I, t: &Trace, hart: u8, tag: Option<u64>) -> Option<Last>
    ensures { result ≡ LastAnswer.last_value (I.initial_of image.now) t.now hart tag }
{
    match lowest_wrong(image, t, hart, tag, t.ops.items()) {
        None => None,
        Some(x) => value_here(
            image,
            t,
            x,
            least_wrong_at(image, t, hart, tag, x, t.ops.items()),
        ),
    }
}

// ---- order

fn last_order(alloc: Global, t: &Trace) -> Result<Option<Last>, AllocError>
    ensures { IfOk result (λ answer. answer ≡ LastAnswer.last_order t.now) }
{
    let offence = order_answer(alloc, t)?;
    Ok(newest_of(offence))
}

// ---- atomicity

fn retires_torn(t: &Trace, hart: u8, tag: Option<u64>, w: &Op) -> bool
    ensures { result ≡ LastAnswer.retires_torn t.now hart tag w.now }
{
    is_retiring(hart, tag, w) && has_torn(t, w)
}

fn least_torn(t: &Trace, hart: u8, tag: Option<u64>, ops: &[Op]) -> Option<Op>
    ensures { result ≡ Answer.least_of (LastAnswer.retires_torn t.now hart tag) ops.now }
{
    let mut best = None;
    for w in ops {
        if retires_torn(t, hart, tag, w) {
            best = least(best, w);
        }
    }
    best
}

fn last_atomicity(t: &Trace, hart: u8, tag: Option<u64>) -> Option<Last>
    ensures { result ≡ LastAnswer.last_atomicity t.now hart tag }
{
    newest_of(atomicity_of(t, least_torn(t, hart, tag, t.ops.items())))
}

// ---- the answer

fn fine_unless(offence: Option<Last>) -> Last
    ensures { result ≡ LastAnswer.fine_unless offence }
{
    match offence {
        None => Last::Fine,
        Some(l) => l,
    }
}

fn order_or_later(
    alloc: Global,
    t: &Trace,
    hart: u8,
    tag: Option<u64>,
) -> Result<Option<Last>, AllocError>
    ensures { IfOk result (λ answer. answer
        ≡ (LastAnswer.last_order t.now or_else LastAnswer.last_atomicity t.now hart tag)) }
{
    match last_order(alloc, t)? {
        None => Ok(last_atomicity(t, hart, tag)),
        Some(l) => Ok(Some(l)),
    }
}

/// What is answered at the newest step of a trace.
pub fn newest_answer<I: InitialBytes>(
    alloc: Global,
    image: &I,
    t: &Trace,
    hart: u8,
    tag: Option<u64>,
) -> Result<Last, AllocError>
    ensures { IfOk result (λ answer. answer ≡ LastAnswer.newest_answer (I.initial_of image.now) t.now hart tag) }
{
    match last_value(image, t, hart, tag) {
        None => {
            let later = order_or_later(alloc, t, hart, tag)?;
            Ok(fine_unless(later))
        }
        Some(l) => Ok(l),
    }
}
