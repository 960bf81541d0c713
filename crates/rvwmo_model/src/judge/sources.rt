//! Where a loaded byte comes from.

ghost use Rattle.std.specs.Prelude.{◌≡◌, ◌&&◌, ◌||◌, None, Some, if◌then◌else◌};
ghost use Rattle.std.specs.List.{filter, list_any};
ghost use Rattle.rvwmo_model.specs.Order;
ghost use Rattle.rvwmo_model.specs.ProgramOrder;
ghost use Rattle.rvwmo_model.specs.Sources;
ghost use Rattle.rvwmo_model.specs.Tests;

use crate::instructions::Retired;
use crate::operations::Op;
use crate::traces::Trace;
use tandem_base::Origin;

/// The instruction of a hart under a tag.
pub fn insn_at(insns: &[Retired], hart: u8, tag: u64) -> Option<Retired>
    ensures { result ≡ ProgramOrder.insn_at insns.now hart tag }
{
    for w in insns {
        if w.hart == hart && w.tag == tag {
            return Some(*w);
        }
    }
    None
}

/// The instruction of an operation.
pub fn insn_of(t: &Trace, o: &Op) -> Option<Retired>
    ensures { result ≡ ProgramOrder.insn_of t.now o.now }
{
    insn_at(t.insns.items(), o.name.hart, o.name.tag)
}

/// Whether an operation is later in global order than the latest so far.
fn is_later(best: &Option<Op>, w: &Op) -> bool
    ensures { Sources.later best.now w.now ≡ (if result then Some w.now else best.now) }
{
    match best {
        None => true,
        Some(v) => v.precedes(w),
    }
}

/// Makes an operation the latest so far, where it is later in global order.
pub fn keep_later(best: &mut Option<Op>, w: &Op)
    ensures { best.new ≡ Sources.later best.old w.now }
{
    if is_later(best, w) {
        *best = Some(*w);
    }
}

fn latest_retired(ops: &[Op], i: &Op, x: u64) -> Option<Op>
    ensures { result ≡ Sources.latest_from None
        (filter (λ w. Order.writes x w && (Order.precedes w i.now || ProgramOrder.is_older w i.now)) ops.now) }
{
    let mut best = None;
    for w in ops {
        if w.writes(x) && (w.precedes(i) || w.is_older(i)) {
            keep_later(&mut best, w);
        }
    }
    best
}

fn latest_early(start: Option<Op>, early: &[Op], i: &Op, x: u64) -> Option<Op>
    ensures { result ≡ Sources.latest_from start (filter (λ w. Order.writes x w && Order.precedes w i.now) early.now) }
{
    let mut best = start;
    for w in early {
        if w.writes(x) && w.precedes(i) {
            keep_later(&mut best, w);
        }
    }
    best
}

/// The source of byte `x` of the load `i`; None for the initial value.
#[tactic(auto, using(crate::proofs::Latest::source_joined))]
pub fn source(t: &Trace, i: &Op, x: u64) -> Option<Op>
    ensures { result ≡ Sources.source t.now i.now x }
{
    latest_early(latest_retired(t.ops.items(), i, x), t.early.items(), i, x)
}

fn stands_with(s: &Op, o: &Op) -> bool
    ensures { result ≡ Tests.stands_with s.now o.now }
{
    !o.precedes(s) && !s.precedes(o)
}

/// Whether a store is one of the operations, and no early store.
pub fn is_operation(ops: &[Op], s: &Op) -> bool
    ensures { result ≡ list_any (Tests.stands_with s.now) ops.now }
{
    for o in ops {
        if stands_with(s, o) {
            return true;
        }
    }
    false
}

/// The hart and tag of an operation.
pub fn key_of(o: &Op) -> Origin
    ensures { result ≡ Sources.key_of o.now }
{
    Origin {
        hart: o.name.hart,
        tag: o.name.tag,
    }
}

fn origin_of(source: Option<Op>) -> Option<Origin>
    ensures { result ≡ Sources.origin_of source }
{
    match source {
        None => None,
        Some(s) => Some(key_of(&s)),
    }
}

/// The hart and tag of that source.
pub fn origin(t: &Trace, i: &Op, x: u64) -> Option<Origin>
    ensures { result ≡ Sources.origin t.now i.now x }
{
    origin_of(source(t, i, x))
}

/// Whether two sources are the same.
pub fn same_origin(m: Option<Origin>, n: Option<Origin>) -> bool
    ensures { result ≡ Tests.same_origin m n }
{
    match (m, n) {
        (None, None) => true,
        (None, Some(_n)) => false,
        (Some(_m), None) => false,
        (Some(p), Some(q)) => p.hart == q.hart && p.tag == q.tag,
    }
}
