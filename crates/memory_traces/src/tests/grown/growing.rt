//! Whether one trace has grown from another.
use super::kinds::{full_mask, is_plain, is_same_insn, is_youngest};
use super::parts::{all_parts, all_shared};
use crate::tests::table::{Lists, Step};
use rv_decode::Insn;
use rvwmo_model::{Op, Retired};
use std::alloc::Global;
use std::test::Fail;

fn has(ops: &[Op], o: &Op) -> bool {
    for v in ops {
        if *v == *o {
            return true;
        }
    }
    false
}

/// The operations of `ops` that `others` hasn't.
fn rest_of(alloc: Global, ops: &[Op], others: &[Op]) -> Result<Vec<Op>, Fail> {
    let mut rest = Vec::new(alloc);
    for o in ops {
        if !has(others, o) {
            rest.push(*o)?;
        }
    }
    Ok(rest)
}

fn has_insn(insns: &[Retired], w: &Retired) -> bool {
    for v in insns {
        if *v == *w {
            return true;
        }
    }
    false
}

/// The instructions of `insns` that `others` hasn't.
fn more_insns(alloc: Global, insns: &[Retired], others: &[Retired]) -> Result<Vec<Retired>, Fail> {
    let mut more = Vec::new(alloc);
    for w in insns {
        if !has_insn(others, w) {
            more.push(*w)?;
        }
    }
    Ok(more)
}

/// What one trace has and another hasn't, both ways.
#[derive(Drop)]
struct Changes {
    insns_gone: Vec<Retired>,
    insns: Vec<Retired>,
    ops_gone: Vec<Op>,
    ops: Vec<Op>,
    early_gone: Vec<Op>,
    early: Vec<Op>,
}

fn changes_of(alloc: Global, before: &Lists, after: &Lists) -> Result<Changes, Fail> {
    let (old_ops, old_early) = before.split();
    let (new_ops, new_early) = after.split();
    Ok(Changes {
        insns_gone: more_insns(alloc, &before.insns, &after.insns)?,
        insns: more_insns(alloc, &after.insns, &before.insns)?,
        ops_gone: rest_of(alloc, old_ops, new_ops)?,
        ops: rest_of(alloc, new_ops, old_ops)?,
        early_gone: rest_of(alloc, old_early, new_early)?,
        early: rest_of(alloc, new_early, old_early)?,
    })
}

/// Whether `n` is performed, and `v` not before it.
fn is_no_later(n: &Op, v: &Op) -> bool {
    match (n.place, v.place) {
        (Some(q), Some(p)) => !p.is_before(&q),
        _ => false,
    }
}

/// Whether all that is performed precedes `n`.
fn is_above(before: &[Op], n: &Op) -> bool {
    for v in before {
        if is_no_later(n, v) {
            return false;
        }
    }
    true
}

fn has_same_insn(ops: &[Op], o: &Op) -> bool {
    for v in ops {
        if is_same_insn(v, o) {
            return true;
        }
    }
    false
}

/// One early store more, at a place that is above all, or isn't.
fn is_early(before: &Lists, changes: &Changes, above: bool) -> bool {
    let (_ops, early) = before.split();
    let same = changes.insns_gone.is_empty()
        && changes.insns.is_empty()
        && changes.ops_gone.is_empty()
        && changes.ops.is_empty()
        && changes.early_gone.is_empty()
        && changes.early.len() == 1;
    match changes.early.first() {
        None => false,
        Some(e) => {
            same && is_youngest(&before.insns, e)
                && !has_same_insn(early, e)
                && is_above(&before.all, e) == above
        }
    }
}

fn all_of(ops: &[Op], r: &Retired) -> bool {
    for o in ops {
        if o.name.hart != r.hart || o.name.tag != r.tag {
            return false;
        }
    }
    true
}

fn all_placed(ops: &[Op]) -> bool {
    for o in ops {
        if o.place.is_none() {
            return false;
        }
    }
    true
}

/// Whether the early stores of the hart of `r` are younger.
fn is_older(early: &[Op], r: &Retired) -> bool {
    for e in early {
        if e.name.hart == r.hart && e.name.tag <= r.tag {
            return false;
        }
    }
    true
}

/// Whether the instructions of the hart of `r` are older.
fn is_last(insns: &[Retired], r: &Retired) -> bool {
    for w in insns {
        if w.hart == r.hart && w.tag >= r.tag {
            return false;
        }
    }
    true
}

/// Whether the operation of an AMO or SC is that of its early store.
fn is_same_store(o: &Op, e: &Op) -> bool {
    is_same_insn(o, e)
        && o.place == e.place
        && o.extent == e.extent
        && o.mask == e.mask
        && o.put == e.put
}

/// The operations that an instruction may bring.
fn brings(r: &Retired, changes: &Changes) -> bool {
    let one = changes.ops.len() == 1;
    let early = changes.early.is_empty() && changes.early_gone.is_empty();
    match (r.insn, changes.ops.first(), changes.early_gone.first()) {
        (Insn::Load { .. }, Some(_o), _gone) => early && all_placed(&changes.ops),
        (Insn::Lr { .. }, Some(_o), _gone) => early && one && all_placed(&changes.ops),
        (Insn::Store { .. }, Some(o), _gone) => {
            early && one && o.place.is_none() && o.mask == full_mask(o) && is_plain(o)
        }
        (Insn::Sc { .. } | Insn::Amo { .. }, Some(o), Some(e)) => {
            one && changes.early.is_empty() && changes.early_gone.len() == 1 && is_same_store(o, e)
        }
        (_insn, None, None) => early,
        _ => false,
    }
}

/// One instruction more, that is the youngest of its hart, or isn't.
fn is_insn(before: &Lists, after: &Lists, changes: &Changes, last: bool) -> bool {
    let (_ops, early) = after.split();
    let same = changes.insns_gone.is_empty()
        && changes.insns.len() == 1
        && changes.ops_gone.is_empty();
    match changes.insns.first() {
        None => false,
        Some(r) => {
            same && is_last(&before.insns, r) == last
                && is_older(early, r)
                && all_of(&changes.ops, r)
                && brings(r, changes)
        }
    }
}

fn all_above(before: &[Op], parts: &[Op]) -> bool {
    for n in parts {
        if n.place.is_some() && !is_above(before, n) {
            return false;
        }
    }
    true
}

/// Stores of one hart performed, at places above all, or not.
fn is_stores(before: &Lists, changes: &Changes, above: bool) -> bool {
    let same = changes.insns_gone.is_empty()
        && changes.insns.is_empty()
        && changes.early_gone.is_empty()
        && changes.early.is_empty();
    match changes.ops_gone.first() {
        None => false,
        Some(o) => {
            same && all_shared(&changes.ops_gone, &changes.ops)
                && all_parts(&changes.ops_gone, &changes.ops, o.name.hart)
                && all_above(&before.all, &changes.ops) == above
        }
    }
}

/// Whether `after` comes from `before` by this step.
pub fn is_step(alloc: Global, before: &Lists, after: &Lists, step: Step) -> Result<bool, Fail> {
    let changes = changes_of(alloc, before, after)?;
    Ok(match step {
        Step::Start => true,
        Step::Early(_from) => is_early(before, &changes, true),
        Step::EarlyBelow(_from) => is_early(before, &changes, false),
        Step::Insn(_from) => is_insn(before, after, &changes, true),
        Step::InsnBetween(_from) => is_insn(before, after, &changes, false),
        Step::Stores(_from) => is_stores(before, &changes, true),
        Step::StoresBelow(_from) => is_stores(before, &changes, false),
    })
}
