//! Pairs of an LR and an SC, and whether they are atomic.

ghost use Rattle.std.specs.Prelude.{◌≡◌, ◌&&◌, ◌||◌, not, None};
ghost use Rattle.std.specs.List.{filter, list_any};
ghost use Rattle.rvwmo_model.specs.Answer;
ghost use Rattle.rvwmo_model.specs.InsnKinds;
ghost use Rattle.rvwmo_model.specs.Search;
ghost use Rattle.rvwmo_model.specs.Sources;
ghost use Rattle.rvwmo_model.specs.Tests;

use super::kinds::is_sc;
use super::rules::is_pair_of;
use super::sources::{insn_of, keep_later, source};
use crate::instructions::Retired;
use crate::operations::Op;
use crate::traces::Trace;

/// The address that was found, else this one where it passes.
pub fn or_address(found: Option<u64>, passes: bool, x: u64) -> Option<u64>
    ensures { result ≡ Search.or_address found passes x }
{
    match found {
        None => { if passes { Some(x) } else { None } }
        Some(y) => Some(y),
    }
}

fn has_stored(insn: Option<Retired>) -> bool
    ensures { result ≡ InsnKinds.has_stored insn }
{
    match insn {
        None => false,
        Some(w) => is_sc(&w.insn) && w.stored,
    }
}

fn is_pair(t: &Trace, r: &Op, w: &Op) -> bool
    ensures { result ≡ Tests.is_pair t.now r.now w.now }
{
    w.name.hart == r.name.hart
        && r.name.tag < w.name.tag
        && is_pair_of(t, r, w)
        && has_stored(insn_of(t, w))
}

#[tactic(auto, unfolding(crate::specs::Search::some_at))]
fn is_outside(w: &Op, r: &Op) -> bool
    ensures { result ≡ not (Tests.is_covered_by w.now r.now) }
{
    let mut found = false;
    for j in 0..w.extent.len {
        let x = w.extent.addr + u64::from(j);
        found = found || w.has_byte(x) && !r.has_byte(x);
    }
    found
}

fn has_pair(t: &Trace, ops: &[Op], w: &Op) -> bool
    ensures { result ≡ list_any (λ r. Tests.is_pair t.now r w.now && Tests.is_covered_by w.now r) ops.now }
{
    for r in ops {
        if is_pair(t, r, w) && !is_outside(w, r) {
            return true;
        }
    }
    false
}

/// Whether `w` is of a successful SC without a pair whose bytes contain its own.
pub fn is_unpaired(t: &Trace, w: &Op) -> bool
    ensures { result ≡ Tests.is_unpaired t.now w.now }
{
    has_stored(insn_of(t, w)) && !has_pair(t, t.ops.items(), w)
}

fn is_other_before(w: &Op, v: &Op) -> bool
    ensures { result ≡ Tests.is_other_before w.now v.now }
{
    v.name.hart != w.name.hart && v.precedes(w)
}

fn is_after(source: &Option<Op>, v: &Op) -> bool
    ensures { result ≡ Tests.is_after source.now v.now }
{
    match source {
        None => true,
        Some(s) => s.precedes(v),
    }
}

fn is_late(source: &Option<Op>, w: &Op) -> bool
    ensures { result ≡ Tests.is_late source.now w.now }
{
    match source {
        None => false,
        Some(s) => !s.precedes(w),
    }
}

fn some_intrudes(list: &[Op], source: &Option<Op>, w: &Op, x: u64) -> bool
    ensures { result ≡ list_any (Tests.intrudes source.now w.now x) list.now }
{
    for v in list {
        if v.writes(x) && is_other_before(w, v) && is_after(source, v) {
            return true;
        }
    }
    false
}

fn is_torn_from(t: &Trace, source: &Option<Op>, w: &Op, x: u64) -> bool
    ensures { result ≡ (Tests.is_late source.now w.now
        || Tests.some_everywhere (Tests.intrudes source.now w.now x) t.now) }
{
    is_late(source, w)
        || some_intrudes(t.ops.items(), source, w, x)
        || some_intrudes(t.early.items(), source, w, x)
}

fn is_torn_at(t: &Trace, r: &Op, w: &Op, x: u64) -> bool
    ensures { result ≡ Tests.is_torn_at t.now r.now w.now x }
{
    r.reads(x) && is_torn_from(t, &source(t, r, x), w, x)
}

/// The lowest byte of `r` at which it isn't atomic with `w`.
#[tactic(auto, unfolding(crate::specs::Search::first_at))]
pub fn torn_byte(t: &Trace, r: &Op, w: &Op) -> Option<u64>
    ensures { result ≡ Tests.torn_byte t.now r.now w.now }
{
    let mut found = None;
    for j in 0..r.extent.len {
        let x = r.extent.addr + u64::from(j);
        found = or_address(found, is_torn_at(t, r, w, x), x);
    }
    found
}

fn in_block(t: &Trace, r: &Op, x: u64) -> bool
    ensures { result ≡ Tests.in_block t.now r.now x }
{
    let granule = u64::from(t.granule);
    granule > 0 && x / granule == r.extent.addr / granule
}

/// The lowest byte of the reserved block of `r` that `v` stores to.
#[tactic(auto, unfolding(crate::specs::Search::first_at))]
pub fn block_byte(t: &Trace, r: &Op, v: &Op) -> Option<u64>
    ensures { result ≡ Tests.block_byte t.now r.now v.now }
{
    let mut found = None;
    for j in 0..v.extent.len {
        let x = v.extent.addr + u64::from(j);
        found = or_address(found, v.writes(x) && in_block(t, r, x), x);
    }
    found
}

fn intrudes_block(t: &Trace, r: &Op, w: &Op, v: &Op) -> bool
    ensures { result ≡ Tests.intrudes_block t.now r.now w.now v.now }
{
    is_other_before(w, v) && r.precedes(v) && block_byte(t, r, v).is_some()
}

fn some_intrudes_block(t: &Trace, list: &[Op], r: &Op, w: &Op) -> bool
    ensures { result ≡ list_any (Tests.intrudes_block t.now r.now w.now) list.now }
{
    for v in list {
        if intrudes_block(t, r, w, v) {
            return true;
        }
    }
    false
}

/// Whether `r` and `w` are a pair that isn't atomic.
pub fn is_pair_torn(t: &Trace, r: &Op, w: &Op) -> bool
    ensures { result ≡ Tests.is_pair_torn t.now r.now w.now }
{
    is_pair(t, r, w)
        && (torn_byte(t, r, w).is_some()
            || some_intrudes_block(t, t.ops.items(), r, w)
            || some_intrudes_block(t, t.early.items(), r, w))
}

fn latest_foreign(start: Option<Op>, list: &[Op], w: &Op, x: u64) -> Option<Op>
    ensures { result ≡ Sources.latest_from start (filter (Tests.is_foreign w.now x) list.now) }
{
    let mut best = start;
    for v in list {
        if v.writes(x) && is_other_before(w, v) {
            keep_later(&mut best, v);
        }
    }
    best
}

fn latest_in_block(t: &Trace, start: Option<Op>, list: &[Op], r: &Op, w: &Op) -> Option<Op>
    ensures { result ≡ Sources.latest_from start (filter (Tests.intrudes_block t.now r.now w.now) list.now) }
{
    let mut best = start;
    for v in list {
        if intrudes_block(t, r, w, v) {
            keep_later(&mut best, v);
        }
    }
    best
}

/// The store that is named where the bytes of an LR with this source show that it isn't atomic.
pub fn blamed(t: &Trace, w: &Op, x: u64, source: Option<Op>) -> Option<Op>
    ensures { result ≡ Answer.blamed t.now w.now x source }
{
    if is_late(&source, w) {
        source
    } else {
        latest_foreign(
            latest_foreign(None, t.ops.items(), w, x),
            t.early.items(),
            w,
            x,
        )
    }
}

/// The last store of another hart to the block of `r`, after it and before `w`.
pub fn latest_intruder(t: &Trace, r: &Op, w: &Op) -> Option<Op>
    ensures { result ≡ Tests.latest_everywhere (Tests.intrudes_block t.now r.now w.now) t.now }
{
    latest_in_block(
        t,
        latest_in_block(t, None, t.ops.items(), r, w),
        t.early.items(),
        r,
        w,
    )
}
