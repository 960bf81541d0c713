//! Quick looks for the rules by which `b` has to wait for what depends on `a`: what depends on an
//! operation is found once, and not for each pair that it is in.

ghost use Rattle.std.specs.Prelude.{◌≡◌, IfOk};
ghost use Rattle.std.specs.List.{list_any};
ghost use Rattle.rvwmo_model.specs.Looks;
ghost use Rattle.rvwmo_model.specs.Rules.{R9, R10, R11, R13};

use super::looks::is_against;
use super::walk::{Use, tags_on};
use crate::operations::Op;
use crate::traces::Trace;
use std::alloc::{AllocError, Global};

fn some_in(first: u64, last: u64, tags: &[u64]) -> bool
    ensures { result ≡ Looks.some_in first last tags.now }
{
    for k in tags {
        if first <= *k && *k <= last {
            return true;
        }
    }
    false
}

fn tags_after(alloc: Global, by: Use, t: &Trace, a: &Op) -> Result<Vec<u64>, AllocError>
    ensures { IfOk result (λ tags. tags.items ≡ Looks.tags_after by t.now a.now) }
{
    tags_on(alloc, by, a.name.hart, a.name.tag, t.insns.items())
}

// ---- b depends on a

fn is_at_against(a: &Op, tags: &[u64], b: &Op) -> bool
    ensures { result ≡ Looks.at_against a.now tags.now b.now }
{
    is_against(a, b) && some_in(b.name.tag, b.name.tag, tags)
}

fn second_at(a: &Op, tags: &[u64], ops: &[Op]) -> bool
    ensures { result ≡ list_any (Looks.at_against a.now tags.now) ops.now }
{
    for b in ops {
        if is_at_against(a, tags, b) {
            return true;
        }
    }
    false
}

fn some_at(alloc: Global, by: Use, t: &Trace, ops: &[Op]) -> Result<bool, AllocError>
    ensures { IfOk result (λ some. some
        ≡ list_any (λ a. list_any (Looks.at_against a (Looks.tags_after by t.now a)) t.now.ops) ops.now) }
{
    for a in ops {
        let tags = tags_after(alloc, by, t, a)?;
        if second_at(a, tags.as_slice(), t.ops.items()) {
            return Ok(true);
        }
    }
    Ok(false)
}

// ---- b is a store after what depends on a

fn is_storing_against(a: &Op, tags: &[u64], b: &Op) -> bool
    ensures { result ≡ Looks.storing_against a.now tags.now b.now }
{
    if b.name.hart == a.name.hart && a.name.tag < b.name.tag && b.precedes(a) {
        b.kind.stores() && some_in(a.name.tag + 1, b.name.tag - 1, tags)
    } else {
        false
    }
}

fn second_storing(a: &Op, tags: &[u64], ops: &[Op]) -> bool
    ensures { result ≡ list_any (Looks.storing_against a.now tags.now) ops.now }
{
    for b in ops {
        if is_storing_against(a, tags, b) {
            return true;
        }
    }
    false
}

fn some_storing(alloc: Global, by: Use, t: &Trace, ops: &[Op]) -> Result<bool, AllocError>
    ensures { IfOk result (λ some. some
        ≡ list_any (λ a. list_any (Looks.storing_against a (Looks.tags_after by t.now a)) t.now.ops) ops.now) }
{
    for a in ops {
        let tags = tags_after(alloc, by, t, a)?;
        if second_storing(a, tags.as_slice(), t.ops.items()) {
            return Ok(true);
        }
    }
    Ok(false)
}

// ---- the rules

/// Whether some pair of rule 9 is broken.
#[tactic(auto, using(crate::proofs::Dependents::some_address_is))]
pub fn some_address(alloc: Global, t: &Trace) -> Result<bool, AllocError>
    ensures { IfOk result (λ some. some ≡ Looks.some_broken R9 t.now) }
{
    some_at(alloc, Use::Address, t, t.ops.items())
}

/// Whether some pair of rule 10 is broken.
#[tactic(auto, using(crate::proofs::Dependents::some_data_is))]
pub fn some_data(alloc: Global, t: &Trace) -> Result<bool, AllocError>
    ensures { IfOk result (λ some. some ≡ Looks.some_broken R10 t.now) }
{
    some_at(alloc, Use::Data, t, t.ops.items())
}

/// Whether some pair of rule 11 is broken.
#[tactic(auto, using(crate::proofs::Dependents::some_control_is))]
pub fn some_control(alloc: Global, t: &Trace) -> Result<bool, AllocError>
    ensures { IfOk result (λ some. some ≡ Looks.some_broken R11 t.now) }
{
    some_storing(alloc, Use::Control, t, t.ops.items())
}

/// Whether some pair of rule 13 is broken.
#[tactic(auto, using(crate::proofs::Dependents::some_address_between_is))]
pub fn some_address_between(alloc: Global, t: &Trace) -> Result<bool, AllocError>
    ensures { IfOk result (λ some. some ≡ Looks.some_broken R13 t.now) }
{
    some_storing(alloc, Use::Address, t, t.ops.items())
}
