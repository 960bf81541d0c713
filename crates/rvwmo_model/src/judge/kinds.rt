//! Which instructions and annotations the rules speak of.

ghost use Rattle.std.specs.Prelude.{◌≡◌};
ghost use Rattle.rv_decode.specs.Kinds;
ghost use Rattle.rvwmo_model.specs.Annotations;
ghost use Rattle.rvwmo_model.specs.InsnKinds;
ghost use Rattle.rvwmo_model.specs.ProgramOrder;

use crate::instructions::Retired;
use crate::operations::{Ann, Op, OpKind};
use rv_decode::Insn;

/// Whether there is an instruction, an AMO or SC.
pub fn is_amo_or_sc(insn: Option<Retired>) -> bool
    ensures { result ≡ ProgramOrder.is_one Kinds.is_amo_or_sc insn }
{
    match insn {
        None => false,
        Some(w) => matches!(w.insn, Insn::Sc { .. } | Insn::Amo { .. }),
    }
}

fn in_set(set: u8, kind: OpKind) -> bool
    ensures { result ≡ InsnKinds.in_set set kind }
{
    set / 2 % 2 == 1 && kind.loads() || set % 2 == 1 && kind.stores()
}

/// Whether it is a FENCE that orders the one kind before the other.
pub fn fence_orders(insn: &Insn, a: OpKind, b: OpKind) -> bool
    ensures { result ≡ InsnKinds.fence_orders insn.now a b }
{
    match *insn {
        Insn::Fence { fm, pred, succ, .. } => {
            if fm == 8 && pred == 3 && succ == 3 {
                a.loads() || a.stores() && b.stores()
            } else {
                in_set(pred, a) && in_set(succ, b)
            }
        }
        _ => false,
    }
}

/// Whether it is RCpc or RCsc.
pub fn is_annotated(ann: Ann) -> bool
    ensures { result ≡ Annotations.is_annotated ann }
{
    match ann {
        Ann::None => false,
        Ann::Rcpc => true,
        Ann::Rcsc => true,
    }
}

fn is_rcsc(ann: Ann) -> bool
    ensures { result ≡ Annotations.is_rcsc ann }
{
    match ann {
        Ann::None => false,
        Ann::Rcpc => false,
        Ann::Rcsc => true,
    }
}

/// Whether an operation has an RCsc annotation.
pub fn has_rcsc(o: &Op) -> bool
    ensures { result ≡ Annotations.has_rcsc o.now }
{
    is_rcsc(o.acquire) || is_rcsc(o.release)
}

/// Whether it is an LR.
pub fn is_lr(insn: &Insn) -> bool
    ensures { result ≡ Kinds.is_lr insn.now }
{
    match *insn {
        Insn::Lr { .. } => true,
        _ => false,
    }
}

/// Whether it is an SC.
pub fn is_sc(insn: &Insn) -> bool
    ensures { result ≡ Kinds.is_sc insn.now }
{
    match *insn {
        Insn::Sc { .. } => true,
        _ => false,
    }
}

/// Whether there is an instruction, an LR.
pub fn found_lr(insn: Option<Retired>) -> bool
    ensures { result ≡ ProgramOrder.is_one Kinds.is_lr insn }
{
    match insn {
        None => false,
        Some(w) => is_lr(&w.insn),
    }
}

/// Whether there is an instruction, an SC.
pub fn found_sc(insn: Option<Retired>) -> bool
    ensures { result ≡ ProgramOrder.is_one Kinds.is_sc insn }
{
    match insn {
        None => false,
        Some(w) => is_sc(&w.insn),
    }
}
