//! FENCEs, by the orders that they set: a class of operations before a class.

ghost use Rattle.std.specs.Prelude.{◌≡◌};
ghost use Rattle.rvwmo_model.specs.InsnKinds;
ghost use Rattle.rvwmo_model.specs.Order.{kind_loads, kind_stores};
ghost use Rattle.synchronization_rules.specs.Marks.{later_tag};

use crate::operation::{MarkedOp, raise};
use rv_decode::Insn;
use rvwmo_model::OpKind;
use tandem_base::Mark;

/// What is kept of the FENCEs of one order.
#[derive(Clone, Copy)]
pub struct FenceOrder {
    /// The tag of the latest.
    pub fence: Option<u64>,
    /// The latest performed operation of the first class that one of them is after.
    pub latest: Option<Mark>,
}

fn kind_loads(kind: OpKind) -> bool
    ensures { result ≡ kind_loads kind }
{
    matches!(kind, OpKind::Load | OpKind::Both)
}

fn kind_stores(kind: OpKind) -> bool
    ensures { result ≡ kind_stores kind }
{
    matches!(kind, OpKind::Store | OpKind::Both)
}

/// Whether operations of a kind are in a predecessor or successor set.
fn is_in_set(set: u8, kind: OpKind) -> bool
    ensures { result ≡ InsnKinds.in_set set kind }
{
    set / 2 % 2 == 1 && kind_loads(kind) || set % 2 == 1 && kind_stores(kind)
}

/// Whether an instruction is a FENCE that orders operations of the one kind before those of the other.
pub fn fence_orders(insn: &Insn, before: OpKind, after: OpKind) -> bool
    ensures { result ≡ InsnKinds.fence_orders insn.now before after }
{
    match *insn {
        Insn::Fence { fm, pred, succ, .. } => {
            if fm == 8 && pred == 3 && succ == 3 {
                kind_loads(before) || kind_stores(before) && kind_stores(after)
            } else {
                is_in_set(pred, before) && is_in_set(succ, after)
            }
        }
        _ => false,
    }
}

/// The greater of two tags.
pub fn later_of_tags(tag: Option<u64>, other: Option<u64>) -> Option<u64>
    ensures { result ≡ later_tag tag other }
{
    match (tag, other) {
        (None, _) => other,
        (Some(_), None) => tag,
        (Some(a), Some(b)) => { if a < b { other } else { tag } }
    }
}

impl FenceOrder {
    ghost use Rattle.std.specs.Prelude.{◌≡◌, None};
    ghost use Rattle.synchronization_rules.specs.Marks.{is_before_fence, no_order, with_fence, with_store_part};

    /// No FENCE.
    pub(crate) const NONE: FenceOrder = FenceOrder {
        fence: None,
        latest: None,
    };

    /// An instruction retires under a tag. Where it is a FENCE of the order, it is after all that has been
    /// performed of the first class, of which this is the latest.
    pub(crate) fn retire(&mut self, is_fence: bool, tag: u64, latest: Option<Mark>)
        ensures { self.new ≡ with_fence is_fence tag latest self.old }
    {
        if is_fence {
            *self = FenceOrder {
                fence: Some(tag),
                latest,
            };
        }
    }

    /// Whether a FENCE of the order is after a tag.
    fn is_after(&self, tag: u64) -> bool
        ensures { result ≡ is_before_fence tag self.now.fence }
    {
        match self.fence {
            None => false,
            Some(fence) => tag < fence,
        }
    }

    /// An operation that retired before is performed; it counts where it is of the first class.
    pub(crate) fn performed(&mut self, counts: bool, op: &MarkedOp)
        ensures { self.new ≡ with_store_part counts op.now self.old }
    {
        let counts = counts && self.is_after(op.name.tag);
        raise(&mut self.latest, counts, op);
    }
}
