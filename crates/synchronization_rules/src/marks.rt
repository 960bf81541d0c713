//! The marks of one hart, and what they answer.

ghost use Rattle.std.specs.Prelude.{◌≡◌};
ghost use Rattle.synchronization_rules.specs.Marks.{waiting_under};

use crate::fences::{FenceOrder, fence_orders, later_of_tags};
use crate::operation::{MarkedOp, later_of, name_after, raise};
use rv_decode::Insn;
use rvwmo_model::OpKind;
use std::marker::Model;
use store_buffer::Stores;
use tandem_base::{Mark, OpName};

/// Of one hart the latest operations that FENCEs, annotations and pairs of LR and SC put before others.
#[derive(Drop)]
pub struct HartMarks {
    /// The latest performed operations that load, and that store.
    loads: Option<Mark>,
    stores: Option<Mark>,
    /// Those with an acquire annotation, and with an RCsc annotation.
    acquires: Option<Mark>,
    rcsc: Option<Mark>,
    /// The four orders of FENCEs.
    load_load: FenceOrder,
    load_store: FenceOrder,
    store_load: FenceOrder,
    store_store: FenceOrder,
    /// The operation of the open LR.
    open_lr: Option<Mark>,
}

impl Model for HartMarks {
    ghost use Rattle.synchronization_rules.specs.Marks.{HartTable};

    ghost Value = { HartTable };

    ghost view = { λ m. record {
      loads = m.loads;
      stores = m.stores;
      acquires = m.acquires;
      rcsc = m.rcsc;
      load_load = m.load_load;
      load_store = m.load_store;
      store_load = m.store_load;
      store_store = m.store_store;
      open_lr = m.open_lr;
    } };
}

/// The store of the greatest tag that waits below a tag, where there is one.
fn waiting_under(stores: &Stores, below: Option<u64>) -> Option<OpName>
    ensures { result ≡ waiting_under stores.now below }
{
    match below {
        None => None,
        Some(below) => stores.waiting(below, None),
    }
}

impl HartMarks {
    ghost use Rattle.std.specs.Prelude.{◌≡◌, ℕ};
    ghost use Rattle.rvwmo_model.specs.declared.instructions.Retired.{Retired};
    ghost use Rattle.rvwmo_model.specs.declared.operations.Op.{Op};
    ghost use Rattle.rvwmo_model.specs.declared.traces.Trace.{Trace};
    ghost use Rattle.rvwmo_model.specs.declared.preserved.Rule.TheVariants.{R4, R5, R6, R7, R8};
    ghost use Rattle.rule_laws.specs.Fences.{IsLatestFence, storing};
    ghost use Rattle.rule_laws.specs.Named.{NamesFirst};
    ghost use Rattle.synchronization_rules.specs.Marks.{
      after_performed,
      marks_after_retire,
      fence_for,
      fenced_for,
      name_by_acquire,
      name_by_fence,
      name_by_pair,
      name_by_rcsc,
      name_by_release,
      no_hart_marks,
      with_fences,
      with_lr,
      with_op,
      with_ops,
      with_parts,
    };
    ghost use Rattle.synchronization_rules.specs.Asked.{AreMarksOf, AreStoresWaiting, IsSynchronized};

    /// The marks of a hart before its first instruction.
    pub fn new() -> HartMarks
        ensures { result ≡ no_hart_marks }
    {
        HartMarks {
            loads: None,
            stores: None,
            acquires: None,
            rcsc: None,
            load_load: FenceOrder::NONE,
            load_store: FenceOrder::NONE,
            store_load: FenceOrder::NONE,
            store_store: FenceOrder::NONE,
            open_lr: None,
        }
    }

    /// Takes one performed operation.
    fn note(&mut self, op: &MarkedOp)
        ensures { self.new ≡ with_op op.now self.old }
    {
        raise(&mut self.loads, op.loads(), op);
        raise(&mut self.stores, op.stores(), op);
        raise(&mut self.acquires, op.acquires(), op);
        raise(&mut self.rcsc, op.is_rcsc(), op);
    }

    /// Takes the performed operations of one instruction.
    fn note_all(&mut self, ops: &[MarkedOp])
        ensures { self.new ≡ with_ops ops.now self.old }
    {
        for op in ops {
            self.note(op);
        }
    }

    /// Takes a FENCE, of each order that it has.
    fn note_fence(&mut self, tag: u64, insn: &Insn)
        ensures { self.new ≡ with_fences tag insn.now self.old }
    {
        let load_load = fence_orders(insn, OpKind::Load, OpKind::Load);
        let load_store = fence_orders(insn, OpKind::Load, OpKind::Store);
        let store_load = fence_orders(insn, OpKind::Store, OpKind::Load);
        let store_store = fence_orders(insn, OpKind::Store, OpKind::Store);
        self.load_load.retire(load_load, tag, self.loads);
        self.load_store.retire(load_store, tag, self.loads);
        self.store_load.retire(store_load, tag, self.stores);
        self.store_store.retire(store_store, tag, self.stores);
    }

    /// An LR opens, an SC closes.
    fn note_lr(&mut self, insn: &Insn, ops: &[MarkedOp])
        ensures { self.new ≡ with_lr insn.now ops.now self.old }
    {
        match *insn {
            Insn::Lr { .. } => {
                self.open_lr = match ops.first() {
                    None => None,
                    Some(op) => Some(op.mark()),
                }
            }
            Insn::Sc { .. } => self.open_lr = None,
            _ => {}
        }
    }

    /// An instruction of the hart retires, with those of its operations that were performed.
    pub fn retire(&mut self, tag: u64, insn: &Insn, ops: &[MarkedOp])
        ensures { self.new ≡ marks_after_retire tag insn.now ops.now self.old }
    {
        self.note_fence(tag, insn);
        self.note_lr(insn, ops);
        self.note_all(ops);
    }

    /// A part of a store of the hart that waited is performed.
    pub fn performed(&mut self, op: &MarkedOp)
        ensures { self.new ≡ after_performed op.now self.old }
    {
        self.load_load.performed(op.loads(), op);
        self.load_store.performed(op.loads(), op);
        self.store_load.performed(op.stores(), op);
        self.store_store.performed(op.stores(), op);
        self.note(op);
    }

    /// The tag of the latest FENCE that orders stores before stores. None exactly where there is none.
    pub fn store_fence(&self) -> Option<u64>
        ensures { (t : Trace) (h : ℕ) → AreMarksOf t h self.now → IsLatestFence t h storing storing result }
    {
        self.fence_for(OpKind::Store)
    }

    /// The tag of the latest FENCE that orders stores before an operation of this kind.
    fn fence_for(&self, kind: OpKind) -> Option<u64>
        ensures { result ≡ fence_for kind self.now }
    {
        match kind {
            OpKind::Load => self.store_load.fence,
            OpKind::Store => self.store_store.fence,
            OpKind::Both => later_of_tags(self.store_load.fence, self.store_store.fence),
        }
    }

    /// The latest operation that a FENCE orders before one of this kind.
    fn fenced_for(&self, kind: OpKind) -> Option<Mark>
        ensures { result ≡ fenced_for kind self.now }
    {
        let load = later_of(self.load_load.latest, self.store_load.latest);
        let store = later_of(self.load_store.latest, self.store_store.latest);
        match kind {
            OpKind::Load => load,
            OpKind::Store => store,
            OpKind::Both => later_of(load, store),
        }
    }

    /// The answer by rule 4.
    fn name_by_fence(&self, op: &MarkedOp, stores: &Stores) -> Option<OpName>
        ensures { result ≡ name_by_fence op.now stores.now self.now }
    {
        match waiting_under(stores, self.fence_for(op.kind)) {
            Some(name) => Some(name),
            None => name_after(self.fenced_for(op.kind), op.place),
        }
    }

    /// That by rule 5.
    fn name_by_acquire(&self, op: &MarkedOp) -> Option<OpName>
        ensures { result ≡ name_by_acquire op.now self.now }
    {
        name_after(self.acquires, op.place)
    }

    /// That by rule 6.
    fn name_by_release(&self, op: &MarkedOp, stores: &Stores) -> Option<OpName>
        ensures { result ≡ name_by_release op.now stores.now self.now }
    {
        if !op.releases() {
            return None;
        }
        match waiting_under(stores, Some(op.name.tag)) {
            Some(name) => Some(name),
            None => name_after(later_of(self.loads, self.stores), op.place),
        }
    }

    /// That by rule 7.
    fn name_by_rcsc(&self, op: &MarkedOp) -> Option<OpName>
        ensures { result ≡ name_by_rcsc op.now self.now }
    {
        if op.is_rcsc() {
            name_after(self.rcsc, op.place)
        } else {
            None
        }
    }

    /// That by rule 8.
    fn name_by_pair(&self, insn: &Insn, op: &MarkedOp) -> Option<OpName>
        ensures { result ≡ name_by_pair insn.now op.now self.now }
    {
        match *insn {
            Insn::Sc { .. } => name_after(self.open_lr, op.place),
            _ => None,
        }
    }

    /// Rule 4: the latest operation that a FENCE orders before this one of the instruction, and that
    /// waits or was performed after it.
    pub fn first_by_fence(&self, op: &MarkedOp, stores: &Stores) -> Option<OpName>
        ensures { (t t' : Trace) (r : Retired) (b : Op) → IsSynchronized t t' r b self.now op.now
            → AreStoresWaiting t r.hart stores.now → NamesFirst R4 t' b result }
    {
        self.name_by_fence(op, stores)
    }

    /// Rule 5: the latest operation with an acquire annotation that was performed after this one.
    pub fn first_by_acquire(&self, op: &MarkedOp) -> Option<OpName>
        ensures { (t t' : Trace) (r : Retired) (b : Op) → IsSynchronized t t' r b self.now op.now
            → NamesFirst R5 t' b result }
    {
        self.name_by_acquire(op)
    }

    /// Rule 6: where this operation has a release annotation, the latest that waits or was performed after
    /// it.
    pub fn first_by_release(&self, op: &MarkedOp, stores: &Stores) -> Option<OpName>
        ensures { (t t' : Trace) (r : Retired) (b : Op) → IsSynchronized t t' r b self.now op.now
            → AreStoresWaiting t r.hart stores.now → NamesFirst R6 t' b result }
    {
        self.name_by_release(op, stores)
    }

    /// Rule 7: where this operation has an RCsc annotation, the latest with one that was performed after it.
    pub fn first_by_rcsc(&self, op: &MarkedOp) -> Option<OpName>
        ensures { (t t' : Trace) (r : Retired) (b : Op) → IsSynchronized t t' r b self.now op.now
            → NamesFirst R7 t' b result }
    {
        self.name_by_rcsc(op)
    }

    /// Rule 8: where this operation is of an SC, that of the open LR, if it was performed after it.
    pub fn first_by_pair(&self, insn: &Insn, op: &MarkedOp) -> Option<OpName>
        ensures { (t t' : Trace) (r : Retired) (b : Op) → IsSynchronized t t' r b self.now op.now
            → r.insn ≡ insn.now → NamesFirst R8 t' b result }
    {
        self.name_by_pair(insn, op)
    }
}
