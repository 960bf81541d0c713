//! What an instruction breaks that retires.

use dep_tracker::Deps;
use dependency_rules::{
    first_by_address, first_by_address_between, first_by_control, first_by_data,
};
use drain_rules::BrokenPair;
use kept_ops::{Kept, KeptOp};
use overlap_rules::Asked;
use rv_decode::Insn;
use rvwmo_model::Ann;
use store_buffer::Stores;
use synchronization_rules::{HartMarks, MarkedOp};
use tandem_base::OpName;
use window_laws::ByteSource;

/// A performed operation of an instruction that retires.
#[derive(Clone, Copy)]
pub struct FreshOp {
    /// The operation.
    pub op: KeptOp,
    /// Where each byte of its extent comes from, if the operation loads it.
    pub sources: [ByteSource; 8],
}

/// An instruction that retires, and what is known of its hart before that.
#[derive(Clone, Copy)]
pub struct Retiring<'a> {
    /// The instruction.
    pub insn: &'a Insn,
    /// The annotation of its operations as acquires.
    pub acquire: Ann,
    /// The annotation of its operations as releases.
    pub release: Ann,
    /// The latest operations that FENCEs, annotations and pairs of LR and SC put before others.
    pub marks: &'a HartMarks,
    /// The latest operations on which registers and control depend.
    pub deps: &'a Deps,
    /// The stores of its hart that retired.
    pub stores: &'a Stores,
    /// The operations of its hart that are kept.
    pub kept: &'a Kept,
}

impl<'a> Retiring<'a> {
    ghost use Rattle.std.specs.Prelude.{◌≡◌, ◌<◌};
    ghost use Rattle.ppo_rules.specs.Retirements.{TellsByRule, TellsFirst, TellsRetired};

    /// An operation of it, with its annotations.
    fn marked(&self, op: &KeptOp) -> MarkedOp
        ensures kind { result.kind ≡ op.now.kind }
        ensures name { result.name ≡ op.now.name }
        ensures place { result.place ≡ op.now.place }
        ensures acquire { result.acquire ≡ self.now.acquire }
        ensures release { result.release ≡ self.now.release }
    {
        MarkedOp {
            kind: op.kind,
            name: op.name,
            place: op.place,
            acquire: self.acquire,
            release: self.release,
        }
    }

    /// By one rule, the first operation of a broken pair with this operation second, the latest where there
    /// are several.
    fn first_by(&self, rule: u8, fresh: &FreshOp) -> Option<OpName>
        ensures { TellsFirst rule self.now fresh.now result }
    {
        let asked = Asked {
            fresh: &fresh.op,
            sources: &fresh.sources,
            stores: self.stores,
            kept: self.kept,
        };
        let marked = self.marked(&fresh.op);
        match rule {
            1 => asked.first_by_overlap(),
            2 => asked.first_by_load(),
            3 => asked.first_by_atomic(),
            4 => self.marks.first_by_fence(&marked, self.stores),
            5 => self.marks.first_by_acquire(&marked),
            6 => self.marks.first_by_release(&marked, self.stores),
            7 => self.marks.first_by_rcsc(&marked),
            8 => self.marks.first_by_pair(self.insn, &marked),
            9 => first_by_address(self.deps, self.insn, marked.place),
            10 => first_by_data(self.deps, self.insn, marked.place),
            11 => first_by_control(self.deps, marked.kind, marked.place),
            12 => asked.first_by_lead(),
            13 => first_by_address_between(self.deps, marked.kind, marked.place),
            _ => None,
        }
    }

    /// By one rule, the pair with the second operation of the least part; None exactly where it breaks none.
    fn pair_by(&self, rule: u8, ops: &[FreshOp]) -> Option<BrokenPair>
        ensures { TellsByRule rule self.now ops.now result }
    {
        for fresh in ops {
            match self.first_by(rule, fresh) {
                None => {}
                Some(first) => {
                    return Some(BrokenPair {
                        rule,
                        first,
                        second: fresh.op.name,
                    });
                }
            }
        }
        None
    }

    /// The pair that is reported where the instruction retires: of the least rule, and of that with the
    /// second operation of the least part. `ops` are its performed operations, in rising order of their
    /// parts. None exactly where no pair is broken.
    pub fn check_retire(&self, ops: &[FreshOp]) -> Option<BrokenPair>
        ensures { TellsRetired self.now ops.now result }
    {
        for rule in 1..14 {
            match self.pair_by(rule, ops) {
                None => {}
                Some(pair) => return Some(pair),
            }
        }
        None
    }
}
