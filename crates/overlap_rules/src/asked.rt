//! An operation that is asked for the first operations of its broken pairs.

ghost use Rattle.std.specs.Prelude.{◌≡◌, ◌<◌};
ghost use Rattle.std.specs.Option.{option_map};
ghost use Rattle.rvwmo_model.specs.Order.{kind_stores};
ghost use Rattle.overlap_rules.specs.Answers;
ghost use Rattle.overlap_rules.specs.Found.{latest_found};
ghost use Rattle.overlap_rules.specs.Questions.{NamesAtomic, NamesLead, NamesLoad, NamesOverlap};

use crate::marks::{later_of, lead_of_kept, lead_of_waiting, of_atomic, of_kept, over};
use kept_ops::{Kept, KeptOp};
use rvwmo_model::OpKind;
use store_buffer::Stores;
use tandem_base::{Mark, OpName};
use window_laws::ByteSource;

/// An operation of an instruction that retires, and what is known of its hart before that.
#[derive(Clone, Copy)]
pub struct Asked<'a> {
    /// The operation, which was performed.
    pub fresh: &'a KeptOp,
    /// Where each byte of its extent comes from, if the operation loads it.
    pub sources: &'a [ByteSource; 8],
    /// The stores of its hart that retired.
    pub stores: &'a Stores,
    /// The operations of its hart that are kept.
    pub kept: &'a Kept,
}

/// What is asked of each byte.
#[derive(Clone, Copy)]
enum Question {
    /// Rule 1: the latest operation with the byte.
    Overlap,
    /// Rule 2: the latest load of the byte with another source.
    Load,
    /// Rule 3: the source, where it is of an SC or AMO.
    Atomic,
    /// Rule 12: what the source depends on.
    Lead,
}

/// The name of what a mark tells.
fn name_of(mark: Option<Mark>) -> Option<OpName>
    ensures { result ≡ option_map (λ m. m.name) mark }
{
    match mark {
        None => None,
        Some(m) => Some(m.name),
    }
}

/// Whether an operation of this kind stores.
fn does_store(kind: OpKind) -> bool
    ensures { result ≡ kind_stores kind }
{
    matches!(kind, OpKind::Store | OpKind::Both)
}

impl<'a> Asked<'a> {
    /// The latest operation that has the byte at `x`, if the operation stores to it.
    fn overlap_at(&self, x: u64) -> Option<Mark>
        ensures { result ≡ Answers.overlap_at self.now.fresh.now self.now.kept.now x }
    {
        let fresh = self.fresh;
        if !fresh.stores(x) {
            return None;
        }
        let kept = self.kept;
        later_of(
            of_kept(kept.store_over(x, fresh.place)),
            of_kept(kept.load_over(x, fresh.place)),
        )
    }

    /// The latest load of the byte at `x` from another source, if the operation loads it.
    fn elsewhere_at(&self, x: u64) -> Option<Mark>
        ensures { result ≡ Answers.elsewhere_at self.now.fresh.now self.now.kept.now x }
    {
        let fresh = self.fresh;
        if !fresh.loads(x) {
            return None;
        }
        let kept = self.kept;
        of_kept(kept.other_load_over(x, fresh.source(x), fresh.place))
    }

    /// The source of the byte at `x`, if the operation loads it, and the source is of an SC or AMO.
    fn atomic_at(&self, from: &ByteSource, x: u64) -> Option<Mark>
        ensures { result ≡ Answers.atomic_at self.now.fresh.now from.now self.now.kept.now x }
    {
        let fresh = self.fresh;
        if !fresh.loads(x) || from.place.is_none() {
            return None;
        }
        let kept = self.kept;
        of_atomic(kept.store_over(x, fresh.place))
    }

    /// What the source of the byte at `x` depends on.
    fn source_lead(&self, from: &ByteSource, x: u64) -> Option<Mark>
        ensures { result
            ≡ Answers.source_lead from.now.place from.now.writer self.now.fresh.now.place self.now.stores.now.stores
            self.now.kept.now x }
    {
        let kept = self.kept;
        let stores = self.stores;
        match (from.place, from.writer) {
            (Some(_), _) => lead_of_kept(kept.store_over(x, self.fresh.place)),
            (None, None) => None,
            (None, Some(writer)) => lead_of_waiting(stores.entry(writer.tag)),
        }
    }

    /// The same, if the operation loads the byte.
    fn lead_at(&self, from: &ByteSource, x: u64) -> Option<Mark>
        ensures { result
            ≡ Answers.lead_at self.now.fresh.now from.now self.now.stores.now.stores self.now.kept.now x }
    {
        let fresh = self.fresh;
        if !fresh.loads(x) {
            return None;
        }
        over(self.source_lead(from, x), fresh.place)
    }

    /// What byte `k` of the extent answers.
    fn answer_at(&self, question: Question, k: u8) -> Option<Mark>
        requires { k < self.now.fresh.now.extent.len }
        ensures { result
            ≡ Answers.answer_at question self.now.fresh.now self.now.sources.now self.now.stores.now.stores
            self.now.kept.now k }
    {
        let extent = self.fresh.extent;
        let x = extent.addr + u64::from(k);
        match question {
            Question::Overlap => self.overlap_at(x),
            Question::Load => self.elsewhere_at(x),
            Question::Atomic => self.atomic_at(&self.sources[k as usize], x),
            Question::Lead => self.lead_at(&self.sources[k as usize], x),
        }
    }

    /// The latest of what the bytes of the extent answer.
    fn latest(&self, question: Question) -> Option<Mark>
        ensures { result
            ≡ latest_found (Answers.answer_at question self.now.fresh.now self.now.sources.now
            self.now.stores.now.stores self.now.kept.now) self.now.fresh.now.extent.len }
    {
        let mut latest = None;
        for k in 0..self.fresh.extent.len {
            latest = later_of(latest, self.answer_at(question, k));
        }
        latest
    }

    /// The first operation of a broken pair of rule 1 with this one second, the latest where there are
    /// several: this one stores to a byte of it.
    pub fn first_by_overlap(&self) -> Option<OpName>
        ensures { NamesOverlap self.now.fresh.now self.now.stores.now self.now.kept.now result }
    {
        let fresh = self.fresh;
        if !does_store(fresh.kind) {
            return None;
        }
        let stores = self.stores;
        match stores.waiting(fresh.name.tag, Some(&fresh.extent)) {
            Some(name) => Some(name),
            None => name_of(self.latest(Question::Overlap)),
        }
    }

    /// That of rule 2: both load a byte, from different sources, with no store to it between them.
    pub fn first_by_load(&self) -> Option<OpName>
        ensures { NamesLoad self.now.fresh.now self.now.stores.now self.now.kept.now result }
    {
        name_of(self.latest(Question::Load))
    }

    /// That of rule 3: it is of an SC or AMO, and this one loads what it wrote.
    pub fn first_by_atomic(&self) -> Option<OpName>
        ensures { NamesAtomic self.now.fresh.now self.now.sources.now self.now.stores.now self.now.kept.now result }
    {
        name_of(self.latest(Question::Atomic))
    }

    /// That of rule 12: this one loads what a store wrote that depends on it by address or data.
    pub fn first_by_lead(&self) -> Option<OpName>
        ensures { NamesLead self.now.fresh.now self.now.sources.now self.now.stores.now self.now.kept.now result }
    {
        name_of(self.latest(Question::Lead))
    }
}
