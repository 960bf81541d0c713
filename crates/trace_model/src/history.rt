//! The instructions that retired, and what they did to memory.

ghost use Rattle.std.specs.Prelude.{◌≡◌, List, OnOk, reverse};
ghost use Rattle.std.specs.List.{cons_option};
ghost use Rattle.rv_step.specs.Plans.{doing_seen};
ghost use Rattle.matching.specs.declared.reports.OpenReport.{OpenReport};
ghost use Rattle.matching.specs.Reports as Reports;
ghost use Rattle.trace_model.specs.Entries.{Entry};
ghost use Rattle.trace_model.specs.Histories.{StaysInFront, IsHistoryOf};
ghost use Rattle.trace_model.specs.Retirements as Retirements;
ghost use Rattle.trace_model.specs.Seen.{HasStored};
ghost use Rattle.trace_model.specs.Traces.{bytes_stored};

use super::retirements::{KeptUse, atomic_use, load_use, store_use, zeros};
use matching::{OpenReport, Step, bytes_read};
use msg_frames::Head;
use rv_decode::Insn;
use rv_step::What;
use rvwmo_model::{OpKind, Retired};
use std::alloc::{AllocError, Global};

/// The instructions that retired without a trap, and what those did that did something to memory, each in
/// the order in which they retired.
#[derive(Debug, Drop)]
pub struct History {
    pub insns: Vec<Retired>,
    pub uses: Vec<KeptUse>,
}

impl History {
    ghost use Rattle.std.specs.Prelude.{◌≡◌, [], ◌∷◌, List, IfOk, OnOk, take};
    ghost use Rattle.trace_model.specs.Entries.{Entry, Fixed};
    ghost use Rattle.trace_model.specs.Histories.{StaysInFront, IsHistoryOf, entry_with};
    ghost use Rattle.trace_model.specs.Seen.{memory_seen, use_seen};

    /// Before the first instruction.
    pub fn new(alloc: Global) -> History
        ensures { IsHistoryOf result [] }
    {
        History {
            insns: Vec::new(alloc),
            uses: Vec::new(alloc),
        }
    }

    /// A copy, which takes memory.
    pub fn copy(&self, alloc: Global) -> Result<History, AllocError>
        ensures { (es : List Entry) → IsHistoryOf self.now es → IfOk result (λ made. IsHistoryOf made es) }
    {
        Ok(History {
            insns: Vec::from_slice(alloc, &self.insns)?,
            uses: Vec::from_slice(alloc, &self.uses)?,
        })
    }

    /// Keeps an instruction that did nothing to memory.
    fn push(&mut self, insn: Retired) -> Result<(), AllocError>
        ensures front { StaysInFront self.old self.new }
        ensures taken { (es : List Entry) → IsHistoryOf self.old es →
            OnOk result (IsHistoryOf self.new (entry_with insn (Fixed []) ∷ es)) }
    {
        self.insns.push(insn)?;
        Ok(())
    }

    /// Keeps an instruction with what it did to memory.
    fn push_with(&mut self, insn: Retired, used: &KeptUse) -> Result<(), AllocError>
        ensures front { StaysInFront self.old self.new }
        ensures taken { (es : List Entry) → IsHistoryOf self.old es →
            OnOk result (IsHistoryOf self.new (entry_with insn (use_seen used.now) ∷ es)) }
    {
        self.uses.push(*used)?;
        self.insns.push(insn)?;
        Ok(())
    }

    /// Keeps an instruction with what it did to memory, if it did something.
    fn push_using(&mut self, insn: Retired, used: &Option<KeptUse>) -> Result<(), AllocError>
        ensures front { StaysInFront self.old self.new }
        ensures taken { (es : List Entry) → IsHistoryOf self.old es →
            OnOk result (IsHistoryOf self.new (entry_with insn (memory_seen used.now) ∷ es)) }
    {
        match used {
            Some(used) => self.push_with(insn, used),
            None => self.push(insn),
        }
    }

    /// Goes back to what was kept when there were so many instructions and uses.
    pub fn go_back(&mut self, insns: usize, uses: usize)
        ensures insns { self.new.insns.items ≡ take insns self.old.insns.items }
        ensures uses { self.new.uses.items ≡ take uses self.old.uses.items }
    {
        self.insns.truncate(insns);
        self.uses.truncate(uses);
    }
}

/// An instruction that retired.
fn retired(head: &Head, insn: &Insn, stored: bool) -> Retired
    ensures { result ≡ Retirements.retired head.now insn.now stored }
{
    Retired {
        hart: head.hart,
        tag: head.tag,
        insn: *insn,
        stored,
    }
}

/// Keeps an instruction that did something to memory.
#[inline(never)]
fn keep_using(
    history: &mut History,
    live: &[OpenReport],
    head: &Head,
    step: &Step,
) -> Result<(), AllocError>
    ensures front { StaysInFront history.old history.new }
    ensures taken { (early : List OpenReport) (es : List Entry) →
        HasStored (doing_seen step.now.plan.what) step.now.effect.store →
        step.now.bypass ≡ Reports.early_of early head.now.hart head.now.tag → IsHistoryOf history.old es →
        OnOk result (IsHistoryOf history.new (cons_option (Retirements.entry_of (reverse live.now) early head.now
        (bytes_stored step.now.effect.store) (doing_seen step.now.plan.what)) es)) }
{
    match &step.plan.what {
        What::Trap { .. } => Ok(()),
        What::Plain(insn) | What::Counter(insn) => history.push(retired(head, insn, false)),
        What::Load(insn, extent) | What::Lr(insn, extent) => {
            let used = load_use(live, head, insn, extent);
            history.push_with(retired(head, insn, false), &used)
        }
        What::Store(insn, extent) => match &step.effect.store {
            Some(piece) => {
                let used = store_use(head, insn, extent, piece);
                history.push_with(retired(head, insn, false), &used)
            }
            None => Ok(()),
        },
        What::Sc(insn, extent) => {
            let stored = step.bypass.is_some();
            let used = atomic_use(OpKind::Store, insn, extent, zeros(extent), &step.bypass);
            history.push_using(retired(head, insn, stored), &used)
        }
        What::Amo(insn, extent) => {
            let got = bytes_read(live, head.tag, extent);
            let used = atomic_use(OpKind::Both, insn, extent, got, &step.bypass);
            history.push_using(retired(head, insn, false), &used)
        }
    }
}

/// Keeps the instruction of a Retire with what it did to memory, by its step, the live Reads of its hart and
/// the early Bypasses; nothing where it traps. Where memory is refused, what was kept is still in front.
pub fn keep_retired(
    history: &mut History,
    live: &[OpenReport],
    head: &Head,
    step: &Step,
) -> Result<(), AllocError>
    ensures front { StaysInFront history.old history.new }
    ensures taken { (early : List OpenReport) (es : List Entry) →
        HasStored (doing_seen step.now.plan.what) step.now.effect.store →
        step.now.bypass ≡ Reports.early_of early head.now.hart head.now.tag → IsHistoryOf history.old es →
        OnOk result (IsHistoryOf history.new (cons_option (Retirements.entry_of (reverse live.now) early head.now
        (bytes_stored step.now.effect.store) (doing_seen step.now.plan.what)) es)) }
{
    match &step.plan.what {
        What::Plain(insn) | What::Counter(insn) => history.push(retired(head, insn, false)),
        _ => keep_using(history, live, head, step),
    }
}
