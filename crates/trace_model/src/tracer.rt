//! What is kept of a list of messages, one message at a time, and the trace that it makes.

ghost use Rattle.std.specs.Prelude.{◌≡◌, ◌<◌, List, [], ◌∷◌, IfNone, is_some, false, true};
ghost use Rattle.std.specs.Prelude.{IfOk, None, Ok, OnErr, OnOk, OnSome, Some, length};
ghost use Rattle.std.specs.List.{cons_option};
ghost use Rattle.std.specs.Option.{option_map_or};
ghost use Rattle.elf_image.specs.Images.{Loaded, loaded_of};
ghost use Rattle.msg_frames.specs.Frames.{Fits};
ghost use Rattle.msg_frames.specs.declared.message.Head.{Head};
ghost use Rattle.msg_frames.specs.declared.message.Message.{Message};
ghost use Rattle.rv_step.specs.Plans.{doing_seen};
ghost use Rattle.matching.specs.Matching.{match_fault};
ghost use Rattle.matching.specs.Settings.{number_after, open_of};
ghost use Rattle.matching.specs.Steps.{IsStep};
ghost use Rattle.matching.specs.Tables.{Stands};
ghost use Rattle.verdict_report.specs.declared.fault.Fault.{Fault};
ghost use Rattle.trace_model.specs.Breaking as Breaking;
ghost use Rattle.trace_model.specs.Histories.{StaysInFront, IsHistoryOf};
ghost use Rattle.trace_model.specs.Tracers.{Follows};
ghost use Rattle.trace_model.specs.Traces.{entries, entry_in, trace_of};

use super::building::{count_ops, early_ops, insns, ops};
use super::history::{History, keep_retired};
use elf_image::Image;
use matching::{Matching, Step};
use msg_frames::{Body, Message};
use rv_step::What;
use rvwmo_model::Trace;
use std::alloc::{AllocError, Global};
use verdict_report::Fault;

/// What the messages so far say: the tables of matching, the instructions that retired without a trap
/// with what they did to memory, and the size of the block that a reservation covers. A place for the
/// step of an instruction is lent to each message in turn.
#[derive(Debug, Drop)]
pub struct Tracer {
    matching: Matching,
    history: History,
    granule: u8,
    step: Step,
}

/// The size of a reservation's block, after a message.
fn granule_after(body: &Body, granule: u8) -> u8
    ensures { result ≡ option_map_or (λ info. info.granule) (open_of body.now) granule }
{
    match body {
        Body::Open(info) => info.granule,
        _ => granule,
    }
}

/// Whether the retirement of an instruction may break the order: it loads, or is an SC that stored.
fn may_break_retiring(stored: bool, what: &What) -> bool
    ensures { result ≡ Breaking.may_break_retiring stored (doing_seen what.now) }
{
    match what {
        What::Trap { .. } | What::Plain(_) | What::Counter(_) | What::Store(..) => false,
        What::Load(..) | What::Lr(..) | What::Amo(..) => true,
        What::Sc(..) => stored,
    }
}

/// Whether a message may break the order, by the step of the instruction that it retires, if it retires
/// one. Where this answers no, the message can't.
fn may_break(body: &Body, step: &Step) -> bool
    ensures { (image : Loaded) (before : List Message) (head : Head) → IsStep image before head body.now step.now →
        result ≡ false → Breaking.may_break image before head body.now ≡ false }
{
    match body {
        Body::Write(_) | Body::Bypass(_) => true,
        Body::Retire(_) => may_break_retiring(step.bypass.is_some(), &step.plan.what),
        Body::Open(_)
        | Body::Poke(_)
        | Body::Read(_)
        | Body::Insert(_)
        | Body::Squash
        | Body::End => false,
    }
}

impl Tracer {
    /// What is kept before the first message.
    pub fn new(alloc: Global, image: &Image) -> Result<Tracer, AllocError>
        ensures { IfOk result (λ made. Follows (loaded_of image.now) made []) }
    {
        Ok(Tracer {
            matching: Matching::new(alloc, image)?,
            history: History::new(alloc),
            granule: 0,
            step: Step::new(),
        })
    }

    /// A copy, which takes memory.
    pub fn copy(&self, alloc: Global) -> Result<Tracer, AllocError>
        ensures { (image : Loaded) (before : List Message) → Follows image self.now before →
            IfOk result (λ made. Follows image made before) }
    {
        Ok(Tracer {
            matching: self.matching.copy(alloc)?,
            history: self.history.copy(alloc)?,
            granule: self.granule,
            step: Step::new(),
        })
    }

    /// Keeps the instruction that a message retires, by its step.
    fn keep(&mut self, message: &Message) -> Result<(), AllocError>
        requires known { message.now.head.hart < 16 }
        ensures front { StaysInFront self.old.history self.new.history }
        ensures matching { self.new.matching ≡ self.old.matching }
        ensures granule { self.new.granule ≡ self.old.granule }
        ensures step { self.new.step ≡ self.old.step }
        ensures taken { (image : Loaded) (before : List Message) → Follows image self.old before →
            IsStep image before message.now.head message.now.body self.old.step →
            OnOk result (IsHistoryOf self.new.history
            (cons_option (entry_in image before message.now.head message.now.body) (entries image before))) }
    {
        match &message.body {
            Body::Retire(_) => {
                let live = self.matching.live(message.head.hart);
                keep_retired(&mut self.history, live, &message.head, &self.step)
            }
            _ => Ok(()),
        }
    }

    /// Takes message `number`, which has no fault. Where memory is refused, what was kept of instructions
    /// is still in front, and all else is as it was.
    fn take_parts(&mut self, number: u64, message: &Message) -> Result<(), AllocError>
        requires known { message.now.head.hart < 16 }
        requires fits { Fits message.now }
        ensures front { StaysInFront self.old.history self.new.history }
        ensures taken { (image : Loaded) (before : List Message) → Follows image self.old before →
            number ≡ number_after before → match_fault image before message.now ≡ None →
            IsStep image before message.now.head message.now.body self.old.step →
            OnOk result (Follows image self.new (message.now ∷ before)) }
        ensures stands { (image : Loaded) (before : List Message) → Stands image self.old.matching before →
            OnErr result (Stands image self.new.matching before) }
        ensures granule { OnErr result (self.new.granule ≡ self.old.granule) }
    {
        self.keep(message)?;
        self.matching.put(number, message, &self.step)?;
        self.granule = granule_after(&message.body, self.granule);
        Ok(())
    }

    /// Takes message `number`, which has no fault, by the step of the instruction that it retires, if it
    /// retires one. Where memory is refused nothing has changed.
    fn put(&mut self, number: u64, message: &Message) -> Result<(), AllocError>
        requires known { message.now.head.hart < 16 }
        requires fits { Fits message.now }
        ensures taken { (image : Loaded) (before : List Message) → Follows image self.old before →
            number ≡ number_after before → match_fault image before message.now ≡ None →
            IsStep image before message.now.head message.now.body self.old.step →
            OnOk result (Follows image self.new (message.now ∷ before)) }
        ensures kept { (image : Loaded) (before : List Message) → Follows image self.old before →
            OnErr result (Follows image self.new before) }
    {
        let insns = self.history.insns.len();
        let uses = self.history.uses.len();
        match self.take_parts(number, message) {
            Ok(()) => Ok(()),
            Err(error) => {
                self.history.go_back(insns, uses);
                Err(error)
            }
        }
    }

    /// Takes message `number`, or says what is first wrong with it. `number` is 1 for the first message,
    /// and one more for each that was taken. After a fault, and where memory is refused, nothing has
    /// changed; a fault is told whatever memory does.
    pub fn take(
        &mut self,
        image: &Image,
        number: u64,
        message: &Message,
    ) -> Result<Option<Fault>, AllocError>
        requires { Fits message.now }
        ensures fault { (before : List Message) → Follows (loaded_of image.now) self.old before →
            number ≡ number_after before →
            IfOk result (λ fault. fault ≡ match_fault (loaded_of image.now) before message.now) }
        ensures told { (before : List Message) (f : Fault) → Follows (loaded_of image.now) self.old before →
            number ≡ number_after before → match_fault (loaded_of image.now) before message.now ≡ Some f →
            result ≡ Ok (Some f) }
        ensures taken { (before : List Message) → Follows (loaded_of image.now) self.old before →
            number ≡ number_after before →
            IfOk result (λ fault. IfNone fault (Follows (loaded_of image.now) self.new (message.now ∷ before))) }
        ensures refused { (before : List Message) → Follows (loaded_of image.now) self.old before →
            IfOk result (λ fault. OnSome fault (Follows (loaded_of image.now) self.new before)) }
        ensures kept { (before : List Message) → Follows (loaded_of image.now) self.old before →
            OnErr result (Follows (loaded_of image.now) self.new before) }
    {
        match self
            .matching
            .first_fault(image, number, message, &mut self.step)
        {
            Some(fault) => return Ok(Some(fault)),
            None => {}
        }
        self.put(number, message)?;
        Ok(None)
    }

    /// Takes message `number` where it has no fault and can't break the order of memory, and answers
    /// whether it did. Where it did not, and where memory is refused, nothing has changed.
    pub fn take_unbreaking(
        &mut self,
        image: &Image,
        number: u64,
        message: &Message,
    ) -> Result<bool, AllocError>
        requires { Fits message.now }
        ensures fault { (before : List Message) → Follows (loaded_of image.now) self.old before →
            number ≡ number_after before →
            IfOk result (λ taken. taken ≡ true → match_fault (loaded_of image.now) before message.now ≡ None) }
        ensures order { (before : List Message) → Follows (loaded_of image.now) self.old before →
            number ≡ number_after before → IfOk result (λ taken. taken ≡ true →
            Breaking.may_break (loaded_of image.now) before message.now.head message.now.body ≡ false) }
        ensures taken { (before : List Message) → Follows (loaded_of image.now) self.old before →
            number ≡ number_after before →
            IfOk result (λ taken. taken ≡ true → Follows (loaded_of image.now) self.new (message.now ∷ before)) }
        ensures refused { (before : List Message) → Follows (loaded_of image.now) self.old before →
            IfOk result (λ taken. taken ≡ false → Follows (loaded_of image.now) self.new before) }
        ensures kept { (before : List Message) → Follows (loaded_of image.now) self.old before →
            OnErr result (Follows (loaded_of image.now) self.new before) }
    {
        match self
            .matching
            .first_fault(image, number, message, &mut self.step)
        {
            Some(_fault) => return Ok(false),
            None => {}
        }
        if may_break(&message.body, &self.step) {
            return Ok(false);
        }
        self.put(number, message)?;
        Ok(true)
    }

    /// The trace of the messages so far.
    pub fn trace(&self, alloc: Global) -> Result<Trace, AllocError>
        ensures { (image : Loaded) (before : List Message) → Follows image self.now before →
            IfOk result (λ trace. trace ≡ trace_of image before) }
    {
        Ok(Trace {
            insns: insns(alloc, &self.history.insns)?,
            ops: ops(alloc, &self.history.uses, &self.matching)?,
            early: early_ops(alloc, self.matching.early())?,
            granule: self.granule,
        })
    }

    /// How many operations the trace has, early stores not counted.
    pub fn operations(&self) -> u64
        ensures { (image : Loaded) (before : List Message) → Follows image self.now before →
            result ≡ length (trace_of image before).ops }
    {
        count_ops(&self.history.uses, &self.matching)
    }
}
