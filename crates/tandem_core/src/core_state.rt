//! The checker in the middle of a stream.

ghost use Rattle.std.specs.Prelude.{◌≡◌, ◌+◌, ◌*◌, ◌≤◌};
ghost use Rattle.std.specs.Option.{ForNone};
ghost use Rattle.tandem_core.specs.Limits.{ceilings};
ghost use Rattle.tandem_core.specs.Runs.{frame_size};

use super::examining::examine;
use super::fed::Fed;
use super::limits::Limits;
use elf_image::Image;
use msg_frames::{Body, FrameFault, Message, size};
use std::alloc::{AllocError, Global};
use trace_model::Tracer;
use verdict_report::{Fault, Limit, Report, Verdict};

/// A checker in the middle of a stream. It keeps what the messages say, and not the messages. Before the
/// first message it has no tables yet, since they take memory.
#[derive(Debug, Drop)]
pub struct Core<'a> {
    alloc: Global,
    image: &'a Image,
    limits: Limits,
    tracer: Option<Tracer>,
    count: u64,
    offset: u64,
    retired: u64,
    verdict: Option<Verdict>,
    ghost limited: { limits.messages ≤ ceilings.messages },
    ghost counted: { count ≤ ceilings.messages + 1 },
    ghost going: { ForNone verdict (count ≤ limits.messages) },
    ghost measured: { offset ≤ 514 * count },
    ghost retirements: { retired ≤ count },
}

/// How many bytes the frame of a message takes.
#[tactic(auto, unfolding(crate::specs::Runs::frame_size))]
fn frame_bytes(message: &Message) -> u64
    ensures value { result ≡ frame_size message.now }
    ensures bound { result ≤ 514 }
{
    u64::from(size(message))
}

impl<'a> Core<'a> {
    ghost use Rattle.std.specs.Prelude.{◌≡◌, ◌+◌, ◌≤◌, List, [], ◌∷◌, Ok, IfOk, OnOk, OnErr, IfNone, Some, None};
    ghost use Rattle.std.specs.Prelude.{length, true, false};
    ghost use Rattle.msg_frames.specs.declared.message.Message.{Message};
    ghost use Rattle.msg_frames.specs.Frames.{Fits};
    ghost use Rattle.elf_image.specs.Images.{Loaded, loaded_of};
    ghost use Rattle.verdict_report.specs.declared.verdict.Verdict.{Verdict};
    ghost use Rattle.tandem_core.specs.declared.limits.Limits.{Limits};
    ghost use Rattle.trace_model.specs.Tracers.{Follows};
    ghost use Rattle.tandem_core.specs.Limits.{HasCeilings};
    ghost use Rattle.tandem_core.specs.Runs.{offset_of};
    ghost use Rattle.tandem_core.specs.Judgements.{bad_frame_of, truncated_of, verdict_at};
    ghost use Rattle.tandem_core.specs.Cores.{CoreStands, HasCounted, HasEnded, IsGoing, fed_as, ended_with};
    ghost use Rattle.tandem_core.specs.Cores.{Counts, HasTables, IsUnchanged, KeepsCounts};
    ghost use Rattle.tandem_core.specs.Cores.{SetsTables, SetsVerdict, verdict_by};
    ghost use Rattle.order_laws.specs.Decisions.{operations_of};
    ghost use Rattle.order_laws.specs.Faults.{IsFaultless, message_fault};

    /// A checker of a stream against this image, before the first message.
    pub fn start(alloc: Global, image: &'a Image, limits: &Limits) -> Core<'a>
        requires { HasCeilings limits.now }
        ensures stands { CoreStands (loaded_of image.now) limits.now result [] }
        ensures counted { HasCounted result [] }
    {
        Core {
            alloc,
            image,
            limits: *limits,
            tracer: None,
            count: 0,
            offset: 0,
            retired: 0,
            verdict: None,
        }
    }

    /// How many messages were taken, the one that ended with a verdict included.
    pub fn count(&self) -> u64
        ensures { (counted : List Message) → HasCounted self.now counted → result ≡ length counted }
    {
        self.count
    }

    /// How many bytes the messages take that were taken, the one that ended with a verdict included.
    pub fn offset(&self) -> u64
        ensures { (counted : List Message) → HasCounted self.now counted → result ≡ offset_of counted }
    {
        self.offset
    }

    /// The verdict with which a message ended, if one did.
    pub(crate) fn verdict(&self) -> &Option<Verdict>
        ensures { result.now ≡ self.now.verdict }
    {
        &self.verdict
    }

    /// The report of a frame that breaks the grammar, behind the messages that were taken. It names
    /// the offset of the byte that breaks it.
    pub fn bad_frame(&self, fault: &FrameFault) -> Report
        ensures { (counted : List Message) → HasCounted self.now counted → result ≡ bad_frame_of counted fault.now }
    {
        let FrameFault { form, offset } = *fault;
        Report {
            message: self.count + 1,
            offset: self.offset + u64::from(offset),
            head: None,
            fault: Fault::BadFrame { form },
        }
    }

    /// The report of a frame of which only `have` bytes came, behind the messages that were taken.
    pub fn truncated(&self, have: u16) -> Report
        ensures { (counted : List Message) → HasCounted self.now counted → result ≡ truncated_of counted have }
    {
        Report {
            message: self.count + 1,
            offset: self.offset,
            head: None,
            fault: Fault::Truncated { have },
        }
    }

    /// A copy of the tables; those before the first message where there are none yet.
    fn tables(&self) -> Result<Tracer, AllocError>
        ensures { (before : List Message) → HasTables (loaded_of self.now.image.now) self.now.tracer before →
            IfOk result (λ t. Follows (loaded_of self.now.image.now) t before) }
    {
        match &self.tracer {
            Some(tracer) => tracer.copy(self.alloc),
            None => Tracer::new(self.alloc, self.image),
        }
    }

    /// Takes a message into the tables where it has no fault and can't break the order of memory, and
    /// answers whether it did. Before the first message it doesn't.
    fn take_unbreaking(&mut self, message: &Message) -> Result<bool, AllocError>
        requires fits { Fits message.now }
        requires going { IsGoing self.old }
        ensures faultless { (before : List Message) →
            HasTables (loaded_of self.old.image.now) self.old.tracer before → self.old.count ≡ length before →
            IsFaultless (loaded_of self.old.image.now) before → IfOk result (λ taken. taken ≡ true →
            message_fault (loaded_of self.old.image.now) before message.now ≡ None) }
        ensures taken { (before : List Message) →
            HasTables (loaded_of self.old.image.now) self.old.tracer before → self.old.count ≡ length before →
            IfOk result (λ taken. taken ≡ true →
            HasTables (loaded_of self.old.image.now) self.new.tracer (message.now ∷ before)) }
        ensures left { IfOk result (λ taken. taken ≡ false → IsUnchanged self.old self.new) }
        ensures refused { OnErr result (IsUnchanged self.old self.new) }
        ensures stays { SetsTables self.old self.new }
    {
        let number = self.count + 1;
        match &mut self.tracer {
            Some(tracer) => tracer.take_unbreaking(self.image, number, message),
            None => Ok(false),
        }
    }

    /// Takes a message into the tables, or says what is first wrong with it. It is tried on a copy, since
    /// judging it takes memory too.
    #[inline(never)]
    fn try_message(&mut self, message: &Message) -> Result<Option<Fault>, AllocError>
        requires fits { Fits message.now }
        requires going { IsGoing self.old }
        ensures fault { (before : List Message) →
            HasTables (loaded_of self.old.image.now) self.old.tracer before → self.old.count ≡ length before →
            IfOk result (λ found. found ≡ message_fault (loaded_of self.old.image.now) before message.now) }
        ensures taken { (before : List Message) →
            HasTables (loaded_of self.old.image.now) self.old.tracer before → self.old.count ≡ length before →
            IfOk result (λ found. IfNone found
            (HasTables (loaded_of self.old.image.now) self.new.tracer (message.now ∷ before))) }
        ensures stays { SetsTables self.old self.new }
        ensures refused { OnErr result (self.new ≡ self.old) }
    {
        let mut tracer = self.tables()?;
        let number = self.count + 1;
        let found = examine(self.alloc, self.image, &mut tracer, number, message)?;
        self.tracer = Some(tracer);
        Ok(found)
    }

    /// How many operations the messages have.
    #[inline(never)]
    fn operations(&self) -> u64
        ensures { (before : List Message) → HasTables (loaded_of self.now.image.now) self.now.tracer before →
            result ≡ operations_of (loaded_of self.now.image.now) before }
    {
        match &self.tracer {
            Some(tracer) => tracer.operations(),
            None => 0,
        }
    }

    /// Sets the verdict, where a message that is fine ends with one: their number passes its limit, or it
    /// is the End.
    fn conclude(&mut self, message: &Message)
        requires going { IsGoing self.old }
        ensures verdict { (before : List Message) →
            HasTables (loaded_of self.old.image.now) self.old.tracer (message.now ∷ before) →
            self.new.verdict ≡ verdict_by self.old message.now None
            (operations_of (loaded_of self.old.image.now) (message.now ∷ before)) }
        ensures stays { SetsVerdict self.old self.new }
        ensures room { IfNone self.new.verdict (self.new.count + 1 ≤ self.new.limits.messages) }
    {
        let number = self.count + 1;
        if number > self.limits.messages {
            self.verdict = Some(Verdict::Undecided {
                message: number,
                limit: Limit::Messages,
                hart: 0,
                count: number,
            });
        } else if matches!(message.body, Body::End) {
            self.verdict = Some(Verdict::Accept {
                messages: number,
                retired: self.retired,
                operations: self.operations(),
            });
        }
    }

    /// Sets the verdict of a message that has a fault.
    fn reject(&mut self, message: &Message, fault: Fault)
        ensures verdict { self.new.verdict ≡ verdict_by self.old message.now (Some fault) 0 }
        ensures stays { SetsVerdict self.old self.new }
    {
        self.verdict = Some(Verdict::Reject(Report {
            message: self.count + 1,
            offset: self.offset,
            head: Some(message.head),
            fault,
        }));
    }

    /// Takes a message into the tables and sets the verdict, where it ends with one.
    fn judge(&mut self, message: &Message) -> Result<(), AllocError>
        requires fits { Fits message.now }
        requires going { IsGoing self.old }
        ensures verdict { (image : Loaded) (limits : Limits) (before : List Message) →
            CoreStands image limits self.old before →
            OnOk result (self.new.verdict ≡ verdict_at image limits before message.now) }
        ensures tables { (image : Loaded) (limits : Limits) (before : List Message) →
            CoreStands image limits self.old before →
            OnOk result (IfNone (verdict_at image limits before message.now)
            (HasTables image self.new.tracer (message.now ∷ before))) }
        ensures stays { KeepsCounts self.old self.new }
        ensures room { OnOk result (IfNone self.new.verdict (self.new.count + 1 ≤ self.new.limits.messages)) }
        ensures refused { OnErr result (IsUnchanged self.old self.new) }
    {
        if self.take_unbreaking(message)? {
            self.conclude(message);
            return Ok(());
        }
        match self.try_message(message)? {
            Some(fault) => {
                self.reject(message, fault);
                Ok(())
            }
            None => {
                self.conclude(message);
                Ok(())
            }
        }
    }

    /// Counts a message.
    fn note(&mut self, message: &Message)
        requires counted { self.old.count ≤ ceilings.messages }
        requires room { IfNone self.old.verdict (self.old.count + 1 ≤ self.old.limits.messages) }
        ensures counts { Counts self.old self.new message.now }
    {
        self.count += 1;
        self.offset += frame_bytes(message);
        if matches!(message.body, Body::Retire(_)) {
            self.retired += 1;
        }
    }

    /// Takes the next message of a stream in which no message ended with a verdict. Where this one
    /// does, the verdict stands in the core. Where memory is refused nothing has changed.
    pub(crate) fn advance(&mut self, message: &Message) -> Result<(), AllocError>
        requires fits { Fits message.now }
        requires going { IsGoing self.old }
        ensures stands { (image : Loaded) (limits : Limits) (before : List Message) →
            CoreStands image limits self.old before →
            OnOk result (IfNone (verdict_at image limits before message.now)
            (CoreStands image limits self.new (message.now ∷ before))) }
        ensures verdict { (image : Loaded) (limits : Limits) (before : List Message) →
            CoreStands image limits self.old before →
            OnOk result (self.new.verdict ≡ verdict_at image limits before message.now) }
        ensures counted { (counted : List Message) → HasCounted self.old counted →
            OnOk result (HasCounted self.new (message.now ∷ counted)) }
        ensures refused { OnErr result (IsUnchanged self.old self.new) }
    {
        self.judge(message)?;
        self.note(message);
        Ok(())
    }

    /// Takes the next message of a stream, and answers what it decides. After an answer other than
    /// Fine the same answer is given again, always, and nothing changes. Where memory is refused nothing
    /// has changed, and the call may be made again.
    pub fn feed(&mut self, message: &Message) -> Result<Fed, AllocError>
        requires { Fits message.now }
        ensures answer { (image : Loaded) (limits : Limits) (before : List Message) →
            CoreStands image limits self.old before →
            IfOk result (λ answer. answer ≡ fed_as (verdict_at image limits before message.now)) }
        ensures stands { (image : Loaded) (limits : Limits) (before : List Message) →
            CoreStands image limits self.old before →
            OnOk result (IfNone (verdict_at image limits before message.now)
            (CoreStands image limits self.new (message.now ∷ before))) }
        ensures verdict { (image : Loaded) (limits : Limits) (before : List Message) →
            CoreStands image limits self.old before →
            OnOk result (ended_with self.new ≡ verdict_at image limits before message.now) }
        ensures ends { IfOk result (λ answer. answer ≡ fed_as (ended_with self.new)) }
        ensures counted { (counted : List Message) → IsGoing self.old → HasCounted self.old counted →
            OnOk result (HasCounted self.new (message.now ∷ counted)) }
        ensures ended { (v : Verdict) → HasEnded self.old v → result ≡ Ok (fed_as (Some v)) }
        ensures closed { (v : Verdict) → HasEnded self.old v → self.new ≡ self.old }
        ensures unchanged { OnErr result (IsUnchanged self.old self.new) }
        ensures refused { (image : Loaded) (limits : Limits) (before : List Message) →
            CoreStands image limits self.old before → OnErr result (CoreStands image limits self.new before) }
        ensures uncounted { (counted : List Message) → HasCounted self.old counted →
            OnErr result (HasCounted self.new counted) }
        ensures going { OnErr result (IsGoing self.new) }
    {
        if self.verdict.is_none() {
            self.advance(message)?;
        }
        Ok(Fed::of(&self.verdict))
    }
}
