//! What is first wrong with a message.

ghost use Rattle.std.specs.Prelude.{◌≡◌};
ghost use Rattle.matching.specs.Settings as Settings;

use super::Matching;
use crate::faulty::{Faulty, refuse};
use crate::reports::first_early;
use crate::step::Step;
use elf_image::Image;
use msg_frames::{Body, Message};
use tandem_base::Origin;
use verdict_report::Fault;

/// Whether the message is an Open.
fn is_open_message(body: &Body) -> bool
    ensures { result ≡ Settings.is_open body.now }
{
    matches!(body, Body::Open(_))
}

impl Matching {
    ghost use Rattle.std.specs.Prelude.{◌≡◌, ◌+◌, ◌<◌, List, reverse, IsSome};
    ghost use Rattle.std.specs.Prelude.{None, OnErr, OnOk};
    ghost use Rattle.elf_image.specs.Images.{Loaded, loaded_of};
    ghost use Rattle.msg_frames.specs.Frames.{Fits};
    ghost use Rattle.msg_frames.specs.declared.message.Message.{Message};
    ghost use Rattle.msg_frames.specs.declared.message.Body.TheVariants as Body;
    ghost use Rattle.tandem_base.specs.FirstFault.{passed};
    ghost use Rattle.matching.specs.Settings.{number_after};
    ghost use Rattle.matching.specs.Checks.{Checks};
    ghost use Rattle.matching.specs.Steps.{IsStep};
    ghost use Rattle.matching.specs.Matching.{match_fault, body_fault_of, stream_fault_of, end_fault_of};
    ghost use Rattle.matching.specs.EndFaults.{unwritten_below, first_bypass, unretired_fault_of};
    ghost use Rattle.matching.specs.Tables.{Stands};

    /// The place of message `number` in the stream.
    fn check_place(
        &self,
        number: u64,
        message: &Message,
        found: &mut Option<Fault>,
    ) -> Result<(), Faulty>
        requires { Fits message.now }
        ensures known { OnOk result (message.now.head.hart < 16) }
        ensures refused { OnErr result (IsSome found.new) }
        ensures fault { (image : Loaded) (before : List Message) → Stands image self.now before →
            number ≡ number_after before → Checks (stream_fault_of before message.now) result found.new }
    {
        let opens = is_open_message(&message.body);
        if number == 1 {
            return if opens {
                Ok(())
            } else {
                refuse(found, Fault::BadOpen)
            };
        }
        if opens {
            refuse(found, Fault::BadOpen)
        } else if message.head.hart >= self.known {
            refuse(found, Fault::BadHart)
        } else if message.head.time < self.time {
            refuse(found, Fault::TimeBack { last: self.time })
        } else {
            Ok(())
        }
    }

    /// The faults of the harts below this one, and then its own.
    fn check_store(&self, checked: Result<(), Fault>, hart: u8) -> Result<(), Fault>
        requires { hart < 16 }
        ensures { (image : Loaded) (before : List Message) → Stands image self.now before →
            checked ≡ passed (unwritten_below image before hart) →
            result ≡ passed (unwritten_below image before (hart + 1)) }
    {
        match checked {
            Ok(()) => self.harts[usize::from(hart)].check_written(hart),
            Err(fault) => Err(fault),
        }
    }

    /// Every store is performed.
    fn check_stores(&self) -> Result<(), Fault>
        ensures { (image : Loaded) (before : List Message) → Stands image self.now before →
            result ≡ passed (unwritten_below image before 16) }
    {
        let mut checked = Ok(());
        for hart in 0..16u8 {
            checked = self.check_store(checked, hart);
        }
        checked
    }

    /// Every early Bypass has retired.
    fn check_early(&self) -> Result<(), Fault>
        ensures { result ≡ passed (unretired_fault_of (first_bypass (reverse self.now.early.items))) }
    {
        match first_early(&self.early) {
            Some(report) => Err(Fault::Unretired {
                bypass: Origin {
                    hart: report.hart,
                    tag: report.tag,
                },
            }),
            None => Ok(()),
        }
    }

    /// Nothing is left open.
    fn check_end(&self) -> Result<(), Fault>
        ensures { (image : Loaded) (before : List Message) → Stands image self.now before →
            result ≡ passed (end_fault_of image before) }
    {
        self.check_stores()?;
        self.check_early()
    }

    /// The same, with the fault put into a place.
    fn check_last(&self, found: &mut Option<Fault>) -> Result<(), Faulty>
        ensures refused { OnErr result (IsSome found.new) }
        ensures fault { (image : Loaded) (before : List Message) → Stands image self.now before →
            Checks (end_fault_of image before) result found.new }
    {
        match self.check_end() {
            Ok(()) => Ok(()),
            Err(fault) => refuse(found, fault),
        }
    }

    /// What is first wrong with a message of a hart, by the hart's table.
    fn check_hart(
        &self,
        image: &Image,
        message: &Message,
        step: &mut Step,
        found: &mut Option<Fault>,
    ) -> Result<(), Faulty>
        requires known { message.now.head.hart < 16 }
        requires fits { Fits message.now }
        ensures refused { OnErr result (IsSome found.new) }
        ensures step { (before : List Message) → Stands (loaded_of image.now) self.now before →
            OnOk result (IsStep (loaded_of image.now) before message.now.head message.now.body step.new) }
        ensures fault { (before : List Message) → Stands (loaded_of image.now) self.now before →
            (message.now.body ≡ Body.End → ⊥) →
            Checks (body_fault_of (loaded_of image.now) before message.now.head message.now.body) result found.new }
    {
        self.harts[usize::from(message.head.hart)].check(
            image,
            &self.config,
            &self.early,
            message,
            step,
            found,
        )
    }

    /// What is first wrong with a message of a known hart.
    fn check_body(
        &self,
        image: &Image,
        message: &Message,
        step: &mut Step,
        found: &mut Option<Fault>,
    ) -> Result<(), Faulty>
        requires known { message.now.head.hart < 16 }
        requires fits { Fits message.now }
        ensures refused { OnErr result (IsSome found.new) }
        ensures step { (before : List Message) → Stands (loaded_of image.now) self.now before →
            OnOk result (IsStep (loaded_of image.now) before message.now.head message.now.body step.new) }
        ensures fault { (before : List Message) → Stands (loaded_of image.now) self.now before →
            Checks (body_fault_of (loaded_of image.now) before message.now.head message.now.body) result found.new }
    {
        match &message.body {
            Body::End => self.check_last(found),
            _ => self.check_hart(image, message, step, found),
        }
    }

    /// What is first wrong with message `number`, after those that were taken. `number` is 1 for the
    /// first message, and one more for each that was taken.
    pub(super) fn check(
        &self,
        image: &Image,
        number: u64,
        message: &Message,
        step: &mut Step,
        found: &mut Option<Fault>,
    ) -> Result<(), Faulty>
        requires { Fits message.now }
        ensures known { OnOk result (message.now.head.hart < 16) }
        ensures refused { OnErr result (IsSome found.new) }
        ensures step { (before : List Message) → Stands (loaded_of image.now) self.now before →
            OnOk result (IsStep (loaded_of image.now) before message.now.head message.now.body step.new) }
        ensures fault { (before : List Message) → Stands (loaded_of image.now) self.now before →
            number ≡ number_after before → Checks (match_fault (loaded_of image.now) before message.now)
            result found.new }
    {
        self.check_place(number, message, found)?;
        self.check_body(image, message, step, found)
    }
}
