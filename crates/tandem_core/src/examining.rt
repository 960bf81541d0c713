//! What is first wrong with a message, by the tables of what came before it.

ghost use Rattle.std.specs.Prelude.{◌≡◌, List, ◌∷◌, IfOk, IfNone};
ghost use Rattle.elf_image.specs.Images.{loaded_of};
ghost use Rattle.msg_frames.specs.declared.message.Message.{Message};
ghost use Rattle.msg_frames.specs.Frames.{Fits};
ghost use Rattle.matching.specs.Settings.{number_after};
ghost use Rattle.trace_model.specs.Tracers.{Follows};
ghost use Rattle.order_laws.specs.Retired;
ghost use Rattle.order_laws.specs.Faults.{message_fault};
ghost use Rattle.order_laws.specs.Faults;

use elf_image::Image;
use msg_frames::{Body, Message};
use rvwmo_model::{Last, plain_last};
use std::alloc::{AllocError, Global};
use trace_model::Tracer;
use verdict_report::Fault;

/// The tag of the instruction that a message retires.
fn retired_tag(message: &Message) -> Option<u64>
    ensures { result ≡ Retired.retired_tag message.now.head message.now.body }
{
    match &message.body {
        Body::Retire(retire) if retire.trap.is_none() => Some(message.head.tag),
        _ => None,
    }
}

/// What stands at the newest step of a trace, as a fault.
fn order_fault_of(last: Last) -> Option<Fault>
    ensures { result ≡ Faults.order_fault_of last }
{
    match last {
        Last::Fine => None,
        Last::Value { at, want, got } => Some(Fault::LoadValue {
            at,
            want: Some(want),
            got: Some(got),
        }),
        Last::Order {
            rule,
            first,
            second,
        } => Some(Fault::Order {
            rule,
            first,
            second,
        }),
        Last::Atomicity { at, store } => Some(Fault::Atomicity { at, store }),
    }
}

/// The first fault of memory order at a message that has been taken.
fn order_fault(
    alloc: Global,
    image: &Image,
    tracer: &Tracer,
    message: &Message,
) -> Result<Option<Fault>, AllocError>
    ensures { (before : List Message) → Follows (loaded_of image.now) tracer.now (message.now ∷ before) →
        IfOk result (λ fault. fault ≡ Faults.order_fault (loaded_of image.now) before message.now) }
{
    let trace = tracer.trace(alloc)?;
    let tag = retired_tag(message);
    let last = plain_last(alloc, image, &trace, message.head.hart, tag)?;
    Ok(order_fault_of(last))
}

/// Takes message `number`, or says what is first wrong with it, the order of memory included.
pub fn examine(
    alloc: Global,
    image: &Image,
    tracer: &mut Tracer,
    number: u64,
    message: &Message,
) -> Result<Option<Fault>, AllocError>
    requires { Fits message.now }
    ensures fault { (before : List Message) → Follows (loaded_of image.now) tracer.old before →
        number ≡ number_after before →
        IfOk result (λ fault. fault ≡ message_fault (loaded_of image.now) before message.now) }
    ensures taken { (before : List Message) → Follows (loaded_of image.now) tracer.old before →
        number ≡ number_after before →
        IfOk result (λ fault. IfNone fault (Follows (loaded_of image.now) tracer.new (message.now ∷ before))) }
{
    match tracer.take(image, number, message)? {
        Some(fault) => return Ok(Some(fault)),
        None => {}
    }
    order_fault(alloc, image, tracer, message)
}
