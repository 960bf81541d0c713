//! The trace of a list of messages, or its first fault.

ghost use Rattle.std.specs.Prelude.{◌≡◌, reverse, IfOk};
ghost use Rattle.std.specs.List.{All};
ghost use Rattle.elf_image.specs.Images.{loaded_of};
ghost use Rattle.msg_frames.specs.Frames.{Fits};
ghost use Rattle.trace_model.specs.PlainTraces.{IsTraced};

use super::tracer::Tracer;
use elf_image::Image;
use msg_frames::MessageList;
use rvwmo_model::Trace;
use std::alloc::{AllocError, Global};
use verdict_report::Fault;

/// What a list of messages comes to.
#[derive(Drop)]
pub enum Traced {
    /// No message has a fault, but those of memory order, and this is their trace.
    Whole(Trace),

    /// A message has a fault.
    Faulty {
        /// The number of the first such message, from 1.
        message: u64,
        /// Its first fault.
        fault: Fault,
    },
}

/// The completed trace of a list of messages, or the first of them that has a fault, with its first
/// fault; the faults of memory order are not looked for.
pub fn plain_trace(
    alloc: Global,
    image: &Image,
    messages: &MessageList,
) -> Result<Traced, AllocError>
    requires { All Fits messages.now }
    ensures { IfOk result (IsTraced (loaded_of image.now) (reverse messages.now)) }
{
    let mut tracer = Tracer::new(alloc, image)?;
    for k in 0..messages.len() {
        let Some(message) = messages.get(k) else {
            unreachable!();
        };
        let number = k as u64 + 1;
        match tracer.take(image, number, message)? {
            Some(fault) => return Ok(Traced::Faulty {
                message: number,
                fault,
            }),
            None => {}
        }
    }
    Ok(Traced::Whole(tracer.trace(alloc)?))
}
