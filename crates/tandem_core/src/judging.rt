//! The verdict on the stream of a source.

ghost use Rattle.std.specs.Prelude.{◌≡◌, ◌≤◌, ℕ, List, true, Err, IfOk};
ghost use Rattle.tandem_io.specs.Causes.{Rose};
ghost use Rattle.msg_frames.specs.Taking.{TakenFrom};
ghost use Rattle.elf_image.specs.Images.{loaded_of};
ghost use Rattle.tandem_core.specs.Limits.{HasCeilings};
ghost use Rattle.tandem_core.specs.Judging.{JudgedIs, TellsTruncation};

use super::core_state::Core;
use super::limits::Limits;
use elf_image::Image;
use msg_frames::{Arrived, Body, Head, Message, next_message_into};
use std::alloc::Global;
use tandem_io::Source;
use verdict_report::Verdict;

/// Why a stream has no verdict.
#[derive(Clone, Copy, Debug, PartialEq, Eq)]
pub enum Unjudged {
    /// The source failed before the frame of the verdict was whole.
    Failed,
    /// Memory was refused.
    Memory,
}

/// Judges the stream of a source against an image, and takes just the bytes up to and with the
/// frame at which the verdict stands.
pub fn judge<S: Source>(
    alloc: Global,
    image: &Image,
    limits: &Limits,
    src: &mut S,
) -> Result<Verdict, Unjudged>
    requires { HasCeilings limits.now }
    ensures judged { (got : List ℕ) × TakenFrom (S.left src.old) (S.left src.new) (S.log src.old) (S.log src.new) got
        × JudgedIs (loaded_of image.now) limits.now result got (S.left src.new) }
    ensures ended { IfOk result (λ v. TellsTruncation v → S.ended src.new ≡ true) }
    ensures count { S.faults src.old ≤ S.faults src.new }
    ensures cause { result ≡ Err Unjudged.Failed → Rose (S.faults src.old) (S.faults src.new) }
    ensures beside { S.aside src.new ≡ S.aside src.old }
{
    let mut buf = [0; 514];
    judge_in(alloc, image, limits, src, &mut buf)
}

/// The same, by way of a buffer for one frame.
fn judge_in<S: Source>(
    alloc: Global,
    image: &Image,
    limits: &Limits,
    src: &mut S,
    buf: &mut [u8; 514],
) -> Result<Verdict, Unjudged>
    requires { HasCeilings limits.now }
    ensures judged { (got : List ℕ) × TakenFrom (S.left src.old) (S.left src.new) (S.log src.old) (S.log src.new) got
        × JudgedIs (loaded_of image.now) limits.now result got (S.left src.new) }
    ensures ended { IfOk result (λ v. TellsTruncation v → S.ended src.new ≡ true) }
    ensures count { S.faults src.old ≤ S.faults src.new }
    ensures cause { result ≡ Err Unjudged.Failed → Rose (S.faults src.old) (S.faults src.new) }
    ensures beside { S.aside src.new ≡ S.aside src.old }
{
    let mut core = Core::start(alloc, image, limits);
    let mut message = no_message();
    loop {
        match next_message_into(src, buf, &mut message) {
            Arrived::Message => {
                match core.advance(&message) {
                    Ok(()) => {}
                    Err(_refused) => return Err(Unjudged::Memory),
                }
                match core.verdict() {
                    Some(verdict) => return Ok(*verdict),
                    None => {}
                }
            }
            Arrived::Bad(fault) => return Ok(Verdict::Reject(core.bad_frame(&fault))),
            Arrived::Ended(have) => return Ok(Verdict::Reject(core.truncated(have))),
            Arrived::Failed => return Err(Unjudged::Failed),
        }
    }
}

/// A message to read others into.
fn no_message() -> Message {
    let head = Head {
        hart: 0,
        time: 0,
        tag: 0,
    };
    Message {
        head,
        body: Body::Squash,
    }
}
