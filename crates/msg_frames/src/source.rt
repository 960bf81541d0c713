//! How frames are taken from a source.

ghost use Rattle.std.specs.Prelude.{◌≡◌, ◌<◌, ◌≤◌, ℕ, List, Option, false, length};
ghost use Rattle.tandem_io.specs.Causes.{Rose};
ghost use Rattle.msg_frames.specs.Taking.{TakenFrom, NextIs, is_ended, with_message, IsKept, IsWholeFrame, FilledIs};
ghost use Rattle.msg_frames.specs.Taking.{has_ended, size_at_front};
ghost use Rattle.msg_frames.specs.Reading.{is_length};

use super::checks::fault;
use super::codec::decode_into;
use super::message::{Form, FrameFault, Message};
use super::reading::is_length;
use tandem_base::u16_at;
use tandem_io::{Failed, Source};

/// What comes next from a source.
#[derive(Debug, Drop)]
pub enum Next {
    /// A whole frame, and the message that it spells.
    Msg(Message),
    /// A frame that spells no message. Of one whose length is out of bounds just these two bytes
    /// were taken.
    Bad(FrameFault),
    /// The source ended with so many bytes of the frame.
    Ended(u16),
    /// The source failed. The bytes of the frame that were taken are lost.
    Failed,
}

/// What comes next from a source, where the message is lent a place.
#[derive(Clone, Copy, Debug, PartialEq, Eq)]
pub enum Arrived {
    /// A whole frame. The message that it spells is in that place.
    Message,
    /// A frame that spells no message. Of one whose length is out of bounds just these two bytes
    /// were taken.
    Bad(FrameFault),
    /// The source ended with so many bytes of the frame.
    Ended(u16),
    /// The source failed. The bytes of the frame that were taken are lost.
    Failed,
}

/// What came of filling a buffer.
#[derive(Clone, Copy)]
pub enum Filled {
    /// The buffer is full.
    Whole,
    /// The source ended with so many bytes in it.
    Ended(usize),
    /// The source failed.
    Failed,
}

/// Reads until the buffer is full.
fn fill<S: Source>(src: &mut S, buf: &mut [u8]) -> Filled
    requires { 0 < length buf.old }
    ensures taken { (got : List ℕ)
        × TakenFrom (S.left src.old) (S.left src.new) (S.log src.old) (S.log src.new) got
        × FilledIs result got buf.new (S.left src.new) }
    ensures ended { S.ended src.new ≡ has_ended result }
    ensures count { S.faults src.old ≤ S.faults src.new }
    ensures cause { result ≡ Filled.Failed → Rose (S.faults src.old) (S.faults src.new) }
    ensures opened { S.is_open src.new ≡ S.is_open src.old }
    ensures beside { S.aside src.new ≡ S.aside src.old }
{
    let mut have = 0;
    while have < buf.len() {
        match src.read(&mut buf[have..]) {
            Ok(0) => return Filled::Ended(have),
            Ok(n) => have += n,
            Err(Failed) => return Filled::Failed,
        }
    }
    Filled::Whole
}

/// Reads a whole frame, and answers what that is.
fn read_frame(frame: &[u8], message: &mut Message) -> Arrived
    requires { IsWholeFrame frame.now }
    ensures next { (left : Option (List ℕ)) → NextIs (with_message result message.new) frame.now left }
    ensures kept { IsKept result message.old message.new }
    ensures goes_on { is_ended (with_message result message.new) ≡ false }
    ensures fine { result ≡ Arrived.Failed → ⊥ }
{
    match decode_into(frame, message) {
        Ok(()) => Arrived::Message,
        Err(fault) => Arrived::Bad(fault),
    }
}

/// Takes one frame by way of the buffer, and reads it.
fn take_by_buffer<S: Source>(src: &mut S, buf: &mut [u8; 514], message: &mut Message) -> Arrived
    ensures taken { (got : List ℕ)
        × TakenFrom (S.left src.old) (S.left src.new) (S.log src.old) (S.log src.new) got
        × NextIs (with_message result message.new) got (S.left src.new) }
    ensures kept { IsKept result message.old message.new }
    ensures ended { S.ended src.new ≡ is_ended (with_message result message.new) }
    ensures count { S.faults src.old ≤ S.faults src.new }
    ensures cause { result ≡ Arrived.Failed → Rose (S.faults src.old) (S.faults src.new) }
    ensures opened { S.is_open src.new ≡ S.is_open src.old }
    ensures beside { S.aside src.new ≡ S.aside src.old }
{
    match fill(src, &mut buf[..2]) {
        Filled::Whole => {}
        Filled::Ended(have) => return Arrived::Ended(have as u16),
        Filled::Failed => return Arrived::Failed,
    }
    let length = u16_at(0, buf);
    if !is_length(length) {
        return Arrived::Bad(fault(Form::Length, 0));
    }
    let size = usize::from(length) + 2;
    match fill(src, &mut buf[2..size]) {
        Filled::Whole => read_frame(&buf[..size], message),
        Filled::Ended(have) => Arrived::Ended(2 + have as u16),
        Filled::Failed => Arrived::Failed,
    }
}

/// How many bytes the frame has that lies whole at the front of these, and 0 where none does.
fn size_at_front(bytes: &[u8]) -> usize
    ensures size { result ≡ size_at_front bytes.now }
    ensures inside { result ≤ length bytes.now }
{
    if bytes.len() < 2 {
        return 0;
    }
    let length = u16_at(0, bytes);
    let size = usize::from(length) + 2;
    if is_length(length) && size <= bytes.len() {
        size
    } else {
        0
    }
}

/// Takes exactly the bytes of one frame, in whatever pieces the source gives them, and makes the
/// message the one that it spells. Where it spells none, or isn't whole, the message stays.
///
/// A frame that the source lends is read where it lies, and each other by way of the buffer.
pub fn next_message_into<S: Source>(
    src: &mut S,
    buf: &mut [u8; 514],
    message: &mut Message,
) -> Arrived
    ensures taken { (got : List ℕ)
        × TakenFrom (S.left src.old) (S.left src.new) (S.log src.old) (S.log src.new) got
        × NextIs (with_message result message.new) got (S.left src.new) }
    ensures kept { IsKept result message.old message.new }
    ensures ended { S.ended src.new ≡ is_ended (with_message result message.new) }
    ensures count { S.faults src.old ≤ S.faults src.new }
    ensures cause { result ≡ Arrived.Failed → Rose (S.faults src.old) (S.faults src.new) }
    ensures opened { S.is_open src.new ≡ S.is_open src.old }
    ensures beside { S.aside src.new ≡ S.aside src.old }
{
    let ready = src.ready();
    let size = size_at_front(ready);
    if size == 0 {
        return take_by_buffer(src, buf, message);
    }
    let answer = read_frame(&ready[..size], message);
    src.skip(size);
    answer
}

/// Takes exactly the bytes of one frame, in whatever pieces the source gives them, and reads it.
pub fn next_message<S: Source>(src: &mut S) -> Next
    ensures taken { (got : List ℕ)
        × TakenFrom (S.left src.old) (S.left src.new) (S.log src.old) (S.log src.new) got
        × NextIs result got (S.left src.new) }
    ensures ended { S.ended src.new ≡ is_ended result }
    ensures count { S.faults src.old ≤ S.faults src.new }
    ensures cause { result ≡ Next.Failed → Rose (S.faults src.old) (S.faults src.new) }
    ensures opened { S.is_open src.new ≡ S.is_open src.old }
    ensures beside { S.aside src.new ≡ S.aside src.old }
{
    let mut buf = [0; 514];
    let mut message = Message::blank();
    match next_message_into(src, &mut buf, &mut message) {
        Arrived::Message => Next::Msg(message),
        Arrived::Bad(fault) => Next::Bad(fault),
        Arrived::Ended(have) => Next::Ended(have),
        Arrived::Failed => Next::Failed,
    }
}
