//! Frames whose bytes were worked out by hand from the rules of their fields.

use msg_frames::{
    Arrived, Body, Form, FrameFault, Head, Message, MessageList, Next, decode, encode,
    next_message, next_message_into, size, streams_are_cut_frame_by_frame, well_formed,
};
use std::alloc::{AllocError, Global};
use std::test::Fail;
use tandem_io::{Inputs, MemInputs, Slot, Source, SureInputs};

const OPEN: &[u8] = b"\x1a\0\x01\0\0\0\0\0\0\0\0\0\0\0\0\0\0\0\0\0\x01\x01\x00\x00\x00\x00\x00\x00";

const POKE_PC: &[u8] =
    b"\x1e\0\x02\x01\0\0\0\0\0\0\0\0\0\0\0\0\0\0\0\0\0\0\0\0\x04\0\0\x80\0\0\0\0";

const POKE_X: &[u8] = b"\x1e\0\x02\0\0\0\0\0\0\0\0\0\0\0\0\0\0\0\0\0\x01\0\x1f\0\x05\0\0\0\0\0\0\0";

const POKE_CSR: &[u8] =
    b"\x1e\0\x02\0\0\0\0\0\0\0\0\0\0\0\0\0\0\0\0\0\x02\0\x05\x03\x08\0\0\0\0\0\0\0";

const READ_3: &[u8] =
    b"\x1e\0\x03\0\x07\0\0\0\0\0\0\0\x09\0\0\0\0\0\0\0\0\x10\0\x80\0\0\0\0\x03abc";

const INSERT_1: &[u8] =
    b"\x1c\0\x04\0\x07\0\0\0\0\0\0\0\x09\0\0\0\0\0\0\0\0\x10\0\x80\0\0\0\0\x01a";

const BYPASS_8: &[u8] =
    b"\x23\0\x06\0\x07\0\0\0\0\0\0\0\x09\0\0\0\0\0\0\0\0\x10\0\x80\0\0\0\0\x08abcdefgh";

// The mask has bits 0 and 63.
const WRITE: &[u8] = b"\x62\0\x05\0\x07\0\0\0\0\0\0\0\0\0\0\0\0\0\0\0\x40\x10\0\x80\0\0\0\0\
\x01\0\0\0\0\0\0\x80a\0\0\0\0\0\0\0\0\0\0\0\0\0\0\0\0\0\0\0\0\0\0\0\0\0\0\0\0\0\0\0\
\0\0\0\0\0\0\0\0\0\0\0\0\0\0\0\0\0\0\0\0\0\0\0\0\0\0\0\0\0\0\0z";

// No trap, x1 written with 5, no CSRs.
const RETIRE: &[u8] = b"\x32\0\x07\0\x01\0\0\0\0\0\0\0\x01\0\0\0\0\0\0\0\0\0\0\x80\0\0\0\0\
\x93\0\x50\0\x04\0\0\x80\0\0\0\0\x02\0\x01\0\x05\0\0\0\0\0\0\0";

// It trapped with cause 2, no register, CSRs 0x341 and 0x342.
const TRAP: &[u8] = b"\x46\0\x07\0\x01\0\0\0\0\0\0\0\x01\0\0\0\0\0\0\0\0\0\0\x80\0\0\0\0\
\0\0\0\0\0\x10\0\x80\0\0\0\0\x01\x02\0\x02\0\0\0\0\0\0\0\0\
\x41\x03\0\0\0\x80\0\0\0\0\x42\x03\x02\0\0\0\0\0\0\0";

const SQUASH: &[u8] = b"\x12\0\x08\x0f\x07\0\0\0\0\0\0\0\xff\xff\xff\xff\xff\xff\xff\xff";

const END: &[u8] = b"\x12\0\x09\0\x02\0\0\0\0\0\0\0\0\0\0\0\0\0\0\0";

/// One frame of each kind, and of each form of its fields.
const FRAMES: &[&[u8]] = &[
    OPEN, POKE_PC, POKE_X, POKE_CSR, READ_3, INSERT_1, BYPASS_8, WRITE, RETIRE, TRAP, SQUASH, END,
];

/// A byte of a frame changed, and the fault that the frame then has.
type Break = (usize, u8, Form, u16);

const LENGTH_BREAKS: &[Break] = &[
    (0, 0x11, Form::Length, 0),
    (1, 0x02, Form::Length, 0),
    (0, 0x13, Form::Length, 0),
    (2, 0, Form::Kind, 2),
    (2, 10, Form::Kind, 2),
    (2, 2, Form::Length, 0),
    (2, 7, Form::Length, 0),
];

const OPEN_BREAKS: &[Break] = &[
    (3, 1, Form::Reserved, 3),
    (12, 1, Form::Reserved, 12),
    (19, 0x80, Form::Reserved, 19),
    (20, 0, Form::Field, 20),
    (20, 2, Form::Field, 20),
    (21, 0, Form::Field, 21),
    (21, 17, Form::Field, 21),
    (22, 4, Form::Reserved, 22),
    (22, 0x80, Form::Reserved, 22),
    (23, 1, Form::Reserved, 23),
    (24, 1, Form::Reserved, 24),
    (27, 1, Form::Reserved, 27),
];

const POKE_PC_BREAKS: &[Break] = &[
    (12, 1, Form::Reserved, 12),
    (19, 1, Form::Reserved, 19),
    (20, 3, Form::Field, 20),
    (20, 255, Form::Field, 20),
    (20, 1, Form::Field, 22),
    (21, 1, Form::Reserved, 21),
    (22, 1, Form::Reserved, 22),
    (23, 1, Form::Reserved, 23),
    (24, 1, Form::Field, 24),
    (24, 6, Form::Field, 24),
];

const POKE_X_BREAKS: &[Break] = &[
    (22, 0, Form::Field, 22),
    (22, 32, Form::Field, 22),
    (23, 1, Form::Field, 22),
];

const POKE_CSR_BREAKS: &[Break] = &[
    (22, 0x01, Form::Field, 22),
    (22, 0x44, Form::Field, 22),
    (23, 0x13, Form::Field, 22),
];

const PIECE_BREAKS: &[Break] = &[
    (28, 0, Form::Field, 28),
    (28, 2, Form::Field, 28),
    (28, 9, Form::Field, 28),
];

const WRITE_BREAKS: &[Break] = &[
    (12, 1, Form::Reserved, 12),
    (19, 1, Form::Reserved, 19),
    (20, 0x41, Form::Field, 20),
    (20, 0x60, Form::Field, 20),
    (28, 0, Form::Reserved, 36),
    (35, 0, Form::Reserved, 99),
    (37, 1, Form::Reserved, 37),
    (98, 1, Form::Reserved, 98),
];

const RETIRE_BREAKS: &[Break] = &[
    (40, 6, Form::Reserved, 40),
    (40, 0x82, Form::Reserved, 40),
    (40, 0, Form::Reserved, 42),
    (41, 1, Form::Reserved, 41),
    (42, 0, Form::Field, 42),
    (42, 32, Form::Field, 42),
    (43, 1, Form::Field, 43),
    (43, 5, Form::Field, 43),
];

const TRAP_BREAKS: &[Break] = &[
    (40, 0, Form::Reserved, 41),
    (42, 1, Form::Reserved, 42),
    (43, 1, Form::Field, 43),
    (44, 1, Form::Reserved, 44),
    (51, 1, Form::Reserved, 51),
];

const END_BREAKS: &[Break] = &[
    (3, 1, Form::Reserved, 3),
    (12, 1, Form::Reserved, 12),
    (19, 1, Form::Reserved, 19),
];

/// An Open, a Retire and an End, two lengths that no frame has, and three bytes more.
const STREAM: &[u8] = b"\
\x1a\0\x01\0\0\0\0\0\0\0\0\0\0\0\0\0\0\0\0\0\x01\x01\x00\x00\x00\x00\x00\x00\
\x32\0\x07\0\x01\0\0\0\0\0\0\0\x01\0\0\0\0\0\0\0\0\0\0\x80\0\0\0\0\
\x93\0\x50\0\x04\0\0\x80\0\0\0\0\x02\0\x01\0\x05\0\0\0\0\0\0\0\
\x12\0\x09\0\x02\0\0\0\0\0\0\0\0\0\0\0\0\0\0\0\
\x11\0\x01\x02\x12\0\x08";

/// The fault of a length that is none, or not that of the bytes.
const NO_LENGTH: FrameFault = FrameFault {
    form: Form::Length,
    offset: 0,
};

/// The fault of a frame with one byte changed, over a buffer that has room for it.
fn fault_over(frame: &[u8], at: usize, byte: u8, buf: &mut [u8]) -> Option<FrameFault> {
    let changed = buf.get_mut(..frame.len())?;
    changed.copy_from_slice(frame);
    *changed.get_mut(at)? = byte;
    decode(changed).err()
}

/// The fault of a frame with one byte changed.
fn fault_after(frame: &[u8], at: usize, byte: u8) -> Option<FrameFault> {
    let mut buf = [0; 128];
    fault_over(frame, at, byte, &mut buf)
}

/// The place of the first break with which the frame hasn't that fault.
fn first_wrong(frame: &[u8], breaks: &[Break]) -> Option<usize> {
    for (k, (at, byte, form, offset)) in breaks.iter().enumerate() {
        let want = FrameFault {
            form: *form,
            offset: *offset,
        };
        if fault_after(frame, *at, *byte) != Some(want) {
            return Some(k);
        }
    }
    None
}

/// Whether the message is well-formed, and spelled by these bytes alone.
fn is_spelled(message: &Message, frame: &[u8], out: &mut [u8; 514]) -> bool {
    if !well_formed(message) {
        return false;
    }
    let n = encode(message, out);
    usize::from(size(message)) == n && &out[..n] == frame
}

/// Whether the message that the frame spells, copied, is spelled by it again.
fn is_spelled_again(frame: &[u8]) -> bool {
    let mut out = [0xee; 514];
    match decode(frame) {
        Ok(message) => is_spelled(&message.copy(), frame, &mut out),
        Err(_broken) => false,
    }
}

#[test]
fn each_kind_is_spelled_again(rt: HostRuntime) {
    for (k, frame) in FRAMES.iter().enumerate() {
        assert!(rt; is_spelled_again(frame), "frame {k}");
    }
}

#[test]
fn names_the_first_broken_field(rt: HostRuntime) {
    assert_eq!(rt; first_wrong(OPEN, LENGTH_BREAKS), None);
    assert_eq!(rt; first_wrong(OPEN, OPEN_BREAKS), None);
    assert_eq!(rt; first_wrong(POKE_PC, POKE_PC_BREAKS), None);
    assert_eq!(rt; first_wrong(POKE_X, POKE_X_BREAKS), None);
    assert_eq!(rt; first_wrong(POKE_CSR, POKE_CSR_BREAKS), None);
    assert_eq!(rt; first_wrong(READ_3, PIECE_BREAKS), None);
    assert_eq!(rt; first_wrong(INSERT_1, PIECE_BREAKS), None);
    assert_eq!(rt; first_wrong(BYPASS_8, PIECE_BREAKS), None);
    assert_eq!(rt; first_wrong(WRITE, WRITE_BREAKS), None);
    assert_eq!(rt; first_wrong(RETIRE, RETIRE_BREAKS), None);
    assert_eq!(rt; first_wrong(TRAP, TRAP_BREAKS), None);
    assert_eq!(rt; first_wrong(END, END_BREAKS), None);
}

#[test]
fn bytes_that_are_too_few_have_no_length(rt: HostRuntime) {
    for bytes in [b"".as_slice(), b"\x1a", b"\x12\0", &END[..19]] {
        assert_eq!(rt; decode(bytes).err(), Some(NO_LENGTH));
    }
}

/// What comes next from a source, in short.
#[derive(Clone, Copy, PartialEq, Eq)]
enum Came {
    /// The frame of a message, of this size.
    Size(u16),
    Bad(FrameFault),
    Ended(u16),
    Failed,
}

/// What comes of the stream.
const COMES: &[Came] = &[
    Came::Size(28),
    Came::Size(52),
    Came::Size(20),
    Came::Bad(NO_LENGTH),
    Came::Bad(NO_LENGTH),
    Came::Ended(3),
    Came::Ended(0),
];

fn comes_next<S: Source>(src: &mut S) -> Came {
    match next_message(src) {
        Next::Msg(message) => Came::Size(size(&message)),
        Next::Bad(broken) => Came::Bad(broken),
        Next::Ended(have) => Came::Ended(have),
        Next::Failed => Came::Failed,
    }
}

/// Whether all of that comes from inputs that hold the stream.
fn comes_whole<I: Inputs>(ins: &mut I) -> bool {
    if ins.attach(Slot::Stream, "stream") != Ok(true) {
        return false;
    }
    for want in COMES {
        if comes_next(ins) != *want {
            return false;
        }
    }
    true
}

/// Whether it comes in pieces of at most so many bytes.
fn comes_by(alloc: Global, step: usize) -> Result<bool, AllocError> {
    let mut ins = MemInputs::new(alloc, step.max(1));
    ins.add("stream", STREAM)?;
    Ok(comes_whole(&mut ins))
}

/// Whether it comes where at most so many bytes are lent at a time.
fn comes_lent_by(alloc: Global, step: usize) -> Result<bool, AllocError> {
    let mut ins = SureInputs::new(alloc, step.max(1));
    ins.add("stream", STREAM)?;
    Ok(comes_whole(&mut ins))
}

#[test]
fn takes_frame_after_frame(rt: HostRuntime) -> Result<(), Fail> {
    streams_are_cut_frame_by_frame();
    for step in [1, 7, 60, 4096] {
        assert!(rt; comes_by(rt.alloc(), step)?, "in pieces of {step}");
        assert!(rt; comes_lent_by(rt.alloc(), step)?, "lent by {step}");
    }
    Ok(())
}

/// What comes next, and the tag of the message that is lent.
fn arrival<S: Source>(src: &mut S, message: &mut Message) -> (Arrived, u64) {
    let answer = next_message_into(src, &mut [0; 514], message);
    (answer, message.head.tag)
}

/// Whether that comes in this order.
fn arrive<S: Source>(src: &mut S, message: &mut Message, wants: &[(Arrived, u64)]) -> bool {
    for want in wants {
        if arrival(src, message) != *want {
            return false;
        }
    }
    true
}

/// Whether the message that is lent is the one that came last, and one of tag 1 stays where none comes.
fn keeps_the_last<I: Inputs>(ins: &mut I, message: &mut Message) -> bool {
    if ins.attach(Slot::Stream, "stream") != Ok(true) || !arrive(ins, message, ARRIVE) {
        return false;
    }
    *message = tagged(1);
    arrive(ins, message, STAY)
}

/// The messages of the stream.
const ARRIVE: &[(Arrived, u64)] = &[
    (Arrived::Message, 0),
    (Arrived::Message, 1),
    (Arrived::Message, 0),
];

/// What follows them.
const STAY: &[(Arrived, u64)] = &[
    (Arrived::Bad(NO_LENGTH), 1),
    (Arrived::Bad(NO_LENGTH), 1),
    (Arrived::Ended(3), 1),
];

#[test]
fn leaves_the_message_where_there_is_none(rt: HostRuntime) -> Result<(), Fail> {
    let mut ins = SureInputs::new(rt.alloc(), 4096);
    ins.add("stream", STREAM)?;
    assert!(rt; keeps_the_last(&mut ins, &mut blank()));
    Ok(())
}

/// A message to be overwritten.
fn blank() -> Message {
    let head = Head {
        hart: 0,
        time: 0,
        tag: 0,
    };
    Message {
        head,
        body: Body::Squash,
    }
}

/// A message with this tag.
fn tagged(tag: u64) -> Message {
    let mut message = blank();
    message.head.tag = tag;
    message
}

/// A list of so many messages, with the tags from 0 on.
fn listed(alloc: Global, count: u64) -> Result<MessageList, AllocError> {
    let mut list = MessageList::new(alloc);
    for tag in 0..count {
        list.push(tagged(tag))?;
    }
    Ok(list)
}

/// Whether the list has just so many messages, with the tags from 0 on.
fn holds(list: &MessageList, count: u64) -> bool {
    for tag in 0..count {
        match list.get(tag as usize) {
            Some(message) if message.head.tag == tag => {}
            _ => return false,
        }
    }
    list.len() as u64 == count && list.get(list.len()).is_none()
}

/// Whether so many messages come off the list, the last first, and then none.
fn gives_back(list: &mut MessageList, count: u64) -> bool {
    for taken in 0..count {
        match list.pop() {
            Some(message) if message.head.tag == count - 1 - taken => {}
            _ => return false,
        }
    }
    list.pop().is_none() && list.len() == 0
}

#[test]
fn a_list_holds_ten_thousand_messages(rt: HostRuntime) -> Result<(), Fail> {
    let mut list = listed(rt.alloc(), 10_000)?;
    assert!(rt; holds(&list, 10_000));
    assert!(rt; gives_back(&mut list, 10_000));
    Ok(())
}
