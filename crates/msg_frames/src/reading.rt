//! How a message is read from a frame, into a place that is lent.

ghost use Rattle.std.specs.Prelude.{◌≡◌, ◌+◌, ◌*◌, ◌≤◌, length, true, take, drop};
ghost use Rattle.std.specs.Prelude.{None, Ok, Err, OnOk, OnErr, IfOk, IfErr};
ghost use Rattle.tandem_base.specs.Fields.{u16_at, u8_at};
ghost use Rattle.msg_frames.specs.Kinds.{has_length};
ghost use Rattle.msg_frames.specs.Reading.{head_in, open_in, target_in, poke_in, piece_in, write_in, csrs_in};
ghost use Rattle.msg_frames.specs.Reading.{trap_in, rd_in, retire_in, body_in, message_in, field_fault};
ghost use Rattle.msg_frames.specs.Reading.{is_length, has_stated_length, reading};

use super::checks::{check_fields, fault, has_rd, has_trap};
use super::csrs::{CsrList, CsrValue};
use super::kinds::{Kind, kind_coded};
use super::message::{
    Body, Form, FrameFault, Head, LineWrite, Message, OpenInfo, Piece, Poke, RdValue, Retire,
    Target,
};
use tandem_base::{Bytes8, u16_at, u32_at, u64_at};

fn head_in(frame: &[u8]) -> Head
    requires { 20 ≤ length frame.now }
    ensures { result ≡ head_in frame.now }
{
    Head {
        hart: frame[3],
        time: u64_at(4, frame),
        tag: u64_at(12, frame),
    }
}

fn open_in(frame: &[u8]) -> OpenInfo
    requires { 28 ≤ length frame.now }
    ensures { result ≡ open_in frame.now }
{
    OpenInfo {
        version: frame[20],
        harts: frame[21],
        flags: frame[22],
        granule: frame[23],
        skew: u32_at(24, frame),
    }
}

fn poke_in(frame: &[u8]) -> Poke
    requires { 32 ≤ length frame.now }
    ensures { result ≡ poke_in frame.now }
{
    let target = match frame[20] {
        0 => Target::Pc,
        1 => Target::X(frame[22]),
        _ => Target::Csr(u16_at(22, frame)),
    };
    Poke {
        target,
        value: u64_at(24, frame),
    }
}

fn piece_in(frame: &[u8]) -> Piece
    requires low { 30 ≤ length frame.now }
    requires high { length frame.now ≤ 37 }
    ensures { result ≡ piece_in frame.now }
{
    let (_, bytes) = frame.split_at(29);
    let Some(bytes) = Bytes8::new(bytes) else {
        unreachable!()
    };
    Piece {
        addr: u64_at(20, frame),
        bytes,
    }
}

fn write_in(frame: &[u8]) -> LineWrite
    requires { 100 ≤ length frame.now }
    ensures { result ≡ write_in frame.now }
{
    let mut bytes = [0; 64];
    bytes.copy_from_slice(&frame[36..100]);
    LineWrite {
        line: u64_at(20, frame),
        mask: u64_at(28, frame),
        bytes,
    }
}

/// Puts so many CSRs of ten bytes each into a list in place of what it held.
fn csrs_into(count: u8, bytes: &[u8], list: &mut CsrList)
    requires few { count ≤ 4 }
    requires whole { 10 * count ≤ length bytes.now }
    ensures { list.new ≡ csrs_in count bytes.now }
{
    list.clear();
    let mut rest = bytes;
    for _ in 0..count {
        list.push(CsrValue {
            number: u16_at(0, rest),
            value: u64_at(2, rest),
        });
        rest = rest.split_at(10).1;
    }
}

/// The cause of the trap that a Retire says it had.
fn trap_in(frame: &[u8]) -> Option<u8>
    requires { 52 ≤ length frame.now }
    ensures { result ≡ trap_in frame.now }
{
    if has_trap(frame) {
        Some(frame[41])
    } else {
        None
    }
}

/// The register that a Retire says it wrote.
fn rd_in(frame: &[u8]) -> Option<RdValue>
    requires { 52 ≤ length frame.now }
    ensures { result ≡ rd_in frame.now }
{
    if has_rd(frame) {
        Some(RdValue {
            number: frame[42],
            value: u64_at(44, frame),
        })
    } else {
        None
    }
}

/// Overwrites a Retire by that of a frame.
fn retire_into(frame: &[u8], retire: &mut Retire)
    requires few { u8_at 43 frame.now ≤ 4 }
    requires whole { 52 + 10 * u8_at 43 frame.now ≤ length frame.now }
    ensures { retire.new ≡ retire_in frame.now }
{
    retire.pc = u64_at(20, frame);
    retire.word = u32_at(28, frame);
    retire.next = u64_at(32, frame);
    retire.trap = trap_in(frame);
    retire.rd = rd_in(frame);
    csrs_into(frame[43], frame.split_at(52).1, &mut retire.csrs);
}

/// Makes a body the Retire of a frame. One that is a Retire already is overwritten where it lies.
fn retire_body(frame: &[u8], body: &mut Body)
    requires few { u8_at 43 frame.now ≤ 4 }
    requires whole { 52 + 10 * u8_at 43 frame.now ≤ length frame.now }
    ensures { body.new ≡ Body.Retire (retire_in frame.now) }
{
    if let Body::Retire(retire) = body {
        retire_into(frame, retire);
        return;
    }
    let mut retire = Retire::blank();
    retire_into(frame, &mut retire);
    *body = Body::Retire(retire);
}

/// Makes a body that of a frame whose fields keep their rules.
fn body_into(kind: Kind, frame: &[u8], body: &mut Body)
    requires whole { length frame.now ≡ u16_at 0 frame.now + 2 }
    requires kind { has_length kind (u16_at 0 frame.now) ≡ true }
    requires checked { field_fault kind frame.now ≡ None }
    ensures { body.new ≡ body_in kind frame.now }
{
    match kind {
        Kind::Open => *body = Body::Open(open_in(frame)),
        Kind::Poke => *body = Body::Poke(poke_in(frame)),
        Kind::Read => *body = Body::Read(piece_in(frame)),
        Kind::Insert => *body = Body::Insert(piece_in(frame)),
        Kind::Write => *body = Body::Write(write_in(frame)),
        Kind::Bypass => *body = Body::Bypass(piece_in(frame)),
        Kind::Retire => retire_body(frame, body),
        Kind::Squash => *body = Body::Squash,
        Kind::End => *body = Body::End,
    }
}

/// Whether some frame has this length.
pub fn is_length(length: u16) -> bool
    ensures { result ≡ is_length length }
{
    18 <= length && length <= 512
}

/// Whether there are as many bytes as the length says, and some frame has the length.
fn has_stated_length(frame: &[u8]) -> bool
    ensures { result ≡ has_stated_length frame.now }
{
    if frame.len() < 2 {
        return false;
    }
    let length = u16_at(0, frame);
    is_length(length) && frame.len() == usize::from(length) + 2
}

/// The kind of a frame that spells a message, and else the first fault of the frame.
#[tactic(auto, unfolding(crate::specs::Reading::reading, crate::specs::Reading::reading_of))]
fn kind_in(frame: &[u8]) -> Result<Kind, FrameFault>
    ensures read { IfOk result (λ kind. reading frame.now ≡ Ok (message_in kind frame.now)) }
    ensures whole { OnOk result (length frame.now ≡ u16_at 0 frame.now + 2) }
    ensures low { OnOk result (20 ≤ length frame.now) }
    ensures kind { IfOk result (λ kind. has_length kind (u16_at 0 frame.now) ≡ true) }
    ensures checked { IfOk result (λ kind. field_fault kind frame.now ≡ None) }
    ensures fault { IfErr result (λ fault. reading frame.now ≡ Err fault) }
{
    if !has_stated_length(frame) {
        return Err(fault(Form::Length, 0));
    }
    let Some(kind) = kind_coded(frame[2]) else {
        return Err(fault(Form::Kind, 2));
    };
    if !kind.has_length(u16_at(0, frame)) {
        return Err(fault(Form::Length, 0));
    }
    check_fields(kind, frame)?;
    Ok(kind)
}

/// Makes a message the one that the bytes spell. Where they break the form of a frame it stays.
pub fn read_into(frame: &[u8], message: &mut Message) -> Result<(), FrameFault>
    ensures read { OnOk result (reading frame.now ≡ Ok message.new) }
    ensures fault { IfErr result (λ fault. reading frame.now ≡ Err fault) }
    ensures kept { OnErr result (message.new ≡ message.old) }
{
    let kind = kind_in(frame)?;
    message.head = head_in(frame);
    body_into(kind, frame, &mut message.body);
    Ok(())
}
