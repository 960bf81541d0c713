//! The first fault of the fields of a frame, in the order of their offsets.

ghost use Rattle.std.specs.Prelude.{◌≡◌, ◌+◌, ◌<◌, ◌≤◌, length, take, drop, true};
ghost use Rattle.msg_frames.specs.Reading.{fault, rule, zeros, reserved_fault, is_stray_byte};
ghost use Rattle.msg_frames.specs.Reading.{unmasked_zeros, open_fault};
ghost use Rattle.msg_frames.specs.Reading.{poke_fault, target_fault, piece_fault, write_fault, has_trap, has_rd};
ghost use Rattle.msg_frames.specs.Reading.{cause_fault, rd_fault, value_fault, retire_fault, end_fault};
ghost use Rattle.msg_frames.specs.Reading.{field_fault};
ghost use Rattle.msg_frames.specs.Frames.{is_poked_csr};
ghost use Rattle.msg_frames.specs.Kinds.{has_length};
ghost use Rattle.tandem_base.specs.FirstFault.{passed};
ghost use Rattle.tandem_base.specs.Fields.{u16_at};

use super::kinds::Kind;
use super::message::{Form, FrameFault};
use tandem_base::csrs::{MCAUSE, MEPC, MIE, MSCRATCH, MSTATUS, MTVAL, MTVEC};
use tandem_base::{u16_at, u64_at};

/// The fault of this form at this offset.
pub(crate) fn fault(form: Form, offset: u16) -> FrameFault
    ensures { result ≡ fault form offset }
{
    FrameFault { form, offset }
}

/// A rule of the field at an offset.
fn rule(form: Form, at: u16, holds: bool) -> Result<(), FrameFault>
    ensures { result ≡ passed (rule form at holds) }
{
    if holds { Ok(()) } else { Err(fault(form, at)) }
}

/// These bytes, the first at offset `at`, have to be 0.
fn zeros(at: u16, bytes: &[u8]) -> Result<(), FrameFault>
    requires { at + length bytes.now ≤ 514 }
    ensures { result ≡ passed (zeros at bytes.now) }
{
    for (k, byte) in bytes.iter().enumerate() {
        if *byte != 0 {
            return Err(fault(Form::Reserved, at + k as u16));
        }
    }
    Ok(())
}

/// The `count` bytes from offset `at` on have to be 0.
fn reserved_fault(at: u16, count: u16, frame: &[u8]) -> Result<(), FrameFault>
    requires inside { at + count ≤ length frame.now }
    requires sized { length frame.now ≤ 514 }
    ensures { result ≡ passed (reserved_fault at count frame.now) }
{
    zeros(at, &frame[usize::from(at)..usize::from(at + count)])
}

/// Whether byte `k` of a line is outside the mask, and not 0.
fn is_stray_byte(mask: u64, k: u8, byte: u8) -> bool
    requires { k < 64 }
    ensures { result ≡ is_stray_byte mask k byte }
{
    (mask >> k) % 2 == 0 && byte != 0
}

/// The bytes of a line, the first at offset 36, have to be 0 outside the mask.
pub fn unmasked_zeros(mask: u64, bytes: &[u8]) -> Result<(), FrameFault>
    requires { length bytes.now ≤ 64 }
    ensures { result ≡ passed (unmasked_zeros mask 0 bytes.now) }
{
    for (k, byte) in bytes.iter().enumerate() {
        if is_stray_byte(mask, k as u8, *byte) {
            return Err(fault(Form::Reserved, 36 + k as u16));
        }
    }
    Ok(())
}

/// The fields of an Open.
fn check_open(frame: &[u8]) -> Result<(), FrameFault>
    requires { length frame.now ≡ 28 }
    ensures { result ≡ passed (open_fault frame.now) }
{
    reserved_fault(3, 1, frame)?;
    reserved_fault(12, 8, frame)?;
    rule(Form::Field, 20, frame[20] == 1)?;
    rule(Form::Field, 21, 1 <= frame[21] && frame[21] <= 16)?;
    rule(Form::Reserved, 22, frame[22] < 4)?;
    reserved_fault(23, 1, frame)?;
    reserved_fault(24, 4, frame)
}

/// Whether a Poke may set the CSR of this number.
pub fn is_poked_csr(number: u16) -> bool
    ensures { result ≡ is_poked_csr number }
{
    matches!(
        number,
        MSTATUS | MIE | MTVEC | MSCRATCH | MEPC | MCAUSE | MTVAL
    )
}

/// The number and the value that go with a target.
fn check_target(target: u8, frame: &[u8]) -> Result<(), FrameFault>
    requires { length frame.now ≡ 32 }
    ensures { result ≡ passed (target_fault target frame.now) }
{
    match target {
        0 => {
            reserved_fault(22, 2, frame)?;
            rule(Form::Field, 24, u64_at(24, frame) % 4 == 0)
        }
        1 => {
            let number = u16_at(22, frame);
            rule(Form::Field, 22, 1 <= number && number <= 31)
        }
        _ => rule(Form::Field, 22, is_poked_csr(u16_at(22, frame))),
    }
}

/// The fields of a Poke.
fn check_poke(frame: &[u8]) -> Result<(), FrameFault>
    requires { length frame.now ≡ 32 }
    ensures { result ≡ passed (poke_fault frame.now) }
{
    reserved_fault(12, 8, frame)?;
    rule(Form::Field, 20, frame[20] <= 2)?;
    reserved_fault(21, 1, frame)?;
    check_target(frame[20], frame)
}

/// How many bytes of memory there are.
fn check_piece(frame: &[u8]) -> Result<(), FrameFault>
    requires { 30 ≤ length frame.now }
    ensures { result ≡ passed (piece_fault frame.now) }
{
    rule(
        Form::Field,
        28,
        27 + u16::from(frame[28]) == u16_at(0, frame),
    )
}

/// The fields of a Write.
fn check_write(frame: &[u8]) -> Result<(), FrameFault>
    requires { length frame.now ≡ 100 }
    ensures { result ≡ passed (write_fault frame.now) }
{
    reserved_fault(12, 8, frame)?;
    rule(Form::Field, 20, u64_at(20, frame) % 64 == 0)?;
    unmasked_zeros(u64_at(28, frame), &frame[36..100])
}

/// Whether a Retire says that it trapped.
pub fn has_trap(frame: &[u8]) -> bool
    requires { 52 ≤ length frame.now }
    ensures { result ≡ has_trap frame.now }
{
    frame[40] % 2 == 1
}

/// Whether a Retire says that it wrote a register.
pub fn has_rd(frame: &[u8]) -> bool
    requires { 52 ≤ length frame.now }
    ensures { result ≡ has_rd frame.now }
{
    frame[40] / 2 % 2 == 1
}

/// The cause of a trap.
#[tactic(auto, unfolding(crate::specs::Reading::cause_fault))]
fn check_cause(frame: &[u8]) -> Result<(), FrameFault>
    requires low { 52 ≤ length frame.now }
    requires high { length frame.now ≤ 514 }
    ensures { result ≡ passed (cause_fault frame.now) }
{
    if has_trap(frame) {
        Ok(())
    } else {
        reserved_fault(41, 1, frame)
    }
}

/// The number of the register.
#[tactic(auto, unfolding(crate::specs::Reading::rd_fault))]
fn check_rd(frame: &[u8]) -> Result<(), FrameFault>
    requires low { 52 ≤ length frame.now }
    requires high { length frame.now ≤ 514 }
    ensures { result ≡ passed (rd_fault frame.now) }
{
    if has_rd(frame) {
        rule(Form::Field, 42, 1 <= frame[42] && frame[42] <= 31)
    } else {
        reserved_fault(42, 1, frame)
    }
}

/// The value of the register.
#[tactic(auto, unfolding(crate::specs::Reading::value_fault))]
fn check_value(frame: &[u8]) -> Result<(), FrameFault>
    requires low { 52 ≤ length frame.now }
    requires high { length frame.now ≤ 514 }
    ensures { result ≡ passed (value_fault frame.now) }
{
    if has_rd(frame) {
        Ok(())
    } else {
        reserved_fault(44, 8, frame)
    }
}

/// The fields of a Retire.
fn check_retire(frame: &[u8]) -> Result<(), FrameFault>
    requires low { 52 ≤ length frame.now }
    requires high { length frame.now ≤ 514 }
    ensures { result ≡ passed (retire_fault frame.now) }
{
    rule(Form::Reserved, 40, frame[40] < 4)?;
    check_cause(frame)?;
    check_rd(frame)?;
    rule(
        Form::Field,
        43,
        50 + 10 * u16::from(frame[43]) == u16_at(0, frame),
    )?;
    check_value(frame)
}

/// The hart and the tag of an End.
fn check_end(frame: &[u8]) -> Result<(), FrameFault>
    requires { length frame.now ≡ 20 }
    ensures { result ≡ passed (end_fault frame.now) }
{
    reserved_fault(3, 1, frame)?;
    reserved_fault(12, 8, frame)
}

/// The first fault of the fields.
pub fn check_fields(kind: Kind, frame: &[u8]) -> Result<(), FrameFault>
    requires whole { length frame.now ≡ u16_at 0 frame.now + 2 }
    requires kind { has_length kind (u16_at 0 frame.now) ≡ true }
    ensures { result ≡ passed (field_fault kind frame.now) }
{
    match kind {
        Kind::Open => check_open(frame),
        Kind::Poke => check_poke(frame),
        Kind::Read | Kind::Insert | Kind::Bypass => check_piece(frame),
        Kind::Write => check_write(frame),
        Kind::Retire => check_retire(frame),
        Kind::Squash => Ok(()),
        Kind::End => check_end(frame),
    }
}
