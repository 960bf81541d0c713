//! What an instruction reports, worked out with nothing changed.

ghost use Rattle.std.specs.Prelude.{◌≡◌, ◌%◌, ◌<◌, false, length, IfSome};
ghost use Rattle.rv_decode.specs.Listing.{IsInsn};
ghost use Rattle.rv_decode.specs.declared.instruction.Insn.{Insn};
ghost use Rattle.rv_step.specs.declared.effect.Outside.{Outside};
ghost use Rattle.rv_step.specs.Plans.{IsPlan, doing_seen};
ghost use Rattle.rv_step.specs.Promises.{HasCsr, IsTarget, is_call};
ghost use Rattle.rv_step.specs.Steps.{IsLoaded, executed, finished, rd_written, reports, traps};

use super::Hart;
use super::csr_use::{list_returned, list_trapped};
use crate::effect::{Effect, Outside};
use crate::integers::{alu, even, register_form, taken};
use crate::memory::{
    amo_result, amo_value, bytes_atomic, bytes_stored, load_value, lr_value, stored_bytes,
};
use crate::plan::{Plan, What};
use msg_frames::{Piece, RdValue};
use rv_decode::Insn;
use rv_decode::registers::writes_csr;

impl Hart {
    /// Works out what this hart's plan reports, as `finish` answers it; the hart stays as it is. A load,
    /// LR or AMO needs the loaded bytes, as many as its extent has.
    pub fn effect_into(&self, plan: &Plan, outside: &Outside, effect: &mut Effect)
        requires planned { IsPlan self.now plan.now }
        requires loaded { IsLoaded outside.now (doing_seen plan.now.what) }
        ensures value { effect.new ≡ (finished self.now outside.now (doing_seen plan.now.what)).effect }
        ensures next { effect.new.next % 4 ≡ 0 }
        ensures rd { IfSome effect.new.rd (λ rd. (0 < rd.number) × (rd.number < 32)) }
    {
        let _word = plan.word;
        match &plan.what {
            What::Trap { cause, value } => self.trap_into(*cause, *value, effect),
            What::Plain(insn)
            | What::Counter(insn)
            | What::Load(insn, _)
            | What::Store(insn, _)
            | What::Lr(insn, _)
            | What::Sc(insn, _)
            | What::Amo(insn, _) => self.insn_into(insn, outside, effect),
        }
    }

    /// What a trap reports.
    fn trap_into(&self, cause: u8, value: u64, effect: &mut Effect)
        ensures value { effect.new ≡ (traps self.now cause value).effect }
        ensures next { effect.new.next % 4 ≡ 0 }
    {
        let mut csrs = self.csrs;
        report(csrs.trap(cause, self.pc, value), None, effect);
        list_trapped(&csrs, &mut effect.csrs);
        effect.trap = Some(cause);
    }

    /// What an instruction reports that doesn't trap.
    fn insn_into(&self, insn: &Insn, outside: &Outside, effect: &mut Effect)
        requires fits { IsInsn insn.now }
        requires csr { HasCsr insn.now }
        requires call { is_call insn.now ≡ false }
        requires target { IsTarget self.now insn.now }
        ensures value { effect.new ≡ (executed self.now outside.now insn.now).effect }
        ensures next { effect.new.next % 4 ≡ 0 }
        ensures rd { IfSome effect.new.rd (λ rd. (0 < rd.number) × (rd.number < 32)) }
    {
        report(self.next_after(insn), self.rd_after(insn, outside), effect);
        match *insn {
            Insn::Csr {
                op,
                source,
                number,
                ..
            } if writes_csr(op, source) => {
                self.list_written(op, source, number, outside.reported, &mut effect.csrs)
            }
            Insn::Mret => {
                let mut csrs = self.csrs;
                csrs.mret();
                list_returned(&csrs, &mut effect.csrs);
            }
            Insn::Store { .. } | Insn::Sc { .. } | Insn::Amo { .. } => {
                effect.store = self.store_after(insn, outside)
            }
            _ => {}
        }
    }

    /// Where the hart goes on.
    fn next_after(&self, insn: &Insn) -> u64
        requires fits { IsInsn insn.now }
        requires call { is_call insn.now ≡ false }
        requires target { IsTarget self.now insn.now }
        ensures value { (outside : Outside) → result ≡ (executed self.now outside insn.now).effect.next }
        ensures aligned { result % 4 ≡ 0 }
    {
        match *insn {
            Insn::Jal { imm, .. } => self.pc.wrapping_add_signed(imm),
            Insn::Jalr { rs1, imm, .. } => even(self.x(rs1).wrapping_add_signed(imm)),
            Insn::Branch { op, rs1, rs2, imm } if taken(op, self.x(rs1), self.x(rs2)) => {
                self.pc.wrapping_add_signed(imm)
            }
            Insn::Mret => {
                let mut csrs = self.csrs;
                csrs.mret()
            }
            _ => self.next(),
        }
    }

    /// The register that is written.
    fn rd_after(&self, insn: &Insn, outside: &Outside) -> Option<RdValue>
        requires fits { IsInsn insn.now }
        requires call { is_call insn.now ≡ false }
        ensures value { result ≡ (executed self.now outside.now insn.now).effect.rd }
        ensures fits { IfSome result (λ rd. (0 < rd.number) × (rd.number < 32)) }
    {
        match *insn {
            Insn::Lui { rd, imm } => written(rd, imm.cast_unsigned()),
            Insn::Auipc { rd, imm } => written(rd, self.pc.wrapping_add_signed(imm)),
            Insn::Jal { rd, .. } | Insn::Jalr { rd, .. } => written(rd, self.next()),
            Insn::AluImm { op, rd, rs1, imm } => {
                written(rd, alu(register_form(op), self.x(rs1), imm.cast_unsigned()))
            }
            Insn::Alu { op, rd, rs1, rs2 } => written(rd, alu(op, self.x(rs1), self.x(rs2))),
            Insn::Load { op, rd, .. } => written(rd, load_value(op, outside.number())),
            Insn::Lr { wide, rd, .. } => written(rd, lr_value(wide, outside.number())),
            Insn::Sc { rd, .. } if outside.stored => written(rd, 0),
            Insn::Sc { rd, .. } => written(rd, outside.reported),
            Insn::Amo { wide, rd, .. } => written(rd, amo_value(wide, outside.number())),
            Insn::Csr { rd, number, .. } => {
                written(rd, self.csr_value(number, outside.reported))
            }
            _ => None,
        }
    }

    /// The bytes that are stored.
    fn store_after(&self, insn: &Insn, outside: &Outside) -> Option<Piece>
        requires fits { IsInsn insn.now }
        requires call { is_call insn.now ≡ false }
        ensures { result ≡ (executed self.now outside.now insn.now).effect.store }
    {
        match *insn {
            Insn::Store { op, rs1, rs2, imm } => Some(Piece {
                addr: self.x(rs1).wrapping_add_signed(imm),
                bytes: stored_bytes(self.x(rs2), bytes_stored(op)),
            }),
            Insn::Sc { wide, rs1, rs2, .. } if outside.stored => Some(Piece {
                addr: self.x(rs1),
                bytes: stored_bytes(self.x(rs2), bytes_atomic(wide)),
            }),
            Insn::Amo {
                op,
                wide,
                rs1,
                rs2,
                ..
            } => {
                let result = amo_result(op, wide, outside.number(), self.x(rs2));
                Some(Piece {
                    addr: self.x(rs1),
                    bytes: stored_bytes(result, bytes_atomic(wide)),
                })
            }
            _ => None,
        }
    }
}

/// The report of an instruction that goes on at an address, and writes that register.
fn report(next: u64, rd: Option<RdValue>, effect: &mut Effect)
    ensures { effect.new ≡ reports next rd }
{
    effect.next = next;
    effect.rd = rd;
    effect.csrs.clear();
    effect.store = None;
    effect.trap = None;
}

/// The report of a register: a write to x0 is none.
fn written(rd: u8, value: u64) -> Option<RdValue>
    requires { rd < 32 }
    ensures value { result ≡ rd_written rd value }
    ensures fits { IfSome result (λ rd. (0 < rd.number) × (rd.number < 32)) }
{
    if rd == 0 {
        return None;
    }
    Some(RdValue { number: rd, value })
}
