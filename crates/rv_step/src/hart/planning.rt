//! What the instruction at a hart's pc is to do.

ghost use Rattle.std.specs.Prelude.{◌≡◌, ◌<◌, ◌^◌, true, IfSome};
ghost use Rattle.elf_image.specs.Images.{Holds, loaded_of};
ghost use Rattle.rv_decode.specs.Decoding.{decoding};
ghost use Rattle.rv_decode.specs.Listing.{IsInsn};
ghost use Rattle.rv_step.specs.Plans.{accesses, address_of, doing_of, doing_seen, doing_word, illegal, is_access};
ghost use Rattle.rv_step.specs.Plans.{jumps, plan_of};
ghost use Rattle.rv_step.specs.Plans.{plan_seen};
ghost use Rattle.rv_step.specs.Promises.{HasCsr, IsAlignedAtomic, IsOfKind, IsTarget, planned_extent, planned_insn};
ghost use Rattle.rv_step.specs.Steps.{trap};

use super::Hart;
use super::csr_use::counts_outside;
use crate::causes::{
    BREAKPOINT, ENVIRONMENT_CALL, FETCH_FAULT, ILLEGAL_INSTRUCTION, MISALIGNED_FETCH,
};
use crate::integers::{even, taken};
use crate::memory::{access, access_len, causes_of, must_align, undertaken};
use crate::plan::{Config, Plan, What};
use elf_image::Image;
use rv_decode::{Insn, decode};

impl Hart {
    /// Fetches and decodes the word at the pc, and finds the trap that it raises or the bytes that
    /// it accesses. These don't pass 2^64, and are in the image; an LR, SC or AMO is aligned, a CSR
    /// is there and may be used so, and a jump that is taken goes to a multiple of 4.
    pub fn plan(&self, image: &Image, config: &Config) -> Plan
        ensures value { plan_seen result ≡ plan_of self.now (loaded_of image.now) config.now }
        ensures fits { IfSome (planned_insn (doing_seen result.what)) IsInsn }
        ensures kind { IsOfKind (doing_seen result.what) }
        ensures held { IfSome (planned_extent result.what) (Holds (loaded_of image.now)) }
        ensures aligned { IsAlignedAtomic (doing_seen result.what) }
        ensures csr { IfSome (planned_insn (doing_seen result.what)) HasCsr }
        ensures target { IfSome (planned_insn (doing_seen result.what)) (IsTarget self.now) }
    {
        let mut plan = Plan {
            word: 0,
            what: What::Trap { cause: 0, value: 0 },
        };
        self.plan_into(image, config, &mut plan);
        plan
    }

    /// The same, written into a place.
    pub fn plan_into(&self, image: &Image, config: &Config, plan: &mut Plan)
        ensures value { plan_seen plan.new ≡ plan_of self.now (loaded_of image.now) config.now }
        ensures fits { IfSome (planned_insn (doing_seen plan.new.what)) IsInsn }
        ensures kind { IsOfKind (doing_seen plan.new.what) }
        ensures held { IfSome (planned_extent plan.new.what) (Holds (loaded_of image.now)) }
        ensures aligned { IsAlignedAtomic (doing_seen plan.new.what) }
        ensures csr { IfSome (planned_insn (doing_seen plan.new.what)) HasCsr }
        ensures target { IfSome (planned_insn (doing_seen plan.new.what)) (IsTarget self.now) }
    {
        self.fetch_into(image, config, plan);
    }

    /// The same, without what follows.
    fn fetch_into(&self, image: &Image, config: &Config, plan: &mut Plan)
        ensures value { plan_seen plan.new ≡ plan_of self.now (loaded_of image.now) config.now }
        ensures fits { plan.new.word < 2 ^ 32 }
    {
        match image.word(self.pc) {
            Some(word) => {
                plan.word = word;
                self.word_into(image, config, word, &mut plan.what);
            }
            None => {
                plan.word = 0;
                plan.what = What::Trap {
                    cause: FETCH_FAULT,
                    value: self.pc,
                };
            }
        }
    }

    /// What a word is to do.
    fn word_into(&self, image: &Image, config: &Config, word: u32, what: &mut What)
        ensures { doing_seen what.new
            ≡ doing_word self.now (loaded_of image.now) config.now word (decoding word) }
    {
        match &decode(word) {
            Some(insn) => self.insn_plan(image, config, word, insn, what),
            None => *what = illegal_word(config, word),
        }
    }

    /// What an instruction is to do.
    fn insn_plan(&self, image: &Image, config: &Config, word: u32, insn: &Insn, what: &mut What)
        requires { IsInsn insn.now }
        ensures { doing_seen what.new ≡ doing_of self.now (loaded_of image.now) config.now word insn.now }
    {
        match *insn {
            Insn::Jal { imm, .. } => *what = jump(insn, self.pc.wrapping_add_signed(imm)),
            Insn::Jalr { rs1, imm, .. } => {
                *what = jump(insn, even(self.x(rs1).wrapping_add_signed(imm)))
            }
            Insn::Branch { op, rs1, rs2, imm } if taken(op, self.x(rs1), self.x(rs2)) => {
                *what = jump(insn, self.pc.wrapping_add_signed(imm))
            }
            Insn::Ecall => *what = raised(ENVIRONMENT_CALL),
            Insn::Ebreak => *what = raised(BREAKPOINT),
            Insn::Csr {
                op,
                source,
                number,
                ..
            } if !self.may_use(op, source, number) => *what = illegal_word(config, word),
            Insn::Csr { number, .. } if counts_outside(number) => *what = What::Counter(*insn),
            Insn::Load { .. }
            | Insn::Store { .. }
            | Insn::Lr { .. }
            | Insn::Sc { .. }
            | Insn::Amo { .. } => *what = self.what_accessed(image, config, *insn),
            _ => *what = What::Plain(*insn),
        }
    }

    /// What an instruction that accesses memory is to do.
    fn what_accessed(&self, image: &Image, config: &Config, insn: Insn) -> What
        requires fits { IsInsn insn }
        requires access { is_access insn ≡ true }
        ensures { doing_seen result ≡ accesses self.now (loaded_of image.now) config.now insn }
    {
        let addr = self.address_of(&insn);
        let aligned = must_align(config, &insn);
        match access(image, aligned, causes_of(&insn), addr, access_len(&insn)) {
            Ok(extent) => undertaken(insn, extent),
            Err(cause) => What::Trap { cause, value: addr },
        }
    }

    /// The address that an instruction accesses.
    fn address_of(&self, insn: &Insn) -> u64
        requires fits { IsInsn insn.now }
        requires access { is_access insn.now ≡ true }
        ensures { result ≡ address_of self.now insn.now }
    {
        match *insn {
            Insn::Load { rs1, imm, .. } => self.x(rs1).wrapping_add_signed(imm),
            Insn::Store { rs1, imm, .. } => self.x(rs1).wrapping_add_signed(imm),
            Insn::Lr { rs1, .. } | Insn::Sc { rs1, .. } | Insn::Amo { rs1, .. } => self.x(rs1),
            _ => unreachable!(),
        }
    }
}

/// A trap that leaves 0 in mtval.
fn raised(cause: u8) -> What
    ensures { doing_seen result ≡ trap cause 0 }
{
    What::Trap { cause, value: 0 }
}

/// The trap of a word that is no legal instruction.
fn illegal_word(config: &Config, word: u32) -> What
    ensures { doing_seen result ≡ illegal config.now word }
{
    What::Trap {
        cause: ILLEGAL_INSTRUCTION,
        value: if config.mtval_word {
            u64::from(word)
        } else {
            0
        },
    }
}

/// A jump that is taken.
fn jump(insn: &Insn, target: u64) -> What
    ensures { doing_seen result ≡ jumps insn.now target }
{
    if target % 4 == 0 {
        What::Plain(*insn)
    } else {
        What::Trap {
            cause: MISALIGNED_FETCH,
            value: target,
        }
    }
}
