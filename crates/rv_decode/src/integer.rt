//! Words of one opcode, on registers and immediates.

ghost use Rattle.rv_decode.specs.Decoding.{rd_field, u_imm, j_imm, as_jalr, as_branch, as_load, as_store, as_alu_imm};
ghost use Rattle.rv_decode.specs.Decoding.{as_alu_imm_word, as_alu};
ghost use Rattle.std.specs.Prelude.{◌≡◌};
ghost use Rattle.rv_decode.specs.Formats.{part};
ghost use Rattle.rv_decode.specs.Listing.{Encodes};
ghost use Rattle.rv_decode.specs.declared.operations.BranchOp.{BranchOp};
ghost use Rattle.rv_decode.specs.declared.operations.LoadOp.{LoadOp};
ghost use Rattle.rv_decode.specs.declared.operations.StoreOp.{StoreOp};
ghost use Rattle.rv_decode.specs.declared.operations.RegOp.{RegOp};
ghost use Rattle.rv_decode.specs.declared.operations.ImmOp.{ImmOp};
ghost use Rattle.rv_decode.specs.declared.instruction.Insn.TheVariants.{Lui, Auipc, Jal, Jalr, Branch, Load, Store};
ghost use Rattle.rv_decode.specs.declared.instruction.Insn.TheVariants.{AluImm, Alu};

use crate::columns::{branch_op, load_op, reg_op, reg_op_word, store_op};
use crate::fields::{amount, funct3, funct6, funct7, rd, rs1, rs2};
use crate::immediates::{b_immediate, i_immediate, j_immediate, s_immediate, u_immediate};
use crate::instruction::Insn;
use crate::operations::ImmOp;

/// LUI (section 2.4).
pub fn lui(word: u32) -> Insn
    ensures { result ≡ Lui (rd_field word) (u_imm word) }
{
    Insn::Lui {
        rd: rd(word),
        imm: u_immediate(word),
    }
}

/// AUIPC (section 2.4).
pub fn auipc(word: u32) -> Insn
    ensures { result ≡ Auipc (rd_field word) (u_imm word) }
{
    Insn::Auipc {
        rd: rd(word),
        imm: u_immediate(word),
    }
}

/// JAL (section 2.5).
pub fn jal(word: u32) -> Insn
    ensures { result ≡ Jal (rd_field word) (j_imm word) }
{
    Insn::Jal {
        rd: rd(word),
        imm: j_immediate(word),
    }
}

/// JALR (section 2.5).
pub fn jalr(word: u32) -> Option<Insn>
    ensures { result ≡ as_jalr word }
{
    match funct3(word) {
        0b000 => Some(Insn::Jalr {
            rd: rd(word),
            rs1: rs1(word),
            imm: i_immediate(word),
        }),
        _ => None,
    }
}

/// A branch (section 2.5).
pub fn branch(word: u32) -> Option<Insn>
    ensures { result ≡ as_branch word }
{
    let op = branch_op(funct3(word))?;
    Some(Insn::Branch {
        op,
        rs1: rs1(word),
        rs2: rs2(word),
        imm: b_immediate(word),
    })
}

/// A load (section 2.6).
pub fn load(word: u32) -> Option<Insn>
    ensures { result ≡ as_load word }
{
    let op = load_op(funct3(word))?;
    Some(Insn::Load {
        op,
        rd: rd(word),
        rs1: rs1(word),
        imm: i_immediate(word),
    })
}

/// A store (section 2.6).
pub fn store(word: u32) -> Option<Insn>
    ensures { result ≡ as_store word }
{
    let op = store_op(funct3(word))?;
    Some(Insn::Store {
        op,
        rs1: rs1(word),
        rs2: rs2(word),
        imm: s_immediate(word),
    })
}

/// The operation on rs1 and the immediate, to rd.
fn alu_imm_of(op: ImmOp, word: u32, imm: i64) -> Insn
    ensures { result ≡ AluImm op (part word 11 7) (part word 19 15) imm }
{
    Insn::AluImm {
        op,
        rd: rd(word),
        rs1: rs1(word),
        imm,
    }
}

/// An operation on 64 bits and an immediate.
pub fn alu_imm(word: u32) -> Option<Insn>
    ensures { result ≡ as_alu_imm word }
{
    let (imm, shift) = (i_immediate(word), amount(word));
    match (funct6(word), funct3(word)) {
        (_, 0b000) => Some(alu_imm_of(ImmOp::Addi, word, imm)),
        (_, 0b010) => Some(alu_imm_of(ImmOp::Slti, word, imm)),
        (_, 0b011) => Some(alu_imm_of(ImmOp::Sltiu, word, imm)),
        (_, 0b100) => Some(alu_imm_of(ImmOp::Xori, word, imm)),
        (_, 0b110) => Some(alu_imm_of(ImmOp::Ori, word, imm)),
        (_, 0b111) => Some(alu_imm_of(ImmOp::Andi, word, imm)),
        (0b000000, 0b001) => Some(alu_imm_of(ImmOp::Slli, word, shift)),
        (0b000000, 0b101) => Some(alu_imm_of(ImmOp::Srli, word, shift)),
        (0b010000, 0b101) => Some(alu_imm_of(ImmOp::Srai, word, shift)),
        _ => None,
    }
}

/// An operation on the low 32 bits and an immediate.
pub fn alu_imm_word(word: u32) -> Option<Insn>
    ensures { result ≡ as_alu_imm_word word }
{
    let shift = i64::from(rs2(word));
    match (funct7(word), funct3(word)) {
        (_, 0b000) => Some(alu_imm_of(ImmOp::Addiw, word, i_immediate(word))),
        (0b0000000, 0b001) => Some(alu_imm_of(ImmOp::Slliw, word, shift)),
        (0b0000000, 0b101) => Some(alu_imm_of(ImmOp::Srliw, word, shift)),
        (0b0100000, 0b101) => Some(alu_imm_of(ImmOp::Sraiw, word, shift)),
        _ => None,
    }
}

/// An operation on 64 bits.
pub fn alu(word: u32) -> Option<Insn>
    ensures { result ≡ as_alu 0b0110011 word }
{
    let op = reg_op(funct7(word), funct3(word))?;
    Some(Insn::Alu {
        op,
        rd: rd(word),
        rs1: rs1(word),
        rs2: rs2(word),
    })
}

/// An operation on the low 32 bits.
pub fn alu_word(word: u32) -> Option<Insn>
    ensures { result ≡ as_alu 0b0111011 word }
{
    let op = reg_op_word(funct7(word), funct3(word))?;
    Some(Insn::Alu {
        op,
        rd: rd(word),
        rs1: rs1(word),
        rs2: rs2(word),
    })
}
