//! Instructions to words.

ghost use Rattle.std.specs.Prelude.{◌≡◌, ◌<◌, true};
ghost use Rattle.rv_decode.specs.Listing.{encoding, IsInsn};
ghost use Rattle.rv_decode.specs.Operations.{imm_word, IsOperand, reg_row};
ghost use Rattle.rv_decode.specs.Formats.{IsMultiple, r_type};
ghost use Rattle.rv_decode.specs.Kinds.{is_lr, is_sc, is_amo};
ghost use Rattle.rv_decode.specs.declared.instruction.Insn.TheVariants.{Branch};

use crate::instruction::Insn;
use crate::operations::{BranchOp, ImmOp, RegOp};
use crate::rows::{
    funct3_of_branch, funct3_of_csr, funct3_of_load, funct3_of_store, funct3_of_width,
    funct5_of_amo, row_of,
};
use crate::words::{
    a_word, b_word, csr_word, fence_word, i_word, j_word, r_word, s_word, shift_word, u_word,
};

/// The word of the instruction (chapter 24), which has to be the decoding of some word: there is one
/// word then.
pub fn encode(insn: &Insn) -> u32
    requires { IsInsn insn.now }
    ensures { result ≡ encoding insn.now }
{
    match *insn {
        Insn::Lui { rd, imm } => u_word(imm, rd, 0b0110111),
        Insn::Auipc { rd, imm } => u_word(imm, rd, 0b0010111),
        Insn::Jal { rd, imm } => j_word(imm, rd, 0b1101111),
        Insn::Jalr { rd, rs1, imm } => i_word(imm, rs1, 0b000, rd, 0b1100111),
        Insn::Branch { op, rs1, rs2, imm } => branch_word(op, imm, rs2, rs1),
        Insn::Load { op, rd, rs1, imm } => i_word(imm, rs1, funct3_of_load(op), rd, 0b0000011),
        Insn::Store { op, rs1, rs2, imm } => s_word(imm, rs2, rs1, funct3_of_store(op), 0b0100011),
        Insn::AluImm { op, rd, rs1, imm } => alu_imm_word(op, imm, rs1, rd),
        Insn::Alu { op, rd, rs1, rs2 } => alu_word(op, rs2, rs1, rd),
        Insn::Fence {
            fm,
            pred,
            succ,
            rd,
            rs1,
        } => fence_word(fm, pred, succ, rs1, rd),
        Insn::Ecall => 0x0000_0073,
        Insn::Ebreak => 0x0010_0073,
        Insn::Mret => 0x3020_0073,
        Insn::Wfi => 0x1050_0073,
        Insn::Csr {
            op,
            rd,
            source,
            number,
        } => csr_word(number, source, funct3_of_csr(op), rd),
        Insn::Lr { .. } => lr_word(insn),
        Insn::Sc { .. } => sc_word(insn),
        Insn::Amo { .. } => amo_word(insn),
    }
}

/// The word of a branch.
fn branch_word(op: BranchOp, imm: i64, rs2: u8, rs1: u8) -> u32
    requires imm { IsMultiple 13 1 imm }
    requires rs2 { rs2 < 32 }
    requires rs1 { rs1 < 32 }
    ensures { result ≡ encoding (Branch op rs1 rs2 imm) }
{
    b_word(imm, rs2, rs1, funct3_of_branch(op), 0b1100011)
}

/// The word of an LR.
fn lr_word(insn: &Insn) -> u32
    requires fits { IsInsn insn.now }
    requires kind { is_lr insn.now ≡ true }
    ensures { result ≡ encoding insn.now }
{
    match *insn {
        Insn::Lr {
            wide,
            aq,
            rl,
            rd,
            rs1,
        } => a_word(0b00010, aq, rl, 0, rs1, funct3_of_width(wide), rd),
        _ => unreachable!(),
    }
}

/// The word of an SC.
fn sc_word(insn: &Insn) -> u32
    requires fits { IsInsn insn.now }
    requires kind { is_sc insn.now ≡ true }
    ensures { result ≡ encoding insn.now }
{
    match *insn {
        Insn::Sc {
            wide,
            aq,
            rl,
            rd,
            rs1,
            rs2,
        } => a_word(0b00011, aq, rl, rs2, rs1, funct3_of_width(wide), rd),
        _ => unreachable!(),
    }
}

/// The word of an AMO.
fn amo_word(insn: &Insn) -> u32
    requires fits { IsInsn insn.now }
    requires kind { is_amo insn.now ≡ true }
    ensures { result ≡ encoding insn.now }
{
    match *insn {
        Insn::Amo {
            op,
            wide,
            aq,
            rl,
            rd,
            rs1,
            rs2,
        } => {
            let funct5 = funct5_of_amo(op);
            a_word(funct5, aq, rl, rs2, rs1, funct3_of_width(wide), rd)
        }
        _ => unreachable!(),
    }
}

/// The word of an operation on an immediate.
fn alu_imm_word(op: ImmOp, imm: i64, rs1: u8, rd: u8) -> u32
    requires imm { IsOperand op imm }
    requires rs1 { rs1 < 32 }
    requires rd { rd < 32 }
    ensures { result ≡ imm_word op imm rs1 rd }
{
    match op {
        ImmOp::Addi => i_word(imm, rs1, 0b000, rd, 0b0010011),
        ImmOp::Slti => i_word(imm, rs1, 0b010, rd, 0b0010011),
        ImmOp::Sltiu => i_word(imm, rs1, 0b011, rd, 0b0010011),
        ImmOp::Xori => i_word(imm, rs1, 0b100, rd, 0b0010011),
        ImmOp::Ori => i_word(imm, rs1, 0b110, rd, 0b0010011),
        ImmOp::Andi => i_word(imm, rs1, 0b111, rd, 0b0010011),
        ImmOp::Slli => shift_word(0b000000, imm, rs1, 0b001, rd, 0b0010011),
        ImmOp::Srli => shift_word(0b000000, imm, rs1, 0b101, rd, 0b0010011),
        ImmOp::Srai => shift_word(0b010000, imm, rs1, 0b101, rd, 0b0010011),
        ImmOp::Addiw => i_word(imm, rs1, 0b000, rd, 0b0011011),
        ImmOp::Slliw => r_word(0b0000000, imm as u8, rs1, 0b001, rd, 0b0011011),
        ImmOp::Srliw => r_word(0b0000000, imm as u8, rs1, 0b101, rd, 0b0011011),
        ImmOp::Sraiw => r_word(0b0100000, imm as u8, rs1, 0b101, rd, 0b0011011),
    }
}

/// The word of an operation on registers.
fn alu_word(op: RegOp, rs2: u8, rs1: u8, rd: u8) -> u32
    requires rs2 { rs2 < 32 }
    requires rs1 { rs1 < 32 }
    requires rd { rd < 32 }
    ensures { result ≡ r_type (reg_row op).funct7 rs2 rs1 (reg_row op).funct3 rd (reg_row op).opcode }
{
    let row = row_of(op);
    r_word(row.funct7, rs2, rs1, row.funct3, rd, row.opcode)
}
