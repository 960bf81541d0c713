//! The columns of the listing, from operations and to them.

ghost use Rattle.rv_decode.specs.Decoding.{branch_at, load_at, store_at, csr_at, amo_at, reg_at, width_at};
ghost use Rattle.std.specs.Prelude.{◌≡◌, ℕ, ◌<◌, ◌^◌, Bool, IfSome};
ghost use Rattle.rv_decode.specs.Operations.{branch_funct3, load_funct3, store_funct3, csr_funct3, amo_funct5};
ghost use Rattle.rv_decode.specs.Operations.{atomic_funct3, reg_row, row};
ghost use Rattle.rv_decode.specs.declared.operations.BranchOp.{BranchOp};
ghost use Rattle.rv_decode.specs.declared.operations.LoadOp.{LoadOp};
ghost use Rattle.rv_decode.specs.declared.operations.StoreOp.{StoreOp};
ghost use Rattle.rv_decode.specs.declared.operations.CsrOp.{CsrOp};
ghost use Rattle.rv_decode.specs.declared.operations.AmoOp.{AmoOp};
ghost use Rattle.rv_decode.specs.declared.operations.RegOp.{RegOp};

use crate::operations::{AmoOp, BranchOp, CsrOp, LoadOp, RegOp, StoreOp};

/// The branch of this funct3.
pub fn branch_op(funct3: u32) -> Option<BranchOp>
    ensures { result ≡ branch_at funct3 }
{
    match funct3 {
        0b000 => Some(BranchOp::Beq),
        0b001 => Some(BranchOp::Bne),
        0b100 => Some(BranchOp::Blt),
        0b101 => Some(BranchOp::Bge),
        0b110 => Some(BranchOp::Bltu),
        0b111 => Some(BranchOp::Bgeu),
        _ => None,
    }
}

/// The load of this funct3.
pub fn load_op(funct3: u32) -> Option<LoadOp>
    ensures { result ≡ load_at funct3 }
{
    match funct3 {
        0b000 => Some(LoadOp::Lb),
        0b001 => Some(LoadOp::Lh),
        0b010 => Some(LoadOp::Lw),
        0b011 => Some(LoadOp::Ld),
        0b100 => Some(LoadOp::Lbu),
        0b101 => Some(LoadOp::Lhu),
        0b110 => Some(LoadOp::Lwu),
        _ => None,
    }
}

/// The store of this funct3.
pub fn store_op(funct3: u32) -> Option<StoreOp>
    ensures { result ≡ store_at funct3 }
{
    match funct3 {
        0b000 => Some(StoreOp::Sb),
        0b001 => Some(StoreOp::Sh),
        0b010 => Some(StoreOp::Sw),
        0b011 => Some(StoreOp::Sd),
        _ => None,
    }
}

/// The CSR instruction of this funct3.
pub fn csr_op(funct3: u32) -> Option<CsrOp>
    ensures { result ≡ csr_at funct3 }
{
    match funct3 {
        0b001 => Some(CsrOp::Rw),
        0b010 => Some(CsrOp::Rs),
        0b011 => Some(CsrOp::Rc),
        0b101 => Some(CsrOp::Rwi),
        0b110 => Some(CsrOp::Rsi),
        0b111 => Some(CsrOp::Rci),
        _ => None,
    }
}

/// The AMO of this funct5.
pub fn amo_op(funct5: u32) -> Option<AmoOp>
    ensures { result ≡ amo_at funct5 }
{
    match funct5 {
        0b00001 => Some(AmoOp::Swap),
        0b00000 => Some(AmoOp::Add),
        0b00100 => Some(AmoOp::Xor),
        0b01100 => Some(AmoOp::And),
        0b01000 => Some(AmoOp::Or),
        0b10000 => Some(AmoOp::Min),
        0b10100 => Some(AmoOp::Max),
        0b11000 => Some(AmoOp::Minu),
        0b11100 => Some(AmoOp::Maxu),
        _ => None,
    }
}

/// The operation on 64 bits.
pub fn reg_op(funct7: u32, funct3: u32) -> Option<RegOp>
    ensures { result ≡ reg_at (row funct7 funct3 0b0110011) }
{
    match (funct7, funct3) {
        (0b0000000, 0b000) => Some(RegOp::Add),
        (0b0000000, 0b001) => Some(RegOp::Sll),
        (0b0000000, 0b010) => Some(RegOp::Slt),
        (0b0000000, 0b011) => Some(RegOp::Sltu),
        (0b0000000, 0b100) => Some(RegOp::Xor),
        (0b0000000, 0b101) => Some(RegOp::Srl),
        (0b0000000, 0b110) => Some(RegOp::Or),
        (0b0000000, 0b111) => Some(RegOp::And),
        (0b0100000, 0b000) => Some(RegOp::Sub),
        (0b0100000, 0b101) => Some(RegOp::Sra),
        (0b0000001, 0b000) => Some(RegOp::Mul),
        (0b0000001, 0b001) => Some(RegOp::Mulh),
        (0b0000001, 0b010) => Some(RegOp::Mulhsu),
        (0b0000001, 0b011) => Some(RegOp::Mulhu),
        (0b0000001, 0b100) => Some(RegOp::Div),
        (0b0000001, 0b101) => Some(RegOp::Divu),
        (0b0000001, 0b110) => Some(RegOp::Rem),
        (0b0000001, 0b111) => Some(RegOp::Remu),
        _ => None,
    }
}

/// The operation on the low 32 bits.
pub fn reg_op_word(funct7: u32, funct3: u32) -> Option<RegOp>
    ensures { result ≡ reg_at (row funct7 funct3 0b0111011) }
{
    match (funct7, funct3) {
        (0b0000000, 0b000) => Some(RegOp::Addw),
        (0b0000000, 0b001) => Some(RegOp::Sllw),
        (0b0000000, 0b101) => Some(RegOp::Srlw),
        (0b0100000, 0b000) => Some(RegOp::Subw),
        (0b0100000, 0b101) => Some(RegOp::Sraw),
        (0b0000001, 0b000) => Some(RegOp::Mulw),
        (0b0000001, 0b100) => Some(RegOp::Divw),
        (0b0000001, 0b101) => Some(RegOp::Divuw),
        (0b0000001, 0b110) => Some(RegOp::Remw),
        (0b0000001, 0b111) => Some(RegOp::Remuw),
        _ => None,
    }
}

/// Whether the atomic instruction is on doublewords.
pub fn width(funct3: u32) -> Option<bool>
    ensures { result ≡ width_at funct3 }
{
    match funct3 {
        0b010 => Some(false),
        0b011 => Some(true),
        _ => None,
    }
}
