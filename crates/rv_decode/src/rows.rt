//! The columns of the listing, of each operation.

ghost use Rattle.std.specs.Prelude.{◌≡◌, ◌<◌, ◌^◌};
ghost use Rattle.rv_decode.specs.Operations.{branch_funct3, load_funct3, store_funct3, csr_funct3, amo_funct5};
ghost use Rattle.rv_decode.specs.Operations.{atomic_funct3, reg_row};

use crate::operations::{AmoOp, BranchOp, CsrOp, LoadOp, RegOp, StoreOp};

/// funct3 of a branch.
pub fn funct3_of_branch(op: BranchOp) -> u32
    ensures is { result ≡ branch_funct3 op }
    ensures fits { result < 2 ^ 3 }
{
    match op {
        BranchOp::Beq => 0b000,
        BranchOp::Bne => 0b001,
        BranchOp::Blt => 0b100,
        BranchOp::Bge => 0b101,
        BranchOp::Bltu => 0b110,
        BranchOp::Bgeu => 0b111,
    }
}

/// funct3 of a load.
pub fn funct3_of_load(op: LoadOp) -> u32
    ensures is { result ≡ load_funct3 op }
    ensures fits { result < 2 ^ 3 }
{
    match op {
        LoadOp::Lb => 0b000,
        LoadOp::Lh => 0b001,
        LoadOp::Lw => 0b010,
        LoadOp::Ld => 0b011,
        LoadOp::Lbu => 0b100,
        LoadOp::Lhu => 0b101,
        LoadOp::Lwu => 0b110,
    }
}

/// funct3 of a store.
pub fn funct3_of_store(op: StoreOp) -> u32
    ensures is { result ≡ store_funct3 op }
    ensures fits { result < 2 ^ 3 }
{
    match op {
        StoreOp::Sb => 0b000,
        StoreOp::Sh => 0b001,
        StoreOp::Sw => 0b010,
        StoreOp::Sd => 0b011,
    }
}

/// funct3 of a CSR instruction.
pub fn funct3_of_csr(op: CsrOp) -> u32
    ensures is { result ≡ csr_funct3 op }
    ensures fits { result < 2 ^ 3 }
{
    match op {
        CsrOp::Rw => 0b001,
        CsrOp::Rs => 0b010,
        CsrOp::Rc => 0b011,
        CsrOp::Rwi => 0b101,
        CsrOp::Rsi => 0b110,
        CsrOp::Rci => 0b111,
    }
}

/// funct5 of an AMO.
pub fn funct5_of_amo(op: AmoOp) -> u32
    ensures is { result ≡ amo_funct5 op }
    ensures fits { result < 2 ^ 5 }
{
    match op {
        AmoOp::Swap => 0b00001,
        AmoOp::Add => 0b00000,
        AmoOp::Xor => 0b00100,
        AmoOp::And => 0b01100,
        AmoOp::Or => 0b01000,
        AmoOp::Min => 0b10000,
        AmoOp::Max => 0b10100,
        AmoOp::Minu => 0b11000,
        AmoOp::Maxu => 0b11100,
    }
}

/// funct3 of an atomic instruction, on doublewords or on words.
pub fn funct3_of_width(wide: bool) -> u32
    ensures is { result ≡ atomic_funct3 wide }
    ensures fits { result < 2 ^ 3 }
{
    if wide { 0b011 } else { 0b010 }
}

/// The three columns of an operation on registers: funct7, funct3 and the opcode.
#[derive(Clone, Copy)]
pub struct Row {
    pub funct7: u32,
    pub funct3: u32,
    pub opcode: u32,
}

impl Row {
    fn new(funct7: u32, funct3: u32, opcode: u32) -> Row
        ensures { result ≡ record { funct7 = funct7; funct3 = funct3; opcode = opcode } }
    {
        Row {
            funct7,
            funct3,
            opcode,
        }
    }
}

/// The columns of an operation on registers.
pub fn row_of(op: RegOp) -> Row
    ensures is { result ≡ reg_row op }
    ensures funct7 { result.funct7 < 2 ^ 7 }
    ensures funct3 { result.funct3 < 2 ^ 3 }
    ensures opcode { result.opcode < 2 ^ 7 }
{
    match op {
        RegOp::Add => Row::new(0b0000000, 0b000, 0b0110011),
        RegOp::Sub => Row::new(0b0100000, 0b000, 0b0110011),
        RegOp::Sll => Row::new(0b0000000, 0b001, 0b0110011),
        RegOp::Slt => Row::new(0b0000000, 0b010, 0b0110011),
        RegOp::Sltu => Row::new(0b0000000, 0b011, 0b0110011),
        RegOp::Xor => Row::new(0b0000000, 0b100, 0b0110011),
        RegOp::Srl => Row::new(0b0000000, 0b101, 0b0110011),
        RegOp::Sra => Row::new(0b0100000, 0b101, 0b0110011),
        RegOp::Or => Row::new(0b0000000, 0b110, 0b0110011),
        RegOp::And => Row::new(0b0000000, 0b111, 0b0110011),
        RegOp::Mul => Row::new(0b0000001, 0b000, 0b0110011),
        RegOp::Mulh => Row::new(0b0000001, 0b001, 0b0110011),
        RegOp::Mulhsu => Row::new(0b0000001, 0b010, 0b0110011),
        RegOp::Mulhu => Row::new(0b0000001, 0b011, 0b0110011),
        RegOp::Div => Row::new(0b0000001, 0b100, 0b0110011),
        RegOp::Divu => Row::new(0b0000001, 0b101, 0b0110011),
        RegOp::Rem => Row::new(0b0000001, 0b110, 0b0110011),
        RegOp::Remu => Row::new(0b0000001, 0b111, 0b0110011),
        RegOp::Addw => Row::new(0b0000000, 0b000, 0b0111011),
        RegOp::Subw => Row::new(0b0100000, 0b000, 0b0111011),
        RegOp::Sllw => Row::new(0b0000000, 0b001, 0b0111011),
        RegOp::Srlw => Row::new(0b0000000, 0b101, 0b0111011),
        RegOp::Sraw => Row::new(0b0100000, 0b101, 0b0111011),
        RegOp::Mulw => Row::new(0b0000001, 0b000, 0b0111011),
        RegOp::Divw => Row::new(0b0000001, 0b100, 0b0111011),
        RegOp::Divuw => Row::new(0b0000001, 0b101, 0b0111011),
        RegOp::Remw => Row::new(0b0000001, 0b110, 0b0111011),
        RegOp::Remuw => Row::new(0b0000001, 0b111, 0b0111011),
    }
}
