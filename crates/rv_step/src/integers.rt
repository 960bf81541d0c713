//! The results of the integer instructions.

ghost use Rattle.std.specs.Prelude.{◌≡◌, ◌<◌};
ghost use Rattle.rv_step.specs.Integers.{alu_result, with_register, is_taken, less_signed, low_word, sra_of};
ghost use Rattle.rv_step.specs.Integers.{without_low_bit};

use rv_decode::{BranchOp, ImmOp, RegOp};
use tandem_base::{div, div32, divu, divu32, mulh, mulhsu, mulhu, rem, rem32, remu, remu32, sext};

/// Whether `a` is below `b`, both with a sign.
pub fn is_less(a: u64, b: u64) -> bool
    ensures { result ≡ less_signed 64 a b }
{
    a.wrapping_add(1 << 63) < b.wrapping_add(1 << 63)
}

/// The same on 32 bits.
pub fn is_less32(a: u32, b: u32) -> bool
    ensures { result ≡ less_signed 32 a b }
{
    a.wrapping_add(1 << 31) < b.wrapping_add(1 << 31)
}

/// The low 32 bits.
pub fn low(a: u64) -> u32
    ensures { result ≡ low_word a }
{
    (a % (1 << 32)) as u32
}

/// An arithmetic shift to the right.
fn sra(a: u64, amount: u64) -> u64
    requires { amount < 64 }
    ensures { result ≡ sra_of 64 a amount }
{
    if a >= 1 << 63 {
        !(!a >> amount)
    } else {
        a >> amount
    }
}

/// The same on 32 bits.
fn sra32(a: u32, amount: u64) -> u32
    requires { amount < 32 }
    ensures { result ≡ sra_of 32 a amount }
{
    if a >= 1 << 31 {
        !(!a >> amount)
    } else {
        a >> amount
    }
}

/// The address with its lowest bit cleared.
pub fn even(address: u64) -> u64
    ensures { result ≡ without_low_bit address }
{
    address - address % 2
}

/// What an operation on two registers gives.
pub fn alu(op: RegOp, a: u64, b: u64) -> u64
    ensures { result ≡ alu_result op a b }
{
    match op {
        RegOp::Add => a.wrapping_add(b),
        RegOp::Sub => a.wrapping_sub(b),
        RegOp::Sll => a << (b % 64),
        RegOp::Slt => u64::from(is_less(a, b)),
        RegOp::Sltu => u64::from(a < b),
        RegOp::Xor => a ^ b,
        RegOp::Srl => a >> (b % 64),
        RegOp::Sra => sra(a, b % 64),
        RegOp::Or => a | b,
        RegOp::And => a & b,
        RegOp::Mul => a.wrapping_mul(b),
        RegOp::Mulh => mulh(a, b),
        RegOp::Mulhsu => mulhsu(a, b),
        RegOp::Mulhu => mulhu(a, b),
        RegOp::Div => div(a, b),
        RegOp::Divu => divu(a, b),
        RegOp::Rem => rem(a, b),
        RegOp::Remu => remu(a, b),
        RegOp::Addw => sext(a.wrapping_add(b), 32),
        RegOp::Subw => sext(a.wrapping_sub(b), 32),
        RegOp::Sllw => sext(a << (b % 32), 32),
        RegOp::Srlw => sext(u64::from(low(a)) >> (b % 32), 32),
        RegOp::Sraw => sext(u64::from(sra32(low(a), b % 32)), 32),
        RegOp::Mulw => sext(a.wrapping_mul(b), 32),
        RegOp::Divw => sext(u64::from(div32(low(a), low(b))), 32),
        RegOp::Divuw => sext(u64::from(divu32(low(a), low(b))), 32),
        RegOp::Remw => sext(u64::from(rem32(low(a), low(b))), 32),
        RegOp::Remuw => sext(u64::from(remu32(low(a), low(b))), 32),
    }
}

/// The operation on two registers that an operation on an immediate makes.
pub fn register_form(op: ImmOp) -> RegOp
    ensures { result ≡ with_register op }
{
    match op {
        ImmOp::Addi => RegOp::Add,
        ImmOp::Slti => RegOp::Slt,
        ImmOp::Sltiu => RegOp::Sltu,
        ImmOp::Xori => RegOp::Xor,
        ImmOp::Ori => RegOp::Or,
        ImmOp::Andi => RegOp::And,
        ImmOp::Slli => RegOp::Sll,
        ImmOp::Srli => RegOp::Srl,
        ImmOp::Srai => RegOp::Sra,
        ImmOp::Addiw => RegOp::Addw,
        ImmOp::Slliw => RegOp::Sllw,
        ImmOp::Srliw => RegOp::Srlw,
        ImmOp::Sraiw => RegOp::Sraw,
    }
}

/// Whether a branch is taken.
pub fn taken(op: BranchOp, a: u64, b: u64) -> bool
    ensures { result ≡ is_taken op a b }
{
    match op {
        BranchOp::Beq => a == b,
        BranchOp::Bne => a != b,
        BranchOp::Blt => is_less(a, b),
        BranchOp::Bge => !is_less(a, b),
        BranchOp::Bltu => a < b,
        BranchOp::Bgeu => a >= b,
    }
}
