//! The registers and CSRs that instructions use, as dependencies count them (section 14.1).
//!
//! x0 never counts. `stored` is true exactly for an SC that succeeded.

ghost use Rattle.std.specs.Prelude.{◌≡◌, ℕ, ◌&&◌, ◌||◌, Bool, true};
ghost use Rattle.rv_decode.specs.Registers as table;
ghost use Rattle.rv_decode.specs.Registers.{is_number, is_register};
ghost use Rattle.rv_decode.specs.declared.registers.Register.{Register};
ghost use Rattle.rv_decode.specs.declared.registers.Register.TheVariants.{X, Csr};

use crate::instruction::Insn;
use crate::operations::CsrOp;

/// An integer register by its number, or a CSR by its number.
#[derive(Clone, Copy, Debug, PartialEq, Eq)]
pub enum Register {
    X(u8),
    Csr(u16),
}

/// Whether it is the integer register of that number; x0 is never meant.
pub(crate) fn is_x(number: u8, r: Register) -> bool
    ensures { result ≡ table.is_x number r }
{
    match r {
        Register::X(n) => number > 0 && n == number,
        Register::Csr(_n) => false,
    }
}

/// Whether it is the CSR of that number.
pub(crate) fn is_csr(number: u16, r: Register) -> bool
    ensures { result ≡ table.is_csr number r }
{
    match r {
        Register::X(_n) => false,
        Register::Csr(n) => n == number,
    }
}

/// Whether a CSR instruction writes the CSR (section 9.1). `source` is the number of the register, or
/// the immediate.
pub fn writes_csr(op: CsrOp, source: u8) -> bool
    ensures { result ≡ table.writes_csr op source }
{
    match op {
        CsrOp::Rw | CsrOp::Rwi => true,
        CsrOp::Rs | CsrOp::Rc | CsrOp::Rsi | CsrOp::Rci => source > 0,
    }
}

/// Whether the source of a CSR instruction is a register, and not an immediate (section 9.1).
pub(crate) fn from_register(op: CsrOp) -> bool
    ensures { result ≡ table.from_register op }
{
    match op {
        CsrOp::Rw | CsrOp::Rs | CsrOp::Rc => true,
        CsrOp::Rwi | CsrOp::Rsi | CsrOp::Rci => false,
    }
}

/// Whether the register is a destination of the instruction.
pub fn sets(insn: &Insn, stored: bool, r: Register) -> bool
    ensures { result ≡ table.sets insn.now stored r }
{
    match *insn {
        Insn::Lui { rd, .. } | Insn::Auipc { rd, .. } => is_x(rd, r),
        Insn::Jal { rd, .. } | Insn::Jalr { rd, .. } => is_x(rd, r),
        Insn::AluImm { rd, .. } | Insn::Alu { rd, .. } => is_x(rd, r),
        Insn::Load { rd, .. } | Insn::Lr { rd, .. } | Insn::Amo { rd, .. } => is_x(rd, r),
        Insn::Sc { rd, .. } => stored && is_x(rd, r),
        Insn::Csr {
            op,
            rd,
            source,
            number,
        } => is_x(rd, r) || writes_csr(op, source) && is_csr(number, r),
        Insn::Branch { .. } | Insn::Store { .. } | Insn::Fence { .. } => false,
        Insn::Ecall | Insn::Ebreak | Insn::Mret | Insn::Wfi => false,
    }
}

/// Whether the instruction carries a dependency from the one register to the other.
pub fn carries(insn: &Insn, from: Register, to: Register) -> bool
    ensures { result ≡ table.carries insn.now «from» to }
{
    match *insn {
        Insn::AluImm { rd, rs1, .. } => is_x(rs1, from) && is_x(rd, to),
        Insn::Alu { rd, rs1, rs2, .. } => (is_x(rs1, from) || is_x(rs2, from)) && is_x(rd, to),
        Insn::Csr {
            op,
            rd,
            source,
            number,
        } => {
            from_register(op) && is_x(source, from) && is_csr(number, to)
                || is_csr(number, from) && is_x(rd, to)
        }
        _ => false,
    }
}

/// Whether the register gives a memory access its address.
pub fn is_address(insn: &Insn, r: Register) -> bool
    ensures { result ≡ table.is_address insn.now r }
{
    match *insn {
        Insn::Load { rs1, .. } | Insn::Store { rs1, .. } => is_x(rs1, r),
        Insn::Lr { rs1, .. } | Insn::Sc { rs1, .. } | Insn::Amo { rs1, .. } => is_x(rs1, r),
        _ => false,
    }
}

/// Whether the register gives a store, SC or AMO its data.
pub fn is_data(insn: &Insn, r: Register) -> bool
    ensures { result ≡ table.is_data insn.now r }
{
    match *insn {
        Insn::Store { rs2, .. } | Insn::Sc { rs2, .. } | Insn::Amo { rs2, .. } => is_x(rs2, r),
        _ => false,
    }
}

/// Whether the register decides where a branch or an indirect jump goes.
pub fn is_control(insn: &Insn, r: Register) -> bool
    ensures { result ≡ table.is_control insn.now r }
{
    match *insn {
        Insn::Branch { rs1, rs2, .. } => is_x(rs1, r) || is_x(rs2, r),
        Insn::Jalr { rs1, .. } => is_x(rs1, r),
        _ => false,
    }
}

/// The register that the instruction has as rd, x0 too, and that of an SC whether it stored or not.
pub fn named_rd(insn: &Insn) -> Option<Register>
    ensures { result ≡ table.named_rd insn.now }
{
    match *insn {
        Insn::Lui { rd, .. } | Insn::Auipc { rd, .. } => Some(Register::X(rd)),
        Insn::Jal { rd, .. } | Insn::Jalr { rd, .. } => Some(Register::X(rd)),
        Insn::AluImm { rd, .. } | Insn::Alu { rd, .. } => Some(Register::X(rd)),
        Insn::Load { rd, .. } | Insn::Lr { rd, .. } => Some(Register::X(rd)),
        Insn::Sc { rd, .. } | Insn::Amo { rd, .. } => Some(Register::X(rd)),
        Insn::Csr { rd, .. } => Some(Register::X(rd)),
        Insn::Branch { .. } | Insn::Store { .. } | Insn::Fence { .. } => None,
        Insn::Ecall | Insn::Ebreak | Insn::Mret | Insn::Wfi => None,
    }
}

/// The CSR that the instruction names.
pub fn named_csr(insn: &Insn) -> Option<Register>
    ensures { result ≡ table.named_csr insn.now }
{
    match *insn {
        Insn::Csr { number, .. } => Some(Register::Csr(number)),
        _ => None,
    }
}

/// The register, where it counts.
fn counted(number: u8) -> Option<u8>
    ensures { (r : ℕ) → table.is_x number (X r) ≡ is_number result r }
{
    if number > 0 { Some(number) } else { None }
}

/// The integer register that is a destination.
pub fn destination(insn: &Insn, stored: bool) -> Option<u8>
    ensures { (r : ℕ) → table.sets insn.now stored (X r) ≡ is_number result r }
{
    match *insn {
        Insn::Lui { rd, .. } | Insn::Auipc { rd, .. } => counted(rd),
        Insn::Jal { rd, .. } | Insn::Jalr { rd, .. } => counted(rd),
        Insn::AluImm { rd, .. } | Insn::Alu { rd, .. } => counted(rd),
        Insn::Load { rd, .. } | Insn::Lr { rd, .. } | Insn::Amo { rd, .. } => counted(rd),
        Insn::Sc { rd, .. } if stored => counted(rd),
        Insn::Csr { rd, .. } => counted(rd),
        _ => None,
    }
}

/// The number of the CSR that is a destination.
pub fn csr_destination(insn: &Insn) -> Option<u16>
    ensures { (stored : Bool) (n : ℕ) → table.sets insn.now stored (Csr n) ≡ is_number result n }
{
    match *insn {
        Insn::Csr {
            op,
            source,
            number,
            ..
        } if writes_csr(op, source) => Some(number),
        _ => None,
    }
}

/// The register that gives a memory access its address.
pub fn address_source(insn: &Insn) -> Option<u8>
    ensures { (r : ℕ) → table.is_address insn.now (X r) ≡ is_number result r }
{
    match *insn {
        Insn::Load { rs1, .. } | Insn::Store { rs1, .. } => counted(rs1),
        Insn::Lr { rs1, .. } | Insn::Sc { rs1, .. } | Insn::Amo { rs1, .. } => counted(rs1),
        _ => None,
    }
}

/// The register that gives a store, SC or AMO its data.
pub fn data_source(insn: &Insn) -> Option<u8>
    ensures { (r : ℕ) → table.is_data insn.now (X r) ≡ is_number result r }
{
    match *insn {
        Insn::Store { rs2, .. } | Insn::Sc { rs2, .. } | Insn::Amo { rs2, .. } => counted(rs2),
        _ => None,
    }
}

/// The registers that decide where a branch or an indirect jump goes.
pub fn control_sources(insn: &Insn) -> (Option<u8>, Option<u8>)
    ensures { (r : ℕ) → table.is_control insn.now (X r) ≡ is_number result.0 r || is_number result.1 r }
{
    match *insn {
        Insn::Branch { rs1, rs2, .. } => (counted(rs1), counted(rs2)),
        Insn::Jalr { rs1, .. } => (counted(rs1), None),
        _ => (None, None),
    }
}

/// What is carried to the integer register that is a destination.
pub fn carried_to_register(insn: &Insn) -> (Option<Register>, Option<Register>)
    ensures { (p : Register) (r : ℕ) → table.carries insn.now p (X r)
        ≡ (is_register result.0 p || is_register result.1 p) && table.sets insn.now true (X r) }
{
    match *insn {
        Insn::AluImm { rs1, .. } => (Some(Register::X(rs1)), None),
        Insn::Alu { rs1, rs2, .. } => (Some(Register::X(rs1)), Some(Register::X(rs2))),
        Insn::Csr { number, .. } => (Some(Register::Csr(number)), None),
        _ => (None, None),
    }
}

/// The integer register that is carried to the CSR that is a destination.
pub fn carried_to_csr(insn: &Insn) -> Option<u8>
    ensures { (r n : ℕ) → table.carries insn.now (X r) (Csr n)
        ≡ is_number result r && table.sets insn.now true (Csr n) }
{
    match *insn {
        Insn::Csr { op, source, .. } if from_register(op) => counted(source),
        _ => None,
    }
}
