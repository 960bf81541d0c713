//! Words of one opcode: fences, calls and returns of the environment, and CSR instructions.

ghost use Rattle.rv_decode.specs.Decoding.{as_fence, as_system, as_csr};
ghost use Rattle.std.specs.Prelude.{◌≡◌, ℕ, IfSome};
ghost use Rattle.rv_decode.specs.Formats.{part};
ghost use Rattle.rv_decode.specs.Listing.{Encodes};
ghost use Rattle.rv_decode.specs.declared.operations.CsrOp.{CsrOp};
ghost use Rattle.rv_decode.specs.declared.instruction.Insn.TheVariants.{Fence, Ecall, Ebreak, Mret, Wfi, Csr};

use crate::columns::csr_op;
use crate::fields::{funct3, rd, rs1};
use crate::instruction::Insn;

/// A FENCE (section 2.7).
pub fn fence(word: u32) -> Option<Insn>
    ensures { result ≡ as_fence word }
{
    match funct3(word) {
        0b000 => Some(Insn::Fence {
            fm: (word >> 28) as u8,
            pred: (word >> 24 & 0xF) as u8,
            succ: (word >> 20 & 0xF) as u8,
            rd: rd(word),
            rs1: rs1(word),
        }),
        _ => None,
    }
}

/// A call or return of the environment, or a CSR instruction.
pub fn system(word: u32) -> Option<Insn>
    ensures { result ≡ as_system word }
{
    match word {
        0x0000_0073 => Some(Insn::Ecall),
        0x0010_0073 => Some(Insn::Ebreak),
        0x3020_0073 => Some(Insn::Mret),
        0x1050_0073 => Some(Insn::Wfi),
        _ => csr(word),
    }
}

fn csr(word: u32) -> Option<Insn>
    ensures { result ≡ as_csr word }
{
    let op = csr_op(funct3(word))?;
    Some(Insn::Csr {
        op,
        rd: rd(word),
        source: rs1(word),
        number: (word >> 20) as u16,
    })
}
