//! Words of one opcode: atomic instructions.

ghost use Rattle.rv_decode.specs.Decoding.{as_atomic};
ghost use Rattle.std.specs.Prelude.{◌≡◌, ℕ, Bool, IfSome};
ghost use Rattle.rv_decode.specs.Formats.{part};
ghost use Rattle.rv_decode.specs.Listing.{Encodes};
ghost use Rattle.rv_decode.specs.declared.operations.AmoOp.{AmoOp};
ghost use Rattle.rv_decode.specs.declared.instruction.Insn.TheVariants.{Lr, Sc, Amo};

use crate::columns::{amo_op, width};
use crate::fields::{aq, funct3, funct5, rd, rl, rs1, rs2};
use crate::instruction::Insn;

/// An LR, SC or AMO (sections 8.2 and 8.4).
pub fn atomic(word: u32) -> Option<Insn>
    ensures { result ≡ as_atomic word }
{
    let wide = width(funct3(word))?;
    let (aq, rl) = (aq(word), rl(word));
    let (rd, rs1, rs2) = (rd(word), rs1(word), rs2(word));
    match funct5(word) {
        0b00010 if rs2 == 0 => Some(Insn::Lr {
            wide,
            aq,
            rl,
            rd,
            rs1,
        }),
        0b00011 => Some(Insn::Sc {
            wide,
            aq,
            rl,
            rd,
            rs1,
            rs2,
        }),
        funct5 => {
            let op = amo_op(funct5)?;
            Some(Insn::Amo {
                op,
                wide,
                aq,
                rl,
                rd,
                rs1,
                rs2,
            })
        }
    }
}
