//! Words to instructions, by the opcode.

ghost use Rattle.rv_decode.specs.Decoding.{decoding};
ghost use Rattle.std.specs.Prelude.{◌≡◌, IfSome, IfNone};
ghost use Rattle.rv_decode.specs.Listing.{Encodes};
ghost use Rattle.rv_decode.specs.declared.instruction.Insn.{Insn};

use crate::atomics::atomic;
use crate::environment::{fence, system};
use crate::fields::opcode;
use crate::instruction::Insn;
use crate::integer::{
    alu, alu_imm, alu_imm_word, alu_word, auipc, branch, jal, jalr, load, lui, store,
};

/// The instruction that the word encodes (chapter 24). None exactly where there is no such instruction
/// among those of [`Insn`]: the word is illegal then.
pub fn decode(word: u32) -> Option<Insn>
    ensures is { result ≡ decoding word }
    ensures found { IfSome result (Encodes word) }
    ensures none { IfNone result ((i : Insn) → Encodes word i → ⊥) }
    ensures only { (i : Insn) → Encodes word i → result ≡ Some i }
{
    by_opcode(word)
}

/// The instruction of the word, by its opcode.
#[tactic(auto, unfolding(crate::specs::Decoding::decoding))]
fn by_opcode(word: u32) -> Option<Insn>
    ensures { result ≡ decoding word }
{
    match opcode(word) {
        0b0110111 => Some(lui(word)),
        0b0010111 => Some(auipc(word)),
        0b1101111 => Some(jal(word)),
        0b1100111 => jalr(word),
        0b1100011 => branch(word),
        0b0000011 => load(word),
        0b0100011 => store(word),
        0b0010011 => alu_imm(word),
        0b0011011 => alu_imm_word(word),
        0b0110011 => alu(word),
        0b0111011 => alu_word(word),
        0b0001111 => fence(word),
        0b1110011 => system(word),
        0b0101111 => atomic(word),
        _ => None,
    }
}
