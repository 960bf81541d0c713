//! The instructions of RV64IMA with Zicsr, `MRET` and `WFI`: words to instructions and back.
//!
//! The manual is The RISC-V Instruction Set Manual, Volume I: Unprivileged ISA, 20191213;
//! its chapter 24 lists the words. `specs/Listing.antt` is that list.
#![tactic(auto)]

mod atomics;
mod columns;
mod decoding;
mod encoding;
mod environment;
mod fields;
mod immediates;
mod instruction;
mod integer;
mod laws;
mod operations;
pub mod registers;
mod rows;
mod signed;
mod words;

pub use decoding::decode;
pub use encoding::encode;
pub use instruction::Insn;
pub use laws::{each_fitting_instruction_has_a_word, words_are_read_as_what_they_encode};
pub use operations::{AmoOp, BranchOp, CsrOp, ImmOp, LoadOp, RegOp, StoreOp};

#[cfg(test)]
mod tests;
