//! Instructions of which some word is the encoding.

use rv_decode::{AmoOp, BranchOp, CsrOp, Insn, LoadOp, RegOp, StoreOp};
use std::marker::Model;
use tandem_base::csrs::MSCRATCH;

/// An instruction that some word encodes, and that names no CSR outside the twelve.
#[derive(Clone, Copy, Debug)]
pub struct Known {
    insn: Insn,
}

impl Model for Known {
    ghost use Rattle.rv_decode.specs.declared.instruction.Insn.{Insn};
    ghost use Rattle.rv_decode.specs.Listing.{IsInsn};
    ghost use Rattle.dep_tracker.specs.Tables.{IsKnown};

    ghost Value = { Insn };

    ghost view = { λ k. k.insn };

    ghost invariant = { λ k. IsInsn k.insn × IsKnown k.insn };

    ghost inverse = { λ insn. record { insn = insn } };
}

impl Known {
    ghost use Rattle.rv_decode.specs.Listing.{IsInsn};
    ghost use Rattle.dep_tracker.specs.Tables.{IsKnown};

    /// The instruction.
    pub(crate) fn insn(&self) -> &Insn
        ensures is { IsInsn result.now }
        ensures known { IsKnown result.now }
    {
        &self.insn
    }
}

/// A load to a register, from the address in another.
pub(crate) fn load(rd: u8, rs1: u8) -> Known {
    Known {
        insn: Insn::Load {
            op: LoadOp::Ld,
            rd: rd % 32,
            rs1: rs1 % 32,
            imm: 0,
        },
    }
}

/// A sum.
pub(crate) fn sum(rd: u8, rs1: u8, rs2: u8) -> Known {
    Known {
        insn: Insn::Alu {
            op: RegOp::Add,
            rd: rd % 32,
            rs1: rs1 % 32,
            rs2: rs2 % 32,
        },
    }
}

/// A store.
pub(crate) fn store(rs1: u8, rs2: u8) -> Known {
    Known {
        insn: Insn::Store {
            op: StoreOp::Sd,
            rs1: rs1 % 32,
            rs2: rs2 % 32,
            imm: 0,
        },
    }
}

/// A branch.
pub(crate) fn branch(rs1: u8, rs2: u8) -> Known {
    Known {
        insn: Insn::Branch {
            op: BranchOp::Bne,
            rs1: rs1 % 32,
            rs2: rs2 % 32,
            imm: 8,
        },
    }
}

/// An exchange of a register and a CSR.
pub(crate) fn exchange(rd: u8, rs1: u8) -> Known {
    Known {
        insn: Insn::Csr {
            op: CsrOp::Rw,
            rd: rd % 32,
            source: rs1 % 32,
            number: MSCRATCH,
        },
    }
}

/// An atomic sum.
pub(crate) fn atomic(rd: u8, rs1: u8, rs2: u8) -> Known {
    Known {
        insn: Insn::Amo {
            op: AmoOp::Add,
            wide: true,
            aq: false,
            rl: false,
            rd: rd % 32,
            rs1: rs1 % 32,
            rs2: rs2 % 32,
        },
    }
}
