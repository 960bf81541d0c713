//! Instructions.

use crate::operations::{AmoOp, BranchOp, CsrOp, ImmOp, LoadOp, RegOp, StoreOp};

/// An instruction.
///
/// Register numbers are 0 to 31. `imm` is the sign-extended immediate, in bytes where it is a distance
/// or an offset; for a shift it is the shift amount. `wide` is true exactly for the forms on 64 bits.
#[derive(Clone, Copy, Debug, PartialEq, Eq)]
pub enum Insn {
    /// Section 2.4. `imm` is the value, a multiple of 4096.
    Lui {
        rd: u8,
        imm: i64,
    },

    /// Section 2.4. `imm` is what is added to the pc, a multiple of 4096.
    Auipc {
        rd: u8,
        imm: i64,
    },

    /// Section 2.5. `imm` is even.
    Jal {
        rd: u8,
        imm: i64,
    },

    /// Section 2.5.
    Jalr {
        rd: u8,
        rs1: u8,
        imm: i64,
    },

    /// Section 2.5. `imm` is even.
    Branch {
        op: BranchOp,
        rs1: u8,
        rs2: u8,
        imm: i64,
    },

    /// Section 2.6.
    Load {
        op: LoadOp,
        rd: u8,
        rs1: u8,
        imm: i64,
    },

    /// Section 2.6. `rs2` is the register that is stored.
    Store {
        op: StoreOp,
        rs1: u8,
        rs2: u8,
        imm: i64,
    },

    /// Sections 2.4 and 5.2.
    AluImm {
        op: ImmOp,
        rd: u8,
        rs1: u8,
        imm: i64,
    },

    /// Sections 2.4, 5.2, 7.1 and 7.2.
    Alu {
        op: RegOp,
        rd: u8,
        rs1: u8,
        rs2: u8,
    },

    /// Section 2.7. The bits of `pred` and `succ` are, from high to low, I, O, R and W. `rd` and `rs1`
    /// are reserved: they mean nothing, and any number may stand there.
    Fence {
        fm: u8,
        pred: u8,
        succ: u8,
        rd: u8,
        rs1: u8,
    },

    /// Section 2.8.
    Ecall,

    /// Section 2.8.
    Ebreak,

    /// Volume II, Trap-Return Instructions.
    Mret,

    /// Volume II, Wait for Interrupt.
    Wfi,

    /// Section 9.1. `source` is rs1, or the immediate for the forms `Rwi`, `Rsi` and `Rci`. `number` is
    /// below 4096.
    Csr {
        op: CsrOp,
        rd: u8,
        source: u8,
        number: u16,
    },

    /// Section 8.2.
    Lr {
        wide: bool,
        aq: bool,
        rl: bool,
        rd: u8,
        rs1: u8,
    },

    /// Section 8.2. `rs2` is the register that is stored.
    Sc {
        wide: bool,
        aq: bool,
        rl: bool,
        rd: u8,
        rs1: u8,
        rs2: u8,
    },

    /// Section 8.4.
    Amo {
        op: AmoOp,
        wide: bool,
        aq: bool,
        rl: bool,
        rd: u8,
        rs1: u8,
        rs2: u8,
    },
}
