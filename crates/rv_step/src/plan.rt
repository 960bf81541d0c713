//! What the instruction at a hart's pc is to do.

use rv_decode::Insn;
use tandem_base::Extent;

/// The settings that traps depend on.
#[derive(Clone, Copy, Debug, PartialEq, Eq)]
pub struct Config {
    /// mtval of an illegal instruction is the word; else it is 0.
    pub mtval_word: bool,
    /// Misaligned loads and stores trap; else they are performed, in parts.
    pub traps_misaligned: bool,
}

/// What an instruction is to do, with the bytes that it accesses.
#[derive(Clone, Copy, Debug, PartialEq, Eq)]
pub enum What {
    /// It traps with this cause, and this value in mtval.
    Trap { cause: u8, value: u64 },

    /// It accesses no memory, and needs nothing from outside.
    Plain(Insn),

    /// It reads cycle or time, whose value comes from outside.
    Counter(Insn),

    /// A load, but LR.
    Load(Insn, Extent),

    /// A store, but SC.
    Store(Insn, Extent),

    /// An LR.
    Lr(Insn, Extent),

    /// An SC.
    Sc(Insn, Extent),

    /// An atomic operation.
    Amo(Insn, Extent),
}

/// What the word at a hart's pc is to do.
#[derive(Clone, Copy, Debug, PartialEq, Eq)]
pub struct Plan {
    /// The word at the pc, 0 where the fetch fails.
    pub word: u32,
    /// What it is to do.
    pub what: What,
}
