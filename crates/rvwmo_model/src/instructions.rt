//! Retired instructions.

use rv_decode::Insn;

/// An instruction that retired without a trap. The tags of a hart rise in program order.
#[derive(Clone, Copy, Debug, PartialEq, Eq)]
pub struct Retired {
    /// The hart.
    pub hart: u8,

    /// Its tag.
    pub tag: u64,

    /// The instruction.
    pub insn: Insn,

    /// True exactly for an SC that succeeded.
    pub stored: bool,
}
