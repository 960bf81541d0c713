//! Traces.

use crate::lists::{InsnList, OpList};

/// A completed trace: the instructions that retired without a trap, their operations, and the stores
/// that were performed for instructions that have not retired yet.
#[derive(Drop)]
pub struct Trace {
    /// The instructions, those of each hart in program order.
    pub insns: InsnList,

    /// Their operations.
    pub ops: OpList,

    /// The stores of instructions that have not retired.
    pub early: OpList,

    /// The size in bytes of the aligned block that a reservation covers: 8, 16, 32 or 64. It is 0 where
    /// a reservation covers exactly the bytes of its LR.
    pub granule: u8,
}
