//! What a trace is found to be.

use tandem_base::{OpName, Origin};

/// What a trace was found to be.
///
/// Of several offences the first of Pair, Value, Order and Atomicity is answered. Pair, Value and
/// Atomicity name the operation of the lowest hart, then earliest in program order, then of least part.
#[derive(Clone, Copy, Debug, PartialEq, Eq)]
pub enum Judged {
    /// The trace is legal.
    Legal,

    /// This operation of a successful SC has no paired LR whose bytes contain its own.
    Pair(OpName),

    /// The load `name` got another byte than its source gives; `at` is its lowest such address.
    Value {
        name: OpName,
        at: u64,
        want: u8,
        got: u8,
    },

    /// Preserved program order puts `first` before `second`, and the global order doesn't. `rule` is the
    /// least rule that is broken; `second` is the second operation of its broken pairs that is of the
    /// lowest hart, then earliest in program order, then of least part; `first` is the latest in global
    /// order of those broken with it.
    Order {
        rule: u8,
        first: OpName,
        second: OpName,
    },

    /// The SC `name` and its LR are not atomic. Where the bytes of the LR show it, `at` is the lowest
    /// that does, and `store` its source if that doesn't precede the SC, else the last store of another
    /// hart to it before the SC. Else `store` is the last store of another hart to the reserved block
    /// before the SC, and `at` the lowest address of the block that it wrote.
    Atomicity {
        name: OpName,
        at: u64,
        store: Origin,
    },
}

/// What stands in a trace at its newest step: a hart retires an instruction, or performs stores.
///
/// Of several offences the first of Value, Order and Atomicity is answered. Value and Atomicity are asked
/// of the instruction that retires, and of no other.
#[derive(Clone, Copy, Debug, PartialEq, Eq)]
pub enum Last {
    /// None of the three stands.
    Fine,

    /// The instruction loaded another byte than its source gives; `at` is the lowest such address over
    /// all its operations.
    Value {
        at: u64,
        want: u8,
        got: u8,
    },

    /// Preserved program order puts `first` before `second`, and the global order doesn't; they are
    /// chosen as in `Judged`.
    Order {
        rule: u8,
        first: OpName,
        second: OpName,
    },

    /// The instruction is an SC that isn't atomic with its LR; `at` and `store` are chosen as in
    /// `Judged`.
    Atomicity {
        at: u64,
        store: Origin,
    },
}
