//! Which pair of preserved program order is broken where an instruction retires, or where stores are
//! performed: all thirteen rules, from the tables of the hart (Unprivileged ISA 20191213, 14.1).
#![tactic(auto)]

mod retiring;

pub use drain_rules::{BrokenPair, check_drain, check_write};
pub use retiring::{FreshOp, Retiring};
pub use synchronization_rules::{HartMarks, MarkedOp};

#[cfg(test)]
mod tests;
