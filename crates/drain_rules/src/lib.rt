//! What performing stores breaks of preserved program order, at a Write and at a Bypass of a plain store:
//! rules 1, 4 and 6 alone (Unprivileged ISA 20191213, 14.1).
#![tactic(auto)]

mod bound;
mod drain;
mod rule;
mod seen;
mod worst;

pub use drain::{BrokenPair, check_drain, check_write};

#[cfg(test)]
mod tests;
