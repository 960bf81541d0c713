//! Faults, verdicts, and the lines that tell them.
#![tactic(auto)]

mod detail;
mod fault;
mod fault_values;
mod printing;
mod text;
mod verdict;

pub use fault::{Fault, RdWant};
pub use printing::print;
pub use text::line;
pub use verdict::{Limit, Report, Verdict};
