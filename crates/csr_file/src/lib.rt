//! The control and status registers of a hart, in this project's profile of machine mode.
#![tactic(auto)]

mod answers;
mod file;

pub use answers::{CsrRead, CsrWrite};
pub use file::Csrs;
