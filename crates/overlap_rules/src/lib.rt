//! Which operation is first in a broken pair by the bytes that two operations share: rules 1, 2, 3 and 12
//! of preserved program order, asked where an instruction retires.
#![tactic(auto)]

mod asked;
mod laws;
mod marks;

pub use asked::Asked;
pub use laws::{leads_go_on, loads_since_go_on};

#[cfg(test)]
mod tests;
