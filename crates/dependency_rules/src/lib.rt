//! Which operation an instruction that retires may not come before, since it depends on it: rules 9, 10,
//! 11 and 13 of preserved program order (Unprivileged ISA 20191213, 14.1).
#![tactic(auto)]

mod dependent;

pub use dependent::{first_by_address, first_by_address_between, first_by_control, first_by_data};

#[cfg(test)]
mod tests;
