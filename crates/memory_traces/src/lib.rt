//! Traces of the memory model with their answers, and traces that grow: laws that growths occur, a test
//! that only traces in form pass, and tests of the memory model and of the laws of growth.
#![tactic(auto)]

mod forms;
mod occurrences;

pub use forms::is_in_form;
pub use occurrences::{each_growth_occurs, pair_occurs};

#[cfg(test)]
mod tests;
