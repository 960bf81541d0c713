//! Tests of instructions: what they do to registers and CSRs, and their arithmetic. There is nothing here but
//! tests.
#![tactic(auto)]

#[cfg(test)]
mod csrs;
#[cfg(test)]
mod numbers;
#[cfg(test)]
mod steps;
