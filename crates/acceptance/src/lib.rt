//! Runs of `tandem check` over inputs in memory that a table can't say: calls that fail, and streams
//! and images that code makes; and the checker that is fed one message at a time. There is nothing
//! here but tests.
#![tactic(auto)]

#[cfg(test)]
mod failing;
#[cfg(test)]
mod feeding;
#[cfg(test)]
mod large;
#[cfg(test)]
mod support;
