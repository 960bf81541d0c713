//! Tests of the tables, by the calls that worked streams cause. There is nothing here but tests.
#![tactic(auto)]

#[cfg(test)]
mod keeping;
#[cfg(test)]
mod memory;
#[cfg(test)]
mod merging;
#[cfg(test)]
mod trees;
#[cfg(test)]
mod windows;
