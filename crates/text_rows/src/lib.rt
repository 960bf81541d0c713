//! Whole runs of `tandem text` over inputs in memory, against bytes and statuses that were worked
//! out by hand. There is nothing here but tests.
#![tactic(auto)]

#[cfg(test)]
mod failing;
#[cfg(test)]
mod rows;
#[cfg(test)]
mod support;
