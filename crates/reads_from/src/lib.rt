//! Where a loaded byte comes from, found in the tables of a hart.
#![tactic(auto)]

mod choice;
mod laws;

pub use choice::source;
pub use laws::{stores_gain_what_retires, stores_lose_what_is_performed, stores_stay};

#[cfg(test)]
mod tests;
