//! The latest operations on which the instructions of a hart depend (Unprivileged ISA 20191213, 14.1).
#![tactic(auto)]

mod deps;
mod laws;

pub use deps::Deps;
pub use laws::dependencies_are_by_tags;

#[cfg(test)]
mod tests;
