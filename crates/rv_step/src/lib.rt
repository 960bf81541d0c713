//! The step of a hart: what the instruction at its pc is to do, and what it does.
//!
//! `Hart::plan` fetches, decodes and finds the trap or the access. `Hart::effect_into` works out what the
//! plan reports, with the values that come from outside; `Hart::commit` makes the hart what a report
//! says; and `Hart::finish` does both.
#![tactic(auto)]

mod causes;
mod effect;
mod hart;
mod integers;
mod laws;
mod memory;
mod plan;

pub use effect::{Effect, Outside};
pub use hart::Hart;
pub use laws::causes_have_their_numbers;
pub use plan::{Config, Plan, What};
