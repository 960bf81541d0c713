//! Large streams that are valid by the way they are made: every hart goes round one short program,
//! with a line of its own and a counter that all share, and a schedule says whose turn it is.
#![tactic(auto)]

mod image;
mod laws;
mod making;
mod rounds;
mod saying;
mod schedule;

pub use laws::{made_messages_are, made_messages_are_spelled, turns_are_all};
pub use making::{Made, make};
