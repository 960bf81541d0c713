//! The bytes of stores that wait to become visible: the Inserts of a hart, by their line.
#![tactic(auto)]

mod chains;
mod laws;
mod lines;
mod merging;
mod waiting;

pub use laws::merging_gives_the_newest_byte;
pub use lines::{Drain, Lines};
pub use merging::Difference;
pub use waiting::Part;
