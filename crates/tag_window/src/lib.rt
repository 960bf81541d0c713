//! The reports of a hart that still wait for a Retire: its live Reads and early Bypasses.
#![tactic(auto)]

mod counting;
mod laws;
mod links;
mod newest;
mod order;
mod reports;
mod slots;
mod tags;

pub use counting::Counting;
pub use laws::{early_bypasses_wait_for_their_retire, live_reads_are_those_that_nothing_dropped};
pub use reports::{Early, Read};
pub use tags::Tags;
