//! The checker itself: one message at a time, judged against the reference model.
#![tactic(auto)]

mod core_state;
mod examining;
mod fed;
mod judging;
mod laws;
mod limits;

pub use core_state::Core;
pub use fed::Fed;
pub use judging::{Unjudged, judge};
pub use laws::{lacking_goes_on, lawful_streams_are_accepted};
pub use limits::Limits;
