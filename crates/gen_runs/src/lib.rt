//! Made streams as bytes, of which one bit may be flipped, and the verdict on them.
#![tactic(auto)]

mod bytes;
mod laws;
mod verdict;

pub use laws::unflipped_streams_are_accepted;
pub use verdict::judge_made;
