//! What the programs that measure tables share: the names of runs, orders of addresses and numbers, numbers
//! that look random, and how long calls take.
#![tactic(auto)]

mod orders;
mod random;
mod run;
mod stopwatch;

pub use orders::{Order, shuffled};
pub use random::Random;
pub use run::Run;
pub use stopwatch::{Told, picoseconds, read};
