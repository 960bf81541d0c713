//! Memory as stores left it: for each byte its value, its last writer, and the last of another hart.
#![tactic(auto)]

mod capture;
mod initial;
mod laws;
mod line;
mod memory;
mod writer;

pub use capture::{Capture, Foreign, StoreCapture};
pub use laws::{captures_stay, stores_leave_their_byte, two_writers_tell_each_last_foreign_one};
pub use memory::Memory;
pub use writer::{Cell, Writer};
