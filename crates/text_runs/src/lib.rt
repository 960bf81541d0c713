//! Streams printed as text, and texts written as streams.
#![tactic(auto)]

mod frames;
mod pieces;
mod printing;
mod taking;
mod verdicts;

pub use frames::{TextPlace, find_fault, write_frames};
pub use printing::{MOST_PRINTED, Unprinted, print_stream};
pub use taking::{MOST_TEXT_BYTES, TakenText, take_text};
