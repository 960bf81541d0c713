//! What the tables of a core that keeps a window stand for in a trace, and laws of it: what they say
//! of the source of a loaded byte, and what a growth of the trace leaves as it is.
#![tactic(auto)]

mod captures;
mod keeping;
mod source;
mod sources;
mod waiting;

pub use captures::{captures_are_taken, captures_go_on, memory_gains, memory_starts, memory_stays};
pub use keeping::{keeping_narrows, keeping_starts, keeping_stays};
pub use source::ByteSource;
pub use sources::{new_sources_are_old, sources_are_told, sources_go_on, sources_split};
pub use waiting::{waiting_changes, waiting_is_told, waiting_starts, waiting_stays};
