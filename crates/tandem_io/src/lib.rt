//! The outside of Tandem: two inputs by name, one output, and the forms of them in memory and at
//! the edge of the program.
#![tactic(auto)]

mod calls;
mod cursor;
mod file_inputs;
mod file_slot;
mod mem_inputs;
mod mem_sink;
mod reader;
mod sink;
mod source;
mod stdout;
mod store;
mod sure;
mod types;
mod window;
mod writer_sink;

pub use file_inputs::FileInputs;
pub use mem_inputs::MemInputs;
pub use mem_sink::MemSink;
pub use sink::{Sink, WriteFailed, write_all};
pub use source::{Inputs, Source};
pub use stdout::StdoutSink;
pub use sure::{SureInputs, SureSink};
pub use types::{Failed, Logged, Slot};

#[cfg(test)]
mod tests;
