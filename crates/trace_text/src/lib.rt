//! Messages as text: one line for each, and back.
#![tactic(auto)]

mod fault;
mod fields;
mod fields_read;
mod kinds;
mod laws;
mod lines;
mod printing;
mod reading;
mod spellings;
mod text;
mod text_line;
mod values;
mod words;

pub use fault::TextFault;
pub use laws::{texts_are_read_back, texts_tell_one_list};
pub use lines::{LONGEST_LINE, put_line};
pub use printing::to_text;
pub use text::from_text;
pub use text_line::{TextLine, next_line};
