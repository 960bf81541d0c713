//! The words of the command line, and what the program does with them.
#![tactic(auto)]

mod chosen;
mod file_fault;
mod gen_lines;
mod gen_words;
mod gens;
mod intake;
mod number;
mod options;
mod outcome;
mod outcome_lines;
mod program;
mod run;
#[cfg(test)]
mod tests;
mod text_lines;
mod text_outcome;
mod text_words;
mod texts;
mod words;

pub use gens::run_gen;
pub use program::run_program;
pub use run::run_check;
pub use texts::run_text;
