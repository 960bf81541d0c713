//! Tests of lines: of verdicts, and of the text of a stream. There is nothing here but tests.
#![tactic(auto)]

#[cfg(test)]
mod texts;
#[cfg(test)]
mod verdicts;
