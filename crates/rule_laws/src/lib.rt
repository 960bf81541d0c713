//! For each rule of preserved program order, what tells of an instruction that retires whether a pair of
//! the rule is broken with an operation of it second, and which operation is first: laws over traces.
//!
//! Sections named in the definitions are those of the Unprivileged ISA, document 20191213.
#![tactic(auto)]

mod firsts;
mod marks;
mod writes;

pub use firsts::{first_is_latest, first_is_performed, firsts_are_told, retire_reports};
pub use marks::{
    byte_marks_go_on, bytes_answer, fenced_marks_go_on, fences_are_told_by_tag, marks_reach,
    marks_start, open_lr_goes_on, running_marks_answer, running_marks_go_on, waiting_is_by_tag,
};
pub use writes::write_reports;
