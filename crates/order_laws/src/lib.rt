//! The order of memory over a list of messages: which message first breaks it, when a list of messages
//! is accepted, and what later messages can't change.
#![tactic(auto)]

mod faults;
mod prefixes;
mod verdicts;

pub use faults::{
    end_breaks_nothing, faultless_is_legal, order_fault_is_the_first, order_faults_have_places,
    others_break_nothing,
};
pub use prefixes::{
    closed_operations_precede_what_comes, messages_mend_nothing, sources_stay_with_more_messages,
};
pub use verdicts::{
    accepted_is_lawful, accepts_exactly_lawful_lists, decision_is_the_first,
    matching_is_said_in_words, own_hart_tells,
};
