//! The completed trace of a list of messages: which instructions retired, what each did to memory, and
//! when; and how it grows with each message.
#![tactic(auto)]

mod access;
mod building;
mod history;
mod laws;
mod parts;
mod plain;
mod retirements;
mod tracer;

pub use laws::{
    counts_are_of_one_hart, each_byte_has_one_fate, each_message_grows_the_trace,
    each_message_is_one_growth, fates_are_told, later_places_are_open_or_new,
    operations_group_bytes, places_are_in_order_of_position, places_have_messages,
    traces_are_well_kinded, traces_grow_with_lists,
};
pub use plain::{Traced, plain_trace};
pub use tracer::Tracer;
