//! How a trace grows, message by message, and what its growth can't change: the laws of the memory
//! model over one trace that grows.
//!
//! Sections named in the definitions are those of the Unprivileged ISA, document 20191213.
#![tactic(auto)]

mod faults;
mod laws;

pub use faults::{
    fault_has_its_place, growth_is_legal_where_right, report_is_of_growing_hart,
    second_is_of_growing_hart, sources_rest_where_nothing_is_performed, stores_retire_quietly,
    windows_precede_what_comes,
};
pub use laws::{
    growth_keeps_well_kinded, nothing_is_mended, nothing_starts_well, settled_sources_stay,
    sources_are_stable, stores_go_on,
};
