//! The performed operations of a hart that may still matter.
#![tactic(auto)]

mod arrivals;
mod byte_keys;
mod division;
mod doubleword;
mod kept;
mod laws;
mod operation;
mod ops;
mod word_slots;
mod words;

pub use kept::Kept;
pub use laws::{
    a_mark_over_a_place_is_the_latest_there, marks_stay_the_latest_when_a_store_retires,
    marks_stay_the_latest_when_early_ones_go, marks_stay_the_latest_when_one_is_kept,
    nothing_is_marked_at_first, two_loads_tell_the_latest_from_elsewhere,
};
pub use operation::KeptOp;
