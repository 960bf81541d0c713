//! How reports match the reference model: the first fault of a message, one message at a time, by
//! plain tables.
#![tactic(auto)]

mod checks;
mod compare;
mod copying;
mod faulty;
mod hart_table;
mod laws;
mod pieces;
mod reports;
mod retire;
mod run;
mod step;
mod stores;
mod tables;

pub use laws::nothing_is_performed_before_it_retires;
pub use reports::{OpenReport, bytes_read, counting};
pub use step::Step;
pub use stores::{Fate, Stored, Tracked, store_under};
pub use tables::Matching;
