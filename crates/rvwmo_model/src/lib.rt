//! The RVWMO memory model over one trace: what the retired instructions of all harts did to memory,
//! when such a trace is legal, and a plain program that judges one.
//!
//! Sections named here and in the definitions are those of the Unprivileged ISA, document 20191213;
//! chapter 14 is the memory model.
#![tactic(auto)]

mod answers;
mod initial;
mod instructions;
mod judge;
mod laws;
mod lists;
mod operations;
mod preserved;
mod traces;

pub use answers::{Judged, Last};
pub use initial::InitialBytes;
pub use instructions::Retired;
pub use judge::{plain_judge, plain_last};
pub use laws::{
    amo_is_load_and_store, answer_is_of_members, answer_is_one, dependency_is_walk,
    fence_orders_kinds, global_order_is_total, last_is_computed, last_is_of_members, last_is_one,
    report_is_one, report_is_where_broken, source_is_latest,
};
pub use lists::{InsnList, OpList};
pub use operations::{Ann, Op, OpKind};
pub use rv_decode::registers::Register;
pub use traces::Trace;
