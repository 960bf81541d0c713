//! Laws of what is kept of a trace: kept operations go on through each growth, those that it performs
//! among them.
#![tactic(auto)]

mod keeping;

pub use keeping::kept_go_on;
