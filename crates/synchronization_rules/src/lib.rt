//! Which operation an instruction that retires may not come before, by FENCEs, annotations and pairs of LR
//! and SC: rules 4 to 8 of preserved program order (section 14.1).
#![tactic(auto)]

mod fences;
mod laws;
mod marks;
mod operation;

pub use fences::FenceOrder;
pub use laws::hart_marks_go_on;
pub use marks::HartMarks;
pub use operation::MarkedOp;

#[cfg(test)]
mod tests;
