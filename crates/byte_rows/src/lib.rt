//! Slots that wait in a row, in the order of their tags: the newest and the oldest are known without a search.
#![tactic(auto)]

mod links;
mod slot_row;
mod waiter;

pub use slot_row::SlotRow;
pub use waiter::Waiter;

#[cfg(test)]
mod tests;
