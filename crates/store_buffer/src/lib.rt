//! Stores that retired and aren't wholly performed: what is left of each.
#![tactic(auto)]

mod latest;
mod laws;
mod parts;
mod pending;
mod store;
mod stores;
mod table;

pub use laws::{a_store_waits_for_its_last_byte, bytes_wait_until_performed};
pub use parts::Taken;
pub use pending::Pending;
pub use store::{ByteState, Entry, StoreMarks};
pub use stores::Stores;

#[cfg(test)]
mod tests;
