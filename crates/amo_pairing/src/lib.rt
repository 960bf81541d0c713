//! The open LR of a hart with the sources of its bytes, and the judgement of the SC that pairs with it.
//!
//! Sections named in the definitions are those of the Unprivileged ISA, document 20191213.
#![tactic(auto)]

mod laws;
mod pairing;
mod reservation;
mod sc;

pub use laws::{pairing_changes, pairing_starts, pairing_stays};
pub use pairing::Pairing;
pub use reservation::Reservation;
pub use sc::Sc;

#[cfg(test)]
mod tests;
