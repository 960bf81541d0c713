//! A slot that waits.

/// A slot that waits, with its tag.
#[derive(Clone, Copy, Debug, PartialEq, Eq)]
pub struct Waiter {
    pub tag: u64,
    pub slot: usize,
}
