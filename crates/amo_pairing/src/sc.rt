//! What is answered to an SC.

use tandem_base::Origin;

/// What is answered to a successful SC that retires.
#[derive(Clone, Copy, Debug, PartialEq, Eq)]
pub enum Sc {
    /// It has a pair whose bytes contain its own, and the two are atomic.
    Fine,
    /// No LR is open.
    NoPair,
    /// Its bytes aren't all among those of its LR.
    Outside,
    /// The two aren't atomic: the byte and the store that show it first.
    Atomicity { at: u64, store: Origin },
}
