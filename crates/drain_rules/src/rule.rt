//! The rules of preserved program order that performing a store can break.

ghost use Rattle.std.specs.Prelude.{◌≡◌};

/// A rule that performing a store can break.
#[derive(Clone, Copy, Debug, PartialEq, Eq)]
pub enum DrainRule {
    /// Rule 1: it stores to a byte of the first operation.
    Overlap,
    /// Rule 4: a FENCE orders the first operation before it.
    Fence,
    /// Rule 6: it has a release annotation.
    Release,
}

impl DrainRule {
    ghost use Rattle.drain_rules.specs.Answers.{drain_number};

    /// The manual's number.
    pub fn number(self) -> u8
        ensures { result ≡ drain_number self }
    {
        match self {
            DrainRule::Overlap => 1,
            DrainRule::Fence => 4,
            DrainRule::Release => 6,
        }
    }
}
