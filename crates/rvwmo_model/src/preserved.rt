//! The rules of preserved program order.

/// The rules of preserved program order, as the manual numbers them (section 14.1).
#[derive(Clone, Copy, Debug, PartialEq, Eq)]
pub enum Rule {
    /// Overlapping addresses, the second is a store.
    R1,

    /// Two loads of one byte from different sources.
    R2,

    /// A load from an AMO or SC.
    R3,

    /// A FENCE.
    R4,

    /// An acquire.
    R5,

    /// A release.
    R6,

    /// Two RCsc annotations.
    R7,

    /// An LR and its SC.
    R8,

    /// An address dependency.
    R9,

    /// A data dependency.
    R10,

    /// A control dependency of a store.
    R11,

    /// A load from a store that depends on the first.
    R12,

    /// A store after an instruction whose address depends on the first.
    R13,
}

impl Rule {
    ghost use Rattle.std.specs.Prelude.{◌≡◌};
    ghost use Rattle.rvwmo_model.specs.Report.{number};

    /// The rule's number, from 1 to 13.
    pub(crate) fn number(self) -> u8
        ensures { result ≡ number self }
    {
        match self {
            Rule::R1 => 1,
            Rule::R2 => 2,
            Rule::R3 => 3,
            Rule::R4 => 4,
            Rule::R5 => 5,
            Rule::R6 => 6,
            Rule::R7 => 7,
            Rule::R8 => 8,
            Rule::R9 => 9,
            Rule::R10 => 10,
            Rule::R11 => 11,
            Rule::R12 => 12,
            Rule::R13 => 13,
        }
    }
}
