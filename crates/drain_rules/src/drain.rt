//! What a Write or a Bypass of a plain store breaks.

ghost use Rattle.std.specs.Prelude.{[], ◌∷◌};
ghost use Rattle.drain_rules.specs.Answers.{AreOfOneLine};
ghost use Rattle.drain_rules.specs.Told.{IsDrainAnswer, TellsDrain};

use crate::worst::worst_of;
use merge_buffer::Part;
use store_buffer::Stores;
use tandem_base::OpName;

/// A pair of operations of which preserved program order puts the first before the second, and the global
/// order doesn't.
#[derive(Clone, Copy, Debug, PartialEq, Eq)]
pub struct BrokenPair {
    /// The manual's number of the rule, from 1 to 13.
    pub rule: u8,
    /// The operation that is first in program order.
    pub first: OpName,
    /// The other.
    pub second: OpName,
}

/// The answer for the parts of a message.
fn answer(hart: u8, parts: &[Part], stores: &Stores) -> Option<BrokenPair>
    requires { AreOfOneLine parts.now }
    ensures { IsDrainAnswer hart stores.now parts.now result }
{
    match worst_of(hart, parts, stores) {
        None => None,
        Some(worst) => match worst.bound.first(hart, &parts[..worst.index], stores) {
            None => unreachable!(),
            Some(first) => Some(BrokenPair {
                rule: worst.rule.number(),
                first,
                second: worst.second,
            }),
        },
    }
}

/// The pair that is reported where a Write has performed these parts of stores of the hart, the last of
/// them first in the list; None exactly where no pair is broken. The stores are told of all of them, and
/// not swept.
pub fn check_drain(hart: u8, parts: &[Part], stores: &Stores) -> Option<BrokenPair>
    // They waited on one line.
    requires { AreOfOneLine parts.now }
    ensures { TellsDrain hart parts.now stores.now result }
{
    answer(hart, parts, stores)
}

/// The same for a Bypass of a plain store, which performs one part.
pub fn check_write(hart: u8, part: &Part, stores: &Stores) -> Option<BrokenPair>
    ensures { TellsDrain hart (part.now ∷ []) stores.now result }
{
    answer(hart, &[*part], stores)
}
