//! Laws of what is decided on a list of messages: functions that do nothing, whose clauses are the laws.

ghost use Rattle.order_laws.specs.Lawful.{AcceptedIsLawful, AcceptsExactlyLawful, DecisionIsFirst, MatchedInWords};
ghost use Rattle.order_laws.specs.Limits.{OwnHartTells};

/// Where no count is over its bound, one more message brings one over it exactly where it brings one of its
/// own hart, or the number of messages, over its bound.
pub fn own_hart_tells()
    ensures { OwnHartTells }
{}

/// The decision on a list of messages is that at the first of them at which anything is decided: the
/// message has a fault, or a count passes its bound with it, or it is the End.
pub fn decision_is_the_first()
    ensures { DecisionIsFirst }
{}

/// Well-formed messages are accepted with the newest of them exactly where they are lawful and no count was
/// over its bound after any of them.
pub fn accepted_is_lawful()
    ensures { AcceptedIsLawful }
{}

/// The decision on a list of well-formed messages is that its last one accepts exactly where the list is
/// lawful and no count was over its bound after any of them.
pub fn accepts_exactly_lawful_lists()
    ensures { AcceptsExactlyLawful }
{}

/// Where a list ends with its only End, all its messages match exactly where the stream is well-formed, every
/// retirement is the step, every store that retired is written, and every successful SC has its LR.
pub fn matching_is_said_in_words()
    ensures { MatchedInWords }
{}
