//! Laws of longer lists of messages: functions that do nothing, whose clauses are the laws.

ghost use Rattle.order_laws.specs.Prefixes.{ClosedPrecedesLater, MessagesMendNothing, SourcesAreStable};

/// Stable sources: where all messages match, the source of a byte that some of them load is the same after
/// more of them, or a pair of rule 1, a store after an operation of the same address, is broken then.
#[tactic(auto, using(crate::proofs::Legality::stable))]
pub fn sources_stay_with_more_messages()
    ensures { SourcesAreStable }
{}

/// No mending: where all messages match and their order is legal, that of the first of them is legal too.
#[tactic(auto, using(crate::proofs::Legality::mend_nothing))]
pub fn messages_mend_nothing()
    ensures { MessagesMendNothing }
{}

/// Windows: an operation that was performed no later than the oldest report that its hart has open precedes
/// each operation of an instruction of its hart that retires later, and so does what rules 1, 9 and 10 put
/// before it. So it breaks no rule with them.
pub fn closed_operations_precede_what_comes()
    ensures { ClosedPrecedesLater }
{}
