//! What is counted in the streams that are made: their operations, and what is open at a time.
#![tactic(auto)]

ghost use Rattle.gen_count_laws.specs.Laws.{MadeOperationsAre, MadeStreamsStayInBounds};

/// How many operations of memory a made stream has.
#[tactic(auto, using(crate::proofs::OperationCounts::operation_number))]
pub fn made_operations_are()
    ensures { MadeOperationsAre }
{}

/// After each message of a made stream no count of what is open, nor the number of messages, is over its bound.
#[tactic(auto, using(crate::proofs::InBounds::made_in_bounds))]
pub fn made_streams_stay_in_bounds()
    ensures { MadeStreamsStayInBounds }
{}
