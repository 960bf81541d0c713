//! What is proved of the streams that are made: they are lawful, so they are accepted.
#![tactic(auto)]

ghost use Rattle.gen_order_laws.specs.Laws.{MadeStreamsAreAccepted, MadeStreamsAreLawful};

/// A made stream is lawful over its image: it is well-formed, every retirement is the step, every store is
/// written, and the order of memory is legal.
#[tactic(auto, using(crate::proofs::Lawful::made_lawful))]
pub fn made_streams_are_lawful()
    ensures { MadeStreamsAreLawful }
{}

/// A made stream is accepted at its last message, and nothing is decided before it, where the number of
/// messages alone has a bound that it doesn't pass.
#[tactic(auto, using(crate::proofs::Accepted::made_accepted))]
pub fn made_streams_are_accepted()
    ensures { MadeStreamsAreAccepted }
{}
