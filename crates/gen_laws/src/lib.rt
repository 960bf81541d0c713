//! What is proved of the streams that are made: no message of them has a fault, and how many retire.
#![tactic(auto)]

ghost use Rattle.gen_laws.specs.Laws.{MadeRetiresAre, MadeStreamsAreClean};

/// Each message of a made stream is well-formed, and none has a fault of its own.
#[tactic(auto, using(crate::proofs::Clean::made_clean))]
pub fn made_streams_are_clean()
    ensures { MadeStreamsAreClean }
{}

/// How many instructions retire in a made stream.
pub fn made_retires_are()
    ensures { MadeRetiresAre }
{}
