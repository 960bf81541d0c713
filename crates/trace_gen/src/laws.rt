//! What follows from the definitions alone.

ghost use Rattle.std.specs.Prelude.{ℕ};
ghost use Rattle.trace_gen.specs.Counts.{MadeMessagesAre, MadeMessagesAreSpelled, TurnsAreAll};

/// The turns of a stream are just those that there are as long as a hart has steps left.
#[tactic(auto, using(crate::proofs::Turns::some_at, crate::proofs::Turns::none_at))]
pub fn turns_are_all()
    ensures { (seed harts rounds : ℕ) → TurnsAreAll seed harts rounds }
{}

/// How many messages a made stream has.
#[tactic(auto, using(crate::proofs::Numbers::made_number))]
pub fn made_messages_are()
    ensures { MadeMessagesAre }
{}

/// The frame of each made message spells it.
#[tactic(auto, using(crate::proofs::Sound::made_spelled))]
pub fn made_messages_are_spelled()
    ensures { MadeMessagesAreSpelled }
{}
