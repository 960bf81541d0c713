//! What is proved of the verdicts on made streams: a law, with nothing to do.

ghost use Rattle.gen_runs.specs.Accepting.{UnflippedStreamsAreAccepted};

/// A made stream of which no bit is flipped is accepted, whatever the seed, and for all harts and rounds that
/// there can be. The verdict tells how many messages it has, and how many instructions retire.
pub fn unflipped_streams_are_accepted()
    ensures { UnflippedStreamsAreAccepted }
{}
