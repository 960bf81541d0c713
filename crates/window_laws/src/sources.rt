//! Laws of sources: functions that do nothing, whose clauses are the laws.

ghost use Rattle.window_laws.specs.SourceLaws.{NewSourcesAreOld, SourcesGoOn, SourcesSplit};
ghost use Rattle.window_laws.specs.ToldSources.{SourcesAreTold};

/// The source of a byte of an operation that an instruction adds, is the one that it would have in the
/// trace before. So an AMO isn't its own source: its early store stands where it does.
pub fn new_sources_are_old()
    ensures { NewSourcesAreOld }
{}

/// The source of such a byte is the latest store of the hart to it that waits; else the latest of the
/// hart's that was performed after the operation; else the latest of all that were performed before it.
pub fn sources_split()
    ensures { SourcesSplit }
{}

/// Tables that stand for a trace tell the source of a byte of an operation that an instruction adds: its
/// hart and tag, its place and its byte.
pub fn sources_are_told()
    ensures { SourcesAreTold }
{}

/// Under a growth that breaks no pair of rule 1 the source of a byte of a load that was there stays the
/// same store with the same byte, and where it wasn't performed it may be now, after all that was; or it
/// stays the initial value.
pub fn sources_go_on()
    ensures { SourcesGoOn }
{}
