//! Laws of kept operations: functions that do nothing, whose clauses are the laws.

ghost use Rattle.window_laws.specs.KeepingLaws.{KeepingNarrows, KeepingStarts, KeepingStays};

/// Nothing is kept of the trace of nothing.
pub fn keeping_starts()
    ensures { KeepingStarts }
{}

/// What is kept of a hart is right as before where nothing changes, where a store is performed early,
/// where an instruction retires none of whose operations is recent, and where stores of another hart are
/// performed and break no pair of rule 1.
pub fn keeping_stays()
    ensures { KeepingStays }
{}

/// Where only operations after a later place still matter, those of them that are after it are left.
pub fn keeping_narrows()
    ensures { KeepingNarrows }
{}
