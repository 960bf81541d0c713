//! Laws of waiting stores: functions that do nothing, whose clauses are the laws.

ghost use Rattle.window_laws.specs.WaitingLaws.{WaitingChanges, WaitingIsTold, WaitingStarts, WaitingStays};

/// In the trace of nothing no byte waits.
pub fn waiting_starts()
    ensures { WaitingStarts }
{}

/// The same bytes of a hart wait where nothing changes, where a store is performed early, where another
/// instruction than a plain store of the hart retires, and where stores of another hart are performed.
pub fn waiting_stays()
    ensures { WaitingStays }
{}

/// A plain store that retires waits with all its bytes, and those that are performed wait no longer.
pub fn waiting_changes()
    ensures { WaitingChanges }
{}

/// What waits under the greatest tag below a bound is the byte of the latest store of the hart below it
/// that waits with that byte.
pub fn waiting_is_told()
    ensures { WaitingIsTold }
{}
