//! Laws of kept operations: functions that do nothing, whose clauses are the laws.

ghost use Rattle.place_laws.specs.KeptLaws.{KeptGoOn};

/// What is kept of a hart is right through each growth: as it was where nothing recent is performed, else
/// with the recent operations added, of an instruction that retires or of a message that performs stores.
pub fn kept_go_on()
    ensures { KeptGoOn }
{}
