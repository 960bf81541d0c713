//! Laws of the open LR of a hart: functions that do nothing, whose clauses are the laws.

ghost use Rattle.amo_pairing.specs.PairingLaws.{PairingChanges, PairingStarts, PairingStays};

/// In the trace of nothing no LR is open.
pub fn pairing_starts()
    ensures { PairingStarts }
{}

/// What is kept of a hart's open LR is right as before where nothing changes, where a store is performed
/// early, where an instruction retires that is no LR and no SC or is of another hart, and where a message
/// performs stores of another hart and breaks no pair of rule 1.
pub fn pairing_stays()
    ensures { PairingStays }
{}

/// An LR that retires is the one that is kept; after an SC, failed or not, none is; and what a message of
/// the hart performs, breaking no pair of rule 1, gives its place to the sources that waited for it.
pub fn pairing_changes()
    ensures { PairingChanges }
{}
