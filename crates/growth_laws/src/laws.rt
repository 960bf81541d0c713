//! Laws of growth: functions that do nothing, whose clauses are the laws.

ghost use Rattle.growth_laws.specs.Laws.{StartsWell, KeepsWellKinded, KeepsWriters, StableSources};
ghost use Rattle.growth_laws.specs.Laws.{SettledSources, NoMending};

/// The trace with no instruction is well kinded and legal.
#[tactic(auto, using(crate::proofs::Starts::starts_well))]
pub fn nothing_starts_well()
    ensures { StartsWell }
{}

/// Each growth keeps a trace well kinded.
pub fn growth_keeps_well_kinded()
    ensures { KeepsWellKinded }
{}

/// Through each growth of a well-kinded trace the stores to a byte go on, with their bytes, and a new
/// one comes after all that is performed and is younger than all that retired of its hart.
pub fn stores_go_on()
    ensures { KeepsWriters }
{}

/// Stable sources: after any growths of a well-kinded trace the source of a loaded byte is the same,
/// or a pair of rule 1, a store after an operation of the same address, is broken.
#[tactic(auto, using(crate::proofs::Chains::stable_sources))]
pub fn sources_are_stable()
    ensures { StableSources }
{}

/// Settled sources: after any growths of a well-kinded trace a source that is performed, or is the
/// initial value, is the same, whatever is broken.
#[tactic(auto, using(crate::proofs::Settled::settled_sources))]
pub fn settled_sources_stay()
    ensures { SettledSources }
{}

/// No mending: what is wrong in a well-kinded trace stays wrong under all growths, so a trace that is
/// legal after some growths was legal before them.
#[tactic(auto, using(crate::proofs::Chains::no_mending))]
pub fn nothing_is_mended()
    ensures { NoMending }
{}
