//! Laws on what a growth can break, and what it can't: functions that do nothing, whose clauses are
//! the laws.

ghost use Rattle.growth_laws.specs.Corollaries.{SourcesRest, QuietInsns, SecondOfHart, LegalWhereRight};
ghost use Rattle.growth_laws.specs.Laws.{PlaceOfFault, ReportOfHart, Windows};

/// Place of the fault: from a well-kinded legal trace an early store breaks nothing; an instruction
/// breaks only pairs whose second operation is its own, and values and atomicity of its own; a message
/// that performs stores breaks, where it breaks anything, pairs of the rules of same address, fence or
/// release first, each with its second operation performed by the message and a plain store first that
/// is not performed, or performed by the message after it.
#[tactic(auto, using(crate::proofs::PlacesOfFault::place_of_fault))]
pub fn fault_has_its_place()
    ensures { PlaceOfFault }
{}

/// A growth that performs no store moves no source of a load that was there, whatever is broken.
pub fn sources_rest_where_nothing_is_performed()
    ensures { SourcesRest }
{}

/// From a well-kinded legal trace a plain store that retires, and an instruction without operations,
/// break nothing.
#[tactic(auto, using(crate::proofs::Quiet::quiet_insns))]
pub fn stores_retire_quietly()
    ensures { QuietInsns }
{}

/// One growth of a well-kinded legal trace gives a legal one exactly where what it adds is right: for an
/// instruction no pair with its operation second, no byte that it loaded and no pair of its own; for
/// stores performed by a message no pair of same address, fence or release that it completes. Nothing and
/// an early store are always right.
#[tactic(auto, using(crate::proofs::Right::legal_where_right))]
pub fn growth_is_legal_where_right()
    ensures { LegalWhereRight }
{}

/// After one growth of a well-kinded legal trace the second operation of each broken pair of the least
/// rule is of the hart whose operations the growth adds or performs.
#[tactic(auto, using(crate::proofs::Quiet::second_of_hart))]
pub fn second_is_of_growing_hart()
    ensures { SecondOfHart }
{}

/// After one growth of a well-kinded legal trace the pair that is reported is chosen among the pairs of
/// the hart whose operations the growth adds or performs.
#[tactic(auto, using(crate::proofs::Reduction::report_of_hart))]
pub fn report_is_of_growing_hart()
    ensures { ReportOfHart }
{}

/// Windows: a performed operation of a well-kinded legal trace that is below all places still to come
/// precedes all later operations of its hart after any growths, and so does what rules 1, 9 and 10 put
/// before it.
pub fn windows_precede_what_comes()
    ensures { Windows }
{}
