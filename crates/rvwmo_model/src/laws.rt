//! Laws of the definitions: functions that do nothing, whose clauses are the laws.

ghost use Rattle.rvwmo_model.specs.Laws.{GlobalOrder, SourceIsLatest, DependencyIsWalk, FenceTso, FenceBySets};
ghost use Rattle.rvwmo_model.specs.Laws.{AmoIsLoadAndStore, ReportIsOne, ReportIsWhereBroken};
ghost use Rattle.rvwmo_model.specs.Laws.{AnswerIsOne, AnswerOfMembers, LastIsComputed, LastIsOne, LastOfMembers};

/// The global order is a strict total order on the operations of a trace in form.
#[tactic(auto, using(crate::proofs::Totality::total_order))]
pub fn global_order_is_total()
    ensures { GlobalOrder }
{}

/// The source of a byte is one of the stores that the load value axiom allows, and no allowed store is
/// later; where none is allowed there is no source.
#[tactic(auto, using(crate::proofs::Totality::source_latest))]
pub fn source_is_latest()
    ensures { SourceIsLatest }
{}

/// The dependency relation is the walk back by the latest writers of registers.
#[tactic(auto, using(crate::proofs::Reaching::dependency_walk))]
pub fn dependency_is_walk()
    ensures { DependencyIsWalk }
{}

/// FENCE.TSO orders exactly loads before everything and stores before stores; every other FENCE orders
/// what its two sets name.
#[tactic(auto, using(crate::proofs::OperationKinds::fence_tso, crate::proofs::OperationKinds::fence_by_sets))]
pub fn fence_orders_kinds()
    ensures tso { FenceTso }
    ensures sets { FenceBySets }
{}

/// An AMO stands as a load and as a store in every rule of preserved program order.
#[tactic(auto, using(crate::proofs::OperationKinds::amo_both))]
pub fn amo_is_load_and_store()
    ensures { AmoIsLoadAndStore }
{}

/// At most one broken pair is reported.
#[tactic(auto, using(crate::proofs::Reports::report_one))]
pub fn report_is_one()
    ensures { ReportIsOne }
{}

/// A pair is reported exactly where one is broken.
pub fn report_is_where_broken()
    ensures { ReportIsWhereBroken }
{}

/// A trace in form has one answer.
#[tactic(auto, using(crate::proofs::Uniqueness::answer_one))]
pub fn answer_is_one()
    ensures { AnswerIsOne }
{}

/// Two traces in form with the same instructions, and with the same operations and early stores in
/// whatever order, have the same answer.
#[tactic(auto, using(crate::proofs::Reordered::answer_of_members))]
pub fn answer_is_of_members()
    ensures { AnswerOfMembers }
{}

/// What the plain program answers at the newest step of a trace in form is an answer.
pub fn last_is_computed()
    ensures { LastIsComputed }
{}

/// A trace in form has one answer at its newest step.
#[tactic(auto, using(crate::proofs::LastUnique::last_one))]
pub fn last_is_one()
    ensures { LastIsOne }
{}

/// Two traces in form with the same instructions, and with the same operations and early stores in
/// whatever order, have the same answer at their newest step.
#[tactic(auto, using(crate::proofs::LastUnique::last_of_members))]
pub fn last_is_of_members()
    ensures { LastOfMembers }
{}
