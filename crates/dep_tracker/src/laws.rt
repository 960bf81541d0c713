//! Laws of the definitions: functions that do nothing, whose clauses are the laws.

ghost use Rattle.dep_tracker.specs.Tagged.{UsesAgree, PastUsesAgree, ListsStay};

/// What an instruction depends on by the list of those before it is what it depends on by their tags, in the
/// memory model's own words.
pub fn dependencies_are_by_tags()
    ensures now { UsesAgree }
    ensures before { PastUsesAgree }
    ensures stays { ListsStay }
{}
