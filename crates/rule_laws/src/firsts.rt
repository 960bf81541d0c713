//! Laws of the first operations of broken pairs: functions that do nothing, whose clauses are the laws.

ghost use Rattle.rule_laws.specs.FirstLaws.{FirstIsLatest, FirstIsPerformed, FirstsAreTold, RetireReports};

/// Where an instruction retires, a pair with an operation of it second is broken exactly where the first
/// is what the rule asks, by words that look at the trace before, and stands after the second.
pub fn firsts_are_told()
    ensures { FirstsAreTold }
{}

/// The latest of these is the first operation that is reported; where there is none, no pair is broken.
pub fn first_is_latest()
    ensures { FirstIsLatest }
{}

/// For each rule but 1, 4 and 6 only operations that were performed can be first.
pub fn first_is_performed()
    ensures { FirstIsPerformed }
{}

/// Where an instruction retires from a legal trace, the pair that is reported is of the least rule that
/// has an answer, of the operation of least name among those that have one by it, and of that answer; and
/// where there is no answer, no pair is broken.
pub fn retire_reports()
    ensures { RetireReports }
{}
