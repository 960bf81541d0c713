//! Laws of what a message that performs stores breaks: functions that do nothing, whose clauses are the laws.

ghost use Rattle.rule_laws.specs.WriteLaws.{WriteReports};

/// Where a message performs stores from a legal trace, rules 1, 4 and 6 alone decide what is reported: with
/// a part second, a waiting store is first, else the latest of the parts performed after it.
pub fn write_reports()
    ensures { WriteReports }
{}
