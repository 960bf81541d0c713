//! What the tables stand for while a trace grows: laws, with nothing to do.

ghost use Rattle.overlap_rules.specs.LeadLaws.{LeadsGoOn};
ghost use Rattle.overlap_rules.specs.SinceLaws.{LoadsSinceGoOn};

/// The loads of a byte that are kept since a store to it retired go on through each growth, as the table
/// of kept operations makes them.
pub fn loads_since_go_on()
    ensures { LoadsSinceGoOn }
{}

/// What a lead tells of a store that retired it tells through each growth.
pub fn leads_go_on()
    ensures { LeadsGoOn }
{}
