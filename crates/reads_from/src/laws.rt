//! What the stores of a hart stand for while its trace grows: laws, with nothing to do.

ghost use Rattle.reads_from.specs.StoreLaws.{PerformedLeave, RetiredWait, StoresStay};

/// A plain store that retires waits with all its bytes, once it is put before the other stores.
pub fn stores_gain_what_retires()
    ensures { RetiredWait }
{}

/// The bytes of a store that are performed wait no longer, once the store is told.
pub fn stores_lose_what_is_performed()
    ensures { PerformedLeave }
{}

/// An Insert or a Bypass and a sweep change nothing of what waits.
pub fn stores_stay()
    ensures { StoresStay }
{}
