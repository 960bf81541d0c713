//! Laws of the completed trace: functions that do nothing, whose clauses are the laws.

ghost use Rattle.trace_model.specs.GroupLaws.{OperationsAreGroups};
ghost use Rattle.trace_model.specs.Growths.{EachMessageGrows, EachMessageIsGrowth};
ghost use Rattle.trace_model.specs.LaterPlaces.{PlacesOfLater};
ghost use Rattle.trace_model.specs.Positions.{PlacesAreOrdered, PlacesHaveMessages};
ghost use Rattle.trace_model.specs.Laws.{FatesAreOne, FatesAreTold, ListsAreWellKinded, ListsGrow, OthersCount};

/// The operations of an access group its bytes by where each was performed: each byte is one of exactly
/// one operation, and no two operations have one place or one name.
pub fn operations_group_bytes()
    ensures { OperationsAreGroups }
{}

/// What became of a byte of a store is what the messages tell: nothing; it waits in its Insert; or it was
/// performed by the first Write of its line after its Insert, or by a plain Bypass.
pub fn fates_are_told()
    ensures { FatesAreTold }
{}

/// Where no message has a fault, the messages tell one fate of each byte of a store: it is in at most one
/// Insert or plain Bypass.
pub fn each_byte_has_one_fate()
    ensures { FatesAreOne }
{}

/// Each message of a clean list from the second on makes the trace grow as its kind says: an early Bypass
/// adds an early store, a plain Bypass performs one part of a store, a Write one for each Insert that waits
/// in its line, in their order, a Retire without a trap adds its instruction with its operations, and all
/// others change nothing.
pub fn each_message_grows_the_trace()
    ensures { EachMessageGrows }
{}

/// So each message of a clean list from the second on is one growth.
pub fn each_message_is_one_growth()
    ensures { EachMessageIsGrowth }
{}

/// The trace of a clean list is well kinded: in form, each operation fits its instruction, places differ,
/// those of early stores too.
pub fn traces_are_well_kinded()
    ensures { ListsAreWellKinded }
{}

/// The trace of a clean list comes from that of each shorter one by growths.
pub fn traces_grow_with_lists()
    ensures { ListsGrow }
{}

/// A message of one hart changes no count of another: its live Reads and early Bypasses, its stores that
/// aren't performed, and its operations that are kept.
pub fn counts_are_of_one_hart()
    ensures { OthersCount }
{}

/// The place of each operation has the time of the message that it names.
pub fn places_have_messages()
    ensures { PlacesHaveMessages }
{}

/// The order of places is that of their positions: by message, then by Insert.
pub fn places_are_in_order_of_position()
    ensures { PlacesAreOrdered }
{}

/// An operation of an instruction that retires after some messages has no place, the place of a later
/// message, or that of a live Read or early Bypass that those messages leave to its hart.
pub fn later_places_are_open_or_new()
    ensures { PlacesOfLater }
{}
