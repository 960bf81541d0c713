//! Laws of the faults of memory order: functions that do nothing, whose clauses are the laws.

ghost use Rattle.order_laws.specs.FaultLaws.{EndBreaksNothing, FaultlessIsLegal};
ghost use Rattle.order_laws.specs.FaultLaws.{OrderFaultIsLast, OrderFaultsHavePlaces, OthersBreakNothing};

/// The fault of memory order at a message that matches is what the memory model names in the trace then:
/// the first of a wrong byte of the instruction that retires, a broken pair of the whole trace, and the
/// pair of an SC that retires.
pub fn order_fault_is_the_first()
    ensures { OrderFaultIsLast }
{}

/// No message has a fault exactly where all match and the order of all is legal. So judging each message
/// when it comes, and judging all at the end, accept the same lists.
pub fn faultless_is_legal()
    ensures { FaultlessIsLegal }
{}

/// Place of the fault: a message that matches, after messages without a fault, leaves the order legal
/// exactly where it has no fault of memory order. It breaks a pair only where it retires an instruction,
/// and then the second operation is of that instruction; or where it performs stores that had retired,
/// and then the least rule that is broken is of same address, fence or release, the second operation is
/// performed by the message, and the first is of a plain store and comes after it.
pub fn order_faults_have_places()
    ensures { OrderFaultsHavePlaces }
{}

/// An End has no fault of memory order where no message before it has a fault.
pub fn end_breaks_nothing()
    ensures { EndBreaksNothing }
{}

/// A message that matches, after messages without a fault, has no fault of memory order unless it retires an
/// instruction that loads or an SC that stored, or performs stores of instructions that retired.
pub fn others_break_nothing()
    ensures { OthersBreakNothing }
{}
