//! Laws of memory and of captures: functions that do nothing, whose clauses are the laws.

ghost use Rattle.window_laws.specs.CaptureLaws.{CapturesAreTaken, CapturesStay};
ghost use Rattle.window_laws.specs.CaptureLaws.{MemoryGains, MemoryStarts, MemoryStays};

/// A capture stays what the stores before its place left, under each growth of a well-kinded trace whose
/// stores aren't performed before that place.
pub fn captures_go_on()
    ensures { CapturesStay }
{}

/// A capture of memory stands for the trace at each place that comes after all stores that were performed.
pub fn captures_are_taken()
    ensures { CapturesAreTaken }
{}

/// Memory that nothing was stored to stands for the trace of nothing.
pub fn memory_starts()
    ensures { MemoryStarts }
{}

/// Memory stands for the trace as before where nothing changes, and where an instruction retires: an AMO
/// or SC was performed before that.
pub fn memory_stays()
    ensures { MemoryStays }
{}

/// Where a store is performed, early or as a part of a message, memory with its bytes stored stands for
/// the longer trace.
pub fn memory_gains()
    ensures { MemoryGains }
{}
