//! What the marks of a hart stand for while a trace grows: laws, with nothing to do.

ghost use Rattle.synchronization_rules.specs.Laws.{HartMarksGoOn};

/// The marks of a hart stand for its operations and FENCEs through each growth, as `retire` and `performed`
/// make them.
pub fn hart_marks_go_on()
    ensures { HartMarksGoOn }
{}
