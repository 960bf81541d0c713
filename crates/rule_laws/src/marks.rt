//! Laws of the marks of a hart: functions that do nothing, whose clauses are the laws.

ghost use Rattle.rule_laws.specs.AnswerLaws.{ByteAnswers, MarksReach, RunningAnswers, WaitingByTag};
ghost use Rattle.rule_laws.specs.ByteMarkLaws.{TwoMarksGoOn};
ghost use Rattle.rule_laws.specs.OpenLrs.{OpenLrGoesOn};
ghost use Rattle.rule_laws.specs.RunningLaws.{FencedMarks, FencesByTag, MarksStart, RunningMarks};

/// Where an instruction retires, the marks and sources of the bytes of an operation of it answer rules
/// 1, 2, 3 and 12: they give the latest first operation of a broken pair, and none where none is broken.
pub fn bytes_answer()
    ensures { ByteAnswers }
{}

/// The running marks of its hart answer rules 4 to 7 in the same way.
pub fn running_marks_answer()
    ensures { RunningAnswers }
{}

/// Marks that are known only after the oldest place that still matters answer all that is asked after
/// later ones, so stale marks may be left.
pub fn marks_reach()
    ensures { MarksReach }
{}

/// In the trace of nothing there is no mark.
pub fn marks_start()
    ensures { MarksStart }
{}

/// What becomes of the mark of the latest performed operation that passes a test, under each growth.
pub fn running_marks_go_on()
    ensures { RunningMarks }
{}

/// What becomes of the mark of the latest performed operation that a FENCE of an order is after, under
/// each growth.
pub fn fenced_marks_go_on()
    ensures { FencedMarks }
{}

/// Whether a FENCE of an order is after an instruction is told by the tag of the latest such FENCE.
pub fn fences_are_told_by_tag()
    ensures { FencesByTag }
{}

/// What becomes of the two marks of a byte of a hart under each growth, stale ones left where they are.
pub fn byte_marks_go_on()
    ensures { TwoMarksGoOn }
{}

/// What becomes of the open LR of a hart under each growth.
pub fn open_lr_goes_on()
    ensures { OpenLrGoesOn }
{}

/// Of what waits of a hart the latest is the store of the greatest tag.
pub fn waiting_is_by_tag()
    ensures { WaitingByTag }
{}
