//! What the marks of a byte are, told by the operations that are kept: laws, with nothing to do.

ghost use Rattle.std.specs.Prelude.{ℕ, Bool, List, Option, []};
ghost use Rattle.std.specs.List.{filter};
ghost use Rattle.tandem_base.specs.declared.extent.Extent.{Extent};
ghost use Rattle.tandem_base.specs.declared.names.Origin.{Origin};
ghost use Rattle.tandem_base.specs.declared.names.Position.{Position};
ghost use Rattle.kept_ops.specs.declared.operation.KeptOp.{KeptOp};
ghost use Rattle.kept_ops.specs.Marks.{AreLatest, ByteMarks, IsLatestThat, marks_closed, marks_staying, marks_with};
ghost use Rattle.kept_ops.specs.Marks.{loads_from_elsewhere, no_marks, other_than, over, passes_over, since_closed};
ghost use Rattle.kept_ops.specs.Tables.{IsWith, op_stays};

/// An empty table has the marks of a byte right.
#[tactic(auto, using(crate::proofs::LatestLeft::latest_of_none))]
pub fn nothing_is_marked_at_first()
    ensures { (x : ℕ) → AreLatest x [] [] no_marks }
{}

/// The latest operations are still marked once one more is kept, wherever its place is.
pub fn marks_stay_the_latest_when_one_is_kept()
    ensures { (x : ℕ) → (o : KeptOp) → (ops more since longer : List KeptOp) → (marks : ByteMarks) → IsWith o ops more
        → IsWith o since longer → AreLatest x ops since marks → AreLatest x more longer (marks_with x o marks) }
{}

/// They are still marked once those up to a place were let go, so no mark that may be asked for is lost.
pub fn marks_stay_the_latest_when_early_ones_go()
    ensures { (oldest : Option Position) → (x : ℕ) → (ops since : List KeptOp) → (marks : ByteMarks)
        → AreLatest x ops since marks
        → AreLatest x (filter (op_stays oldest) ops) (filter (op_stays oldest) since) (marks_staying oldest marks) }
{}

/// A store that retires leaves no load of its bytes to be marked.
pub fn marks_stay_the_latest_when_a_store_retires()
    ensures { (extent : Extent) → (x : ℕ) → (ops since : List KeptOp) → (marks : ByteMarks)
        → AreLatest x ops since marks
        → AreLatest x ops (since_closed extent x since) (marks_closed extent x marks) }
{}

/// The mark over a place is the latest operation over it.
pub fn a_mark_over_a_place_is_the_latest_there()
    ensures { (test : KeptOp → Bool) → (ops : List KeptOp) → (place : Position) → (mark : Option KeptOp)
        → IsLatestThat test ops mark → IsLatestThat (passes_over test place) ops (over place mark) }
{}

/// Two loads tell, for each source, the latest load that has another one.
pub fn two_loads_tell_the_latest_from_elsewhere()
    ensures { (x : ℕ) → (ops since : List KeptOp) → (marks : ByteMarks) → (source : Option Origin)
        → AreLatest x ops since marks
        → IsLatestThat (loads_from_elsewhere x source) since (other_than x source marks.load marks.other) }
{}
