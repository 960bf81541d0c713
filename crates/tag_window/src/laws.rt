//! Which Reads are live and which Bypasses are early: laws, with nothing to do.

ghost use Rattle.std.specs.Prelude.{List};
ghost use Rattle.std.specs.List.{Contains};
ghost use Rattle.tag_window.specs.declared.reports.Early.{Early};
ghost use Rattle.tag_window.specs.declared.reports.Read.{Read};
ghost use Rattle.tag_window.specs.Events.{Event, StaysEarly, StaysLive, early_after, live_after};
ghost use Rattle.tag_window.specs.Windows.{Tagged};

/// The list that the calls of a window leave, Reads, Bypasses, Squashes and Retires in any order, has
/// exactly the Reads after which no Squash of their tag or a lower one came, and no Retire of it or a
/// higher one.
pub fn live_reads_are_those_that_nothing_dropped()
    ensures kept { (events : List Event) → (r : Tagged Read) → Contains (live_after events) r → StaysLive events r }
    ensures live { (events : List Event) → (r : Tagged Read) → StaysLive events r → Contains (live_after events) r }
{}

/// And exactly the Bypasses after which their own instruction didn't retire; no Squash drops one.
pub fn early_bypasses_wait_for_their_retire()
    ensures kept { (events : List Event) → (b : Tagged Early) → Contains (early_after events) b
        → StaysEarly events b }
    ensures early { (events : List Event) → (b : Tagged Early) → StaysEarly events b
        → Contains (early_after events) b }
{}
