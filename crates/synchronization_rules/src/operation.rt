//! Performed operations, and marks of them.

ghost use Rattle.std.specs.Prelude.{◌≡◌};
ghost use Rattle.std.specs.Option.{option_map};
ghost use Rattle.rvwmo_model.specs.Annotations;
ghost use Rattle.synchronization_rules.specs.Marks.{later_with, later_of_marks, op_mark, named_past, raised};

use rvwmo_model::{Ann, OpKind};
use tandem_base::{Mark, OpName, Position};

/// A performed operation, as the marks of its hart are told of it.
#[derive(Clone, Copy)]
pub struct MarkedOp {
    /// Whether it loads, stores, or both.
    pub kind: OpKind,
    /// Its name.
    pub name: OpName,
    /// Where it was performed.
    pub place: Position,
    /// Its annotation as an acquire.
    pub acquire: Ann,
    /// Its annotation as a release.
    pub release: Ann,
}

/// Whether it is RCpc or RCsc.
fn is_annotated(ann: Ann) -> bool
    ensures { result ≡ Annotations.is_annotated ann }
{
    match ann {
        Ann::None => false,
        Ann::Rcpc => true,
        Ann::Rcsc => true,
    }
}

fn is_rcsc(ann: Ann) -> bool
    ensures { result ≡ Annotations.is_rcsc ann }
{
    match ann {
        Ann::None => false,
        Ann::Rcpc => false,
        Ann::Rcsc => true,
    }
}

impl MarkedOp {
    ghost use Rattle.std.specs.Prelude.{◌≡◌, ◌||◌};
    ghost use Rattle.rvwmo_model.specs.Order.{kind_loads, kind_stores};
    ghost use Rattle.synchronization_rules.specs.Marks.{is_rcsc_op, op_mark};

    /// Whether it loads.
    pub(crate) fn loads(&self) -> bool
        ensures { result ≡ kind_loads self.now.kind }
    {
        matches!(self.kind, OpKind::Load | OpKind::Both)
    }

    /// Whether it stores.
    pub(crate) fn stores(&self) -> bool
        ensures { result ≡ kind_stores self.now.kind }
    {
        matches!(self.kind, OpKind::Store | OpKind::Both)
    }

    /// Whether it has an acquire annotation.
    pub(crate) fn acquires(&self) -> bool
        ensures { result ≡ Annotations.is_annotated self.now.acquire }
    {
        is_annotated(self.acquire)
    }

    /// Whether it has a release annotation.
    pub(crate) fn releases(&self) -> bool
        ensures { result ≡ Annotations.is_annotated self.now.release }
    {
        is_annotated(self.release)
    }

    /// Whether it has an RCsc annotation.
    pub(crate) fn is_rcsc(&self) -> bool
        ensures { result ≡ is_rcsc_op self.now }
    {
        is_rcsc(self.acquire) || is_rcsc(self.release)
    }

    /// Its mark.
    pub(crate) fn mark(&self) -> Mark
        ensures { result ≡ op_mark self.now }
    {
        Mark {
            name: self.name,
            place: self.place,
        }
    }
}

/// The later of two marks.
pub fn later(mark: Option<Mark>, other: Mark) -> Option<Mark>
    ensures { result ≡ later_with mark other }
{
    match mark {
        None => Some(other),
        Some(m) => {
            if m.place.is_before(&other.place) {
                Some(other)
            } else {
                Some(m)
            }
        }
    }
}

/// The later of two, where they are there.
pub fn later_of(mark: Option<Mark>, other: Option<Mark>) -> Option<Mark>
    ensures { result ≡ later_of_marks mark other }
{
    match other {
        None => mark,
        Some(other) => later(mark, other),
    }
}

/// Sets a mark to the later of it and that of an operation, where the operation counts.
pub fn raise(mark: &mut Option<Mark>, counts: bool, op: &MarkedOp)
    ensures { mark.new ≡ raised counts mark.old (op_mark op.now) }
{
    if counts {
        *mark = later(*mark, op.mark());
    }
}

/// The name of a mark that comes after a place.
pub fn name_after(mark: Option<Mark>, place: Position) -> Option<OpName>
    ensures { result ≡ named_past place mark }
{
    match mark {
        Some(mark) if place.is_before(&mark.place) => Some(mark.name),
        _ => None,
    }
}
