//! What is found of a byte, as marks.

ghost use Rattle.std.specs.Prelude.{◌≡◌, option_copied};
ghost use Rattle.overlap_rules.specs.Answers.{atomic_op, entry_lead, found_op, kept_lead};
ghost use Rattle.overlap_rules.specs.Found.{found_over, later_found};

use kept_ops::KeptOp;
use store_buffer::Entry;
use tandem_base::{Mark, Position};

/// The later of two.
pub fn later_of(one: Option<Mark>, other: Option<Mark>) -> Option<Mark>
    ensures { result ≡ later_found one other }
{
    match (one, other) {
        (None, _) => other,
        (Some(_), None) => one,
        (Some(m), Some(n)) => {
            if m.place.is_before(&n.place) {
                other
            } else {
                one
            }
        }
    }
}

/// A mark, where it comes after a place.
pub fn over(mark: Option<Mark>, place: Position) -> Option<Mark>
    ensures { result ≡ found_over place mark }
{
    match mark {
        None => None,
        Some(m) => {
            if place.is_before(&m.place) {
                mark
            } else {
                None
            }
        }
    }
}

/// A kept operation.
pub fn of_kept(op: Option<&KeptOp>) -> Option<Mark>
    ensures { result ≡ found_op (option_copied op.entry) }
{
    match op {
        None => None,
        Some(op) => Some(Mark {
            name: op.name,
            place: op.place,
        }),
    }
}

/// A kept operation, where it is of an SC or AMO.
pub fn of_atomic(op: Option<&KeptOp>) -> Option<Mark>
    ensures { result ≡ atomic_op (option_copied op.entry) }
{
    match op {
        None => None,
        Some(op) => {
            if op.atomic {
                Some(Mark {
                    name: op.name,
                    place: op.place,
                })
            } else {
                None
            }
        }
    }
}

/// What a kept store depends on.
pub fn lead_of_kept(op: Option<&KeptOp>) -> Option<Mark>
    ensures { result ≡ kept_lead (option_copied op.entry) }
{
    match op {
        None => None,
        Some(op) => op.lead,
    }
}

/// What a store that waits depends on.
pub fn lead_of_waiting(store: Option<&Entry>) -> Option<Mark>
    ensures { result ≡ entry_lead (option_copied store.entry) }
{
    match store {
        None => None,
        Some(store) => store.marks.lead,
    }
}
