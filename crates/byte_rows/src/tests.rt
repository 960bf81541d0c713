//! Slots that enter and leave a row of four.

ghost use Rattle.std.specs.Prelude.{◌≡◌};

use crate::{SlotRow, Waiter};
use std::alloc::{AllocError, Global};
use std::test::Fail;

/// Slots 2, 0 and 3 wait, under tags 10, 20 and 30.
fn three(alloc: Global) -> Result<SlotRow, AllocError> {
    let mut row = SlotRow::new(alloc, 4)?;
    row.enter(waiter(10, 2));
    row.enter(waiter(20, 0));
    row.enter(waiter(30, 3));
    Ok(row)
}

/// A slot under a tag.
fn waiter(tag: u64, slot: usize) -> Waiter
    ensures { result ≡ record { tag = tag; slot = slot } }
{
    Waiter { tag, slot }
}

#[test]
fn an_empty_row_has_no_ends(rt: HostRuntime) -> Result<(), Fail> {
    let mut row = SlotRow::new(rt.alloc(), 4)?;
    row.leave(1);
    assert_eq!(rt;
        (row.newest(), row.oldest(), row.newest_below(5)),
        (None, None, None)
    );
    Ok(())
}

#[test]
fn the_ends_of_a_row_are_its_least_and_greatest_tags(rt: HostRuntime) -> Result<(), Fail> {
    let row = three(rt.alloc())?;
    assert_eq!(rt; row.newest(), Some(waiter(30, 3)));
    assert_eq!(rt; row.oldest(), Some(waiter(10, 2)));
    assert_eq!(rt; row.newest_below(31), Some(waiter(30, 3)));
    assert_eq!(rt; row.newest_below(30), Some(waiter(20, 0)));
    assert_eq!(rt; row.newest_below(11), Some(waiter(10, 2)));
    assert_eq!(rt; row.newest_below(10), None);
    Ok(())
}

#[test]
fn those_beside_one_that_leaves_are_linked(rt: HostRuntime) -> Result<(), Fail> {
    let mut row = three(rt.alloc())?;
    row.leave(0);
    row.leave(0);
    row.leave(9);
    assert_eq!(rt; row.newest_below(30), Some(waiter(10, 2)));
    row.leave(3);
    assert_eq!(rt;
        (row.newest(), row.oldest()),
        (Some(waiter(10, 2)), Some(waiter(10, 2)))
    );
    row.leave(2);
    assert_eq!(rt; (row.newest(), row.oldest()), (None, None));
    Ok(())
}
