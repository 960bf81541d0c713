//! Worked streams, as the table of one hart sees them: X is 0x80001000. A place is the number of its message.

use kept_ops::{Kept, KeptOp};
use rvwmo_model::OpKind;
use std::alloc::{AllocError, Global};
use std::test::Fail;
use tandem_base::{Bytes8, Extent, Mark, OpName, Origin, Position, Took};

const X: u64 = 0x8000_1000;

fn place(message: u32) -> Position {
    Position {
        message,
        insert: message,
    }
}

fn origin(hart: u8, tag: u64) -> Option<Origin> {
    Some(Origin { hart, tag })
}

fn name(tag: u64) -> OpName {
    OpName {
        hart: 0,
        tag,
        part: 0,
    }
}

/// An operation of four bytes of hart 0, which loads from the source and stores 1.
fn op(kind: OpKind, tag: u64, addr: u64, at: Position, source: Option<Origin>) -> Option<KeptOp> {
    Some(KeptOp {
        name: name(tag),
        place: at,
        kind,
        extent: Extent::new(addr, 4)?,
        mask: 0xf,
        put: Bytes8::new(&[1, 0, 0, 0])?,
        atomic: kind == OpKind::Both,
        sources: [source; 8],
        lead: None,
    })
}

/// Keeps a load of four bytes, performed at a message.
fn load(kept: &mut Kept, tag: u64, addr: u64, at: u32, source: Option<Origin>) -> Option<Took> {
    Some(kept.keep(&op(OpKind::Load, tag, addr, place(at), source)?))
}

/// Keeps a store of four bytes.
fn store(kept: &mut Kept, tag: u64, addr: u64, at: Position) -> Option<Took> {
    Some(kept.keep(&op(OpKind::Store, tag, addr, at, None)?))
}

/// A store of four bytes retires.
fn retire_store(kept: &mut Kept, addr: u64) {
    if let Some(extent) = Extent::new(addr, 4) {
        kept.store_retires(&extent);
    }
}

/// How many are left where those up to the place of a message are dropped.
fn left(kept: &mut Kept, oldest: u32) -> usize {
    kept.prune(Some(place(oldest)));
    kept.count()
}

/// The tags of what is found of a byte above the place of a message: the latest store, the latest load, and
/// the latest load from elsewhere than the source.
fn found(
    kept: &Kept,
    addr: u64,
    message: u32,
    source: Option<Origin>,
) -> (Option<u64>, Option<u64>, Option<u64>) {
    let after = place(message);
    let store = kept.store_over(addr, after);
    let load = kept.load_over(addr, after);
    let other = kept.other_load_over(addr, source, after);
    (
        store.map(|op| op.name.tag),
        load.map(|op| op.name.tag),
        other.map(|op| op.name.tag),
    )
}

/// A table in which loads from 1, 2 and 1 of the same bytes were kept, out of the order of their places.
fn three_loads(alloc: Global) -> Result<Kept, AllocError> {
    let mut kept = Kept::new(alloc, 4)?;
    load(&mut kept, 1, X + 6, 20, origin(1, 1));
    load(&mut kept, 2, X + 6, 12, origin(1, 2));
    load(&mut kept, 3, X + 6, 16, origin(1, 1));
    Ok(kept)
}

#[test]
fn a_full_table_takes_no_more(rt: HostRuntime) -> Result<(), Fail> {
    let mut kept = Kept::new(rt.alloc(), 2)?;
    assert_eq!(rt; load(&mut kept, 1, X, 10, None), Some(Took::Yes));
    assert_eq!(rt; load(&mut kept, 2, X + 64, 11, None), Some(Took::Yes));
    assert_eq!(rt; load(&mut kept, 3, X, 12, None), Some(Took::Full(2)));
    assert_eq!(rt; kept.count(), 2);
    assert_eq!(rt; found(&kept, X, 0, origin(0, 9)), (None, Some(1), Some(1)));
    assert_eq!(rt; left(&mut kept, 10), 1);
    assert_eq!(rt; load(&mut kept, 4, X, 13, None), Some(Took::Yes));
    assert!(rt; Kept::new(rt.alloc(), 0x8000_0000).is_err());
    Ok(())
}

#[test]
fn loads_of_passed_messages_and_of_replays(rt: HostRuntime) -> Result<(), Fail> {
    let mut kept = Kept::new(rt.alloc(), 4)?;
    load(&mut kept, 1, X + 64, 14, origin(0, 2));
    assert_eq!(rt; left(&mut kept, 15), 0);
    assert_eq!(rt; load(&mut kept, 1, X, 14, origin(0, 1)), Some(Took::Yes));
    assert_eq!(rt; found(&kept, X, 10, None), (None, Some(1), Some(1)));
    assert_eq!(rt; found(&kept, X, 10, origin(0, 1)), (None, Some(1), None));
    assert_eq!(rt; found(&kept, X, 14, None), (None, None, None));
    assert_eq!(rt; left(&mut kept, 14), 0);
    assert_eq!(rt; found(&kept, X, 10, None), (None, None, None));
    Ok(())
}

#[test]
fn an_sc_and_an_amo_after_a_store_after_an_lr(rt: HostRuntime) -> Result<(), Fail> {
    let mut kept = Kept::new(rt.alloc(), 4)?;
    load(&mut kept, 1, X, 10, None);
    retire_store(&mut kept, X);
    assert_eq!(rt; found(&kept, X, 5, origin(0, 2)), (None, None, None));
    store(&mut kept, 2, X, place(15));
    retire_store(&mut kept, X);
    if let Some(mut sc) = op(OpKind::Store, 3, X, place(16), None) {
        sc.atomic = true;
        sc.lead = Some(Mark {
            name: name(1),
            place: place(10),
        });
        kept.keep(&sc);
    }
    let last = kept.store_over(X, place(15));
    assert_eq!(rt; last.map(|op| op.atomic), Some(true));
    assert_eq!(rt; last.map(|op| op.put.len()), Some(4));
    assert!(rt; last.is_some_and(|op| op.lead.is_some()));
    retire_store(&mut kept, X);
    if let Some(amo) = op(OpKind::Both, 4, X, place(18), origin(0, 3)) {
        kept.keep(&amo);
    }
    assert_eq!(rt; found(&kept, X, 9, None), (Some(4), Some(4), Some(4)));
    assert_eq!(rt;
        found(&kept, X + 3, 17, origin(0, 3)),
        (Some(4), Some(4), None)
    );
    assert_eq!(rt; found(&kept, X + 4, 5, None), (None, None, None));
    Ok(())
}

#[test]
fn parts_of_one_write_are_told_apart_by_their_inserts(rt: HostRuntime) -> Result<(), Fail> {
    let mut kept = Kept::new(rt.alloc(), 4)?;
    let second = Position {
        message: 10,
        insert: 8,
    };
    let first = Position {
        message: 10,
        insert: 9,
    };
    store(&mut kept, 2, X, second);
    store(&mut kept, 1, X, first);
    let latest = kept.store_over(X, second);
    assert_eq!(rt; latest.map(|op| op.name.tag), Some(1));
    kept.prune(Some(second));
    assert_eq!(rt; kept.count(), 1);
    kept.prune(Some(first));
    assert!(rt; kept.store_over(X, place(0)).is_none());
    Ok(())
}

#[test]
fn the_latest_load_and_the_latest_of_another_source(rt: HostRuntime) -> Result<(), Fail> {
    let mut kept = three_loads(rt.alloc())?;
    assert_eq!(rt;
        found(&kept, X + 6, 5, origin(1, 1)),
        (None, Some(1), Some(2))
    );
    assert_eq!(rt;
        found(&kept, X + 9, 5, origin(1, 2)),
        (None, Some(1), Some(1))
    );
    assert_eq!(rt; left(&mut kept, 12), 2);
    assert_eq!(rt; found(&kept, X + 6, 5, origin(1, 1)), (None, Some(1), None));
    assert_eq!(rt; left(&mut kept, 16), 1);
    kept.prune(None);
    assert_eq!(rt; kept.count(), 0);
    assert_eq!(rt; found(&kept, X + 8, 5, None), (None, None, None));
    Ok(())
}

#[test]
fn a_store_ends_the_loads_of_its_bytes_alone(rt: HostRuntime) -> Result<(), Fail> {
    let mut kept = three_loads(rt.alloc())?;
    retire_store(&mut kept, X + 8);
    assert_eq!(rt; found(&kept, X + 7, 5, None), (None, Some(1), Some(1)));
    assert_eq!(rt; found(&kept, X + 8, 5, None), (None, None, None));
    store(&mut kept, 4, X + 4, place(30));
    assert_eq!(rt; found(&kept, X + 7, 5, None), (Some(4), Some(1), Some(1)));
    assert_eq!(rt; kept.count(), 4);
    Ok(())
}
