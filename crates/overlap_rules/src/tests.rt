//! Small streams of hart 0, each with an operation that was performed too early or just in time. X is
//! 0x80001000, and a place is the number of its message.

use crate::Asked;
use kept_ops::{Kept, KeptOp};
use msg_frames::Piece;
use rvwmo_model::OpKind;
use std::alloc::Global;
use std::test::Fail;
use store_buffer::{StoreMarks, Stores};
use tandem_base::{Bytes8, Extent, Mark, OpName, Origin, Position};
use window_laws::ByteSource;

const X: u64 = 0x8000_1000;

fn place(message: u32) -> Position {
    Position {
        message,
        insert: message,
    }
}

fn name(tag: u64, part: u8) -> OpName {
    OpName { hart: 0, tag, part }
}

fn written_by(hart: u8, tag: u64) -> Option<Origin> {
    Some(Origin { hart, tag })
}

/// A part of an operation of hart 0 on the four bytes at X.
#[derive(Clone, Copy)]
struct Told {
    name: OpName,
    mask: u8,
    message: u32,
    kind: OpKind,
    source: Option<Origin>,
}

/// An operation with all four bytes.
fn op(tag: u64, message: u32, kind: OpKind, source: Option<Origin>) -> Told {
    Told {
        name: name(tag, 0),
        mask: 0xf,
        message,
        kind,
        source,
    }
}

/// A part of a store.
fn part(tag: u64, part: u8, mask: u8, message: u32) -> Told {
    Told {
        name: name(tag, part),
        mask,
        message,
        kind: OpKind::Store,
        source: None,
    }
}

/// The operation of instruction 1, at message 9, on which each store depends.
fn lead() -> Mark {
    Mark {
        name: name(1, 0),
        place: place(9),
    }
}

/// The operation as it is kept.
fn made(told: &Told) -> Result<KeptOp, Fail> {
    Ok(KeptOp {
        name: told.name,
        place: place(told.message),
        kind: told.kind,
        extent: Extent::new(X, 4).ok_or("no extent")?,
        mask: told.mask,
        put: Bytes8::new(&[0, 0, 0, 0]).ok_or("no bytes")?,
        atomic: told.kind == OpKind::Both,
        sources: [told.source; 8],
        lead: Some(lead()),
    })
}

/// The stores of hart 0, where the four bytes at X wait under a tag.
fn waits(alloc: Global, tag: Option<u64>) -> Result<Stores, Fail> {
    let mut stores = Stores::new(alloc, 0, 2)?;
    let marks = StoreMarks {
        fence: None,
        release: false,
        lead: Some(lead()),
    };
    let bytes = Bytes8::new(&[0, 0, 0, 0]).ok_or("no bytes")?;
    if let Some(tag) = tag {
        stores.retire(tag, &Piece { addr: X, bytes }, &marks);
    }
    Ok(stores)
}

/// What is kept, where these operations were performed.
fn keeps(alloc: Global, told: &[Told]) -> Result<Kept, Fail> {
    let mut kept = Kept::new(alloc, 4)?;
    for told in told {
        kept.keep(&made(told)?);
    }
    Ok(kept)
}

/// A rule.
#[derive(Clone, Copy)]
enum By {
    Overlap,
    Load,
    Atomic,
    Lead,
}

/// The first operation by a rule, where each byte of the operation comes from one writer at a place.
fn answer(
    by: By,
    fresh: &KeptOp,
    from: Option<Position>,
    stores: &Stores,
    kept: &Kept,
) -> Option<OpName> {
    let source = ByteSource {
        writer: fresh.sources[0],
        place: from,
        byte: 0,
    };
    let sources = [source; 8];
    let asked = Asked {
        fresh,
        sources: &sources,
        stores,
        kept,
    };
    match by {
        By::Overlap => asked.first_by_overlap(),
        By::Load => asked.first_by_load(),
        By::Atomic => asked.first_by_atomic(),
        By::Lead => asked.first_by_lead(),
    }
}

/// The same, with what stands before: the tag of a store that waits, and what was performed.
fn first(
    alloc: Global,
    by: By,
    waiting: Option<u64>,
    before: &[Told],
    fresh: Told,
    from: Option<Position>,
) -> Result<Option<OpName>, Fail> {
    let stores = waits(alloc, waiting)?;
    let kept = keeps(alloc, before)?;
    Ok(answer(by, &made(&fresh)?, from, &stores, &kept))
}

#[test]
fn a_load_before_one_of_another_source(rt: HostRuntime) -> Result<(), Fail> {
    let before = [op(1, 10, OpKind::Load, None), op(2, 12, OpKind::Load, None)];
    let far = written_by(1, 5);
    for (message, source, wanted) in [
        (8, far, Some(name(2, 0))),
        (8, None, None),
        (12, far, None),
    ] {
        let fresh = op(4, message, OpKind::Load, source);
        let found = first(rt.alloc(), By::Load, None, &before, fresh, Some(place(7)))?;
        assert_eq!(rt; found, wanted);
    }
    Ok(())
}

#[test]
fn a_load_of_what_an_amo_wrote(rt: HostRuntime) -> Result<(), Fail> {
    let fresh = op(2, 8, OpKind::Load, written_by(0, 1));
    for (kind, from, wanted) in [
        (OpKind::Both, Some(place(10)), Some(name(1, 0))),
        (OpKind::Both, None, None),
        (OpKind::Store, Some(place(10)), None),
    ] {
        let before = [op(1, 10, kind, None)];
        let found = first(rt.alloc(), By::Atomic, None, &before, fresh, from)?;
        assert_eq!(rt; found, wanted);
    }
    Ok(())
}

#[test]
fn a_load_of_what_depends_on_a_later_load(rt: HostRuntime) -> Result<(), Fail> {
    let before = [op(3, 10, OpKind::Store, None)];
    for (message, writer, from, wanted) in [
        (8, 2, None, Some(name(1, 0))),
        (8, 3, Some(place(10)), Some(name(1, 0))),
        (9, 2, None, None),
    ] {
        let fresh = op(4, message, OpKind::Load, written_by(0, writer));
        let found = first(rt.alloc(), By::Lead, Some(2), &before, fresh, from)?;
        assert_eq!(rt; found, wanted);
    }
    Ok(())
}

#[test]
fn an_amo_before_parts_of_a_store(rt: HostRuntime) -> Result<(), Fail> {
    let parts = [part(1, 0, 0x3, 10), part(1, 2, 0xc, 12)];
    for (count, message, waiting, wanted) in [
        (1, 8, None, Some(name(1, 0))),
        (2, 8, None, Some(name(1, 2))),
        (2, 12, None, None),
        (2, 8, Some(3), Some(name(3, 0))),
    ] {
        let fresh = op(4, message, OpKind::Both, None);
        let found = first(
            rt.alloc(),
            By::Overlap,
            waiting,
            &parts[..count],
            fresh,
            None,
        )?;
        assert_eq!(rt; found, wanted);
    }
    Ok(())
}

#[test]
fn a_store_between_two_loads(rt: HostRuntime) -> Result<(), Fail> {
    let far = made(&op(4, 8, OpKind::Load, written_by(1, 5)))?;
    let none = waits(rt.alloc(), None)?;
    let mut kept = keeps(rt.alloc(), &[op(1, 10, OpKind::Load, None)])?;
    kept.store_retires(&far.extent);
    assert_eq!(rt; answer(By::Load, &far, Some(place(7)), &none, &kept), None);
    Ok(())
}
