//! Loads of worked streams: X is 0x80001000, and a place is the number of its message.

ghost use Rattle.std.specs.Prelude.{◌<◌};

use crate::source;
use byte_memory::{Capture, Writer};
use kept_ops::{Kept, KeptOp};
use msg_frames::Piece;
use rvwmo_model::OpKind;
use std::alloc::Global;
use std::test::Fail;
use store_buffer::{StoreMarks, Stores};
use tandem_base::{Bytes8, Extent, OpName, Origin, Position};
use window_laws::ByteSource;

const X: u64 = 0x8000_1000;

fn place(message: u32, insert: u32) -> Position {
    Position { message, insert }
}

/// The source of byte `k` from X up, for a report at message 7 that saw one value, by one last writer or
/// none, in the first four bytes of the doubleword at X, and zeros behind them.
fn source_at(stores: &Stores, kept: &Kept, value: u8, last: Option<Writer>, k: u64) -> ByteSource
    requires { k < 8 }
{
    let capture = Capture {
        place: place(7, 7),
        base: X,
        values: [value, value, value, value, 0, 0, 0, 0],
        last: [last, last, last, last, None, None, None, None],
    };
    source(&capture, stores, kept, X + k)
}

/// A store of 5, 6, 7 and 8 at X of hart 0 that was drained from Insert 9 by message 10.
fn drained(tag: u64) -> Result<KeptOp, Fail> {
    Ok(KeptOp {
        name: OpName {
            hart: 0,
            tag,
            part: 0,
        },
        place: place(10, 9),
        kind: OpKind::Store,
        extent: Extent::new(X, 4).ok_or("no extent")?,
        mask: 0xf,
        put: Bytes8::new(&[5, 6, 7, 8]).ok_or("no bytes")?,
        atomic: false,
        sources: [None; 8],
        lead: None,
    })
}

/// The stores of hart 0, where one of 1, 2, 3 and 4 at X waits under a tag.
fn waits(alloc: Global, tag: Option<u64>) -> Result<Stores, Fail> {
    let mut stores = Stores::new(alloc, 0, 2)?;
    let marks = StoreMarks {
        fence: None,
        release: false,
        lead: None,
    };
    let bytes = Bytes8::new(&[1, 2, 3, 4]).ok_or("no bytes")?;
    if let Some(tag) = tag {
        stores.retire(tag, &Piece { addr: X, bytes }, &marks);
    }
    Ok(stores)
}

/// What is kept, where the store of a tag was drained.
fn keeps(alloc: Global, tag: Option<u64>) -> Result<Kept, Fail> {
    let mut kept = Kept::new(alloc, 2)?;
    if let Some(tag) = tag {
        kept.keep(&drained(tag)?);
    }
    Ok(kept)
}

fn from(hart: u8, tag: u64, place: Option<Position>, byte: u8) -> ByteSource {
    ByteSource {
        writer: Some(Origin { hart, tag }),
        place,
        byte,
    }
}

/// The source of byte `k` from X up, where a store waits and one was drained, and the report saw this value by
/// this writer.
fn chosen(
    alloc: Global,
    waiting: Option<u64>,
    done: Option<u64>,
    saw: (u8, Option<Writer>),
    k: u64,
) -> Result<ByteSource, Fail>
    requires { k < 8 }
{
    let kept = keeps(alloc, done)?;
    let stores = waits(alloc, waiting)?;
    Ok(source_at(&stores, &kept, saw.0, saw.1, k))
}

#[test]
fn a_store_that_waits_is_forwarded(rt: HostRuntime) -> Result<(), Fail> {
    let alone = chosen(rt.alloc(), Some(1), None, (0, None), 0)?;
    assert_eq!(rt; alone, from(0, 1, None, 1));
    let later = chosen(rt.alloc(), Some(2), Some(1), (0, None), 0)?;
    assert_eq!(rt; later, from(0, 2, None, 1));
    let kept = chosen(rt.alloc(), None, Some(1), (0, None), 2)?;
    assert_eq!(rt; kept, from(0, 1, Some(place(10, 9)), 7));
    Ok(())
}

#[test]
fn what_was_seen_is_read_where_no_own_store_is_later(rt: HostRuntime) -> Result<(), Fail> {
    let none = ByteSource {
        writer: None,
        place: None,
        byte: 0,
    };
    let other = Writer {
        hart: 1,
        tag: 4,
        place: place(6, 5),
    };
    let seen = (9, Some(other));
    assert_eq!(rt; chosen(rt.alloc(), None, None, (0, None), 3)?, none);
    assert_eq!(rt;
        chosen(rt.alloc(), None, None, seen, 3)?,
        from(1, 4, Some(place(6, 5)), 9)
    );
    assert_eq!(rt; chosen(rt.alloc(), None, None, seen, 4)?, none);
    Ok(())
}
