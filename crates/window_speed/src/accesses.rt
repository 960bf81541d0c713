//! The accesses of a run: doublewords of one hart, one after the other.

ghost use Rattle.std.specs.Prelude.{◌≡◌, ◌<◌, ◌+◌, ◌≤◌, ◌^◌};

use crate::retiring::Retiring;
use kept_ops::{Kept, KeptOp};
use msg_frames::Piece;
use rvwmo_model::OpKind;
use speed_runs::{Order, Run};
use std::alloc::{AllocError, Global};
use store_buffer::StoreMarks;
use tandem_base::{Bytes8, Extent, OpName, Position, Took};

/// Where the doublewords begin.
pub const BASE: u64 = 0x8000_1000;

/// Above all tags of a run.
const HIGH: u64 = 1 << 63;

/// What the rules ask of a store that is after no FENCE.
pub const PLAIN: StoreMarks = StoreMarks {
    fence: None,
    release: false,
    lead: None,
};

/// A doubleword.
pub(crate) fn doubleword(number: u32) -> u64
    ensures { result + 64 ≤ 2 ^ 64 }
{
    BASE + u64::from(number) * 8
}

/// The doubleword that store `k` of an order is of: in the worst order they are all of one.
pub(crate) fn stored_at(order: Order, k: u32) -> u64
    ensures { result + 64 ≤ 2 ^ 64 }
{
    match order {
        Order::Worst => BASE,
        Order::Quiet | Order::Random => doubleword(k % 65536),
    }
}

/// The tag of store `k` of an order. They rise: they are even, and in the worst order a tree of their bits is
/// deep.
pub(crate) fn tag(order: Order, k: u32) -> u64 {
    match order {
        Order::Quiet | Order::Random => 2 * u64::from(k),
        Order::Worst => {
            if k < 40 {
                HIGH - (HIGH >> k)
            } else {
                HIGH - (HIGH >> 40) + u64::from(k - 40)
            }
        }
    }
}

/// Eight bytes at an address.
pub(crate) fn piece(addr: u64) -> Option<Piece> {
    Some(Piece {
        addr,
        bytes: Bytes8::new(&[1, 2, 3, 4, 5, 6, 7, 8])?,
    })
}

/// The place of a message.
pub(crate) fn place(message: u32) -> Position {
    Position {
        message,
        insert: message,
    }
}

/// A name of hart 0.
pub(crate) fn name(tag: u64) -> OpName {
    OpName {
        hart: 0,
        tag,
        part: 0,
    }
}

/// An operation on eight bytes, performed at a place.
pub(crate) fn operation(kind: OpKind, addr: u64, message: u32) -> Option<KeptOp> {
    Some(KeptOp {
        name: name(u64::from(message)),
        place: place(message),
        kind,
        extent: Extent::new(addr, 8)?,
        mask: 0xff,
        put: Bytes8::new(&[1, 2, 3, 4, 5, 6, 7, 8])?,
        atomic: false,
        sources: [None; 8],
        lead: None,
    })
}

/// Stores that wait, as many as a run has entries.
pub(crate) fn waiting(alloc: Global, run: &Run) -> Result<Retiring, AllocError> {
    let mut stores = Retiring::new(alloc, run.entries)?;
    for k in 0..run.entries {
        retires(&mut stores, run.order, k);
    }
    Ok(stores)
}

/// Store `k` of an order retires: 1 where there was room.
pub(crate) fn retires(stores: &mut Retiring, order: Order, k: u32) -> u64 {
    match piece(stored_at(order, k)) {
        None => 0,
        Some(piece) => taken(stores.retire(tag(order, k), &piece, &PLAIN)),
    }
}

/// 1 where there was room.
fn taken(took: Option<Took>) -> u64 {
    if took == Some(Took::Yes) { 1 } else { 0 }
}

/// Kept operations, as many as a run has entries: loads and stores in turn, of the doublewords that the
/// stores of the order are of.
pub(crate) fn kept(alloc: Global, run: &Run) -> Result<Kept, AllocError> {
    let mut kept = Kept::new(alloc, run.entries)?;
    for k in 0..run.entries {
        let kind = if k % 2 == 0 {
            OpKind::Load
        } else {
            OpKind::Store
        };
        if let Some(op) = operation(kind, stored_at(run.order, k), k) {
            kept.keep(&op);
        }
    }
    Ok(kept)
}
