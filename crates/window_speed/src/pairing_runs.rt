//! Runs over the open LR of a hart.

use crate::accesses::{BASE, place};
use amo_pairing::{Pairing, Sc};
use byte_memory::{Capture, StoreCapture, Writer};
use speed_runs::{Order, Run, Told, read};
use std::io;
use std::time::Instant;
use tandem_base::{Extent, Origin};
use window_laws::ByteSource;

/// What the calls of a run answered: each an LR, bytes of a store that are performed, and an SC.
pub(crate) fn answers(rt: &HostRuntime, run: &Run) -> io::Result<Told> {
    let Some(extent) = Extent::new(BASE, 8) else {
        return Err(io::ErrorKind::InvalidInput.into());
    };
    let sources = [source(run.order); 8];
    let seen = seen(run.order);
    let mut pairing = Pairing::new();
    let start = Instant::now(rt)?;
    let mut sum: u64 = 0;
    for _ in 0..run.calls {
        pairing.lr(&extent, place(10), &sources);
        pairing.performed(1, &extent, place(12));
        sum = sum.wrapping_add(one(pairing.sc(0, &extent, &seen)));
    }
    read(rt, &start, sum)
}

/// The source of each byte of the LR: the initial value, or a store of the hart that waits.
fn source(order: Order) -> ByteSource {
    ByteSource {
        writer: match order {
            Order::Quiet => None,
            Order::Random | Order::Worst => Some(Origin { hart: 0, tag: 1 }),
        },
        place: None,
        byte: 0,
    }
}

/// What the SC saw: nothing was stored, or the store of the hart, or in the worst order behind it one of
/// another hart, to the last byte.
fn seen(order: Order) -> StoreCapture {
    let own = match order {
        Order::Quiet => None,
        Order::Random | Order::Worst => Some(writer(0, 12)),
    };
    let last = match order {
        Order::Worst => Some(writer(1, 15)),
        Order::Quiet | Order::Random => own,
    };
    StoreCapture {
        seen: Capture {
            place: place(20),
            base: BASE,
            values: [0; 8],
            last: [own, own, own, own, own, own, own, last],
        },
        other: [None; 8],
        foreign: None,
    }
}

/// A store under tag 1 of a hart, performed at a place.
fn writer(hart: u8, message: u32) -> Writer {
    Writer {
        hart,
        tag: 1,
        place: place(message),
    }
}

/// 1 where the two are atomic.
fn one(answer: Sc) -> u64 {
    if answer == Sc::Fine { 1 } else { 0 }
}
