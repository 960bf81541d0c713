//! Runs over the parts that a message performs.

use crate::accesses::{BASE, piece, stored_at, tag};
use crate::line_parts::LineParts;
use crate::retiring::Retiring;
use drain_rules::{BrokenPair, check_drain, check_write};
use merge_buffer::Part;
use speed_runs::{Order, Run, Told, read, shuffled};
use std::alloc::{AllocError, Global};
use std::io;
use std::time::Instant;
use store_buffer::StoreMarks;
use tandem_base::Extent;

/// What the calls of a run answered: about one store that a Bypass performs while the others wait, or about
/// all stores, which a Write performs.
pub(crate) fn answers(rt: &HostRuntime, run: &Run) -> io::Result<Told> {
    if run.call == "write" {
        write(rt, run)
    } else {
        drain(rt, run)
    }
}

/// What is asked of the stores of an order: nothing; those from the tenth on come behind a FENCE of tag 17; or
/// all are releases.
fn marks(order: Order, k: u32) -> StoreMarks {
    StoreMarks {
        fence: if order == Order::Random && k > 8 {
            Some(17)
        } else {
            None
        },
        release: order == Order::Worst,
        lead: None,
    }
}

/// The part that is all of store `k`, where the stores are of the doublewords of one line.
fn line_part(order: Order, k: u32) -> Option<Part> {
    Some(Part {
        tag: tag(order, k),
        piece: piece(BASE + u64::from(k % 8) * 8)?,
        number: k,
    })
}

/// The part that is all of store `k`, where each is of the doubleword of the order.
fn part(order: Order, k: u32) -> Option<Part> {
    Some(Part {
        tag: tag(order, k),
        piece: piece(stored_at(order, k))?,
        number: k,
    })
}

/// Store `k`, of which this is a part, retires.
fn retires(stores: &mut Retiring, order: Order, k: u32, part: Option<Part>) {
    if let Some(part) = part {
        stores.retire(part.tag, &part.piece, &marks(order, k));
    }
}

/// All bytes of the store of a part are performed.
fn performs(stores: &mut Retiring, part: &Part) {
    if let Some(extent) = Extent::new(part.piece.addr, 8) {
        stores.perform(part.tag, &extent);
    }
}

/// A Bypass of the newest store, while the others wait.
fn write(rt: &HostRuntime, run: &Run) -> io::Result<Told> {
    let Some(last) = part(run.order, run.entries - 1) else {
        return Err(io::ErrorKind::InvalidInput.into());
    };
    let mut stores = Retiring::new(rt.alloc(), run.entries)?;
    for k in 0..run.entries {
        retires(&mut stores, run.order, k, part(run.order, k));
    }
    performs(&mut stores, &last);
    let start = Instant::now(rt)?;
    let mut sum: u64 = 0;
    for _ in 0..run.calls {
        sum = sum.wrapping_add(rule(check_write(0, &last, stores.stores())));
    }
    read(rt, &start, sum)
}

/// A Write of all stores.
fn drain(rt: &HostRuntime, run: &Run) -> io::Result<Told> {
    let parts = parts(rt.alloc(), run)?;
    let mut stores = Retiring::new(rt.alloc(), run.entries)?;
    for k in 0..run.entries {
        retires(&mut stores, run.order, k, line_part(run.order, k));
    }
    for part in parts.as_slice() {
        performs(&mut stores, part);
    }
    let start = Instant::now(rt)?;
    let mut sum: u64 = 0;
    for _ in 0..run.calls {
        sum = sum.wrapping_add(rule(check_drain(0, parts.as_slice(), stores.stores())));
    }
    read(rt, &start, sum)
}

/// The parts of a Write, the last performed first: in their order, in any, or the other way round.
fn parts(alloc: Global, run: &Run) -> Result<LineParts, AllocError> {
    let mut parts = LineParts::new(alloc);
    let block = match run.order {
        Order::Random => run.entries,
        Order::Quiet | Order::Worst => 1,
    };
    for number in &shuffled(alloc, block, run.entries)? {
        let k = (*number % u64::from(run.entries)) as u32;
        let at = match run.order {
            Order::Worst => k,
            Order::Quiet | Order::Random => run.entries - 1 - k,
        };
        if let Some(part) = line_part(run.order, at) {
            parts.add(&part)?;
        }
    }
    Ok(parts)
}

/// The rule of a broken pair, 0 where there is none.
fn rule(broken: Option<BrokenPair>) -> u64 {
    match broken {
        None => 0,
        Some(pair) => u64::from(pair.rule),
    }
}
