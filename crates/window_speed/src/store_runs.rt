//! Runs over the stores of a hart.

ghost use Rattle.std.specs.Prelude.{◌<◌, ◌≤◌, ◌+◌, ◌^◌};

use crate::accesses::{piece, retires, stored_at, tag};
use crate::retiring::Retiring;
use speed_runs::{Order, Run, Told, read, shuffled};
use std::alloc::{AllocError, Global};
use std::io;
use std::time::Instant;
use store_buffer::Taken;
use tandem_base::Extent;

/// What the calls of a run answered.
pub(crate) fn answers(rt: &HostRuntime, run: &Run) -> io::Result<Told> {
    let performed = performed(rt.alloc(), run)?;
    let mut stores = Retiring::new(rt.alloc(), run.entries)?;
    for k in 0..run.entries - 1 {
        retires(&mut stores, run.order, k);
    }
    let start = Instant::now(rt)?;
    let sum = walk(&mut stores, run, &performed);
    read(rt, &start, sum)
}

/// Which stores are performed, one after each that retires: the oldest; any one; or the newest, so that the
/// others stay.
fn performed(alloc: Global, run: &Run) -> Result<Vec<u64>, AllocError> {
    let mut numbers = Vec::with_capacity(alloc, run.calls as usize)?;
    let block = match run.order {
        Order::Random => run.entries,
        Order::Quiet | Order::Worst => 1,
    };
    for number in &shuffled(alloc, block, run.calls)? {
        numbers.push(match run.order {
            Order::Worst => number.saturating_add(u64::from(run.entries - 1)),
            Order::Quiet | Order::Random => *number,
        })?;
    }
    Ok(numbers)
}

/// Stores retire, and after each one is inserted and performed. The answer is how many of both were taken.
fn walk(stores: &mut Retiring, run: &Run, performed: &[u64]) -> u64 {
    let mut sum: u64 = 0;
    let mut number = run.entries - 1;
    for k in performed {
        sum = sum.wrapping_add(retires(stores, run.order, number));
        sum = sum.wrapping_add(performs(stores, run.order, (*k % (1 << 32)) as u32));
        number = number.wrapping_add(1);
    }
    sum
}

/// Store `k` of an order is inserted and performed: 1 where it was taken.
fn performs(stores: &mut Retiring, order: Order, k: u32) -> u64 {
    let addr = stored_at(order, k);
    let tag = tag(order, k);
    let (Some(piece), Some(extent)) = (piece(addr), Extent::new(addr, 8)) else {
        return 0;
    };
    let taken = stores.insert(tag, &piece);
    stores.perform(tag, &extent);
    if taken == Taken::Yes { 1 } else { 0 }
}
