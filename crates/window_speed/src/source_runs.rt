//! Runs over the sources of bytes.

ghost use Rattle.std.specs.Prelude.{◌<◌, ◌≤◌, ◌+◌, ◌^◌};

use crate::accesses::{kept, place, stored_at, waiting};
use crate::retiring::Retiring;
use byte_memory::Capture;
use kept_ops::Kept;
use reads_from::source;
use speed_runs::{Run, Told, read, shuffled};
use std::io;
use std::time::Instant;

/// What the calls of a run answered. Stores wait where its call is `waiting`; none does where it is `still`.
pub(crate) fn answers(rt: &HostRuntime, run: &Run) -> io::Result<Told> {
    let kept = kept(rt.alloc(), run)?;
    let stores = if run.call == "waiting" {
        waiting(rt.alloc(), run)?
    } else {
        Retiring::new(rt.alloc(), run.entries)?
    };
    let numbers = shuffled(rt.alloc(), run.entries, run.calls)?;
    let start = Instant::now(rt)?;
    let sum = walk(&stores, &kept, run, &numbers);
    read(rt, &start, sum)
}

/// The sources of a byte of as many doublewords, each after the operations of the run or before them: their
/// bytes added up.
fn walk(stores: &Retiring, kept: &Kept, run: &Run, numbers: &[u64]) -> u64 {
    let mut sum: u64 = 0;
    for number in numbers {
        let k = (*number % u64::from(run.entries)) as u32;
        sum = sum.wrapping_add(u64::from(byte(stores, kept, stored_at(run.order, k), k)));
    }
    sum
}

/// The byte that a load of a doubleword has, whose report came before operation `before`.
fn byte(stores: &Retiring, kept: &Kept, base: u64, before: u32) -> u8
    requires { base + 64 ≤ 2 ^ 64 }
{
    let seen = Capture {
        place: place(before.saturating_sub(1)),
        base,
        values: [9; 8],
        last: [None; 8],
    };
    source(&seen, stores.stores(), kept, base + u64::from(before % 8)).byte
}
