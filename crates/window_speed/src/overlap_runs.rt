//! Runs over the rules of operations that share a byte.

ghost use Rattle.std.specs.Prelude.{◌<◌, ◌≤◌, ◌+◌, ◌^◌};

use crate::accesses::{BASE, kept, operation, place, stored_at, waiting};
use crate::retiring::Retiring;
use kept_ops::{Kept, KeptOp};
use overlap_rules::Asked;
use rvwmo_model::OpKind;
use speed_runs::{Run, Told, read, shuffled};
use std::io;
use std::time::Instant;
use tandem_base::{Extent, OpName};
use window_laws::ByteSource;

/// What the calls of a run answered: a load, or an operation that loads and stores, asks for the operation
/// that each rule puts before it.
pub(crate) fn answers(rt: &HostRuntime, run: &Run) -> io::Result<Told> {
    let kept = kept(rt.alloc(), run)?;
    let stores = waiting(rt.alloc(), run)?;
    let numbers = shuffled(rt.alloc(), run.entries, run.calls)?;
    let kind = if run.call == "load" {
        OpKind::Load
    } else {
        OpKind::Both
    };
    let Some(mut fresh) = operation(kind, BASE, 0) else {
        return Err(io::ErrorKind::InvalidInput.into());
    };
    fresh.name.tag = u64::MAX;
    let start = Instant::now(rt)?;
    let sum = walk(&stores, &kept, &mut fresh, run, &numbers);
    read(rt, &start, sum)
}

/// The operation asks at as many doublewords, each time before another of those that are kept.
fn walk(stores: &Retiring, kept: &Kept, fresh: &mut KeptOp, run: &Run, numbers: &[u64]) -> u64 {
    let initial = ByteSource {
        writer: None,
        place: None,
        byte: 0,
    };
    let mut sum: u64 = 0;
    for number in numbers {
        let k = (*number % u64::from(run.entries)) as u32;
        if let Some(extent) = Extent::new(stored_at(run.order, k), 8) {
            fresh.extent = extent;
            fresh.place = place(k);
        }
        let asked = Asked {
            fresh,
            sources: &[initial; 8],
            stores: stores.stores(),
            kept,
        };
        sum = sum.wrapping_add(answered(&asked));
    }
    sum
}

/// For how many rules there is an operation.
fn answered(asked: &Asked) -> u64 {
    one(asked.first_by_overlap())
        + one(asked.first_by_load())
        + one(asked.first_by_atomic())
        + one(asked.first_by_lead())
}

/// 1 where there is an operation.
fn one(first: Option<OpName>) -> u64
    ensures { result < 2 }
{
    if first.is_some() { 1 } else { 0 }
}
