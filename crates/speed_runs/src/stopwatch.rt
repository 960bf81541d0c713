//! How long calls take.

use std::io;
use std::rt::Clock;
use std::time::{Duration, Instant};

/// What calls answered, added up, and how long they took.
#[derive(Clone, Copy, Debug)]
pub struct Told {
    pub sum: u64,
    pub took: Duration,
}

/// What the calls since a moment answered, and how long they took.
pub fn read<R: Clock>(rt: &R, since: &Instant, sum: u64) -> io::Result<Told> {
    Ok(Told {
        sum,
        took: since.elapsed(rt)?,
    })
}

/// How long each of so many calls took.
pub fn picoseconds(took: Duration, calls: u32) -> u128 {
    took.as_nanos().saturating_mul(1000) / u128::from(calls.max(1))
}
