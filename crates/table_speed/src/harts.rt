//! The tables of harts at the ceilings of the limits, for the memory that they reserve.

use kept_ops::Kept;
use merge_buffer::Lines;
use speed_runs::{Run, Told, read};
use std::alloc::{AllocError, Global};
use std::io;
use std::time::Instant;
use tag_window::Tags;

/// The most reports of a hart that may be open.
const READS: u32 = 4096;

/// The most Inserts that may wait: one for each byte of 4,096 stores.
const INSERTS: u32 = 32768;

/// The most operations that may be kept.
const KEPT: u32 = 16384;

/// The tables of a hart.
#[derive(Drop)]
struct Tables {
    window: Tags,
    lines: Lines,
    kept: Kept,
}

/// Makes the tables of so many harts, and answers how much is in them.
pub(crate) fn answers(rt: &HostRuntime, run: &Run) -> io::Result<Told> {
    let mut harts = Vec::new(rt.alloc());
    for _ in 0..run.entries {
        harts.push(made(rt.alloc())?)?;
    }
    let mut sum: u64 = 0;
    for tables in harts.iter() {
        sum = sum.wrapping_add(tables.count());
    }
    read(rt, &Instant::now(rt)?, sum)
}

/// The tables of a hart.
fn made(alloc: Global) -> Result<Tables, AllocError> {
    Ok(Tables {
        window: Tags::new(alloc, READS)?,
        lines: Lines::new(alloc, INSERTS)?,
        kept: Kept::new(alloc, KEPT)?,
    })
}

impl Tables {
    /// How many reports, Inserts and operations there are.
    fn count(&self) -> u64 {
        u64::from(self.window.live())
            .wrapping_add(self.lines.count() as u64)
            .wrapping_add(self.kept.count() as u64)
    }
}
