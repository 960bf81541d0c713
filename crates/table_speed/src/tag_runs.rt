//! Runs over the window of a hart.

ghost use Rattle.std.specs.Prelude.{◌<◌, ◌≤◌, ◌+◌, ◌^◌};

use crate::image::image;
use crate::memory_runs::filled;
use crate::reporting::Reported;
use crate::tag_steps::{LOAD, Plan, Step, planned};
use byte_memory::{Capture, Memory, StoreCapture};
use elf_image::Image;
use msg_frames::Piece;
use speed_runs::{Order, Run, Told, read};
use std::alloc::{AllocError, Global};
use std::io;
use std::time::Instant;
use tag_window::Counting;
use tandem_base::{Bytes8, Extent, Position, Took};

/// What the calls of a run answered.
pub(crate) fn answers(rt: &HostRuntime, run: &Run) -> io::Result<Told> {
    let window = Reported::new(rt.alloc(), run.entries)?;
    if run.call == "reserve" {
        return read(rt, &Instant::now(rt)?, u64::from(window.tags().live()));
    }
    let image = image(rt.alloc())?;
    let Plan { before, steps } = planned(rt.alloc(), run)?;
    let Some(mut hart) = prepared(rt.alloc(), &image, window)? else {
        return Err(io::ErrorKind::InvalidInput.into());
    };
    hart.walk(&image, &before);
    let start = Instant::now(rt)?;
    let sum = hart.walk(&image, &steps);
    read(rt, &start, sum)
}

/// The window of a hart, and what its reports are made of.
#[derive(Drop)]
struct Hart {
    window: Reported,
    memory: Memory,
    bytes: Bytes8,
    load: Extent,
    seen: Capture,
    before: StoreCapture,
}

/// A hart whose loads are of a line to which each doubleword was stored.
fn prepared(alloc: Global, image: &Image, window: Reported) -> Result<Option<Hart>, AllocError> {
    let memory = filled(alloc, Order::Quiet, 1)?;
    let (Some(bytes), Some(load)) = (Bytes8::new(&[1, 2, 3, 4, 5, 6, 7, 8]), Extent::new(LOAD, 8))
    else {
        return Ok(None);
    };
    let place = Position {
        message: 0,
        insert: 0,
    };
    let before = StoreCapture::take(&memory, image, &load, place, 1, 64);
    Ok(Some(Hart {
        window,
        memory,
        bytes,
        load,
        seen: before.seen,
        before,
    }))
}

impl Hart {
    /// Does the steps, and adds up their answers.
    fn walk(&mut self, image: &Image, steps: &[Step]) -> u64 {
        let mut sum: u64 = 0;
        for step in steps {
            sum = sum.wrapping_add(self.goes(image, step));
        }
        sum
    }

    /// Does a step.
    fn goes(&mut self, image: &Image, step: &Step) -> u64 {
        match step {
            Step::Read(tag, addr) => self.reads(image, *tag, *addr),
            Step::Early(tag) => self.bypasses(*tag),
            Step::Look(tag) => self.looks(*tag),
            Step::Retire(tag) => {
                self.window.retire(*tag);
                0
            }
            Step::Squash(from) => {
                self.window.squash(*from);
                0
            }
            Step::Count(tag) => self.counts(*tag),
            Step::Ask => self.asks(),
        }
    }

    /// Takes a Read of eight bytes with its capture: 1 where there was room.
    fn reads(&mut self, image: &Image, tag: u64, addr: u64) -> u64 {
        let Some(extent) = Extent::new(addr, 8) else {
            return 0;
        };
        self.memory.look(addr);
        let place = self.seen.place;
        self.seen.retake(&self.memory, image, &extent, place);
        let bytes = self.bytes;
        taken(
            self.window
                .read(tag, &Piece { addr, bytes }, &mut self.seen),
        )
    }

    /// Takes an early Bypass: 1 where there was room.
    fn bypasses(&mut self, tag: u64) -> u64 {
        let bytes = self.bytes;
        taken(
            self.window
                .early(tag, &Piece { addr: LOAD, bytes }, &mut self.before),
        )
    }

    /// Looks up the early Bypass of a tag: the number of its bytes.
    fn looks(&self, tag: u64) -> u64 {
        match self.window.tags().early_of(tag) {
            Some(early) => u64::from(early.piece.bytes.len()),
            None => 0,
        }
    }

    /// What counts for the load of a tag: its parts, and the bytes of the Read that counts for the first.
    fn counts(&self, tag: u64) -> u64 {
        let parts = match self.window.tags().counting(tag, &self.load) {
            Counting::All(parts) => u64::from(parts[7]) + 1,
            Counting::Missing(_) => 0,
        };
        match self.window.tags().counting_at(tag, LOAD) {
            Some(read) => parts + u64::from(read.piece.bytes.len()),
            None => parts,
        }
    }

    /// How many reports there are, the message of the oldest, and the lowest early Bypass.
    fn asks(&self) -> u64 {
        let tags = self.window.tags();
        let oldest = match tags.oldest() {
            Some(place) => u64::from(place.message),
            None => 0,
        };
        u64::from(tags.live())
            .wrapping_add(oldest)
            .wrapping_add(tags.stray(u64::MAX).unwrap_or(0))
    }
}

/// 1 where there was room.
fn taken(took: Option<Took>) -> u64 {
    if took == Some(Took::Yes) { 1 } else { 0 }
}
