//! Merge buffers whose Inserts are numbered upward.

use merge_buffer::{Drain, Lines, Part};
use msg_frames::{LineWrite, Piece};
use std::alloc::{AllocError, Global};
use std::marker::Model;
use tandem_base::Took;

/// A merge buffer, with the number that the next Insert gets.
#[derive(Drop)]
pub struct Numbered {
    lines: Lines,
    next: u32,
}

impl Model for Numbered {
    ghost use Rattle.std.specs.Prelude.{ℕ};
    ghost use Rattle.merge_buffer.specs.Parts.{AllBelow};
    ghost use Rattle.merge_buffer.specs.Buffers.{waiting_on};

    ghost Value = { ℕ };

    ghost view = { λ n. n.next };

    ghost invariant = { λ n. (line : ℕ) → AllBelow n.next (waiting_on n.lines line) };
}

impl Numbered {
    /// An empty buffer.
    pub(crate) fn new(alloc: Global, capacity: u32) -> Result<Numbered, AllocError> {
        Ok(Numbered {
            lines: Lines::new(alloc, capacity)?,
            next: 1,
        })
    }

    /// The number of the next Insert.
    pub(crate) fn next(&self) -> u32 {
        self.next
    }

    /// An Insert. None where it doesn't lie within a line, or all numbers are used up.
    pub(crate) fn insert(&mut self, tag: u64, piece: &Piece) -> Option<Took> {
        if piece.addr % 64 + u64::from(piece.bytes.len()) > 64 || self.next == u32::MAX {
            return None;
        }
        let took = self.lines.insert(tag, piece, self.next);
        self.next += 1;
        Some(took)
    }

    /// A Write. None where it isn't of a line.
    pub(crate) fn write(&mut self, write: &LineWrite) -> Option<Drain> {
        if write.line % 64 != 0 {
            return None;
        }
        Some(self.lines.write(write))
    }

    /// Part `k` of what the last Write drained.
    pub(crate) fn part(&self, k: u32) -> Option<Part> {
        self.lines.part(k)
    }

    /// How many Inserts wait.
    pub(crate) fn count(&self) -> usize {
        self.lines.count()
    }
}
