//! The merge buffer of a hart.

use crate::chains;
use crate::merging::{Difference, first_difference};
use crate::waiting::{Part, Waiting};
use key_tree::KeyTree;
use msg_frames::{LineWrite, Piece};
use slab::Slab;
use std::alloc::{AllocError, Global};
use std::marker::Model;
use tandem_base::Took;

/// What a Write does to the Inserts of its line.
#[derive(Clone, Copy, Debug, PartialEq, Eq)]
pub enum Drain {
    /// They are drained, this many.
    Parts(u32),
    /// The Write isn't what waits.
    Mismatch(Difference),
}

/// The merge buffer of a hart: the Inserts that wait, and those that the last Write drained.
#[derive(Drop)]
pub struct Lines {
    waiting: Slab<Waiting>,
    newest: KeyTree,
    drained: Vec<Part>,
    capacity: u32,
}

impl Model for Lines {
    ghost use Rattle.std.specs.Prelude.{◌≡◌, ◌≤◌, vec_capacity};
    ghost use Rattle.slab.specs.Slab.{slab_len};
    ghost use Rattle.merge_buffer.specs.Chains.{AreChained};
    ghost use Rattle.merge_buffer.specs.Buffers.{Buffer, lines_of};

    ghost Value = { Buffer };

    ghost view = { λ l. record {
      lines = lines_of l.capacity l.waiting l.newest.entries;
      count = slab_len l.waiting;
      drained = l.drained.items;
      capacity = l.capacity;
    } };

    ghost invariant = { λ l. AreChained l.waiting l.newest × (slab_len l.waiting ≤ l.capacity)
        × (l.capacity ≤ l.waiting.capacity) × (l.newest.capacity ≡ l.capacity)
        × (l.capacity ≤ vec_capacity l.drained) };
}

impl Lines {
    ghost use Rattle.std.specs.Prelude.{◌≡◌, ◌+◌, ◌*◌, ◌/◌, ◌%◌, ◌<◌, ◌≤◌, ◌==◌, ℕ};
    ghost use Rattle.std.specs.Prelude.{List, [], ◌∷◌, length, reverse, slice_get, IfOk};
    ghost use Rattle.merge_buffer.specs.Parts.{AllBelow, IsWithinLine, Matches, DiffersAt, without_line};
    ghost use Rattle.merge_buffer.specs.Buffers.{Buffer, waiting_on, after_insert};
    ghost use Rattle.tandem_base.specs.Room.{took};
    ghost use Rattle.merge_buffer.specs.Buffers.{count_after, IfParts, IfMismatch};

    /// An empty buffer, with room for `capacity` Inserts. No other call takes memory.
    pub fn new(alloc: Global, capacity: u32) -> Result<Lines, AllocError>
        ensures { IfOk result (λ buffer. buffer ≡ record { lines = []; count = 0; drained = []; capacity = capacity }) }
    {
        Ok(Lines {
            waiting: Slab::with_capacity(alloc, capacity as usize)?,
            newest: KeyTree::new(alloc, capacity)?,
            drained: Vec::with_capacity(alloc, capacity as usize)?,
            capacity,
        })
    }

    /// How many Inserts wait.
    pub fn count(&self) -> usize
        ensures count { result ≡ self.now.count }
        ensures room { self.now.count ≤ self.now.capacity }
    {
        self.waiting.len()
    }

    /// An Insert, where there is room for one more. It has to lie within a line and to have a number
    /// above those that wait on that line.
    pub fn insert(&mut self, tag: u64, piece: &Piece, number: u32) -> Took
        // An Insert that crosses a line is refused as a bad range.
        requires within { IsWithinLine piece.now }
        // Messages are numbered upward, and no Insert waits before its message.
        requires newer { AllBelow number (waiting_on self.old (piece.now.addr / 64)) }
        ensures took { result ≡ took self.old.count self.old.capacity }
        ensures waits { (line : ℕ) → waiting_on self.new line
            ≡ after_insert result (record { tag = tag; piece = piece.now; number = number }) line
            (waiting_on self.old line) }
        ensures count { self.new.count ≡ count_after result self.old.count }
        ensures drained { self.new.drained ≡ self.old.drained }
        ensures capacity { self.new.capacity ≡ self.old.capacity }
    {
        if self.waiting.len() == self.capacity as usize {
            return Took::Full(self.capacity);
        }
        let part = Part {
            tag,
            piece: *piece,
            number,
        };
        chains::add(&mut self.waiting, &mut self.newest, &part);
        Took::Yes
    }

    /// A Write: drains the Inserts that wait on its line, where it has the bytes that they merge to.
    /// Otherwise nothing changes.
    pub fn write(&mut self, write: &LineWrite) -> Drain
        // The form of a Write has it.
        requires line { write.now.line % 64 ≡ 0 }
        ensures matches { IfParts result (λ n. Matches (waiting_on self.old (write.now.line / 64)) write.now) }
        ensures waits { IfParts result (λ n. (line : ℕ) →
            waiting_on self.new line ≡ without_line (write.now.line / 64) line (waiting_on self.old line)) }
        ensures drained { IfParts result (λ n. self.new.drained ≡ waiting_on self.old (write.now.line / 64)) }
        ensures parts { IfParts result (λ n. n ≡ length self.new.drained) }
        ensures count { IfParts result (λ n. self.new.count + n ≡ self.old.count) }
        ensures differs { IfMismatch result (λ d. DiffersAt (waiting_on self.old (write.now.line / 64)) write.now d) }
        ensures refused { IfMismatch result (λ d. self.new ≡ self.old) }
        ensures capacity { self.new.capacity ≡ self.old.capacity }
    {
        let line = write.line / 64;
        let head = self.newest.get(line);
        let merged = chains::merge(&self.waiting, head, line);
        if let Some(difference) = first_difference(&merged, write) {
            return Drain::Mismatch(difference);
        }
        self.newest.take(line);
        self.drained.clear();
        chains::drain(&mut self.waiting, head, line, &mut self.drained);
        Drain::Parts(self.drained.len() as u32)
    }

    /// Part `k`, from 0, of those that the last Write drained, in the order of their Inserts.
    pub fn part(&self, k: u32) -> Option<Part>
        ensures { result ≡ slice_get (reverse self.now.drained) k }
    {
        let count = self.drained.len();
        if (k as usize) < count {
            Some(self.drained[count - 1 - k as usize])
        } else {
            None
        }
    }
}
