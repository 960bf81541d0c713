//! Windows whose reports come one after the other.

ghost use Rattle.std.specs.Prelude.{◌≡◌};

use byte_memory::{Capture, StoreCapture};
use msg_frames::Piece;
use std::alloc::{AllocError, Global};
use std::marker::Model;
use tag_window::Tags;
use tandem_base::{Position, Took};

/// The window of a hart, with the number of the next message.
#[derive(Drop)]
pub struct Reported {
    tags: Tags,
    next: u32,
}

impl Model for Reported {
    ghost use Rattle.std.specs.Prelude.{ℕ};
    ghost use Rattle.tag_window.specs.Windows.{ComesAfter};

    ghost Value = { ℕ };

    ghost view = { λ r. r.next };

    ghost invariant = { λ r. ComesAfter r.next r.tags };
}

/// The place of a message.
fn place(message: u32) -> Position
    ensures { result ≡ record { message = message; insert = message } }
{
    Position {
        message,
        insert: message,
    }
}

impl Reported {
    /// A window without reports.
    pub(crate) fn new(alloc: Global, capacity: u32) -> Result<Reported, AllocError> {
        Ok(Reported {
            tags: Tags::new(alloc, capacity)?,
            next: 1,
        })
    }

    /// The window.
    pub(crate) fn tags(&self) -> &Tags {
        &self.tags
    }

    /// A Read, whose capture gets the place of the next message. None where all numbers are used up.
    pub(crate) fn read(&mut self, tag: u64, piece: &Piece, seen: &mut Capture) -> Option<Took> {
        if self.next == u32::MAX {
            return None;
        }
        seen.place = place(self.next);
        let took = self.tags.read(tag, piece, seen);
        self.next += 1;
        Some(took)
    }

    /// An early Bypass, likewise.
    pub(crate) fn early(
        &mut self,
        tag: u64,
        piece: &Piece,
        seen: &mut StoreCapture,
    ) -> Option<Took> {
        if self.next == u32::MAX {
            return None;
        }
        seen.seen.place = place(self.next);
        let took = self.tags.early(tag, piece, seen);
        self.next += 1;
        Some(took)
    }

    /// A Squash of this tag and later ones.
    pub(crate) fn squash(&mut self, from: u64) {
        self.tags.squash(from);
    }

    /// A Retire.
    pub(crate) fn retire(&mut self, tag: u64) {
        self.tags.retire(tag);
    }
}
