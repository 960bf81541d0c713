//! The window of a hart.

ghost use Rattle.std.specs.Prelude.{◌≡◌};
ghost use Rattle.tag_window.specs.Slots.{earlier_position};

use crate::counting::{self, Counting};
use crate::newest;
use crate::order::TagOrder;
use crate::reports::{Early, Read};
use crate::slots::put_at;
use byte_memory::{Capture, StoreCapture};
use msg_frames::Piece;
use std::alloc::{AllocError, Global};
use std::marker::Model;
use tandem_base::{Extent, Position, Took};

/// The live Reads and early Bypasses of a hart, as many as there is room for.
#[derive(Drop)]
pub struct Tags {
    reads: TagOrder,
    read_items: Vec<Read>,
    bypasses: TagOrder,
    bypass_items: Vec<Early>,
    capacity: u32,
}

impl Model for Tags {
    ghost use Rattle.std.specs.Prelude.{◌≡◌, ◌≤◌, ◌+◌, length, vec_capacity};
    ghost use Rattle.tag_window.specs.Order.{IsTagOrder, live_reports};
    ghost use Rattle.tag_window.specs.Slots.{AreIn, tagged, no_read, no_bypass, place_of_read, place_of_bypass};
    ghost use Rattle.tag_window.specs.Windows.{Window};

    ghost Value = { Window };

    ghost view = { λ t. record {
      reads = tagged no_read t.read_items.items (live_reports t.reads);
      bypasses = tagged no_bypass t.bypass_items.items (live_reports t.bypasses);
      capacity = t.capacity;
    } };

    ghost invariant = { λ t. IsTagOrder t.reads × IsTagOrder t.bypasses
        × AreIn place_of_read no_read t.read_items.items (live_reports t.reads)
        × AreIn place_of_bypass no_bypass t.bypass_items.items (live_reports t.bypasses)
        × (t.reads.capacity ≡ t.capacity) × (t.bypasses.capacity ≡ t.capacity)
        × (t.reads.links.capacity ≤ vec_capacity t.read_items)
        × (t.bypasses.links.capacity ≤ vec_capacity t.bypass_items)
        × (length (live_reports t.reads) + length (live_reports t.bypasses) ≤ t.capacity) };
}

impl Tags {
    ghost use Rattle.std.specs.Prelude.{◌≡◌, ◌≢◌, ◌+◌, ◌<◌, ◌≤◌, ◌==◌, ℕ, List, [], ◌∷◌, None, Some, IfOk, slice_index};
    ghost use Rattle.std.specs.Prelude.{option_copied, is_some, true};
    ghost use Rattle.tag_window.specs.Windows.{Window, live_count, after_one, below, above, without, newest_under};
    ghost use Rattle.tandem_base.specs.Room.{took};
    ghost use Rattle.tag_window.specs.Windows.{IsLowestGiven, read_counting, places_of_reads, places_of_bypasses};
    ghost use Rattle.tag_window.specs.Windows.{AllEarlier, IsOldestOf};
    ghost use Rattle.tag_window.specs.Windows.{IfAll, IfMissing, IsInPart, IsLowestMissing};

    /// No reports, with room for `capacity` of them. No other call takes memory.
    pub fn new(alloc: Global, capacity: u32) -> Result<Tags, AllocError>
        ensures { IfOk result (λ tags. tags ≡ record { reads = []; bypasses = []; capacity = capacity }) }
    {
        let reads = TagOrder::new(alloc, capacity)?;
        let read_items = Vec::with_capacity(alloc, reads.links.capacity())?;
        let bypasses = TagOrder::new(alloc, capacity)?;
        let bypass_items = Vec::with_capacity(alloc, bypasses.links.capacity())?;
        Ok(Tags {
            reads,
            read_items,
            bypasses,
            bypass_items,
            capacity,
        })
    }

    /// How many live Reads and early Bypasses there are.
    pub fn live(&self) -> u32
        ensures count { result ≡ live_count self.now }
        ensures room { live_count self.now ≤ self.now.capacity }
    {
        let _capacity = self.capacity;
        (self.reads.len() + self.bypasses.len()) as u32
    }

    /// Whether there is no room for one more.
    fn is_full(&self) -> bool
        ensures { result ≡ (live_count self.now == self.now.capacity) }
    {
        self.live() == self.capacity
    }

    /// A Read, where there is room for one more. It has to come after the live Reads.
    pub fn read(&mut self, tag: u64, piece: &Piece, seen: &Capture) -> Took
        // Messages are numbered upward, and what a report saw has its own place.
        requires later { AllEarlier seen.now.place (places_of_reads self.old.reads) }
        ensures took { result ≡ took (live_count self.old) self.old.capacity }
        ensures reads { self.new.reads ≡ after_one result (record {
          tag = tag;
          item = record { piece = piece.now; seen = seen.now };
        }) self.old.reads }
        ensures bypasses { self.new.bypasses ≡ self.old.bypasses }
        ensures capacity { self.new.capacity ≡ self.old.capacity }
    {
        if self.is_full() {
            return Took::Full(self.capacity);
        }
        let slot = self.reads.add(tag, seen.place);
        let read = Read {
            piece: *piece,
            seen: *seen,
        };
        put_at(&mut self.read_items, slot, &read);
        Took::Yes
    }

    /// An early Bypass, where there is room for one more. It has to come after the others.
    pub fn early(&mut self, tag: u64, piece: &Piece, seen: &StoreCapture) -> Took
        // As for a Read.
        requires later { AllEarlier seen.now.seen.place (places_of_bypasses self.old.bypasses) }
        ensures took { result ≡ took (live_count self.old) self.old.capacity }
        ensures bypasses { self.new.bypasses ≡ after_one result (record {
          tag = tag;
          item = record { piece = piece.now; seen = seen.now };
        }) self.old.bypasses }
        ensures reads { self.new.reads ≡ self.old.reads }
        ensures capacity { self.new.capacity ≡ self.old.capacity }
    {
        if self.is_full() {
            return Took::Full(self.capacity);
        }
        let slot = self.bypasses.add(tag, seen.seen.place);
        let bypass = Early {
            piece: *piece,
            seen: *seen,
        };
        put_at(&mut self.bypass_items, slot, &bypass);
        Took::Yes
    }

    /// The early Bypass of a tag.
    pub fn early_of(&self, tag: u64) -> Option<&Early>
        ensures { option_copied result ≡ newest_under tag self.now.bypasses }
    {
        match newest::slot_of(&self.bypasses.newest, tag) {
            None => None,
            Some(slot) => Some(&self.bypass_items[slot]),
        }
    }

    /// The lowest tag below another that has an early Bypass.
    pub fn stray(&self, below: u64) -> Option<u64>
        ensures { IsLowestGiven below result self.now.bypasses }
    {
        self.bypasses.lowest_tag(below)
    }

    /// Drops the Reads of this tag and later ones.
    pub fn squash(&mut self, from: u64)
        ensures reads { self.new.reads ≡ below from self.old.reads }
        ensures bypasses { self.new.bypasses ≡ self.old.bypasses }
        ensures capacity { self.new.capacity ≡ self.old.capacity }
    {
        self.reads.drop_from(from);
    }

    /// Drops the Reads of this tag and earlier ones, and the early Bypass of this tag.
    pub fn retire(&mut self, tag: u64)
        ensures reads { self.new.reads ≡ above tag self.old.reads }
        ensures bypasses { self.new.bypasses ≡ without tag self.old.bypasses }
        ensures capacity { self.new.capacity ≡ self.old.capacity }
    {
        self.reads.drop_to(tag);
        self.bypasses.drop_tag(tag);
    }

    /// The Read that counts for the byte at an address of a load with this tag: the latest live Read of
    /// the tag that has the byte.
    pub fn counting_at(&self, tag: u64, addr: u64) -> Option<&Read>
        ensures { option_copied result ≡ read_counting tag addr self.now.reads }
    {
        let head = newest::slot_of(&self.reads.newest, tag);
        match counting::find(&self.reads.links, &self.read_items, head, addr) {
            None => None,
            Some(slot) => Some(&self.read_items[slot]),
        }
    }

    /// The parts of a load, by the Reads that count for its bytes, or the first byte that has none.
    pub fn counting(&self, tag: u64, extent: &Extent) -> Counting
        ensures all { IfAll result (λ parts. (k : ℕ) → k < extent.now.len →
            IsInPart tag extent.now.addr self.now.reads k (slice_index parts k)) }
        ensures missing { IfMissing result (λ at. IsLowestMissing tag extent.now self.now.reads at) }
    {
        let head = newest::slot_of(&self.reads.newest, tag);
        if counting::first_has_all(&self.read_items, head, extent) {
            return Counting::All([0; 8]);
        }
        let mut slots = [None; 8];
        counting::slots_of(
            &self.reads.links,
            &self.read_items,
            head,
            extent,
            &mut slots,
        );
        match counting::first_without(&slots, extent.len) {
            Some(k) => Counting::Missing(extent.addr + u64::from(k)),
            None => Counting::All(counting::parts_of(&slots, extent.len)),
        }
    }

    /// The place of the oldest live Read or early Bypass.
    pub fn oldest(&self) -> Option<Position>
        ensures { IsOldestOf self.now result }
    {
        earlier(self.reads.oldest(), self.bypasses.oldest())
    }
}

/// The earlier of two places, where there are two.
fn earlier(a: Option<Position>, b: Option<Position>) -> Option<Position>
    ensures { result ≡ earlier_position a b }
{
    match (a, b) {
        (None, _) => b,
        (_, None) => a,
        (Some(p), Some(q)) => { if q < p { b } else { a } }
    }
}
