//! Slots that wait in one row.

use crate::links::{self, Ends, Link};
use crate::waiter::Waiter;
use std::alloc::{AllocError, Global};
use std::marker::Model;

/// Slots that wait in one row, in the order of their tags.
#[derive(Drop)]
pub struct SlotRow {
    links: Vec<Option<Link>>,
    ends: Ends,
    capacity: u32,
}

impl Model for SlotRow {
    ghost use Rattle.std.specs.Prelude.{◌≤◌, vec_capacity};
    ghost use Rattle.byte_rows.specs.Links.{at, IsRow, AreOneRow};
    ghost use Rattle.byte_rows.specs.Waiters.{WaitingSlots};

    ghost Value = { WaitingSlots };

    ghost view = { λ r. record { links = r.links.items; capacity = r.capacity } };

    ghost invariant = { λ r. IsRow (at r.links.items) 0 r.ends × AreOneRow (at r.links.items)
        × (r.capacity ≤ vec_capacity r.links) };
}

impl SlotRow {
    ghost use Rattle.std.specs.Prelude.{◌≡◌, ◌<◌, ◌==◌, ℕ, Some, None, IfOk, if◌then◌else◌};
    ghost use Rattle.byte_rows.specs.Waiters.{tag_of_slot, IsNewestWaiter, IsOldestWaiter, IsNewestWaiterBelow};

    /// A row in which none waits, with room for `capacity` slots. No other call takes memory.
    pub fn new(alloc: Global, capacity: u32) -> Result<SlotRow, AllocError>
        ensures none { IfOk result (λ row. (s : ℕ) → tag_of_slot row s ≡ None) }
        ensures capacity { IfOk result (λ row. row.capacity ≡ capacity) }
    {
        Ok(SlotRow {
            links: Vec::with_capacity(alloc, capacity as usize)?,
            ends: Ends {
                oldest: None,
                newest: None,
            },
            capacity,
        })
    }

    /// A slot begins to wait, under a tag above all others.
    pub fn enter(&mut self, waiter: Waiter)
        // The capacity is that of the slots.
        requires within { waiter.slot < self.old.capacity }
        // A slot that is free waits nowhere.
        requires vacant { tag_of_slot self.old waiter.slot ≡ None }
        // Tags rise with what is retired.
        requires newest { (s t : ℕ) → tag_of_slot self.old s ≡ Some t → t < waiter.tag }
        ensures tags { (s : ℕ) → tag_of_slot self.new s
            ≡ (if s == waiter.slot then Some waiter.tag else tag_of_slot self.old s) }
        ensures capacity { self.new.capacity ≡ self.old.capacity }
    {
        links::grow(&mut self.links, waiter.slot + 1);
        links::append(&mut self.links, &mut self.ends, waiter.slot, 0, waiter.tag);
    }

    /// A slot waits no longer. Where it didn't, nothing changes.
    pub fn leave(&mut self, slot: usize)
        ensures tags { (s : ℕ) → tag_of_slot self.new s ≡ (if s == slot then None else tag_of_slot self.old s) }
        ensures capacity { self.new.capacity ≡ self.old.capacity }
    {
        if links::waits(&self.links, slot) {
            links::unlink(&mut self.links, &mut self.ends, slot, 0);
        }
    }

    /// The waiter of greatest tag.
    pub fn newest(&self) -> Option<Waiter>
        ensures { IsNewestWaiter (tag_of_slot self.now) result }
    {
        links::waiter_at(&self.links, self.ends.newest)
    }

    /// The waiter of least tag.
    pub fn oldest(&self) -> Option<Waiter>
        ensures { IsOldestWaiter (tag_of_slot self.now) result }
    {
        links::waiter_at(&self.links, self.ends.oldest)
    }

    /// The waiter of greatest tag below a bound: at once where the newest is below it or none is, else
    /// from the newest back.
    pub fn newest_below(&self, below: u64) -> Option<Waiter>
        ensures { IsNewestWaiterBelow below (tag_of_slot self.now) result }
    {
        let place = links::last_below(&self.links, &self.ends, 0, below);
        links::waiter_at(&self.links, place)
    }
}
