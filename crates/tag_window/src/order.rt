//! Reports under tags: which there are, by their tags and by when they came.

ghost use Rattle.std.specs.Prelude.{◌≡◌, ◌&&◌, ◌==◌, ◌≤◌, Bool};
ghost use Rattle.std.specs.List.{filter};
ghost use Rattle.slab.specs.Slab.{get};
ghost use Rattle.std.specs.VecDeque.{deque_capacity};
ghost use Rattle.tag_window.specs.Order.{is_live, is_same_position, StartsLive, EndsLive, PlacesFall};

use crate::links::{self, Link};
use crate::newest::{self, Newest};
use slab::Slab;
use std::alloc::{AllocError, Global};
use std::collections::VecDeque;
use tandem_base::Position;

/// A report that came: its tag, its slot and its place.
#[derive(Clone, Copy, Debug)]
pub struct Arrival {
    pub tag: u64,
    pub slot: usize,
    pub place: Position,
}

/// Reports under tags, each in a slot. The arrivals stand with the newest first; those whose slot was
/// freed stay among them until none that is there stands beyond them, or until the room is used up.
#[derive(Drop)]
pub struct TagOrder {
    pub links: Slab<Link>,
    pub arrivals: VecDeque<Arrival>,
    pub newest: VecDeque<Newest>,
    pub capacity: u32,
}

/// Whether two places are the same.
fn is_same(a: Position, b: Position) -> bool
    ensures { result ≡ is_same_position a b }
{
    a.message == b.message && a.insert == b.insert
}

/// Whether a report is still there.
fn is_here(links: &Slab<Link>, arrival: &Arrival) -> bool
    ensures { result ≡ is_live (get links.now) arrival.now }
{
    match links.get(arrival.slot) {
        None => false,
        Some(link) => is_same(link.place, arrival.place),
    }
}

/// Drops the newest arrivals that are gone.
fn trim_newest(links: &Slab<Link>, arrivals: &mut VecDeque<Arrival>)
    requires { PlacesFall arrivals.old.items }
    ensures live { filter (is_live (get links.now)) arrivals.new.items
        ≡ filter (is_live (get links.now)) arrivals.old.items }
    ensures falls { PlacesFall arrivals.new.items }
    ensures starts { StartsLive (get links.now) arrivals.new.items }
    ensures capacity { deque_capacity arrivals.new ≡ deque_capacity arrivals.old }
{
    loop {
        match arrivals.front() {
            None => return,
            Some(newest) => {
                if is_here(links, newest) {
                    return;
                }
            }
        }
        arrivals.pop_front();
    }
}

/// Drops the oldest arrivals that are gone.
fn trim_oldest(links: &Slab<Link>, arrivals: &mut VecDeque<Arrival>)
    requires falls { PlacesFall arrivals.old.items }
    requires starts { StartsLive (get links.now) arrivals.old.items }
    ensures live { filter (is_live (get links.now)) arrivals.new.items
        ≡ filter (is_live (get links.now)) arrivals.old.items }
    ensures falls { PlacesFall arrivals.new.items }
    ensures starts { StartsLive (get links.now) arrivals.new.items }
    ensures ends { EndsLive (get links.now) arrivals.new.items }
    ensures capacity { deque_capacity arrivals.new ≡ deque_capacity arrivals.old }
{
    loop {
        match arrivals.back() {
            None => return,
            Some(oldest) => {
                if is_here(links, oldest) {
                    return;
                }
            }
        }
        arrivals.pop_back();
    }
}

/// Drops all arrivals that are gone.
fn sweep(links: &Slab<Link>, arrivals: &mut VecDeque<Arrival>)
    ensures items { arrivals.new.items ≡ filter (is_live (get links.now)) arrivals.old.items }
    ensures capacity { deque_capacity arrivals.new ≡ deque_capacity arrivals.old }
{
    arrivals.retain(|arrival| is_here(links, arrival));
}

impl TagOrder {
    ghost use Rattle.std.specs.Prelude.{◌≡◌, ◌≢◌, ◌<◌, ◌≤◌, ◌==◌, ◌&&◌, not, nat_lt, [], ◌∷◌, length, IfOk};
    ghost use Rattle.tag_window.specs.Order.{IsTagOrder, AllBefore, AllElsewhere, IsLowestTag, IsOldest, live_reports};
    ghost use Rattle.tag_window.specs.Order.{arrivals_above, arrivals_below, arrivals_without};

    /// No reports, with room for `capacity`.
    pub fn new(alloc: Global, capacity: u32) -> Result<TagOrder, AllocError>
        ensures sound { IfOk result (λ order. IsTagOrder order) }
        ensures empty { IfOk result (λ order. live_reports order ≡ []) }
        ensures capacity { IfOk result (λ order. order.capacity ≡ capacity) }
    {
        let room = capacity as usize;
        Ok(TagOrder {
            links: Slab::with_capacity(alloc, room)?,
            arrivals: VecDeque::with_capacity(alloc, 2 * room)?,
            newest: VecDeque::with_capacity(alloc, room)?,
            capacity,
        })
    }

    /// How many reports there are.
    pub fn len(&self) -> usize
        requires { IsTagOrder self.now }
        ensures { result ≡ length (live_reports self.now) }
    {
        self.links.len()
    }

    /// Makes room for one more arrival.
    fn make_room(&mut self)
        requires sound { IsTagOrder self.old }
        requires room { length (live_reports self.old) < self.old.capacity }
        ensures sound { IsTagOrder self.new }
        ensures live { live_reports self.new ≡ live_reports self.old }
        ensures room { length self.new.arrivals.items < deque_capacity self.new.arrivals }
        ensures links { self.new.links ≡ self.old.links }
        ensures capacity { self.new.capacity ≡ self.old.capacity }
    {
        if self.arrivals.len() < 2 * self.capacity as usize {
            return;
        }
        sweep(&self.links, &mut self.arrivals);
    }

    /// Adds a report that comes after all others, and answers its slot.
    pub fn add(&mut self, tag: u64, place: Position) -> usize
        requires sound { IsTagOrder self.old }
        requires room { length (live_reports self.old) < self.old.capacity }
        requires later { AllBefore place (live_reports self.old) }
        ensures sound { IsTagOrder self.new }
        ensures live { live_reports self.new
            ≡ record { tag = tag; slot = result; place = place } ∷ live_reports self.old }
        ensures slot { result < self.new.links.capacity }
        ensures free { AllElsewhere result (live_reports self.old) }
        ensures links { self.new.links.capacity ≡ self.old.links.capacity }
        ensures capacity { self.new.capacity ≡ self.old.capacity }
    {
        self.make_room();
        let slot = self.links.vacant_key();
        let older = newest::put(&mut self.newest, tag, slot);
        self.links.insert_reserved(Link { place, older });
        self.arrivals
            .push_front_reserved(Arrival { tag, slot, place });
        slot
    }

    /// Drops the arrivals at both ends that are gone.
    fn trim(&mut self)
        requires { PlacesFall self.old.arrivals.items }
        ensures live { live_reports self.new ≡ live_reports self.old }
        ensures falls { PlacesFall self.new.arrivals.items }
        ensures starts { StartsLive (get self.new.links) self.new.arrivals.items }
        ensures ends { EndsLive (get self.new.links) self.new.arrivals.items }
        ensures arrivals { deque_capacity self.new.arrivals ≡ deque_capacity self.old.arrivals }
        ensures links { self.new.links ≡ self.old.links }
        ensures newest { self.new.newest ≡ self.old.newest }
        ensures capacity { self.new.capacity ≡ self.old.capacity }
    {
        trim_newest(&self.links, &mut self.arrivals);
        trim_oldest(&self.links, &mut self.arrivals);
    }

    /// Drops the reports whose tags are at most this one.
    pub fn drop_to(&mut self, tag: u64)
        requires { IsTagOrder self.old }
        ensures sound { IsTagOrder self.new }
        ensures live { live_reports self.new ≡ arrivals_above tag (live_reports self.old) }
        ensures links { self.new.links.capacity ≡ self.old.links.capacity }
        ensures capacity { self.new.capacity ≡ self.old.capacity }
    {
        while let Some(first) = newest::take_first(&mut self.newest, tag) {
            links::free(&mut self.links, Some(first.slot));
        }
        self.trim();
    }

    /// Drops the reports whose tags are at least this one.
    pub fn drop_from(&mut self, tag: u64)
        requires { IsTagOrder self.old }
        ensures sound { IsTagOrder self.new }
        ensures live { live_reports self.new ≡ arrivals_below tag (live_reports self.old) }
        ensures links { self.new.links.capacity ≡ self.old.links.capacity }
        ensures capacity { self.new.capacity ≡ self.old.capacity }
    {
        while let Some(last) = newest::take_last(&mut self.newest, tag) {
            links::free(&mut self.links, Some(last.slot));
        }
        self.trim();
    }

    /// Drops the reports of a tag.
    pub fn drop_tag(&mut self, tag: u64)
        requires { IsTagOrder self.old }
        ensures sound { IsTagOrder self.new }
        ensures live { live_reports self.new ≡ arrivals_without tag (live_reports self.old) }
        ensures links { self.new.links.capacity ≡ self.old.links.capacity }
        ensures capacity { self.new.capacity ≡ self.old.capacity }
    {
        match newest::take(&mut self.newest, tag) {
            None => {}
            Some(slot) => {
                links::free(&mut self.links, Some(slot));
                self.trim();
            }
        }
    }

    /// The place of the oldest report.
    pub fn oldest(&self) -> Option<Position>
        requires { IsTagOrder self.now }
        ensures { IsOldest result (live_reports self.now) }
    {
        match self.arrivals.back() {
            None => None,
            Some(oldest) => Some(oldest.place),
        }
    }

    /// The lowest tag, where it is below another.
    pub fn lowest_tag(&self, below: u64) -> Option<u64>
        requires { IsTagOrder self.now }
        ensures { IsLowestTag below result (live_reports self.now) }
    {
        match self.newest.front() {
            None => None,
            Some(first) => {
                if first.tag < below {
                    Some(first.tag)
                } else {
                    None
                }
            }
        }
    }
}
