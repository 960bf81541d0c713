//! The places of kept operations, of which those up to a place can be taken.

ghost use Rattle.std.specs.Prelude.{◌≡◌, ◌+◌, ◌<◌, ◌≤◌, [], ◌∷◌, ◌++◌, length, true, false, All, IfSome, IfNone};
ghost use Rattle.std.specs.List.Sorted.{IsPermutation};
ghost use Rattle.std.specs.BinaryHeap.{IsHeap, heap_items, heap_len, heap_capacity};
ghost use Rattle.std.specs.VecDeque.{deque_len, deque_capacity};
ghost use Rattle.tandem_base.specs.Places.{comes_before};
ghost use Rattle.kept_ops.specs.Arrivals.{PlacesRise, earliest_on_top, stays, unreversed};

use std::alloc::{AllocError, Global};
use std::cmp::Reverse;
use std::collections::{BinaryHeap, VecDeque};
use std::marker::Model;
use tandem_base::Position;

/// The place of an operation, and the key under which it is kept.
#[derive(Clone, Copy, Debug, PartialEq, Eq, PartialOrd, Ord)]
pub struct Arrival {
    pub place: Position,
    pub key: u32,
}

/// Places that came one after the other. Most come in their order; those that come after a later one
/// stand in a heap.
#[derive(Drop)]
pub struct Arrivals {
    rising: VecDeque<Arrival>,
    late: BinaryHeap<Reverse<Arrival>>,
    capacity: u32,
}

impl Model for Arrivals {
    ghost use Rattle.std.specs.Prelude.{◌≡◌, ◌+◌, ◌≤◌, ◌++◌, length};
    ghost use Rattle.std.specs.BinaryHeap.{IsHeap, heap_items, heap_len, heap_capacity};
    ghost use Rattle.std.specs.VecDeque.{deque_len, deque_capacity};
    ghost use Rattle.kept_ops.specs.Arrivals.{ArrivalList, PlacesRise, earliest_on_top, unreversed};

    ghost Value = { ArrivalList };

    ghost view = { λ a. record { items = a.rising.items ++ unreversed (heap_items a.late); capacity = a.capacity } };

    ghost invariant = { λ a. PlacesRise a.rising.items × IsHeap earliest_on_top (heap_items a.late)
        × (deque_len a.rising + heap_len a.late ≤ a.capacity) × (a.capacity ≤ deque_capacity a.rising)
        × (a.capacity ≤ heap_capacity a.late) };
}

/// Whether a place is after the oldest that still matters; none is where there is no such place.
fn stays(oldest: Option<Position>, place: Position) -> bool
    ensures { result ≡ stays oldest place }
{
    match oldest {
        None => false,
        Some(oldest) => oldest.is_before(&place),
    }
}

/// Whether a place is after all those that rise.
fn rises(rising: &VecDeque<Arrival>, place: Position) -> bool
    requires { PlacesRise rising.now.items }
    ensures { result ≡ true → All (λ a. comes_before a.place place ≡ true) rising.now.items }
{
    match rising.back() {
        Some(last) => last.place.is_before(&place),
        None => true,
    }
}

/// Puts a place after those that rise.
fn add_rising(rising: &mut VecDeque<Arrival>, arrival: Arrival)
    requires rises { PlacesRise rising.old.items }
    requires after { All (λ a. comes_before a.place arrival.place ≡ true) rising.old.items }
    requires room { deque_len rising.old < deque_capacity rising.old }
    ensures items { rising.new.items ≡ rising.old.items ++ arrival ∷ [] }
    ensures rises { PlacesRise rising.new.items }
    ensures len { deque_len rising.new ≡ deque_len rising.old + 1 }
    ensures capacity { deque_capacity rising.old ≤ deque_capacity rising.new }
{
    match rising.push_back(arrival) {
        Ok(()) => {}
        Err(_) => unreachable!(),
    }
}

/// Puts a place among those that came late.
fn add_late(late: &mut BinaryHeap<Reverse<Arrival>>, arrival: Arrival)
    requires heap { IsHeap earliest_on_top (heap_items late.old) }
    requires room { heap_len late.old < heap_capacity late.old }
    ensures items { IsPermutation (arrival ∷ unreversed (heap_items late.old)) (unreversed (heap_items late.new)) }
    ensures heap { IsHeap earliest_on_top (heap_items late.new) }
    ensures len { heap_len late.new ≡ heap_len late.old + 1 }
    ensures capacity { heap_capacity late.old ≤ heap_capacity late.new }
{
    match late.push(Reverse(arrival)) {
        Ok(()) => {}
        Err(_) => unreachable!(),
    }
}

/// Takes the first of those that rise, if it doesn't stay.
fn take_rising(rising: &mut VecDeque<Arrival>, oldest: Option<Position>) -> Option<Arrival>
    requires { PlacesRise rising.old.items }
    ensures gone { IfSome result (λ a. stays oldest a.place ≡ false) }
    ensures rest { IfSome result (λ a. rising.old.items ≡ a ∷ rising.new.items) }
    ensures none { IfNone result (All (λ a. stays oldest a.place ≡ true) rising.old.items) }
    ensures same { IfNone result (rising.new ≡ rising.old) }
    ensures rises { PlacesRise rising.new.items }
    ensures len { deque_len rising.new ≤ deque_len rising.old }
    ensures capacity { deque_capacity rising.new ≡ deque_capacity rising.old }
{
    match rising.front() {
        None => return None,
        Some(first) => {
            if stays(oldest, first.place) {
                return None;
            }
        }
    }
    rising.pop_front()
}

/// Takes the earliest of those that came late, if it doesn't stay.
fn take_late(late: &mut BinaryHeap<Reverse<Arrival>>, oldest: Option<Position>) -> Option<Arrival>
    requires { IsHeap earliest_on_top (heap_items late.old) }
    ensures gone { IfSome result (λ a. stays oldest a.place ≡ false) }
    ensures rest { IfSome result (λ a. IsPermutation (unreversed (heap_items late.old))
        (a ∷ unreversed (heap_items late.new))) }
    ensures none { IfNone result (All (λ a. stays oldest a.place ≡ true) (unreversed (heap_items late.old))) }
    ensures same { IfNone result (late.new ≡ late.old) }
    ensures heap { IsHeap earliest_on_top (heap_items late.new) }
    ensures len { heap_len late.new ≤ heap_len late.old }
    ensures capacity { heap_capacity late.new ≡ heap_capacity late.old }
{
    match late.peek() {
        None => return None,
        Some(first) => {
            if stays(oldest, first.0.place) {
                return None;
            }
        }
    }
    match late.pop() {
        None => None,
        Some(first) => Some(first.0),
    }
}

impl Arrivals {
    ghost use Rattle.std.specs.Prelude.{◌≡◌, ◌+◌, ◌<◌, ◌≤◌, [], ◌∷◌, length, IfOk, IfSome, IfNone, All, true, false};
    ghost use Rattle.std.specs.List.Sorted.{IsPermutation};
    ghost use Rattle.kept_ops.specs.Arrivals.{ArrivalList, stays};

    /// No places, with room for `capacity` of them.
    pub fn new(alloc: Global, capacity: u32) -> Result<Arrivals, AllocError>
        ensures { IfOk result (λ made. made ≡ record { items = []; capacity = capacity }) }
    {
        Ok(Arrivals {
            rising: VecDeque::with_capacity(alloc, capacity as usize)?,
            late: BinaryHeap::with_capacity(alloc, capacity as usize)?,
            capacity,
        })
    }

    /// One more.
    pub fn add(&mut self, arrival: Arrival)
        requires { length self.old.items < self.old.capacity }
        ensures items { IsPermutation (arrival ∷ self.old.items) self.new.items }
        ensures capacity { self.new.capacity ≡ self.old.capacity }
    {
        if rises(&self.rising, arrival.place) {
            add_rising(&mut self.rising, arrival);
        } else {
            add_late(&mut self.late, arrival);
        }
    }

    /// Takes one whose place doesn't stay, if there is one.
    pub fn take(&mut self, oldest: Option<Position>) -> Option<Arrival>
        ensures gone { IfSome result (λ a. stays oldest a.place ≡ false) }
        ensures rest { IfSome result (λ a. IsPermutation self.old.items (a ∷ self.new.items)) }
        ensures none { IfNone result (All (λ a. stays oldest a.place ≡ true) self.new.items) }
        ensures same { IfNone result (self.new ≡ self.old) }
        ensures capacity { self.new.capacity ≡ self.old.capacity }
    {
        match take_rising(&mut self.rising, oldest) {
            Some(arrival) => Some(arrival),
            None => take_late(&mut self.late, oldest),
        }
    }
}
