//! The newest slot of each tag, by rising tag.

ghost use Rattle.std.specs.Prelude.{◌≡◌, ◌<◌, ◌≤◌, ◌==◌, ℕ, length, Some, None, IfSome, IfNone};
ghost use Rattle.std.specs.Prelude.{if◌then◌else◌};
ghost use Rattle.std.specs.VecDeque.{deque_capacity};
ghost use Rattle.tag_window.specs.Order.{TagsRise, slot_under, IsRank, SplitsAt, FitsAt};

use std::collections::VecDeque;

/// A tag, and the slot of the newest report under it.
#[derive(Clone, Copy, Debug)]
pub struct Newest {
    pub tag: u64,
    pub slot: usize,
}

/// How many of the tags are below this one. A tag at either end is found at once.
pub fn rank(newest: &VecDeque<Newest>, tag: u64) -> usize
    requires { TagsRise newest.now.items }
    ensures { IsRank newest.now.items tag result }
{
    let count = newest.len();
    if count == 0 {
        return 0;
    }
    let last = newest[count - 1].tag;
    if last < tag {
        return count;
    }
    if last == tag {
        return count - 1;
    }
    if tag <= newest[0].tag {
        return 0;
    }
    halve(newest, tag)
}

/// The same, by halving.
fn halve(newest: &VecDeque<Newest>, tag: u64) -> usize
    requires { TagsRise newest.now.items }
    ensures { IsRank newest.now.items tag result }
{
    let mut low = 0;
    let mut high = newest.len();
    while low < high {
        let middle = low + (high - low) / 2;
        if newest[middle].tag < tag {
            low = middle + 1;
        } else {
            high = middle;
        }
    }
    low
}

/// The slot at a tag's rank, where it is the tag's own.
fn slot_at(newest: &VecDeque<Newest>, k: usize, tag: u64) -> Option<usize>
    requires rises { TagsRise newest.now.items }
    requires rank { IsRank newest.now.items tag k }
    ensures own { IfSome result (λ slot. SplitsAt newest.now.items k tag slot) }
    ensures other { IfNone result (FitsAt newest.now.items k tag) }
{
    match newest.get(k) {
        None => None,
        Some(item) => {
            if item.tag == tag {
                Some(item.slot)
            } else {
                None
            }
        }
    }
}

/// The newest slot of a tag.
pub fn slot_of(newest: &VecDeque<Newest>, tag: u64) -> Option<usize>
    requires { TagsRise newest.now.items }
    ensures { result ≡ slot_under newest.now.items tag }
{
    let k = rank(newest, tag);
    slot_at(newest, k, tag)
}

/// Makes a slot the newest of its tag, and answers the one that was.
pub fn put(newest: &mut VecDeque<Newest>, tag: u64, slot: usize) -> Option<usize>
    requires rises { TagsRise newest.old.items }
    requires room { length newest.old.items < deque_capacity newest.old }
    ensures was { result ≡ slot_under newest.old.items tag }
    ensures rises { TagsRise newest.new.items }
    ensures slots { (u : ℕ) → slot_under newest.new.items u
        ≡ (if u == tag then Some slot else slot_under newest.old.items u) }
    ensures capacity { deque_capacity newest.old ≤ deque_capacity newest.new }
{
    let k = rank(newest, tag);
    match slot_at(newest, k, tag) {
        Some(was) => {
            newest[k] = Newest { tag, slot };
            Some(was)
        }
        None => match newest.insert(k, Newest { tag, slot }) {
            Ok(()) => None,
            Err(_) => unreachable!(),
        },
    }
}

/// Takes a tag away, and answers its newest slot.
pub fn take(newest: &mut VecDeque<Newest>, tag: u64) -> Option<usize>
    requires rises { TagsRise newest.old.items }
    ensures was { result ≡ slot_under newest.old.items tag }
    ensures rises { TagsRise newest.new.items }
    ensures slots { (u : ℕ) → slot_under newest.new.items u
        ≡ (if u == tag then None else slot_under newest.old.items u) }
    ensures capacity { deque_capacity newest.new ≡ deque_capacity newest.old }
{
    let k = rank(newest, tag);
    match slot_at(newest, k, tag) {
        None => None,
        Some(was) => {
            newest.remove(k);
            Some(was)
        }
    }
}

/// Takes the lowest tag away, where it is at most this one.
pub fn take_first(newest: &mut VecDeque<Newest>, tag: u64) -> Option<Newest>
    requires rises { TagsRise newest.old.items }
    ensures taken { IfSome result (λ n. (n.tag ≤ tag) × (slot_under newest.old.items n.tag ≡ Some n.slot)) }
    ensures slots { IfSome result (λ n. (u : ℕ) → slot_under newest.new.items u
        ≡ (if u == n.tag then None else slot_under newest.old.items u)) }
    ensures none { IfNone result ((u : ℕ) → u ≤ tag → slot_under newest.old.items u ≡ None) }
    ensures unchanged { IfNone result (newest.new.items ≡ newest.old.items) }
    ensures rises { TagsRise newest.new.items }
    ensures fewer { length newest.new.items ≤ length newest.old.items }
    ensures capacity { deque_capacity newest.new ≡ deque_capacity newest.old }
{
    match newest.front() {
        None => return None,
        Some(first) => {
            if tag < first.tag {
                return None;
            }
        }
    }
    newest.pop_front()
}

/// Takes the highest tag away, where it is at least this one.
pub fn take_last(newest: &mut VecDeque<Newest>, tag: u64) -> Option<Newest>
    requires rises { TagsRise newest.old.items }
    ensures taken { IfSome result (λ n. (tag ≤ n.tag) × (slot_under newest.old.items n.tag ≡ Some n.slot)) }
    ensures slots { IfSome result (λ n. (u : ℕ) → slot_under newest.new.items u
        ≡ (if u == n.tag then None else slot_under newest.old.items u)) }
    ensures none { IfNone result ((u : ℕ) → tag ≤ u → slot_under newest.old.items u ≡ None) }
    ensures unchanged { IfNone result (newest.new.items ≡ newest.old.items) }
    ensures rises { TagsRise newest.new.items }
    ensures fewer { length newest.new.items ≤ length newest.old.items }
    ensures capacity { deque_capacity newest.new ≡ deque_capacity newest.old }
{
    match newest.back() {
        None => return None,
        Some(last) => {
            if last.tag < tag {
                return None;
            }
        }
    }
    newest.pop_back()
}
