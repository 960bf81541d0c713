//! The Reads that count for a load.

ghost use Rattle.std.specs.Prelude.{◌≡◌, ◌≢◌, ◌+◌, ◌<◌, ◌≤◌, ◌==◌, ◌&&◌, ℕ, List, Some, None, length, slice_index};
ghost use Rattle.std.specs.Prelude.{IfSome, IfNone, is_some, true, false, slice_index_or};
ghost use Rattle.slab.specs.Slab.{get};
ghost use Rattle.tag_window.specs.declared.order.Arrival.{Arrival as Item};
ghost use Rattle.tag_window.specs.Order.{IsTagChain};
ghost use Rattle.tag_window.specs.Slots.{AreLinked, FindsAt, HasAll, IsFirstSame, IsFirstWithout, noted, slot_with};
ghost use Rattle.msg_frames.specs.Pieces.{has};

use crate::links::{Link, link_at};
use crate::reports::Read;
use msg_frames::Piece;
use slab::Slab;
use tandem_base::Extent;

/// The Reads that count for the bytes of a load.
#[derive(Clone, Copy, Debug, PartialEq, Eq)]
pub enum Counting {
    /// Each byte has one. The bytes that count from one Read are a part of the load, which goes by the
    /// lowest of them: for each byte of the load, the part that it is in.
    All([u8; 8]),
    /// A byte has none; the lowest such address.
    Missing(u64),
}

/// Whether a piece has the byte at an address.
fn has_byte(piece: &Piece, addr: u64) -> bool
    ensures { result ≡ has piece.now addr }
{
    piece.addr <= addr && addr - piece.addr < u64::from(piece.bytes.len())
}

/// The slot of the newest of the linked Reads that has the byte at an address.
pub fn find(links: &Slab<Link>, reads: &Vec<Read>, head: Option<usize>, addr: u64) -> Option<usize>
    requires { AreLinked links.now head (length reads.now.items) }
    ensures { (cs : List Item) → IsTagChain (get links.now) head cs → result ≡ slot_with addr reads.now.items cs }
{
    let mut at = head;
    let mut left = links.len();
    while left > 0 {
        match at {
            None => return None,
            Some(slot) => {
                if has_byte(&reads[slot].piece, addr) {
                    return Some(slot);
                }
                at = link_at(links, slot).older;
            }
        }
        left -= 1;
    }
    None
}

/// Whether a piece has all bytes of a load.
fn covers(piece: &Piece, load: &Extent) -> bool
    ensures { result ≡ true → (k : ℕ) → k < load.now.len → has piece.now (load.now.addr + k) ≡ true }
{
    if load.addr < piece.addr {
        return false;
    }
    let before = load.addr - piece.addr;
    before < 8 && before + u64::from(load.len) <= u64::from(piece.bytes.len())
}

/// Whether there is a Read in front, and it has all bytes of a load.
pub fn first_has_all(reads: &Vec<Read>, head: Option<usize>, load: &Extent) -> bool
    requires { (slot : ℕ) → head ≡ Some slot → slot < length reads.now.items }
    ensures { result ≡ true → HasAll reads.now.items head load.now }
{
    match head {
        None => false,
        Some(slot) => covers(&reads[slot].piece, load),
    }
}

/// Whether a piece has one of the bytes of a load.
fn meets(piece: &Piece, load: &Extent) -> bool
    ensures { result ≡ false → (k : ℕ) → k < load.now.len → has piece.now (load.now.addr + k) ≡ false }
{
    if piece.addr <= load.addr {
        load.addr - piece.addr < u64::from(piece.bytes.len())
    } else {
        piece.addr - load.addr < u64::from(load.len)
    }
}

/// The slot of a byte, once a Read in this one was seen that has the byte or not: the first such stays.
fn first_seen(first: Option<usize>, has: bool, slot: usize) -> Option<usize>
    ensures { result ≡ noted has slot first }
{
    match first {
        Some(first) => Some(first),
        None => { if has { Some(slot) } else { None } }
    }
}

/// Notes a slot at those bytes of a load that its piece has and that have none yet.
fn note(piece: &Piece, slot: usize, load: &Extent, slots: &mut [Option<usize>; 8])
    ensures { (k : ℕ) → k < load.now.len → slice_index_or slots.new k None
        ≡ noted (has piece.now (load.now.addr + k)) slot (slice_index_or slots.old k None) }
{
    for k in 0..load.len {
        let has = has_byte(piece, load.addr + u64::from(k));
        let first = slots[k as usize];
        slots[k as usize] = first_seen(first, has, slot);
    }
}

/// The first of so many bytes that has no slot.
pub fn first_without(slots: &[Option<usize>; 8], len: u8) -> Option<u8>
    requires { len ≤ 8 }
    ensures none { IfNone result ((k : ℕ) → k < len → is_some (slice_index_or slots.now k None) ≡ true) }
    ensures first { IfSome result (λ k. IsFirstWithout slots.now len k) }
{
    for k in 0..len {
        if slots[k as usize].is_none() {
            return Some(k);
        }
    }
    None
}

/// Notes a slot likewise, and answers whether each byte has one now.
fn completes(piece: &Piece, slot: usize, load: &Extent, slots: &mut [Option<usize>; 8]) -> bool
    ensures noted { (k : ℕ) → k < load.now.len → slice_index_or slots.new k None
        ≡ noted (has piece.now (load.now.addr + k)) slot (slice_index_or slots.old k None) }
    ensures whole { result ≡ true → (k : ℕ) → k < load.now.len → is_some (slice_index_or slots.new k None) ≡ true }
{
    if !meets(piece, load) {
        return false;
    }
    note(piece, slot, load, slots);
    first_without(slots, load.len).is_none()
}

/// The slots of the Reads that count for the bytes of a load: from the newest back, each takes those
/// bytes that are still wanted.
pub fn slots_of(
    links: &Slab<Link>,
    reads: &Vec<Read>,
    head: Option<usize>,
    load: &Extent,
    slots: &mut [Option<usize>; 8],
)
    requires linked { AreLinked links.now head (length reads.now.items) }
    requires empty { (k : ℕ) → k < 8 → slice_index_or slots.old k None ≡ None }
    ensures { (k : ℕ) → k < load.now.len →
        FindsAt links.now head reads.now.items (load.now.addr + k) (slice_index_or slots.new k None) }
{
    let mut at = head;
    let mut left = links.len();
    while left > 0 {
        match at {
            None => return,
            Some(slot) => {
                if completes(&reads[slot].piece, slot, load, slots) {
                    return;
                }
                at = link_at(links, slot).older;
            }
        }
        left -= 1;
    }
}

/// The lowest byte that counts from the same slot as this one.
fn first_same(slots: &[Option<usize>; 8], k: u8) -> u8
    requires { k < 8 }
    ensures { IsFirstSame slots.now k result }
{
    for j in 0..k {
        if slots[j as usize] == slots[k as usize] {
            return j;
        }
    }
    k
}

/// For each of the first bytes, the lowest that counts from the same slot.
pub fn parts_of(slots: &[Option<usize>; 8], len: u8) -> [u8; 8]
    requires { len ≤ 8 }
    ensures { (k : ℕ) → k < len → IsFirstSame slots.now k (slice_index result k) }
{
    let mut parts = [0; 8];
    for k in 0..len {
        parts[k as usize] = first_same(slots, k);
    }
    parts
}
