//! The calls that a few streams cause, and a window that is full.

ghost use Rattle.std.specs.Prelude.{◌≡◌, ◌+◌, IfOk};
ghost use Rattle.tag_window.specs.Windows.{ComesAfter};

use byte_memory::{Capture, StoreCapture};
use msg_frames::Piece;
use std::alloc::{AllocError, Global};
use std::test::Fail;
use tag_window::{Counting, Tags};
use tandem_base::{Bytes8, Extent, Position, Took};

const X: u64 = 0x8000_1000;

const Y: u64 = 0x8000_1040;

/// What a report of this message saw of memory that nothing was stored to.
fn seen(addr: u64, message: u32) -> Capture
    ensures { result.place ≡ record { message = message; insert = message } }
{
    Capture {
        place: Position {
            message,
            insert: message,
        },
        base: addr,
        values: [0; 8],
        last: [None; 8],
    }
}

/// An empty window, before message 1.
fn empty(alloc: Global, capacity: u32) -> Result<Tags, AllocError>
    ensures { IfOk result (λ tags. ComesAfter 1 tags) }
{
    Tags::new(alloc, capacity)
}

/// A Read of a number, at a message after all others. None where it isn't one to eight bytes.
fn read(tags: &mut Tags, tag: u64, addr: u64, value: &[u8], message: u32) -> Option<Took>
    requires { ComesAfter message tags.old }
    ensures { ComesAfter (message + 1) tags.new }
{
    let bytes = Bytes8::new(value)?;
    Some(tags.read(tag, &Piece { addr, bytes }, &seen(addr, message)))
}

/// An early Bypass, likewise.
fn bypass(tags: &mut Tags, tag: u64, addr: u64, value: &[u8], message: u32) -> Option<Took>
    requires { ComesAfter message tags.old }
    ensures { ComesAfter (message + 1) tags.new }
{
    let bytes = Bytes8::new(value)?;
    let before = StoreCapture {
        seen: seen(addr, message),
        other: [None; 8],
        foreign: None,
    };
    Some(tags.early(tag, &Piece { addr, bytes }, &before))
}

/// The message of the Read that counts for a byte.
fn counts(tags: &Tags, tag: u64, addr: u64) -> Option<u32> {
    match tags.counting_at(tag, addr) {
        None => None,
        Some(read) => Some(read.seen.place.message),
    }
}

/// What counts for this many bytes.
fn counting(tags: &Tags, tag: u64, addr: u64, len: u8) -> Option<Counting> {
    let extent = Extent::new(addr, len)?;
    Some(tags.counting(tag, &extent))
}

/// The message of the oldest report.
fn oldest(tags: &Tags) -> Option<u32> {
    match tags.oldest() {
        None => None,
        Some(place) => Some(place.message),
    }
}

/// The address of the early Bypass of a tag.
fn bypass_of(tags: &Tags, tag: u64) -> Option<u64> {
    match tags.early_of(tag) {
        None => None,
        Some(early) => Some(early.piece.addr),
    }
}

const ZERO: [u8; 4] = [0; 4];

const ONE: [u8; 4] = [1, 0, 0, 0];

/// Two loads that are performed in program order.
fn two_reads(alloc: Global) -> Result<Tags, AllocError> {
    let mut tags = empty(alloc, 8)?;
    read(&mut tags, 1, Y, &ONE, 1);
    read(&mut tags, 2, X, &ZERO, 2);
    Ok(tags)
}

/// The younger of two loads is performed first, and later once more.
fn replayed(alloc: Global) -> Result<Tags, AllocError> {
    let mut tags = empty(alloc, 8)?;
    read(&mut tags, 2, X, &ZERO, 1);
    read(&mut tags, 1, X, &ONE, 2);
    read(&mut tags, 2, X, &ONE, 3);
    Ok(tags)
}

/// An LR, and an SC after it.
fn pair(alloc: Global) -> Result<Tags, AllocError> {
    let mut tags = empty(alloc, 8)?;
    read(&mut tags, 1, X, &[0; 8], 1);
    bypass(&mut tags, 3, X, &ONE, 2);
    Ok(tags)
}

/// Whether these are the message of the oldest report and how many reports there are.
fn open_are(tags: &Tags, first: Option<u32>, live: u32) -> bool {
    oldest(tags) == first && tags.live() == live
}

/// Whether these messages' Reads count for the byte at X of tag 1 and of tag 2.
fn at_x(tags: &Tags, one: Option<u32>, two: Option<u32>) -> bool {
    counts(tags, 1, X) == one && counts(tags, 2, X) == two
}

/// The two loads retire.
fn retires_in_order(tags: &mut Tags) -> bool {
    let before = at_x(tags, None, Some(2))
        && counts(tags, 1, Y) == Some(1)
        && open_are(tags, Some(1), 2);
    tags.retire(1);
    let between = at_x(tags, None, Some(2))
        && counts(tags, 1, Y) == None
        && open_are(tags, Some(2), 1);
    tags.retire(2);
    before && between && at_x(tags, None, None) && open_are(tags, None, 0)
}

/// The two loads retire, of which the younger was performed twice.
fn retires_after_a_replay(tags: &mut Tags) -> bool {
    let before = at_x(tags, Some(2), Some(3)) && open_are(tags, Some(1), 3);
    tags.retire(1);
    let between = at_x(tags, None, Some(3)) && open_are(tags, Some(1), 2);
    tags.retire(2);
    before && between && at_x(tags, None, None) && open_are(tags, None, 0)
}

/// The LR is squashed, and an instruction retires before the SC and the SC.
fn keeps_the_bypass(tags: &mut Tags) -> bool {
    let before = counting(tags, 1, X, 8) == Some(Counting::All([0; 8]))
        && counts(tags, 3, X) == None;
    let strays = tags.stray(3) == None && tags.stray(4) == Some(3);
    tags.squash(0);
    let squashed = open_are(tags, Some(2), 1) && bypass_of(tags, 3) == Some(X);
    tags.retire(2);
    let stays = open_are(tags, Some(2), 1) && bypass_of(tags, 2) == None;
    tags.retire(3);
    before && strays && squashed && stays && open_are(tags, None, 0) && bypass_of(tags, 3) == None
}

/// Three Reads, of which two of tag 1 share two bytes, and what counts before and after a Squash of tag 2.
fn counts_by_bytes(tags: &mut Tags) -> bool
    requires { ComesAfter 1 tags.old }
{
    read(tags, 1, X, &ZERO, 1);
    read(tags, 1, X + 2, &ONE, 2);
    read(tags, 2, X + 6, &ONE, 3);
    let all = counting(tags, 1, X, 6) == Some(Counting::All([0, 0, 2, 2, 2, 2, 0, 0]));
    let missing = counting(tags, 1, X, 8) == Some(Counting::Missing(X + 6));
    tags.squash(2);
    all && missing
        && counting(tags, 2, X + 6, 2) == Some(Counting::Missing(X + 6))
        && tags.live() == 2
}

/// A window with room for two takes a Read and a Bypass, and no more of either.
fn fills(tags: &mut Tags) -> bool
    requires { ComesAfter 1 tags.old }
{
    let first = read(tags, 1, X, &ZERO, 1) == Some(Took::Yes);
    let second = bypass(tags, 2, X, &ONE, 2) == Some(Took::Yes);
    let third = read(tags, 3, X, &ZERO, 3) == Some(Took::Full(2));
    let fourth = bypass(tags, 4, X, &ZERO, 4) == Some(Took::Full(2));
    let unchanged = tags.live() == 2 && counts(tags, 3, X) == None && bypass_of(tags, 4) == None;
    first && second && third && fourth && unchanged
}

#[test]
fn a_retire_drops_its_read(rt: HostRuntime) -> Result<(), Fail> {
    let mut tags = two_reads(rt.alloc())?;
    assert!(rt; retires_in_order(&mut tags));
    Ok(())
}

#[test]
fn the_latest_read_of_a_tag_counts(rt: HostRuntime) -> Result<(), Fail> {
    let mut tags = replayed(rt.alloc())?;
    assert!(rt; retires_after_a_replay(&mut tags));
    Ok(())
}

#[test]
fn a_squash_drops_no_bypass(rt: HostRuntime) -> Result<(), Fail> {
    let mut tags = pair(rt.alloc())?;
    assert!(rt; keeps_the_bypass(&mut tags));
    Ok(())
}

#[test]
fn bytes_count_each_from_their_read(rt: HostRuntime) -> Result<(), Fail> {
    let mut tags = empty(rt.alloc(), 8)?;
    assert!(rt; counts_by_bytes(&mut tags));
    Ok(())
}

#[test]
fn a_full_window_takes_no_more(rt: HostRuntime) -> Result<(), Fail> {
    let mut tags = empty(rt.alloc(), 2)?;
    assert!(rt; fills(&mut tags));
    Ok(())
}
