//! Stores of one hart on the line at X, which is 0x80001000.

ghost use Rattle.std.specs.Prelude.{◌≡◌, ◌+◌, IfOk, IfSome, length};
ghost use Rattle.store_buffer.specs.Stores.{AllTagged, open_stores};

use crate::{BrokenPair, check_drain, check_write};
use merge_buffer::Part;
use msg_frames::Piece;
use std::alloc::{AllocError, Global};
use std::test::Fail;
use store_buffer::{StoreMarks, Stores};
use tandem_base::{Bytes8, Extent, OpName};

const X: u64 = 0x8000_1000;

/// No stores, before the first one retires.
fn empty(alloc: Global) -> Result<Stores, AllocError>
    ensures newest { IfOk result (λ made. AllTagged 1 made.stores) }
    ensures swept { IfOk result (λ made. open_stores made.stores ≡ made.stores) }
{
    Stores::new(alloc, 5, 4)
}

/// A store of four bytes retires, with a tag left for a FENCE behind it.
fn retire(stores: &mut Stores, tag: u64, addr: u64, fence: Option<u64>, release: bool) -> Option<()>
    requires newest { AllTagged tag stores.old.stores }
    requires swept { open_stores stores.old.stores ≡ stores.old.stores }
    ensures newest { AllTagged (tag + 2) stores.new.stores }
    ensures swept { open_stores stores.new.stores ≡ stores.new.stores }
{
    let bytes = Bytes8::new(&[1, 2, 3, 4])?;
    if u128::from(addr) + u128::from(bytes.len()) > 1 << 64 {
        return None;
    }
    let marks = StoreMarks {
        fence,
        release,
        lead: None,
    };
    stores.retire(tag, &Piece { addr, bytes }, &marks);
    Some(())
}

/// The first two of them are performed.
fn perform(stores: &mut Stores, tag: u64, addr: u64) -> Option<Part>
    ensures { IfSome result (λ part. (part.piece.addr ≡ addr) × (length part.piece.bytes ≡ 2)) }
{
    let extent = Extent::new(addr, 2)?;
    stores.performed(tag, &extent);
    let bytes = Bytes8::new(&[1, 2])?;
    Some(Part {
        tag,
        piece: Piece { addr, bytes },
        number: 1,
    })
}

fn name(tag: u64) -> OpName {
    OpName {
        hart: 5,
        tag,
        part: 0,
    }
}

fn pair(rule: u8, first: u64, second: u64) -> Option<BrokenPair> {
    Some(BrokenPair {
        rule,
        first: name(first),
        second: name(second),
    })
}

/// What a Bypass of the store under tag 3 breaks, where the one at X, under tag 1, waits.
fn bypass(
    alloc: Global,
    addr: u64,
    fence: Option<u64>,
    release: bool,
) -> Result<Option<BrokenPair>, Fail> {
    let mut stores = empty(alloc)?;
    retire(&mut stores, 1, X, None, false);
    retire(&mut stores, 3, addr, fence, release);
    let part = perform(&mut stores, 3, addr).ok_or("no part")?;
    Ok(check_write(5, &part, &stores))
}

/// What a Write breaks that drains parts at X of three stores, the last drained first.
fn drain(alloc: Global, tags: [u64; 3]) -> Result<Option<BrokenPair>, Fail> {
    let mut stores = empty(alloc)?;
    retire(&mut stores, 1, X, None, false);
    retire(&mut stores, 3, X, None, false);
    retire(&mut stores, 5, X, None, false);
    let last = perform(&mut stores, tags[0], X).ok_or("no part")?;
    let middle = perform(&mut stores, tags[1], X).ok_or("no part")?;
    let earliest = perform(&mut stores, tags[2], X).ok_or("no part")?;
    Ok(check_drain(5, &[last, middle, earliest], &stores))
}

#[test]
fn the_least_rule_is_reported(rt: HostRuntime) -> Result<(), Fail> {
    let none = bypass(rt.alloc(), X + 4, None, false)?;
    assert_eq!(rt; none, None);
    let shared = bypass(rt.alloc(), X + 2, Some(2), true)?;
    assert_eq!(rt; shared, pair(1, 1, 3));
    let fenced = bypass(rt.alloc(), X + 4, Some(2), true)?;
    assert_eq!(rt; fenced, pair(4, 1, 3));
    let released = bypass(rt.alloc(), X + 4, None, true)?;
    assert_eq!(rt; released, pair(6, 1, 3));
    Ok(())
}

#[test]
fn the_latest_part_is_first(rt: HostRuntime) -> Result<(), Fail> {
    let rising = drain(rt.alloc(), [5, 3, 1])?;
    assert_eq!(rt; rising, None);
    let falling = drain(rt.alloc(), [1, 3, 5])?;
    assert_eq!(rt; falling, pair(1, 1, 3));
    let late = drain(rt.alloc(), [3, 1, 5])?;
    assert_eq!(rt; late, pair(1, 3, 5));
    Ok(())
}
