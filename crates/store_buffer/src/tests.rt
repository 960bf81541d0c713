//! The calls that a few streams cause, and a table that is full. X is 0x80001000.

ghost use Rattle.std.specs.Prelude.{◌≡◌, ◌+◌, ◌≤◌, ◌<◌, ◌^◌, IfOk, length};
ghost use Rattle.store_buffer.specs.Stores.{AllTagged, open_stores};

use crate::{Pending, StoreMarks, Stores, Taken};
use msg_frames::Piece;
use std::alloc::{AllocError, Global};
use std::test::Fail;
use tandem_base::{Bytes8, Extent, OpName, Took};

const X: u64 = 0x8000_1000;

/// No stores, before the first one retires.
fn empty(alloc: Global, capacity: u32) -> Result<Stores, AllocError>
    ensures newest { IfOk result (λ made. AllTagged 1 made.stores) }
    ensures swept { IfOk result (λ made. open_stores made.stores ≡ made.stores) }
{
    Stores::new(alloc, 5, capacity)
}

/// A store of these bytes retires. None where they aren't one to eight, or pass 2^64.
fn retire(stores: &mut Stores, tag: u64, addr: u64, value: &[u8]) -> Option<Took>
    requires newest { AllTagged tag stores.old.stores }
    requires swept { open_stores stores.old.stores ≡ stores.old.stores }
    ensures newest { AllTagged (tag + 1) stores.new.stores }
    ensures swept { open_stores stores.new.stores ≡ stores.new.stores }
{
    let bytes = Bytes8::new(value)?;
    if u128::from(addr) + u128::from(bytes.len()) > 1 << 64 {
        return None;
    }
    let marks = StoreMarks {
        fence: Some(tag),
        release: false,
        lead: None,
    };
    Some(stores.retire(tag, &Piece { addr, bytes }, &marks))
}

/// Three stores: four bytes at X, eight at X + 8, and four that aren't aligned at X + 1.
fn three(alloc: Global) -> Result<Stores, AllocError> {
    let mut stores = empty(alloc, 4)?;
    retire(&mut stores, 1, X, &[1, 2, 3, 4]);
    retire(&mut stores, 2, X + 8, &[1, 2, 3, 4, 5, 6, 7, 8]);
    retire(&mut stores, 3, X + 1, &[5, 6, 7, 8]);
    Ok(stores)
}

/// The answer to an Insert.
fn insert(stores: &mut Stores, tag: u64, addr: u64, value: &[u8]) -> Option<Taken> {
    let bytes = Bytes8::new(value)?;
    Some(stores.insert(tag, &Piece { addr, bytes }))
}

/// The answer to a Bypass.
fn bypass(stores: &mut Stores, tag: u64, addr: u64, value: &[u8]) -> Option<Taken> {
    let bytes = Bytes8::new(value)?;
    Some(stores.bypass(tag, &Piece { addr, bytes }))
}

/// How many stores have an unperformed byte, once these bytes are performed.
fn left(stores: &mut Stores, tag: u64, addr: u64, len: u8) -> Option<u32> {
    let extent = Extent::new(addr, len)?;
    stores.performed(tag, &extent);
    Some(stores.count())
}

/// The address and the fence of the store of a tag.
fn entry(stores: &Stores, tag: u64) -> Option<(u64, Option<u64>)> {
    match stores.entry(tag) {
        None => None,
        Some(entry) => Some((entry.piece.addr, entry.marks.fence)),
    }
}

/// A byte of a store of hart 5 that waits.
fn byte(tag: u64, byte: u8) -> Option<Pending> {
    Some(Pending { hart: 5, tag, byte })
}

/// What waits of a store of hart 5.
fn name(tag: u64, part: u8) -> Option<OpName> {
    Some(OpName { hart: 5, tag, part })
}

/// What waits below a tag over an extent.
fn over(stores: &Stores, below: u64, addr: u64, len: u8) -> Option<OpName> {
    let extent = Extent::new(addr, len)?;
    stores.waiting(below, Some(&extent))
}

/// One store of eight bytes at X + k.
fn one(alloc: Global, k: u64) -> Result<Stores, AllocError>
    requires { k < 8 }
{
    let mut stores = empty(alloc, 4)?;
    retire(&mut stores, 1, X + k, &[1, 2, 3, 4, 5, 6, 7, 8]);
    Ok(stores)
}

/// Of a store of eight bytes each waits, and none beside it; of its second half each by itself.
fn waits_in_halves(stores: &mut Stores, from: u64) -> bool
    requires { (2147487744 ≤ from) × (from < 2147487752) }
{
    let mut all = stores.pending_at(from - 1) == None && stores.pending_at(from + 8) == None;
    for j in 0..8_u8 {
        all = all && stores.pending_at(from + u64::from(j)) == byte(1, j + 1);
    }
    let first = left(stores, 1, from, 4) == Some(1);
    let half = stores.pending_at(from + 3) == None && stores.pending_at(from + 4) == byte(1, 5);
    let told = stores.waiting(2, None) == name(1, 4)
        && over(stores, 2, from + 3, 2) == name(1, 4)
        && over(stores, 2, from + 6, 2) == name(1, 4)
        && over(stores, 2, from, 4) == None;
    all && first
        && half
        && told
        && left(stores, 1, from + 4, 4) == Some(0)
        && stores.pending_at(from + 7) == None
        && stores.waiting(2, None) == None
}

/// A store of which the middle was inserted and performed, over an older one.
fn waits_in_parts(stores: &mut Stores) -> bool {
    insert(stores, 3, X + 2, &[6, 7]);
    let inserted = stores.pending_at(X + 2) == byte(3, 6) && stores.waiting(9, None) == name(3, 0);
    let middle = left(stores, 3, X + 2, 2) == Some(3)
        && stores.pending_at(X + 1) == byte(3, 5)
        && stores.pending_at(X + 2) == byte(1, 3)
        && stores.pending_at(X + 4) == byte(3, 8)
        && over(stores, 9, X + 2, 2) == name(1, 0)
        && over(stores, 9, X + 3, 2) == name(3, 0);
    let first = left(stores, 3, X + 1, 1) == Some(3)
        && stores.pending_at(X + 1) == byte(1, 2)
        && stores.waiting(9, None) == name(3, 3);
    inserted && middle && first
}

/// What waits below a bound, over an extent and over all.
fn waits_below_a_bound(stores: &Stores) -> bool {
    let all = stores.waiting(4, None) == name(3, 0)
        && stores.waiting(3, None) == name(2, 0)
        && stores.waiting(1, None) == None;
    let some = over(stores, 4, X, 4) == name(3, 0)
        && over(stores, 3, X, 4) == name(1, 0)
        && over(stores, 4, X, 1) == name(1, 0)
        && over(stores, 4, X + 4, 8) == name(3, 0)
        && over(stores, 4, X + 5, 8) == name(2, 0)
        && over(stores, 4, X + 5, 3) == None;
    all && some
}

/// Inserts that are refused, each for its first cause.
fn refuses(stores: &mut Stores) -> bool {
    let at = X + 9;
    let unknown = insert(stores, 4, X, &[1]) == Some(Taken::Unknown)
        && insert(stores, 1, X + 3, &[4, 5]) == Some(Taken::Unknown)
        && insert(stores, 1, X + 4, &[0]) == Some(Taken::Unknown);
    let wrong = insert(stores, 2, X + 8, &[1, 0, 0])
        == Some(Taken::Wrong {
            at,
            want: 2,
            got: 0,
        });
    let torn = insert(stores, 2, X + 8, &[1, 2, 3]) == Some(Taken::Torn)
        && insert(stores, 1, X, &[1, 2, 3]) == Some(Taken::Torn);
    unknown && wrong && torn && stores.count() == 3
}

/// A store that isn't aligned is taken and performed byte by byte, and each byte once.
fn takes_parts(stores: &mut Stores) -> bool {
    let first = insert(stores, 3, X + 2, &[6, 7]) == Some(Taken::Yes)
        && insert(stores, 3, X + 3, &[7, 8]) == Some(Taken::Unknown)
        && insert(stores, 3, X + 1, &[5]) == Some(Taken::Yes);
    let second = left(stores, 3, X + 2, 2) == Some(3)
        && bypass(stores, 3, X + 2, &[6]) == Some(Taken::Unknown)
        && bypass(stores, 3, X + 4, &[8]) == Some(Taken::Yes);
    let third = left(stores, 3, X + 4, 1) == Some(3) && left(stores, 3, X + 1, 1) == Some(2);
    first && second && third
}

/// A store of which the last byte was performed is told of until the next sweep.
fn forgets_at_a_sweep(stores: &mut Stores) -> bool {
    let whole = insert(stores, 2, X + 8, &[1, 2, 3, 4, 5, 6, 7, 8]) == Some(Taken::Yes);
    let performed = left(stores, 2, X + 8, 8) == Some(2);
    let told = entry(stores, 2) == Some((X + 8, Some(2)));
    stores.sweep();
    let swept = entry(stores, 2) == None && entry(stores, 3) == Some((X + 1, Some(3)));
    let again = insert(stores, 2, X + 8, &[1]) == Some(Taken::Unknown);
    whole && performed && told && swept && again && stores.count() == 2
}

#[test]
fn what_is_not_the_store_is_refused(rt: HostRuntime) -> Result<(), Fail> {
    let mut stores = three(rt.alloc())?;
    assert!(rt; refuses(&mut stores));
    Ok(())
}

#[test]
fn a_store_is_performed_in_parts(rt: HostRuntime) -> Result<(), Fail> {
    let mut stores = three(rt.alloc())?;
    assert!(rt; takes_parts(&mut stores));
    Ok(())
}

#[test]
fn a_performed_store_stays_until_a_sweep(rt: HostRuntime) -> Result<(), Fail> {
    let mut stores = three(rt.alloc())?;
    assert!(rt; forgets_at_a_sweep(&mut stores));
    Ok(())
}

#[test]
fn a_full_table_takes_no_more(rt: HostRuntime) -> Result<(), Fail> {
    let mut stores = empty(rt.alloc(), 1)?;
    assert_eq!(rt; retire(&mut stores, 1, X, &[1]), Some(Took::Yes));
    assert_eq!(rt; retire(&mut stores, 2, X, &[2]), Some(Took::Full(1)));
    assert_eq!(rt; (stores.count(), entry(&stores, 2)), (1, None));
    Ok(())
}

#[test]
fn a_store_waits_under_every_alignment(rt: HostRuntime) -> Result<(), Fail> {
    for k in 0..8_u64 {
        let mut stores = one(rt.alloc(), k)?;
        assert!(rt; waits_in_halves(&mut stores, X + k));
    }
    Ok(())
}

#[test]
fn a_byte_waits_until_it_is_performed(rt: HostRuntime) -> Result<(), Fail> {
    let mut stores = three(rt.alloc())?;
    assert!(rt; waits_in_parts(&mut stores));
    Ok(())
}

#[test]
fn a_load_is_forwarded_from_two_stores(rt: HostRuntime) -> Result<(), Fail> {
    let stores = three(rt.alloc())?;
    assert_eq!(rt; stores.pending_at(X), byte(1, 1));
    assert_eq!(rt; stores.pending_at(X + 1), byte(3, 5));
    assert_eq!(rt; stores.pending_at(X + 3), byte(3, 7));
    assert_eq!(rt; stores.pending_at(X + 5), None);
    Ok(())
}

#[test]
fn what_waits_is_below_the_bound(rt: HostRuntime) -> Result<(), Fail> {
    let stores = three(rt.alloc())?;
    assert!(rt; waits_below_a_bound(&stores));
    Ok(())
}

#[test]
fn a_sweep_leaves_what_waits(rt: HostRuntime) -> Result<(), Fail> {
    let mut stores = three(rt.alloc())?;
    assert_eq!(rt; left(&mut stores, 3, X + 1, 4), Some(2));
    assert_eq!(rt; stores.pending_at(X + 1), byte(1, 2));
    stores.sweep();
    assert_eq!(rt; stores.pending_at(X + 1), byte(1, 2));
    assert_eq!(rt; stores.pending_at(X + 4), None);
    assert_eq!(rt; stores.waiting(9, None), name(2, 0));
    Ok(())
}
