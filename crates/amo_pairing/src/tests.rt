//! Pairs of worked streams. X is 0x80001000, and a place is the number of its message. Hart 0 has the
//! pair: its LR is the load of message 10, and its SC is reported by message 20. The answers are those
//! of the atomicity axiom: a store of another hart to a byte of the LR, after the byte's source and
//! before the SC, breaks the pair, and so does a source that doesn't precede the SC.

ghost use Rattle.std.specs.Prelude.{◌<◌};

use crate::{Pairing, Sc};
use byte_memory::{Capture, Foreign, StoreCapture, Writer};
use std::test::Fail;
use tandem_base::{Extent, Origin, Position};
use window_laws::ByteSource;

const X: u64 = 0x8000_1000;

fn place(message: u32) -> Position {
    Position {
        message,
        insert: message,
    }
}

/// The store of a hart that message `message` performed.
fn writer(hart: u8, tag: u64, message: u32) -> Writer {
    Writer {
        hart,
        tag,
        place: place(message),
    }
}

/// A source of hart 0 under a tag that waits, or that of the other hart.
fn source(hart: u8, tag: u64, message: Option<u32>) -> ByteSource {
    ByteSource {
        writer: Some(Origin { hart, tag }),
        place: match message {
            Some(message) => Some(place(message)),
            None => None,
        },
        byte: 0,
    }
}

fn initial() -> ByteSource {
    ByteSource {
        writer: None,
        place: None,
        byte: 0,
    }
}

fn extent(addr: u64, len: u8) -> Result<Extent, Fail> {
    Ok(Extent::new(addr, len).ok_or("no extent")?)
}

/// What the SC saw of the doubleword at X: at byte `k` these writers, and elsewhere none.
fn seen(k: u64, last: Option<Writer>, other: Option<Writer>) -> StoreCapture
    requires { k < 8 }
{
    let mut lasts = [None; 8];
    lasts[k as usize] = last;
    let mut others = [None; 8];
    others[k as usize] = other;
    StoreCapture {
        seen: Capture {
            place: place(20),
            base: X,
            values: [0; 8],
            last: lasts,
        },
        other: others,
        foreign: None,
    }
}

/// The LR of `len` bytes at `addr` retires, each byte from this source.
fn opened(addr: u64, len: u8, from: ByteSource) -> Result<Pairing, Fail> {
    let mut pairing = Pairing::new();
    pairing.lr(&extent(addr, len)?, place(10), &[from; 8]);
    Ok(pairing)
}

fn torn(at: u64, hart: u8, tag: u64) -> Sc {
    Sc::Atomicity {
        at,
        store: Origin { hart, tag },
    }
}

/// An SC of some bytes after an LR of some bytes, where nothing is stored.
#[test]
fn bytes_lie_inside(rt: HostRuntime) -> Result<(), Fail> {
    let quiet = seen(0, None, None);
    let word = opened(X, 4, initial())?;
    let doubleword = opened(X, 8, initial())?;
    assert_eq!(rt; word.sc(0, &extent(X, 4)?, &quiet), Sc::Fine);
    assert_eq!(rt; doubleword.sc(0, &extent(X, 8)?, &quiet), Sc::Fine);
    assert_eq!(rt; doubleword.sc(0, &extent(X, 4)?, &quiet), Sc::Fine);
    assert_eq!(rt; doubleword.sc(0, &extent(X + 4, 4)?, &quiet), Sc::Fine);
    assert_eq!(rt; word.sc(0, &extent(X, 8)?, &quiet), Sc::Outside);
    assert_eq!(rt; word.sc(0, &extent(X + 4, 4)?, &quiet), Sc::Outside);
    Ok(())
}

/// After a failed SC none is open, whatever came before.
#[test]
fn an_sc_closes_the_pair(rt: HostRuntime) -> Result<(), Fail> {
    let quiet = seen(0, None, None);
    assert_eq!(rt; Pairing::new().sc(0, &extent(X, 4)?, &quiet), Sc::NoPair);
    let mut pairing = opened(X, 4, initial())?;
    pairing.clear();
    assert_eq!(rt; pairing.sc(0, &extent(X, 4)?, &quiet), Sc::NoPair);
    Ok(())
}

/// A store of hart 1 to byte 3 of the LR, before its source and after it; one beside the LR; and stores
/// of hart 0 itself.
#[test]
fn a_foreign_store_between_breaks_the_pair(rt: HostRuntime) -> Result<(), Fail> {
    let sc = extent(X, 4)?;
    let fresh = opened(X, 4, initial())?;
    let foreign = Some(writer(1, 4, 15));
    assert_eq!(rt;
        fresh.sc(0, &sc, &seen(3, foreign, None)),
        torn(X + 3, 1, 4)
    );
    assert_eq!(rt; fresh.sc(0, &sc, &seen(6, foreign, None)), Sc::Fine);
    let read = opened(X, 4, source(1, 4, Some(15)))?;
    assert_eq!(rt; read.sc(0, &sc, &seen(3, foreign, None)), Sc::Fine);
    let own = Some(writer(0, 2, 17));
    assert_eq!(rt; fresh.sc(0, &sc, &seen(3, own, None)), Sc::Fine);
    assert_eq!(rt; fresh.sc(0, &sc, &seen(3, own, foreign)), torn(X + 3, 1, 4));
    assert_eq!(rt; read.sc(0, &sc, &seen(3, own, foreign)), Sc::Fine);
    Ok(())
}

/// The LR reads from a store of its hart that waits: until it is performed it doesn't precede the SC, and
/// then it stands where it was performed.
#[test]
fn a_source_waits_for_its_place(rt: HostRuntime) -> Result<(), Fail> {
    let sc = extent(X, 4)?;
    let mut pairing = opened(X, 4, source(0, 1, None))?;
    let foreign = seen(0, Some(writer(1, 4, 13)), None);
    assert_eq!(rt; pairing.sc(0, &sc, &foreign), torn(X, 0, 1));
    pairing.performed(2, &sc, place(12));
    assert_eq!(rt; pairing.sc(0, &sc, &foreign), torn(X, 0, 1));
    pairing.performed(1, &extent(X, 2)?, place(12));
    assert_eq!(rt; pairing.sc(0, &sc, &seen(0, None, None)), torn(X + 2, 0, 1));
    pairing.performed(1, &extent(X + 2, 2)?, place(14));
    assert_eq!(rt; pairing.sc(0, &sc, &seen(0, None, None)), Sc::Fine);
    assert_eq!(rt; pairing.sc(0, &sc, &foreign), torn(X, 1, 4));
    assert_eq!(rt;
        pairing.sc(0, &sc, &seen(2, Some(writer(1, 4, 13)), None)),
        Sc::Fine
    );
    Ok(())
}

/// A store of hart 1 to the block beside the LR, after the LR and before it.
#[test]
fn a_store_to_the_block_breaks_the_pair(rt: HostRuntime) -> Result<(), Fail> {
    let sc = extent(X, 8)?;
    let pairing = opened(X, 8, initial())?;
    let mut capture = seen(0, None, None);
    capture.foreign = Some(Foreign {
        at: X + 8,
        writer: writer(1, 1, 12),
    });
    assert_eq!(rt; pairing.sc(0, &sc, &capture), torn(X + 8, 1, 1));
    capture.foreign = Some(Foreign {
        at: X + 8,
        writer: writer(1, 1, 9),
    });
    assert_eq!(rt; pairing.sc(0, &sc, &capture), Sc::Fine);
    Ok(())
}
