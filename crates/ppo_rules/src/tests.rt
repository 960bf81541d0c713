//! Streams of hart 0, each with an operation that was performed too early. X is 0x80001000 and Y
//! 0x80001040; a place is the number of its message.

use crate::{BrokenPair, FreshOp, HartMarks, Retiring};
use dep_tracker::Deps;
use kept_ops::{Kept, KeptOp};
use msg_frames::Piece;
use rv_decode::{Insn, LoadOp, RegOp};
use rvwmo_model::{Ann, OpKind};
use std::alloc::Global;
use std::test::Fail;
use store_buffer::{StoreMarks, Stores};
use tandem_base::{Bytes8, Extent, Mark, OpName, Origin, Position};
use window_laws::ByteSource;

const X: u64 = 0x8000_1000;

const Y: u64 = 0x8000_1040;

fn place(message: u32) -> Position {
    Position {
        message,
        insert: message,
    }
}

fn name(tag: u64, part: u8) -> OpName {
    OpName { hart: 0, tag, part }
}

fn pair(rule: u8, first: u64, second: OpName) -> Option<BrokenPair> {
    Some(BrokenPair {
        rule,
        first: name(first, 0),
        second,
    })
}

/// A part of an access of hart 0 to four bytes, and where its source was performed.
#[derive(Clone, Copy)]
struct Told {
    name: OpName,
    addr: u64,
    mask: u8,
    message: u32,
    kind: OpKind,
    source: Option<Origin>,
    from: Option<u32>,
}

/// All of an access, of an SC or AMO where it stores.
fn op(tag: u64, addr: u64, message: u32, kind: OpKind) -> Told {
    Told {
        name: name(tag, 0),
        addr,
        mask: 0xf,
        message,
        kind,
        source: None,
        from: None,
    }
}

/// A load whose source is a store of this hart and tag, performed at a place.
fn load_from(told: Told, hart: u8, tag: u64, from: Option<u32>) -> Told {
    Told {
        source: Some(Origin { hart, tag }),
        from,
        ..told
    }
}

/// The operation as it is kept.
fn made(told: &Told) -> Result<KeptOp, Fail> {
    Ok(KeptOp {
        name: told.name,
        place: place(told.message),
        kind: told.kind,
        extent: Extent::new(told.addr, 4).ok_or("no extent")?,
        mask: told.mask,
        put: Bytes8::new(&[0, 0, 0, 0]).ok_or("no bytes")?,
        atomic: told.kind != OpKind::Load,
        sources: [told.source; 8],
        lead: None,
    })
}

/// The operation as it retires.
fn fresh(told: &Told) -> Result<FreshOp, Fail> {
    let from = match told.from {
        None => None,
        Some(message) => Some(place(message)),
    };
    let source = ByteSource {
        writer: told.source,
        place: from,
        byte: 0,
    };
    Ok(FreshOp {
        op: made(told)?,
        sources: [source; 8],
    })
}

/// The stores of the hart, of which one may wait, that depends on the load under tag 1.
fn waits(alloc: Global, waiting: Option<(u64, u64)>) -> Result<Stores, Fail> {
    let mut stores = Stores::new(alloc, 0, 2)?;
    let marks = StoreMarks {
        fence: None,
        release: false,
        lead: Some(Mark {
            name: name(1, 0),
            place: place(7),
        }),
    };
    let bytes = Bytes8::new(&[0, 0, 0, 0]).ok_or("no bytes")?;
    if let Some((tag, addr)) = waiting {
        if addr < 0x1_0000_0000 {
            stores.retire(tag, &Piece { addr, bytes }, &marks);
        }
    }
    Ok(stores)
}

/// What is kept, where one operation is or none.
fn keeps(alloc: Global, told: Option<Told>) -> Result<Kept, Fail> {
    let mut kept = Kept::new(alloc, 4)?;
    if let Some(told) = told {
        kept.keep(&made(&told)?);
    }
    Ok(kept)
}

/// lw x5,0(x10) under tag 1, performed at 7, and add x7,x5,x5.
fn loaded() -> Deps {
    let mut deps = Deps::new();
    let mark = Mark {
        name: name(1, 0),
        place: place(7),
    };
    let first = Insn::Load {
        op: LoadOp::Lw,
        rd: 5,
        rs1: 10,
        imm: 0,
    };
    deps.retire(&first, Some(mark));
    let sum = Insn::Alu {
        op: RegOp::Add,
        rd: 7,
        rs1: 5,
        rs2: 5,
    };
    deps.retire(&sum, None);
    deps
}

/// A FENCE rw,rw under tag 2.
fn fenced() -> HartMarks {
    let mut marks = HartMarks::new();
    let fence = Insn::Fence {
        fm: 0,
        pred: 3,
        succ: 3,
        rd: 0,
        rs1: 0,
    };
    marks.retire(2, &fence, &[]);
    marks
}

/// What lw x8,0(x7) breaks, that has no annotation.
fn check(
    marks: &HartMarks,
    deps: &Deps,
    stores: &Stores,
    kept: &Kept,
    ops: &[FreshOp],
) -> Option<BrokenPair> {
    let insn = Insn::Load {
        op: LoadOp::Lw,
        rd: 8,
        rs1: 7,
        imm: 0,
    };
    let retiring = Retiring {
        insn: &insn,
        acquire: Ann::None,
        release: Ann::None,
        marks,
        deps,
        stores,
        kept,
    };
    retiring.check_retire(ops)
}

/// What stands before the load: the tag and the address of a store that waits, what was performed, a FENCE
/// under tag 2, and that its address depends on the load under tag 1.
#[derive(Clone, Copy)]
struct Before {
    waiting: Option<(u64, u64)>,
    kept: Option<Told>,
    fence: bool,
    address: bool,
}

/// What the load breaks then, by these operations.
fn broken(alloc: Global, before: &Before, ops: &[FreshOp]) -> Result<Option<BrokenPair>, Fail> {
    let stores = waits(alloc, before.waiting)?;
    let kept = keeps(alloc, before.kept)?;
    let marks = if before.fence {
        fenced()
    } else {
        HartMarks::new()
    };
    let deps = if before.address {
        loaded()
    } else {
        Deps::new()
    };
    Ok(check(&marks, &deps, &stores, &kept, ops))
}

/// The same by one operation.
fn by_one(alloc: Global, before: Before, load: Told) -> Result<Option<BrokenPair>, Fail> {
    let ops = [fresh(&load)?];
    broken(alloc, &before, &ops)
}

/// The same by two parts of an instruction.
fn by_two(
    alloc: Global,
    before: Before,
    low: Told,
    high: Told,
) -> Result<Option<BrokenPair>, Fail> {
    let ops = [fresh(&low)?, fresh(&high)?];
    broken(alloc, &before, &ops)
}

/// The store under tag 1 waits, and a FENCE may come between it and the load.
fn after_a_store(fence: bool) -> Before {
    Before {
        waiting: Some((1, X)),
        kept: None,
        fence,
        address: false,
    }
}

#[test]
fn a_load_before_a_store_that_waits(rt: HostRuntime) -> Result<(), Fail> {
    let late = op(3, Y, 10, OpKind::Load);
    let found = by_one(rt.alloc(), after_a_store(true), late)?;
    assert_eq!(rt; found, pair(4, 1, name(3, 0)));
    let found = by_one(rt.alloc(), after_a_store(false), late)?;
    assert_eq!(rt; found, None);
    Ok(())
}

/// An SC or AMO was performed at 8 under tag 1.
fn after_an_atomic(kind: OpKind) -> Before {
    Before {
        waiting: None,
        kept: Some(op(1, X, 8, kind)),
        fence: false,
        address: false,
    }
}

/// The store under tag 2 waits, which depends on the load under tag 1, as the address may.
fn after_a_dependent(address: bool) -> Before {
    Before {
        waiting: Some((2, Y)),
        kept: None,
        fence: false,
        address,
    }
}

#[test]
fn the_least_rule_is_reported(rt: HostRuntime) -> Result<(), Fail> {
    // What the AMO read is of another source, and the load reads what it wrote: rules 2 and 3. An SC loads
    // nothing: rule 3 alone.
    let own = load_from(op(2, X, 7, OpKind::Load), 0, 1, Some(8));
    let found = by_one(rt.alloc(), after_an_atomic(OpKind::Both), own)?;
    assert_eq!(rt; found, pair(2, 1, name(2, 0)));
    let found = by_one(rt.alloc(), after_an_atomic(OpKind::Store), own)?;
    assert_eq!(rt; found, pair(3, 1, name(2, 0)));
    // The load reads what a store wrote that depends on the load under tag 1: rule 12, and rule 9 where the
    // address does too.
    let forwarded = load_from(op(4, Y, 6, OpKind::Load), 0, 2, None);
    let found = by_one(rt.alloc(), after_a_dependent(false), forwarded)?;
    assert_eq!(rt; found, pair(12, 1, name(4, 0)));
    let found = by_one(rt.alloc(), after_a_dependent(true), forwarded)?;
    assert_eq!(rt; found, pair(9, 1, name(4, 0)));
    Ok(())
}

/// Bytes 0 and 1 of a load, performed at a place.
fn low(message: u32) -> Told {
    Told {
        mask: 0x3,
        ..op(4, X, message, OpKind::Load)
    }
}

/// Bytes 2 and 3.
fn high(message: u32) -> Told {
    Told {
        name: name(4, 2),
        mask: 0xc,
        ..op(4, X, message, OpKind::Load)
    }
}

/// The address depends on the load under tag 1, which was performed at 7, and may be kept.
fn after_a_load(kept: Option<Told>) -> Before {
    Before {
        waiting: None,
        kept,
        fence: false,
        address: true,
    }
}

#[test]
fn the_least_part_is_reported(rt: HostRuntime) -> Result<(), Fail> {
    let before = after_a_load(None);
    let found = by_two(rt.alloc(), before, low(5), high(6))?;
    assert_eq!(rt; found, pair(9, 1, name(4, 0)));
    let found = by_two(rt.alloc(), before, low(7), high(6))?;
    assert_eq!(rt; found, pair(9, 1, name(4, 2)));
    let found = by_two(rt.alloc(), before, low(7), high(8))?;
    assert_eq!(rt; found, None);
    // The higher part reads what a store of hart 1 wrote at 3, and breaks rule 2 besides.
    let before = after_a_load(Some(op(1, X, 7, OpKind::Load)));
    let foreign = load_from(high(6), 1, 5, Some(3));
    let found = by_two(rt.alloc(), before, low(5), foreign)?;
    assert_eq!(rt; found, pair(2, 1, name(4, 2)));
    Ok(())
}
