//! Small streams of hart 0. A place is the number of its message.

use crate::{HartMarks, MarkedOp};
use msg_frames::Piece;
use rv_decode::{AmoOp, Insn, LoadOp};
use rvwmo_model::{Ann, OpKind};
use std::alloc::Global;
use std::test::Fail;
use store_buffer::{StoreMarks, Stores};
use tandem_base::{Bytes8, OpName, Position};

fn name(tag: u64) -> OpName {
    OpName {
        hart: 0,
        tag,
        part: 0,
    }
}

/// An operation without annotations.
fn op(tag: u64, message: u32, kind: OpKind) -> MarkedOp {
    MarkedOp {
        kind,
        name: name(tag),
        place: Position {
            message,
            insert: message,
        },
        acquire: Ann::None,
        release: Ann::None,
    }
}

/// A load with annotations.
fn annotated(tag: u64, message: u32, acquire: Ann, release: Ann) -> MarkedOp {
    MarkedOp {
        kind: OpKind::Load,
        name: name(tag),
        place: Position {
            message,
            insert: message,
        },
        acquire,
        release,
    }
}

const LOAD: Insn = Insn::Load {
    op: LoadOp::Lw,
    rd: 5,
    rs1: 10,
    imm: 0,
};

const AMO: Insn = Insn::Amo {
    op: AmoOp::Swap,
    wide: false,
    aq: false,
    rl: false,
    rd: 5,
    rs1: 10,
    rs2: 11,
};

const LR: Insn = Insn::Lr {
    wide: false,
    aq: false,
    rl: false,
    rd: 5,
    rs1: 10,
};

const SC: Insn = Insn::Sc {
    wide: false,
    aq: false,
    rl: false,
    rd: 6,
    rs1: 10,
    rs2: 12,
};

fn fence(fm: u8, pred: u8, succ: u8) -> Insn {
    Insn::Fence {
        fm,
        pred,
        succ,
        rd: 0,
        rs1: 0,
    }
}

/// The stores of hart 0, of which none waits.
fn none_waits(alloc: Global) -> Result<Stores, Fail> {
    Ok(Stores::new(alloc, 0, 2)?)
}

/// Those of which one waits, at 0x80001000.
fn waits(alloc: Global, tag: u64) -> Result<Stores, Fail> {
    let mut stores = Stores::new(alloc, 0, 2)?;
    let marks = StoreMarks {
        fence: None,
        release: false,
        lead: None,
    };
    let bytes = Bytes8::new(&[1, 0, 0, 0]).ok_or("no bytes")?;
    stores.retire(
        tag,
        &Piece {
            addr: 0x8000_1000,
            bytes,
        },
        &marks,
    );
    Ok(stores)
}

/// An operation of this kind is performed at 20, and a FENCE retires behind it.
fn fenced(kind: OpKind, insn: &Insn) -> HartMarks {
    let mut marks = HartMarks::new();
    let first = if kind == OpKind::Load { LOAD } else { AMO };
    marks.retire(1, &first, &[op(1, 20, kind)]);
    marks.retire(2, insn, &[]);
    marks
}

/// The first operation by rule 4 of one that was performed at 10.
fn behind(marks: &HartMarks, second: OpKind, stores: &Stores) -> Option<OpName> {
    marks.first_by_fence(&op(3, 10, second), stores)
}

#[test]
fn a_fence_orders_its_sets(rt: HostRuntime) -> Result<(), Fail> {
    let none = none_waits(rt.alloc())?;
    // fence r,r
    let marks = fenced(OpKind::Load, &fence(0, 2, 2));
    assert_eq!(rt; behind(&marks, OpKind::Load, &none), Some(name(1)));
    assert_eq!(rt; behind(&marks, OpKind::Both, &none), Some(name(1)));
    assert_eq!(rt; behind(&marks, OpKind::Store, &none), None);
    Ok(())
}

#[test]
fn an_amo_is_of_both_classes(rt: HostRuntime) -> Result<(), Fail> {
    let none = none_waits(rt.alloc())?;
    // fence w,w
    let marks = fenced(OpKind::Both, &fence(0, 1, 1));
    assert_eq!(rt; behind(&marks, OpKind::Load, &none), None);
    assert_eq!(rt; behind(&marks, OpKind::Both, &none), Some(name(1)));
    assert_eq!(rt; marks.store_fence(), Some(2));
    Ok(())
}

#[test]
fn fence_tso_leaves_stores_before_loads(rt: HostRuntime) -> Result<(), Fail> {
    let waits = waits(rt.alloc(), 1)?;
    let marks = fenced(OpKind::Store, &fence(8, 3, 3));
    assert_eq!(rt; behind(&marks, OpKind::Load, &waits), None);
    assert_eq!(rt; behind(&marks, OpKind::Store, &waits), Some(name(1)));
    Ok(())
}

#[test]
fn fence_tso_orders_loads(rt: HostRuntime) -> Result<(), Fail> {
    let none = none_waits(rt.alloc())?;
    let marks = fenced(OpKind::Load, &fence(8, 3, 3));
    assert_eq!(rt; behind(&marks, OpKind::Load, &none), Some(name(1)));
    assert_eq!(rt; behind(&marks, OpKind::Store, &none), Some(name(1)));
    Ok(())
}

#[test]
fn what_waits_comes_last(rt: HostRuntime) -> Result<(), Fail> {
    let waits = waits(rt.alloc(), 4)?;
    let release = annotated(7, 10, Ann::None, Ann::Rcpc);
    let marks = fenced(OpKind::Both, &fence(0, 3, 3));
    // The store under tag 4 is behind that FENCE.
    assert_eq!(rt; marks.first_by_fence(&release, &waits), Some(name(1)));
    assert_eq!(rt; marks.first_by_release(&release, &waits), Some(name(4)));
    Ok(())
}

#[test]
fn annotations(rt: HostRuntime) {
    let mut marks = HartMarks::new();
    marks.retire(1, &LR, &[annotated(1, 30, Ann::Rcsc, Ann::None)]);
    marks.retire(2, &LOAD, &[annotated(2, 20, Ann::Rcpc, Ann::None)]);
    marks.retire(3, &LOAD, &[op(3, 40, OpKind::Load)]);
    let plain = op(4, 10, OpKind::Load);
    let releases = annotated(4, 10, Ann::None, Ann::Rcsc);
    assert_eq!(rt; marks.first_by_acquire(&plain), Some(name(1)));
    assert_eq!(rt; marks.first_by_acquire(&op(4, 30, OpKind::Load)), None);
    assert_eq!(rt; marks.first_by_rcsc(&plain), None);
    assert_eq!(rt;
        marks.first_by_rcsc(&annotated(4, 10, Ann::Rcpc, Ann::None)),
        None
    );
    assert_eq!(rt; marks.first_by_rcsc(&releases), Some(name(1)));
}

#[test]
fn an_sc_closes_its_lr(rt: HostRuntime) {
    let mut marks = HartMarks::new();
    marks.retire(1, &LR, &[op(1, 20, OpKind::Load)]);
    marks.retire(2, &LOAD, &[op(2, 30, OpKind::Load)]);
    let sc = op(3, 10, OpKind::Store);
    assert_eq!(rt; marks.first_by_pair(&SC, &sc), Some(name(1)));
    assert_eq!(rt; marks.first_by_pair(&AMO, &sc), None);
    assert_eq!(rt; marks.first_by_pair(&SC, &op(3, 20, OpKind::Store)), None);
    // It fails.
    marks.retire(3, &SC, &[]);
    assert_eq!(rt; marks.first_by_pair(&SC, &sc), None);
}
