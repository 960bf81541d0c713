//! Two loads of one hart, and what a later instruction depends on. A place is the number of its message.

use crate::{first_by_address, first_by_address_between, first_by_control, first_by_data};
use dep_tracker::Deps;
use rv_decode::{BranchOp, Insn, LoadOp, RegOp, StoreOp};
use rvwmo_model::OpKind;
use tandem_base::{Mark, OpName, Position};

fn at(message: u32) -> Position {
    Position {
        message,
        insert: message,
    }
}

fn name(tag: u64, part: u8) -> OpName {
    OpName { hart: 0, tag, part }
}

/// lw x5,0(x10), of which the part that was performed last is byte 2, at 20; lw x6,0(x10) at 10; then
/// add x7,x5,x6.
fn loaded() -> Deps {
    let mut deps = Deps::new();
    let first = Insn::Load {
        op: LoadOp::Lw,
        rd: 5,
        rs1: 10,
        imm: 0,
    };
    let second = Insn::Load {
        op: LoadOp::Lw,
        rd: 6,
        rs1: 10,
        imm: 0,
    };
    let sum = Insn::Alu {
        op: RegOp::Add,
        rd: 7,
        rs1: 5,
        rs2: 6,
    };
    let late = Mark {
        name: name(1, 2),
        place: at(20),
    };
    let early = Mark {
        name: name(2, 0),
        place: at(10),
    };
    deps.retire(&first, Some(late));
    deps.retire(&second, Some(early));
    deps.retire(&sum, None);
    deps
}

/// sd rs2,0(rs1)
fn store(rs1: u8, rs2: u8) -> Insn {
    Insn::Store {
        op: StoreOp::Sd,
        rs1,
        rs2,
        imm: 0,
    }
}

#[test]
fn the_latest_operation_is_first(rt: HostRuntime) {
    let deps = loaded();
    let insn = store(7, 6);
    assert_eq!(rt; first_by_address(&deps, &insn, at(5)), Some(name(1, 2)));
    assert_eq!(rt; first_by_address(&deps, &insn, at(19)), Some(name(1, 2)));
    assert_eq!(rt; first_by_address(&deps, &insn, at(20)), None);
    assert_eq!(rt; first_by_data(&deps, &insn, at(9)), Some(name(2, 0)));
    assert_eq!(rt; first_by_data(&deps, &insn, at(10)), None);
}

#[test]
fn only_a_store_comes_after_branches_and_addresses(rt: HostRuntime) {
    let mut deps = loaded();
    assert_eq!(rt; first_by_control(&deps, OpKind::Both, at(5)), None);
    assert_eq!(rt; first_by_address_between(&deps, OpKind::Both, at(5)), None);
    let branch = Insn::Branch {
        op: BranchOp::Beq,
        rs1: 6,
        rs2: 0,
        imm: 8,
    };
    let zero = Insn::Store {
        op: StoreOp::Sd,
        rs1: 5,
        rs2: 0,
        imm: 0,
    };
    deps.retire(&branch, None);
    deps.retire(&zero, None);
    assert_eq!(rt;
        first_by_control(&deps, OpKind::Both, at(9)),
        Some(name(2, 0))
    );
    assert_eq!(rt; first_by_control(&deps, OpKind::Store, at(10)), None);
    assert_eq!(rt; first_by_control(&deps, OpKind::Load, at(9)), None);
    let passed = first_by_address_between(&deps, OpKind::Store, at(19));
    assert_eq!(rt; passed, Some(name(1, 2)));
    assert_eq!(rt; first_by_address_between(&deps, OpKind::Load, at(19)), None);
}
