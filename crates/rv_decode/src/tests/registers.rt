//! The registers that single instructions use.

use crate::registers::{
    Register, address_source, carried_to_csr, carried_to_register, carries, control_sources,
    csr_destination, data_source, destination, from_register, is_address, is_control, is_csr,
    is_data, is_x, named_csr, named_rd, sets, writes_csr,
};
use crate::{BranchOp, CsrOp, Insn, RegOp};

#[test]
fn x0_never_counts(rt: HostRuntime) {
    let insn = Insn::Alu {
        op: RegOp::Add,
        rd: 0,
        rs1: 0,
        rs2: 3,
    };
    assert!(rt; !is_x(0, Register::X(0)) && is_x(3, Register::X(3)));
    assert!(rt; named_rd(&insn) == Some(Register::X(0)));
    assert!(rt; destination(&insn, false).is_none());
    assert!(rt; !sets(&insn, false, Register::X(0)));
    assert!(rt; !carries(&insn, Register::X(3), Register::X(0)));
}

#[test]
fn arithmetic_carries_both_operands(rt: HostRuntime) {
    let insn = Insn::Alu {
        op: RegOp::Add,
        rd: 5,
        rs1: 6,
        rs2: 7,
    };
    let sources = carried_to_register(&insn);
    assert!(rt; sources.0 == Some(Register::X(6)) && sources.1 == Some(Register::X(7)));
    assert!(rt; carries(&insn, Register::X(7), Register::X(5)));
    assert!(rt; destination(&insn, false) == Some(5));
}

#[test]
fn a_csr_instruction_carries_its_register_to_the_csr_and_the_csr_to_rd(rt: HostRuntime) {
    let insn = Insn::Csr {
        op: CsrOp::Rs,
        rd: 5,
        source: 6,
        number: 0x340,
    };
    assert!(rt; writes_csr(CsrOp::Rs, 6) && from_register(CsrOp::Rs));
    assert!(rt;
        named_csr(&insn) == Some(Register::Csr(0x340)) && is_csr(0x340, Register::Csr(0x340))
    );
    assert!(rt; csr_destination(&insn) == Some(0x340));
    assert!(rt; carried_to_csr(&insn) == Some(6));
    assert!(rt; carried_to_register(&insn).0 == Some(Register::Csr(0x340)));
}

#[test]
fn a_failed_sc_has_sources_and_no_destination(rt: HostRuntime) {
    let insn = Insn::Sc {
        wide: true,
        aq: false,
        rl: false,
        rd: 5,
        rs1: 6,
        rs2: 7,
    };
    assert!(rt; destination(&insn, false).is_none() && destination(&insn, true) == Some(5));
    assert!(rt; address_source(&insn) == Some(6) && is_address(&insn, Register::X(6)));
    assert!(rt; data_source(&insn) == Some(7) && is_data(&insn, Register::X(7)));
}

#[test]
fn a_branch_depends_on_both_registers(rt: HostRuntime) {
    let insn = Insn::Branch {
        op: BranchOp::Beq,
        rs1: 6,
        rs2: 7,
        imm: 8,
    };
    let sources = control_sources(&insn);
    assert!(rt; sources.0 == Some(6) && sources.1 == Some(7));
    assert!(rt; is_control(&insn, Register::X(7)) && !is_control(&insn, Register::X(5)));
}
