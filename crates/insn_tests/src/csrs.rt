//! What registers keep, and what traps and MRET do.

use csr_file::{CsrRead, CsrWrite, Csrs};
use tandem_base::csrs::{
    CYCLE, INSTRET, MCAUSE, MEPC, MHARTID, MIE, MIP, MSCRATCH, MSTATUS, MTVAL, MTVEC, TIME,
};

#[test]
fn keeps_what_its_bits_allow(rt: HostRuntime) {
    for (number, at_start, kept) in [
        (MSTATUS, 0x1800, 0x1888),
        (MIE, 0, 0x888),
        (MTVEC, 0, 0xffff_ffff_ffff_fffc),
        (MSCRATCH, 0, 0xffff_ffff_ffff_ffff),
        (MEPC, 0, 0xffff_ffff_ffff_fffc),
        (MCAUSE, 0, 0xffff_ffff_ffff_ffff),
        (MTVAL, 0, 0xffff_ffff_ffff_ffff),
        (MIP, 0, 0),
    ] {
        let mut csrs = Csrs::new(3);
        assert_eq!(rt; csrs.read(number), CsrRead::Value(at_start), "at {number}");
        assert_eq!(rt;
            csrs.write(number, u64::MAX),
            CsrWrite::Done(kept),
            "at {number}"
        );
        assert_eq!(rt; csrs.read(number), CsrRead::Value(kept), "at {number}");
        assert_eq!(rt;
            csrs.write(number, 0),
            CsrWrite::Done(at_start),
            "at {number}"
        );
        assert_eq!(rt; csrs, Csrs::new(3), "at {number}");
    }
}

#[test]
fn refuses_what_is_read_only_or_absent(rt: HostRuntime) {
    let mut csrs = Csrs::new(3);
    for (number, answer) in [
        (CYCLE, CsrRead::Cycle),
        (TIME, CsrRead::Time),
        (INSTRET, CsrRead::Instret),
        (MHARTID, CsrRead::Value(3)),
    ] {
        assert_eq!(rt; csrs.read(number), answer);
        assert_eq!(rt; csrs.write(number, 1), CsrWrite::ReadOnly);
    }
    for number in [0, 0x301, 0x306, 0x345, 0xb00, 0xb02, 0xc03, 0xf13, 0xffff] {
        assert_eq!(rt; csrs.read(number), CsrRead::Absent, "at {number}");
        assert_eq!(rt; csrs.write(number, 1), CsrWrite::Absent, "at {number}");
    }
    assert_eq!(rt; csrs, Csrs::new(3));
}

#[test]
fn traps_and_returns(rt: HostRuntime) {
    let mut csrs = Csrs::new(0);
    assert_eq!(rt; csrs.write(MTVEC, 0x8000_0100), CsrWrite::Done(0x8000_0100));
    assert_eq!(rt; csrs.write(MSTATUS, 8), CsrWrite::Done(0x1808));
    assert_eq!(rt; csrs.trap(2, 0x8000_0004, 0x1234), 0x8000_0100);
    for (number, value) in [
        (MSTATUS, 0x1880),
        (MEPC, 0x8000_0004),
        (MCAUSE, 2),
        (MTVAL, 0x1234),
        (MTVEC, 0x8000_0100),
    ] {
        assert_eq!(rt; csrs.read(number), CsrRead::Value(value), "at {number}");
    }
    assert_eq!(rt; csrs.mret(), 0x8000_0004);
    assert_eq!(rt; csrs.read(MSTATUS), CsrRead::Value(0x1888));
    assert_eq!(rt; csrs.write(MSTATUS, 0), CsrWrite::Done(0x1800));
    assert_eq!(rt; csrs.mret(), 0x8000_0004);
    assert_eq!(rt; csrs.read(MSTATUS), CsrRead::Value(0x1880));
    assert_eq!(rt; csrs.trap(11, 0x8000_0008, 0), 0x8000_0100);
    assert_eq!(rt; csrs.read(MSTATUS), CsrRead::Value(0x1800));
}
