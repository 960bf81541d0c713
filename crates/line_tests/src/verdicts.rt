//! Lines spelled by hand: of each verdict, and of each fault.

use msg_frames::{CsrValue, Form, Head, RdValue};
use std::alloc::{AllocError, Global};
use std::test::Fail;
use tandem_base::{OpName, Origin};
use tandem_io::{MemSink, WriteFailed};
use verdict_report::{Fault, Limit, RdWant, Report, Verdict, line, print};

/// Whether the verdict's line is this text and a newline, over a buffer.
fn tells_over(verdict: &Verdict, text: &[u8], out: &mut [u8; 256]) -> bool {
    let end = line(verdict, out);
    let told = &out[..end];
    told.len() == text.len() + 1 && told.starts_with(text) && told.ends_with(b"\n")
}

/// Whether the verdict's line is this text and a newline.
fn tells(verdict: &Verdict, text: &[u8]) -> bool {
    let mut out = [0; 256];
    tells_over(verdict, text, &mut out)
}

/// What the line of a fault at hart 1, tag 7, message 9, offset 300 begins with.
const START: &[u8] = b"REJECT message=9 offset=300 fault=";

/// Whether the verdict's line begins so and then has this text and a newline, over a buffer.
fn details_over(verdict: &Verdict, text: &[u8], out: &mut [u8; 256]) -> bool {
    let end = line(verdict, out);
    let told = &out[..end];
    if !told.starts_with(START) {
        return false;
    }
    let told = &told[START.len()..];
    told.len() == text.len() + 1 && told.starts_with(text) && told.ends_with(b"\n")
}

/// Whether the line of this fault at hart 1, tag 7, message 9, offset 300 ends with this text.
fn details(fault: Fault, text: &[u8]) -> bool {
    let verdict = Verdict::Reject(Report {
        message: 9,
        offset: 300,
        head: Some(Head {
            hart: 1,
            time: 8,
            tag: 7,
        }),
        fault,
    });
    let mut out = [0; 256];
    details_over(&verdict, text, &mut out)
}

/// A fault, and the end of its line.
type Told = (Fault, &'static [u8]);

/// The place of the first fault whose line ends otherwise.
fn first_untold(faults: &[Told]) -> Option<usize> {
    for (k, (fault, text)) in faults.iter().enumerate() {
        if !details(*fault, text) {
            return Some(k);
        }
    }
    None
}

/// Acceptances, and their lines.
const ACCEPTED: &[(Verdict, &[u8])] = &[
    (
        Verdict::Accept {
            messages: 3,
            retired: 1,
            operations: 0,
        },
        b"ACCEPT messages=3 retired=1 operations=0",
    ),
    (
        Verdict::Accept {
            messages: u64::MAX,
            retired: u64::MAX,
            operations: u64::MAX,
        },
        b"ACCEPT messages=18446744073709551615 retired=18446744073709551615 operations=18446744073709551615",
    ),
];

/// A limit that was passed at message 8, the hart, the count, and the line.
const LIMITS: &[(Limit, u8, u64, &[u8])] = &[
    (
        Limit::Reads,
        0,
        3,
        b"UNDECIDED message=8 limit=READS hart=0 count=3",
    ),
    (
        Limit::Stores,
        15,
        4097,
        b"UNDECIDED message=8 limit=STORES hart=15 count=4097",
    ),
    (
        Limit::Kept,
        255,
        u64::MAX,
        b"UNDECIDED message=8 limit=KEPT hart=255 count=18446744073709551615",
    ),
    (
        Limit::Messages,
        0,
        8,
        b"UNDECIDED message=8 limit=MESSAGES hart=- count=8",
    ),
];

#[test]
fn tells_acceptance_and_limits(rt: HostRuntime) {
    for (verdict, text) in ACCEPTED {
        assert!(rt; tells(verdict, text), "{verdict:?}");
    }
    for (limit, hart, count, text) in LIMITS {
        let verdict = Verdict::Undecided {
            message: 8,
            limit: *limit,
            hart: *hart,
            count: *count,
        };
        assert!(rt; tells(&verdict, text), "{verdict:?}");
    }
}

/// The message, the offset, the fault of its form, and the line; no head is told.
const UNREAD: &[(u64, u64, Fault, &[u8])] = &[
    (
        3,
        92,
        Fault::BadFrame {
            form: Form::Reserved,
        },
        b"REJECT message=3 offset=92 fault=1 BadFrame form=Reserved",
    ),
    (
        1,
        0,
        Fault::BadFrame { form: Form::Length },
        b"REJECT message=1 offset=0 fault=1 BadFrame form=Length",
    ),
    (
        2,
        30,
        Fault::BadFrame { form: Form::Kind },
        b"REJECT message=2 offset=30 fault=1 BadFrame form=Kind",
    ),
    (
        2,
        48,
        Fault::BadFrame { form: Form::Field },
        b"REJECT message=2 offset=48 fault=1 BadFrame form=Field",
    ),
    (
        3,
        80,
        Fault::Truncated { have: 10 },
        b"REJECT message=3 offset=80 fault=2 Truncated have=10",
    ),
    (
        u64::MAX,
        u64::MAX,
        Fault::Truncated { have: 65535 },
        b"REJECT message=18446744073709551615 offset=18446744073709551615 fault=2 Truncated have=65535",
    ),
];

#[test]
fn tells_frames_that_break_their_form(rt: HostRuntime) {
    for (message, offset, fault, text) in UNREAD {
        let verdict = Verdict::Reject(Report {
            message: *message,
            offset: *offset,
            head: None,
            fault: *fault,
        });
        assert!(rt; tells(&verdict, text), "{verdict:?}");
    }
}

const STREAM: &[Told] = &[
    (Fault::BadOpen, b"3 BadOpen hart=1 tag=7"),
    (Fault::BadHart, b"4 BadHart hart=1 tag=7"),
    (
        Fault::TimeBack { last: 255 },
        b"5 TimeBack hart=1 tag=7 last=255",
    ),
    (Fault::LatePoke, b"16 LatePoke hart=1 tag=7"),
    (
        Fault::TagOrder { last: u64::MAX },
        b"17 TagOrder hart=1 tag=7 last=18446744073709551615",
    ),
];

#[test]
fn tells_faults_of_the_stream(rt: HostRuntime) {
    assert_eq!(rt; first_untold(STREAM), None);
}

const WAY: &[Told] = &[
    (
        Fault::Pc {
            want: 0x8000_0000,
            got: 0,
        },
        b"20 Pc hart=1 tag=7 want=0x80000000 got=0x0",
    ),
    (
        Fault::Word {
            want: 0x0050_0093,
            got: 0xffff_ffff,
        },
        b"21 Word hart=1 tag=7 want=0x500093 got=0xffffffff",
    ),
    (
        Fault::Trap {
            want: None,
            got: Some(11),
        },
        b"22 Trap hart=1 tag=7 want=- got=11",
    ),
    (
        Fault::Trap {
            want: Some(7),
            got: None,
        },
        b"22 Trap hart=1 tag=7 want=7 got=-",
    ),
    (
        Fault::NextPc {
            want: u64::MAX,
            got: 0xabc_def0,
        },
        b"23 NextPc hart=1 tag=7 want=0xffffffffffffffff got=0xabcdef0",
    ),
];

#[test]
fn tells_faults_of_the_way(rt: HostRuntime) {
    assert_eq!(rt; first_untold(WAY), None);
}

const REGISTER: &[Told] = &[
    (
        Fault::Rd {
            want: RdWant::Value(RdValue {
                number: 1,
                value: 5,
            }),
            got: Some(RdValue {
                number: 1,
                value: 6,
            }),
        },
        b"24 Rd hart=1 tag=7 want=x1:0x5 got=x1:0x6",
    ),
    (
        Fault::Rd {
            want: RdWant::Nonzero(7),
            got: Some(RdValue {
                number: 7,
                value: 0,
            }),
        },
        b"24 Rd hart=1 tag=7 want=x7:nonzero got=x7:0x0",
    ),
    (
        Fault::Rd {
            want: RdWant::AtLeast(RdValue {
                number: 31,
                value: 10,
            }),
            got: None,
        },
        b"24 Rd hart=1 tag=7 want=x31:atleast:0xa got=-",
    ),
    (
        Fault::Rd {
            want: RdWant::Absent,
            got: Some(RdValue {
                number: 5,
                value: 16,
            }),
        },
        b"24 Rd hart=1 tag=7 want=- got=x5:0x10",
    ),
];

#[test]
fn tells_faults_of_the_register(rt: HostRuntime) {
    assert_eq!(rt; first_untold(REGISTER), None);
}

const CSRS: &[Told] = &[
    (
        Fault::Csr {
            index: 0,
            want: Some(CsrValue {
                number: 0x300,
                value: 0x1800,
            }),
            got: None,
        },
        b"25 Csr hart=1 tag=7 index=0 want=0x300:0x1800 got=-",
    ),
    (
        Fault::Csr {
            index: 3,
            want: None,
            got: Some(CsrValue {
                number: 0x343,
                value: 0xdead_beef,
            }),
        },
        b"25 Csr hart=1 tag=7 index=3 want=- got=0x343:0xdeadbeef",
    ),
];

#[test]
fn tells_faults_of_the_csrs(rt: HostRuntime) {
    assert_eq!(rt; first_untold(CSRS), None);
}

const REPORTS: &[Told] = &[
    (
        Fault::LateTag { last: 7 },
        b"10 LateTag hart=1 tag=7 last=7",
    ),
    (Fault::BadRange, b"11 BadRange hart=1 tag=7"),
    (Fault::UnknownStore, b"12 UnknownStore hart=1 tag=7"),
    (
        Fault::StoreData {
            at: 0x8000_1000,
            want: Some(1),
            got: Some(0xff),
        },
        b"13 StoreData hart=1 tag=7 at=0x80001000 want=0x1 got=0xff",
    ),
    (Fault::TornStore, b"14 TornStore hart=1 tag=7"),
    (
        Fault::MergeMismatch {
            at: 0x8000_1003,
            want: Some(0),
            got: None,
        },
        b"15 MergeMismatch hart=1 tag=7 at=0x80001003 want=0x0 got=-",
    ),
    (
        Fault::StrayBypass { bypass: 3 },
        b"18 StrayBypass hart=1 tag=7 bypass=3",
    ),
    (
        Fault::MissingRead { at: 0x8000_1044 },
        b"30 MissingRead hart=1 tag=7 at=0x80001044",
    ),
    (
        Fault::TornRead { at: 0x8000_1044 },
        b"31 TornRead hart=1 tag=7 at=0x80001044",
    ),
    (Fault::MissingBypass, b"32 MissingBypass hart=1 tag=7"),
    (
        Fault::AmoData {
            at: 0x8000_1000,
            want: Some(2),
            got: Some(1),
        },
        b"34 AmoData hart=1 tag=7 at=0x80001000 want=0x2 got=0x1",
    ),
    (Fault::ScPair, b"35 ScPair hart=1 tag=7"),
];

#[test]
fn tells_faults_of_reports(rt: HostRuntime) {
    assert_eq!(rt; first_untold(REPORTS), None);
}

const MEMORY_AND_END: &[Told] = &[
    (
        Fault::LoadValue {
            at: 0x8000_1000,
            want: Some(1),
            got: Some(0),
        },
        b"33 LoadValue hart=1 tag=7 at=0x80001000 want=0x1 got=0x0",
    ),
    (
        Fault::Order {
            rule: 13,
            first: OpName {
                hart: 0,
                tag: 1,
                part: 4,
            },
            second: OpName {
                hart: 15,
                tag: u64::MAX,
                part: 0,
            },
        },
        b"36 Order hart=1 tag=7 rule=13 first=0:1.4 second=15:18446744073709551615.0",
    ),
    (
        Fault::Atomicity {
            at: 0x8000_1000,
            store: Origin { hart: 1, tag: 1 },
        },
        b"37 Atomicity hart=1 tag=7 at=0x80001000 store=1:1",
    ),
    (
        Fault::Unwritten {
            store: Origin {
                hart: 0,
                tag: u64::MAX,
            },
            at: 0x8000_1000,
        },
        b"40 Unwritten hart=1 tag=7 store=0:18446744073709551615 at=0x80001000",
    ),
    (
        Fault::Unretired {
            bypass: Origin {
                hart: 0,
                tag: u64::MAX,
            },
        },
        b"41 Unretired hart=1 tag=7 bypass=0:18446744073709551615",
    ),
];

#[test]
fn tells_faults_of_memory_and_of_the_end(rt: HostRuntime) {
    assert_eq!(rt; first_untold(MEMORY_AND_END), None);
}

const TWO: Verdict = Verdict::Accept {
    messages: 2,
    retired: 0,
    operations: 0,
};

/// Whether a sink with room takes the whole line.
fn prints_all(alloc: Global) -> Result<bool, AllocError> {
    let mut out = MemSink::new(alloc, 64, 7)?;
    let printed = print(&TWO, &mut out) == Ok(());
    Ok(printed && out.bytes() == b"ACCEPT messages=2 retired=0 operations=0\n".as_slice())
}

/// Whether a sink whose second write fails has the first 7 bytes.
fn prints_part(alloc: Global) -> Result<bool, AllocError> {
    let mut out = MemSink::new(alloc, 64, 7)?;
    out.fail_at(2)?;
    let failed = print(&TWO, &mut out) == Err(WriteFailed { put: 7 });
    Ok(failed && out.bytes() == b"ACCEPT ".as_slice())
}

#[test]
fn prints_a_line(rt: HostRuntime) -> Result<(), Fail> {
    assert!(rt; prints_all(rt.alloc())?);
    assert!(rt; prints_part(rt.alloc())?);
    Ok(())
}
