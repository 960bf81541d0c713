//! Reads and writes that fail.

ghost use Rattle.std.specs.Prelude.{◌≤◌};

use super::support::{
    ACCEPTED, ADDI, END, OPEN, RETIRE, WORDS, answers, inputs_of, joined, words_of,
};
use std::alloc::Global;
use std::test::Fail;
use tandem_cli::run_check;
use tandem_io::{MemSink, Slot};

/// Has the call of this number on a slot fail, where a read brings at most `step` bytes, and tells
/// whether this line and this status come of it.
fn fails_at(
    alloc: Global,
    slot: Slot,
    call: u64,
    step: usize,
    line: &str,
    status: u8,
) -> Result<bool, Fail>
    requires { 1 ≤ step }
{
    let stream = joined(alloc, &[OPEN, RETIRE, END])?;
    let mut ins = inputs_of(alloc, &ADDI, &stream, step)?;
    ins.fail_at(slot, call)?;
    Ok(answers(alloc, &mut ins, line, status)?)
}

#[test]
fn each_call_on_the_image_that_fails_is_told(rt: HostRuntime) -> Result<(), Fail> {
    // It is attached, its 4 bytes are read one by one, and then its end. A seventh call isn't made.
    for call in 1..=7 {
        let (line, status) = if call == 7 {
            (ACCEPTED, 0)
        } else {
            ("INPUT failed i\n", 3)
        };
        assert!(rt;
            fails_at(rt.alloc(), Slot::Image, call, 1, line, status)?,
            "{call}"
        );
    }
    Ok(())
}

#[test]
fn each_call_on_the_stream_that_fails_is_told(rt: HostRuntime) -> Result<(), Fail> {
    // It is attached, and its 100 bytes are read one by one. Nothing is read behind them.
    for call in 1..=102 {
        let (line, status) = if call == 102 {
            (ACCEPTED, 0)
        } else {
            ("INPUT failed s\n", 3)
        };
        assert!(rt;
            fails_at(rt.alloc(), Slot::Stream, call, 1, line, status)?,
            "{call}"
        );
    }
    Ok(())
}

#[test]
fn a_long_read_of_the_stream_that_fails_is_told(rt: HostRuntime) -> Result<(), Fail> {
    assert!(rt; fails_at(rt.alloc(), Slot::Stream, 4, 4096, "INPUT failed s\n", 3)?);
    Ok(())
}

/// A run that writes a line.
struct Written {
    words: &'static str,
    retire: &'static str,
    line: &'static str,
    status: u8,
}

/// The same ADDI with another value.
const WRONG: &str =
    "32000700010000000000000001000000000000000000008000000000930050000400008000000000020001000600000000000000";

/// A run for each kind of line.
const LINES: [Written; 6] = [
    Written {
        words: WORDS,
        retire: RETIRE,
        line: ACCEPTED,
        status: 0,
    },
    Written {
        words: WORDS,
        retire: WRONG,
        line: "REJECT message=2 offset=28 fault=24 Rd hart=0 tag=1 want=x1:0x5 got=x1:0x6\n",
        status: 1,
    },
    Written {
        words: "check i",
        retire: RETIRE,
        line: "USAGE tandem check IMAGE STREAM [--flat BASE] [--ram BASE:SIZE]... [--limits R,S,K,M]\n",
        status: 2,
    },
    Written {
        words: "check j s --flat 0x80000000",
        retire: RETIRE,
        line: "INPUT missing j\n",
        status: 3,
    },
    Written {
        words: "check i s",
        retire: RETIRE,
        line: "IMAGE 1 NotElf\n",
        status: 4,
    },
    Written {
        words: "check i s --flat 0x80000000 --limits 4096,4096,16384,2",
        retire: RETIRE,
        line: "UNDECIDED message=3 limit=MESSAGES hart=- count=3\n",
        status: 5,
    },
];

/// Has the write behind the first `put` bytes of a line fail, where a write takes one byte, and
/// tells whether just these bytes were written, and the status is 6, or that of the whole line.
fn stops_at(alloc: Global, run: &Written, put: usize) -> Result<bool, Fail> {
    let stream = joined(alloc, &[OPEN, run.retire, END])?;
    let words = words_of(alloc, run.words)?;
    let mut ins = inputs_of(alloc, &ADDI, &stream, 4096)?;
    let mut out = MemSink::new(alloc, 512, 1)?;
    out.fail_at((put as u64).saturating_add(1))?;
    let status = run_check(alloc, &words, &mut ins, &mut out);
    let due = if put == run.line.len() { run.status } else { 6 };
    Ok(status == due && run.line.as_bytes().get(..put) == Some(out.bytes()))
}

#[test]
fn each_write_that_fails_leaves_a_front_of_the_line(rt: HostRuntime) -> Result<(), Fail> {
    for run in &LINES {
        for put in 0..=run.line.len() {
            assert!(rt; stops_at(rt.alloc(), run, put)?, "{put}");
        }
    }
    Ok(())
}
