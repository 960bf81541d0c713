//! Inputs and a sink in memory.

use super::{fails_once, finds_both, gives, gives_once, holding, surely_holding};
use crate::{
    Failed, Inputs, MemInputs, MemSink, Slot, SureInputs, SureSink, WriteFailed, write_all,
};
use std::alloc::{AllocError, Global};
use std::test::Fail;

#[test]
fn reads_a_content_by_its_name(rt: HostRuntime) -> Result<(), Fail> {
    for step in [1, 7, 4096] {
        let found = finds_both(&mut holding(rt.alloc(), step)?, "digit");
        assert!(rt; found, "at {step}");
    }
    Ok(())
}

#[test]
fn reads_surely(rt: HostRuntime) -> Result<(), Fail> {
    for step in [1, 7, 4096] {
        let found = finds_both(&mut surely_holding(rt.alloc(), step)?, "digit");
        assert!(rt; found, "at {step}");
    }
    Ok(())
}

/// Inputs of which the first and the fourth call on a slot fail.
fn failing(alloc: Global, slot: Slot) -> Result<MemInputs, AllocError> {
    let mut ins = holding(alloc, 7)?;
    ins.fail_at(slot, 1)?;
    ins.fail_at(slot, 4)?;
    Ok(ins)
}

/// Whether just those calls fail.
fn fails_at_those(ins: &mut MemInputs, slot: Slot) -> bool {
    ins.attach(slot, "digits") == Err(Failed)
        && ins.attach(slot, "digits") == Ok(true)
        && gives_once(ins, slot, b"0123456")
        && fails_once(ins, slot)
        && gives(ins, slot, b"789")
}

#[test]
fn fails_at_the_calls_that_are_to_fail(rt: HostRuntime) -> Result<(), Fail> {
    for slot in [Slot::Image, Slot::Stream] {
        let failed = fails_at_those(&mut failing(rt.alloc(), slot)?, slot);
        assert!(rt; failed);
    }
    Ok(())
}

/// A sink with room for 20 bytes.
fn sink_of(alloc: Global, step: usize, fails: u64) -> Result<MemSink, AllocError> {
    let mut out = MemSink::new(alloc, 20, step.max(1))?;
    out.fail_at(fails)?;
    Ok(out)
}

/// Whether of a text that has no room just this front is kept, and its length is told.
fn keeps_front(out: &mut MemSink, front: &[u8]) -> bool {
    let failed = WriteFailed {
        put: front.len() as u64,
    };
    write_all(out, b"twenty-one characters") == Err(failed) && out.bytes() == front
}

/// Whether a text that has room is kept whole.
fn keeps(out: &mut MemSink, text: &[u8]) -> bool {
    write_all(out, text) == Ok(()) && out.bytes() == text
}

#[test]
fn keeps_what_was_written(rt: HostRuntime) -> Result<(), Fail> {
    for (step, fails, front) in [
        (1, 3, "tw"),
        (7, 2, "twenty-"),
        (7, 9, "twenty-one cha"),
        (40, 1, ""),
    ] {
        let kept = keeps_front(&mut sink_of(rt.alloc(), step, fails)?, front.as_bytes());
        assert!(rt; kept, "{front}");
    }
    let kept = keeps(&mut sink_of(rt.alloc(), 3, 9)?, b"a short text");
    assert!(rt; kept && write_all(&mut SureSink::new(), b"any text") == Ok(()));
    Ok(())
}

/// As many as a careless form in memory might not hold. No clause says how many, so that no proof
/// counts them.
fn many() -> usize {
    1_000_000
}

/// A content of so many bytes.
fn large(alloc: Global, size: usize) -> Result<Vec<u8>, AllocError> {
    let mut bytes = Vec::new(alloc);
    for _ in 0..size {
        bytes.push(7)?;
    }
    Ok(bytes)
}

/// Has many late calls on the stream fail.
fn fail_late(ins: &mut MemInputs) -> Result<(), AllocError> {
    for call in 2_000..4_000u64 {
        ins.fail_at(Slot::Stream, call)?;
    }
    Ok(())
}

/// Has many late writes fail.
fn fail_late_writes(out: &mut MemSink) -> Result<(), AllocError> {
    for call in 2_000..4_000u64 {
        out.fail_at(call)?;
    }
    Ok(())
}

/// Whether the large content is there, and its first reads give on and on.
fn begins_large<I: Inputs>(ins: &mut I, slot: Slot) -> bool {
    if ins.attach(slot, "large") != Ok(true) {
        return false;
    }
    for _ in 0..100 {
        if !gives_once(ins, slot, &[7; 8]) {
            return false;
        }
    }
    true
}

/// Whether inputs hold a large content beside many calls that are to fail.
fn mem_holds(alloc: Global, bytes: &[u8]) -> Result<bool, AllocError> {
    let mut ins = MemInputs::new(alloc, 4096);
    ins.add("large", bytes)?;
    fail_late(&mut ins)?;
    Ok(begins_large(&mut ins, Slot::Stream))
}

/// Whether those that never fail hold it.
fn sure_holds(alloc: Global, bytes: &[u8]) -> Result<bool, AllocError> {
    let mut ins = SureInputs::new(alloc, 4096);
    ins.add("large", bytes)?;
    Ok(begins_large(&mut ins, Slot::Image))
}

/// Whether a sink holds it beside many writes that are to fail.
fn sink_holds(alloc: Global, bytes: &[u8]) -> Result<bool, AllocError> {
    let mut out = MemSink::new(alloc, bytes.len(), 4096)?;
    fail_late_writes(&mut out)?;
    Ok(keeps(&mut out, bytes))
}

#[test]
fn holds_as_much_as_there_is_memory_for(rt: HostRuntime) -> Result<(), Fail> {
    let alloc = rt.alloc();
    let bytes = large(alloc, many())?;
    assert!(rt; mem_holds(alloc, bytes.as_slice())?, "inputs");
    assert!(rt; sure_holds(alloc, bytes.as_slice())?, "sure inputs");
    assert!(rt; sink_holds(alloc, bytes.as_slice())?, "sink");
    Ok(())
}
