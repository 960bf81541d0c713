//! What no clause says: how the edge meets the runtime's files and output, and each call once.

mod files;
mod lending;
mod memory;
mod outputs;

use super::{Failed, Inputs, MemInputs, Slot, SureInputs};
use std::alloc::{AllocError, Global};

/// One read of up to eight bytes, and what is left of `want` after those that it gave. None where
/// it fails, or gives others.
fn read_off<'a, I: Inputs>(ins: &mut I, slot: Slot, want: &'a [u8]) -> Option<&'a [u8]> {
    let mut buf = [0u8; 8];
    let read = match slot {
        Slot::Image => ins.read_image(&mut buf),
        Slot::Stream => ins.read(&mut buf),
    };
    match read {
        Ok(n) => want.strip_prefix(&buf[..n]),
        Err(Failed) => None,
    }
}

/// Whether one read gives just these bytes.
fn gives_once<I: Inputs>(ins: &mut I, slot: Slot, want: &[u8]) -> bool {
    match read_off(ins, slot, want) {
        Some(rest) => rest.is_empty(),
        None => false,
    }
}

/// Whether one read fails.
fn fails_once<I: Inputs>(ins: &mut I, slot: Slot) -> bool {
    let mut buf = [0u8; 8];
    let read = match slot {
        Slot::Image => ins.read_image(&mut buf),
        Slot::Stream => ins.read(&mut buf),
    };
    read == Err(Failed)
}

/// Whether a slot gives just these bytes, and then its end.
fn gives<I: Inputs>(ins: &mut I, slot: Slot, want: &[u8]) -> bool {
    let mut left = want;
    for _ in 0..100 {
        match read_off(ins, slot, left) {
            Some(rest) if rest.len() < left.len() => left = rest,
            Some(rest) => return rest.is_empty(),
            None => return false,
        }
    }
    false
}

/// Whether the name is there, and its content is just these bytes.
fn holds<I: Inputs>(ins: &mut I, slot: Slot, name: &str, want: &[u8]) -> bool {
    ins.attach(slot, name) == Ok(true) && gives(ins, slot, want)
}

/// Whether a slot is empty before a name is found, and then gives the content of that name.
fn finds<I: Inputs>(ins: &mut I, slot: Slot, wrong: &str) -> bool {
    gives(ins, slot, b"")
        && ins.attach(slot, wrong) == Ok(false)
        && gives(ins, slot, b"")
        && holds(ins, slot, "digits", b"0123456789")
}

/// The same of both slots.
fn finds_both<I: Inputs>(ins: &mut I, wrong: &str) -> bool {
    finds(ins, Slot::Image, wrong) && finds(ins, Slot::Stream, wrong)
}

/// Inputs of which one content is there.
fn holding(alloc: Global, step: usize) -> Result<MemInputs, AllocError> {
    let mut ins = MemInputs::new(alloc, step.max(1));
    ins.add("digits", b"0123456789")?;
    Ok(ins)
}

/// The same of those that never fail.
fn surely_holding(alloc: Global, step: usize) -> Result<SureInputs, AllocError> {
    let mut ins = SureInputs::new(alloc, step.max(1));
    ins.add("digits", b"0123456789")?;
    Ok(ins)
}
