//! What a stream lends.

use super::{gives, holding, surely_holding};
use crate::{FileInputs, Inputs, Slot, Source};
use std::fs;
use std::test::Fail;

/// Whether after one byte a stream lends these, and after up to three of those this rest is left.
fn lends<I: Inputs>(ins: &mut I, lent: &[u8], rest: &[u8]) -> bool {
    let _ = ins.attach(Slot::Stream, "digits");
    let _ = ins.read(&mut [0; 1]);
    let same = ins.ready() == lent;
    let n = ins.ready().len().min(3);
    ins.skip(n);
    same && gives(ins, Slot::Stream, rest)
}

#[test]
fn lends_what_it_holds(rt: HostRuntime) -> Result<(), Fail> {
    fs::write(&rt, "digits", "0123456789")?;
    let file = lends(&mut FileInputs::new(&rt), b"123456789", b"456789");
    let sure = lends(&mut surely_holding(rt.alloc(), 4)?, b"1234", b"456789");
    let none = lends(&mut holding(rt.alloc(), 4)?, b"", b"123456789");
    assert!(rt; file && sure && none);
    Ok(())
}
