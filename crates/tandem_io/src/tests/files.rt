//! Files, by their names.

use super::{fails_once, finds_both, holds};
use crate::file_slot::FileSlot;
use crate::{Failed, FileInputs, Inputs, Slot};
use std::alloc::{AllocError, Global};
use std::fs;
use std::io::{self, ErrorKind, Read};
use std::test::Fail;

/// A file of which the first read gives 32 KiB, the second fails, and the third is its end.
#[derive(Drop)]
struct Torn {
    reads: u8,
}

impl Read for Torn {
    fn read(&mut self, buf: &mut [u8]) -> io::Result<usize> {
        self.reads = self.reads.saturating_add(1);
        match self.reads {
            1 => Ok(buf.len().min(32_768)),
            2 => Err(io::Error::from(ErrorKind::Interrupted)),
            _ => Ok(0),
        }
    }
}

/// How many bytes a slot gives before its end or its first failure, and whether it failed.
fn given_by(slot: &mut FileSlot<Torn>) -> (usize, bool) {
    let mut total = 0usize;
    for _ in 0..100_000 {
        let mut buf = [0u8; 100];
        match slot.read(&mut buf) {
            Ok(0) => return (total, false),
            Ok(n) => total = total.saturating_add(n),
            Err(Failed) => return (total, true),
        }
    }
    (total, false)
}

/// Whether opening with this error is answered so.
fn refuses(slot: &mut FileSlot<Torn>, kind: ErrorKind, want: Result<bool, Failed>) -> bool {
    slot.attach(Err(io::Error::from(kind))) == want
}

/// Whether a slot gives what comes before a read that fails, that failure once, and then the end.
fn tells_the_tear(slot: &mut FileSlot<Torn>) -> bool {
    slot.attach(Ok(Torn { reads: 0 })) == Ok(true)
        && given_by(slot) == (32_768, true)
        && given_by(slot) == (0, false)
}

#[test]
fn counts_what_a_file_refuses(rt: HostRuntime) {
    let mut slot = FileSlot::new();
    let refused = given_by(&mut slot) == (0, false)
        && refuses(&mut slot, ErrorKind::NotFound, Ok(false))
        && refuses(&mut slot, ErrorKind::NotADirectory, Err(Failed));
    assert!(rt; refused && tells_the_tear(&mut slot));
}

/// Whether a directory can't be opened, or fails when it is read.
fn reads_no_directory<I: Inputs>(ins: &mut I, slot: Slot) -> bool {
    ins.attach(slot, ".") != Ok(true) || fails_once(ins, slot)
}

#[test]
fn reads_real_files(rt: HostRuntime) -> Result<(), Fail> {
    fs::write(&rt, "digits", "0123456789")?;
    let mut ins = FileInputs::new(&rt);
    let found = finds_both(&mut ins, "absent");
    let none = reads_no_directory(&mut ins, Slot::Image)
        && reads_no_directory(&mut ins, Slot::Stream);
    assert!(rt; found && none);
    Ok(())
}

/// Whether a name that is a file's content too is opened in both slots.
fn opens<I: Inputs>(ins: &mut I, name: &str, content: &str) -> bool {
    holds(ins, Slot::Image, name, content.as_bytes())
        && holds(ins, Slot::Stream, name, content.as_bytes())
}

/// Whether opening a name is answered so in both slots.
fn answers<I: Inputs>(ins: &mut I, name: &str, want: Result<bool, Failed>) -> bool {
    ins.attach(Slot::Image, name) == want && ins.attach(Slot::Stream, name) == want
}

#[test]
fn opens_the_name_that_it_is_given(rt: HostRuntime) -> Result<(), Fail> {
    let mut ins = FileInputs::new(&rt);
    for name in [
        "name",
        "Name",
        "name.",
        " name",
        "name ",
        "two words",
        "na\u{ef}ve",
        "./dotted",
    ] {
        fs::write(&rt, name, name)?;
        assert!(rt; opens(&mut ins, name, name), "{name}");
    }
    Ok(())
}

#[test]
fn opens_no_other_name(rt: HostRuntime) -> Result<(), Fail> {
    for name in ["name", "two words", "dotted"] {
        fs::write(&rt, name, name)?;
    }
    for (name, want) in [
        ("NAME", Ok(false)),
        ("name..", Ok(false)),
        ("two  words", Ok(false)),
        ("naive", Ok(false)),
        (" ./dotted", Ok(false)),
        ("name/", Err(Failed)),
        ("a\0b", Err(Failed)),
    ] {
        let answered = answers(&mut FileInputs::new(&rt), name, want);
        assert!(rt; answered, "{name}");
    }
    Ok(())
}

/// Whether a file of this name is opened, where one of a name shorter by a byte is there too.
fn opens_long(rt: &HostRuntime, name: &str, shorter: &str) -> Result<bool, Fail> {
    fs::write(rt, shorter, "shorter")?;
    fs::write(rt, name, "long")?;
    Ok(opens(&mut FileInputs::new(rt), name, "long"))
}

#[test]
fn opens_a_name_of_255_bytes(rt: HostRuntime) -> Result<(), Fail> {
    let shorter = "n".repeat(rt.alloc(), 254)?;
    let name = "n".repeat(rt.alloc(), 255)?;
    assert!(rt; opens_long(&rt, name.as_str(), shorter.as_str())?);
    Ok(())
}

/// A path of 1,000 bytes to this folder, and a name in it.
fn far_path(alloc: Global, name: &str) -> Result<String, AllocError> {
    let mut path = "./".repeat(alloc, 500)?;
    path.push_str(name)?;
    Ok(path)
}

#[test]
fn opens_a_path_of_1004_bytes(rt: HostRuntime) -> Result<(), Fail> {
    let shorter = far_path(rt.alloc(), "far")?;
    let path = far_path(rt.alloc(), "farm")?;
    assert!(rt; opens_long(&rt, path.as_str(), shorter.as_str())?);
    Ok(())
}
