//! Reads and writes that fail.

ghost use Rattle.std.specs.Prelude.{◌≤◌};

use super::support::{LINES, STREAM, gives, inputs_of};
use std::alloc::Global;
use std::test::Fail;
use tandem_io::{MemSink, Slot};

// How many bytes of the lines are those of frames that are whole in so many bytes.
fn lines_within(bytes: u64) -> usize {
    match bytes {
        0..28 => 0,
        28..80 => 55,
        80..100 => 150,
        _ => 161,
    }
}

// Whether this call on the stream, which fails, is told behind the lines so far. A read brings one
// byte.
fn tells_read(
    alloc: Global,
    content: &[u8],
    words: &str,
    call: u64,
    front: &[u8],
) -> Result<bool, Fail> {
    let mut ins = inputs_of(alloc, content, 1)?;
    ins.fail_at(Slot::Stream, call)?;
    let mut out = MemSink::new(alloc, 512, 512)?;
    let mut wanted = Vec::new(alloc);
    wanted.extend_from_slice(front)?;
    wanted.extend_from_slice(b"INPUT failed s\n")?;
    gives(alloc, words, &mut ins, &mut out, &wanted, 3)
}

#[test]
fn each_read_of_a_stream_that_fails_is_told_behind_its_lines(rt: HostRuntime) -> Result<(), Fail> {
    let stream = hex::decode(rt.alloc(), STREAM)?;
    // It is attached by the first call, and read from the second on.
    for call in 1..=101u64 {
        let lines = LINES
            .as_bytes()
            .get(..lines_within(call.saturating_sub(2)))
            .unwrap_or(b"");
        assert!(rt;
            tells_read(rt.alloc(), &stream, "text to s", call, lines)?,
            "{call}"
        );
    }
    Ok(())
}

#[test]
fn each_read_of_a_text_that_fails_is_told_alone(rt: HostRuntime) -> Result<(), Fail> {
    // It is attached, its 161 bytes are read, and then its end.
    for call in 1..=163u64 {
        assert!(rt;
            tells_read(rt.alloc(), LINES.as_bytes(), "text from s", call, b"")?,
            "{call}"
        );
    }
    Ok(())
}

// Whether a front of what is due is there where this write fails, of which each takes so many bytes.
fn leaves_front(
    alloc: Global,
    content: &[u8],
    words: &str,
    step: usize,
    call: u64,
    front: &[u8],
) -> Result<bool, Fail>
    requires { 1 ≤ step }
{
    let mut ins = inputs_of(alloc, content, 4096)?;
    let mut out = MemSink::new(alloc, 65_536, step)?;
    out.fail_at(call)?;
    gives(alloc, words, &mut ins, &mut out, front, 6)
}

#[test]
fn each_write_that_fails_leaves_a_front(rt: HostRuntime) -> Result<(), Fail> {
    let stream = hex::decode(rt.alloc(), STREAM)?;
    for put in 0..161 {
        let front = LINES.as_bytes().get(..put).unwrap_or(b"");
        assert!(rt;
            leaves_front(rt.alloc(), &stream, "text to s", 1, put as u64 + 1, front)?,
            "{put}"
        );
    }
    for put in 0..100 {
        let front = stream.get(..put).unwrap_or(b"");
        assert!(rt;
            leaves_front(
                rt.alloc(),
                LINES.as_bytes(),
                "text from s",
                1,
                put as u64 + 1,
                front
            )?,
            "{put}"
        );
    }
    Ok(())
}

// So many copies of these bytes.
fn copies(alloc: Global, bytes: &[u8], count: u32) -> Result<Vec<u8>, Fail> {
    let mut all = Vec::new(alloc);
    for _ in 0..count {
        all.extend_from_slice(bytes)?;
    }
    Ok(all)
}

// Each line has 27 bytes, and each frame 20. A piece has at least 16384: 607 lines, or 820 frames.
#[test]
fn pieces_are_large(rt: HostRuntime) -> Result<(), Fail> {
    let alloc = rt.alloc();
    let line = b"squash hart=0 time=1 tag=1\n";
    let frame = hex::decode(alloc, "1200080001000000000000000100000000000000")?;
    let (text, stream) = (copies(alloc, line, 1000)?, copies(alloc, &frame, 1000)?);
    let lines = text.get(..16_389).unwrap_or(b"");
    assert!(rt; leaves_front(alloc, &stream, "text to s", 65_536, 2, lines)?);
    let frames = stream.get(..16_400).unwrap_or(b"");
    assert!(rt; leaves_front(alloc, &text, "text from s", 65_536, 2, frames)?);
    Ok(())
}
