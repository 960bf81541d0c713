//! Runs in which nothing fails.

ghost use Rattle.std.specs.Prelude.{◌≤◌};

use super::support::{LINES, STREAM, gives_by};
use std::alloc::Global;
use std::test::Fail;

const USAGE: &str = "USAGE tandem text to STREAM | text from FILE\n";

// Whether the stream is printed as its lines, and they are written as the stream.
fn go_both_ways(alloc: Global, step: usize) -> Result<bool, Fail>
    requires { 1 ≤ step }
{
    let stream = hex::decode(alloc, STREAM)?;
    let printed = gives_by(alloc, "text to s", &stream, step, LINES.as_bytes(), 0)?;
    let written = gives_by(alloc, "text from s", LINES.as_bytes(), step, &stream, 0)?;
    Ok(printed && written)
}

#[test]
fn a_stream_is_printed_and_its_text_is_written(rt: HostRuntime) -> Result<(), Fail> {
    assert!(rt; go_both_ways(rt.alloc(), 1)?);
    assert!(rt; go_both_ways(rt.alloc(), 7)?);
    assert!(rt; go_both_ways(rt.alloc(), 4096)?);
    Ok(())
}

// Whether what the first bytes of the stream, and then these, are printed as ends with this line,
// behind so many bytes of the lines.
fn ends_with(
    alloc: Global,
    front: usize,
    behind: &str,
    lines: usize,
    line: &str,
    status: u8,
) -> Result<bool, Fail> {
    let mut stream = hex::decode(alloc, STREAM)?;
    stream.truncate(front);
    stream.extend_from_slice(&hex::decode(alloc, behind)?)?;
    let mut wanted = Vec::new(alloc);
    for byte in LINES.as_bytes().iter().take(lines) {
        wanted.push(*byte)?;
    }
    wanted.extend_from_slice(line.as_bytes())?;
    gives_by(alloc, "text to s", &stream, 64, &wanted, status)
}

// The same with a REJECT that tells this.
fn is_rejected(
    alloc: Global,
    front: usize,
    behind: &str,
    lines: usize,
    told: &str,
) -> Result<bool, Fail> {
    let line = format!(in alloc; "REJECT {told}\n")?;
    ends_with(alloc, front, behind, lines, line.as_str(), 1)
}

#[test]
fn nothing_behind_the_end_is_printed(rt: HostRuntime) -> Result<(), Fail> {
    assert!(rt; ends_with(rt.alloc(), 100, "00", 161, "", 0)?);
    Ok(())
}

#[test]
fn a_frame_cut_off_is_told_behind_the_lines(rt: HostRuntime) -> Result<(), Fail> {
    for (front, behind, lines, line) in [
        (90, "", 150, "message=3 offset=80 fault=2 Truncated have=10"),
        (0, "", 0, "message=1 offset=0 fault=2 Truncated have=0"),
        (28, "11", 55, "message=2 offset=28 fault=2 Truncated have=1"),
    ] {
        let told = is_rejected(rt.alloc(), front, behind, lines, line)?;
        assert!(rt; told, "{line}");
    }
    Ok(())
}

#[test]
fn a_frame_of_no_form_is_told_behind_the_lines(rt: HostRuntime) -> Result<(), Fail> {
    let length = "message=2 offset=28 fault=1 BadFrame form=Length";
    assert!(rt; is_rejected(rt.alloc(), 28, "1100", 55, length)?);
    let squash = "1200090002000000000000000100000000000000";
    let reserved = "message=3 offset=92 fault=1 BadFrame form=Reserved";
    assert!(rt; is_rejected(rt.alloc(), 80, squash, 150, reserved)?);
    Ok(())
}

#[test]
fn a_text_that_is_none_is_told_alone(rt: HostRuntime) -> Result<(), Fail> {
    for (text, line, status) in [
        (b"".as_slice(), "", 0),
        (b"end time=2 x\n", "TEXT line=1 column=12\n", 1),
        (b"end time=02\n", "TEXT line=1 column=5\n", 1),
        (b"end time=2\nend time=3", "TEXT line=2 column=11\n", 1),
        (b"end time=2\n\n", "TEXT line=2 column=1\n", 1),
        (b"\xff\n", "TEXT line=1 column=1\n", 1),
        (b"end time=2\0\n", "TEXT line=1 column=5\n", 1),
    ] {
        let alloc = rt.alloc();
        assert!(rt;
            gives_by(alloc, "text from s", text, 64, line.as_bytes(), status)?,
            "{line}"
        );
    }
    Ok(())
}

#[test]
fn words_are_refused_and_names_missed(rt: HostRuntime) -> Result<(), Fail> {
    for (words, line, status) in [
        ("text", USAGE, 2),
        ("text to", USAGE, 2),
        ("text up s", USAGE, 2),
        ("text to s s", USAGE, 2),
        ("text to -s", USAGE, 2),
        ("text to ", USAGE, 2),
        ("Text to s", USAGE, 2),
        ("text to t", "INPUT missing t\n", 3),
        ("text from t", "INPUT missing t\n", 3),
    ] {
        let alloc = rt.alloc();
        assert!(rt;
            gives_by(alloc, words, b"", 64, line.as_bytes(), status)?,
            "{words}"
        );
    }
    Ok(())
}
