//! How a run is made and compared.

ghost use Rattle.std.specs.Prelude.{◌≤◌};

use std::alloc::{AllocError, Global};
use std::test::Fail;
use tandem_cli::run_text;
use tandem_io::{MemInputs, MemSink};

/// An Open, a Retire and an End, in hexadecimal.
pub(crate) const STREAM: &str = "1a000100000000000000000000000000000000000101000000000000\
     32000700010000000000000001000000000000000000008000000000930050000400008000000000020001000500000000000000\
     1200090002000000000000000000000000000000";

/// Their lines.
pub(crate) const LINES: &str = "open time=0 version=1 harts=1 flags=0 granule=0 skew=0\n\
     retire hart=0 time=1 tag=1 pc=0x80000000 word=0x500093 next=0x80000004 trap=- rd=x1:0x5 csrs=-\n\
     end time=2\n";

// The words of the text, which single spaces part.
fn words_of(alloc: Global, text: &str) -> Result<Vec<String>, AllocError> {
    let mut words = Vec::new(alloc);
    for word in text.split(' ') {
        words.push(String::from_str(alloc, word)?)?;
    }
    Ok(words)
}

/// The content as `s`, read in pieces of at most `step` bytes.
pub(crate) fn inputs_of(alloc: Global, content: &[u8], step: usize) -> Result<MemInputs, AllocError>
    requires { 1 ≤ step }
{
    let mut ins = MemInputs::new(alloc, step);
    ins.add("s", content)?;
    Ok(ins)
}

/// Whether the words write these bytes, and answer this status.
pub(crate) fn gives(
    alloc: Global,
    words: &str,
    ins: &mut MemInputs,
    out: &mut MemSink,
    wanted: &[u8],
    status: u8,
) -> Result<bool, Fail> {
    let words = words_of(alloc, words)?;
    let answered = run_text(alloc, &words, ins, out);
    Ok(out.bytes() == wanted && answered == status)
}

/// The same, with reads and writes of at most `step` bytes, none of which fails.
pub(crate) fn gives_by(
    alloc: Global,
    words: &str,
    content: &[u8],
    step: usize,
    wanted: &[u8],
    status: u8,
) -> Result<bool, Fail>
    requires { 1 ≤ step }
{
    let mut ins = inputs_of(alloc, content, step)?;
    let mut out = MemSink::new(alloc, 65_536, step)?;
    gives(alloc, words, &mut ins, &mut out, wanted, status)
}
