//! How a run is made and compared.

ghost use Rattle.std.specs.Prelude.{◌≤◌};

use std::alloc::{AllocError, Global};
use std::test::Fail;
use tandem_cli::run_check;
use tandem_io::{MemInputs, MemSink};

/// The words of most runs.
pub const WORDS: &str = "check i s --flat 0x80000000";

/// An ADDI that writes 5 to x1.
pub const ADDI: [u8; 4] = [0x93, 0x00, 0x50, 0x00];

/// The frame of an Open.
pub const OPEN: &str = "1a000100000000000000000000000000000000000101000000000000";

/// The frame of that ADDI's Retire.
pub const RETIRE: &str =
    "32000700010000000000000001000000000000000000008000000000930050000400008000000000020001000500000000000000";

/// The frame of an End behind them.
pub const END: &str = "1200090002000000000000000000000000000000";

/// The line of these three.
pub const ACCEPTED: &str = "ACCEPT messages=3 retired=1 operations=0\n";

/// The bytes of these texts in hexadecimal, one behind the other.
pub fn joined(alloc: Global, texts: &[&str]) -> Result<Vec<u8>, Fail> {
    let mut bytes = Vec::new(alloc);
    for text in texts {
        let piece = hex::decode(alloc, text)?;
        bytes.extend_from_slice(&piece)?;
    }
    Ok(bytes)
}

/// Inputs with this image as `i` and this stream as `s`, read in pieces of at most `step` bytes.
pub fn inputs_of(
    alloc: Global,
    image: &[u8],
    stream: &[u8],
    step: usize,
) -> Result<MemInputs, AllocError>
    requires { 1 ≤ step }
{
    let mut ins = MemInputs::new(alloc, step);
    ins.add("i", image)?;
    ins.add("s", stream)?;
    Ok(ins)
}

/// The words of the text, which single spaces part.
pub fn words_of(alloc: Global, text: &str) -> Result<Vec<String>, AllocError> {
    let mut words = Vec::new(alloc);
    for word in text.split(' ') {
        words.push(String::from_str(alloc, word)?)?;
    }
    Ok(words)
}

/// Whether a run of the most usual words over these inputs writes this line and answers this status.
pub fn answers(
    alloc: Global,
    ins: &mut MemInputs,
    line: &str,
    status: u8,
) -> Result<bool, AllocError> {
    let words = words_of(alloc, WORDS)?;
    let mut out = MemSink::new(alloc, 512, 512)?;
    let answered = run_check(alloc, &words, ins, &mut out);
    Ok(answered == status && out.bytes() == line.as_bytes())
}
