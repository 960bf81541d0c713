//! The fields of a line, read one behind the other. Each call takes the offset at which the word
//! before ends, and answers the value with the offset at which its own word ends, or the offset of
//! the word that doesn't spell it.

ghost use Rattle.std.specs.Prelude.{◌≡◌, ◌≤◌, codes, length, Some, IfOk, IfErr};
ghost use Rattle.numerals.specs.Numerals.{hexadecimal_in};
ghost use Rattle.trace_text.specs.Values.{between, multiple, target_word, poked_value_in, piece_bytes_in};
ghost use Rattle.trace_text.specs.Values.{line_bytes_in, trap_word, rd_word, csrs_word};
ghost use Rattle.trace_text.specs.Words.{field, value_or};

use super::spellings;
use super::words::named_word;
use msg_frames::{CsrList, RdValue, Target};
use numerals::read_hexadecimal;
use tandem_base::Bytes8;

/// The value with the offset at which its word ends, or else that at which the word starts.
fn value_or<A>(start: usize, value: Option<A>, end: usize) -> Result<(A, usize), usize>
    ensures value { result ≡ value_or start value end }
    ensures some { IfOk result (λ read. value ≡ Some read.0) }
    ensures end { IfOk result (λ read. read.1 ≡ end) }
    ensures start { IfErr result (λ place. place ≡ start) }
{
    match value {
        Some(value) => Ok((value, end)),
        None => Err(start),
    }
}

/// A number from `least` to `most` in decimal.
pub(crate) fn decimal(
    line: &[u8],
    at: usize,
    name: &[u8],
    least: u64,
    most: u64,
) -> Result<(u64, usize), usize>
    requires { at ≤ length line.now }
    ensures value { result ≡ field name.now (between least most) line.now at }
    ensures low { IfOk result (λ read. least ≤ read.0) }
    ensures high { IfOk result (λ read. read.0 ≤ most) }
    ensures bound { IfOk result (λ read. read.1 ≤ length line.now) }
    ensures place { IfErr result (λ place. place ≤ length line.now) }
{
    let (text, end) = named_word(line, at, name)?;
    value_or(at + 1, spellings::between(text, least, most), end)
}

/// A number of at most `most` in hexadecimal.
pub(crate) fn hexadecimal(
    line: &[u8],
    at: usize,
    name: &[u8],
    most: u64,
) -> Result<(u64, usize), usize>
    requires { at ≤ length line.now }
    ensures value { result ≡ field name.now (hexadecimal_in most) line.now at }
    ensures high { IfOk result (λ read. read.0 ≤ most) }
    ensures bound { IfOk result (λ read. read.1 ≤ length line.now) }
    ensures place { IfErr result (λ place. place ≤ length line.now) }
{
    let (text, end) = named_word(line, at, name)?;
    value_or(at + 1, read_hexadecimal(text, most), end)
}

/// The address of a line of memory.
pub(crate) fn address(line: &[u8], at: usize) -> Result<(u64, usize), usize>
    requires { at ≤ length line.now }
    ensures value { result ≡ field (codes "line=") (multiple 64) line.now at }
    ensures bound { IfOk result (λ read. read.1 ≤ length line.now) }
    ensures place { IfErr result (λ place. place ≤ length line.now) }
{
    let (text, end) = named_word(line, at, b"line=")?;
    value_or(at + 1, spellings::multiple(text, 64), end)
}

/// What a Poke sets.
pub(crate) fn target(line: &[u8], at: usize) -> Result<(Target, usize), usize>
    requires { at ≤ length line.now }
    ensures value { result ≡ field (codes "reg=") target_word line.now at }
    ensures bound { IfOk result (λ read. read.1 ≤ length line.now) }
    ensures place { IfErr result (λ place. place ≤ length line.now) }
{
    let (text, end) = named_word(line, at, b"reg=")?;
    value_or(at + 1, spellings::target(text), end)
}

/// The value of what a Poke sets.
pub(crate) fn poked_value(line: &[u8], at: usize, target: Target) -> Result<(u64, usize), usize>
    requires { at ≤ length line.now }
    ensures value { result ≡ field (codes "value=") (poked_value_in target) line.now at }
    ensures bound { IfOk result (λ read. read.1 ≤ length line.now) }
    ensures place { IfErr result (λ place. place ≤ length line.now) }
{
    let (text, end) = named_word(line, at, b"value=")?;
    value_or(at + 1, spellings::poked_value(text, target), end)
}

/// One to eight bytes.
pub(crate) fn piece_bytes(line: &[u8], at: usize) -> Result<(Bytes8, usize), usize>
    requires { at ≤ length line.now }
    ensures value { result ≡ field (codes "bytes=") piece_bytes_in line.now at }
    ensures bound { IfOk result (λ read. read.1 ≤ length line.now) }
    ensures place { IfErr result (λ place. place ≤ length line.now) }
{
    let (text, end) = named_word(line, at, b"bytes=")?;
    value_or(at + 1, spellings::piece_bytes(text), end)
}

/// The 64 bytes of a line of memory.
pub(crate) fn line_bytes(line: &[u8], at: usize, mask: u64) -> Result<([u8; 64], usize), usize>
    requires { at ≤ length line.now }
    ensures value { result ≡ field (codes "bytes=") (line_bytes_in mask) line.now at }
    ensures bound { IfOk result (λ read. read.1 ≤ length line.now) }
    ensures place { IfErr result (λ place. place ≤ length line.now) }
{
    let (text, end) = named_word(line, at, b"bytes=")?;
    value_or(at + 1, spellings::line_bytes(text, mask), end)
}

/// The cause of a trap, or none.
pub(crate) fn trap(line: &[u8], at: usize) -> Result<(Option<u8>, usize), usize>
    requires { at ≤ length line.now }
    ensures value { result ≡ field (codes "trap=") trap_word line.now at }
    ensures bound { IfOk result (λ read. read.1 ≤ length line.now) }
    ensures place { IfErr result (λ place. place ≤ length line.now) }
{
    let (text, end) = named_word(line, at, b"trap=")?;
    value_or(at + 1, spellings::trap(text), end)
}

/// The register that was written, or none.
pub(crate) fn rd(line: &[u8], at: usize) -> Result<(Option<RdValue>, usize), usize>
    requires { at ≤ length line.now }
    ensures value { result ≡ field (codes "rd=") rd_word line.now at }
    ensures bound { IfOk result (λ read. read.1 ≤ length line.now) }
    ensures place { IfErr result (λ place. place ≤ length line.now) }
{
    let (text, end) = named_word(line, at, b"rd=")?;
    value_or(at + 1, spellings::rd(text), end)
}

/// The CSRs that were written.
pub(crate) fn csrs(line: &[u8], at: usize) -> Result<(CsrList, usize), usize>
    requires { at ≤ length line.now }
    ensures value { result ≡ field (codes "csrs=") csrs_word line.now at }
    ensures bound { IfOk result (λ read. read.1 ≤ length line.now) }
    ensures place { IfErr result (λ place. place ≤ length line.now) }
{
    let (text, end) = named_word(line, at, b"csrs=")?;
    value_or(at + 1, spellings::csrs(text), end)
}
