//! The message of a line.

ghost use Rattle.std.specs.Prelude.{◌≡◌, ◌≤◌, length, IfOk, IfErr};
ghost use Rattle.trace_text.specs.Reading.{timed_at, placed_at, tagged_at, open_at, poke_at, piece_at, write_at};
ghost use Rattle.trace_text.specs.Reading.{fetch_at, outcome_at, retire_at, message_at, line_read};

use super::fields_read::{
    address, csrs, decimal, hexadecimal, line_bytes, piece_bytes, poked_value, rd, target, trap,
};
use super::kinds::{Kind, kind_named};
use super::words::{ended, parted};
use msg_frames::{Body, CsrList, Head, LineWrite, Message, OpenInfo, Piece, Poke, RdValue, Retire};

/// The message that the line spells, without its newline. Else the offset of the first word that
/// isn't a spelling of the field that is due there, or of the line's end where a word is missing.
#[tactic(auto, unfolding(crate::specs::Reading::line_read))]
pub(crate) fn line_read(line: &[u8]) -> Result<Message, usize>
    ensures value { result ≡ line_read line.now }
    ensures place { IfErr result (λ place. place ≤ length line.now) }
{
    let (word, _) = parted(line, b' ');
    match kind_named(word) {
        Some(kind) => message_at(kind, line, word.len()),
        None => Err(0),
    }
}

// The message of this kind.
#[tactic(auto, unfolding(crate::specs::Reading::message_at))]
fn message_at(kind: Kind, line: &[u8], at: usize) -> Result<Message, usize>
    requires { at ≤ length line.now }
    ensures value { result ≡ message_at kind line.now at }
    ensures place { IfErr result (λ place. place ≤ length line.now) }
{
    match kind {
        Kind::Open => open_message(line, at),
        Kind::Poke => {
            let (head, at) = placed(line, at)?;
            let body = Body::Poke(poke(line, at)?);
            Ok(Message { head, body })
        }
        Kind::Read => {
            let (head, at) = tagged(line, at)?;
            let body = Body::Read(piece(line, at)?);
            Ok(Message { head, body })
        }
        Kind::Insert => {
            let (head, at) = tagged(line, at)?;
            let body = Body::Insert(piece(line, at)?);
            Ok(Message { head, body })
        }
        Kind::Write => {
            let (head, at) = placed(line, at)?;
            let body = Body::Write(write(line, at)?);
            Ok(Message { head, body })
        }
        Kind::Bypass => {
            let (head, at) = tagged(line, at)?;
            let body = Body::Bypass(piece(line, at)?);
            Ok(Message { head, body })
        }
        Kind::Retire => {
            let (head, at) = tagged(line, at)?;
            let body = Body::Retire(retire(line, at)?);
            Ok(Message { head, body })
        }
        Kind::Squash => squash_message(line, at),
        Kind::End => end_message(line, at),
    }
}

// An Open.
#[tactic(auto, unfolding(crate::specs::Reading::message_at))]
fn open_message(line: &[u8], at: usize) -> Result<Message, usize>
    requires { at ≤ length line.now }
    ensures value { result ≡ message_at Kind.Open line.now at }
    ensures place { IfErr result (λ place. place ≤ length line.now) }
{
    let (head, at) = timed(line, at)?;
    let body = Body::Open(open(line, at)?);
    Ok(Message { head, body })
}

// A Squash.
#[tactic(auto, unfolding(crate::specs::Reading::message_at))]
fn squash_message(line: &[u8], at: usize) -> Result<Message, usize>
    requires { at ≤ length line.now }
    ensures value { result ≡ message_at Kind.Squash line.now at }
    ensures place { IfErr result (λ place. place ≤ length line.now) }
{
    let (head, at) = tagged(line, at)?;
    ended(line, at)?;
    let body = Body::Squash;
    Ok(Message { head, body })
}

// An End.
#[tactic(auto, unfolding(crate::specs::Reading::message_at))]
fn end_message(line: &[u8], at: usize) -> Result<Message, usize>
    requires { at ≤ length line.now }
    ensures value { result ≡ message_at Kind.End line.now at }
    ensures place { IfErr result (λ place. place ≤ length line.now) }
{
    let (head, at) = timed(line, at)?;
    ended(line, at)?;
    let body = Body::End;
    Ok(Message { head, body })
}

// The time alone.
#[tactic(auto, unfolding(crate::specs::Reading::timed_at))]
fn timed(line: &[u8], at: usize) -> Result<(Head, usize), usize>
    requires { at ≤ length line.now }
    ensures value { result ≡ timed_at line.now at }
    ensures bound { IfOk result (λ read. read.1 ≤ length line.now) }
    ensures place { IfErr result (λ place. place ≤ length line.now) }
{
    let (time, at) = decimal(line, at, b"time=", 0, u64::MAX)?;
    let head = Head {
        hart: 0,
        time,
        tag: 0,
    };
    Ok((head, at))
}

// The hart and the time.
#[tactic(auto, unfolding(crate::specs::Reading::placed_at))]
fn placed(line: &[u8], at: usize) -> Result<(Head, usize), usize>
    requires { at ≤ length line.now }
    ensures value { result ≡ placed_at line.now at }
    ensures bound { IfOk result (λ read. read.1 ≤ length line.now) }
    ensures place { IfErr result (λ place. place ≤ length line.now) }
{
    let (hart, at) = decimal(line, at, b"hart=", 0, 255)?;
    let (time, at) = decimal(line, at, b"time=", 0, u64::MAX)?;
    let head = Head {
        hart: hart as u8,
        time,
        tag: 0,
    };
    Ok((head, at))
}

// The hart, the time and the tag.
#[tactic(auto, unfolding(crate::specs::Reading::tagged_at))]
fn tagged(line: &[u8], at: usize) -> Result<(Head, usize), usize>
    requires { at ≤ length line.now }
    ensures value { result ≡ tagged_at line.now at }
    ensures bound { IfOk result (λ read. read.1 ≤ length line.now) }
    ensures place { IfErr result (λ place. place ≤ length line.now) }
{
    let (hart, at) = decimal(line, at, b"hart=", 0, 255)?;
    let (time, at) = decimal(line, at, b"time=", 0, u64::MAX)?;
    let (tag, at) = decimal(line, at, b"tag=", 0, u64::MAX)?;
    let head = Head {
        hart: hart as u8,
        time,
        tag,
    };
    Ok((head, at))
}

// The settings of a stream.
#[tactic(auto, unfolding(crate::specs::Reading::open_at))]
fn open(line: &[u8], at: usize) -> Result<OpenInfo, usize>
    requires { at ≤ length line.now }
    ensures value { result ≡ open_at line.now at }
    ensures place { IfErr result (λ place. place ≤ length line.now) }
{
    let (version, at) = decimal(line, at, b"version=", 1, 1)?;
    let (harts, at) = decimal(line, at, b"harts=", 1, 16)?;
    let (flags, at) = decimal(line, at, b"flags=", 0, 3)?;
    let (granule, at) = decimal(line, at, b"granule=", 0, 0)?;
    let (skew, at) = decimal(line, at, b"skew=", 0, 0)?;
    ended(line, at)?;
    Ok(OpenInfo {
        version: version as u8,
        harts: harts as u8,
        flags: flags as u8,
        granule: granule as u8,
        skew: skew as u32,
    })
}

// What a Poke sets, and the value.
#[tactic(auto, unfolding(crate::specs::Reading::poke_at))]
fn poke(line: &[u8], at: usize) -> Result<Poke, usize>
    requires { at ≤ length line.now }
    ensures value { result ≡ poke_at line.now at }
    ensures place { IfErr result (λ place. place ≤ length line.now) }
{
    let (target, at) = target(line, at)?;
    let (value, at) = poked_value(line, at, target)?;
    ended(line, at)?;
    Ok(Poke { target, value })
}

// An address and the bytes from there on.
#[tactic(auto, unfolding(crate::specs::Reading::piece_at))]
fn piece(line: &[u8], at: usize) -> Result<Piece, usize>
    requires { at ≤ length line.now }
    ensures value { result ≡ piece_at line.now at }
    ensures place { IfErr result (λ place. place ≤ length line.now) }
{
    let (addr, at) = hexadecimal(line, at, b"addr=", u64::MAX)?;
    let (bytes, at) = piece_bytes(line, at)?;
    ended(line, at)?;
    Ok(Piece { addr, bytes })
}

// A line of memory, its mask and its bytes.
#[tactic(auto, unfolding(crate::specs::Reading::write_at))]
fn write(line: &[u8], at: usize) -> Result<LineWrite, usize>
    requires { at ≤ length line.now }
    ensures value { result ≡ write_at line.now at }
    ensures place { IfErr result (λ place. place ≤ length line.now) }
{
    let (address, at) = address(line, at)?;
    let (mask, at) = hexadecimal(line, at, b"mask=", u64::MAX)?;
    let (bytes, at) = line_bytes(line, at, mask)?;
    ended(line, at)?;
    Ok(LineWrite {
        line: address,
        mask,
        bytes,
    })
}

// The pc, the word and the next pc.
#[tactic(auto, unfolding(crate::specs::Reading::fetch_at))]
fn fetch(line: &[u8], at: usize) -> Result<(u64, u32, u64, usize), usize>
    requires { at ≤ length line.now }
    ensures value { result ≡ fetch_at line.now at }
    ensures bound { IfOk result (λ read. read.3 ≤ length line.now) }
    ensures place { IfErr result (λ place. place ≤ length line.now) }
{
    let (pc, at) = hexadecimal(line, at, b"pc=", u64::MAX)?;
    let (word, at) = hexadecimal(line, at, b"word=", 0xffff_ffff)?;
    let (next, at) = hexadecimal(line, at, b"next=", u64::MAX)?;
    Ok((pc, word as u32, next, at))
}

// The trap, the register and the CSRs.
#[tactic(auto, unfolding(crate::specs::Reading::outcome_at))]
fn outcome(line: &[u8], at: usize) -> Result<(Option<u8>, Option<RdValue>, CsrList), usize>
    requires { at ≤ length line.now }
    ensures value { result ≡ outcome_at line.now at }
    ensures place { IfErr result (λ place. place ≤ length line.now) }
{
    let (trap, at) = trap(line, at)?;
    let (rd, at) = rd(line, at)?;
    let (csrs, at) = csrs(line, at)?;
    ended(line, at)?;
    Ok((trap, rd, csrs))
}

// What a Retire says.
#[tactic(auto, unfolding(crate::specs::Reading::retire_at))]
fn retire(line: &[u8], at: usize) -> Result<Retire, usize>
    requires { at ≤ length line.now }
    ensures value { result ≡ retire_at line.now at }
    ensures place { IfErr result (λ place. place ≤ length line.now) }
{
    let (pc, word, next, at) = fetch(line, at)?;
    let (trap, rd, csrs) = outcome(line, at)?;
    Ok(Retire {
        pc,
        word,
        next,
        trap,
        rd,
        csrs,
    })
}
