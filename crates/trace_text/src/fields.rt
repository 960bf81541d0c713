//! The fields of messages, put into a buffer, each behind a space.

ghost use Rattle.std.specs.Prelude.{◌≡◌, ◌+◌, ◌≤◌, ◌∷◌, [], drop, length};
ghost use Rattle.std.specs.List.{flat_map};
ghost use Rattle.tandem_base.specs.Puts.{Puts};
ghost use Rattle.trace_text.specs.Lines.{spaced, hart_field, time_field, tag_field, open_fields, poke_fields};
ghost use Rattle.trace_text.specs.Lines.{piece_fields, write_fields, retire_fields};

use super::values::{put_bytes, put_csrs, put_rd, put_target};
use msg_frames::{Head, LineWrite, OpenInfo, Piece, Poke, Retire};
use numerals::{put_decimal, put_decimal_or_dash, put_hexadecimal};
use tandem_base::put;

/// Puts the hart.
pub(crate) fn put_hart(out: &mut [u8], at: usize, head: &Head) -> usize
    requires { at + 9 ≤ length out.old }
    ensures puts { Puts at out.old result out.new (spaced (hart_field head.now)) }
    ensures bound { result ≤ at + 9 }
{
    let end = put(out, at, b" hart=");
    put_decimal(out, end, head.hart)
}

/// Puts the time.
pub(crate) fn put_time(out: &mut [u8], at: usize, head: &Head) -> usize
    requires { at + 26 ≤ length out.old }
    ensures puts { Puts at out.old result out.new (spaced (time_field head.now)) }
    ensures bound { result ≤ at + 26 }
{
    let end = put(out, at, b" time=");
    put_decimal(out, end, head.time)
}

/// Puts the tag.
pub(crate) fn put_tag(out: &mut [u8], at: usize, head: &Head) -> usize
    requires { at + 25 ≤ length out.old }
    ensures puts { Puts at out.old result out.new (spaced (tag_field head.now)) }
    ensures bound { result ≤ at + 25 }
{
    let end = put(out, at, b" tag=");
    put_decimal(out, end, head.tag)
}

/// Puts the settings of a stream.
pub(crate) fn put_open(out: &mut [u8], at: usize, info: &OpenInfo) -> usize
    requires { at + 60 ≤ length out.old }
    ensures puts { Puts at out.old result out.new (flat_map spaced (open_fields info.now)) }
    ensures bound { result ≤ at + 60 }
{
    let end = put(out, at, b" version=");
    let end = put_decimal(out, end, info.version);
    let end = put(out, end, b" harts=");
    let end = put_decimal(out, end, info.harts);
    let end = put(out, end, b" flags=");
    let end = put_decimal(out, end, info.flags);
    let end = put(out, end, b" granule=");
    let end = put_decimal(out, end, info.granule);
    let end = put(out, end, b" skew=");
    put_decimal(out, end, info.skew)
}

/// Puts what a Poke sets, and the value.
pub(crate) fn put_poke(out: &mut [u8], at: usize, poke: &Poke) -> usize
    requires { at + 48 ≤ length out.old }
    ensures puts { Puts at out.old result out.new (flat_map spaced (poke_fields poke.now)) }
    ensures bound { result ≤ at + 48 }
{
    let end = put(out, at, b" reg=");
    let end = put_target(out, end, poke.target);
    let end = put(out, end, b" value=");
    put_hexadecimal(out, end, poke.value)
}

/// Puts an address and the bytes from there on.
pub(crate) fn put_piece(out: &mut [u8], at: usize, piece: &Piece) -> usize
    requires { at + 47 ≤ length out.old }
    ensures puts { Puts at out.old result out.new (flat_map spaced (piece_fields piece.now)) }
    ensures bound { result ≤ at + 47 }
{
    let _few = piece.bytes.len();
    let end = put(out, at, b" addr=");
    let end = put_hexadecimal(out, end, piece.addr);
    let end = put(out, end, b" bytes=");
    put_bytes(out, end, piece.bytes.as_slice())
}

/// Puts a line, its mask and its bytes.
pub(crate) fn put_write(out: &mut [u8], at: usize, write: &LineWrite) -> usize
    requires { at + 183 ≤ length out.old }
    ensures puts { Puts at out.old result out.new (flat_map spaced (write_fields write.now)) }
    ensures bound { result ≤ at + 183 }
{
    let end = put(out, at, b" line=");
    let end = put_hexadecimal(out, end, write.line);
    let end = put(out, end, b" mask=");
    let end = put_hexadecimal(out, end, write.mask);
    let end = put(out, end, b" bytes=");
    put_bytes(out, end, &write.bytes)
}

/// Puts what a Retire says.
pub(crate) fn put_retire(out: &mut [u8], at: usize, retire: &Retire) -> usize
    requires { at + 263 ≤ length out.old }
    ensures puts { Puts at out.old result out.new (flat_map spaced (retire_fields retire.now)) }
    ensures bound { result ≤ at + 263 }
{
    let end = put(out, at, b" pc=");
    let end = put_hexadecimal(out, end, retire.pc);
    let end = put(out, end, b" word=");
    let end = put_hexadecimal(out, end, u64::from(retire.word));
    let end = put(out, end, b" next=");
    let end = put_hexadecimal(out, end, retire.next);
    put_outcome(out, end, retire)
}

// Puts the trap, the register and the CSRs.
fn put_outcome(out: &mut [u8], at: usize, retire: &Retire) -> usize
    requires { at + 193 ≤ length out.old }
    ensures puts { Puts at out.old result out.new (flat_map spaced (drop 3 (retire_fields retire.now))) }
    ensures bound { result ≤ at + 193 }
{
    let end = put(out, at, b" trap=");
    let end = put_decimal_or_dash(out, end, retire.trap);
    let end = put(out, end, b" rd=");
    let end = put_rd(out, end, retire.rd);
    let end = put(out, end, b" csrs=");
    put_csrs(out, end, &retire.csrs)
}
