//! The line of a message, put into a buffer.

ghost use Rattle.std.specs.Prelude.{◌≡◌, ◌+◌, ◌≤◌, ◌++◌, ◌∷◌, [], length};
ghost use Rattle.std.specs.List.{flat_map};
ghost use Rattle.tandem_base.specs.Puts.{Puts};
ghost use Rattle.trace_text.specs.Lines.{spaced, fields_of, kind_word, message_line, hart_field, time_field, tag_field};
ghost use Rattle.trace_text.specs.Lines.{piece_fields};

use super::fields::{
    put_hart, put_open, put_piece, put_poke, put_retire, put_tag, put_time, put_write,
};
use msg_frames::{Body, Head, Message, Piece};
use tandem_base::put;

/// No line is longer, its newline included.
pub const LONGEST_LINE: usize = 330;

/// Puts the line of a message, with its newline, into `out` from offset `at` on, and answers the
/// offset behind it.
pub fn put_line(out: &mut [u8], at: usize, message: &Message) -> usize
    requires { at + 330 ≤ length out.old }
    ensures puts { Puts at out.old result out.new (message_line message.now) }
    ensures bound { result ≤ at + 330 }
{
    let end = put(out, at, kind_word(&message.body));
    let end = put_fields(out, end, &message.head, &message.body);
    put(out, end, b"\n")
}

// The word that tells the kind.
fn kind_word(body: &Body) -> &'static [u8]
    ensures word { result.now ≡ kind_word body.now }
    ensures bound { length result.now ≤ 6 }
{
    match body {
        Body::Open(_) => b"open",
        Body::Poke(_) => b"poke",
        Body::Read(_) => b"read",
        Body::Insert(_) => b"insert",
        Body::Write(_) => b"write",
        Body::Bypass(_) => b"bypass",
        Body::Retire(_) => b"retire",
        Body::Squash => b"squash",
        Body::End => b"end",
    }
}

// Puts the fields of each kind.
fn put_fields(out: &mut [u8], at: usize, head: &Head, body: &Body) -> usize
    requires { at + 323 ≤ length out.old }
    ensures puts { Puts at out.old result out.new (flat_map spaced (fields_of head.now body.now)) }
    ensures bound { result ≤ at + 323 }
{
    match body {
        Body::Open(info) => {
            let end = put_time(out, at, head);
            put_open(out, end, info)
        }
        Body::Poke(poke) => {
            let end = put_timed(out, at, head);
            put_poke(out, end, poke)
        }
        Body::Read(piece) | Body::Insert(piece) | Body::Bypass(piece) => {
            put_access(out, at, head, piece)
        }
        Body::Write(write) => {
            let end = put_timed(out, at, head);
            put_write(out, end, write)
        }
        Body::Retire(retire) => {
            let end = put_tagged(out, at, head);
            put_retire(out, end, retire)
        }
        Body::Squash => put_tagged(out, at, head),
        Body::End => put_time(out, at, head),
    }
}

// Puts the hart and the time.
fn put_timed(out: &mut [u8], at: usize, head: &Head) -> usize
    requires { at + 35 ≤ length out.old }
    ensures puts { Puts at out.old result out.new (flat_map spaced (hart_field head.now ∷ time_field head.now ∷ [])) }
    ensures bound { result ≤ at + 35 }
{
    let end = put_hart(out, at, head);
    put_time(out, end, head)
}

// Puts the hart, the time and the tag.
fn put_tagged(out: &mut [u8], at: usize, head: &Head) -> usize
    requires { at + 60 ≤ length out.old }
    ensures puts { Puts at out.old result out.new
        (flat_map spaced (hart_field head.now ∷ time_field head.now ∷ tag_field head.now ∷ [])) }
    ensures bound { result ≤ at + 60 }
{
    let end = put_hart(out, at, head);
    let end = put_time(out, end, head);
    put_tag(out, end, head)
}

// Puts the fields of a message with bytes of memory.
fn put_access(out: &mut [u8], at: usize, head: &Head, piece: &Piece) -> usize
    requires { at + 107 ≤ length out.old }
    ensures puts { Puts at out.old result out.new (flat_map spaced
        (hart_field head.now ∷ time_field head.now ∷ tag_field head.now ∷ piece_fields piece.now)) }
    ensures bound { result ≤ at + 107 }
{
    let end = put_tagged(out, at, head);
    put_piece(out, end, piece)
}
