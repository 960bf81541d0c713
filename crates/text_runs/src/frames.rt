//! A text, written as the frames of its messages.

ghost use Rattle.std.specs.Prelude.{◌≡◌, ◌+◌, ◌≤◌, List, length, Ok, Err, OnOk, OnErr, IfErr, IsOk};
ghost use Rattle.std.specs.List.{flat_map};
ghost use Rattle.std.specs.Io.KnownBytes.{Appends};
ghost use Rattle.tandem_base.specs.Puts.{Puts};
ghost use Rattle.tandem_io.specs.Causes.{HasCause};
ghost use Rattle.msg_frames.specs.declared.message.Message.{Message};
ghost use Rattle.msg_frames.specs.Frames.{Fits, frame};
ghost use Rattle.trace_text.specs.Texts.{text_read};
ghost use Rattle.trace_text.specs.declared.fault.TextFault.TheVariants.{Form};
ghost use Rattle.text_runs.specs.Written.{TakesFront};

use super::pieces::{pour, pour_all};
use msg_frames::{Message, encode};
use tandem_base::put;
use tandem_io::{Failed, Sink};
use trace_text::next_line;

// Room for a piece, and for one frame more.
const ROOM: usize = 16_898;

/// The first thing in a text that is wrong.
#[derive(Clone, Copy, Debug, PartialEq, Eq)]
pub struct TextPlace {
    /// The line, from 1.
    pub line: u64,
    /// The column, from 1.
    pub column: u64,
}

/// Looks whether a text is lines of messages alone, and else answers the place of the first thing
/// that is wrong. Takes no memory.
pub fn find_fault(text: &[u8]) -> Result<(), TextPlace>
    ensures fine { OnOk result (IsOk (text_read text.now)) }
    ensures wrong { IfErr result (λ place. text_read text.now ≡ Err (Form place.line place.column)) }
{
    let mut start = 0;
    let mut number = 1;
    loop {
        match next_line(text, start) {
            Err(column) => {
                return Err(TextPlace {
                    line: number,
                    column,
                });
            }
            Ok(None) => return Ok(()),
            Ok(Some(line)) => {
                start = line.next;
                number += 1;
            }
        }
    }
}

/// Writes the frames of the messages of a text. After an error the sink took a front of them. Takes
/// no memory.
pub fn write_frames<K: Sink>(text: &[u8], out: &mut K) -> Result<(), Failed>
    requires { IsOk (text_read text.now) }
    ensures ok { (messages : List Message) → text_read text.now ≡ Ok messages →
        OnOk result (Appends (K.written out.old) (K.written out.new) (flat_map frame messages)) }
    ensures err { (messages : List Message) → text_read text.now ≡ Ok messages →
        OnErr result (TakesFront (K.written out.old) (K.written out.new) (flat_map frame messages)) }
    ensures cause { HasCause (K.faults out.old) (K.faults out.new) result }
    ensures count { K.faults out.old ≤ K.faults out.new }
{
    let mut buffer = [0; 514];
    let mut piece = [0; ROOM];
    write_by(text, &mut buffer, &mut piece, out)
}

// The same, by way of a buffer for a frame and one for a piece.
fn write_by<K: Sink>(
    text: &[u8],
    buffer: &mut [u8; 514],
    piece: &mut [u8],
    out: &mut K,
) -> Result<(), Failed>
    requires text { IsOk (text_read text.now) }
    requires room { length piece.old ≡ 16898 }
    ensures ok { (messages : List Message) → text_read text.now ≡ Ok messages →
        OnOk result (Appends (K.written out.old) (K.written out.new) (flat_map frame messages)) }
    ensures err { (messages : List Message) → text_read text.now ≡ Ok messages →
        OnErr result (TakesFront (K.written out.old) (K.written out.new) (flat_map frame messages)) }
    ensures cause { HasCause (K.faults out.old) (K.faults out.new) result }
    ensures count { K.faults out.old ≤ K.faults out.new }
{
    let mut start = 0;
    let mut used = 0;
    loop {
        match next_line(text, start) {
            Err(_column) => unreachable!(),
            Ok(None) => return pour_all(out, piece, used),
            Ok(Some(line)) => {
                used = put_frame(piece, used, &line.message, buffer);
                start = line.next;
                match pour(out, piece, used) {
                    Ok(left) => used = left,
                    Err(Failed) => return Err(Failed),
                }
            }
        }
    }
}

// Puts the frame of a message, by way of a buffer for it.
fn put_frame(out: &mut [u8], at: usize, message: &Message, buffer: &mut [u8; 514]) -> usize
    requires fits { Fits message.now }
    requires room { at + 514 ≤ length out.old }
    ensures puts { Puts at out.old result out.new (frame message.now) }
    ensures bound { result ≤ at + 514 }
{
    let end = encode(message, buffer);
    put(out, at, &buffer[..end])
}
