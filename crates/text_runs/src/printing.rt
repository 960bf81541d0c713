//! A stream, printed as text.

ghost use Rattle.std.specs.Prelude.{◌≡◌, ◌≤◌, List, ℕ, length, take, Err, OnOk, OnErr, IfOk, IfErr};
ghost use Rattle.std.specs.Io.KnownBytes.{Appends};
ghost use Rattle.tandem_io.specs.Causes.{HasCause, Rose};
ghost use Rattle.msg_frames.specs.Cut.{is_end};
ghost use Rattle.msg_frames.specs.Taking.{TakenFrom};
ghost use Rattle.text_runs.specs.Printouts.{EndsAs, PrintedAs};
ghost use Rattle.text_runs.specs.Written.{TakesFront};

use super::pieces::{pour, pour_all};
use super::verdicts::{bad_frame, passed_limit, truncated};
use msg_frames::{Arrived, Body, Head, Message, next_message_into, size};
use tandem_core::Limits;
use tandem_io::{Failed, Sink, Source};
use trace_text::put_line;
use verdict_report::Verdict;

/// No message with a greater number is printed.
pub const MOST_PRINTED: u64 = Limits::CEILINGS.messages;

// Room for a piece, and for one line more.
const ROOM: usize = 16_714;

/// Why a stream is not printed whole.
#[derive(Clone, Copy, Debug, PartialEq, Eq)]
pub enum Unprinted {
    /// The source failed. The lines of the messages before are written.
    Unread,
    /// The sink failed. It took a front of the lines.
    Unwritten,
}

/// Prints the messages of a source, a line for each, up to and with its End. Answers the verdict on
/// its form, where that breaks before, or that it has more messages than are printed; the line of
/// the verdict is not written. Takes no memory.
pub fn print_stream<S: Source, K: Sink>(
    src: &mut S,
    out: &mut K,
) -> Result<Option<Verdict>, Unprinted>
    ensures printed { (got : List ℕ) × TakenFrom (S.left src.old) (S.left src.new) (S.log src.old) (S.log src.new) got
        × PrintedAs result got (S.left src.new) (S.ended src.new) (K.written out.old) (K.written out.new) }
    ensures ended { IfOk result (λ v. EndsAs v (S.ended src.new)) }
    ensures unread { result ≡ Err Unprinted.Unread → Rose (S.faults src.old) (S.faults src.new) }
    ensures unwritten { result ≡ Err Unprinted.Unwritten → Rose (K.faults out.old) (K.faults out.new) }
    ensures count { S.faults src.old ≤ S.faults src.new }
    ensures sink_count { K.faults out.old ≤ K.faults out.new }
    ensures beside { S.aside src.new ≡ S.aside src.old }
{
    let mut frame = [0; 514];
    let mut text = [0; ROOM];
    print_by(src, &mut frame, &mut text, out)
}

// The same, by way of a buffer for a frame and one for lines.
fn print_by<S: Source, K: Sink>(
    src: &mut S,
    frame: &mut [u8; 514],
    text: &mut [u8],
    out: &mut K,
) -> Result<Option<Verdict>, Unprinted>
    requires { length text.old ≡ 16714 }
    ensures printed { (got : List ℕ) × TakenFrom (S.left src.old) (S.left src.new) (S.log src.old) (S.log src.new) got
        × PrintedAs result got (S.left src.new) (S.ended src.new) (K.written out.old) (K.written out.new) }
    ensures ended { IfOk result (λ v. EndsAs v (S.ended src.new)) }
    ensures unread { result ≡ Err Unprinted.Unread → Rose (S.faults src.old) (S.faults src.new) }
    ensures unwritten { result ≡ Err Unprinted.Unwritten → Rose (K.faults out.old) (K.faults out.new) }
    ensures count { S.faults src.old ≤ S.faults src.new }
    ensures sink_count { K.faults out.old ≤ K.faults out.new }
    ensures beside { S.aside src.new ≡ S.aside src.old }
{
    let mut message = no_message();
    let mut count = 0;
    let mut offset = 0;
    let mut used = 0;
    loop {
        match next_message_into(src, frame, &mut message) {
            Arrived::Message => {
                if count == MOST_PRINTED {
                    return printed(out, text, used, Some(passed_limit()));
                }
                count += 1;
                offset += u64::from(size(&message));
                used = put_line(text, used, &message);
                if is_end(&message.body) {
                    return printed(out, text, used, None);
                }
                match pour(out, text, used) {
                    Ok(left) => used = left,
                    Err(Failed) => return Err(Unprinted::Unwritten),
                }
            }
            Arrived::Bad(fault) => {
                let verdict = bad_frame(count, offset, &fault);
                return printed(out, text, used, Some(verdict));
            }
            Arrived::Ended(have) => {
                let verdict = truncated(count, offset, have);
                return printed(out, text, used, Some(verdict));
            }
            Arrived::Failed => return Err(unread(out, text, used)),
        }
    }
}

// Writes the last lines, before a verdict or behind an End.
fn printed<K: Sink>(
    out: &mut K,
    text: &[u8],
    used: usize,
    verdict: Option<Verdict>,
) -> Result<Option<Verdict>, Unprinted>
    requires { used ≤ length text.now }
    ensures ok { IfOk result (λ v. v ≡ verdict) }
    ensures writes { OnOk result (Appends (K.written out.old) (K.written out.new) (take used text.now)) }
    ensures err { IfErr result (λ why. why ≡ Unprinted.Unwritten) }
    ensures front { OnErr result (TakesFront (K.written out.old) (K.written out.new) (take used text.now)) }
    ensures cause { HasCause (K.faults out.old) (K.faults out.new) result }
    ensures count { K.faults out.old ≤ K.faults out.new }
{
    match pour_all(out, text, used) {
        Ok(()) => Ok(verdict),
        Err(Failed) => Err(Unprinted::Unwritten),
    }
}

// Writes the lines before a read that failed, and answers why there are no more.
fn unread<K: Sink>(out: &mut K, text: &[u8], used: usize) -> Unprinted
    requires { used ≤ length text.now }
    ensures writes { result ≡ Unprinted.Unread →
        Appends (K.written out.old) (K.written out.new) (take used text.now) }
    ensures front { result ≡ Unprinted.Unwritten →
        TakesFront (K.written out.old) (K.written out.new) (take used text.now) }
    ensures cause { result ≡ Unprinted.Unwritten → Rose (K.faults out.old) (K.faults out.new) }
    ensures count { K.faults out.old ≤ K.faults out.new }
{
    match pour_all(out, text, used) {
        Ok(()) => Unprinted::Unread,
        Err(Failed) => Unprinted::Unwritten,
    }
}

// Whether the message ends a stream.
fn is_end(body: &Body) -> bool
    ensures { result ≡ is_end body.now }
{
    matches!(body, Body::End)
}

// A message to read others into.
fn no_message() -> Message {
    let head = Head {
        hart: 0,
        time: 0,
        tag: 0,
    };
    Message {
        head,
        body: Body::Squash,
    }
}
