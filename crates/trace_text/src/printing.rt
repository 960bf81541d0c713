//! The line of a message, written to a sink.

ghost use Rattle.std.specs.Prelude.{◌≡◌, ◌<◌, ◌≤◌, length, take, OnOk, IfErr};
ghost use Rattle.std.specs.Io.KnownBytes.{Appends};
ghost use Rattle.tandem_io.specs.Causes.{HasCause};
ghost use Rattle.trace_text.specs.Lines.{message_line};

use super::lines::{LONGEST_LINE, put_line};
use msg_frames::Message;
use tandem_io::{Sink, WriteFailed, write_all};

/// Writes the line of a message, with its newline, to `out`. Takes no memory. After an error the
/// sink took just the first `put` bytes of the line.
pub fn to_text<K: Sink>(message: &Message, out: &mut K) -> Result<(), WriteFailed>
    ensures ok { OnOk result (Appends (K.written out.old) (K.written out.new) (message_line message.now)) }
    ensures err { IfErr result (λ failed.
        Appends (K.written out.old) (K.written out.new) (take failed.put (message_line message.now))) }
    ensures part { IfErr result (λ failed. failed.put < length (message_line message.now)) }
    ensures cause { HasCause (K.faults out.old) (K.faults out.new) result }
    ensures count { K.faults out.old ≤ K.faults out.new }
{
    let mut text = [0; LONGEST_LINE];
    print_over(message, &mut text, out)
}

// Writes the line, over lent bytes.
fn print_over<K: Sink>(message: &Message, text: &mut [u8], out: &mut K) -> Result<(), WriteFailed>
    requires { length text.old ≡ 330 }
    ensures ok { OnOk result (Appends (K.written out.old) (K.written out.new) (message_line message.now)) }
    ensures err { IfErr result (λ failed.
        Appends (K.written out.old) (K.written out.new) (take failed.put (message_line message.now))) }
    ensures part { IfErr result (λ failed. failed.put < length (message_line message.now)) }
    ensures cause { HasCause (K.faults out.old) (K.faults out.new) result }
    ensures count { K.faults out.old ≤ K.faults out.new }
{
    let end = put_line(text, 0, message);
    write_all(out, &text[..end])
}
