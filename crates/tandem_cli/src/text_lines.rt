//! The lines of `text` that tell no stream and no text.

ghost use Rattle.std.specs.Prelude.{◌≡◌, ◌+◌, ◌≤◌, length, OnErr, OnOk};
ghost use Rattle.std.specs.Io.KnownBytes.{Appends};
ghost use Rattle.tandem_base.specs.Puts.{Puts};
ghost use Rattle.tandem_io.specs.Causes.{HasCause};
ghost use Rattle.text_runs.specs.Written.{TakesFront};
ghost use Rattle.tandem_cli.specs.TextRuns.{text_fault_line, text_too_large_line, text_usage_line};

use super::outcome_lines::print_text;
use numerals::put_decimal;
use tandem_base::put;
use tandem_io::{Failed, Sink};
use text_runs::TextPlace;

/// Writes the words that `text` takes. After an error the sink took a front of the line.
pub fn print_text_usage<K: Sink>(out: &mut K) -> Result<(), Failed>
    ensures ok { OnOk result (Appends (K.written out.old) (K.written out.new) text_usage_line) }
    ensures err { OnErr result (TakesFront (K.written out.old) (K.written out.new) text_usage_line) }
    ensures cause { HasCause (K.faults out.old) (K.faults out.new) result }
    ensures count { K.faults out.old ≤ K.faults out.new }
{
    print_text(b"USAGE tandem text to STREAM | text from FILE\n", out)
}

/// Writes that a text is too long. After an error the sink took a front of the line.
pub fn print_too_large<K: Sink>(out: &mut K) -> Result<(), Failed>
    ensures ok { OnOk result (Appends (K.written out.old) (K.written out.new) text_too_large_line) }
    ensures err { OnErr result (TakesFront (K.written out.old) (K.written out.new) text_too_large_line) }
    ensures cause { HasCause (K.faults out.old) (K.faults out.new) result }
    ensures count { K.faults out.old ≤ K.faults out.new }
{
    print_text(b"TEXT toolarge\n", out)
}

/// Writes the place of the first thing in a text that is wrong. After an error the sink took a front
/// of the line.
pub fn print_text_fault<K: Sink>(place: &TextPlace, out: &mut K) -> Result<(), Failed>
    ensures ok { OnOk result
        (Appends (K.written out.old) (K.written out.new) (text_fault_line place.now.line place.now.column)) }
    ensures err { OnErr result
        (TakesFront (K.written out.old) (K.written out.new) (text_fault_line place.now.line place.now.column)) }
    ensures cause { HasCause (K.faults out.old) (K.faults out.new) result }
    ensures count { K.faults out.old ≤ K.faults out.new }
{
    let mut text = [0; 64];
    print_fault_over(place, &mut text, out)
}

// The same, over 64 lent bytes.
fn print_fault_over<K: Sink>(place: &TextPlace, text: &mut [u8], out: &mut K) -> Result<(), Failed>
    requires { length text.old ≡ 64 }
    ensures ok { OnOk result
        (Appends (K.written out.old) (K.written out.new) (text_fault_line place.now.line place.now.column)) }
    ensures err { OnErr result
        (TakesFront (K.written out.old) (K.written out.new) (text_fault_line place.now.line place.now.column)) }
    ensures cause { HasCause (K.faults out.old) (K.faults out.new) result }
    ensures count { K.faults out.old ≤ K.faults out.new }
{
    let end = put_fault(text, 0, place);
    print_text(&text[..end], out)
}

// Puts the line of a place.
fn put_fault(out: &mut [u8], at: usize, place: &TextPlace) -> usize
    requires { at + 64 ≤ length out.old }
    ensures puts { Puts at out.old result out.new (text_fault_line place.now.line place.now.column) }
    ensures bound { result ≤ at + 64 }
{
    let end = put(out, at, b"TEXT line=");
    let end = put_decimal(out, end, place.line);
    let end = put(out, end, b" column=");
    let end = put_decimal(out, end, place.column);
    put(out, end, b"\n")
}
