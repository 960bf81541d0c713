//! The line of a verdict, written to a sink.

ghost use Rattle.std.specs.Prelude.{◌≡◌, ◌+◌, ◌<◌, ◌≤◌, length, take, OnOk, IfErr};
ghost use Rattle.std.specs.Io.KnownBytes.{Appends};
ghost use Rattle.tandem_io.specs.Causes.{HasCause};
ghost use Rattle.verdict_report.specs.Lines.{verdict_line};

use super::text::put_line;
use super::verdict::Verdict;
use tandem_io::{Sink, WriteFailed, write_all};

/// Writes the verdict's line, with its newline, to `out`. After an error the sink took just the
/// first `put` bytes of the line.
pub fn print<K: Sink>(verdict: &Verdict, out: &mut K) -> Result<(), WriteFailed>
    ensures ok { OnOk result (Appends (K.written out.old) (K.written out.new) (verdict_line verdict.now)) }
    ensures err { IfErr result (λ failed.
        Appends (K.written out.old) (K.written out.new) (take failed.put (verdict_line verdict.now))) }
    ensures part { IfErr result (λ failed. failed.put < length (verdict_line verdict.now)) }
    ensures cause { HasCause (K.faults out.old) (K.faults out.new) result }
    ensures count { K.faults out.old ≤ K.faults out.new }
{
    let mut text = [0; 256];
    print_over(verdict, &mut text, out)
}

// Writes the line, over 256 lent bytes.
fn print_over<K: Sink>(verdict: &Verdict, text: &mut [u8], out: &mut K) -> Result<(), WriteFailed>
    requires { length text.old ≡ 256 }
    ensures ok { OnOk result (Appends (K.written out.old) (K.written out.new) (verdict_line verdict.now)) }
    ensures err { IfErr result (λ failed.
        Appends (K.written out.old) (K.written out.new) (take failed.put (verdict_line verdict.now))) }
    ensures part { IfErr result (λ failed. failed.put < length (verdict_line verdict.now)) }
    ensures cause { HasCause (K.faults out.old) (K.faults out.new) result }
    ensures count { K.faults out.old ≤ K.faults out.new }
{
    let end = put_line(text, 0, verdict);
    write_all(out, &text[..end])
}
