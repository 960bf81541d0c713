//! The lines of `gen`.

ghost use Rattle.std.specs.Prelude.{◌≡◌, ◌+◌, ◌≤◌, ◌++◌, length, OnErr, OnOk};
ghost use Rattle.std.specs.Io.KnownBytes.{Appends};
ghost use Rattle.tandem_base.specs.Puts.{Puts};
ghost use Rattle.tandem_io.specs.Causes.{HasCause};
ghost use Rattle.text_runs.specs.Written.{TakesFront};
ghost use Rattle.verdict_report.specs.Lines.{verdict_line};
ghost use Rattle.tandem_cli.specs.GenRuns.{flip_text, gen_line, gen_usage_line};

use super::gen_words::GenWords;
use super::outcome_lines::print_text;
use super::run::print_verdict;
use numerals::put_decimal;
use tandem_base::put;
use tandem_io::{Failed, Sink};
use verdict_report::Verdict;

/// Writes the words that `gen` takes. After an error the sink took a front of the line.
pub fn print_gen_usage<K: Sink>(out: &mut K) -> Result<(), Failed>
    ensures ok { OnOk result (Appends (K.written out.old) (K.written out.new) gen_usage_line) }
    ensures err { OnErr result (TakesFront (K.written out.old) (K.written out.new) gen_usage_line) }
    ensures cause { HasCause (K.faults out.old) (K.faults out.new) result }
    ensures count { K.faults out.old ≤ K.faults out.new }
{
    print_text(b"USAGE tandem gen SEED HARTS COUNT [--flip OFFSET]\n", out)
}

/// Writes what was made, and the line of the verdict on it. After an error the sink took a front of
/// the two lines.
pub fn print_made<K: Sink>(asked: &GenWords, verdict: &Verdict, out: &mut K) -> Result<(), Failed>
    ensures ok { OnOk result
        (Appends (K.written out.old) (K.written out.new) (gen_line asked.now ++ verdict_line verdict.now)) }
    ensures err { OnErr result
        (TakesFront (K.written out.old) (K.written out.new) (gen_line asked.now ++ verdict_line verdict.now)) }
    ensures cause { HasCause (K.faults out.old) (K.faults out.new) result }
    ensures count { K.faults out.old ≤ K.faults out.new }
{
    print_gen_line(asked, out)?;
    print_verdict(verdict, out)
}

// Writes what was made.
fn print_gen_line<K: Sink>(asked: &GenWords, out: &mut K) -> Result<(), Failed>
    ensures ok { OnOk result (Appends (K.written out.old) (K.written out.new) (gen_line asked.now)) }
    ensures err { OnErr result (TakesFront (K.written out.old) (K.written out.new) (gen_line asked.now)) }
    ensures cause { HasCause (K.faults out.old) (K.faults out.new) result }
    ensures count { K.faults out.old ≤ K.faults out.new }
{
    let mut text = [0; 128];
    print_over(asked, &mut text, out)
}

// The same, over 128 lent bytes.
fn print_over<K: Sink>(asked: &GenWords, text: &mut [u8], out: &mut K) -> Result<(), Failed>
    requires { length text.old ≡ 128 }
    ensures ok { OnOk result (Appends (K.written out.old) (K.written out.new) (gen_line asked.now)) }
    ensures err { OnErr result (TakesFront (K.written out.old) (K.written out.new) (gen_line asked.now)) }
    ensures cause { HasCause (K.faults out.old) (K.faults out.new) result }
    ensures count { K.faults out.old ≤ K.faults out.new }
{
    let end = put_gen(text, 0, asked);
    print_text(&text[..end], out)
}

// Puts the line of what was made.
fn put_gen(out: &mut [u8], at: usize, asked: &GenWords) -> usize
    requires { at + 128 ≤ length out.old }
    ensures puts { Puts at out.old result out.new (gen_line asked.now) }
    ensures bound { result ≤ at + 128 }
{
    let end = put(out, at, b"GEN seed=");
    let end = put_decimal(out, end, asked.seed);
    let end = put(out, end, b" harts=");
    let end = put_decimal(out, end, asked.harts);
    let end = put(out, end, b" count=");
    let end = put_decimal(out, end, asked.count);
    let end = put_flip(out, end, asked.flip);
    put(out, end, b"\n")
}

// Puts the flip that was asked for.
fn put_flip(out: &mut [u8], at: usize, flip: Option<u64>) -> usize
    requires { at + 26 ≤ length out.old }
    ensures puts { Puts at out.old result out.new (flip_text flip) }
    ensures bound { result ≤ at + 26 }
{
    match flip {
        Some(offset) => {
            let end = put(out, at, b" flip=");
            put_decimal(out, end, offset)
        }
        None => put(out, at, b""),
    }
}
