//! The top call of `tandem check`.

ghost use Rattle.std.specs.Prelude.{◌≡◌, ◌≤◌, IfSome, IfOk, IfErr, OnOk, OnErr, map};
ghost use Rattle.std.specs.Io.KnownBytes.{Appends};
ghost use Rattle.std.specs.String.{string_bytes};
ghost use Rattle.tandem_io.specs.Causes.{HasCause};
ghost use Rattle.tandem_cli.specs.Answers.{AnswersUsage, ChecksAs, NoFaultRose, PrintsDue, Settled};
ghost use Rattle.tandem_cli.specs.Answers.{due_for, due_without_image, due_without_verdict, status_of_verdict};
ghost use Rattle.tandem_cli.specs.Checks.{CountsStand};
ghost use Rattle.text_runs.specs.Written.{TakesFront};
ghost use Rattle.verdict_report.specs.Lines.{verdict_line};
ghost use Rattle.tandem_cli.specs.Seen.{asked_seen};
ghost use Rattle.tandem_cli.specs.Words.{Asked, asked};

use super::outcome::{NoImage, NoVerdict, Outcome, check};
use super::outcome_lines::{print_failed, print_image_fault, print_missing, print_usage};
use super::words::{CheckWords, parse};
use std::alloc::Global;
use tandem_io::{Failed, Inputs, Sink};
use verdict_report::{Verdict, print};

/// Does all that `tandem check` does, for the words after the program's name, with `check` first.
/// Writes one line, and answers the status that the program ends with:
///
/// - 0 ACCEPT, 1 REJECT, 5 UNDECIDED: the verdict on the stream;
/// - 2 USAGE: the words are of another form; the inputs are as they were;
/// - 3 INPUT missing, INPUT failed: no input of that name is there, or it could not be opened or read;
/// - 4 IMAGE: the image is none, and the stream wasn't attached;
/// - 6: the sink failed, and took a front of the line that was due;
/// - 7: memory was refused, and nothing was written.
pub fn run_check<I: Inputs, K: Sink>(
    alloc: Global,
    words: &[String],
    ins: &mut I,
    out: &mut K,
) -> u8
    // Words of another form.
    ensures usage { asked (map string_bytes words.now) ≡ None →
        AnswersUsage result (K.written out.old) (K.written out.new) (K.faults out.old) (K.faults out.new) }
    ensures untouched { asked (map string_bytes words.now) ≡ None → ins.new ≡ ins.old }

    // Words of the form of `check`, whatever rose.
    ensures answer { (a : Asked) → asked (map string_bytes words.now) ≡ Some a →
        ChecksAs a (I.names ins.old) (I.slots ins.old) (I.slots ins.new) result
        (K.written out.old) (K.written out.new) (K.faults out.old) (K.faults out.new) }

    // The same words, where no count rose and the inputs tell their names.
    ensures quiet { (a : Asked) → asked (map string_bytes words.now) ≡ Some a → IfSome (I.names ins.old) (λ names.
        NoFaultRose (I.slots ins.old) (I.slots ins.new) (K.faults out.old) (K.faults out.new) →
        Settled a names (I.slots ins.new) result (K.written out.old) (K.written out.new)) }

    ensures counts { CountsStand (I.slots ins.old) (I.slots ins.new) }
    ensures names { I.names ins.new ≡ I.names ins.old }
    ensures count { K.faults out.old ≤ K.faults out.new }
{
    answer_words(alloc, words, ins, out)
}

// The same, by the outcome alone.
fn answer_words<I: Inputs, K: Sink>(alloc: Global, words: &[String], ins: &mut I, out: &mut K) -> u8
    ensures usage { asked (map string_bytes words.now) ≡ None →
        AnswersUsage result (K.written out.old) (K.written out.new) (K.faults out.old) (K.faults out.new) }
    ensures untouched { asked (map string_bytes words.now) ≡ None → ins.new ≡ ins.old }
    ensures answer { (a : Asked) → asked (map string_bytes words.now) ≡ Some a →
        ChecksAs a (I.names ins.old) (I.slots ins.old) (I.slots ins.new) result
        (K.written out.old) (K.written out.new) (K.faults out.old) (K.faults out.new) }
    ensures counts { CountsStand (I.slots ins.old) (I.slots ins.new) }
    ensures names { I.names ins.new ≡ I.names ins.old }
    ensures count { K.faults out.old ≤ K.faults out.new }
{
    match parse(alloc, words) {
        Ok(Some(asked)) => {
            let outcome = check(alloc, &asked, ins);
            report(&asked, &outcome, out)
        }
        Ok(None) => finished(2, print_usage(out)),
        Err(_) => 7,
    }
}

/// The status, or 6 where the line could not be written.
pub fn finished(status: u8, written: Result<(), Failed>) -> u8
    ensures ok { IfOk written (λ _. result ≡ status) }
    ensures err { IfErr written (λ _. result ≡ 6) }
{
    match written {
        Ok(()) => status,
        Err(Failed) => 6,
    }
}

/// The status that goes with a verdict.
pub fn verdict_status(verdict: &Verdict) -> u8
    ensures { result ≡ status_of_verdict verdict.now }
{
    match verdict {
        Verdict::Accept { .. } => 0,
        Verdict::Reject(_) => 1,
        Verdict::Undecided { .. } => 5,
    }
}

/// Writes the line of a verdict. After an error the sink took a front of it.
pub fn print_verdict<K: Sink>(verdict: &Verdict, out: &mut K) -> Result<(), Failed>
    ensures ok { OnOk result (Appends (K.written out.old) (K.written out.new) (verdict_line verdict.now)) }
    ensures err { OnErr result (TakesFront (K.written out.old) (K.written out.new) (verdict_line verdict.now)) }
    ensures cause { HasCause (K.faults out.old) (K.faults out.new) result }
    ensures count { K.faults out.old ≤ K.faults out.new }
{
    match print(verdict, out) {
        Ok(()) => Ok(()),
        Err(_failed) => Err(Failed),
    }
}

// Writes why there is no image of this name, and answers the status.
fn report_no_image<K: Sink>(name: &str, why: &NoImage, out: &mut K) -> u8
    ensures prints { PrintsDue (due_without_image name.now why.now) result
        (K.written out.old) (K.written out.new) (K.faults out.old) (K.faults out.new) }
    ensures count { K.faults out.old ≤ K.faults out.new }
{
    match why {
        NoImage::Missing => finished(3, print_missing(name, out)),
        NoImage::Unopened => finished(3, print_failed(name, out)),
        NoImage::Unread => finished(3, print_failed(name, out)),
        NoImage::Refused(fault) => finished(4, print_image_fault(fault, out)),
        NoImage::Memory => 7,
    }
}

// Writes why there is no verdict on the stream of this name, and answers the status.
fn report_no_verdict<K: Sink>(name: &str, why: &NoVerdict, out: &mut K) -> u8
    ensures prints { PrintsDue (due_without_verdict name.now why.now) result
        (K.written out.old) (K.written out.new) (K.faults out.old) (K.faults out.new) }
    ensures count { K.faults out.old ≤ K.faults out.new }
{
    match why {
        NoVerdict::Missing => finished(3, print_missing(name, out)),
        NoVerdict::Unopened => finished(3, print_failed(name, out)),
        NoVerdict::Unread => finished(3, print_failed(name, out)),
        NoVerdict::Memory => 7,
    }
}

// Writes the line of an outcome, and answers its status.
fn report<K: Sink>(asked: &CheckWords, outcome: &Outcome, out: &mut K) -> u8
    ensures prints { PrintsDue (due_for (asked_seen asked.now) outcome.now) result
        (K.written out.old) (K.written out.new) (K.faults out.old) (K.faults out.new) }
    ensures count { K.faults out.old ≤ K.faults out.new }
{
    match outcome {
        Outcome::Unloaded(why) => report_no_image(asked.image, why, out),
        Outcome::Unjudged(why) => report_no_verdict(asked.stream, why, out),
        Outcome::Judged(verdict) => finished(verdict_status(verdict), print_verdict(verdict, out)),
    }
}
