//! The top call of `tandem text`.

ghost use Rattle.std.specs.Prelude.{◌≡◌, ◌≤◌, ◌⊎◌, ℕ, List, None, Some, IfSome, OnOk, OnErr, map};
ghost use Rattle.std.specs.Io.KnownBytes.{Appends};
ghost use Rattle.std.specs.String.{string_bytes};
ghost use Rattle.tandem_io.specs.Causes.{Rose};
ghost use Rattle.tandem_cli.specs.Answers.{Prints, PrintsDue};
ghost use Rattle.tandem_cli.specs.Checks.{CountsStand};
ghost use Rattle.tandem_cli.specs.TextRuns.{NoStreamFaultRose, PrintsAs, PrintsLast, WritesAs, due_for_read, last_due};
ghost use Rattle.tandem_cli.specs.TextRuns.{closing_line, closing_status, due_for_reading, runs_text};
ghost use Rattle.tandem_cli.specs.TextRuns.{settles_text, text_usage_due};
ghost use Rattle.tandem_cli.specs.TextWords.{TextAsked, text_asked};
ghost use Rattle.trace_text.specs.Texts.{text_read};

use super::outcome_lines::{print_failed, print_missing};
use super::run::{finished, print_verdict, verdict_status};
use super::text_lines::{print_text_fault, print_text_usage, print_too_large};
use super::text_outcome::{StreamPrinted, TextRead, read_text, show};
use super::text_words::{TextWay, parse_text};
use std::alloc::Global;
use tandem_io::{Inputs, Sink};
use text_runs::{find_fault, write_frames};
use verdict_report::Verdict;

/// Does all that `tandem text` does, for the words after the program's name, with `text` first, and
/// answers the status that the program ends with. `text to STREAM` prints a line for each message of
/// a stream, and `text from FILE` writes the frames of a text:
///
/// - 0: the stream was printed up to its End, or the frames of the text were written;
/// - 1 REJECT: the form of the stream breaks behind the lines that are written;
/// - 1 TEXT: the text is none, or too long, and no frame was written;
/// - 2 USAGE: the words are of another form; the inputs are as they were;
/// - 3 INPUT missing, INPUT failed: no input of that name is there, or it could not be opened or
///   read, behind the lines of a stream that were whole by then;
/// - 5 UNDECIDED: the stream has more messages than are printed;
/// - 6: the sink failed, and took a front of what was due;
/// - 7: memory was refused for a text, and nothing was written. `text to` takes none.
pub fn run_text<I: Inputs, K: Sink>(alloc: Global, words: &[String], ins: &mut I, out: &mut K) -> u8
    // Words of another form.
    ensures usage { text_asked (map string_bytes words.now) ≡ None →
        Prints text_usage_due result (K.written out.old) (K.written out.new) (K.faults out.old) (K.faults out.new) }
    ensures untouched { text_asked (map string_bytes words.now) ≡ None → ins.new ≡ ins.old }

    // Words of the form of `text`, whatever rose.
    ensures answer { (a : TextAsked) → text_asked (map string_bytes words.now) ≡ Some a →
        runs_text a.way a.name (I.names ins.old) (I.slots ins.old).stream (I.slots ins.new).stream result
        (K.written out.old) (K.written out.new) (K.faults out.old) (K.faults out.new) }

    // The same words, where no count rose and the inputs tell their names.
    ensures quiet { (a : TextAsked) → text_asked (map string_bytes words.now) ≡ Some a →
        IfSome (I.names ins.old) (λ names.
        NoStreamFaultRose (I.slots ins.old).stream (I.slots ins.new).stream (K.faults out.old) (K.faults out.new) →
        settles_text a.way a.name names (I.slots ins.new).stream.left result (K.written out.old) (K.written out.new)) }

    ensures names { I.names ins.new ≡ I.names ins.old }
    ensures image { (I.slots ins.new).image ≡ (I.slots ins.old).image }
    ensures counts { CountsStand (I.slots ins.old) (I.slots ins.new) }
    ensures count { K.faults out.old ≤ K.faults out.new }
{
    answer_text(alloc, words, ins, out)
}

// The same, by the outcome alone.
fn answer_text<I: Inputs, K: Sink>(alloc: Global, words: &[String], ins: &mut I, out: &mut K) -> u8
    ensures usage { text_asked (map string_bytes words.now) ≡ None →
        Prints text_usage_due result (K.written out.old) (K.written out.new) (K.faults out.old) (K.faults out.new) }
    ensures untouched { text_asked (map string_bytes words.now) ≡ None → ins.new ≡ ins.old }
    ensures answer { (a : TextAsked) → text_asked (map string_bytes words.now) ≡ Some a →
        runs_text a.way a.name (I.names ins.old) (I.slots ins.old).stream (I.slots ins.new).stream result
        (K.written out.old) (K.written out.new) (K.faults out.old) (K.faults out.new) }
    ensures names { I.names ins.new ≡ I.names ins.old }
    ensures image { (I.slots ins.new).image ≡ (I.slots ins.old).image }
    ensures counts { CountsStand (I.slots ins.old) (I.slots ins.new) }
    ensures count { K.faults out.old ≤ K.faults out.new }
{
    match parse_text(words) {
        Some(asked) => text_by(alloc, asked.way, asked.name, ins, out),
        None => finished(2, print_text_usage(out)),
    }
}

// The answer to words of the form of `text`.
fn text_by<I: Inputs, K: Sink>(
    alloc: Global,
    way: TextWay,
    name: &str,
    ins: &mut I,
    out: &mut K,
) -> u8
    ensures answer { runs_text way name.now (I.names ins.old) (I.slots ins.old).stream (I.slots ins.new).stream result
        (K.written out.old) (K.written out.new) (K.faults out.old) (K.faults out.new) }
    ensures names { I.names ins.new ≡ I.names ins.old }
    ensures image { (I.slots ins.new).image ≡ (I.slots ins.old).image }
    ensures counts { CountsStand (I.slots ins.old) (I.slots ins.new) }
    ensures count { K.faults out.old ≤ K.faults out.new }
{
    match way {
        TextWay::To => text_to(name, ins, out),
        TextWay::From => text_from(alloc, name, ins, out),
    }
}

// Prints a stream. Takes no memory.
fn text_to<I: Inputs, K: Sink>(name: &str, ins: &mut I, out: &mut K) -> u8
    ensures answer { PrintsAs name.now (I.names ins.old) (I.slots ins.old).stream (I.slots ins.new).stream result
        (K.written out.old) (K.written out.new) (K.faults out.old) (K.faults out.new) }
    ensures names { I.names ins.new ≡ I.names ins.old }
    ensures image { (I.slots ins.new).image ≡ (I.slots ins.old).image }
    ensures counts { CountsStand (I.slots ins.old) (I.slots ins.new) }
    ensures count { K.faults out.old ≤ K.faults out.new }
{
    let printed = show(name, ins, out);
    report_printed(name, &printed, out)
}

// Writes the last line of an outcome, and answers its status.
fn report_printed<K: Sink>(name: &str, printed: &StreamPrinted, out: &mut K) -> u8
    ensures prints { PrintsLast (last_due name.now printed.now) result
        (K.written out.old) (K.written out.new) (K.faults out.old) (K.faults out.new) }
    ensures count { K.faults out.old ≤ K.faults out.new }
{
    match printed {
        StreamPrinted::Missing => finished(3, print_missing(name, out)),
        StreamPrinted::Unopened => finished(3, print_failed(name, out)),
        StreamPrinted::Unread => finished(3, print_failed(name, out)),
        StreamPrinted::Unwritten => 6,
        StreamPrinted::Printed(verdict) => report_form(verdict, out),
    }
}

// Writes the line of a verdict, if there is one, and answers its status.
fn report_form<K: Sink>(verdict: &Option<Verdict>, out: &mut K) -> u8
    ensures prints { Prints (record { line = closing_line verdict.now; status = closing_status verdict.now }) result
        (K.written out.old) (K.written out.new) (K.faults out.old) (K.faults out.new) }
    ensures count { K.faults out.old ≤ K.faults out.new }
{
    match verdict {
        Some(verdict) => finished(verdict_status(verdict), print_verdict(verdict, out)),
        None => 0,
    }
}

// Writes the frames of a text.
fn text_from<I: Inputs, K: Sink>(alloc: Global, name: &str, ins: &mut I, out: &mut K) -> u8
    ensures answer { WritesAs name.now (I.names ins.old) (I.slots ins.old).stream (I.slots ins.new).stream result
        (K.written out.old) (K.written out.new) (K.faults out.old) (K.faults out.new) }
    ensures names { I.names ins.new ≡ I.names ins.old }
    ensures image { (I.slots ins.new).image ≡ (I.slots ins.old).image }
    ensures counts { CountsStand (I.slots ins.old) (I.slots ins.new) }
    ensures count { K.faults out.old ≤ K.faults out.new }
{
    let text = read_text(alloc, name, ins);
    report_read(name, &text, out)
}

// Writes what is due for an outcome, and answers its status.
fn report_read<K: Sink>(name: &str, text: &TextRead, out: &mut K) -> u8
    ensures prints { PrintsDue (due_for_read name.now text.now) result
        (K.written out.old) (K.written out.new) (K.faults out.old) (K.faults out.new) }
    ensures count { K.faults out.old ≤ K.faults out.new }
{
    match text {
        TextRead::Missing => finished(3, print_missing(name, out)),
        TextRead::Unopened => finished(3, print_failed(name, out)),
        TextRead::Unread => finished(3, print_failed(name, out)),
        TextRead::Memory => 7,
        TextRead::TooLarge => finished(1, print_too_large(out)),
        TextRead::Whole(bytes) => report_text(bytes, out),
    }
}

// Writes the frames of a text, or the first thing in it that is wrong.
fn report_text<K: Sink>(text: &[u8], out: &mut K) -> u8
    ensures prints { PrintsDue (due_for_reading (text_read text.now)) result
        (K.written out.old) (K.written out.new) (K.faults out.old) (K.faults out.new) }
    ensures count { K.faults out.old ≤ K.faults out.new }
{
    match find_fault(text) {
        Ok(()) => finished(0, write_frames(text, out)),
        Err(place) => finished(1, print_text_fault(&place, out)),
    }
}
