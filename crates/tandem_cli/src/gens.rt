//! The top call of `tandem gen`.

ghost use Rattle.std.specs.Prelude.{◌≡◌, ◌≤◌, None, Some, map};
ghost use Rattle.std.specs.String.{string_bytes};
ghost use Rattle.tandem_cli.specs.Answers.{Prints};
ghost use Rattle.tandem_cli.specs.GenRuns.{AnswersAccepted, AnswersMade, due_for_made, gen_usage_due};
ghost use Rattle.tandem_cli.specs.GenWords.{gen_asked};
ghost use Rattle.tandem_cli.specs.declared.gen_words.GenWords.{GenWords};
ghost use Rattle.trace_gen.specs.Making.{CanMake};

use super::gen_lines::{print_gen_usage, print_made};
use super::gen_words::{GenWords, parse_gen};
use super::run::{finished, verdict_status};
use gen_runs::judge_made;
use std::alloc::Global;
use tandem_io::Sink;
use verdict_report::Verdict;

/// Does all that `tandem gen` does, for the words after the program's name, with `gen` first: makes a
/// stream of so many harts and rounds, flips the lowest bit of a byte where one is named, judges it by
/// the same core as `check`, and writes what was made and the line of the verdict. Where no byte is named
/// the verdict is ACCEPT. It answers the status that the program ends with:
///
/// - 0 ACCEPT, 1 REJECT, 5 UNDECIDED: the verdict on the stream;
/// - 2 USAGE: the words are of another form, or there is no such stream;
/// - 6: the sink failed, and took a front of what was due;
/// - 7: memory was refused, and nothing was written.
pub fn run_gen<K: Sink>(alloc: Global, words: &[String], out: &mut K) -> u8
    // Words of another form.
    ensures usage { gen_asked (map string_bytes words.now) ≡ None →
        Prints gen_usage_due result (K.written out.old) (K.written out.new) (K.faults out.old) (K.faults out.new) }

    // Words of the form of `gen`.
    ensures answer { (a : GenWords) → gen_asked (map string_bytes words.now) ≡ Some a →
        AnswersMade a result (K.written out.old) (K.written out.new) (K.faults out.old) (K.faults out.new) }

    // What is made is accepted, where no byte is named.
    ensures accepted { (a : GenWords) → gen_asked (map string_bytes words.now) ≡ Some a → a.flip ≡ None →
        AnswersAccepted a result (K.written out.old) (K.written out.new) (K.faults out.old) (K.faults out.new) }

    ensures count { K.faults out.old ≤ K.faults out.new }
{
    match parse_gen(words) {
        Some(asked) => judge_and_print(alloc, &asked, out),
        None => finished(2, print_gen_usage(out)),
    }
}

// The answer to words of the form of `gen`.
fn judge_and_print<K: Sink>(alloc: Global, asked: &GenWords, out: &mut K) -> u8
    requires { CanMake asked.now.harts asked.now.count }
    ensures answer { AnswersMade asked.now result
        (K.written out.old) (K.written out.new) (K.faults out.old) (K.faults out.new) }
    ensures accepted { asked.now.flip ≡ None → AnswersAccepted asked.now result
        (K.written out.old) (K.written out.new) (K.faults out.old) (K.faults out.new) }
    ensures count { K.faults out.old ≤ K.faults out.new }
{
    match judge_made(alloc, asked.seed, asked.harts, asked.count, asked.flip) {
        Ok(verdict) => report_made(asked, &verdict, out),
        Err(_refused) => 7,
    }
}

// Writes the lines of a verdict, and answers its status.
fn report_made<K: Sink>(asked: &GenWords, verdict: &Verdict, out: &mut K) -> u8
    ensures prints { Prints (due_for_made asked.now verdict.now) result
        (K.written out.old) (K.written out.new) (K.faults out.old) (K.faults out.new) }
    ensures count { K.faults out.old ≤ K.faults out.new }
{
    finished(verdict_status(verdict), print_made(asked, verdict, out))
}
