//! The words that the program was started with, handed to the top call.

ghost use Rattle.std.specs.Prelude.{◌≡◌, ◌≤◌, IfOk, IfErr, OnErr, drop, map};
ghost use Rattle.std.specs.IoError.{error_kind};
ghost use Rattle.std.specs.String.{string_bytes};
ghost use Rattle.std.specs.Vec.Iter.{into_iter_items};
ghost use Rattle.tandem_cli.specs.Answers.{AnswersUsage};
ghost use Rattle.tandem_cli.specs.Checks.{CountsStand};
ghost use Rattle.tandem_cli.specs.Programs.{AnswersWords, asks_nothing, command_named, command_of};

use super::gens::run_gen;
use super::run::run_check;
use super::texts::run_text;
use std::alloc::{AllocError, Global};
use std::env::Args;
use std::io::{self, ErrorKind};
use tandem_io::{Inputs, Sink};

/// The commands of the program.
#[derive(Clone, Copy, Debug, PartialEq, Eq)]
pub enum Command {
    /// `check`, and every word that names no other command.
    Check,
    /// `gen`.
    Gen,
    /// `text`.
    Text,
}

/// Does all that the program does with the words that it was started with, its own name first, and
/// answers the status that it ends with. Words that are no text are of another form; where memory
/// for them is refused the status is 7, and nothing is written.
pub fn run_program<I: Inputs, K: Sink>(
    alloc: Global,
    started: io::Result<Args>,
    ins: &mut I,
    out: &mut K,
) -> u8
    ensures words { IfOk started (λ args. AnswersWords (map string_bytes (drop 1 (into_iter_items args)))
        (I.names ins.old) (I.slots ins.old) (I.slots ins.new) result
        (K.written out.old) (K.written out.new) (K.faults out.old) (K.faults out.new)) }
    ensures no_text { OnErr started (AnswersUsage result
        (K.written out.old) (K.written out.new) (K.faults out.old) (K.faults out.new)) }
    ensures refused { IfErr started (λ error. error_kind error ≡ ErrorKind.OutOfMemory → result ≡ 7) }
    ensures usage { IfOk started (λ args. asks_nothing (command_of (map string_bytes (drop 1 (into_iter_items args))))
        (map string_bytes (drop 1 (into_iter_items args))) → ins.new ≡ ins.old) }
    ensures untouched { OnErr started (ins.new ≡ ins.old) }
    ensures counts { CountsStand (I.slots ins.old) (I.slots ins.new) }
    ensures names { I.names ins.new ≡ I.names ins.old }
    ensures count { K.faults out.old ≤ K.faults out.new }
{
    match started {
        Ok(args) => run_words(alloc, args, ins, out),
        Err(error) if error.kind() == ErrorKind::OutOfMemory => 7,
        Err(_no_text) => run_check(alloc, &[], ins, out),
    }
}

// The same, for words that are text.
fn run_words<I: Inputs, K: Sink>(alloc: Global, args: Args, ins: &mut I, out: &mut K) -> u8
    ensures words { AnswersWords (map string_bytes (drop 1 (into_iter_items args)))
        (I.names ins.old) (I.slots ins.old) (I.slots ins.new) result
        (K.written out.old) (K.written out.new) (K.faults out.old) (K.faults out.new) }
    ensures usage { asks_nothing (command_of (map string_bytes (drop 1 (into_iter_items args))))
        (map string_bytes (drop 1 (into_iter_items args))) → ins.new ≡ ins.old }
    ensures counts { CountsStand (I.slots ins.old) (I.slots ins.new) }
    ensures names { I.names ins.new ≡ I.names ins.old }
    ensures count { K.faults out.old ≤ K.faults out.new }
{
    match words_behind(alloc, args) {
        Ok(words) => run_command(alloc, &words, ins, out),
        Err(_refused) => 7,
    }
}

// Does what the words ask for, by the command that the first of them names.
fn run_command<I: Inputs, K: Sink>(alloc: Global, words: &[String], ins: &mut I, out: &mut K) -> u8
    ensures words { AnswersWords (map string_bytes words.now)
        (I.names ins.old) (I.slots ins.old) (I.slots ins.new) result
        (K.written out.old) (K.written out.new) (K.faults out.old) (K.faults out.new) }
    ensures usage { asks_nothing (command_of (map string_bytes words.now)) (map string_bytes words.now) →
        ins.new ≡ ins.old }
    ensures counts { CountsStand (I.slots ins.old) (I.slots ins.new) }
    ensures names { I.names ins.new ≡ I.names ins.old }
    ensures count { K.faults out.old ≤ K.faults out.new }
{
    match command_of(words) {
        Command::Text => run_text(alloc, words, ins, out),
        Command::Gen => run_gen(alloc, words, out),
        Command::Check => run_check(alloc, words, ins, out),
    }
}

// The command that the words name.
fn command_of(words: &[String]) -> Command
    ensures { result ≡ command_of (map string_bytes words.now) }
{
    match words.first() {
        Some(word) => command_named(word.as_str()),
        None => Command::Check,
    }
}

// The command that a first word names: every other word than `text` and `gen` is left to `check`.
fn command_named(word: &str) -> Command
    ensures { result ≡ command_named word.now }
{
    if word == "text" {
        Command::Text
    } else if word == "gen" {
        Command::Gen
    } else {
        Command::Check
    }
}

// The words behind the program's name.
fn words_behind(alloc: Global, args: Args) -> Result<Vec<String>, AllocError>
    ensures { IfOk result (λ words. words.items ≡ drop 1 (into_iter_items args)) }
{
    let mut args = args;
    let _name = args.next();
    gathered(alloc, args)
}

// All the words.
fn gathered(alloc: Global, args: Args) -> Result<Vec<String>, AllocError>
    ensures { IfOk result (λ words. words.items ≡ into_iter_items args) }
{
    let mut words = Vec::new(alloc);
    for word in args {
        words.push(word)?;
    }
    Ok(words)
}
