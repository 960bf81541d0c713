//! What comes of `tandem text`.

ghost use Rattle.std.specs.Prelude.{◌≡◌, ◌≤◌, ℕ, List, IfSome};
ghost use Rattle.tandem_io.specs.Causes.{Rose};
ghost use Rattle.tandem_cli.specs.TextRuns.{StreamPrintedCaused, StreamPrintedIs, TakesLines, TextReadCaused};
ghost use Rattle.tandem_cli.specs.TextRuns.{TextReadIs, stream_printed, text_taken};

use std::alloc::Global;
use tandem_io::{Failed, Inputs, Sink, Slot};
use text_runs::{TakenText, Unprinted, print_stream, take_text};
use verdict_report::Verdict;

/// What comes of printing a stream.
#[derive(Clone, Copy, Debug, PartialEq, Eq)]
pub enum StreamPrinted {
    /// No input of its name is there.
    Missing,
    /// Its input could not be opened.
    Unopened,
    /// Its input could not be read up to its end. The lines before are written.
    Unread,
    /// The sink failed, and took a front of the lines.
    Unwritten,
    /// The lines are written, and this is the verdict on its form, if that breaks.
    Printed(Option<Verdict>),
}

/// What comes of reading a text.
#[derive(Debug, Drop)]
pub enum TextRead {
    /// No input of its name is there.
    Missing,
    /// Its input could not be opened.
    Unopened,
    /// Its input could not be read.
    Unread,
    /// Memory was refused.
    Memory,
    /// It has more bytes than a text may have.
    TooLarge,
    /// Its bytes.
    Whole(Vec<u8>),
}

/// Prints the lines of the stream of this name. The last line, on a failure or of the verdict, is
/// not written yet.
pub fn show<I: Inputs, K: Sink>(name: &str, ins: &mut I, out: &mut K) -> StreamPrinted
    ensures printed { (got : List ℕ)
        × IfSome (I.names ins.old) (λ files. StreamPrintedIs name.now files result got (I.slots ins.new).stream.left)
        × TakesLines result got (K.written out.old) (K.written out.new) }
    ensures cause { StreamPrintedCaused result (I.slots ins.old).stream (I.slots ins.new).stream }
    ensures unwritten { result ≡ StreamPrinted.Unwritten → Rose (K.faults out.old) (K.faults out.new) }
    ensures count { (I.slots ins.old).stream.faults ≤ (I.slots ins.new).stream.faults }
    ensures sink_count { K.faults out.old ≤ K.faults out.new }
    ensures names { I.names ins.new ≡ I.names ins.old }
    ensures image { (I.slots ins.new).image ≡ (I.slots ins.old).image }
{
    match ins.attach(Slot::Stream, name) {
        Ok(true) => {}
        Ok(false) => return StreamPrinted::Missing,
        Err(Failed) => return StreamPrinted::Unopened,
    }
    printed_or_fault(print_stream(ins, out))
}

// What the printer's answer comes to.
fn printed_or_fault(printed: Result<Option<Verdict>, Unprinted>) -> StreamPrinted
    ensures { result ≡ stream_printed printed }
{
    match printed {
        Ok(verdict) => StreamPrinted::Printed(verdict),
        Err(Unprinted::Unread) => StreamPrinted::Unread,
        Err(Unprinted::Unwritten) => StreamPrinted::Unwritten,
    }
}

/// Reads the text of this name whole.
pub fn read_text<I: Inputs>(alloc: Global, name: &str, ins: &mut I) -> TextRead
    ensures text { IfSome (I.names ins.old) (λ files.
        TextReadIs name.now files result (I.slots ins.new).stream.left) }
    ensures cause { TextReadCaused result (I.slots ins.old).stream (I.slots ins.new).stream }
    ensures count { (I.slots ins.old).stream.faults ≤ (I.slots ins.new).stream.faults }
    ensures names { I.names ins.new ≡ I.names ins.old }
    ensures image { (I.slots ins.new).image ≡ (I.slots ins.old).image }
{
    match ins.attach(Slot::Stream, name) {
        Ok(true) => {}
        Ok(false) => return TextRead::Missing,
        Err(Failed) => return TextRead::Unopened,
    }
    text_or_fault(take_text(alloc, ins))
}

// What the reader's answer comes to.
fn text_or_fault(taken: TakenText) -> TextRead
    ensures { result ≡ text_taken taken }
{
    match taken {
        TakenText::Text(bytes) => TextRead::Whole(bytes),
        TakenText::TooLarge => TextRead::TooLarge,
        TakenText::Failed => TextRead::Unread,
        TakenText::Memory => TextRead::Memory,
    }
}
