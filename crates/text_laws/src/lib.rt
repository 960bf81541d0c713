//! Laws of texts and streams: functions that do nothing, whose clauses are the laws.
#![tactic(auto)]

ghost use Rattle.text_laws.specs.RoundTrips.{FramesPrintAsLines, TextsPrintAgain};

/// Law: the frames of messages, the last of which is their only End, are printed as their lines, and
/// all of the bytes are taken.
pub fn frames_are_printed_as_lines()
    ensures { FramesPrintAsLines }
{}

/// Law: the frames of a text that is accepted, printed, are that text, where its last line is its only
/// End. Behind an End nothing is printed.
pub fn accepted_texts_are_printed_again()
    ensures { TextsPrintAgain }
{}
