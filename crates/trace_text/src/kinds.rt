//! The kinds of messages, as the first words of lines name them.

ghost use Rattle.std.specs.Prelude.{◌≡◌};
ghost use Rattle.trace_text.specs.Reading.{kind_named};

use super::spellings::is_text;

/// What a message can be.
#[derive(Clone, Copy, Debug, PartialEq, Eq)]
pub(crate) enum Kind {
    /// The first message of a stream.
    Open,
    /// A value set before a hart's first Retire.
    Poke,
    /// A part of a load was performed.
    Read,
    /// A store went into the merge buffer.
    Insert,
    /// A line of the merge buffer became visible to all.
    Write,
    /// A store became visible to all by itself.
    Bypass,
    /// An instruction retired.
    Retire,
    /// The instruction of the tag does not retire.
    Squash,
    /// The last message of a stream.
    End,
}

/// The kind that the word names.
#[tactic(auto, unfolding(crate::specs::Reading::kind_named))]
pub(crate) fn kind_named(word: &[u8]) -> Option<Kind>
    ensures { result ≡ kind_named word.now }
{
    if is_text(word, b"open") {
        Some(Kind::Open)
    } else if is_text(word, b"poke") {
        Some(Kind::Poke)
    } else if is_text(word, b"read") {
        Some(Kind::Read)
    } else if is_text(word, b"insert") {
        Some(Kind::Insert)
    } else if is_text(word, b"write") {
        Some(Kind::Write)
    } else if is_text(word, b"bypass") {
        Some(Kind::Bypass)
    } else if is_text(word, b"retire") {
        Some(Kind::Retire)
    } else if is_text(word, b"squash") {
        Some(Kind::Squash)
    } else if is_text(word, b"end") {
        Some(Kind::End)
    } else {
        None
    }
}
