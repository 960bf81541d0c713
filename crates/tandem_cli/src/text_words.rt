//! The words of `text`.

ghost use Rattle.std.specs.Prelude.{◌≡◌, map};
ghost use Rattle.std.specs.Option.{option_map};
ghost use Rattle.std.specs.String.{string_bytes};
ghost use Rattle.tandem_cli.specs.TextWords.{text_asked, text_asked_seen, way_of};

use super::words::is_name;

/// The ways between streams and texts.
#[derive(Clone, Copy, Debug, PartialEq, Eq)]
pub enum TextWay {
    /// `to`: a stream is printed as text.
    To,
    /// `from`: a text is written as a stream.
    From,
}

/// What `tandem text` is asked for.
#[derive(Clone, Copy, Debug)]
pub struct TextWords<'a> {
    /// Which way.
    pub way: TextWay,
    /// The name of the stream or of the text.
    pub name: &'a str,
}

/// What the words after the program's name ask for, `text` first. None where they are of another
/// form than `text to STREAM` or `text from FILE`.
pub fn parse_text(words: &[String]) -> Option<TextWords<'_>>
    ensures { option_map text_asked_seen result ≡ text_asked (map string_bytes words.now) }
{
    if words.len() != 3 {
        return None;
    }
    if words[0].as_str() != "text" {
        return None;
    }
    let way = way_of(words[1].as_str())?;
    let name = words[2].as_str();
    if is_name(name) {
        Some(TextWords { way, name })
    } else {
        None
    }
}

// The way that a word names.
fn way_of(word: &str) -> Option<TextWay>
    ensures { result ≡ way_of word.now }
{
    if word == "to" {
        Some(TextWay::To)
    } else if word == "from" {
        Some(TextWay::From)
    } else {
        None
    }
}
