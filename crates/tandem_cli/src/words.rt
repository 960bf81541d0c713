//! The words of the commands.

ghost use Rattle.std.specs.Prelude.{◌≡◌, IfOk, IfSome, map};
ghost use Rattle.std.specs.Option.{option_map};
ghost use Rattle.std.specs.String.{string_bytes};
ghost use Rattle.tandem_cli.specs.Fits.{IsFit};
ghost use Rattle.tandem_cli.specs.Seen.{asked_seen, chosen_seen};
ghost use Rattle.tandem_cli.specs.Words.{Names, asked, is_name, names_of};

use super::chosen::{CheckOptions, choose};
use std::alloc::{AllocError, Global};

/// What `tandem check` is asked for.
#[derive(Debug, Drop)]
pub struct CheckWords<'a> {
    /// The name of the image.
    pub image: &'a str,
    /// The name of the stream.
    pub stream: &'a str,
    /// The options.
    pub options: CheckOptions,
}

/// What the words after the program's name ask for, `check` first. None where they are of another
/// form than `check IMAGE STREAM` with options.
pub fn parse(alloc: Global, words: &[String]) -> Result<Option<CheckWords<'_>>, AllocError>
    ensures value { IfOk result (λ found. option_map asked_seen found ≡ asked (map string_bytes words.now)) }
    ensures fit { IfOk result (λ found. IfSome found (λ words. IsFit (chosen_seen words.options))) }
{
    let Some((image, stream)) = names(words) else {
        return Ok(None);
    };
    let Some(options) = choose(alloc, &words[3..])? else {
        return Ok(None);
    };
    Ok(Some(CheckWords {
        image,
        stream,
        options,
    }))
}

// The names of the image and of the stream. None where the words don't begin with
// `check IMAGE STREAM`.
fn names(words: &[String]) -> Option<(&str, &str)>
    ensures { option_map (λ names. record { image = names.0.now; stream = names.1.now }) result
        ≡ names_of (map string_bytes words.now) }
{
    if words.len() < 3 {
        return None;
    }
    let (image, stream) = (words[1].as_str(), words[2].as_str());
    if words[0].as_str() == "check" && is_name(image) && is_name(stream) {
        Some((image, stream))
    } else {
        None
    }
}

/// Whether the word isn't empty and doesn't begin with `-`.
pub fn is_name(word: &str) -> bool
    ensures { result ≡ is_name word.now }
{
    match word.as_bytes().first() {
        Some(first) => *first != b'-',
        None => false,
    }
}
