//! The options of the command line.

ghost use Rattle.std.specs.Prelude.{◌≡◌, ◌==◌, ◌<◌, ◌≤◌, IfOk, IfSome, map};
ghost use Rattle.std.specs.List.{after_first, before_first};
ghost use Rattle.std.specs.Option.{option_map};
ghost use Rattle.std.specs.String.{string_bytes};
ghost use Rattle.tandem_core.specs.Limits.{ceilings};
ghost use Rattle.tandem_cli.specs.Numbers.{number_spelled};
ghost use Rattle.tandem_cli.specs.Options.{flat_at, limits_from, limits_of, option_of, options_of, ram_at};
ghost use Rattle.tandem_cli.specs.Options.{ram_of, within};

use super::number::number;
use elf_image::Ram;
use std::alloc::{AllocError, Global};
use tandem_core::Limits;

/// An option with its value.
#[derive(Clone, Copy, Debug, PartialEq, Eq)]
pub enum CheckOption {
    /// `--flat BASE`: the image is flat at this address.
    FlatAt(u64),
    /// `--ram BASE:SIZE`: there is RAM here.
    RamAt(Ram),
    /// `--limits R,S,K,M`: these limits.
    LimitsAre(Limits),
}

/// The option of this name and value. None where the two words spell none.
#[tactic(auto, unfolding(crate::specs::Options::option_of))]
pub fn option(name: &str, value: &str) -> Option<CheckOption>
    ensures { result ≡ option_of name.now value.now }
{
    if name == "--flat" {
        parse_flat(value)
    } else if name == "--ram" {
        parse_ram(value).map(CheckOption::RamAt)
    } else if name == "--limits" {
        parse_limits(value).map(CheckOption::LimitsAre)
    } else {
        None
    }
}

// The base of a flat image, which is a multiple of 4.
fn parse_flat(word: &str) -> Option<CheckOption>
    ensures { result ≡ flat_at (number_spelled word.now) }
{
    match number(word) {
        Some(base) if base % 4 == 0 => Some(CheckOption::FlatAt(base)),
        Some(_) | None => None,
    }
}

// What stands before the first `mark` of the word and what stands behind it: all and nothing, where
// there is none.
fn parted(word: &str, mark: char) -> (&str, &str)
    requires { mark < 128 }
    ensures before { result.0.now ≡ before_first (λ c. c == mark) word.now }
    ensures after { result.1.now ≡ after_first (λ c. c == mark) word.now }
{
    match word.split_once(mark) {
        Some(parts) => parts,
        None => (word, ""),
    }
}

// The range of RAM that `BASE:SIZE` asks for.
fn parse_ram(word: &str) -> Option<Ram>
    ensures { result ≡ ram_of word.now }
{
    let (base, size) = parted(word, ':');
    make_ram(number(base), number(size))
}

// A range of RAM with an address in it, which doesn't pass the top of the address space.
fn make_ram(base: Option<u64>, size: Option<u64>) -> Option<Ram>
    ensures { result ≡ ram_at base size }
{
    let (Some(base), Some(size)) = (base, size) else {
        return None;
    };
    if size >= 1 && u128::from(base) + u128::from(size) <= 1 << 64 {
        Some(Ram { base, size })
    } else {
        None
    }
}

// The limits that `R,S,K,M` asks for.
fn parse_limits(word: &str) -> Option<Limits>
    ensures { result ≡ limits_of word.now }
{
    let (reads, word) = parted(word, ',');
    let (stores, word) = parted(word, ',');
    let (kept, messages) = parted(word, ',');
    make_limits(
        number(reads),
        number(stores),
        number(kept),
        number(messages),
    )
}

// Four limits, each within its ceiling.
fn make_limits(
    reads: Option<u64>,
    stores: Option<u64>,
    kept: Option<u64>,
    messages: Option<u64>,
) -> Option<Limits>
    ensures { result ≡ limits_from (within ceilings.reads reads) (within ceilings.stores stores)
        (within ceilings.kept kept) (within ceilings.messages messages) }
{
    let most = Limits::CEILINGS;
    Some(Limits {
        reads: bounded(reads, u64::from(most.reads))? as u32,
        stores: bounded(stores, u64::from(most.stores))? as u32,
        kept: bounded(kept, u64::from(most.kept))? as u32,
        messages: bounded(messages, most.messages)?,
    })
}

// The number, where it is from 1 to the ceiling.
fn bounded(n: Option<u64>, ceiling: u64) -> Option<u64>
    ensures value { result ≡ within ceiling n }
    ensures bound { IfSome result (λ n. n ≤ ceiling) }
{
    match n {
        Some(n) if n >= 1 && n <= ceiling => Some(n),
        Some(_) | None => None,
    }
}

/// The options that the words spell, two words each. None where they spell none.
pub fn parse_options(
    alloc: Global,
    words: &[String],
) -> Result<Option<Vec<CheckOption>>, AllocError>
    ensures { IfOk result (λ found.
        option_map (λ options. options.items) found ≡ options_of (map string_bytes words.now)) }
{
    let mut options = Vec::new(alloc);
    let mut at = 0;
    while at < words.len() {
        if words.len() - at == 1 {
            return Ok(None);
        }
        let Some(option) = option(words[at].as_str(), words[at + 1].as_str()) else {
            return Ok(None);
        };
        options.push(option)?;
        at += 2;
    }
    Ok(Some(options))
}
