//! What the options of the command line come to.

ghost use Rattle.std.specs.Prelude.{◌≡◌, IfOk, IfSome, map};
ghost use Rattle.std.specs.Option.{option_map};
ghost use Rattle.std.specs.String.{string_bytes};
ghost use Rattle.tandem_cli.specs.Fits.{IsFit};
ghost use Rattle.tandem_cli.specs.Options.{all_limits_of, at_most_one, chosen_by, chosen_of, flats_of, rams_of};
ghost use Rattle.tandem_cli.specs.Seen.{chosen_seen};

use super::options::{CheckOption, parse_options};
use elf_image::Ram;
use std::alloc::{AllocError, Global};
use tandem_core::Limits;

/// The options of a run.
#[derive(Debug, Drop)]
pub struct CheckOptions {
    /// The base of a flat image; None for an ELF image.
    pub flat: Option<u64>,
    /// The ranges of RAM, in the order in which they were asked for.
    pub rams: Vec<Ram>,
    /// The limits: the ceilings, where none were asked for.
    pub limits: Limits,
}

/// The options that the words ask for. None where the words spell none, ask for more than one flat
/// image, or for limits more than once.
pub fn choose(alloc: Global, words: &[String]) -> Result<Option<CheckOptions>, AllocError>
    ensures value { IfOk result (λ found. option_map chosen_seen found ≡ chosen_of (map string_bytes words.now)) }
    ensures fit { IfOk result (λ found. IfSome found (λ options. IsFit (chosen_seen options))) }
{
    read_and_gather(alloc, words)
}

// The options that the words ask for.
fn read_and_gather(alloc: Global, words: &[String]) -> Result<Option<CheckOptions>, AllocError>
    ensures { IfOk result (λ found. option_map chosen_seen found ≡ chosen_of (map string_bytes words.now)) }
{
    let Some(options) = parse_options(alloc, words)? else {
        return Ok(None);
    };
    gather(alloc, &options)
}

// What the options come to. None where a flat image or limits are asked for more than once.
fn gather(alloc: Global, options: &[CheckOption]) -> Result<Option<CheckOptions>, AllocError>
    ensures { IfOk result (λ found. option_map chosen_seen found ≡ chosen_by options.now) }
{
    let Some(flat) = one_flat(options) else {
        return Ok(None);
    };
    let Some(limits) = one_limits(options) else {
        return Ok(None);
    };
    Ok(Some(CheckOptions {
        flat,
        rams: all_rams(alloc, options)?,
        limits: limits.unwrap_or(Limits::CEILINGS),
    }))
}

// The base of the flat image that the options ask for, or that they ask for none. None where they
// ask for more than one.
fn one_flat(options: &[CheckOption]) -> Option<Option<u64>>
    ensures { result ≡ at_most_one (flats_of options.now) }
{
    let mut flat = None;
    for option in options {
        if let CheckOption::FlatAt(base) = option {
            if flat.is_some() {
                return None;
            }
            flat = Some(*base);
        }
    }
    Some(flat)
}

// The limits that the options ask for, likewise.
fn one_limits(options: &[CheckOption]) -> Option<Option<Limits>>
    ensures { result ≡ at_most_one (all_limits_of options.now) }
{
    let mut limits = None;
    for option in options {
        if let CheckOption::LimitsAre(asked) = option {
            if limits.is_some() {
                return None;
            }
            limits = Some(*asked);
        }
    }
    Some(limits)
}

// The ranges of RAM that the options ask for.
fn all_rams(alloc: Global, options: &[CheckOption]) -> Result<Vec<Ram>, AllocError>
    ensures { IfOk result (λ rams. rams.items ≡ rams_of options.now) }
{
    let mut rams = Vec::new(alloc);
    for option in options {
        if let CheckOption::RamAt(ram) = option {
            rams.push(*ram)?;
        }
    }
    Ok(rams)
}
