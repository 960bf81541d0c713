//! The words of `gen`.

ghost use Rattle.std.specs.Prelude.{◌≡◌, IfSome, map, true};
ghost use Rattle.std.specs.Option.{option_map};
ghost use Rattle.std.specs.String.{string_bytes};
ghost use Rattle.trace_gen.specs.Making.{CanMake};
ghost use Rattle.tandem_cli.specs.GenWords.{can_make, flip_asked, gen_asked, gen_from};

use super::number::number;

/// What `tandem gen` is asked for.
#[derive(Clone, Copy, Debug, PartialEq, Eq)]
pub struct GenWords {
    /// The seed of the schedule.
    pub seed: u64,
    /// How many harts.
    pub harts: u8,
    /// How many rounds of each.
    pub count: u32,
    /// The byte of which the lowest bit is flipped, from 0, if one is asked for.
    pub flip: Option<u64>,
}

/// What the words after the program's name ask for, `gen` first. None where they are of another form
/// than `gen SEED HARTS COUNT`, with `--flip OFFSET` or not, or there is no such stream.
pub fn parse_gen(words: &[String]) -> Option<GenWords>
    ensures value { result ≡ gen_asked (map string_bytes words.now) }
    ensures fit { IfSome result (λ asked. CanMake asked.harts asked.count) }
{
    if words.len() < 4 {
        return None;
    }
    if words[0].as_str() != "gen" {
        return None;
    }
    let seed = number(words[1].as_str());
    let harts = number(words[2].as_str());
    let count = number(words[3].as_str());
    gen_of(seed, harts, count, flip_of(&words[4..]))
}

// The numbers, where all are there and there is such a stream.
fn gen_of(
    seed: Option<u64>,
    harts: Option<u64>,
    count: Option<u64>,
    flip: Option<Option<u64>>,
) -> Option<GenWords>
    ensures value { result ≡ gen_from seed harts count flip }
    ensures fit { IfSome result (λ asked. CanMake asked.harts asked.count) }
{
    match (seed, harts, count, flip) {
        (Some(seed), Some(harts), Some(count), Some(flip)) if can_make(harts, count) => {
            Some(GenWords {
                seed,
                harts: harts as u8,
                count: count as u32,
                flip,
            })
        }
        _ => None,
    }
}

// Whether there is a stream of so many harts, each with so many rounds.
fn can_make(harts: u64, count: u64) -> bool
    ensures value { result ≡ can_make harts count }
    ensures fit { result ≡ true → CanMake harts count }
{
    if harts < 1 || harts > 16 || count < 1 || count > 100_000 {
        return false;
    }
    harts * count <= 100_000
}

// The flip that the words behind COUNT ask for. None where they are others.
fn flip_of(words: &[String]) -> Option<Option<u64>>
    ensures { result ≡ flip_asked (map string_bytes words.now) }
{
    if words.is_empty() {
        return Some(None);
    }
    if words.len() != 2 || words[0].as_str() != "--flip" {
        return None;
    }
    match number(words[1].as_str()) {
        Some(offset) => Some(Some(offset)),
        None => None,
    }
}
