//! The numbers that words spell.

ghost use Rattle.std.specs.Prelude.{◌≡◌, ◌≤◌};
ghost use Rattle.tandem_cli.specs.Numbers.{number_spelled, numeral_of};

/// The number that the word spells: decimal digits, or `0x` and one to sixteen hexadecimal digits
/// of either case. None where it spells none below 2^64.
#[tactic(auto, unfolding(crate::specs::Numbers::number_spelled))]
pub fn number(word: &str) -> Option<u64>
    ensures { result ≡ number_spelled word.now }
{
    if !word.starts_with("0x") {
        return numeral(word, 10);
    }
    let digits = &word[2..];
    if digits.len() > 16 {
        return None;
    }
    numeral(digits, 16)
}

// The number below 2^64 that digits of the base spell.
fn numeral(digits: &str, base: u32) -> Option<u64>
    requires low { 2 ≤ base }
    requires high { base ≤ 36 }
    ensures { result ≡ numeral_of base digits.now }
{
    if digits.starts_with('+') {
        return None;
    }
    u64::from_str_radix(digits, base).ok()
}
