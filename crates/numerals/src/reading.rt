//! Numbers read from texts.

ghost use Rattle.std.specs.Prelude.{◌≡◌, ◌≢◌, ◌+◌, ◌*◌, ◌^◌, ◌≤◌, ◌↔◌, ℕ, false, length, IsTrue, IfSome, IfNone};
ghost use Rattle.std.specs.Char.{digit_value};
ghost use Rattle.std.specs.Fmt.{decimal, digits};
ghost use Rattle.std.specs.Str.Parse.{digits_value};
ghost use Rattle.numerals.specs.Numerals.{decimal_in, hexadecimal, hexadecimal_in, spelled_in};

use super::putting::spell_digits;
use itoa::Buffer;

/// The number of at most `most` that the text spells in decimal.
pub fn read_decimal(text: &[u8], most: u64) -> Option<u64>
    ensures value { result ≡ decimal_in most text.now }
    ensures found { IfSome result (λ n. (text.now ≡ decimal n) × (n ≤ most)) }
    ensures none { IfNone result ((n : ℕ) → n ≤ most → text.now ≢ decimal n) }
{
    decimal_of(text, most)
}

/// The number of at most `most` that the text spells in hexadecimal.
pub fn read_hexadecimal(text: &[u8], most: u64) -> Option<u64>
    ensures value { result ≡ hexadecimal_in most text.now }
    ensures found { IfSome result (λ n. (text.now ≡ hexadecimal n) × (n ≤ most)) }
    ensures none { IfNone result ((n : ℕ) → n ≤ most → text.now ≢ hexadecimal n) }
{
    hexadecimal_of(text, most)
}

// The number that the text spells in decimal.
#[tactic(auto, using(crate::proofs::Value::spelled, crate::proofs::Value::large, crate::proofs::Value::other))]
fn decimal_of(text: &[u8], most: u64) -> Option<u64>
    ensures { result ≡ spelled_in 10 most text.now }
{
    let Some(n) = value(text, 10) else {
        return None;
    };
    if n <= most && is_decimal(n, text) {
        Some(n)
    } else {
        None
    }
}

// The number that the text spells in hexadecimal.
fn hexadecimal_of(text: &[u8], most: u64) -> Option<u64>
    ensures { result ≡ hexadecimal_in most text.now }
{
    if text.starts_with(b"0x") {
        digits_of(&text[2..], most)
    } else {
        None
    }
}

// The number that the digits of base 16 spell.
#[tactic(auto, using(crate::proofs::Value::spelled, crate::proofs::Value::large, crate::proofs::Value::other))]
fn digits_of(text: &[u8], most: u64) -> Option<u64>
    ensures { result ≡ spelled_in 16 most text.now }
{
    let Some(n) = value(text, 16) else {
        return None;
    };
    if n <= most && is_hexadecimal(n, text) {
        Some(n)
    } else {
        None
    }
}

// The value of the text as digits of the base, if it is below 2^64.
fn value(text: &[u8], base: u64) -> Option<u64>
    requires { 1 ≤ base }
    ensures some { IfSome result (λ n. n ≡ digits_value base text.now) }
    ensures none { IfNone result (2 ^ 64 ≤ digits_value base text.now) }
{
    let mut n = 0;
    for &digit in text {
        let Some(next) = and_digit(n, base, digit) else {
            return None;
        };
        n = next;
    }
    Some(n)
}

// The value with one digit more, if it is below 2^64.
fn and_digit(n: u64, base: u64, digit: u8) -> Option<u64>
    ensures some { IfSome result (λ next. next ≡ n * base + digit_value digit) }
    ensures none { IfNone result (2 ^ 64 ≤ n * base + digit_value digit) }
{
    let Some(product) = n.checked_mul(base) else {
        return None;
    };
    product.checked_add(digit_worth(digit))
}

// The worth of a digit or letter, from 0 for `0` to 35 for `z`, and 36 for any other byte.
fn digit_worth(digit: u8) -> u64
    ensures value { result ≡ digit_value digit }
    ensures small { result ≤ 36 }
{
    match digit {
        b'0'..=b'9' => (digit - b'0') as u64,
        b'A'..=b'Z' => (digit - b'A') as u64 + 10,
        b'a'..=b'z' => (digit - b'a') as u64 + 10,
        _ => 36,
    }
}

// Whether the text is the number in decimal.
fn is_decimal(n: u64, text: &[u8]) -> bool
    ensures { IsTrue result ↔ (text.now ≡ digits 10 false n) }
{
    let mut buffer = Buffer::new();
    buffer.format(n).as_bytes() == text
}

// Whether the text is the digits of the number in base 16.
fn is_hexadecimal(n: u64, text: &[u8]) -> bool
    ensures { IsTrue result ↔ (text.now ≡ digits 16 false n) }
{
    let mut held = [0; 16];
    is_spelled(n, text, &mut held)
}

// The same, over sixteen lent bytes.
fn is_spelled(n: u64, text: &[u8], held: &mut [u8]) -> bool
    requires { length held.old ≡ 16 }
    ensures { IsTrue result ↔ (text.now ≡ digits 16 false n) }
{
    let start = spell_digits(n, held);
    same(&held[start..], text)
}

// Whether the two are the same.
fn same(spelled: &[u8], text: &[u8]) -> bool
    ensures { IsTrue result ↔ (text.now ≡ spelled.now) }
{
    spelled == text
}
