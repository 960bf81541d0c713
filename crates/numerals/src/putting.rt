//! Numbers put into a buffer, without memory of their own.

ghost use Rattle.std.specs.Prelude.{◌≡◌, ◌+◌, ◌-◌, ◌<◌, ◌≤◌, false, length, drop};
ghost use Rattle.std.specs.Fmt.{digit_glyph, digits};
ghost use Rattle.numerals.specs.Numerals.{decimal_or_dash, hexadecimal};
ghost use Rattle.tandem_base.specs.Puts.{Puts};

use itoa::{Buffer, Integer};
use tandem_base::put;

/// Puts the number in decimal.
pub fn put_decimal<I: Integer>(out: &mut [u8], at: usize, n: I) -> usize
    requires { at + I.MAX_STR_LEN ≤ length out.old }
    ensures puts { Puts at out.old result out.new (I.text n) }
    ensures bound { result ≤ at + I.MAX_STR_LEN }
{
    let mut buffer = Buffer::new();
    put(out, at, buffer.format(n).as_bytes())
}

/// Puts a number of one byte in decimal, or `-` for none.
pub fn put_decimal_or_dash(out: &mut [u8], at: usize, number: Option<u8>) -> usize
    requires { at + 3 ≤ length out.old }
    ensures puts { Puts at out.old result out.new (decimal_or_dash number) }
    ensures bound { result ≤ at + 3 }
{
    match number {
        None => put(out, at, b"-"),
        Some(number) => put_decimal(out, at, number),
    }
}

/// Puts the number in hexadecimal.
pub fn put_hexadecimal(out: &mut [u8], at: usize, n: u64) -> usize
    requires { at + 18 ≤ length out.old }
    ensures puts { Puts at out.old result out.new (hexadecimal n) }
    ensures bound { result ≤ at + 18 }
{
    let mut held = [0; 16];
    let end = put(out, at, b"0x");
    put_digits(out, end, n, &mut held)
}

// Puts the digits of the number in base 16, over sixteen lent bytes.
fn put_digits(out: &mut [u8], at: usize, n: u64, held: &mut [u8]) -> usize
    requires room { at + 16 ≤ length out.old }
    requires sixteen { length held.old ≡ 16 }
    ensures puts { Puts at out.old result out.new (digits 16 false n) }
    ensures bound { result ≤ at + 16 }
{
    let start = spell_digits(n, held);
    put(out, at, &held[start..])
}

/// Spells the digits of the number in base 16 so that they end with the sixteen bytes, and answers
/// where they start.
pub(crate) fn spell_digits(n: u64, held: &mut [u8]) -> usize
    requires { length held.old ≡ 16 }
    ensures start { result < 16 }
    ensures spelled { drop result held.new ≡ digits 16 false n }
{
    let mut start = 16;
    let mut rest = n;
    loop {
        start -= 1;
        held[start] = digit(rest % 16);
        rest /= 16;
        if rest == 0 {
            return start;
        }
    }
}

// The digit in base 16.
fn digit(d: u64) -> u8
    requires { d < 16 }
    ensures { result ≡ digit_glyph false d }
{
    if d < 10 {
        b'0' + d as u8
    } else {
        b'a' + (d - 10) as u8
    }
}
