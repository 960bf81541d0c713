//! Quotients and remainders (Unprivileged ISA 20191213, section 7.2). Signed numbers are in two's
//! complement. The 32-bit forms divide the same numbers in 64 bits, and keep the low half.

ghost use Rattle.std.specs.Prelude.{◌≡◌, ◌%◌, ◌^◌};
ghost use Rattle.tandem_base.specs.Signs.{magnitude, with_sign, widened};
ghost use Rattle.tandem_base.specs.Division.{div_of, divu_of, rem_of, remu_of};

use super::arithmetic::{is_below_zero, sext};

fn magnitude(a: u64) -> u64
    ensures { result ≡ magnitude 64 a }
{
    if is_below_zero(a) {
        a.wrapping_neg()
    } else {
        a
    }
}

fn with_sign(minus: bool, size: u64) -> u64
    ensures { result ≡ with_sign 64 minus size }
{
    if minus { size.wrapping_neg() } else { size }
}

/// The quotient of two signed numbers, rounded toward zero: DIV. It is all ones for a division by
/// 0, and the dividend where -2^63 is divided by -1.
pub fn div(a: u64, b: u64) -> u64
    ensures { result ≡ div_of 64 a b }
{
    if b == 0 {
        return u64::MAX;
    }
    let minus = is_below_zero(a) != is_below_zero(b);
    with_sign(minus, magnitude(a) / magnitude(b))
}

/// The quotient of two unsigned numbers: DIVU. It is all ones for a division by 0.
pub fn divu(a: u64, b: u64) -> u64
    ensures { result ≡ divu_of 64 a b }
{
    if b == 0 { u64::MAX } else { a / b }
}

/// The remainder of two signed numbers, with the sign of `a`: REM. It is `a` for a division by 0,
/// and 0 where -2^63 is divided by -1.
pub fn rem(a: u64, b: u64) -> u64
    ensures { result ≡ rem_of 64 a b }
{
    if b == 0 {
        return a;
    }
    with_sign(is_below_zero(a), magnitude(a) % magnitude(b))
}

/// The remainder of two unsigned numbers: REMU. It is `a` for a division by 0.
pub fn remu(a: u64, b: u64) -> u64
    ensures { result ≡ remu_of a b }
{
    if b == 0 { a } else { a % b }
}

/// The same signed number in 64 bits.
fn wide(a: u32) -> u64
    ensures { result ≡ widened 32 64 a }
{
    sext(u64::from(a), 32)
}

/// The low 32 bits.
fn low(a: u64) -> u32
    ensures { result ≡ a % 2 ^ 32 }
{
    (a % (1 << 32)) as u32
}

/// As `div`, on 32 bits: DIVW before its sign extension.
pub fn div32(a: u32, b: u32) -> u32
    ensures { result ≡ div_of 32 a b }
{
    low(div(wide(a), wide(b)))
}

/// As `divu`, on 32 bits: DIVUW before its sign extension.
pub fn divu32(a: u32, b: u32) -> u32
    ensures { result ≡ divu_of 32 a b }
{
    low(divu(u64::from(a), u64::from(b)))
}

/// As `rem`, on 32 bits: REMW before its sign extension.
pub fn rem32(a: u32, b: u32) -> u32
    ensures { result ≡ rem_of 32 a b }
{
    low(rem(wide(a), wide(b)))
}

/// As `remu`, on 32 bits: REMUW before its sign extension.
pub fn remu32(a: u32, b: u32) -> u32
    ensures { result ≡ remu_of a b }
{
    low(remu(u64::from(a), u64::from(b)))
}
