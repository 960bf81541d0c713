//! Sign extension, and the high halves of products. Signed numbers are in two's complement.

ghost use Rattle.std.specs.Prelude.{◌≡◌, ◌≤◌};
ghost use Rattle.tandem_base.specs.Signs.{sign_extended, widened, is_negative};
ghost use Rattle.tandem_base.specs.Multiplication.{mulh_of, mulhu_of, mulhsu_of};

/// The lowest `bits` bits of `value`, from 1 to 64, sign-extended to 64 bits.
pub fn sext(value: u64, bits: u8) -> u64
    requires { (1 ≤ bits) × (bits ≤ 64) }
    ensures { result ≡ sign_extended bits value }
{
    if bits == 64 {
        return value;
    }
    let span = 1u64 << bits;
    let low = value % span;
    if low < span / 2 {
        low
    } else {
        low.wrapping_sub(span)
    }
}

/// Whether it stands for a number below 0.
pub(crate) fn is_below_zero(a: u64) -> bool
    ensures { result ≡ is_negative 64 a }
{
    a >= 1 << 63
}

/// The same signed number in 128 bits.
fn wide(a: u64) -> u128
    ensures { result ≡ widened 64 128 a }
{
    if is_below_zero(a) {
        u128::from(a) + ((1 << 127) - (1 << 64) + (1 << 127))
    } else {
        u128::from(a)
    }
}

/// The high 64 bits of the product of two signed numbers: MULH.
pub fn mulh(a: u64, b: u64) -> u64
    ensures { result ≡ mulh_of a b }
{
    (wide(a).wrapping_mul(wide(b)) >> 64) as u64
}

/// The high 64 bits of the product of two unsigned numbers: MULHU.
pub fn mulhu(a: u64, b: u64) -> u64
    ensures { result ≡ mulhu_of a b }
{
    (u128::from(a).wrapping_mul(u128::from(b)) >> 64) as u64
}

/// The high 64 bits of the product of the signed `a` and the unsigned `b`: MULHSU.
pub fn mulhsu(a: u64, b: u64) -> u64
    ensures { result ≡ mulhsu_of a b }
{
    (wide(a).wrapping_mul(u128::from(b)) >> 64) as u64
}
