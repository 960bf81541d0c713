//! Signed numbers in two's complement, of so many bits. The width comes first.

ghost use Rattle.std.specs.Prelude.{◌≡◌, ◌<◌, ◌≤◌, ◌^◌, true};
ghost use Rattle.tandem_base.specs.Signs.{represents};
ghost use Rattle.rv_decode.specs.Formats.{twos_complement, IsSigned};

/// The number that the bits stand for.
pub fn represented(bits: u8, n: u32) -> i64
    requires width { (1 ≤ bits) × (bits ≤ 32) }
    requires fits { n < 2 ^ bits }
    ensures { result ≡ represents bits n }
{
    let half = 1u64 << (bits - 1);
    if u64::from(n) < half {
        i64::from(n)
    } else {
        i64::from(n) - 2 * half as i64
    }
}

/// The bits that stand for the number.
pub fn twos_complement(bits: u8, imm: i64) -> u32
    requires width { (1 ≤ bits) × (bits ≤ 32) }
    requires fits { IsSigned bits imm }
    ensures value { result ≡ twos_complement bits imm }
    ensures fits { result < 2 ^ bits }
{
    if imm < 0 {
        let below = (-1 - imm) as u64;
        ((1u64 << bits) - 1 - below) as u32
    } else {
        imm as u32
    }
}
