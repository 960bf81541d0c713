//! The immediate of a word in each format (section 2.3).

ghost use Rattle.rv_decode.specs.Decoding.{i_imm, s_imm, b_imm, u_imm, j_imm};
ghost use Rattle.std.specs.Prelude.{◌≡◌, ◌+◌, ◌*◌, ◌^◌, ℤ};
ghost use Rattle.rv_decode.specs.Formats.{part, twos_complement, IsSigned, IsMultiple};

use crate::signed::represented;

/// The immediate of the I-type.
pub fn i_immediate(word: u32) -> i64
    ensures { result ≡ i_imm word }
{
    represented(12, word >> 20)
}

/// The immediate of the S-type.
pub fn s_immediate(word: u32) -> i64
    ensures { result ≡ s_imm word }
{
    represented(12, (word >> 25 << 5) + (word >> 7 & 0x1F))
}

/// The immediate of the B-type.
pub fn b_immediate(word: u32) -> i64
    ensures { result ≡ b_imm word }
{
    represented(
        13,
        (word >> 31 << 12)
            + ((word >> 7 & 1) << 11)
            + ((word >> 25 & 0x3F) << 5)
            + ((word >> 8 & 0xF) << 1),
    )
}

/// The immediate of the U-type.
pub fn u_immediate(word: u32) -> i64
    ensures { result ≡ u_imm word }
{
    represented(32, word >> 12 << 12)
}

/// The immediate of the J-type.
pub fn j_immediate(word: u32) -> i64
    ensures { result ≡ j_imm word }
{
    represented(
        21,
        (word >> 31 << 20)
            + ((word >> 12 & 0xFF) << 12)
            + ((word >> 20 & 1) << 11)
            + ((word >> 21 & 0x3FF) << 1),
    )
}
