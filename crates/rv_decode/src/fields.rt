//! The fields of a word (section 2.2).

ghost use Rattle.rv_decode.specs.Decoding.{aq_bit, rl_bit};
ghost use Rattle.std.specs.Prelude.{◌≡◌, pos};
ghost use Rattle.rv_decode.specs.Formats.{part, bit_of};

/// The opcode, bits 6:0.
pub fn opcode(word: u32) -> u32
    ensures { result ≡ part word 6 0 }
{
    word & 0x7F
}

/// The number of rd, bits 11:7.
pub fn rd(word: u32) -> u8
    ensures { result ≡ part word 11 7 }
{
    (word >> 7 & 0x1F) as u8
}

/// funct3, bits 14:12.
pub fn funct3(word: u32) -> u32
    ensures { result ≡ part word 14 12 }
{
    word >> 12 & 0x7
}

/// The number of rs1, bits 19:15.
pub fn rs1(word: u32) -> u8
    ensures { result ≡ part word 19 15 }
{
    (word >> 15 & 0x1F) as u8
}

/// The number of rs2, bits 24:20.
pub fn rs2(word: u32) -> u8
    ensures { result ≡ part word 24 20 }
{
    (word >> 20 & 0x1F) as u8
}

/// funct7, bits 31:25.
pub fn funct7(word: u32) -> u32
    ensures { result ≡ part word 31 25 }
{
    word >> 25
}

/// funct6, bits 31:26, of a shift on 64 bits.
pub fn funct6(word: u32) -> u32
    ensures { result ≡ part word 31 26 }
{
    word >> 26
}

/// funct5, bits 31:27, of an atomic instruction.
pub fn funct5(word: u32) -> u32
    ensures { result ≡ part word 31 27 }
{
    word >> 27
}

/// The shift amount of 6 bits.
pub fn amount(word: u32) -> i64
    ensures { result ≡ pos (part word 25 20) }
{
    i64::from(word >> 20 & 0x3F)
}

/// Acquire, bit 26.
pub fn aq(word: u32) -> bool
    ensures { result ≡ aq_bit word }
{
    word >> 26 & 1 == 1
}

/// Release, bit 25.
pub fn rl(word: u32) -> bool
    ensures { result ≡ rl_bit word }
{
    word >> 25 & 1 == 1
}
