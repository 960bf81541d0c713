//! Words from fields (sections 2.2 and 2.3).

ghost use Rattle.std.specs.Prelude.{◌≡◌, ◌<◌, ◌^◌, ℤ};
ghost use Rattle.rv_decode.specs.Formats.{twos_complement, IsSigned, IsMultiple, IsAmount, bit_of, r_type};
ghost use Rattle.rv_decode.specs.Formats.{i_type, s_type, b_type, u_type, j_type, shift_type, a_type, fence_type};

use crate::signed::twos_complement;

/// What every word but those of the formats U and J has in common.
fn low_word(rs1: u8, funct3: u32, rd: u8, opcode: u32) -> u32
    requires rs1 { rs1 < 2 ^ 5 }
    requires funct3 { funct3 < 2 ^ 3 }
    requires rd { rd < 2 ^ 5 }
    requires opcode { opcode < 2 ^ 7 }
    ensures value { result ≡ i_type 0 rs1 funct3 rd opcode }
    ensures fits { result < 2 ^ 20 }
{
    (u32::from(rs1) << 15) + (funct3 << 12) + (u32::from(rd) << 7) + opcode
}

/// A word of the R-type.
pub fn r_word(funct7: u32, rs2: u8, rs1: u8, funct3: u32, rd: u8, opcode: u32) -> u32
    requires funct7 { funct7 < 2 ^ 7 }
    requires rs2 { rs2 < 2 ^ 5 }
    requires rs1 { rs1 < 2 ^ 5 }
    requires funct3 { funct3 < 2 ^ 3 }
    requires rd { rd < 2 ^ 5 }
    requires opcode { opcode < 2 ^ 7 }
    ensures { result ≡ r_type funct7 rs2 rs1 funct3 rd opcode }
{
    (funct7 << 25) + (u32::from(rs2) << 20) + low_word(rs1, funct3, rd, opcode)
}

/// A word of the I-type.
pub fn i_word(imm: i64, rs1: u8, funct3: u32, rd: u8, opcode: u32) -> u32
    requires imm { IsSigned 12 imm }
    requires rs1 { rs1 < 2 ^ 5 }
    requires funct3 { funct3 < 2 ^ 3 }
    requires rd { rd < 2 ^ 5 }
    requires opcode { opcode < 2 ^ 7 }
    ensures { result ≡ i_type (twos_complement 12 imm) rs1 funct3 rd opcode }
{
    (twos_complement(12, imm) << 20) + low_word(rs1, funct3, rd, opcode)
}

/// The word of a shift on 64 bits by an immediate.
pub fn shift_word(funct6: u32, amount: i64, rs1: u8, funct3: u32, rd: u8, opcode: u32) -> u32
    requires funct6 { funct6 < 2 ^ 6 }
    requires amount { IsAmount 6 amount }
    requires rs1 { rs1 < 2 ^ 5 }
    requires funct3 { funct3 < 2 ^ 3 }
    requires rd { rd < 2 ^ 5 }
    requires opcode { opcode < 2 ^ 7 }
    ensures { result ≡ shift_type funct6 (twos_complement 6 amount) rs1 funct3 rd opcode }
{
    (funct6 << 26) + ((amount as u32) << 20) + low_word(rs1, funct3, rd, opcode)
}

/// A word of the S-type.
pub fn s_word(imm: i64, rs2: u8, rs1: u8, funct3: u32, opcode: u32) -> u32
    requires imm { IsSigned 12 imm }
    requires rs2 { rs2 < 2 ^ 5 }
    requires rs1 { rs1 < 2 ^ 5 }
    requires funct3 { funct3 < 2 ^ 3 }
    requires opcode { opcode < 2 ^ 7 }
    ensures { result ≡ s_type (twos_complement 12 imm) rs2 rs1 funct3 opcode }
{
    let n = twos_complement(12, imm);
    ((n >> 5) << 25)
        + (u32::from(rs2) << 20)
        + (u32::from(rs1) << 15)
        + (funct3 << 12)
        + ((n & 0x1F) << 7)
        + opcode
}

/// A word of the B-type.
pub fn b_word(imm: i64, rs2: u8, rs1: u8, funct3: u32, opcode: u32) -> u32
    requires imm { IsMultiple 13 1 imm }
    requires rs2 { rs2 < 2 ^ 5 }
    requires rs1 { rs1 < 2 ^ 5 }
    requires funct3 { funct3 < 2 ^ 3 }
    requires opcode { opcode < 2 ^ 7 }
    ensures { result ≡ b_type (twos_complement 13 imm) rs2 rs1 funct3 opcode }
{
    let n = twos_complement(13, imm);
    ((n >> 12) << 31)
        + ((n >> 5 & 0x3F) << 25)
        + (u32::from(rs2) << 20)
        + (u32::from(rs1) << 15)
        + (funct3 << 12)
        + ((n >> 1 & 0xF) << 8)
        + ((n >> 11 & 1) << 7)
        + opcode
}

/// A word of the U-type.
pub fn u_word(imm: i64, rd: u8, opcode: u32) -> u32
    requires imm { IsMultiple 32 12 imm }
    requires rd { rd < 2 ^ 5 }
    requires opcode { opcode < 2 ^ 7 }
    ensures { result ≡ u_type (twos_complement 32 imm) rd opcode }
{
    twos_complement(32, imm) + (u32::from(rd) << 7) + opcode
}

/// A word of the J-type.
pub fn j_word(imm: i64, rd: u8, opcode: u32) -> u32
    requires imm { IsMultiple 21 1 imm }
    requires rd { rd < 2 ^ 5 }
    requires opcode { opcode < 2 ^ 7 }
    ensures { result ≡ j_type (twos_complement 21 imm) rd opcode }
{
    let n = twos_complement(21, imm);
    ((n >> 20) << 31)
        + ((n >> 1 & 0x3FF) << 21)
        + ((n >> 11 & 1) << 20)
        + ((n >> 12 & 0xFF) << 12)
        + (u32::from(rd) << 7)
        + opcode
}

/// The word of an atomic instruction.
pub fn a_word(funct5: u32, aq: bool, rl: bool, rs2: u8, rs1: u8, funct3: u32, rd: u8) -> u32
    requires funct5 { funct5 < 2 ^ 5 }
    requires rs2 { rs2 < 2 ^ 5 }
    requires rs1 { rs1 < 2 ^ 5 }
    requires funct3 { funct3 < 2 ^ 3 }
    requires rd { rd < 2 ^ 5 }
    ensures { result ≡ a_type funct5 aq rl rs2 rs1 funct3 rd 0b0101111 }
{
    (funct5 << 27)
        + (u32::from(aq) << 26)
        + (u32::from(rl) << 25)
        + (u32::from(rs2) << 20)
        + low_word(rs1, funct3, rd, 0b0101111)
}

/// The word of a FENCE.
pub fn fence_word(fm: u8, pred: u8, succ: u8, rs1: u8, rd: u8) -> u32
    requires fm { fm < 2 ^ 4 }
    requires pred { pred < 2 ^ 4 }
    requires succ { succ < 2 ^ 4 }
    requires rs1 { rs1 < 2 ^ 5 }
    requires rd { rd < 2 ^ 5 }
    ensures { result ≡ fence_type fm pred succ rs1 0b000 rd 0b0001111 }
{
    (u32::from(fm) << 28)
        + (u32::from(pred) << 24)
        + (u32::from(succ) << 20)
        + low_word(rs1, 0b000, rd, 0b0001111)
}

/// The word of a CSR instruction.
pub fn csr_word(number: u16, source: u8, funct3: u32, rd: u8) -> u32
    requires number { number < 2 ^ 12 }
    requires source { source < 2 ^ 5 }
    requires funct3 { funct3 < 2 ^ 3 }
    requires rd { rd < 2 ^ 5 }
    ensures { result ≡ i_type number source funct3 rd 0b1110011 }
{
    (u32::from(number) << 20) + low_word(source, funct3, rd, 0b1110011)
}
