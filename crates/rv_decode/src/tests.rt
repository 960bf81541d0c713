//! Words of another assembler, and words that are illegal.

use crate::{AmoOp, BranchOp, CsrOp, ImmOp, Insn, LoadOp, RegOp, StoreOp, decode, encode};
use std::process::Abort;

mod registers;

macro_rules! branch {
    ($op:ident, $rs1:literal, $rs2:literal, $imm:expr) => {
        Insn::Branch { op: BranchOp::$op, rs1: $rs1, rs2: $rs2, imm: $imm }
    };
}

macro_rules! load {
    ($op:ident, $rd:literal, $rs1:literal, $imm:expr) => {
        Insn::Load { op: LoadOp::$op, rd: $rd, rs1: $rs1, imm: $imm }
    };
}

macro_rules! store {
    ($op:ident, $rs1:literal, $rs2:literal, $imm:expr) => {
        Insn::Store { op: StoreOp::$op, rs1: $rs1, rs2: $rs2, imm: $imm }
    };
}

macro_rules! alu_imm {
    ($op:ident, $rd:literal, $rs1:literal, $imm:expr) => {
        Insn::AluImm { op: ImmOp::$op, rd: $rd, rs1: $rs1, imm: $imm }
    };
}

macro_rules! alu {
    ($op:ident, $rd:literal, $rs1:literal, $rs2:literal) => {
        Insn::Alu { op: RegOp::$op, rd: $rd, rs1: $rs1, rs2: $rs2 }
    };
}

macro_rules! csr {
    ($op:ident, $rd:literal, $source:literal, $number:literal) => {
        Insn::Csr { op: CsrOp::$op, rd: $rd, source: $source, number: $number }
    };
}

macro_rules! lr {
    ($wide:literal, $aq:literal, $rl:literal, $rd:literal, $rs1:literal) => {
        Insn::Lr { wide: $wide, aq: $aq, rl: $rl, rd: $rd, rs1: $rs1 }
    };
}

macro_rules! sc {
    ($wide:literal, $aq:literal, $rl:literal, $rd:literal, $rs1:literal, $rs2:literal) => {
        Insn::Sc { wide: $wide, aq: $aq, rl: $rl, rd: $rd, rs1: $rs1, rs2: $rs2 }
    };
}

macro_rules! amo {
    ($op:ident, $wide:literal, $aq:literal, $rl:literal, $rd:literal, $rs1:literal, $rs2:literal) => {
        Insn::Amo {
            op: AmoOp::$op,
            wide: $wide,
            aq: $aq,
            rl: $rl,
            rd: $rd,
            rs1: $rs1,
            rs2: $rs2,
        }
    };
}

// The words that GNU as makes of the lines of checks/mnemonics.s, and the fields written there.
const LISTED: [(u32, Insn); 175] = [
    (
        0x123450b7,
        Insn::Lui {
            rd: 1,
            imm: 0x12345000,
        },
    ),
    (
        0xffffffb7,
        Insn::Lui {
            rd: 31,
            imm: -0x1000,
        },
    ),
    (
        0x800002b7,
        Insn::Lui {
            rd: 5,
            imm: -0x80000000,
        },
    ),
    (0x00001117, Insn::Auipc { rd: 2, imm: 0x1000 }),
    (
        0xabcdef17,
        Insn::Auipc {
            rd: 30,
            imm: -0x54322000,
        },
    ),
    (0xfe9ff06f, Insn::Jal { rd: 0, imm: -24 }),
    (0x001000ef, Insn::Jal { rd: 1, imm: 2048 }),
    (
        0x7fffffef,
        Insn::Jal {
            rd: 31,
            imm: 1048574,
        },
    ),
    (
        0x8000016f,
        Insn::Jal {
            rd: 2,
            imm: -1048576,
        },
    ),
    (
        0x00008067,
        Insn::Jalr {
            rd: 0,
            rs1: 1,
            imm: 0,
        },
    ),
    (
        0x80080fe7,
        Insn::Jalr {
            rd: 31,
            rs1: 16,
            imm: -2048,
        },
    ),
    (
        0x7fff00e7,
        Insn::Jalr {
            rd: 1,
            rs1: 30,
            imm: 2047,
        },
    ),
    (0x00208263, branch!(Beq, 1, 2, 4)),
    (0x810f8063, branch!(Beq, 31, 16, -4096)),
    (0x7e419fe3, branch!(Bne, 3, 4, 4094)),
    (0xfff81fe3, branch!(Bne, 16, 31, -2)),
    (0x0062c0e3, branch!(Blt, 5, 6, 2048)),
    (0x811f40e3, branch!(Blt, 30, 17, -2048)),
    (0x0083df63, branch!(Bge, 7, 8, 30)),
    (0xff2ed0e3, branch!(Bge, 29, 18, -32)),
    (0x7ea4ef63, branch!(Bltu, 9, 10, 2046)),
    (0xff3e6f63, branch!(Bltu, 28, 19, -2050)),
    (0x00c5f863, branch!(Bgeu, 11, 12, 16)),
    (0xc14df0e3, branch!(Bgeu, 27, 20, -1024)),
    (0x00010083, load!(Lb, 1, 2, 0)),
    (0xfff80f83, load!(Lb, 31, 16, -1)),
    (0x7ff21183, load!(Lh, 3, 4, 2047)),
    (0x80089f03, load!(Lh, 30, 17, -2048)),
    (0x00432283, load!(Lw, 5, 6, 4)),
    (0xffc92e83, load!(Lw, 29, 18, -4)),
    (0x00053283, load!(Ld, 5, 10, 0)),
    (0xff89be03, load!(Ld, 28, 19, -8)),
    (0x00144383, load!(Lbu, 7, 8, 1)),
    (0xc00a4d83, load!(Lbu, 27, 20, -1024)),
    (0x40055483, load!(Lhu, 9, 10, 1024)),
    (0xffeadd03, load!(Lhu, 26, 21, -2)),
    (0x01066583, load!(Lwu, 11, 12, 16)),
    (0xff0b6c83, load!(Lwu, 25, 22, -16)),
    (0x00110fa3, store!(Sb, 2, 1, 31)),
    (0xfff80fa3, store!(Sb, 16, 31, -1)),
    (0x7e321fa3, store!(Sh, 4, 3, 2047)),
    (0x81e89023, store!(Sh, 17, 30, -2048)),
    (0x02532023, store!(Sw, 6, 5, 32)),
    (0xffd92023, store!(Sw, 18, 29, -32)),
    (0x0055b023, store!(Sd, 11, 5, 0)),
    (0xfdc9bfa3, store!(Sd, 19, 28, -33)),
    (0x00500093, alu_imm!(Addi, 1, 0, 5)),
    (0xfff80f93, alu_imm!(Addi, 31, 16, -1)),
    (0x7ff1a113, alu_imm!(Slti, 2, 3, 2047)),
    (0x8008af13, alu_imm!(Slti, 30, 17, -2048)),
    (0x0012b213, alu_imm!(Sltiu, 4, 5, 1)),
    (0xffe93e93, alu_imm!(Sltiu, 29, 18, -2)),
    (0x0ff3c313, alu_imm!(Xori, 6, 7, 255)),
    (0xfff9ce13, alu_imm!(Xori, 28, 19, -1)),
    (0x4004e413, alu_imm!(Ori, 8, 9, 1024)),
    (0xc00a6d93, alu_imm!(Ori, 27, 20, -1024)),
    (0x00f5f513, alu_imm!(Andi, 10, 11, 15)),
    (0xff0afd13, alu_imm!(Andi, 26, 21, -16)),
    (0x00011093, alu_imm!(Slli, 1, 2, 0)),
    (0x03f81f93, alu_imm!(Slli, 31, 16, 63)),
    (0x02025193, alu_imm!(Srli, 3, 4, 32)),
    (0x01f8df13, alu_imm!(Srli, 30, 17, 31)),
    (0x40135293, alu_imm!(Srai, 5, 6, 1)),
    (0x43e95e93, alu_imm!(Srai, 29, 18, 62)),
    (0x7ff1009b, alu_imm!(Addiw, 1, 2, 2047)),
    (0x80080f9b, alu_imm!(Addiw, 31, 16, -2048)),
    (0x0002119b, alu_imm!(Slliw, 3, 4, 0)),
    (0x01f89f1b, alu_imm!(Slliw, 30, 17, 31)),
    (0x0013529b, alu_imm!(Srliw, 5, 6, 1)),
    (0x01e95e9b, alu_imm!(Srliw, 29, 18, 30)),
    (0x4104539b, alu_imm!(Sraiw, 7, 8, 16)),
    (0x41f9de1b, alu_imm!(Sraiw, 28, 19, 31)),
    (0x003100b3, alu!(Add, 1, 2, 3)),
    (0x00880fb3, alu!(Add, 31, 16, 8)),
    (0x40628233, alu!(Sub, 4, 5, 6)),
    (0x40988f33, alu!(Sub, 30, 17, 9)),
    (0x009413b3, alu!(Sll, 7, 8, 9)),
    (0x00a91eb3, alu!(Sll, 29, 18, 10)),
    (0x00c5a533, alu!(Slt, 10, 11, 12)),
    (0x00b9ae33, alu!(Slt, 28, 19, 11)),
    (0x00f736b3, alu!(Sltu, 13, 14, 15)),
    (0x00ca3db3, alu!(Sltu, 27, 20, 12)),
    (0x0128c833, alu!(Xor, 16, 17, 18)),
    (0x00dacd33, alu!(Xor, 26, 21, 13)),
    (0x015a59b3, alu!(Srl, 19, 20, 21)),
    (0x00eb5cb3, alu!(Srl, 25, 22, 14)),
    (0x418bdb33, alu!(Sra, 22, 23, 24)),
    (0x40fbdc33, alu!(Sra, 24, 23, 15)),
    (0x01bd6cb3, alu!(Or, 25, 26, 27)),
    (0x010c6bb3, alu!(Or, 23, 24, 16)),
    (0x01eefe33, alu!(And, 28, 29, 30)),
    (0x011cfb33, alu!(And, 22, 25, 17)),
    (0x023100b3, alu!(Mul, 1, 2, 3)),
    (0x02880fb3, alu!(Mul, 31, 16, 8)),
    (0x02629233, alu!(Mulh, 4, 5, 6)),
    (0x02989f33, alu!(Mulh, 30, 17, 9)),
    (0x029423b3, alu!(Mulhsu, 7, 8, 9)),
    (0x02a92eb3, alu!(Mulhsu, 29, 18, 10)),
    (0x02c5b533, alu!(Mulhu, 10, 11, 12)),
    (0x02b9be33, alu!(Mulhu, 28, 19, 11)),
    (0x02f746b3, alu!(Div, 13, 14, 15)),
    (0x02ca4db3, alu!(Div, 27, 20, 12)),
    (0x0328d833, alu!(Divu, 16, 17, 18)),
    (0x02dadd33, alu!(Divu, 26, 21, 13)),
    (0x035a69b3, alu!(Rem, 19, 20, 21)),
    (0x02eb6cb3, alu!(Rem, 25, 22, 14)),
    (0x038bfb33, alu!(Remu, 22, 23, 24)),
    (0x02fbfc33, alu!(Remu, 24, 23, 15)),
    (0x003100bb, alu!(Addw, 1, 2, 3)),
    (0x00880fbb, alu!(Addw, 31, 16, 8)),
    (0x4062823b, alu!(Subw, 4, 5, 6)),
    (0x40988f3b, alu!(Subw, 30, 17, 9)),
    (0x009413bb, alu!(Sllw, 7, 8, 9)),
    (0x00a91ebb, alu!(Sllw, 29, 18, 10)),
    (0x00c5d53b, alu!(Srlw, 10, 11, 12)),
    (0x00b9de3b, alu!(Srlw, 28, 19, 11)),
    (0x40f756bb, alu!(Sraw, 13, 14, 15)),
    (0x40ca5dbb, alu!(Sraw, 27, 20, 12)),
    (0x0328883b, alu!(Mulw, 16, 17, 18)),
    (0x02da8d3b, alu!(Mulw, 26, 21, 13)),
    (0x035a49bb, alu!(Divw, 19, 20, 21)),
    (0x02eb4cbb, alu!(Divw, 25, 22, 14)),
    (0x038bdb3b, alu!(Divuw, 22, 23, 24)),
    (0x02fbdc3b, alu!(Divuw, 24, 23, 15)),
    (0x03bd6cbb, alu!(Remw, 25, 26, 27)),
    (0x030c6bbb, alu!(Remw, 23, 24, 16)),
    (0x03eefe3b, alu!(Remuw, 28, 29, 30)),
    (0x031cfb3b, alu!(Remuw, 22, 25, 17)),
    (
        0x0330000f,
        Insn::Fence {
            fm: 0,
            pred: 3,
            succ: 3,
            rd: 0,
            rs1: 0,
        },
    ),
    (
        0x0840000f,
        Insn::Fence {
            fm: 0,
            pred: 8,
            succ: 4,
            rd: 0,
            rs1: 0,
        },
    ),
    (
        0x0210000f,
        Insn::Fence {
            fm: 0,
            pred: 2,
            succ: 1,
            rd: 0,
            rs1: 0,
        },
    ),
    (
        0x8330000f,
        Insn::Fence {
            fm: 8,
            pred: 3,
            succ: 3,
            rd: 0,
            rs1: 0,
        },
    ),
    (
        0xfff3028f,
        Insn::Fence {
            fm: 15,
            pred: 15,
            succ: 15,
            rd: 5,
            rs1: 6,
        },
    ),
    (0x00000073, Insn::Ecall),
    (0x00100073, Insn::Ebreak),
    (0x30200073, Insn::Mret),
    (0x10500073, Insn::Wfi),
    (0x340110f3, csr!(Rw, 1, 2, 0x340)),
    (0x300f9073, csr!(Rw, 0, 31, 0x300)),
    (0xc00021f3, csr!(Rs, 3, 0, 0xc00)),
    (0x34482f73, csr!(Rs, 30, 16, 0x344)),
    (0x304332f3, csr!(Rc, 5, 6, 0x304)),
    (0xfff8bef3, csr!(Rc, 29, 17, 0xfff)),
    (0x341453f3, csr!(Rwi, 7, 8, 0x341)),
    (0x305fde73, csr!(Rwi, 28, 31, 0x305)),
    (0x300064f3, csr!(Rsi, 9, 0, 0x300)),
    (0x34286df3, csr!(Rsi, 27, 16, 0x342)),
    (0x300675f3, csr!(Rci, 11, 12, 0x300)),
    (0x8000fd73, csr!(Rci, 26, 1, 0x800)),
    (0x100120af, lr!(false, false, false, 1, 2)),
    (0x16082faf, lr!(false, true, true, 31, 16)),
    (0x100231af, lr!(true, false, false, 3, 4)),
    (0x1408bf2f, lr!(true, true, false, 30, 17)),
    (0x1863a2af, sc!(false, false, false, 5, 7, 6)),
    (0x1b242eaf, sc!(false, false, true, 29, 8, 18)),
    (0x1895342f, sc!(true, false, false, 8, 10, 9)),
    (0x1f34be2f, sc!(true, true, true, 28, 9, 19)),
    (0x0821a0af, amo!(Swap, false, false, false, 1, 3, 2)),
    (0x0d043faf, amo!(Swap, true, true, false, 31, 8, 16)),
    (0x0253222f, amo!(Add, false, false, true, 4, 6, 5)),
    (0x00c5332f, amo!(Add, true, false, false, 6, 10, 12)),
    (0x2084a3af, amo!(Xor, false, false, false, 7, 9, 8)),
    (0x27253eaf, amo!(Xor, true, true, true, 29, 10, 18)),
    (0x64b6252f, amo!(And, false, true, false, 10, 12, 11)),
    (0x6135be2f, amo!(And, true, false, false, 28, 11, 19)),
    (0x40e7a6af, amo!(Or, false, false, false, 13, 15, 14)),
    (0x43463daf, amo!(Or, true, false, true, 27, 12, 20)),
    (0x8719282f, amo!(Min, false, true, true, 16, 18, 17)),
    (0x8156bd2f, amo!(Min, true, false, false, 26, 13, 21)),
    (0xa14aa9af, amo!(Max, false, false, false, 19, 21, 20)),
    (0xa5673caf, amo!(Max, true, true, false, 25, 14, 22)),
    (0xc37c2b2f, amo!(Minu, false, false, true, 22, 24, 23)),
    (0xc177bc2f, amo!(Minu, true, false, false, 24, 15, 23)),
    (0xe1adacaf, amo!(Maxu, false, false, false, 25, 27, 26)),
    (0xe7883baf, amo!(Maxu, true, true, true, 23, 16, 24)),
];

// Words that differ from a listed one in few bits, and words of instructions that are left out.
const ILLEGAL: [(u32, &str); 51] = [
    (0x00000000, "all zero"),
    (0xffffffff, "all ones"),
    (0x003100b1, "ADD, opcode bit 1 clear"),
    (0x003100b2, "ADD, opcode bit 0 clear"),
    (0x00002007, "FLW"),
    (0x00009067, "JALR, funct3 001"),
    (0x0020a263, "BRANCH, funct3 010"),
    (0x0020b263, "BRANCH, funct3 011"),
    (0x00017083, "LOAD, funct3 111"),
    (0x00114fa3, "STORE, funct3 100"),
    (0x04011093, "SLLI, bit 26"),
    (0x40011093, "SLLI, bit 30"),
    (0x84025193, "SRLI, bits 31 and 26"),
    (0x80025193, "SRLI, bit 31"),
    (0xc0135293, "SRAI, bit 31"),
    (0x04135293, "SRLI, bit 26"),
    (0x06021193, "SLLI, bits 26 and 25"),
    (0x0002219b, "ADDIW, funct3 010"),
    (0x0202119b, "SLLIW, shift bit 5"),
    (0x0213529b, "SRLIW, shift bit 5"),
    (0x4304539b, "SRAIW, shift bit 5"),
    (0x4002119b, "SLLIW, bit 30"),
    (0x043100b3, "ADD, bit 26"),
    (0x803100b3, "ADD, bit 31"),
    (0x423100b3, "SUB, bit 25"),
    (0x409413b3, "SLL, bit 30"),
    (0x40c5a533, "SLT, bit 30"),
    (0x0031a0bb, "OP-32, funct3 010"),
    (0x003170bb, "OP-32, funct3 111"),
    (0x0230907b, "opcode 1111011"),
    (0x023110bb, "OP-32, funct7 0000001, funct3 001"),
    (0x409413bb, "SLLW, bit 30"),
    (0x0000100f, "FENCE.I"),
    (0x0330200f, "FENCE, funct3 010"),
    (0x101120af, "LR.W, rs2 1"),
    (0x11f231af, "LR.D, rs2 31"),
    (0x003100af, "AMO, funct3 000"),
    (0x003110af, "AMO, funct3 001"),
    (0x003140af, "AMO, funct3 100"),
    (0x283120af, "AMO, funct5 00101"),
    (0xf83120af, "AMO, funct5 11111"),
    (0x000000f3, "ECALL, rd 1"),
    (0x00008073, "ECALL, rs1 1"),
    (0x00200073, "URET"),
    (0x00108073, "EBREAK, rs1 1"),
    (0x10200073, "SRET"),
    (0x302000f3, "MRET, rd 1"),
    (0x30100073, "MRET, bits 21 and 20"),
    (0x10400073, "WFI, bit 20"),
    (0x12000073, "SFENCE.VMA"),
    (0x34014073, "SYSTEM, funct3 100"),
];

fn is_decoded_and_encoded(rt: &impl Abort, word: u32, insn: Insn) {
    match decode(word) {
        Some(found) => {
            assert_eq!(rt; found, insn, "at {word}");
            assert_eq!(rt; encode(&found), word);
        }
        None => assert!(rt; false, "{word} is legal"),
    }
}

fn all_are_decoded_and_encoded(rt: &impl Abort, listed: &[(u32, Insn)]) {
    for (word, insn) in listed {
        is_decoded_and_encoded(rt, *word, *insn);
    }
}

fn all_are_refused(rt: &impl Abort, words: &[(u32, &str)]) {
    for (word, what) in words {
        assert_eq!(rt; decode(*word), None, "{what}");
    }
}

#[test]
fn decodes_the_listed_words_and_encodes_them(rt: HostRuntime) {
    all_are_decoded_and_encoded(&rt, &LISTED);
}

#[test]
fn refuses_the_other_words(rt: HostRuntime) {
    all_are_refused(&rt, &ILLEGAL);
}
