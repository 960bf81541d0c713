//! Results of integer instructions, worked out with whole numbers of any size.

use super::{LEAST, MOST};

/// The word, as another assembler gives it, x1, x2, and what x3 is then.
pub const RESULTS: [(u32, u64, u64, u64); 126] = [
    // lui x3,0x80000
    (0x8000_01b7, 0, 0, 0xffff_ffff_8000_0000),
    // lui x3,0x7ffff
    (0x7fff_f1b7, 0, 0, 0x7fff_f000),
    // auipc x3,0xfffff
    (0xffff_f197, 0, 0, 0x7fff_f000),
    // auipc x3,1
    (0x1197, 0, 0, 0x8000_1000),
    // addi x3,x1,-1
    (0xfff0_8193, 0, 0, u64::MAX),
    (0xfff0_8193, 5, 0, 4),
    // addi x3,x1,-2048
    (0x8000_8193, LEAST, 0, 0x7fff_ffff_ffff_f800),
    // addi x3,x1,2047
    (0x7ff0_8193, u64::MAX, 0, 0x7fe),
    // slti x3,x1,-1
    (0xfff0_a193, 0xffff_ffff_ffff_fffe, 0, 1),
    (0xfff0_a193, u64::MAX, 0, 0),
    (0xfff0_a193, LEAST, 0, 1),
    // sltiu x3,x1,-1
    (0xfff0_b193, 0xffff_ffff_ffff_fffe, 0, 1),
    (0xfff0_b193, u64::MAX, 0, 0),
    // sltiu x3,x1,1
    (0x10_b193, 0, 0, 1),
    // xori x3,x1,-1
    (0xfff0_c193, 0xdead_beef_0000_0000, 0, 0x2152_4110_ffff_ffff),
    // ori x3,x1,-2048
    (0x8000_e193, 1, 0, 0xffff_ffff_ffff_f801),
    // andi x3,x1,-16
    (0xff00_f193, u64::MAX, 0, 0xffff_ffff_ffff_fff0),
    // slli x3,x1,0
    (0x9193, u64::MAX, 0, u64::MAX),
    // slli x3,x1,63
    (0x3f0_9193, 3, 0, LEAST),
    // srli x3,x1,63
    (0x3f0_d193, LEAST, 0, 1),
    // srai x3,x1,63
    (0x43f0_d193, LEAST, 0, u64::MAX),
    (0x43f0_d193, MOST, 0, 0),
    // srai x3,x1,31
    (0x41f0_d193, 0xffff_ffff_0000_0000, 0, 0xffff_ffff_ffff_fffe),
    // srli x3,x1,32
    (0x200_d193, 0xdead_beef_0000_0000, 0, 0xdead_beef),
    // addiw x3,x1,0
    (0x819b, 0xdead_beef_8000_0000, 0, 0xffff_ffff_8000_0000),
    (0x819b, 0xffff_ffff_7fff_ffff, 0, 0x7fff_ffff),
    // addiw x3,x1,-1
    (0xfff0_819b, 0x8000_0000, 0, 0x7fff_ffff),
    // slliw x3,x1,31
    (0x1f0_919b, 0xdead_beef_0000_0001, 0, 0xffff_ffff_8000_0000),
    // srliw x3,x1,0
    (0xd19b, 0x8000_0000, 0, 0xffff_ffff_8000_0000),
    // srliw x3,x1,31
    (0x1f0_d19b, 0xdead_beef_8000_0000, 0, 1),
    // sraiw x3,x1,31
    (0x41f0_d19b, 0xdead_beef_8000_0000, 0, u64::MAX),
    (0x41f0_d19b, 0xffff_ffff_7fff_ffff, 0, 0),
    // sraiw x3,x1,0
    (0x4000_d19b, 0x8000_0000, 0, 0xffff_ffff_8000_0000),
    // add x3,x1,x2
    (0x20_81b3, u64::MAX, 1, 0),
    (0x20_81b3, LEAST, LEAST, 0),
    // sub x3,x1,x2
    (0x4020_81b3, 0, 1, u64::MAX),
    (0x4020_81b3, LEAST, 1, MOST),
    // sll x3,x1,x2
    (0x20_91b3, 1, 0x3f, LEAST),
    (0x20_91b3, 1, 0x40, 1),
    (
        0x20_91b3,
        u64::MAX,
        0xffff_ffff_ffff_ffe0,
        0xffff_ffff_0000_0000,
    ),
    // slt x3,x1,x2
    (0x20_a1b3, LEAST, MOST, 1),
    (0x20_a1b3, MOST, LEAST, 0),
    (0x20_a1b3, 5, 5, 0),
    (0x20_a1b3, u64::MAX, 0xffff_ffff_ffff_fffe, 0),
    // sltu x3,x1,x2
    (0x20_b1b3, LEAST, MOST, 0),
    (0x20_b1b3, MOST, LEAST, 1),
    (0x20_b1b3, u64::MAX, 0, 0),
    // xor x3,x1,x2
    (
        0x20_c1b3,
        0xdead_beef_0000_0000,
        u64::MAX,
        0x2152_4110_ffff_ffff,
    ),
    // srl x3,x1,x2
    (0x20_d1b3, LEAST, 0x7f, 1),
    (0x20_d1b3, LEAST, 0x40, LEAST),
    // sra x3,x1,x2
    (0x4020_d1b3, LEAST, 0x7f, u64::MAX),
    (0x4020_d1b3, LEAST, 0x1_0000_0020, 0xffff_ffff_8000_0000),
    // or x3,x1,x2
    (0x20_e1b3, 0xf0f0, 0xf0f, 0xffff),
    // and x3,x1,x2
    (0x20_f1b3, 0xff00, 0xff0, 0xf00),
    // mul x3,x1,x2
    (0x220_81b3, u64::MAX, u64::MAX, 1),
    (0x220_81b3, LEAST, 2, 0),
    (0x220_81b3, 0x1_0000_0001, 0x1_0000_0001, 0x2_0000_0001),
    // mulh x3,x1,x2
    (0x220_91b3, u64::MAX, u64::MAX, 0),
    (0x220_91b3, LEAST, LEAST, 0x4000_0000_0000_0000),
    (0x220_91b3, LEAST, u64::MAX, 0),
    (0x220_91b3, u64::MAX, 1, u64::MAX),
    // mulhsu x3,x1,x2
    (0x220_a1b3, u64::MAX, u64::MAX, u64::MAX),
    (0x220_a1b3, LEAST, u64::MAX, LEAST),
    (0x220_a1b3, 1, u64::MAX, 0),
    (0x220_a1b3, LEAST, 1, u64::MAX),
    // mulhu x3,x1,x2
    (0x220_b1b3, u64::MAX, u64::MAX, 0xffff_ffff_ffff_fffe),
    (0x220_b1b3, LEAST, 2, 1),
    // div x3,x1,x2
    (0x220_c1b3, 7, 0, u64::MAX),
    (0x220_c1b3, 0xffff_ffff_ffff_fff9, 0, u64::MAX),
    (0x220_c1b3, LEAST, u64::MAX, LEAST),
    (0x220_c1b3, 0xffff_ffff_ffff_fff9, 2, 0xffff_ffff_ffff_fffd),
    (0x220_c1b3, 7, 0xffff_ffff_ffff_fffe, 0xffff_ffff_ffff_fffd),
    (0x220_c1b3, LEAST, LEAST, 1),
    // divu x3,x1,x2
    (0x220_d1b3, 7, 0, u64::MAX),
    (0x220_d1b3, 0xffff_ffff_ffff_fff9, 0, u64::MAX),
    (0x220_d1b3, LEAST, u64::MAX, 0),
    (0x220_d1b3, 0xffff_ffff_ffff_fff9, 2, 0x7fff_ffff_ffff_fffc),
    (0x220_d1b3, 7, 0xffff_ffff_ffff_fffe, 0),
    (0x220_d1b3, LEAST, LEAST, 1),
    // rem x3,x1,x2
    (0x220_e1b3, 7, 0, 7),
    (0x220_e1b3, 0xffff_ffff_ffff_fff9, 0, 0xffff_ffff_ffff_fff9),
    (0x220_e1b3, LEAST, u64::MAX, 0),
    (0x220_e1b3, 0xffff_ffff_ffff_fff9, 2, u64::MAX),
    (0x220_e1b3, 7, 0xffff_ffff_ffff_fffe, 1),
    (0x220_e1b3, LEAST, LEAST, 0),
    // remu x3,x1,x2
    (0x220_f1b3, 7, 0, 7),
    (0x220_f1b3, 0xffff_ffff_ffff_fff9, 0, 0xffff_ffff_ffff_fff9),
    (0x220_f1b3, LEAST, u64::MAX, LEAST),
    (0x220_f1b3, 0xffff_ffff_ffff_fff9, 2, 1),
    (0x220_f1b3, 7, 0xffff_ffff_ffff_fffe, 7),
    (0x220_f1b3, LEAST, LEAST, 0),
    // addw x3,x1,x2
    (0x20_81bb, 0xdead_beef_7fff_ffff, 1, 0xffff_ffff_8000_0000),
    // subw x3,x1,x2
    (0x4020_81bb, 0xdead_beef_0000_0000, 1, u64::MAX),
    (0x4020_81bb, 0x8000_0000, 0xdead_beef_0000_0001, 0x7fff_ffff),
    // sllw x3,x1,x2
    (
        0x20_91bb,
        0xdead_beef_0000_0001,
        0x1f,
        0xffff_ffff_8000_0000,
    ),
    (0x20_91bb, 1, 0x20, 1),
    (0x20_91bb, 1, 0x3f, 0xffff_ffff_8000_0000),
    // srlw x3,x1,x2
    (0x20_d1bb, 0xdead_beef_8000_0000, 0x1f, 1),
    (0x20_d1bb, 0x8000_0000, 0x20, 0xffff_ffff_8000_0000),
    (0x20_d1bb, 0xdead_beef_0000_0000, 1, 0),
    // sraw x3,x1,x2
    (0x4020_d1bb, 0xdead_beef_8000_0000, 0x1f, u64::MAX),
    (0x4020_d1bb, 0x8000_0000, 0xffff_ffe0, 0xffff_ffff_8000_0000),
    (0x4020_d1bb, 0x8000_0000_4000_0000, 0x1e, 1),
    // mulw x3,x1,x2
    (0x220_81bb, 0xdead_beef_ffff_ffff, 0xffff_ffff, 1),
    (
        0x220_81bb,
        0x8000_0000,
        0xdead_beef_0000_0001,
        0xffff_ffff_8000_0000,
    ),
    (0x220_81bb, 0x1_0000, 0x8000, 0xffff_ffff_8000_0000),
    // divw x3,x1,x2
    (
        0x220_c1bb,
        0xdead_beef_0000_0007,
        0xdead_beef_0000_0000,
        u64::MAX,
    ),
    (0x220_c1bb, 0xffff_fff9, 0, u64::MAX),
    (
        0x220_c1bb,
        0xdead_beef_8000_0000,
        0xffff_ffff,
        0xffff_ffff_8000_0000,
    ),
    (
        0x220_c1bb,
        0xffff_fff9,
        0xdead_beef_0000_0002,
        0xffff_ffff_ffff_fffd,
    ),
    (0x220_c1bb, 7, 0xffff_fffe, 0xffff_ffff_ffff_fffd),
    // divuw x3,x1,x2
    (
        0x220_d1bb,
        0xdead_beef_0000_0007,
        0xdead_beef_0000_0000,
        u64::MAX,
    ),
    (0x220_d1bb, 0xffff_fff9, 0, u64::MAX),
    (0x220_d1bb, 0xdead_beef_8000_0000, 0xffff_ffff, 0),
    (0x220_d1bb, 0xffff_fff9, 0xdead_beef_0000_0002, 0x7fff_fffc),
    (0x220_d1bb, 7, 0xffff_fffe, 0),
    // remw x3,x1,x2
    (0x220_e1bb, 0xdead_beef_0000_0007, 0xdead_beef_0000_0000, 7),
    (0x220_e1bb, 0xffff_fff9, 0, 0xffff_ffff_ffff_fff9),
    (0x220_e1bb, 0xdead_beef_8000_0000, 0xffff_ffff, 0),
    (0x220_e1bb, 0xffff_fff9, 0xdead_beef_0000_0002, u64::MAX),
    (0x220_e1bb, 7, 0xffff_fffe, 1),
    // remuw x3,x1,x2
    (0x220_f1bb, 0xdead_beef_0000_0007, 0xdead_beef_0000_0000, 7),
    (0x220_f1bb, 0xffff_fff9, 0, 0xffff_ffff_ffff_fff9),
    (
        0x220_f1bb,
        0xdead_beef_8000_0000,
        0xffff_ffff,
        0xffff_ffff_8000_0000,
    ),
    (0x220_f1bb, 0xffff_fff9, 0xdead_beef_0000_0002, 1),
    (0x220_f1bb, 7, 0xffff_fffe, 7),
];
