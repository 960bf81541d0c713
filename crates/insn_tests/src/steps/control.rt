//! Jumps and traps, by the manual and the profile of traps. The words are those of another assembler.

use super::{LEAST, MOST};

/// The word, x1, x2, the next pc and rd.
pub const JUMPS: [(u32, u64, u64, u64, Option<(u8, u64)>); 24] = [
    // beq x1,x2,.+8
    (0x20_8463, 5, 5, 0x8000_0008, None),
    (0x20_8463, 5, 6, 0x8000_0004, None),
    // bne x1,x2,.-8
    (0xfe20_9ce3, 5, 5, 0x8000_0004, None),
    (0xfe20_9ce3, 5, 6, 0x7fff_fff8, None),
    // blt x1,x2,.+16
    (0x20_c863, LEAST, MOST, 0x8000_0010, None),
    (0x20_c863, MOST, LEAST, 0x8000_0004, None),
    (0x20_c863, 3, 3, 0x8000_0004, None),
    // bge x1,x2,.+16
    (0x20_d863, LEAST, MOST, 0x8000_0004, None),
    (0x20_d863, MOST, LEAST, 0x8000_0010, None),
    (0x20_d863, 3, 3, 0x8000_0010, None),
    // bltu x1,x2,.+16
    (0x20_e863, LEAST, MOST, 0x8000_0004, None),
    (0x20_e863, MOST, LEAST, 0x8000_0010, None),
    (0x20_e863, 3, 3, 0x8000_0004, None),
    // bgeu x1,x2,.+16
    (0x20_f863, LEAST, MOST, 0x8000_0010, None),
    (0x20_f863, MOST, LEAST, 0x8000_0004, None),
    (0x20_f863, 3, 3, 0x8000_0010, None),
    // jal x3,.+2048
    (0x10_01ef, 0, 0, 0x8000_0800, Some((3, 0x8000_0004))),
    // jal x0,.-24
    (0xfe9f_f06f, 0, 0, 0x7fff_ffe8, None),
    // jalr x3,1(x1)
    (
        0x10_81e7,
        0x8000_0100,
        0,
        0x8000_0100,
        Some((3, 0x8000_0004)),
    ),
    // jalr x1,-4(x1)
    (
        0xffc0_80e7,
        0x8000_0105,
        0,
        0x8000_0100,
        Some((1, 0x8000_0004)),
    ),
    // jalr x0,0(x1)
    (
        0x8067,
        0xffff_ffff_ffff_fffc,
        0,
        0xffff_ffff_ffff_fffc,
        None,
    ),
    // jalr x3,8(x1)
    (
        0x80_81e7,
        0xffff_ffff_ffff_fffc,
        0,
        4,
        Some((3, 0x8000_0004)),
    ),
    // fence rw,rw
    (0x330_000f, 0, 0, 0x8000_0004, None),
    // wfi
    (0x1050_0073, 0, 0, 0x8000_0004, None),
];

/// The word, x1, both settings, the cause and mtval.
pub const TRAPS: [(u32, u64, bool, bool, u8, u64); 34] = [
    // .word 0
    (0, 0, false, false, 2, 0),
    (0, 0, true, false, 2, 0),
    // .word 0xffffffff
    (0xffff_ffff, 0, true, true, 2, 0xffff_ffff),
    // csrr x3,0x301
    (0x3010_21f3, 0, false, false, 2, 0),
    (0x3010_21f3, 0, true, false, 2, 0x3010_21f3),
    // csrw cycle,x1
    (0xc000_9073, 0, true, false, 2, 0xc000_9073),
    // csrrs x3,mhartid,x1
    (0xf140_a1f3, 5, true, false, 2, 0xf140_a1f3),
    // csrrsi x3,instret,1
    (0xc020_e1f3, 0, false, false, 2, 0),
    // ebreak
    (0x10_0073, 0, true, true, 3, 0),
    // ecall
    (0x73, 0, true, true, 11, 0),
    // jal x3,.+6
    (0x60_01ef, 0, false, false, 0, 0x8000_0006),
    // jalr x3,3(x1)
    (0x30_81e7, 0x8000_0100, false, false, 0, 0x8000_0102),
    // beq x0,x0,.+6
    (0x363, 0, false, false, 0, 0x8000_0006),
    // lw x3,1(x1)
    (0x10_a183, 0x8000_1000, false, true, 4, 0x8000_1001),
    // ld x3,4(x1)
    (0x40_b183, 0x8000_1000, false, true, 4, 0x8000_1004),
    // sh x2,1(x1)
    (0x20_90a3, 0x8000_1000, false, true, 6, 0x8000_1001),
    // sd x2,4(x1)
    (0x20_b223, 0x8000_1000, false, true, 6, 0x8000_1004),
    // lw x3,1(x1)
    (0x10_a183, 0x9000_0000, false, true, 4, 0x9000_0001),
    (0x10_a183, 0x9000_0000, false, false, 5, 0x9000_0001),
    // lr.w x3,(x1)
    (0x1000_a1af, 0x8000_1002, false, false, 4, 0x8000_1002),
    // lr.d x3,(x1)
    (0x1000_b1af, 0x8000_1004, false, false, 4, 0x8000_1004),
    // sc.d x3,x2,(x1)
    (0x1820_b1af, 0x9000_0004, false, false, 6, 0x9000_0004),
    // sc.w x3,x2,(x1)
    (0x1820_a1af, 0x8000_1002, false, false, 6, 0x8000_1002),
    // amoadd.w x3,x2,(x1)
    (0x20_a1af, 0x8000_1002, false, false, 6, 0x8000_1002),
    // amoswap.d x3,x2,(x1)
    (0x820_b1af, 0x9000_0004, false, false, 6, 0x9000_0004),
    // lb x3,-1(x1)
    (0xfff0_8183, 0x8000_1000, false, false, 5, 0x8000_0fff),
    // ld x3,0(x1)
    (0xb183, 0x8000_1ffc, false, false, 5, 0x8000_1ffc),
    (
        0xb183,
        0xffff_ffff_ffff_fffc,
        false,
        false,
        5,
        0xffff_ffff_ffff_fffc,
    ),
    // sb x2,0(x1)
    (0x20_8023, 0x8000_2000, false, false, 7, 0x8000_2000),
    // sd x2,0(x1)
    (0x20_b023, 0x8000_1fff, false, false, 7, 0x8000_1fff),
    // sw x2,0(x1)
    (
        0x20_a023,
        0xffff_ffff_ffff_fffd,
        false,
        false,
        7,
        0xffff_ffff_ffff_fffd,
    ),
    // lr.d x3,(x1)
    (0x1000_b1af, 0x8000_2000, false, false, 5, 0x8000_2000),
    // sc.w x3,x2,(x1)
    (0x1820_a1af, 0x8000_2000, false, false, 7, 0x8000_2000),
    // amomax.d x3,x2,(x1)
    (0xa020_b1af, 0x7fff_fff8, false, false, 7, 0x7fff_fff8),
];
