//! Accesses and CSRs, by the manual and the profile of CSRs. The words are those of another assembler.

use super::LEAST;

/// The word, x1, x2, the loaded number with its length, x3, and the stored number with its address
/// and length.
pub const ACCESSES: [(
    u32,
    u64,
    u64,
    (u64, u8),
    Option<u64>,
    Option<(u64, u64, u8)>,
); 33] = [
    // lb x3,0(x1)
    (
        0x8183,
        0x8000_1000,
        0,
        (0x80, 1),
        Some(0xffff_ffff_ffff_ff80),
        None,
    ),
    // lbu x3,0(x1)
    (0xc183, 0x8000_1000, 0, (0x80, 1), Some(0x80), None),
    // lh x3,1(x1)
    (
        0x10_9183,
        0x8000_1000,
        0,
        (0x8000, 2),
        Some(0xffff_ffff_ffff_8000),
        None,
    ),
    // lhu x3,0(x1)
    (0xd183, 0x8000_1000, 0, (0x8000, 2), Some(0x8000), None),
    // lw x3,-4(x1)
    (
        0xffc0_a183,
        0x8000_1004,
        0,
        (0x8000_0000, 4),
        Some(0xffff_ffff_8000_0000),
        None,
    ),
    // lwu x3,0(x1)
    (
        0xe183,
        0x8000_1000,
        0,
        (0x8000_0000, 4),
        Some(0x8000_0000),
        None,
    ),
    // lw x3,0(x1)
    (
        0xa183,
        0x8000_1000,
        0,
        (0x7fff_ffff, 4),
        Some(0x7fff_ffff),
        None,
    ),
    // ld x3,0(x1)
    (0xb183, 0x8000_1ff8, 0, (LEAST, 8), Some(LEAST), None),
    // lw x0,0(x1)
    (0xa003, 0x8000_1000, 0, (5, 4), None, None),
    // sb x2,0(x1)
    (
        0x20_8023,
        0x8000_1fff,
        0x1234,
        (0, 0),
        None,
        Some((0x8000_1fff, 0x34, 1)),
    ),
    // sh x2,1(x1)
    (
        0x20_90a3,
        0x8000_1000,
        0x123_4567,
        (0, 0),
        None,
        Some((0x8000_1001, 0x4567, 2)),
    ),
    // sw x2,-8(x1)
    (
        0xfe20_ac23,
        0x8000_1008,
        0xdead_beef_8000_0001,
        (0, 0),
        None,
        Some((0x8000_1000, 0x8000_0001, 4)),
    ),
    // sd x2,0(x1)
    (
        0x20_b023,
        0x8000_1000,
        0x123_4567_89ab_cdef,
        (0, 0),
        None,
        Some((0x8000_1000, 0x123_4567_89ab_cdef, 8)),
    ),
    // lr.w x3,(x1)
    (
        0x1000_a1af,
        0x8000_1000,
        0,
        (0x8000_0000, 4),
        Some(0xffff_ffff_8000_0000),
        None,
    ),
    // lr.d x3,(x1)
    (
        0x1000_b1af,
        0x8000_1000,
        0,
        (0x8000_0000_0000_0001, 8),
        Some(0x8000_0000_0000_0001),
        None,
    ),
    // amoswap.w x3,x2,(x1)
    (
        0x820_a1af,
        0x8000_1000,
        0xdead_beef_0000_0001,
        (0x8000_0000, 4),
        Some(0xffff_ffff_8000_0000),
        Some((0x8000_1000, 1, 4)),
    ),
    // amoswap.d x3,x2,(x1)
    (
        0x820_b1af,
        0x8000_1000,
        0xdead_beef_0000_0001,
        (0x8000_0000_0000_0000, 8),
        Some(0x8000_0000_0000_0000),
        Some((0x8000_1000, 0xdead_beef_0000_0001, 8)),
    ),
    // amoadd.w x3,x2,(x1)
    (
        0x20_a1af,
        0x8000_1000,
        0xdead_beef_7fff_ffff,
        (1, 4),
        Some(1),
        Some((0x8000_1000, 0x8000_0000, 4)),
    ),
    // amoadd.d x3,x2,(x1)
    (
        0x20_b1af,
        0x8000_1000,
        u64::MAX,
        (1, 8),
        Some(1),
        Some((0x8000_1000, 0, 8)),
    ),
    // amoxor.w x3,x2,(x1)
    (
        0x2020_a1af,
        0x8000_1000,
        0xdead_beef_0000_00ff,
        (0xf0f, 4),
        Some(0xf0f),
        Some((0x8000_1000, 0xff0, 4)),
    ),
    // amoand.d x3,x2,(x1)
    (
        0x6020_b1af,
        0x8000_1000,
        0xdead_beef_0000_0000,
        (u64::MAX, 8),
        Some(u64::MAX),
        Some((0x8000_1000, 0xdead_beef_0000_0000, 8)),
    ),
    // amoor.w x3,x2,(x1)
    (
        0x4020_a1af,
        0x8000_1000,
        0xdead_beef_0000_0000,
        (0x8000_0000, 4),
        Some(0xffff_ffff_8000_0000),
        Some((0x8000_1000, 0x8000_0000, 4)),
    ),
    // amoxor.d x3,x2,(x1)
    (
        0x2020_b1af,
        0x8000_1000,
        0xff00_ff00_ff00_ff00,
        (0x0ff0_0ff0_0ff0_0ff0, 8),
        Some(0x0ff0_0ff0_0ff0_0ff0),
        Some((0x8000_1000, 0xf0f0_f0f0_f0f0_f0f0, 8)),
    ),
    // amoand.w x3,x2,(x1)
    (
        0x6020_a1af,
        0x8000_1000,
        0x7fff_ffff_f0f0_f0f0,
        (0xff00_ff00, 4),
        Some(0xffff_ffff_ff00_ff00),
        Some((0x8000_1000, 0xf000_f000, 4)),
    ),
    // amoor.d x3,x2,(x1)
    (
        0x4020_b1af,
        0x8000_1000,
        0x8000_0000_0000_0001,
        (0x0000_0001_8000_0000, 8),
        Some(0x0000_0001_8000_0000),
        Some((0x8000_1000, 0x8000_0001_8000_0001, 8)),
    ),
    // amomin.w x3,x2,(x1)
    (
        0x8020_a1af,
        0x8000_1000,
        0x7fff_ffff_8000_0000,
        (1, 4),
        Some(1),
        Some((0x8000_1000, 0x8000_0000, 4)),
    ),
    // amomax.w x3,x2,(x1)
    (
        0xa020_a1af,
        0x8000_1000,
        0x8000_0000,
        (1, 4),
        Some(1),
        Some((0x8000_1000, 1, 4)),
    ),
    // amominu.w x3,x2,(x1)
    (
        0xc020_a1af,
        0x8000_1000,
        0xdead_beef_8000_0000,
        (1, 4),
        Some(1),
        Some((0x8000_1000, 1, 4)),
    ),
    // amomaxu.w x3,x2,(x1)
    (
        0xe020_a1af,
        0x8000_1000,
        0xdead_beef_8000_0000,
        (1, 4),
        Some(1),
        Some((0x8000_1000, 0x8000_0000, 4)),
    ),
    // amomin.d x3,x2,(x1)
    (
        0x8020_b1af,
        0x8000_1000,
        LEAST,
        (1, 8),
        Some(1),
        Some((0x8000_1000, LEAST, 8)),
    ),
    // amomax.d x3,x2,(x1)
    (
        0xa020_b1af,
        0x8000_1000,
        LEAST,
        (1, 8),
        Some(1),
        Some((0x8000_1000, 1, 8)),
    ),
    // amominu.d x3,x2,(x1)
    (
        0xc020_b1af,
        0x8000_1000,
        LEAST,
        (1, 8),
        Some(1),
        Some((0x8000_1000, 1, 8)),
    ),
    // amomaxu.d x3,x2,(x1)
    (
        0xe020_b1af,
        0x8000_1000,
        LEAST,
        (1, 8),
        Some(1),
        Some((0x8000_1000, LEAST, 8)),
    ),
];

/// The word, x1, a CSR with its value before, the reported value, rd, and the CSR that is written.
pub const CSRS: [(
    u32,
    u64,
    (u16, u64),
    u64,
    Option<(u8, u64)>,
    Option<(u16, u64)>,
); 26] = [
    // csrrw x3,mscratch,x1
    (
        0x3400_91f3,
        7,
        (0x340, 5),
        0,
        Some((3, 5)),
        Some((0x340, 7)),
    ),
    // csrrw x0,mscratch,x1
    (0x3400_9073, 7, (0x340, 5), 0, None, Some((0x340, 7))),
    // csrrs x3,mscratch,x1
    (
        0x3400_a1f3,
        6,
        (0x340, 5),
        0,
        Some((3, 5)),
        Some((0x340, 7)),
    ),
    // csrrs x3,mscratch,x0
    (0x3400_21f3, 6, (0x340, 5), 0, Some((3, 5)), None),
    // csrrc x3,mscratch,x1
    (
        0x3400_b1f3,
        4,
        (0x340, 5),
        0,
        Some((3, 5)),
        Some((0x340, 1)),
    ),
    // csrrc x3,mscratch,x0
    (0x3400_31f3, 6, (0x340, 5), 0, Some((3, 5)), None),
    // csrrwi x3,mscratch,0
    (
        0x3400_51f3,
        0,
        (0x340, 5),
        0,
        Some((3, 5)),
        Some((0x340, 0)),
    ),
    // csrrsi x3,mscratch,10
    (
        0x3405_61f3,
        0,
        (0x340, 5),
        0,
        Some((3, 5)),
        Some((0x340, 0xf)),
    ),
    // csrrsi x3,mscratch,0
    (0x3400_61f3, 0, (0x340, 5), 0, Some((3, 5)), None),
    // csrrci x3,mscratch,1
    (
        0x3400_f1f3,
        0,
        (0x340, 5),
        0,
        Some((3, 5)),
        Some((0x340, 4)),
    ),
    // csrrci x3,mscratch,0
    (0x3400_71f3, 0, (0x340, 5), 0, Some((3, 5)), None),
    // csrrw x1,mscratch,x1
    (
        0x3400_90f3,
        7,
        (0x340, 5),
        0,
        Some((1, 5)),
        Some((0x340, 7)),
    ),
    // csrrw x3,mstatus,x1
    (
        0x3000_91f3,
        u64::MAX,
        (0x300, 8),
        0,
        Some((3, 0x1808)),
        Some((0x300, 0x1888)),
    ),
    // csrrw x3,mie,x1
    (
        0x3040_91f3,
        u64::MAX,
        (0x304, u64::MAX),
        0,
        Some((3, 0x888)),
        Some((0x304, 0x888)),
    ),
    // csrrw x3,mtvec,x1
    (
        0x3050_91f3,
        0x8000_0103,
        (0x305, u64::MAX),
        0,
        Some((3, 0xffff_ffff_ffff_fffc)),
        Some((0x305, 0x8000_0100)),
    ),
    // csrrw x3,mepc,x1
    (
        0x3410_91f3,
        0x8000_0007,
        (0x341, 3),
        0,
        Some((3, 0)),
        Some((0x341, 0x8000_0004)),
    ),
    // csrrw x3,mcause,x1
    (
        0x3420_91f3,
        u64::MAX,
        (0x342, 2),
        0,
        Some((3, 2)),
        Some((0x342, u64::MAX)),
    ),
    // csrrw x3,mtval,x1
    (
        0x3430_91f3,
        u64::MAX,
        (0x343, 2),
        0,
        Some((3, 2)),
        Some((0x343, u64::MAX)),
    ),
    // csrrw x3,mip,x1
    (
        0x3440_91f3,
        u64::MAX,
        (0x340, 0),
        0,
        Some((3, 0)),
        Some((0x344, 0)),
    ),
    // csrrs x3,mip,x1
    (
        0x3440_a1f3,
        u64::MAX,
        (0x340, 0),
        0,
        Some((3, 0)),
        Some((0x344, 0)),
    ),
    // rdcycle x3
    (0xc000_21f3, 0, (0x340, 0), 0x63, Some((3, 0x63)), None),
    // rdtime x3
    (0xc010_21f3, 0, (0x340, 0), 0x62, Some((3, 0x62)), None),
    // rdinstret x3
    (0xc020_21f3, 0, (0x340, 0), 0x61, Some((3, 0)), None),
    // csrr x3,mhartid
    (0xf140_21f3, 0, (0x340, 0), 0x60, Some((3, 3)), None),
    // rdcycle x0
    (0xc000_2073, 0, (0x340, 0), 0x63, None, None),
    // csrrsi x3,cycle,0
    (0xc000_61f3, 0, (0x340, 0), 0x63, Some((3, 0x63)), None),
];
