//! The marks of each form of instruction, after loads of x5, x7 and x6 at the messages 10, 20 and 15, with x5 written
//! to mscratch before that of x6. They were worked out by another program from the same definitions.

/// The message of its own latest operation, 0 for none; the messages of six marks: of its address and its value, and
/// then those of control, of addresses that passed, of x6 and of mscratch; and the words.
pub type Form = (u32, [u32; 6], &'static [u32]);

pub const JUMPS: [Form; 7] = [
    // lui x6,1
    (0, [0, 0, 0, 0, 0, 10], &[0x0000_1337]),
    // auipc, jal x6,0
    (0, [0, 0, 0, 0, 0, 10], &[0x0000_0317, 0x0000_036f]),
    // jalr x6,0(x5)
    (0, [0, 0, 10, 0, 0, 10], &[0x0002_8367]),
    // jalr x0,0(x7)
    (0, [0, 0, 20, 0, 15, 10], &[0x0003_8067]),
    // jalr x6,0(x0)
    (0, [0, 0, 0, 0, 0, 10], &[0x0000_0367]),
    // lui x0,1
    (0, [0, 0, 0, 0, 15, 10], &[0x0000_1037]),
    // auipc, jal x0,0
    (0, [0, 0, 0, 0, 15, 10], &[0x0000_0017, 0x0000_006f]),
];

pub const BRANCHES: [Form; 4] = [
    // beq, bne, blt, bge, bltu, bgeu x5,x7,0
    (
        0,
        [0, 0, 20, 0, 15, 10],
        &[
            0x0072_8063,
            0x0072_9063,
            0x0072_c063,
            0x0072_d063,
            0x0072_e063,
            0x0072_f063,
        ],
    ),
    // beq x0,x5,0
    (0, [0, 0, 10, 0, 15, 10], &[0x0050_0063]),
    // beq x7,x0,0
    (0, [0, 0, 20, 0, 15, 10], &[0x0003_8063]),
    // bne x0,x0,0
    (0, [0, 0, 0, 0, 15, 10], &[0x0000_1063]),
];

pub const LOADS_AND_STORES: [Form; 6] = [
    // lb, lh, lw, ld, lbu, lhu, lwu x6,0(x5)
    (
        30,
        [10, 0, 0, 10, 30, 10],
        &[
            0x0002_8303,
            0x0002_9303,
            0x0002_a303,
            0x0002_b303,
            0x0002_c303,
            0x0002_d303,
            0x0002_e303,
        ],
    ),
    // lw x0,0(x5)
    (30, [10, 0, 0, 10, 15, 10], &[0x0002_a003]),
    // ld x6,0(x0)
    (30, [0, 0, 0, 0, 30, 10], &[0x0000_3303]),
    // sb, sh, sw, sd x7,0(x5)
    (
        0,
        [10, 20, 0, 10, 15, 10],
        &[0x0072_8023, 0x0072_9023, 0x0072_a023, 0x0072_b023],
    ),
    // sw x0,0(x7)
    (0, [20, 0, 0, 20, 15, 10], &[0x0003_a023]),
    // sw x5,0(x0)
    (0, [0, 10, 0, 0, 15, 10], &[0x0050_2023]),
];

pub const ARITHMETIC: [Form; 11] = [
    // addi, slti, sltiu, xori, ori, andi, slli, srli, srai, addiw, slliw, sraiw x6,x5,1
    (
        0,
        [0, 0, 0, 0, 10, 10],
        &[
            0x0012_8313,
            0x0012_a313,
            0x0012_b313,
            0x0012_c313,
            0x0012_e313,
            0x0012_f313,
            0x0012_9313,
            0x0012_d313,
            0x4012_d313,
            0x0012_831b,
            0x0012_931b,
            0x4012_d31b,
        ],
    ),
    // addi x0,x5,1
    (0, [0, 0, 0, 0, 15, 10], &[0x0012_8013]),
    // addi x6,x0,1
    (0, [0, 0, 0, 0, 0, 10], &[0x0010_0313]),
    // addi x6,x6,1
    (0, [0, 0, 0, 0, 15, 10], &[0x0013_0313]),
    // add, sll, slt, sltu, xor, srl, or, and, sub, sra, mul, mulh, mulhsu, mulhu, div, divu, rem, remu x6,x5,x7
    (
        0,
        [0, 0, 0, 0, 20, 10],
        &[
            0x0072_8333,
            0x0072_9333,
            0x0072_a333,
            0x0072_b333,
            0x0072_c333,
            0x0072_d333,
            0x0072_e333,
            0x0072_f333,
            0x4072_8333,
            0x4072_d333,
            0x0272_8333,
            0x0272_9333,
            0x0272_a333,
            0x0272_b333,
            0x0272_c333,
            0x0272_d333,
            0x0272_e333,
            0x0272_f333,
        ],
    ),
    // addw, sllw, srlw, subw, sraw, mulw, divw, divuw, remw, remuw x6,x7,x5
    (
        0,
        [0, 0, 0, 0, 20, 10],
        &[
            0x0053_833b,
            0x0053_933b,
            0x0053_d33b,
            0x4053_833b,
            0x4053_d33b,
            0x0253_833b,
            0x0253_c33b,
            0x0253_d33b,
            0x0253_e33b,
            0x0253_f33b,
        ],
    ),
    // add x6,x0,x5
    (0, [0, 0, 0, 0, 10, 10], &[0x0050_0333]),
    // add x6,x5,x0
    (0, [0, 0, 0, 0, 10, 10], &[0x0002_8333]),
    // add x0,x5,x7
    (0, [0, 0, 0, 0, 15, 10], &[0x0072_8033]),
    // add x6,x0,x0
    (0, [0, 0, 0, 0, 0, 10], &[0x0000_0333]),
    // add x6,x6,x5
    (0, [0, 0, 0, 0, 15, 10], &[0x0053_0333]),
];

pub const SYSTEM: [Form; 2] = [
    // fence rw,rw
    (0, [0, 0, 0, 0, 15, 10], &[0x0330_000f]),
    // fence.tso, ecall, ebreak, mret, wfi
    (
        0,
        [0, 0, 0, 0, 15, 10],
        &[
            0x8330_000f,
            0x0000_0073,
            0x0010_0073,
            0x3020_0073,
            0x1050_0073,
        ],
    ),
];

pub const CSRS: [Form; 27] = [
    // csrrw x6,mscratch,x7
    (0, [0, 0, 0, 0, 10, 20], &[0x3403_9373]),
    // csrrw x6,mscratch,x0
    (0, [0, 0, 0, 0, 10, 0], &[0x3400_1373]),
    // csrrw x0,mscratch,x7
    (0, [0, 0, 0, 0, 15, 20], &[0x3403_9073]),
    // csrrw x0,mscratch,x0
    (0, [0, 0, 0, 0, 15, 0], &[0x3400_1073]),
    // csrrs x6,mscratch,x7
    (0, [0, 0, 0, 0, 10, 20], &[0x3403_a373]),
    // csrrs x6,mscratch,x0
    (0, [0, 0, 0, 0, 10, 10], &[0x3400_2373]),
    // csrrs x0,mscratch,x7
    (0, [0, 0, 0, 0, 15, 20], &[0x3403_a073]),
    // csrrs x0,mscratch,x0
    (0, [0, 0, 0, 0, 15, 10], &[0x3400_2073]),
    // csrrc x6,mscratch,x7
    (0, [0, 0, 0, 0, 10, 20], &[0x3403_b373]),
    // csrrc x6,mscratch,x0
    (0, [0, 0, 0, 0, 10, 10], &[0x3400_3373]),
    // csrrc x0,mscratch,x7
    (0, [0, 0, 0, 0, 15, 20], &[0x3403_b073]),
    // csrrc x0,mscratch,x0
    (0, [0, 0, 0, 0, 15, 10], &[0x3400_3073]),
    // csrrwi x6,mscratch,7
    (0, [0, 0, 0, 0, 10, 0], &[0x3403_d373]),
    // csrrwi x6,mscratch,0
    (0, [0, 0, 0, 0, 10, 0], &[0x3400_5373]),
    // csrrwi x0,mscratch,7
    (0, [0, 0, 0, 0, 15, 0], &[0x3403_d073]),
    // csrrwi x0,mscratch,0
    (0, [0, 0, 0, 0, 15, 0], &[0x3400_5073]),
    // csrrsi x6,mscratch,7
    (0, [0, 0, 0, 0, 10, 0], &[0x3403_e373]),
    // csrrsi x6,mscratch,0
    (0, [0, 0, 0, 0, 10, 10], &[0x3400_6373]),
    // csrrsi x0,mscratch,7
    (0, [0, 0, 0, 0, 15, 0], &[0x3403_e073]),
    // csrrsi x0,mscratch,0
    (0, [0, 0, 0, 0, 15, 10], &[0x3400_6073]),
    // csrrci x6,mscratch,7
    (0, [0, 0, 0, 0, 10, 0], &[0x3403_f373]),
    // csrrci x6,mscratch,0
    (0, [0, 0, 0, 0, 10, 10], &[0x3400_7373]),
    // csrrci x0,mscratch,7
    (0, [0, 0, 0, 0, 15, 0], &[0x3403_f073]),
    // csrrci x0,mscratch,0
    (0, [0, 0, 0, 0, 15, 10], &[0x3400_7073]),
    // csrrw x6,mtval,x7
    (0, [0, 0, 0, 0, 0, 10], &[0x3433_9373]),
    // csrrs x6,cycle,x0
    (0, [0, 0, 0, 0, 0, 10], &[0xc000_2373]),
    // csrrw x6,mscratch,x6
    (0, [0, 0, 0, 0, 10, 15], &[0x3403_1373]),
];

pub const ATOMICS: [Form; 13] = [
    // lr.w x6,(x5)
    (30, [10, 0, 0, 10, 30, 10], &[0x1002_a32f]),
    // sc.w x6,x7,(x5)
    (30, [10, 20, 0, 10, 30, 10], &[0x1872_a32f]),
    // sc.w x6,x7,(x5), failed
    (0, [10, 20, 0, 10, 15, 10], &[0x1872_a32f]),
    // lr.d x6,(x5)
    (30, [10, 0, 0, 10, 30, 10], &[0x1002_b32f]),
    // sc.d x6,x7,(x5)
    (30, [10, 20, 0, 10, 30, 10], &[0x1872_b32f]),
    // sc.d x6,x7,(x5), failed
    (0, [10, 20, 0, 10, 15, 10], &[0x1872_b32f]),
    // lr.w x0,(x7)
    (30, [20, 0, 0, 20, 15, 10], &[0x1003_a02f]),
    // sc.w x0,x7,(x5)
    (30, [10, 20, 0, 10, 15, 10], &[0x1872_a02f]),
    // sc.w x6,x0,(x7), failed
    (0, [20, 0, 0, 20, 15, 10], &[0x1803_a32f]),
    // amoswap.w, amoadd.w, amoxor.w, amoor.w, amoand.w, amomin.w, amomax.w, amominu.w, amomaxu.w x6,x7,(x5)
    (
        30,
        [10, 20, 0, 10, 30, 10],
        &[
            0x0872_a32f,
            0x0072_a32f,
            0x2072_a32f,
            0x4072_a32f,
            0x6072_a32f,
            0x8072_a32f,
            0xa072_a32f,
            0xc072_a32f,
            0xe072_a32f,
        ],
    ),
    // amoadd.d x0,x7,(x5)
    (30, [10, 20, 0, 10, 15, 10], &[0x0072_b02f]),
    // amoswap.d x6,x0,(x7)
    (30, [20, 0, 0, 20, 30, 10], &[0x0803_b32f]),
    // amoswap.w x6,x5,(x0)
    (30, [0, 10, 0, 0, 30, 10], &[0x0850_232f]),
];
