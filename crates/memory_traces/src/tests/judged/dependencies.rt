//! One case for each choice of dependencies and of FENCEs: which instructions have, carry and end
//! dependencies, and what the sets of a FENCE name.
use crate::tests::table::Kind::*;
use crate::tests::table::Want::*;
use crate::tests::table::{B, CaseRow, InsnRow, L, OpRow, S, X, Y};

/// Number, granule and answer.
pub static CASES: [CaseRow; 28] = [
    // the address of an AMO
    (0, 0, Order(9, (0, 1, 0), (0, 2, 0))),
    // the address of an LR
    (1, 0, Order(9, (0, 1, 0), (0, 2, 0))),
    // the address of a store
    (2, 0, Order(9, (0, 1, 0), (0, 2, 0))),
    // the data of an AMO
    (3, 0, Order(10, (0, 1, 0), (0, 2, 0))),
    // the data of an SC
    (4, 0, Order(10, (0, 1, 0), (0, 3, 0))),
    // the second register of a branch
    (5, 0, Order(11, (0, 1, 0), (0, 3, 0))),
    // a branch before an AMO
    (6, 0, Order(11, (0, 1, 0), (0, 3, 0))),
    // an LR starts a dependency
    (7, 0, Order(9, (0, 1, 0), (0, 2, 0))),
    // an AMO starts a dependency
    (8, 0, Order(9, (0, 1, 0), (0, 2, 0))),
    // a successful SC starts a dependency
    (9, 0, Order(9, (0, 2, 0), (0, 3, 0))),
    // an immediate form of arithmetic carries
    (10, 0, Order(9, (0, 1, 0), (0, 3, 0))),
    // AUIPC ends a chain
    (11, 0, Legal),
    // JAL ends a chain
    (12, 0, Legal),
    // JALR ends a chain
    (13, 0, Legal),
    // CSRRS carries its register to the CSR
    (14, 0, Order(9, (0, 1, 0), (0, 4, 0))),
    // CSRRS from x0 ends no chain
    (15, 0, Order(9, (0, 1, 0), (0, 5, 0))),
    // a CSR's old value isn't carried to the new one
    (16, 0, Legal),
    // an immediate is no register
    (17, 0, Legal),
    // an LR between parts the pair
    (18, 0, Pair((0, 3, 0))),
    // fm 1000 with other sets is an ordinary fence
    (19, 0, Order(4, (0, 1, 0), (0, 3, 0))),
    // another fm with both sets full is an ordinary fence
    (20, 0, Order(4, (0, 1, 0), (0, 3, 0))),
    // fence w,r after an AMO
    (21, 0, Order(4, (0, 1, 0), (0, 3, 0))),
    // fence r,r after an AMO
    (22, 0, Order(4, (0, 1, 0), (0, 3, 0))),
    // fence r,w before an AMO
    (23, 0, Order(4, (0, 1, 0), (0, 3, 0))),
    // fence r,r before an AMO
    (24, 0, Order(4, (0, 1, 0), (0, 3, 0))),
    // input names no load before
    (25, 0, Legal),
    // output names no store before
    (26, 0, Legal),
    // input names no load after
    (27, 0, Legal),
];

/// Case, hart, tag, kind, rd, rs1, rs2 or CSR, stored.
pub static INSNS: [InsnRow; 84] = [
    (0, 0, 0, 1, Lw, 5, 10, 0, false),
    (0, 0, 0, 2, Amoadd, 6, 5, 12, false),
    (1, 1, 0, 1, Lw, 5, 10, 0, false),
    (1, 1, 0, 2, Lr, 6, 5, 0, false),
    (2, 2, 0, 1, Lw, 5, 10, 0, false),
    (2, 2, 0, 2, Sw, 0, 5, 12, false),
    (3, 3, 0, 1, Lw, 5, 10, 0, false),
    (3, 3, 0, 2, Amoadd, 6, 11, 5, false),
    (4, 4, 0, 1, Lw, 5, 10, 0, false),
    (4, 4, 0, 2, Lr, 6, 11, 0, false),
    (4, 4, 0, 3, Sc, 7, 11, 5, true),
    (5, 5, 0, 1, Lw, 5, 10, 0, false),
    (5, 5, 0, 2, Beq, 0, 0, 5, false),
    (5, 5, 0, 3, Sw, 0, 11, 12, false),
    (6, 6, 0, 1, Lw, 5, 10, 0, false),
    (6, 6, 0, 2, Beq, 0, 5, 0, false),
    (6, 6, 0, 3, Amoadd, 6, 11, 12, false),
    (7, 7, 0, 1, Lr, 5, 10, 0, false),
    (7, 7, 0, 2, Lw, 6, 5, 0, false),
    (8, 8, 0, 1, Amoadd, 5, 10, 12, false),
    (8, 8, 0, 2, Lw, 6, 5, 0, false),
    (9, 9, 0, 1, Lr, 5, 10, 0, false),
    (9, 9, 0, 2, Sc, 7, 10, 12, true),
    (9, 9, 0, 3, Lw, 6, 7, 0, false),
    (10, 10, 0, 1, Lw, 5, 10, 0, false),
    (10, 10, 0, 2, Addi, 6, 5, 0, false),
    (10, 10, 0, 3, Lw, 7, 6, 0, false),
    (11, 11, 0, 1, Lw, 5, 10, 0, false),
    (11, 11, 0, 2, Auipc, 5, 0, 0, false),
    (11, 11, 0, 3, Lw, 6, 5, 0, false),
    (12, 12, 0, 1, Lw, 5, 10, 0, false),
    (12, 12, 0, 2, Jal, 5, 0, 0, false),
    (12, 12, 0, 3, Lw, 6, 5, 0, false),
    (13, 13, 0, 1, Lw, 5, 10, 0, false),
    (13, 13, 0, 2, Jalr, 5, 13, 0, false),
    (13, 13, 0, 3, Lw, 6, 5, 0, false),
    (14, 14, 0, 1, Lw, 5, 10, 0, false),
    (14, 14, 0, 2, Csrrs, 0, 5, 832, false),
    (14, 14, 0, 3, Csrrs, 6, 0, 832, false),
    (14, 14, 0, 4, Lw, 7, 6, 0, false),
    (15, 15, 0, 1, Lw, 5, 10, 0, false),
    (15, 15, 0, 2, Csrrw, 0, 5, 832, false),
    (15, 15, 0, 3, Csrrs, 6, 0, 832, false),
    (15, 15, 0, 4, Csrrs, 7, 0, 832, false),
    (15, 15, 0, 5, Lw, 8, 7, 0, false),
    (16, 16, 0, 1, Lw, 5, 10, 0, false),
    (16, 16, 0, 2, Csrrw, 0, 5, 832, false),
    (16, 16, 0, 3, Csrrs, 0, 12, 832, false),
    (16, 16, 0, 4, Csrrs, 6, 0, 832, false),
    (16, 16, 0, 5, Lw, 7, 6, 0, false),
    (17, 17, 0, 1, Lw, 5, 10, 0, false),
    (17, 17, 0, 2, Csrrwi, 0, 5, 832, false),
    (17, 17, 0, 3, Csrrs, 6, 0, 832, false),
    (17, 17, 0, 4, Lw, 7, 6, 0, false),
    (18, 18, 0, 1, Lr, 5, 10, 0, false),
    (18, 18, 0, 2, Lr, 6, 11, 0, false),
    (18, 18, 0, 3, Sc, 7, 10, 12, true),
    (19, 19, 0, 1, Sw, 0, 10, 12, false),
    (19, 19, 0, 2, Fence, 8, 3, 2, false),
    (19, 19, 0, 3, Lw, 6, 11, 0, false),
    (20, 20, 0, 1, Sw, 0, 10, 12, false),
    (20, 20, 0, 2, Fence, 1, 3, 3, false),
    (20, 20, 0, 3, Lw, 6, 11, 0, false),
    (21, 21, 0, 1, Amoadd, 5, 10, 12, false),
    (21, 21, 0, 2, Fence, 0, 1, 2, false),
    (21, 21, 0, 3, Lw, 6, 11, 0, false),
    (22, 22, 0, 1, Amoadd, 5, 10, 12, false),
    (22, 22, 0, 2, Fence, 0, 2, 2, false),
    (22, 22, 0, 3, Lw, 6, 11, 0, false),
    (23, 23, 0, 1, Lw, 5, 10, 0, false),
    (23, 23, 0, 2, Fence, 0, 2, 1, false),
    (23, 23, 0, 3, Amoadd, 6, 11, 12, false),
    (24, 24, 0, 1, Lw, 5, 10, 0, false),
    (24, 24, 0, 2, Fence, 0, 2, 2, false),
    (24, 24, 0, 3, Amoadd, 6, 11, 12, false),
    (25, 25, 0, 1, Lw, 5, 10, 0, false),
    (25, 25, 0, 2, Fence, 0, 8, 3, false),
    (25, 25, 0, 3, Lw, 6, 11, 0, false),
    (26, 26, 0, 1, Sw, 0, 10, 12, false),
    (26, 26, 0, 2, Fence, 0, 4, 3, false),
    (26, 26, 0, 3, Sw, 0, 11, 12, false),
    (27, 27, 0, 1, Lw, 5, 10, 0, false),
    (27, 27, 0, 2, Fence, 0, 3, 8, false),
    (27, 27, 0, 3, Lw, 6, 11, 0, false),
];

/// Case, name, kind, extent and mask, got and put, place.
pub static OPS: [OpRow; 59] = [
    (0, 0, (0, 1, 0), L, (X, 4, 15), (0, 0), Some((5, 6, 6))),
    (0, 0, (0, 2, 0), B, (Y, 4, 15), (0, 2), Some((4, 5, 5))),
    (1, 1, (0, 1, 0), L, (X, 4, 15), (0, 0), Some((5, 6, 6))),
    (1, 1, (0, 2, 0), L, (Y, 4, 15), (0, 0), Some((4, 5, 5))),
    (2, 2, (0, 1, 0), L, (X, 4, 15), (0, 0), Some((5, 6, 6))),
    (2, 2, (0, 2, 0), S, (Y, 4, 15), (0, 2), Some((4, 5, 5))),
    (3, 3, (0, 1, 0), L, (X, 4, 15), (0, 0), Some((5, 6, 6))),
    (3, 3, (0, 2, 0), B, (Y, 4, 15), (0, 2), Some((4, 5, 5))),
    (4, 4, (0, 1, 0), L, (X, 4, 15), (0, 0), Some((6, 7, 7))),
    (4, 4, (0, 2, 0), L, (Y, 4, 15), (0, 0), Some((4, 5, 5))),
    (4, 4, (0, 3, 0), S, (Y, 4, 15), (0, 3), Some((5, 6, 6))),
    (5, 5, (0, 1, 0), L, (X, 4, 15), (0, 0), Some((5, 6, 6))),
    (5, 5, (0, 3, 0), S, (Y, 4, 15), (0, 2), Some((4, 5, 5))),
    (6, 6, (0, 1, 0), L, (X, 4, 15), (0, 0), Some((5, 6, 6))),
    (6, 6, (0, 3, 0), B, (Y, 4, 15), (0, 2), Some((4, 5, 5))),
    (7, 7, (0, 1, 0), L, (X, 4, 15), (0, 0), Some((5, 6, 6))),
    (7, 7, (0, 2, 0), L, (Y, 4, 15), (0, 0), Some((4, 5, 5))),
    (8, 8, (0, 1, 0), B, (X, 4, 15), (0, 1), Some((5, 6, 6))),
    (8, 8, (0, 2, 0), L, (Y, 4, 15), (0, 0), Some((4, 5, 5))),
    (9, 9, (0, 1, 0), L, (X, 4, 15), (0, 0), Some((4, 5, 5))),
    (9, 9, (0, 2, 0), S, (X, 4, 15), (0, 2), Some((6, 7, 7))),
    (9, 9, (0, 3, 0), L, (Y, 4, 15), (0, 0), Some((5, 6, 6))),
    (10, 10, (0, 1, 0), L, (X, 4, 15), (0, 0), Some((5, 6, 6))),
    (10, 10, (0, 3, 0), L, (Y, 4, 15), (0, 0), Some((4, 5, 5))),
    (11, 11, (0, 1, 0), L, (X, 4, 15), (0, 0), Some((5, 6, 6))),
    (11, 11, (0, 3, 0), L, (Y, 4, 15), (0, 0), Some((4, 5, 5))),
    (12, 12, (0, 1, 0), L, (X, 4, 15), (0, 0), Some((5, 6, 6))),
    (12, 12, (0, 3, 0), L, (Y, 4, 15), (0, 0), Some((4, 5, 5))),
    (13, 13, (0, 1, 0), L, (X, 4, 15), (0, 0), Some((5, 6, 6))),
    (13, 13, (0, 3, 0), L, (Y, 4, 15), (0, 0), Some((4, 5, 5))),
    (14, 14, (0, 1, 0), L, (X, 4, 15), (0, 0), Some((5, 6, 6))),
    (14, 14, (0, 4, 0), L, (Y, 4, 15), (0, 0), Some((4, 5, 5))),
    (15, 15, (0, 1, 0), L, (X, 4, 15), (0, 0), Some((5, 6, 6))),
    (15, 15, (0, 5, 0), L, (Y, 4, 15), (0, 0), Some((4, 5, 5))),
    (16, 16, (0, 1, 0), L, (X, 4, 15), (0, 0), Some((5, 6, 6))),
    (16, 16, (0, 5, 0), L, (Y, 4, 15), (0, 0), Some((4, 5, 5))),
    (17, 17, (0, 1, 0), L, (X, 4, 15), (0, 0), Some((5, 6, 6))),
    (17, 17, (0, 4, 0), L, (Y, 4, 15), (0, 0), Some((4, 5, 5))),
    (18, 18, (0, 1, 0), L, (X, 4, 15), (0, 0), Some((4, 5, 5))),
    (18, 18, (0, 2, 0), L, (Y, 4, 15), (0, 0), Some((5, 6, 6))),
    (18, 18, (0, 3, 0), S, (X, 4, 15), (0, 3), Some((6, 7, 7))),
    (19, 19, (0, 1, 0), S, (X, 4, 15), (0, 1), Some((5, 6, 6))),
    (19, 19, (0, 3, 0), L, (Y, 4, 15), (0, 0), Some((4, 5, 5))),
    (20, 20, (0, 1, 0), S, (X, 4, 15), (0, 1), Some((5, 6, 6))),
    (20, 20, (0, 3, 0), L, (Y, 4, 15), (0, 0), Some((4, 5, 5))),
    (21, 21, (0, 1, 0), B, (X, 4, 15), (0, 1), Some((5, 6, 6))),
    (21, 21, (0, 3, 0), L, (Y, 4, 15), (0, 0), Some((4, 5, 5))),
    (22, 22, (0, 1, 0), B, (X, 4, 15), (0, 1), Some((5, 6, 6))),
    (22, 22, (0, 3, 0), L, (Y, 4, 15), (0, 0), Some((4, 5, 5))),
    (23, 23, (0, 1, 0), L, (X, 4, 15), (0, 0), Some((5, 6, 6))),
    (23, 23, (0, 3, 0), B, (Y, 4, 15), (0, 2), Some((4, 5, 5))),
    (24, 24, (0, 1, 0), L, (X, 4, 15), (0, 0), Some((5, 6, 6))),
    (24, 24, (0, 3, 0), B, (Y, 4, 15), (0, 2), Some((4, 5, 5))),
    (25, 25, (0, 1, 0), L, (X, 4, 15), (0, 0), Some((5, 6, 6))),
    (25, 25, (0, 3, 0), L, (Y, 4, 15), (0, 0), Some((4, 5, 5))),
    (26, 26, (0, 1, 0), S, (X, 4, 15), (0, 1), Some((5, 6, 6))),
    (26, 26, (0, 3, 0), S, (Y, 4, 15), (0, 2), Some((4, 5, 5))),
    (27, 27, (0, 1, 0), L, (X, 4, 15), (0, 0), Some((5, 6, 6))),
    (27, 27, (0, 3, 0), L, (Y, 4, 15), (0, 0), Some((4, 5, 5))),
];

/// The same of early stores.
pub static EARLY: [OpRow; 0] = [];
