//! Traces of forwarding, dependencies, parts and early stores.
use crate::tests::table::Kind::*;
use crate::tests::table::Want::*;
use crate::tests::table::{B, CaseRow, InsnRow, L, OpRow, S, S_RCPC, U, X, Y};

/// Number, granule and answer.
pub static CASES: [CaseRow; 24] = [
    // message passing without a fence
    (0, 0, Legal),
    // message passing, the stores fenced
    (1, 0, Order(4, (0, 1, 0), (0, 3, 0))),
    // store buffering
    (2, 0, Legal),
    // store buffering, fenced
    (3, 0, Order(4, (0, 1, 0), (0, 3, 0))),
    // two loads of one byte, the younger first
    (4, 0, Order(2, (1, 1, 0), (1, 2, 0))),
    // the same with a replay
    (5, 0, Legal),
    // a forwarded store
    (6, 0, Legal),
    // a load that isn't forwarded
    (7, 0, Value((0, 2, 0), 0x80001000, 1, 0)),
    // a load around an AMO that it reads
    (8, 0, Order(2, (0, 1, 0), (0, 2, 0))),
    // a load around an SC that it reads
    (9, 0, Order(3, (0, 2, 0), (0, 3, 0))),
    // a load whose address depends on a later one
    (10, 0, Order(9, (0, 1, 0), (0, 4, 0))),
    // an indirect jump carries nothing
    (11, 0, Legal),
    // a load from a store that depends on a later load
    (12, 0, Order(12, (0, 1, 0), (0, 3, 0))),
    // a misaligned load in two parts
    (17, 0, Legal),
    // two stores drained against program order
    (18, 0, Order(1, (0, 1, 0), (0, 2, 0))),
    // release-RCpc stores out of order
    (25, 0, Order(6, (0, 1, 0), (0, 2, 0))),
    // two loads with an own store between
    (26, 0, Legal),
    // an AMO reads an older store, and not itself
    (27, 0, Legal),
    // an early store is a source
    (28, 0, Legal),
    // an early store of the own hart
    (29, 0, Legal),
    // an early store of the own hart that comes later
    (30, 0, Value((0, 1, 0), 0x80001000, 0, 1)),
    // the latest first operation is named
    (37, 0, Order(1, (0, 2, 0), (0, 3, 0))),
    // three stores drained against program order
    (38, 0, Order(1, (0, 1, 0), (0, 2, 0))),
    // a misaligned store in two parts, one late
    (39, 0, Order(1, (0, 1, 4), (0, 2, 0))),
];

/// Case, hart, tag, kind, rd, rs1, rs2 or CSR, stored.
pub static INSNS: [InsnRow; 68] = [
    (0, 0, 0, 1, Sw, 0, 10, 12, false),
    (0, 0, 0, 2, Sw, 0, 11, 12, false),
    (0, 0, 1, 1, Lw, 5, 11, 0, false),
    (0, 0, 1, 2, Lw, 6, 10, 0, false),
    (1, 1, 0, 1, Sw, 0, 10, 12, false),
    (1, 1, 0, 2, Fence, 0, 1, 1, false),
    (1, 1, 0, 3, Sw, 0, 11, 12, false),
    (2, 2, 0, 1, Sw, 0, 10, 12, false),
    (2, 2, 0, 2, Lw, 5, 11, 0, false),
    (2, 2, 1, 1, Sw, 0, 11, 12, false),
    (2, 2, 1, 2, Lw, 6, 10, 0, false),
    (3, 3, 0, 1, Sw, 0, 10, 12, false),
    (3, 3, 0, 2, Fence, 0, 3, 3, false),
    (3, 3, 0, 3, Lw, 5, 11, 0, false),
    (4, 4, 0, 1, Sw, 0, 10, 12, false),
    (4, 4, 1, 1, Lw, 5, 10, 0, false),
    (4, 4, 1, 2, Lw, 6, 10, 0, false),
    (5, 5, 0, 1, Sw, 0, 10, 12, false),
    (5, 5, 1, 1, Lw, 5, 10, 0, false),
    (5, 5, 1, 2, Lw, 6, 10, 0, false),
    (6, 6, 0, 1, Sw, 0, 10, 12, false),
    (6, 6, 0, 2, Lw, 5, 10, 0, false),
    (7, 7, 0, 1, Sw, 0, 10, 12, false),
    (7, 7, 0, 2, Lw, 5, 10, 0, false),
    (8, 8, 0, 1, Amoadd, 5, 10, 12, false),
    (8, 8, 0, 2, Lw, 6, 10, 0, false),
    (9, 9, 0, 1, Lr, 5, 10, 0, false),
    (9, 9, 0, 2, Sc, 7, 10, 12, true),
    (9, 9, 0, 3, Lw, 6, 10, 0, false),
    (10, 10, 0, 1, Lw, 5, 10, 0, false),
    (10, 10, 0, 2, Xor, 6, 5, 5, false),
    (10, 10, 0, 3, Add, 7, 11, 6, false),
    (10, 10, 0, 4, Lw, 8, 7, 0, false),
    (11, 11, 0, 1, Lw, 5, 10, 0, false),
    (11, 11, 0, 2, Xor, 6, 5, 5, false),
    (11, 11, 0, 3, Auipc, 9, 0, 0, false),
    (11, 11, 0, 4, Add, 9, 9, 6, false),
    (11, 11, 0, 5, Jalr, 7, 9, 0, false),
    (11, 11, 0, 6, Xor, 7, 7, 7, false),
    (11, 11, 0, 7, Add, 7, 7, 11, false),
    (11, 11, 0, 8, Lw, 8, 7, 0, false),
    (12, 12, 0, 1, Lw, 5, 10, 0, false),
    (12, 12, 0, 2, Sw, 0, 11, 5, false),
    (12, 12, 0, 3, Lw, 6, 11, 0, false),
    (17, 17, 0, 1, Ld, 5, 10, 0, false),
    (17, 17, 1, 1, Sw, 0, 10, 12, false),
    (17, 17, 1, 2, Sw, 0, 11, 12, false),
    (18, 18, 0, 1, Sw, 0, 10, 12, false),
    (18, 18, 0, 2, Sw, 0, 10, 11, false),
    (25, 25, 0, 1, Sw, 0, 10, 12, false),
    (25, 25, 0, 2, Sw, 0, 11, 12, false),
    (26, 26, 0, 1, Lw, 5, 10, 0, false),
    (26, 26, 0, 2, Sw, 0, 10, 12, false),
    (26, 26, 0, 3, Lw, 6, 10, 0, false),
    (26, 26, 1, 1, Sw, 0, 10, 12, false),
    (27, 27, 0, 1, Amoadd, 5, 10, 12, false),
    (27, 27, 1, 1, Sw, 0, 10, 12, false),
    (28, 28, 1, 1, Lw, 5, 10, 0, false),
    (29, 29, 0, 1, Lw, 5, 10, 0, false),
    (30, 30, 0, 1, Lw, 5, 10, 0, false),
    (37, 37, 0, 1, Sw, 0, 10, 12, false),
    (37, 37, 0, 2, Sw, 0, 10, 12, false),
    (37, 37, 0, 3, Sw, 0, 10, 12, false),
    (38, 38, 0, 1, Sw, 0, 10, 12, false),
    (38, 38, 0, 2, Sw, 0, 10, 12, false),
    (38, 38, 0, 3, Sw, 0, 10, 12, false),
    (39, 39, 0, 1, Sd, 0, 10, 12, false),
    (39, 39, 0, 2, Sw, 0, 11, 12, false),
];

/// Case, name, kind, extent and mask, got and put, place.
pub static OPS: [OpRow; 60] = [
    (0, 0, (0, 1, 0), S, (X, 4, 15), (0, 1), Some((18, 19, 18))),
    (0, 0, (0, 2, 0), S, (Y, 4, 15), (0, 1), Some((12, 13, 12))),
    (0, 0, (1, 1, 0), L, (Y, 4, 15), (1, 0), Some((13, 14, 14))),
    (0, 0, (1, 2, 0), L, (X, 4, 15), (0, 0), Some((14, 15, 15))),
    (1, 1, (0, 1, 0), S, (X, 4, 15), (0, 1), None),
    (1, 1, (0, 3, 0), S, (Y, 4, 15), (0, 1), Some((13, 14, 13))),
    (2, 2, (0, 1, 0), S, (X, 4, 15), (0, 1), Some((16, 17, 16))),
    (2, 2, (0, 2, 0), L, (Y, 4, 15), (0, 0), Some((9, 10, 10))),
    (2, 2, (1, 1, 0), S, (Y, 4, 15), (0, 1), Some((18, 19, 18))),
    (2, 2, (1, 2, 0), L, (X, 4, 15), (0, 0), Some((10, 11, 11))),
    (3, 3, (0, 1, 0), S, (X, 4, 15), (0, 1), None),
    (3, 3, (0, 3, 0), L, (Y, 4, 15), (0, 0), Some((9, 10, 10))),
    (4, 4, (0, 1, 0), S, (X, 4, 15), (0, 1), Some((12, 13, 12))),
    (4, 4, (1, 1, 0), L, (X, 4, 15), (1, 0), Some((13, 14, 14))),
    (4, 4, (1, 2, 0), L, (X, 4, 15), (0, 0), Some((9, 10, 10))),
    (5, 5, (0, 1, 0), S, (X, 4, 15), (0, 1), Some((12, 13, 12))),
    (5, 5, (1, 1, 0), L, (X, 4, 15), (1, 0), Some((13, 14, 14))),
    (5, 5, (1, 2, 0), L, (X, 4, 15), (1, 0), Some((14, 15, 15))),
    (6, 6, (0, 1, 0), S, (X, 4, 15), (0, 1), None),
    (6, 6, (0, 2, 0), L, (X, 4, 15), (1, 0), Some((6, 7, 7))),
    (7, 7, (0, 1, 0), S, (X, 4, 15), (0, 1), None),
    (7, 7, (0, 2, 0), L, (X, 4, 15), (0, 0), Some((6, 7, 7))),
    (8, 8, (0, 1, 0), B, (X, 4, 15), (0, 1), Some((7, 8, 8))),
    (8, 8, (0, 2, 0), L, (X, 4, 15), (1, 0), Some((6, 7, 7))),
    (9, 9, (0, 1, 0), L, (X, 4, 15), (0, 0), Some((5, 6, 6))),
    (9, 9, (0, 2, 0), S, (X, 4, 15), (0, 1), Some((7, 8, 8))),
    (9, 9, (0, 3, 0), L, (X, 4, 15), (1, 0), Some((6, 7, 7))),
    (10, 10, (0, 1, 0), L, (X, 4, 15), (0, 0), Some((6, 7, 7))),
    (10, 10, (0, 4, 0), L, (Y, 4, 15), (0, 0), Some((5, 6, 6))),
    (11, 11, (0, 1, 0), L, (X, 4, 15), (0, 0), Some((6, 7, 7))),
    (11, 11, (0, 8, 0), L, (Y, 4, 15), (0, 0), Some((5, 6, 6))),
    (12, 12, (0, 1, 0), L, (X, 4, 15), (0, 0), Some((6, 7, 7))),
    (12, 12, (0, 2, 0), S, (Y, 4, 15), (0, 0), None),
    (12, 12, (0, 3, 0), L, (Y, 4, 15), (0, 0), Some((5, 6, 6))),
    (17, 17, (0, 1, 0), L, (U, 8, 15), (0, 0), Some((9, 10, 10))),
    (
        17,
        17,
        (0, 1, 4),
        L,
        (U, 8, 240),
        (0x100000000, 0),
        Some((14, 15, 15)),
    ),
    (17, 17, (1, 1, 0), S, (U, 4, 15), (0, 1), Some((12, 13, 13))),
    (17, 17, (1, 2, 0), S, (Y, 4, 15), (0, 1), Some((13, 14, 14))),
    (18, 18, (0, 1, 0), S, (X, 4, 15), (0, 1), Some((9, 10, 9))),
    (
        18,
        18,
        (0, 2, 0),
        S,
        (X, 4, 15),
        (0, 0x80001040),
        Some((9, 10, 8)),
    ),
    (25, 25, (0, 1, 0), S_RCPC, (X, 4, 15), (0, 1), None),
    (
        25,
        25,
        (0, 2, 0),
        S_RCPC,
        (Y, 4, 15),
        (0, 1),
        Some((12, 13, 12)),
    ),
    (26, 26, (0, 1, 0), L, (X, 4, 15), (1, 0), Some((8, 9, 9))),
    (26, 26, (0, 2, 0), S, (X, 4, 15), (0, 2), None),
    (26, 26, (0, 3, 0), L, (X, 4, 15), (2, 0), Some((6, 7, 7))),
    (26, 26, (1, 1, 0), S, (X, 4, 15), (0, 1), Some((7, 8, 8))),
    (27, 27, (0, 1, 0), B, (X, 4, 15), (1, 2), Some((7, 8, 8))),
    (27, 27, (1, 1, 0), S, (X, 4, 15), (0, 1), Some((5, 6, 6))),
    (28, 28, (1, 1, 0), L, (X, 4, 15), (1, 0), Some((7, 8, 8))),
    (29, 29, (0, 1, 0), L, (X, 4, 15), (1, 0), Some((8, 9, 9))),
    (30, 30, (0, 1, 0), L, (X, 4, 15), (1, 0), Some((7, 8, 8))),
    (37, 37, (0, 1, 0), S, (X, 4, 15), (0, 1), Some((7, 8, 8))),
    (37, 37, (0, 2, 0), S, (X, 4, 15), (0, 1), Some((8, 9, 9))),
    (37, 37, (0, 3, 0), S, (X, 4, 15), (0, 1), Some((6, 7, 7))),
    (38, 38, (0, 1, 0), S, (X, 4, 15), (0, 1), Some((9, 12, 11))),
    (38, 38, (0, 2, 0), S, (X, 4, 15), (0, 1), Some((9, 12, 10))),
    (38, 38, (0, 3, 0), S, (X, 4, 15), (0, 1), Some((9, 12, 9))),
    (39, 39, (0, 1, 0), S, (U, 8, 15), (0, 1), Some((6, 7, 7))),
    (39, 39, (0, 1, 4), S, (U, 8, 240), (0, 0x200000000), None),
    (39, 39, (0, 2, 0), S, (Y, 4, 15), (0, 3), Some((7, 8, 8))),
];

/// The same of early stores.
pub static EARLY: [OpRow; 3] = [
    (28, 28, (0, 9, 0), S, (X, 4, 15), (0, 1), Some((5, 6, 6))),
    (29, 29, (0, 9, 0), S, (X, 4, 15), (0, 1), Some((7, 8, 8))),
    (30, 30, (0, 9, 0), S, (X, 4, 15), (0, 1), Some((8, 9, 9))),
];
