//! Place of the fault.
use crate::tests::table::Kind::*;
use crate::tests::table::Step::*;
use crate::tests::table::Want::*;
use crate::tests::table::{B, GrownRow, InsnRow, L, OpRow, S, S_RCPC, X, Y};

pub static CASES: [GrownRow; 25] = [
    // an early store more breaks nothing
    (0, 0, Start, Legal),
    (1, 0, Early(0), Legal),
    // nor does the AMO whose store it is, when it retires
    (2, 0, Insn(1), Legal),
    // at a place that isn't above all, an early store gives a load another source
    (3, 0, Start, Legal),
    (4, 0, EarlyBelow(3), Value((1, 1, 0), X, 5, 0)),
    // a load more, that got less than an older load of the byte
    (5, 0, Start, Legal),
    (6, 0, Insn(5), Order(2, (0, 1, 0), (0, 2, 0))),
    // a load more, that got a wrong byte
    (7, 0, Insn(5), Value((0, 2, 0), X, 7, 9)),
    // an SC more, with a store of another hart after its LR
    (8, 0, Start, Legal),
    (9, 0, Insn(8), Atomicity((0, 2, 0), X, (1, 1))),
    // an instruction that isn't the youngest breaks a pair with another one's operation second
    (10, 0, Start, Legal),
    (11, 0, InsnBetween(10), Order(2, (0, 1, 0), (0, 2, 0))),
    // one message performs the younger of two stores, then the older
    (12, 0, Start, Legal),
    (13, 0, Stores(12), Order(1, (0, 1, 0), (0, 2, 0))),
    // it performs the younger alone
    (14, 0, Stores(12), Order(1, (0, 1, 0), (0, 2, 0))),
    // and both in their order
    (15, 0, Stores(12), Legal),
    // three stores to one byte by one message, the youngest first: the least second, and the latest first
    (16, 0, Start, Legal),
    (17, 0, Stores(16), Order(1, (0, 1, 0), (0, 2, 0))),
    // a FENCE W,W between two stores, of which the younger is performed
    (18, 0, Start, Legal),
    (19, 0, Stores(18), Order(4, (0, 1, 0), (0, 3, 0))),
    // a release, performed before an older store
    (20, 0, Start, Legal),
    (21, 0, Stores(20), Order(6, (0, 1, 0), (0, 2, 0))),
    // a store of another hart, performed above two loads of its byte
    (22, 0, Start, Legal),
    (23, 0, Stores(22), Legal),
    // at a place that isn't above all it breaks a pair of another rule, with no operation performed by it
    (24, 0, StoresBelow(22), Order(2, (0, 1, 0), (0, 2, 0))),
];

pub static INSNS: [InsnRow; 23] = [
    (0, 2, 0, 1, Sw, 0, 10, 12, false),
    (2, 2, 0, 3, Amoadd, 6, 10, 12, false),
    (3, 4, 1, 1, Lw, 5, 10, 0, false),
    (5, 7, 1, 1, Sw, 0, 10, 12, false),
    (5, 7, 0, 1, Lw, 5, 10, 0, false),
    (6, 7, 0, 2, Lw, 6, 10, 0, false),
    (8, 9, 0, 1, Lr, 5, 10, 0, false),
    (9, 9, 0, 2, Sc, 7, 10, 12, true),
    (8, 9, 1, 1, Sw, 0, 10, 12, false),
    (10, 11, 1, 1, Sw, 0, 10, 12, false),
    (11, 11, 0, 1, Lw, 5, 10, 0, false),
    (10, 11, 0, 2, Lw, 6, 10, 0, false),
    (12, 17, 0, 1, Sw, 0, 10, 12, false),
    (12, 17, 0, 2, Sw, 0, 10, 11, false),
    (16, 17, 0, 3, Sw, 0, 10, 13, false),
    (18, 19, 0, 1, Sw, 0, 10, 12, false),
    (18, 19, 0, 2, Fence, 0, 1, 1, false),
    (18, 19, 0, 3, Sw, 0, 11, 12, false),
    (20, 21, 0, 1, Sw, 0, 10, 12, false),
    (20, 21, 0, 2, Sw, 0, 11, 12, false),
    (22, 24, 0, 1, Lw, 5, 10, 0, false),
    (22, 24, 0, 2, Lw, 6, 10, 0, false),
    (22, 24, 1, 1, Sw, 0, 10, 12, false),
];

pub static OPS: [OpRow; 38] = [
    (0, 2, (0, 1, 0), S, (X, 4, 15), (0, 1), Some((1, 1, 1))),
    (2, 2, (0, 3, 0), B, (X, 4, 15), (1, 5), Some((2, 2, 2))),
    (3, 4, (1, 1, 0), L, (X, 4, 15), (0, 0), Some((5, 5, 5))),
    (5, 7, (1, 1, 0), S, (X, 4, 15), (0, 7), Some((3, 3, 3))),
    (5, 7, (0, 1, 0), L, (X, 4, 15), (7, 0), Some((5, 5, 5))),
    (6, 6, (0, 2, 0), L, (X, 4, 15), (0, 0), Some((2, 2, 2))),
    (7, 7, (0, 2, 0), L, (X, 4, 15), (9, 0), Some((6, 6, 6))),
    (8, 9, (0, 1, 0), L, (X, 4, 15), (0, 0), Some((1, 1, 1))),
    (9, 9, (0, 2, 0), S, (X, 4, 15), (0, 1), Some((5, 5, 5))),
    (8, 9, (1, 1, 0), S, (X, 4, 15), (0, 9), Some((3, 3, 3))),
    (10, 11, (1, 1, 0), S, (X, 4, 15), (0, 7), Some((3, 3, 3))),
    (11, 11, (0, 1, 0), L, (X, 4, 15), (7, 0), Some((5, 5, 5))),
    (10, 11, (0, 2, 0), L, (X, 4, 15), (0, 0), Some((2, 2, 2))),
    (12, 12, (0, 1, 0), S, (X, 4, 15), (0, 1), None),
    (12, 12, (0, 2, 0), S, (X, 4, 15), (0, 2), None),
    (13, 13, (0, 2, 0), S, (X, 4, 15), (0, 2), Some((1, 5, 3))),
    (13, 13, (0, 1, 0), S, (X, 4, 15), (0, 1), Some((1, 5, 4))),
    (14, 14, (0, 2, 0), S, (X, 4, 15), (0, 2), Some((1, 5, 3))),
    (14, 14, (0, 1, 0), S, (X, 4, 15), (0, 1), None),
    (15, 15, (0, 1, 0), S, (X, 4, 15), (0, 1), Some((1, 5, 3))),
    (15, 15, (0, 2, 0), S, (X, 4, 15), (0, 2), Some((1, 5, 4))),
    (16, 16, (0, 1, 0), S, (X, 4, 15), (0, 1), None),
    (16, 16, (0, 2, 0), S, (X, 4, 15), (0, 2), None),
    (16, 16, (0, 3, 0), S, (X, 4, 15), (0, 3), None),
    (17, 17, (0, 3, 0), S, (X, 4, 15), (0, 3), Some((1, 9, 3))),
    (17, 17, (0, 2, 0), S, (X, 4, 15), (0, 2), Some((1, 9, 4))),
    (17, 17, (0, 1, 0), S, (X, 4, 15), (0, 1), Some((1, 9, 5))),
    (18, 19, (0, 1, 0), S, (X, 4, 15), (0, 1), None),
    (18, 18, (0, 3, 0), S, (Y, 4, 15), (0, 1), None),
    (19, 19, (0, 3, 0), S, (Y, 4, 15), (0, 1), Some((1, 1, 1))),
    (20, 21, (0, 1, 0), S_RCPC, (X, 4, 15), (0, 1), None),
    (20, 20, (0, 2, 0), S_RCPC, (Y, 4, 15), (0, 1), None),
    (
        21,
        21,
        (0, 2, 0),
        S_RCPC,
        (Y, 4, 15),
        (0, 1),
        Some((1, 1, 1)),
    ),
    (22, 24, (0, 1, 0), L, (X, 4, 15), (0, 0), Some((6, 6, 6))),
    (22, 24, (0, 2, 0), L, (X, 4, 15), (0, 0), Some((4, 4, 4))),
    (22, 22, (1, 1, 0), S, (X, 4, 15), (0, 0), None),
    (23, 23, (1, 1, 0), S, (X, 4, 15), (0, 0), Some((7, 7, 7))),
    (24, 24, (1, 1, 0), S, (X, 4, 15), (0, 0), Some((5, 5, 5))),
];

pub static EARLY: [OpRow; 3] = [
    (1, 1, (0, 3, 0), S, (X, 4, 15), (0, 5), Some((2, 2, 2))),
    (4, 4, (0, 1, 0), S, (X, 4, 15), (0, 5), Some((3, 3, 3))),
    (8, 8, (0, 2, 0), S, (X, 4, 15), (0, 1), Some((5, 5, 5))),
];
