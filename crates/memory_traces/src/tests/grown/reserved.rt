//! An LR and its SC under a block of 16 bytes, and a store of another hart to the block.
use crate::tests::table::Kind::*;
use crate::tests::table::Step::*;
use crate::tests::table::Want::*;
use crate::tests::table::{GrownRow, InsnRow, L, OpRow, S, V, X};

pub static CASES: [GrownRow; 13] = [
    // an LR, and a store of another hart that waits
    (0, 16, Start, Legal),
    // the store is performed
    (1, 16, Stores(0), Legal),
    // then the store of the SC
    (2, 16, Early(1), Legal),
    // the SC retires: the other store came between
    (3, 16, Insn(2), Atomicity((0, 2, 0), V, (1, 1))),
    // the store of the SC comes first
    (4, 16, Early(0), Legal),
    (5, 16, Stores(4), Legal),
    (6, 16, Insn(5), Legal),
    // the SC retires while the other store waits, which can then only come above all
    (7, 16, Insn(4), Legal),
    (8, 16, Stores(7), Legal),
    // at a place that isn't above all it breaks the pair
    (9, 16, StoresBelow(7), Atomicity((0, 2, 0), V, (1, 1))),
    // the SC fails: no operation more, and no pair
    (10, 16, Insn(1), Legal),
    // under a block of 8 bytes it breaks nothing there either
    (11, 8, Start, Legal),
    (12, 8, StoresBelow(11), Legal),
];

pub static INSNS: [InsnRow; 6] = [
    (0, 12, 0, 1, Lr, 5, 10, 0, false),
    (0, 12, 1, 1, Sw, 0, 11, 12, false),
    (3, 3, 0, 2, Sc, 7, 10, 12, true),
    (6, 9, 0, 2, Sc, 7, 10, 12, true),
    (10, 10, 0, 2, Sc, 7, 10, 12, false),
    (11, 12, 0, 2, Sc, 7, 10, 12, true),
];

pub static OPS: [OpRow; 14] = [
    (0, 12, (0, 1, 0), L, (X, 4, 15), (0, 0), Some((1, 1, 1))),
    (0, 0, (1, 1, 0), S, (V, 4, 15), (0, 9), None),
    (1, 3, (1, 1, 0), S, (V, 4, 15), (0, 9), Some((2, 2, 2))),
    (4, 4, (1, 1, 0), S, (V, 4, 15), (0, 9), None),
    (5, 6, (1, 1, 0), S, (V, 4, 15), (0, 9), Some((6, 6, 6))),
    (7, 7, (1, 1, 0), S, (V, 4, 15), (0, 9), None),
    (8, 8, (1, 1, 0), S, (V, 4, 15), (0, 9), Some((6, 6, 6))),
    (9, 9, (1, 1, 0), S, (V, 4, 15), (0, 9), Some((2, 2, 2))),
    (10, 10, (1, 1, 0), S, (V, 4, 15), (0, 9), Some((2, 2, 2))),
    (11, 11, (1, 1, 0), S, (V, 4, 15), (0, 9), None),
    (12, 12, (1, 1, 0), S, (V, 4, 15), (0, 9), Some((2, 2, 2))),
    (3, 3, (0, 2, 0), S, (X, 4, 15), (0, 1), Some((4, 4, 4))),
    (6, 9, (0, 2, 0), S, (X, 4, 15), (0, 1), Some((4, 4, 4))),
    (11, 12, (0, 2, 0), S, (X, 4, 15), (0, 1), Some((4, 4, 4))),
];

pub static EARLY: [OpRow; 2] = [
    (2, 2, (0, 2, 0), S, (X, 4, 15), (0, 1), Some((4, 4, 4))),
    (4, 5, (0, 2, 0), S, (X, 4, 15), (0, 1), Some((4, 4, 4))),
];
