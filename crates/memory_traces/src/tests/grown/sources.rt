//! Stable sources.
use crate::tests::table::Kind::*;
use crate::tests::table::Step::*;
use crate::tests::table::Want::*;
use crate::tests::table::{B, GrownRow, InsnRow, L, OpRow, S, X};

pub static CASES: [GrownRow; 10] = [
    // two stores of one hart that wait, and a load that reads the younger
    (0, 0, Start, Legal),
    // the younger is performed first: the load's source is the older now
    (1, 0, Stores(0), Value((0, 3, 0), X, 1, 2)),
    // the same with one value
    (2, 0, Start, Legal),
    // so that it is seen that a pair of rule 1 is broken
    (3, 0, Stores(2), Order(1, (0, 1, 0), (0, 2, 0))),
    // a load that reads what was there at first, and a store of another hart that waits
    (4, 0, Start, Legal),
    // the store is performed at a place that isn't above all: the load has another source
    (5, 0, StoresBelow(4), Value((0, 1, 0), X, 7, 0)),
    // the same with one value
    (6, 0, Start, Legal),
    // so that it is seen that no pair is broken
    (7, 0, StoresBelow(6), Legal),
    // two stores of one hart, a load that reads the younger, and an AMO of another hart
    (8, 0, Start, Legal),
    // one message performs the younger in two parts: the load's source is the older now
    (9, 0, Stores(8), Value((0, 3, 0), 4098, 1, 2)),
];

pub static INSNS: [InsnRow; 9] = [
    (0, 3, 0, 1, Sw, 0, 10, 12, false),
    (0, 3, 0, 2, Sw, 0, 10, 11, false),
    (0, 3, 0, 3, Lw, 5, 10, 0, false),
    (4, 7, 0, 1, Lw, 5, 10, 0, false),
    (4, 7, 1, 1, Sw, 0, 10, 12, false),
    (8, 9, 0, 1, Sw, 0, 10, 12, false),
    (8, 9, 0, 2, Sw, 0, 10, 11, false),
    (8, 9, 0, 3, Lw, 5, 10, 0, false),
    (8, 9, 1, 1, Amoadd, 5, 11, 12, false),
];

pub static OPS: [OpRow; 18] = [
    (0, 1, (0, 1, 0), S, (X, 4, 15), (0, 1), None),
    (2, 3, (0, 1, 0), S, (X, 4, 15), (0, 2), None),
    (0, 0, (0, 2, 0), S, (X, 4, 15), (0, 2), None),
    (1, 1, (0, 2, 0), S, (X, 4, 15), (0, 2), Some((2, 2, 2))),
    (2, 2, (0, 2, 0), S, (X, 4, 15), (0, 2), None),
    (3, 3, (0, 2, 0), S, (X, 4, 15), (0, 2), Some((2, 2, 2))),
    (0, 3, (0, 3, 0), L, (X, 4, 15), (2, 0), Some((1, 1, 1))),
    (4, 7, (0, 1, 0), L, (X, 4, 15), (0, 0), Some((5, 5, 5))),
    (4, 4, (1, 1, 0), S, (X, 4, 15), (0, 7), None),
    (5, 5, (1, 1, 0), S, (X, 4, 15), (0, 7), Some((3, 3, 3))),
    (6, 6, (1, 1, 0), S, (X, 4, 15), (0, 0), None),
    (7, 7, (1, 1, 0), S, (X, 4, 15), (0, 0), Some((3, 3, 3))),
    (8, 9, (0, 1, 0), S, (4098, 4, 15), (0, 1), None),
    (8, 8, (0, 2, 0), S, (4098, 4, 15), (0, 2), None),
    (9, 9, (0, 2, 0), S, (4098, 4, 3), (0, 2), Some((5, 5, 3))),
    (9, 9, (0, 2, 2), S, (4098, 4, 12), (0, 0), Some((5, 5, 4))),
    (8, 9, (0, 3, 0), L, (4098, 4, 15), (2, 0), Some((1, 1, 1))),
    (8, 9, (1, 1, 0), B, (8192, 4, 15), (0, 1), Some((2, 2, 2))),
];

pub static EARLY: [OpRow; 0] = [];
