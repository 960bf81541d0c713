//! No mending.
use crate::tests::table::Kind::*;
use crate::tests::table::Step::*;
use crate::tests::table::Want::*;
use crate::tests::table::{GrownRow, InsnRow, L, OpRow, S, U, X, Y, Z};

pub static CASES: [GrownRow; 9] = [
    // the younger of two stores that overlap is performed first
    (0, 0, Start, Order(1, (0, 1, 0), (0, 2, 0))),
    // bytes of the older that the younger hasn't are performed: the pair goes on by the bytes that are left
    (1, 0, Stores(0), Order(1, (0, 1, 4), (0, 2, 0))),
    // they are performed too
    (2, 0, Stores(1), Order(1, (0, 1, 4), (0, 2, 0))),
    // a load more
    (3, 0, Insn(2), Order(1, (0, 1, 4), (0, 2, 0))),
    // a load got what a store of another hart has, which waits
    (4, 0, Start, Value((0, 1, 0), X, 0, 7)),
    // the store is performed above all
    (5, 0, Stores(4), Value((0, 1, 0), X, 0, 7)),
    // at a place that isn't above all it would mend the load
    (6, 0, StoresBelow(4), Legal),
    // a store of another hart came between an LR and its SC
    (7, 0, Start, Atomicity((0, 2, 0), X, (1, 1))),
    // a load more
    (8, 0, Insn(7), Atomicity((0, 2, 0), X, (1, 1))),
];

pub static INSNS: [InsnRow; 9] = [
    (0, 3, 0, 1, Sd, 0, 10, 12, false),
    (0, 3, 0, 2, Sw, 0, 11, 12, false),
    (3, 3, 0, 3, Lw, 5, 13, 0, false),
    (4, 6, 0, 1, Lw, 5, 10, 0, false),
    (4, 6, 1, 1, Sw, 0, 10, 12, false),
    (7, 8, 0, 1, Lr, 5, 10, 0, false),
    (7, 8, 0, 2, Sc, 7, 10, 12, true),
    (7, 8, 1, 1, Sw, 0, 10, 12, false),
    (8, 8, 1, 2, Lw, 5, 10, 0, false),
];

pub static OPS: [OpRow; 14] = [
    (0, 0, (0, 1, 0), S, (U, 8, 255), (0, 0x11), None),
    (1, 3, (0, 1, 0), S, (U, 8, 15), (0, 0x11), Some((2, 2, 2))),
    (1, 1, (0, 1, 4), S, (U, 8, 240), (0, 0), None),
    (2, 3, (0, 1, 4), S, (U, 8, 240), (0, 0), Some((3, 3, 3))),
    (0, 3, (0, 2, 0), S, (Y, 4, 15), (0, 5), Some((1, 1, 1))),
    (3, 3, (0, 3, 0), L, (Z, 4, 15), (0, 0), Some((4, 4, 4))),
    (4, 6, (0, 1, 0), L, (X, 4, 15), (7, 0), Some((5, 5, 5))),
    (4, 4, (1, 1, 0), S, (X, 4, 15), (0, 7), None),
    (5, 5, (1, 1, 0), S, (X, 4, 15), (0, 7), Some((6, 6, 6))),
    (6, 6, (1, 1, 0), S, (X, 4, 15), (0, 7), Some((3, 3, 3))),
    (7, 8, (0, 1, 0), L, (X, 4, 15), (0, 0), Some((1, 1, 1))),
    (7, 8, (0, 2, 0), S, (X, 4, 15), (0, 1), Some((5, 5, 5))),
    (7, 8, (1, 1, 0), S, (X, 4, 15), (0, 9), Some((3, 3, 3))),
    (8, 8, (1, 2, 0), L, (X, 4, 15), (1, 0), Some((6, 6, 6))),
];

pub static EARLY: [OpRow; 0] = [];
