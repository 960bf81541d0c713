//! Windows, and the hart of the reported pair.
use crate::tests::table::Kind::*;
use crate::tests::table::Step::*;
use crate::tests::table::Want::*;
use crate::tests::table::{GrownRow, InsnRow, L, OpRow, S, X, Y, Z};

pub static CASES: [GrownRow; 10] = [
    // a load, a store to its byte that is performed, and a FENCE W,R
    (0, 0, Start, Legal),
    // what comes is above the store, so both precede it
    (1, 0, Insn(0), Legal),
    // a load that comes below the store breaks a pair with it
    (2, 0, Insn(0), Order(4, (0, 2, 0), (0, 4, 0))),
    // a load, and a store of what it got, that is performed
    (3, 0, Start, Legal),
    // what comes above the store, and reads from it, is after the load too
    (4, 0, Insn(3), Legal),
    // what comes below both breaks a pair with the load
    (5, 0, Insn(3), Order(12, (0, 1, 0), (0, 3, 0))),
    // two stores of each of two harts, and the younger of hart 1 is performed: the pair of hart 1 is reported
    (6, 0, Start, Legal),
    (7, 0, Stores(6), Order(1, (1, 1, 0), (1, 2, 0))),
    // where a pair of hart 0 is broken before, that is reported, though hart 1 grows
    (8, 0, Start, Order(1, (0, 1, 0), (0, 2, 0))),
    (9, 0, Stores(8), Order(1, (0, 1, 0), (0, 2, 0))),
];

pub static INSNS: [InsnRow; 11] = [
    (0, 2, 0, 1, Lw, 5, 10, 0, false),
    (0, 2, 0, 2, Sw, 0, 10, 12, false),
    (0, 2, 0, 3, Fence, 0, 1, 2, false),
    (1, 2, 0, 4, Lw, 6, 11, 0, false),
    (3, 5, 0, 1, Lw, 5, 11, 0, false),
    (3, 5, 0, 2, Sw, 0, 10, 5, false),
    (4, 5, 0, 3, Lw, 6, 10, 0, false),
    (6, 9, 0, 1, Sw, 0, 10, 12, false),
    (6, 9, 0, 2, Sw, 0, 10, 11, false),
    (6, 9, 1, 1, Sw, 0, 11, 12, false),
    (6, 9, 1, 2, Sw, 0, 11, 10, false),
];

pub static OPS: [OpRow; 16] = [
    (0, 2, (0, 1, 0), L, (X, 4, 15), (0, 0), Some((1, 1, 1))),
    (0, 2, (0, 2, 0), S, (X, 4, 15), (0, 1), Some((2, 2, 2))),
    (1, 1, (0, 4, 0), L, (Y, 4, 15), (0, 0), Some((3, 3, 3))),
    (2, 2, (0, 4, 0), L, (Y, 4, 15), (0, 0), Some((1, 5, 5))),
    (3, 5, (0, 1, 0), L, (Z, 4, 15), (0, 0), Some((1, 1, 1))),
    (3, 5, (0, 2, 0), S, (X, 4, 15), (0, 0), Some((2, 2, 2))),
    (4, 4, (0, 3, 0), L, (X, 4, 15), (0, 0), Some((3, 3, 3))),
    (5, 5, (0, 3, 0), L, (X, 4, 15), (0, 0), Some((0, 1, 1))),
    (6, 9, (0, 1, 0), S, (X, 4, 15), (0, 1), None),
    (6, 7, (0, 2, 0), S, (X, 4, 15), (0, 2), None),
    (8, 9, (0, 2, 0), S, (X, 4, 15), (0, 2), Some((1, 1, 1))),
    (6, 9, (1, 1, 0), S, (Y, 4, 15), (0, 1), None),
    (6, 6, (1, 2, 0), S, (Y, 4, 15), (0, 2), None),
    (7, 7, (1, 2, 0), S, (Y, 4, 15), (0, 2), Some((2, 2, 2))),
    (8, 8, (1, 2, 0), S, (Y, 4, 15), (0, 2), None),
    (9, 9, (1, 2, 0), S, (Y, 4, 15), (0, 2), Some((2, 2, 2))),
];

pub static EARLY: [OpRow; 0] = [];
