//! More traces that tell near readings of the definitions apart: what parts an LR from its SC, which
//! store an atomicity fault names, what an instruction carries to its destination, the fm of a FENCE,
//! and a store between two loads that isn't to the byte that both have.
use crate::tests::table::Kind::*;
use crate::tests::table::Want::*;
use crate::tests::table::{B, CaseRow, InsnRow, L, OpRow, S, X, Y, Z};

/// Number, granule and answer.
pub static CASES: [CaseRow; 14] = [
    // an AMO between LR and SC parts no pair
    (0, 0, Legal),
    // the store named is the last before the SC, and another comes after it
    (1, 0, Atomicity((0, 2, 0), X, (1, 1))),
    // csrrw carries the CSR to its register
    (2, 0, Order(9, (0, 1, 0), (0, 4, 0))),
    // csrrs carries the CSR to its register
    (3, 0, Order(9, (0, 1, 0), (0, 4, 0))),
    // csrrc carries the CSR to its register
    (4, 0, Order(9, (0, 1, 0), (0, 4, 0))),
    // csrrwi carries the CSR to its register
    (5, 0, Order(9, (0, 1, 0), (0, 4, 0))),
    // csrrsi carries the CSR to its register
    (6, 0, Order(9, (0, 1, 0), (0, 4, 0))),
    // csrrci carries the CSR to its register
    (7, 0, Order(9, (0, 1, 0), (0, 4, 0))),
    // a FENCE of fm 9 is no FENCE.TSO
    (8, 0, Order(4, (0, 1, 0), (0, 3, 0))),
    // a FENCE of fm 15 is no FENCE.TSO
    (9, 0, Order(4, (0, 1, 0), (0, 3, 0))),
    // two loads, and an own store to another byte of both between
    (10, 0, Order(2, (0, 1, 0), (0, 3, 0))),
    // an AMO carries no data to its register
    (11, 0, Order(10, (0, 1, 0), (0, 2, 0))),
    // an SC carries no data to its register
    (12, 0, Order(10, (0, 2, 0), (0, 3, 0))),
    // two loads, and an own early store under a tag between
    (13, 0, Order(2, (0, 1, 0), (0, 3, 0))),
];

pub static INSNS: [InsnRow; 51] = [
    (0, 0, 0, 1, Lr, 5, 10, 0, false),
    (0, 0, 0, 2, Amoadd, 6, 11, 12, false),
    (0, 0, 0, 3, Sc, 7, 10, 12, true),
    (1, 1, 0, 1, Lr, 5, 10, 0, false),
    (1, 1, 1, 1, Sw, 0, 10, 12, false),
    (1, 1, 0, 2, Sc, 7, 10, 12, true),
    (1, 1, 1, 2, Sw, 0, 10, 12, false),
    (2, 2, 0, 1, Lw, 5, 10, 0, false),
    (2, 2, 0, 2, Csrrw, 0, 5, 832, false),
    (2, 2, 0, 3, Csrrw, 6, 0, 832, false),
    (2, 2, 0, 4, Lw, 7, 6, 0, false),
    (3, 3, 0, 1, Lw, 5, 10, 0, false),
    (3, 3, 0, 2, Csrrw, 0, 5, 832, false),
    (3, 3, 0, 3, Csrrs, 6, 0, 832, false),
    (3, 3, 0, 4, Lw, 7, 6, 0, false),
    (4, 4, 0, 1, Lw, 5, 10, 0, false),
    (4, 4, 0, 2, Csrrw, 0, 5, 832, false),
    (4, 4, 0, 3, Csrrc, 6, 0, 832, false),
    (4, 4, 0, 4, Lw, 7, 6, 0, false),
    (5, 5, 0, 1, Lw, 5, 10, 0, false),
    (5, 5, 0, 2, Csrrw, 0, 5, 832, false),
    (5, 5, 0, 3, Csrrwi, 6, 0, 832, false),
    (5, 5, 0, 4, Lw, 7, 6, 0, false),
    (6, 6, 0, 1, Lw, 5, 10, 0, false),
    (6, 6, 0, 2, Csrrw, 0, 5, 832, false),
    (6, 6, 0, 3, Csrrsi, 6, 0, 832, false),
    (6, 6, 0, 4, Lw, 7, 6, 0, false),
    (7, 7, 0, 1, Lw, 5, 10, 0, false),
    (7, 7, 0, 2, Csrrw, 0, 5, 832, false),
    (7, 7, 0, 3, Csrrci, 6, 0, 832, false),
    (7, 7, 0, 4, Lw, 7, 6, 0, false),
    (8, 8, 0, 1, Sw, 0, 10, 12, false),
    (8, 8, 0, 2, Fence, 9, 3, 3, false),
    (8, 8, 0, 3, Lw, 6, 11, 0, false),
    (9, 9, 0, 1, Sw, 0, 10, 12, false),
    (9, 9, 0, 2, Fence, 15, 3, 3, false),
    (9, 9, 0, 3, Lw, 6, 11, 0, false),
    (10, 10, 0, 1, Ld, 5, 10, 0, false),
    (10, 10, 0, 2, Sw, 0, 11, 12, false),
    (10, 10, 0, 3, Ld, 6, 10, 0, false),
    (10, 10, 1, 1, Sw, 0, 10, 12, false),
    (11, 11, 0, 1, Lw, 5, 10, 0, false),
    (11, 11, 0, 2, Amoadd, 6, 11, 5, false),
    (11, 11, 0, 3, Lw, 7, 6, 0, false),
    (12, 12, 0, 1, Lr, 8, 11, 0, false),
    (12, 12, 0, 2, Lw, 5, 10, 0, false),
    (12, 12, 0, 3, Sc, 6, 11, 5, true),
    (12, 12, 0, 4, Lw, 7, 6, 0, false),
    (13, 13, 0, 1, Lw, 5, 10, 0, false),
    (13, 13, 0, 3, Lw, 6, 10, 0, false),
    (13, 13, 1, 1, Sw, 0, 10, 12, false),
];

pub static OPS: [OpRow; 25] = [
    (0, 0, (0, 1, 0), L, (X, 4, 15), (0, 0), Some((1, 1, 1))),
    (0, 0, (0, 2, 0), B, (Y, 4, 15), (0, 0), Some((2, 2, 2))),
    (0, 0, (0, 3, 0), S, (X, 4, 15), (0, 0), Some((3, 3, 3))),
    (1, 1, (0, 1, 0), L, (X, 4, 15), (0, 0), Some((1, 1, 1))),
    (1, 1, (1, 1, 0), S, (X, 4, 15), (0, 0), Some((2, 2, 2))),
    (1, 1, (0, 2, 0), S, (X, 4, 15), (0, 0), Some((3, 3, 3))),
    (1, 1, (1, 2, 0), S, (X, 4, 15), (0, 0), Some((4, 4, 4))),
    (2, 7, (0, 1, 0), L, (X, 4, 15), (0, 0), Some((2, 2, 2))),
    (2, 7, (0, 4, 0), L, (Y, 4, 15), (0, 0), Some((1, 1, 1))),
    (8, 9, (0, 1, 0), S, (X, 4, 15), (0, 0), None),
    (8, 9, (0, 3, 0), L, (Y, 4, 15), (0, 0), Some((1, 1, 1))),
    (10, 10, (0, 1, 0), L, (X, 8, 255), (1, 0), Some((3, 3, 3))),
    (10, 10, (0, 2, 0), S, (X + 4, 4, 15), (0, 0), None),
    (10, 10, (0, 3, 0), L, (X, 8, 255), (0, 0), Some((1, 1, 1))),
    (10, 10, (1, 1, 0), S, (X, 4, 15), (0, 1), Some((2, 2, 2))),
    (11, 11, (0, 1, 0), L, (X, 4, 15), (0, 0), Some((3, 3, 3))),
    (11, 11, (0, 2, 0), B, (Z, 4, 15), (0, 0), Some((1, 1, 1))),
    (11, 11, (0, 3, 0), L, (Y, 4, 15), (0, 0), Some((2, 2, 2))),
    (12, 12, (0, 1, 0), L, (Z, 4, 15), (0, 0), Some((1, 1, 1))),
    (12, 12, (0, 2, 0), L, (X, 4, 15), (0, 0), Some((4, 4, 4))),
    (12, 12, (0, 3, 0), S, (Z, 4, 15), (0, 0), Some((2, 2, 2))),
    (12, 12, (0, 4, 0), L, (Y, 4, 15), (0, 0), Some((3, 3, 3))),
    (13, 13, (0, 1, 0), L, (X, 4, 15), (1, 0), Some((3, 3, 3))),
    (13, 13, (0, 3, 0), L, (X, 4, 15), (0, 0), Some((1, 1, 1))),
    (13, 13, (1, 1, 0), S, (X, 4, 15), (0, 1), Some((2, 2, 2))),
];

pub static EARLY: [OpRow; 1] = [(13, 13, (0, 2, 0), S, (X, 4, 15), (0, 7), Some((5, 5, 5)))];
