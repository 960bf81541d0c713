//! Traces over memory that isn't all 0 at first: over memory that is all 7, and over an image of the
//! eight bytes "abcdefgh" from X up.
use crate::tests::table::Kind::{Ld, Lw, Sw};
use crate::tests::table::Want::{Legal, Value};
use crate::tests::table::{CaseRow, InsnRow, L, OpRow, S, X, Y};

/// Number, granule and answer, over memory that is all 7.
pub static SEVENS: [CaseRow; 3] = [
    // a load of the initial value
    (0, 0, Legal),
    // a load of 0 where no store is
    (1, 0, Value((0, 1, 0), X, 7, 0)),
    // a store to half of what is loaded
    (2, 0, Legal),
];

/// Number, granule and answer, over the image.
pub static LOADED: [CaseRow; 4] = [
    // a load inside the image, and a load of 0 outside it
    (3, 0, Legal),
    // a load of 0 inside the image
    (4, 0, Value((0, 1, 0), X, 0x61, 0)),
    // a load of 1 outside the image
    (5, 0, Value((0, 2, 0), Y, 0, 1)),
    // a load of the last bytes of the image and of those after it
    (6, 0, Legal),
];

pub static INSNS: [InsnRow; 6] = [
    (0, 1, 0, 1, Lw, 5, 10, 0, false),
    (2, 2, 0, 1, Sw, 0, 10, 12, false),
    (2, 2, 0, 2, Ld, 5, 10, 0, false),
    (3, 5, 0, 1, Lw, 5, 10, 0, false),
    (3, 5, 0, 2, Lw, 6, 11, 0, false),
    (6, 6, 0, 1, Ld, 5, 10, 0, false),
];

pub static OPS: [OpRow; 10] = [
    (
        0,
        0,
        (0, 1, 0),
        L,
        (X, 4, 15),
        (0x07070707, 0),
        Some((1, 1, 1)),
    ),
    (1, 1, (0, 1, 0), L, (X, 4, 15), (0, 0), Some((1, 1, 1))),
    (2, 2, (0, 1, 0), S, (X, 4, 15), (0, 0), Some((1, 1, 1))),
    (
        2,
        2,
        (0, 2, 0),
        L,
        (X, 8, 255),
        (0x0707070700000000, 0),
        Some((2, 2, 2)),
    ),
    (
        3,
        3,
        (0, 1, 0),
        L,
        (X, 4, 15),
        (0x64636261, 0),
        Some((1, 1, 1)),
    ),
    (3, 4, (0, 2, 0), L, (Y, 4, 15), (0, 0), Some((2, 2, 2))),
    (4, 4, (0, 1, 0), L, (X, 4, 15), (0, 0), Some((1, 1, 1))),
    (
        5,
        5,
        (0, 1, 0),
        L,
        (X, 4, 15),
        (0x64636261, 0),
        Some((1, 1, 1)),
    ),
    (5, 5, (0, 2, 0), L, (Y, 4, 15), (1, 0), Some((2, 2, 2))),
    (
        6,
        6,
        (0, 1, 0),
        L,
        (X + 4, 8, 255),
        (0x68676665, 0),
        Some((1, 1, 1)),
    ),
];

pub static EARLY: [OpRow; 0] = [];
