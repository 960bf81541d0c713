//! An LR and an SC, and a store of another hart at different places: when it is performed, whether its
//! instruction has retired, and where it writes, under each granule.
use crate::tests::table::Kind::{Lr, Sc, Sd};
use crate::tests::table::{self, InsnRow, L, Lists, OpRow, S, Tables, Want, X, wanted};
use rvwmo_model::Judged;
use std::alloc::Global;
use std::test::Fail;

#[derive(Clone, Copy)]
pub enum When {
    Before,
    Between,
    After,
}

use When::{After, Before, Between};

/// When the store is performed, whether it is early, the granule, where the store begins, and the byte
/// at which the pair isn't atomic, if there is one; both count from a multiple of 64. The LR and the SC
/// have the eight bytes from 40 on.
pub type BlockRow = (When, bool, u8, u8, Option<u8>);

pub static CASES: [BlockRow; 50] = [
    (Between, false, 0, 0, None),
    (Between, false, 8, 0, None),
    (Between, false, 16, 0, None),
    (Between, false, 32, 0, None),
    (Between, false, 64, 0, Some(0)),
    (Between, false, 0, 28, None),
    (Between, false, 8, 28, None),
    (Between, false, 16, 28, Some(32)),
    (Between, false, 32, 28, Some(32)),
    (Between, false, 64, 28, Some(28)),
    (Between, false, 0, 32, None),
    (Between, false, 8, 32, None),
    (Between, false, 16, 32, Some(32)),
    (Between, false, 32, 32, Some(32)),
    (Between, false, 64, 32, Some(32)),
    (Between, false, 0, 40, Some(40)),
    (Between, false, 8, 40, Some(40)),
    (Between, false, 16, 40, Some(40)),
    (Between, false, 32, 40, Some(40)),
    (Between, false, 64, 40, Some(40)),
    (Between, false, 0, 48, None),
    (Between, false, 8, 48, None),
    (Between, false, 16, 48, None),
    (Between, false, 32, 48, Some(48)),
    (Between, false, 64, 48, Some(48)),
    (Between, false, 0, 60, None),
    (Between, false, 8, 60, None),
    (Between, false, 16, 60, None),
    (Between, false, 32, 60, Some(60)),
    (Between, false, 64, 60, Some(60)),
    (Between, false, 0, 64, None),
    (Between, false, 8, 64, None),
    (Between, false, 16, 64, None),
    (Between, false, 32, 64, None),
    (Between, false, 64, 64, None),
    (Before, false, 8, 32, None),
    (Before, false, 8, 40, None),
    (Before, false, 16, 32, None),
    (Before, false, 16, 40, None),
    (Before, false, 64, 32, None),
    (Before, false, 64, 40, None),
    (After, false, 8, 32, None),
    (After, false, 8, 40, None),
    (After, false, 16, 32, None),
    (After, false, 16, 40, None),
    (After, false, 64, 32, None),
    (After, false, 64, 40, None),
    (Between, true, 8, 32, None),
    (Between, true, 16, 32, Some(32)),
    (Between, true, 64, 32, Some(32)),
];

static INSNS: [InsnRow; 3] = [
    (0, 0, 0, 1, Lr, 5, 10, 0, false),
    (0, 0, 1, 1, Sd, 0, 11, 12, false),
    (0, 0, 0, 2, Sc, 7, 10, 12, true),
];

static EARLY_INSNS: [InsnRow; 2] = [
    (0, 0, 0, 1, Lr, 5, 10, 0, false),
    (0, 0, 0, 2, Sc, 7, 10, 12, true),
];

fn store_of(case: &BlockRow) -> OpRow {
    let place = match case.0 {
        Before => (5, 6, 6),
        Between => (11, 12, 12),
        After => (15, 16, 16),
    };
    let at = X + u64::from(case.3);
    (0, 0, (1, 1, 0), S, (at, 8, 255), (0, 1), Some(place))
}

// What the LR loads: a store to its own bytes that comes before it puts 1 there.
fn loaded(case: &BlockRow) -> u64 {
    match case.0 {
        Before => u64::from(u8::from(case.3 == 40)),
        Between => 0,
        After => 0,
    }
}

/// The trace of one case.
pub fn lists_of(alloc: Global, case: &BlockRow) -> Result<Lists, Fail> {
    let own = X + 40;
    let lr: OpRow = (
        0,
        0,
        (0, 1, 0),
        L,
        (own, 8, 255),
        (loaded(case), 0),
        Some((9, 10, 10)),
    );
    let sc: OpRow = (
        0,
        0,
        (0, 2, 0),
        S,
        (own, 8, 255),
        (0, 0),
        Some((13, 14, 14)),
    );
    let store = store_of(case);
    if case.1 {
        table::lists_of(
            alloc,
            &Tables {
                insns: &EARLY_INSNS,
                ops: &[lr, sc],
                early: &[store],
            },
            0,
            case.2,
        )
    } else {
        table::lists_of(
            alloc,
            &Tables {
                insns: &INSNS,
                ops: &[lr, store, sc],
                early: &[],
            },
            0,
            case.2,
        )
    }
}

/// The answer that the table wants.
pub fn expected(case: &BlockRow) -> Judged {
    match case.4 {
        None => Judged::Legal,
        Some(at) => wanted(Want::Atomicity((0, 2, 0), X + u64::from(at), (1, 1))),
    }
}
