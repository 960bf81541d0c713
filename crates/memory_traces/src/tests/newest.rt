//! What is answered at the newest step of a trace, where it is asked of a hart and a tag. The answers
//! come from the text of the memory model and from an independent reading.
use super::judged::{pairs, rows};
use super::judging::{judged, newest};
use super::table::Kind::{Amoadd, Ld, Lr, Lw, Sc, Sd};
use super::table::LastWant::{Disordered, Fine, Torn, Wrong};
use super::table::{
    B, InsnRow, L, LastRow, OpRow, S, Tables, Want, X, last_wanted, lists_of, wanted,
};
use std::alloc::Global;
use std::process::Abort;
use std::test::Fail;

/// Asked of the traces of the rows.
static OF_ROWS: [LastRow; 9] = [
    // a load that isn't forwarded: its own instruction, no other, and no tag
    (7, 0, 0, Some(2), Wrong(X, 1, 0)),
    (7, 0, 0, Some(1), Fine),
    (7, 0, 1, Some(2), Fine),
    (7, 0, 0, None, Fine),
    // a broken pair is asked of the whole trace
    (1, 0, 0, None, Disordered(4, (0, 1, 0), (0, 3, 0))),
    (1, 0, 0, Some(1), Disordered(4, (0, 1, 0), (0, 3, 0))),
    (1, 0, 1, Some(9), Disordered(4, (0, 1, 0), (0, 3, 0))),
    (8, 0, 0, Some(2), Disordered(2, (0, 1, 0), (0, 2, 0))),
    (37, 0, 0, Some(3), Disordered(1, (0, 2, 0), (0, 3, 0))),
];

/// Asked of the traces with pairs of LR and SC.
static OF_PAIRS: [LastRow; 7] = [
    // an SC that isn't atomic: its own instruction, not its LR, and no tag
    (13, 0, 0, Some(3), Torn(X, (1, 1))),
    (13, 0, 0, Some(1), Fine),
    (13, 0, 0, None, Fine),
    (19, 16, 0, Some(2), Torn(X + 8, (1, 1))),
    (31, 0, 0, Some(2), Torn(X, (1, 9))),
    // order before atomicity
    (33, 0, 0, Some(3), Disordered(1, (0, 1, 0), (0, 3, 0))),
    // a missing pair isn't asked
    (34, 0, 0, Some(2), Fine),
];

/// Asked of the traces below.
static OF_THESE: [LastRow; 13] = [
    // a misaligned load in two interleaved parts: its lowest wrong byte is in the second part
    (0, 0, 0, Some(1), Wrong(X + 3, 0, 7)),
    // the first part alone is wrong
    (1, 0, 0, Some(1), Wrong(X + 5, 0, 9)),
    // an AMO and a load around it that is wrong too: value before order
    (2, 0, 0, Some(2), Wrong(X, 1, 7)),
    (2, 0, 0, Some(1), Disordered(2, (0, 1, 0), (0, 2, 0))),
    (2, 0, 0, None, Disordered(2, (0, 1, 0), (0, 2, 0))),
    // an AMO is not its own source
    (3, 0, 0, Some(1), Wrong(X, 0, 5)),
    // a store of another hart between LR and SC, and the SC before an older store: order before atomicity
    (4, 0, 0, Some(3), Disordered(1, (0, 2, 0), (0, 3, 0))),
    // two wrong loads of one hart, and one of another hart under the same tag
    (5, 0, 0, Some(1), Wrong(X, 0, 1)),
    (5, 0, 0, Some(2), Wrong(X, 0, 2)),
    (5, 0, 1, Some(2), Wrong(X, 0, 3)),
    (5, 0, 1, Some(1), Fine),
    (5, 0, 0, Some(3), Fine),
    (5, 0, 0, None, Fine),
];

static INSNS: [InsnRow; 12] = [
    (0, 1, 0, 1, Ld, 5, 10, 0, false),
    (2, 3, 0, 1, Amoadd, 5, 10, 12, false),
    (2, 2, 0, 2, Lw, 6, 10, 0, false),
    (4, 4, 0, 1, Lr, 5, 10, 0, false),
    (4, 4, 0, 2, Sd, 0, 10, 12, false),
    (4, 4, 0, 3, Sc, 7, 10, 12, true),
    (4, 4, 1, 1, Sd, 0, 10, 12, false),
    (5, 5, 0, 1, Lw, 5, 10, 0, false),
    (5, 5, 0, 2, Lw, 6, 10, 0, false),
    (5, 5, 0, 3, Lw, 7, 10, 0, false),
    (5, 5, 1, 1, Lw, 5, 10, 0, false),
    (5, 5, 1, 2, Lw, 6, 10, 0, false),
];

static OPS: [OpRow; 15] = [
    (
        0,
        1,
        (0, 1, 0),
        L,
        (X + 1, 8, 243),
        (9 << 32, 0),
        Some((5, 6, 6)),
    ),
    (
        0,
        0,
        (0, 1, 2),
        L,
        (X + 1, 8, 12),
        (7 << 16, 0),
        Some((6, 7, 7)),
    ),
    (1, 1, (0, 1, 2), L, (X + 1, 8, 12), (0, 0), Some((6, 7, 7))),
    (2, 2, (0, 1, 0), B, (X, 4, 15), (0, 1), Some((7, 8, 8))),
    (2, 2, (0, 2, 0), L, (X, 4, 15), (7, 0), Some((6, 7, 7))),
    (3, 3, (0, 1, 0), B, (X, 4, 15), (5, 6), Some((6, 7, 7))),
    (4, 4, (0, 1, 0), L, (X, 8, 255), (0, 0), Some((9, 10, 10))),
    (4, 4, (0, 2, 0), S, (X, 8, 255), (0, 1), None),
    (4, 4, (0, 3, 0), S, (X, 4, 15), (0, 1), Some((14, 15, 15))),
    (4, 4, (1, 1, 0), S, (X, 8, 255), (0, 1), Some((11, 12, 12))),
    (5, 5, (0, 1, 0), L, (X, 4, 15), (1, 0), Some((5, 6, 6))),
    (5, 5, (0, 2, 0), L, (X, 4, 15), (2, 0), Some((6, 7, 7))),
    (5, 5, (0, 3, 0), L, (X, 4, 15), (0, 0), Some((7, 8, 8))),
    (5, 5, (1, 1, 0), L, (X, 4, 15), (0, 0), Some((8, 9, 9))),
    (5, 5, (1, 2, 0), L, (X, 4, 15), (3, 0), Some((9, 10, 10))),
];

fn each<R: Abort>(
    rt: &R,
    alloc: Global,
    cases: &[LastRow],
    tables: &Tables<'_>,
) -> Result<(), Fail> {
    for case in cases {
        let (number, granule, hart, tag, want) = *case;
        let lists = lists_of(alloc, tables, number, granule)?;
        let answer = newest(alloc, &lists, hart, tag)?;
        assert_eq!(rt; answer, last_wanted(want), "case {}, hart {}", number, hart);
    }
    Ok(())
}

#[test]
fn asks_rows(rt: HostRuntime) -> Result<(), Fail> {
    let alloc = rt.alloc();
    let tables = Tables {
        insns: &rows::INSNS,
        ops: &rows::OPS,
        early: &rows::EARLY,
    };
    each(&rt, alloc, &OF_ROWS, &tables)?;
    let tables = Tables {
        insns: &pairs::INSNS,
        ops: &pairs::OPS,
        early: &pairs::EARLY,
    };
    each(&rt, alloc, &OF_PAIRS, &tables)
}

#[test]
fn asks_the_retiring_instruction(rt: HostRuntime) -> Result<(), Fail> {
    let tables = Tables {
        insns: &INSNS,
        ops: &OPS,
        early: &[],
    };
    each(&rt, rt.alloc(), &OF_THESE, &tables)
}

// The judge of whole traces goes by the first part of the load that has a wrong byte.
#[test]
fn judges_by_parts(rt: HostRuntime) -> Result<(), Fail> {
    let alloc = rt.alloc();
    let tables = Tables {
        insns: &INSNS,
        ops: &OPS,
        early: &[],
    };
    let answer = judged(alloc, 0, &lists_of(alloc, &tables, 0, 0)?)?;
    assert_eq!(rt; answer, wanted(Want::Value((0, 1, 0), X + 5, 0, 9)));
    Ok(())
}
