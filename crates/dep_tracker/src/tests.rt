//! Worked programs, and each form of instruction as a writer, carrier and reader of a register and a CSR.

ghost use Rattle.std.specs.Prelude.{◌≡◌, true};
ghost use Rattle.dep_tracker.specs.Tables.{IsKnown};

mod forms;

use self::forms::{ARITHMETIC, ATOMICS, BRANCHES, CSRS, Form, JUMPS, LOADS_AND_STORES, SYSTEM};
use crate::Deps;
use csr_file::{CsrRead, Csrs};
use rv_decode::registers::{Register, named_csr};
use rv_decode::{Insn, decode};
use tandem_base::{Mark, OpName, Position};

/// An operation that a message performed; none is 0.
fn mark(message: u32) -> Option<Mark> {
    if message == 0 {
        return None;
    }
    Some(Mark {
        name: OpName {
            hart: 0,
            tag: 1,
            part: 0,
        },
        place: Position {
            message,
            insert: message,
        },
    })
}

/// The message of a mark; none is 0.
fn message(mark: Option<Mark>) -> u32 {
    match mark {
        Some(mark) => mark.place.message,
        None => 0,
    }
}

/// Whether a CSR that the instruction names is one of the twelve.
fn names_known(insn: &Insn) -> bool
    ensures { result ≡ true → IsKnown insn.now }
{
    match named_csr(insn) {
        Some(Register::Csr(number)) => match Csrs::new(0).read(number) {
            CsrRead::Absent => false,
            _ => true,
        },
        _ => true,
    }
}

/// Takes the instruction of a word, and answers whether there is one.
fn retire(deps: &mut Deps, word: u32, start: u32) -> bool {
    match decode(word) {
        Some(insn) if names_known(&insn) => {
            deps.retire(&insn, mark(start));
            true
        }
        _ => false,
    }
}

/// Takes the instructions of these words, each with the message of its latest operation.
fn retire_all(deps: &mut Deps, program: &[(u32, u32)]) -> bool {
    let mut all = true;
    for (word, start) in program {
        if !retire(deps, *word, *start) {
            all = false;
        }
    }
    all
}

fn address(deps: &Deps, word: u32) -> u32 {
    match decode(word) {
        Some(insn) => message(deps.address(&insn)),
        None => 99,
    }
}

fn value(deps: &Deps, word: u32) -> u32 {
    match decode(word) {
        Some(insn) => message(deps.value(&insn)),
        None => 99,
    }
}

/// lw x5,0(x10); lw x7,0(x10); csrrw x0,mscratch,x5; lw x6,0(x10)
const LOADED: [(u32, u32); 4] = [
    (0x0005_2283, 10),
    (0x0005_2383, 20),
    (0x3402_9073, 0),
    (0x0005_2303, 15),
];

/// The six marks of an instruction after those loads: ld x0,0(x6) asks for that of x6, and csrrs x9,mscratch,x0 and
/// ld x0,0(x9) for that of mscratch.
fn marks(word: u32, start: u32) -> Option<[u32; 6]> {
    let mut deps = Deps::new();
    if !retire_all(&mut deps, &LOADED) {
        return None;
    }
    let used = [address(&deps, word), value(&deps, word)];
    if !retire(&mut deps, word, start) {
        return None;
    }
    let control = message(deps.control());
    let past_address = message(deps.past_address());
    let register = address(&deps, 0x0003_3003);
    if !retire(&mut deps, 0x3400_24f3, 0) {
        return None;
    }
    let csr = address(&deps, 0x0004_b003);
    Some([used[0], used[1], control, past_address, register, csr])
}

/// The first word whose marks aren't those of its form.
fn other(forms: &[Form]) -> Option<u32> {
    for (start, want, words) in forms {
        for word in *words {
            if marks(*word, *start) != Some(*want) {
                return Some(*word);
            }
        }
    }
    None
}

/// The numbers of the CSRs, each with a message of its own.
const TWELVE: [(u32, u32); 12] = [
    (0x300, 1),
    (0x304, 2),
    (0x305, 3),
    (0x340, 4),
    (0x341, 5),
    (0x342, 6),
    (0x343, 7),
    (0x344, 8),
    (0xc00, 9),
    (0xc01, 10),
    (0xc02, 11),
    (0xf14, 12),
];

// lw x5,0(x10); xor x6,x5,x5; add x7,x11,x6; then lw x8,0(x7)
#[test]
fn arithmetic_between_two_loads_carries(rt: HostRuntime) {
    let mut deps = Deps::new();
    assert!(rt;
        retire_all(
            &mut deps,
            &[(0x0005_2283, 7), (0x0052_c333, 0), (0x0065_83b3, 0)]
        )
    );
    assert!(rt; address(&deps, 0x0003_a403) == 7);
    assert!(rt; deps.past_address().is_none());
    assert!(rt; deps.control().is_none());
}

// lw x5,0(x10); xor x6,x5,x5; auipc x9,0; add x9,x9,x6; jalr x7,12(x9); xor x7,x7,x7; add x7,x7,x11; then lw x8,0(x7)
#[test]
fn jalr_carries_nothing(rt: HostRuntime) {
    let mut deps = Deps::new();
    assert!(rt;
        retire_all(
            &mut deps,
            &[
                (0x0005_2283, 7),
                (0x0052_c333, 0),
                (0x0000_0497, 0),
                (0x0064_84b3, 0),
                (0x00c4_83e7, 0),
                (0x0073_c3b3, 0),
                (0x00b3_83b3, 0),
            ]
        )
    );
    assert!(rt; address(&deps, 0x0003_a403) == 0);
    assert!(rt; message(deps.control()) == 7);
    assert!(rt; deps.past_address().is_none());
}

#[test]
fn each_form_has_its_marks(rt: HostRuntime) {
    assert_eq!(rt; other(&JUMPS), None);
    assert_eq!(rt; other(&BRANCHES), None);
    assert_eq!(rt; other(&LOADS_AND_STORES), None);
    assert_eq!(rt; other(&ARITHMETIC), None);
    assert_eq!(rt; other(&SYSTEM), None);
    assert_eq!(rt; other(&CSRS), None);
    assert_eq!(rt; other(&ATOMICS), None);
}

// lw x5,0(x10); csrrw x0,number,x5 for each CSR; and for each csrrs x9,number,x0, and then ld x0,0(x9)
#[test]
fn each_csr_has_its_own_mark(rt: HostRuntime) {
    let mut deps = Deps::new();
    for (number, start) in TWELVE {
        assert!(rt; retire(&mut deps, 0x0005_2283, start));
        assert!(rt; retire(&mut deps, number << 20 | 0x0002_9073, 0));
    }
    for (number, start) in TWELVE {
        assert!(rt; retire(&mut deps, number << 20 | 0x0000_24f3, 0));
        assert!(rt; address(&deps, 0x0004_b003) == start, "at {number}");
    }
}

// lw xk,0(x10) for each register; and for each ld x0,0(xk)
#[test]
fn each_register_but_x0_has_its_own_mark(rt: HostRuntime) {
    let mut deps = Deps::new();
    for k in 0..32 {
        assert!(rt; retire(&mut deps, k << 7 | 0x0005_2003, k + 1));
    }
    assert!(rt; address(&deps, 0x0000_3003) == 0);
    for k in 1..32 {
        assert!(rt; address(&deps, k << 15 | 0x0000_3003) == k + 1, "at {k}");
    }
}
