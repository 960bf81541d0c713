//! Each instruction at the ends of its ranges, each trap, and each use of a CSR.

ghost use Rattle.std.specs.Prelude.{IsTrue};
ghost use Rattle.rv_step.specs.Steps.{HasLoaded};

mod control;
mod integers;
mod state;

use self::control::{JUMPS, TRAPS};
use self::integers::RESULTS;
use self::state::{ACCESSES, CSRS};
use elf_image::{Image, ImageFault, Ram};
use msg_frames::{CsrValue, Poke, RdValue, Target};
use rv_step::{Config, Effect, Hart, Outside, Plan, What};
use std::alloc::Global;
use std::process::Abort;
use std::test::Fail;
use tandem_base::csrs::{MCAUSE, MEPC, MSTATUS, MTVAL, MTVEC};
use tandem_base::{Bytes8, Extent};

const BASE: u64 = 0x8000_0000;

/// The least number with a sign, and the greatest.
const LEAST: u64 = 1 << 63;

const MOST: u64 = LEAST - 1;

const PLAIN: Config = Config {
    mtval_word: false,
    traps_misaligned: false,
};

const NOTHING: Outside = Outside {
    load: None,
    stored: false,
    reported: 0,
};

/// A word at BASE, and RAM behind it.
fn image_of(alloc: Global, word: u32) -> Result<Image, ImageFault> {
    let ram = Ram {
        base: 0x8000_1000,
        size: 0x1000,
    };
    Image::flat(alloc, &word.to_le_bytes(), BASE, &[ram])
}

/// A hart at BASE with these values in x1 and x2.
fn hart_with(x1: u64, x2: u64) -> Hart {
    let mut hart = Hart::new(3, BASE);
    hart.poke(&Poke {
        target: Target::X(1),
        value: x1,
    });
    hart.poke(&Poke {
        target: Target::X(2),
        value: x2,
    });
    hart
}

/// Whether the loaded bytes are as many as the extent has.
fn are_loaded(outside: &Outside, extent: &Extent) -> bool
    ensures { IsTrue result → HasLoaded outside.now extent.now.len }
{
    match outside.load {
        Some(bytes) => bytes.len() == extent.len(),
        None => false,
    }
}

/// Plans and finishes the word at the hart's pc.
fn step(
    rt: &impl Abort,
    hart: &mut Hart,
    image: &Image,
    config: &Config,
    outside: &Outside,
) -> Effect {
    let plan = hart.plan(image, config);
    match plan.what {
        What::Load(_, extent) => {
            assert!(rt; are_loaded(outside, &extent));
            hart.finish(&plan, outside)
        }
        What::Lr(_, extent) => {
            assert!(rt; are_loaded(outside, &extent));
            hart.finish(&plan, outside)
        }
        What::Amo(_, extent) => {
            assert!(rt; are_loaded(outside, &extent));
            hart.finish(&plan, outside)
        }
        What::Trap { .. } => hart.finish(&plan, outside),
        What::Plain(_) => hart.finish(&plan, outside),
        What::Counter(_) => hart.finish(&plan, outside),
        What::Store(_, _) => hart.finish(&plan, outside),
        What::Sc(_, _) => hart.finish(&plan, outside),
    }
}

/// What the hart reports of this word.
fn effect_of(
    rt: &impl Abort,
    alloc: Global,
    word: u32,
    mut hart: Hart,
    config: &Config,
    outside: &Outside,
) -> Result<Effect, ImageFault> {
    let image = image_of(alloc, word)?;
    Ok(step(rt, &mut hart, &image, config, outside))
}

/// Whether the step goes on at an address, and writes that register and nothing else.
fn only_writes(effect: &Effect, next: u64, rd: Option<(u8, u64)>) -> bool {
    let rd = rd.map(|(number, value)| RdValue { number, value });
    effect.next == next
        && effect.rd == rd
        && effect.csrs.len() == 0
        && effect.store.is_none()
        && effect.trap.is_none()
}

#[test]
fn computes(rt: HostRuntime) -> Result<(), Fail> {
    check_computes(&rt, rt.alloc(), &RESULTS)
}

fn check_computes(
    rt: &impl Abort,
    alloc: Global,
    rows: &[(u32, u64, u64, u64)],
) -> Result<(), Fail> {
    for (word, x1, x2, want) in rows {
        let effect = effect_of(rt, alloc, *word, hart_with(*x1, *x2), &PLAIN, &NOTHING)?;
        let computed = only_writes(&effect, BASE + 4, Some((3, *want)));
        assert!(rt; computed, "at {word} {x1} {x2}");
    }
    Ok(())
}

#[test]
fn jumps(rt: HostRuntime) -> Result<(), Fail> {
    check_jumps(&rt, rt.alloc(), &JUMPS)
}

fn check_jumps(
    rt: &impl Abort,
    alloc: Global,
    rows: &[(u32, u64, u64, u64, Option<(u8, u64)>)],
) -> Result<(), Fail> {
    for (word, x1, x2, next, rd) in rows {
        let effect = effect_of(rt, alloc, *word, hart_with(*x1, *x2), &PLAIN, &NOTHING)?;
        let jumped = only_writes(&effect, *next, *rd);
        assert!(rt; jumped, "at {word} {x1} {x2}");
    }
    Ok(())
}

/// A hart at BASE with this value in x1, and a handler of traps.
fn hart_with_handler(x1: u64) -> Hart {
    let mut hart = hart_with(x1, 0);
    hart.poke(&Poke {
        target: Target::Csr(MSTATUS),
        value: 8,
    });
    hart.poke(&Poke {
        target: Target::Csr(MTVEC),
        value: 0x8000_0103,
    });
    hart
}

/// Whether the CSR at that place of the report is this one, with this value.
fn has_csr(effect: &Effect, at: usize, number: u16, value: u64) -> bool {
    effect.csrs.get(at) == Some(CsrValue { number, value })
}

/// Whether that hart takes this trap at BASE.
fn takes_trap(effect: &Effect, cause: u8, mtval: u64) -> bool {
    effect.trap == Some(cause)
        && effect.next == 0x8000_0100
        && effect.rd.is_none()
        && effect.store.is_none()
        && effect.csrs.len() == 4
        && has_csr(effect, 0, MSTATUS, 0x1880)
        && has_csr(effect, 1, MEPC, BASE)
        && has_csr(effect, 2, MCAUSE, u64::from(cause))
        && has_csr(effect, 3, MTVAL, mtval)
}

#[test]
fn traps(rt: HostRuntime) -> Result<(), Fail> {
    check_traps(&rt, rt.alloc(), &TRAPS)
}

fn check_traps(
    rt: &impl Abort,
    alloc: Global,
    rows: &[(u32, u64, bool, bool, u8, u64)],
) -> Result<(), Fail> {
    for (word, x1, mtval_word, traps_misaligned, cause, mtval) in rows {
        let config = Config {
            mtval_word: *mtval_word,
            traps_misaligned: *traps_misaligned,
        };
        let hart = hart_with_handler(*x1);
        let effect = effect_of(rt, alloc, *word, hart, &config, &NOTHING)?;
        let trapped = takes_trap(&effect, *cause, *mtval);
        assert!(rt; trapped, "at {word} {x1}");
    }
    Ok(())
}

/// What comes from outside with the low bytes of a number, as many as are loaded.
fn loading(number: u64, len: u8) -> Outside {
    let bytes = number.to_le_bytes();
    Outside {
        load: bytes
            .get(..len as usize)
            .and_then(|bytes| Bytes8::new(bytes)),
        stored: false,
        reported: 0,
    }
}

/// Whether the step goes on at the next word, and writes this value to a register and these bytes: a
/// number with the address and the length.
fn accesses_as(effect: &Effect, rd: Option<u64>, store: Option<(u64, u64, u8)>) -> bool {
    let value = effect.rd.map(|rd| rd.value);
    let stored = effect.store.map(|piece| (piece.addr, piece.bytes.number(), piece.bytes.len()));
    value == rd && stored == store && effect.trap.is_none() && effect.next == BASE + 4
}

#[test]
fn accesses(rt: HostRuntime) -> Result<(), Fail> {
    check_accesses(&rt, rt.alloc(), &ACCESSES)
}

fn check_accesses(
    rt: &impl Abort,
    alloc: Global,
    rows: &[(
        u32,
        u64,
        u64,
        (u64, u8),
        Option<u64>,
        Option<(u64, u64, u8)>,
    )],
) -> Result<(), Fail> {
    for (word, x1, x2, (number, len), x3, store) in rows {
        let outside = loading(*number, *len);
        let effect = effect_of(rt, alloc, *word, hart_with(*x1, *x2), &PLAIN, &outside)?;
        let accessed = accesses_as(&effect, *x3, *store);
        assert!(rt; accessed, "at {word} {x1}");
    }
    Ok(())
}

/// A hart at BASE with this value in x1, and this one in a CSR.
fn hart_with_csr(rt: &impl Abort, x1: u64, number: u16, value: u64) -> Hart {
    let mut hart = hart_with(x1, 0);
    assert!(rt;
        matches!(
            number,
            0x300 | 0x304 | 0x305 | 0x340 | 0x341 | 0x342 | 0x343
        )
    );
    hart.poke(&Poke {
        target: Target::Csr(number),
        value,
    });
    hart
}

/// Whether the step goes on at the next word, and writes that register and that CSR alone.
fn uses_csr(effect: &Effect, rd: Option<(u8, u64)>, csr: Option<(u16, u64)>) -> bool {
    let rd = rd.map(|(number, value)| RdValue { number, value });
    let csr = csr.map(|(number, value)| CsrValue { number, value });
    effect.rd == rd
        && effect.csrs.get(0) == csr
        && effect.csrs.get(1).is_none()
        && effect.next == BASE + 4
}

#[test]
fn uses_csrs(rt: HostRuntime) -> Result<(), Fail> {
    check_uses_csrs(&rt, rt.alloc(), &CSRS)
}

fn check_uses_csrs(
    rt: &impl Abort,
    alloc: Global,
    rows: &[(
        u32,
        u64,
        (u16, u64),
        u64,
        Option<(u8, u64)>,
        Option<(u16, u64)>,
    )],
) -> Result<(), Fail> {
    for (word, x1, (number, value), reported, rd, csr) in rows {
        let hart = hart_with_csr(rt, *x1, *number, *value);
        let outside = Outside {
            load: None,
            stored: false,
            reported: *reported,
        };
        let effect = effect_of(rt, alloc, *word, hart, &PLAIN, &outside)?;
        let used = uses_csr(&effect, *rd, *csr);
        assert!(rt; used, "at {word} {x1}");
    }
    Ok(())
}

#[test]
fn stores_conditionally(rt: HostRuntime) -> Result<(), Fail> {
    let (addr, x2) = (0x8000_1008, 0x0123_4567_89ab_cdef);
    for (word, stored, rd, store) in [
        (0x1820_a1af, true, Some(0), Some((addr, 0x89ab_cdef, 4))),
        (0x1820_a1af, false, Some(9), None),
        (0x1820_b1af, true, Some(0), Some((addr, x2, 8))),
        (0x1820_a02f, true, None, Some((addr, 0x89ab_cdef, 4))),
    ] {
        let outside = Outside {
            load: None,
            stored,
            reported: 9,
        };
        let hart = hart_with(addr, x2);
        let effect = effect_of(&rt, rt.alloc(), word, hart, &PLAIN, &outside)?;
        let accessed = accesses_as(&effect, rd, store);
        assert!(rt; accessed, "at {word}");
    }
    Ok(())
}

/// Steps the word at BASE, with the registers, CSRs and count that the hart has.
fn step_at_base(
    rt: &impl Abort,
    alloc: Global,
    hart: &mut Hart,
    word: u32,
) -> Result<Effect, ImageFault> {
    hart.poke(&Poke {
        target: Target::Pc,
        value: BASE,
    });
    let image = image_of(alloc, word)?;
    Ok(step(rt, hart, &image, &PLAIN, &NOTHING))
}

#[test]
fn counts_what_retires_without_a_trap(rt: HostRuntime) -> Result<(), Fail> {
    let mut hart = Hart::new(0, BASE);
    // a NOP, an ECALL and an MRET
    for word in [0x13, 0x73, 0x3020_0073] {
        step_at_base(&rt, rt.alloc(), &mut hart, word)?;
    }
    // rdinstret x3
    let effect = step_at_base(&rt, rt.alloc(), &mut hart, 0xc020_21f3)?;
    let counted = only_writes(&effect, BASE + 4, Some((3, 2)));
    assert!(rt; counted);
    Ok(())
}

#[test]
fn fetches_in_the_image_alone(rt: HostRuntime) -> Result<(), Fail> {
    let image = image_of(rt.alloc(), 0x13)?;
    let plan = Hart::new(0, 0x4000).plan(&image, &PLAIN);
    let want = Plan {
        word: 0,
        what: What::Trap {
            cause: 1,
            value: 0x4000,
        },
    };
    assert!(rt; plan == want);
    Ok(())
}
