//! Whether a trace in form is well kinded.
use crate::tests::table::Lists;
use rv_decode::Insn;
use rvwmo_model::{Ann, Op, OpKind, Retired};

/// Whether two operations are of one instruction.
pub fn is_same_insn(a: &Op, b: &Op) -> bool {
    a.name.hart == b.name.hart && a.name.tag == b.name.tag
}

/// The kind of the operations of an instruction, where it has some.
pub fn kind_of_retired(w: &Retired) -> Option<OpKind> {
    match w.insn {
        Insn::Load { .. } => Some(OpKind::Load),
        Insn::Lr { .. } => Some(OpKind::Load),
        Insn::Store { .. } => Some(OpKind::Store),
        Insn::Sc { .. } => w.stored.then_some(OpKind::Store),
        Insn::Amo { .. } => Some(OpKind::Both),
        _ => None,
    }
}

pub fn is_store(w: &Retired) -> bool {
    matches!(w.insn, Insn::Store { .. })
}

/// The mask that names each byte of the extent of an operation.
pub fn full_mask(o: &Op) -> u8 {
    if o.extent.len() == 4 { 15 } else { 255 }
}

/// Whether bit `part` is the lowest of a mask.
pub fn is_lowest(mask: u8, part: u8) -> bool {
    part < 8 && (mask >> part) & 1 == 1 && mask % (1u8 << part) == 0
}

fn insn_of(insns: &[Retired], o: &Op) -> Option<Retired> {
    for w in insns {
        if w.hart == o.name.hart && w.tag == o.name.tag {
            return Some(*w);
        }
    }
    None
}

/// Whether a plain store's operation could have these annotations.
pub fn is_plain(o: &Op) -> bool {
    o.acquire == Ann::None && o.release != Ann::Rcsc
}

fn is_of_kind(insns: &[Retired], o: &Op) -> bool {
    match insn_of(insns, o) {
        None => false,
        Some(w) => {
            kind_of_retired(&w) == Some(o.kind)
                && is_lowest(o.mask, o.name.part)
                && if is_store(&w) {
                    is_plain(o)
                } else {
                    o.place.is_some()
                }
        }
    }
}

fn all_of_kind(insns: &[Retired], ops: &[Op]) -> bool {
    for o in ops {
        if !is_of_kind(insns, o) {
            return false;
        }
    }
    true
}

/// Whether an operation shares its extent, and no byte, with the others of its instruction.
fn shares(o: &Op, others: &[Op]) -> bool {
    for v in others {
        if is_same_insn(o, v)
            && (o.extent != v.extent || o.mask & v.mask != 0 || o.kind == OpKind::Both)
        {
            return false;
        }
    }
    true
}

fn all_share(ops: &[Op]) -> bool {
    for k in 0..ops.len() {
        if !shares(&ops[k], &ops[k + 1..]) {
            return false;
        }
    }
    true
}

/// The bytes of the operations of the instruction of `o`.
fn mask_of(ops: &[Op], o: &Op) -> u8 {
    let mut mask = 0;
    for v in ops {
        if is_same_insn(o, v) {
            mask |= v.mask;
        }
    }
    mask
}

fn all_covered(insns: &[Retired], ops: &[Op]) -> bool {
    for o in ops {
        let store = insn_of(insns, o).is_some_and(|w| is_store(&w));
        if store && mask_of(ops, o) != full_mask(o) {
            return false;
        }
    }
    true
}

/// Whether all instructions of the hart of `o` are older.
pub fn is_youngest(insns: &[Retired], o: &Op) -> bool {
    for w in insns {
        if w.hart == o.name.hart && w.tag >= o.name.tag {
            return false;
        }
    }
    true
}

fn all_early(insns: &[Retired], early: &[Op]) -> bool {
    for o in early {
        if o.kind != OpKind::Store || !is_youngest(insns, o) {
            return false;
        }
    }
    true
}

/// Whether the trace is well kinded. Its successful SCs have pairs where it is judged Legal.
pub fn is_well_kinded(lists: &Lists) -> bool {
    let (ops, early) = lists.split();
    all_of_kind(&lists.insns, ops)
        && all_share(ops)
        && all_covered(&lists.insns, ops)
        && all_early(&lists.insns, early)
}
