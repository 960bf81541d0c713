//! Whether stores are shared out among their parts.
use super::kinds::is_same_insn;
use rvwmo_model::Op;

/// Whether the bytes of `n` are those of `o`.
fn has_bytes(n: &Op, o: &Op) -> bool {
    for k in 0..8u8 {
        if (n.mask >> k) & 1 == 1
            && k < n.put.len()
            && k < o.put.len()
            && n.put.byte(k) != o.put.byte(k)
        {
            return false;
        }
    }
    true
}

fn is_part(n: &Op, o: &Op) -> bool {
    is_same_insn(n, o)
        && n.kind == o.kind
        && n.extent == o.extent
        && n.acquire == o.acquire
        && n.release == o.release
        && has_bytes(n, o)
}

/// The bytes that the parts of `o` have.
fn mask_of(parts: &[Op], o: &Op) -> u8 {
    let mut mask = 0;
    for n in parts {
        if is_part(n, o) {
            mask |= n.mask;
        }
    }
    mask
}

/// Whether each store that is gone wasn't performed, and is shared out among its parts.
pub fn all_shared(gone: &[Op], parts: &[Op]) -> bool {
    for o in gone {
        if o.place.is_some() || mask_of(parts, o) != o.mask {
            return false;
        }
    }
    true
}

fn is_some_part(gone: &[Op], n: &Op) -> bool {
    for o in gone {
        if is_part(n, o) {
            return true;
        }
    }
    false
}

/// Whether each is a part of a store that is gone, and of one hart.
pub fn all_parts(gone: &[Op], parts: &[Op], hart: u8) -> bool {
    for n in parts {
        if n.name.hart != hart || !is_some_part(gone, n) {
            return false;
        }
    }
    true
}
